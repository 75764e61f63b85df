// Judges the bytes of either sheet: why it is refused, or its constraints, the verdict on each and the total.
#![tactic(auto)]

ghost use Rattle.std.specs.Prelude.{◌≡◌, ◌*◌, ◌≤◌, length};
ghost use Rattle.meaning.specs.Plan.{constraint_length, most_constraints};
ghost use Rattle.meaning.specs.Moves.{verdict_length};
ghost use Rattle.form.specs.declared.Form.TheVariants.{Second};
ghost use Rattle.form.specs.FormLaws.{Bounded};
ghost use Rattle.form.specs.Refusals.{contents_refusal};
ghost use Rattle.form.specs.Over.{over};
ghost use Rattle.holding.specs.Held.{most_held, contents_held};
ghost use Rattle.judging.specs.Judgement.{verdicts_held, total_held};
ghost use Rattle.judging.specs.Judged.{Leaves};

use form::{Form, Head};
use gathering::read;
use holding::MOST_HELD;
use holding::places::{colouring_in, lists_in};
use refusals::Refusal;
use sheet::opening::head_in;
use terms::limits::{MOST_REGIONS, MOST_SECTORS};

// What a sheet that is not refused comes to: how many constraints it has, and the total.
#[derive(Clone, Copy)]
pub struct Judged {
    pub constraints: u64,
    pub total: u64,
}

// Puts the verdicts on what is held, which is not refused, down at the front of the lent list, and answers their total.
fn judge_held(head: Head, held: &[u64], verdicts: &mut [u64]) -> u64
    requires bounded { Bounded head × (most_held ≤ length held.now) }
    requires held_value { (contents_refusal Second (contents_held head held.now)).code ≡ 0 }
    requires most_constraints_in_bounds { verdict_length * most_constraints ≤ length verdicts.old }
    ensures { let k = contents_held head held.now in (result ≡ total_held k) × (verdicts.new ≡ over (verdicts_held k) verdicts.old) }
{
    let mut colouring = [0u64; MOST_REGIONS as usize];
    let lent = &mut colouring[..head.regions as usize];
    lent.copy_from_slice(colouring_in(held, head));
    let mut work = [0u64; MOST_REGIONS as usize + 2 * MOST_SECTORS as usize + 1];
    let answer = call::judge(
        head.regions,
        lists_in(held, head),
        lent,
        &[],
        &mut [],
        verdicts,
        &mut work,
    );
    answer.last
}

// Puts the constraints of a sheet and the verdicts on them down at the fronts of the lent lists; a sheet that is refused leaves them as they are.
pub fn judge_sheet(
    sheet: &[u8],
    constraints: &mut [u64],
    verdicts: &mut [u64],
) -> Result<Judged, Refusal>
    requires most_constraints_in_bounds { constraint_length * most_constraints ≤ length constraints.old }
    requires most_constraints_in_bounds_2 { verdict_length * most_constraints ≤ length verdicts.old }
    ensures { Leaves sheet.now constraints.old verdicts.old result constraints.new verdicts.new }
{
    let mut held = [0u64; MOST_HELD];
    read(sheet, &mut held)?;
    let head = head_in(Form::of(sheet), sheet);
    let own = lists_in(&held, head).constraints;
    constraints[..own.len()].copy_from_slice(own);
    let total = judge_held(head, &held, verdicts);
    Ok(Judged {
        constraints: head.constraints,
        total,
    })
}

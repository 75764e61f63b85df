// All numbers of a sheet, held in one list: the workloads, then outside areas, edges, constraints, colouring, visit counts and visits. (Form, sheet and head are parameters of their own, as in the crates below and in the spec's `HasBlocks` and `Opened`.)
#![tactic(auto)]

ghost use Rattle.std.specs.Prelude.{◌≡◌, ◌≤◌, length};
ghost use Rattle.refusals.specs.Checked.{checked, answer};
ghost use Rattle.blocks.specs.Sheet.{fault_within};
ghost use Rattle.form.specs.Form.{letters, form_in, dues};
ghost use Rattle.form.specs.Firsts.{HasBlocks};
ghost use Rattle.form.specs.FormLaws.{Bounded};
ghost use Rattle.form.specs.Refusals.{contents_refusal, later_fault, sheet_refusal, refusal_by};
ghost use Rattle.holding.specs.Held.{most_held, contents_held, Holds};

use crate::sections::read_lists;
use blocks::faults::first_fault;
use form::sections::{all_blocks, sections};
use form::{Form, Head};
use places::{colouring_in, lists_in};
use refusals::{Refusal, plan_refusal};
use sheet::opening::{head_in, open_refusal};
use terms::limits::{
    CONSTRAINT_LENGTH, EDGE_LENGTH, MOST_CONSTRAINTS, MOST_EDGES, MOST_FLIGHTS, MOST_REGIONS,
    MOST_VISITS, VISIT_LENGTH,
};

pub mod places; // places.rt: where each list stands
pub mod sections; // sections.rt: the numbers of each kind of blocks, read into their places

// The numbers of the largest sheet.
pub const MOST_HELD: usize = 3 * MOST_REGIONS as usize
    + EDGE_LENGTH * MOST_EDGES as usize
    + CONSTRAINT_LENGTH * MOST_CONSTRAINTS as usize
    + MOST_FLIGHTS as usize
    + VISIT_LENGTH * (MOST_VISITS * MOST_FLIGHTS) as usize;

// The first block that is refused of those from block `from` up to block `to`.
pub fn fault_between(
    form: Form,
    sheet: &[u8],
    head: Head,
    from: usize,
    to: usize,
) -> Result<(), Refusal>
    requires { HasBlocks form sheet.now head × (to ≤ length (dues form head)) }
    ensures { result ≡ checked (fault_within (letters form) (dues form head) sheet.now from to) }
{
    first_fault(sheet, &form.letters(), &sections(form, head), from, to)
}

// The first block after the head that is refused.
fn later_fault(form: Form, sheet: &[u8], head: Head) -> Result<(), Refusal>
    requires { HasBlocks form sheet.now head }
    ensures { result ≡ checked (later_fault form head sheet.now) }
{
    fault_between(form, sheet, head, 1, all_blocks(form, head))
}

// What is refused of the lists that are held, by the call's table.
pub fn contents_refusal(form: Form, head: Head, held: &[u64]) -> Result<(), Refusal>
    requires { Bounded head × (most_held ≤ length held.now) }
    ensures { result ≡ checked (contents_refusal form (contents_held head held.now)) }
{
    plan_refusal(
        form.kind_count(),
        head.regions,
        lists_in(held, head),
        colouring_in(held, head),
    )
}

// Holds the numbers of a sheet of this form, or answers what it is refused for.
pub fn hold(form: Form, sheet: &[u8], held: &mut [u64]) -> Result<(), Refusal>
    requires { most_held ≤ length held.old }
    ensures refusal { result ≡ checked (sheet_refusal form sheet.now) }
    ensures held_after { Holds form sheet.now (answer result) held.new }
{
    open_refusal(form, sheet)?;
    let head = head_in(form, sheet);
    later_fault(form, sheet, head)?;
    read_lists(form, sheet, head, held);
    contents_refusal(form, head, held).map_err(|refusal| Refusal {
        code: 37,
        place: refusal.code,
    })
}

// Holds the numbers of either sheet, by its letters, or answers what it is refused for.
pub fn hold_either(sheet: &[u8], held: &mut [u64]) -> Result<(), Refusal>
    requires { most_held ≤ length held.old }
    ensures refusal { result ≡ checked (refusal_by sheet.now) }
    ensures held_after { Holds (form_in sheet.now) sheet.now (answer result) held.new }
{
    hold(Form::of(sheet), sheet, held)
}

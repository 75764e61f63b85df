// What a sheet is refused for, its colouring passed over, and what it holds.
ghost use Rattle.std.specs.Prelude.{◌≡◌, ◌≤◌, ◌++◌, length};
ghost use Rattle.refusals.specs.Checked.{checked, answer};
ghost use Rattle.refusals.specs.Table.{refusal};
ghost use Rattle.form.specs.Firsts.{HasBlocks};
ghost use Rattle.form.specs.Refusals.{open_table};
ghost use Rattle.holding.specs.Held.{most_held};
ghost use Rattle.salvage.specs.Promise.{other_table};
ghost use Rattle.salvage.specs.Others.{other_fault, HoldsOthers};

use form::sections::{all_blocks, colouring_first, count_first};
use form::{Form, Head};
use holding::sections::read_lists;
use holding::{contents_refusal, fault_between};
use refusals::{Refusal, refuse_if};
use sheet::opening::{head_in, open_refusal};

// The call's code for a colouring.
const COLOURING: u64 = 8;

// The first block after the head that is refused, those of the colouring passed over.
fn other_fault(form: Form, sheet: &[u8], head: Head) -> Result<(), Refusal>
    requires { HasBlocks form sheet.now head }
    ensures { result ≡ checked (other_fault form head sheet.now) }
{
    fault_between(form, sheet, head, 1, colouring_first(form, head))?;
    fault_between(
        form,
        sheet,
        head,
        count_first(form, head),
        all_blocks(form, head),
    )
}

// Holds the numbers of a sheet of this form, or answers what it is refused for, its colouring passed over. (The steps are those of `holding::hold` over other rows. With closures for the rows the contract would speak of what these return, and be no plainer.)
pub fn hold_others(form: Form, sheet: &[u8], held: &mut [u64]) -> Result<(), Refusal>
    requires { most_held ≤ length held.old }
    ensures refusal { result ≡ checked (refusal (open_table form sheet.now ++ other_table form sheet.now)) }
    ensures held_after { HoldsOthers form sheet.now (answer result) held.new }
{
    open_refusal(form, sheet)?;
    let head = head_in(form, sheet);
    other_fault(form, sheet, head)?;
    read_lists(form, sheet, head, held);
    match contents_refusal(form, head, held) {
        Ok(()) => Ok(()),
        Err(refusal) => refuse_if(refusal.code != COLOURING, 37, refusal.code),
    }
}

// The blocks of either sheet: whether there is one at a place, and its used payload, as that part of the sheet.
ghost use Rattle.std.specs.Prelude.{◌≡◌};
ghost use Rattle.blocks.specs.Shown.{no_part, PartOf};
ghost use Rattle.sheet.specs.Showing.{past_end, next_place, Promise};

use crate::opening::{head_in, open_refusal};
use blocks::faults::block_fault;
use blocks::reading::payload;
use form::Form;
use form::sections::{all_blocks, due_of};

// The empty part at the sheet's start.
fn empty_part(sheet: &[u8]) -> &[u8]
    ensures { PartOf sheet.entry no_part result }
{
    &sheet[0..0]
}

// Whether there is no block at a place, from 0: none is past the last one, nor anywhere in a sheet whose length, head or block count is refused.
pub fn past_end(sheet: &[u8], number: usize) -> bool
    ensures { result ≡ past_end sheet.now number }
{
    let form = Form::of(sheet);
    open_refusal(form, sheet).is_err() || number >= all_blocks(form, head_in(form, sheet))
}

// The place after a block; one where there is no block stays.
pub fn after(sheet: &[u8], number: usize) -> usize
    ensures { result ≡ next_place sheet.now number }
{
    if past_end(sheet, number) {
        return number;
    }
    number + 1
}

// Shows the used payload of a block, from 0; of a block that is refused or not there, an empty part.
pub fn block(sheet: &[u8], number: usize) -> &[u8]
    ensures { Promise sheet.entry number result }
{
    if past_end(sheet, number) {
        return empty_part(sheet);
    }
    let form = Form::of(sheet);
    let due = due_of(form, head_in(form, sheet), number).unwrap();
    match block_fault(sheet, &form.letters(), number, due) {
        Ok(()) => payload(sheet, number, due.used),
        Err(_) => empty_part(sheet),
    }
}

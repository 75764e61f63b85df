// What survives of a damaged sheet's colouring.
ghost use Rattle.std.specs.Prelude.{◌≡◌, cond, ◌&&◌, ◌<◌, leb, length};
ghost use Rattle.terms.specs.Plan.{within};
ghost use Rattle.blocks.specs.Block.{most_payload};
ghost use Rattle.form.specs.Form.{dues, head_in, contents_in};
ghost use Rattle.form.specs.Firsts.{HasBlocks};
ghost use Rattle.salvage.specs.Surviving.{sound_at, survivors};

use blocks::faults::block_fault;
use form::sections::{SECTOR_SIZE, colouring_first, count_first, due_of};
use form::{Form, Head};
use terms::in_limits;

// Whether a block fails by none of 32 to 36.
fn block_sound(form: Form, sheet: &[u8], head: Head, number: usize) -> bool
    requires { HasBlocks form sheet.now head × (number < length (dues form head)) }
    ensures { result ≡ sound_at form head sheet.now number }
{
    let due = due_of(form, head, number).unwrap();
    block_fault(sheet, &form.letters(), number, due).is_ok()
}

// Of the colouring's first and last block, whether the one that holds the sector of region i + 1 is sound.
fn of_block(i: usize, first: bool, last: bool) -> bool
    ensures { result ≡ cond (leb most_payload i) last first }
{
    if i < SECTOR_SIZE { first } else { last }
}

// The sector of a region where it survived, and 0 where it is lost, as `mending` takes a colouring.
fn kept(sound: bool, sector: u64, sectors: u64) -> u64
    ensures { result ≡ cond (sound && within 1 sector sectors) sector 0 }
{
    if sound && in_limits(1, sector, sectors) {
        sector
    } else {
        0
    }
}

// Puts down the colouring that survives: the sectors read from sound blocks that are in 1..S, and 0 for each region that is lost.
pub fn keep_survivors(
    form: Form,
    sheet: &[u8],
    head: Head,
    colouring: &[u64],
    surviving: &mut [u64],
)
    requires has_blocks { HasBlocks form sheet.now head × (head ≡ head_in form sheet.now) }
    requires colouring_value { (colouring.now ≡ (contents_in form sheet.now).colouring) × (length surviving.old ≡ head.regions) }
    ensures { surviving.new ≡ survivors form sheet.now }
{
    let first = block_sound(form, sheet, head, colouring_first(form, head));
    let last = block_sound(form, sheet, head, count_first(form, head) - 1);
    for i in 0..surviving.len() {
        surviving[i] = kept(of_block(i, first, last), colouring[i], head.sectors);
    }
}

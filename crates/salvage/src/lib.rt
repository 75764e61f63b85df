// A sound sheet from one whose colouring is damaged. (Form, sheet, head and what is held are parameters of their own, as in the crates below and in the spec's `HasBlocks` and `Opened`.)
#![tactic(auto)]

ghost use Rattle.std.specs.Prelude.{◌≡◌, ◌≤◌, length};
ghost use Rattle.form.specs.Form.{form_in, head_in};
ghost use Rattle.form.specs.Over.{over};
ghost use Rattle.form.specs.Accepted.{Opened};
ghost use Rattle.form.specs.Recoloured.{recoloured_sheet};
ghost use Rattle.holding.specs.Held.{most_held};
ghost use Rattle.mending.specs.Mended.{lost};
ghost use Rattle.salvage.specs.Surviving.{survivors};
ghost use Rattle.salvage.specs.Promise.{refused_answer, salvaged_sheet, left, Promise};
ghost use Rattle.salvage.specs.Others.{Others};
ghost use Rattle.salvage.specs.Steps.{Mendable};

use form::sections::{Kind, colouring_first};
use form::{Form, Head};
use holding::MOST_HELD;
use holding::places::{colouring_in, lists_in};
use mending::{count_lost, list_lost, mend};
use others::hold_others;
use packing::copy_to;
use refusals::Refusal;
use sheet::opening::head_in;
use surviving::keep_survivors;
use terms::limits::MOST_REGIONS;
use writing::sections::write_kind;

pub mod others; // others.rt: all of a sheet but its colouring
pub mod surviving; // surviving.rt: what survives of its colouring

// What salvaging answers (a struct with a code, since C gets it): a refusal's code and place, or code 0 with how many regions were lost.
#[repr(C)]
#[derive(Drop)]
pub struct Salvaged {
    pub code: u64,
    pub place: u64,
    pub lost: u64,
}

// What a refused salvaging answers.
impl From<Refusal> for Salvaged {
    ghost from_gives = { λ refusal salvaged. salvaged ≡ refused_answer refusal };

    fn from(refusal: Refusal) -> Salvaged {
        Salvaged {
            code: refusal.code,
            place: refusal.place,
            lost: 0,
        }
    }
}

// Puts a sheet down at the front of the lent bytes, the colouring's blocks written anew.
fn write_anew(salvaged: &mut [u8], form: Form, sheet: &[u8], head: Head, colouring: &[u64])
    requires opened { Opened form sheet.now × (head ≡ head_in form sheet.now) }
    requires sheet_in_bounds { (length sheet.now ≤ length salvaged.old) × (length colouring.now ≡ head.regions) }
    ensures { salvaged.new ≡ over (recoloured_sheet form sheet.now colouring.now) salvaged.old }
{
    copy_to(salvaged, 0, sheet);
    let first = colouring_first(form, head);
    write_kind(form, salvaged, head, Kind::Colouring, first, colouring);
}

// Puts the salvaged sheet down at the front of the lent bytes: each lost region is given a sector.
fn write_mended(
    salvaged: &mut [u8],
    form: Form,
    sheet: &[u8],
    head: Head,
    edges: &[u64],
    surviving: &[u64],
)
    requires mendable { Mendable form sheet.now head edges.now surviving.now }
    requires sheet_in_bounds { length sheet.now ≤ length salvaged.old }
    ensures { salvaged.new ≡ over (salvaged_sheet form sheet.now) salvaged.old }
{
    let regions = head.regions as usize;
    let mut room = [0u64; MOST_REGIONS as usize];
    mend(edges, surviving, &mut room[..regions]);
    write_anew(salvaged, form, sheet, head, &room[..regions]);
}

// Puts the salvaged sheet and the lost regions down at the fronts of what is lent.
fn put_down(
    salvaged: &mut [u8],
    list: &mut [u64],
    form: Form,
    sheet: &[u8],
    head: Head,
    edges: &[u64],
    surviving: &[u64],
)
    requires mendable { Mendable form sheet.now head edges.now surviving.now }
    requires sheet_in_bounds { (length sheet.now ≤ length salvaged.old) × (length (lost surviving.now) ≤ length list.old) }
    ensures salvaged_after { salvaged.new ≡ over (salvaged_sheet form sheet.now) salvaged.old }
    ensures list_after { list.new ≡ over (lost (survivors form sheet.now)) list.old }
{
    list_lost(surviving, list);
    write_mended(salvaged, form, sheet, head, edges, surviving);
}

// Salvages a sheet whose contents are held and of which nothing but the colouring is refused.
fn salvage_held(
    salvaged: &mut [u8],
    list: &mut [u64],
    form: Form,
    sheet: &[u8],
    held: &[u64],
) -> Salvaged
    requires form_value { (form ≡ form_in sheet.now) × (most_held ≤ length held.now) }
    requires others { Others form sheet.now held.now }
    ensures { Promise sheet.now salvaged.old list.old (left result salvaged.new list.new) }
{
    if salvaged.len() < sheet.len() {
        return Salvaged::from(Refusal { code: 40, place: 0 });
    }
    let head = head_in(form, sheet);
    let regions = head.regions as usize;
    let mut room = [0u64; MOST_REGIONS as usize];
    let colouring = colouring_in(held, head);
    keep_survivors(form, sheet, head, colouring, &mut room[..regions]);
    let lost = count_lost(&room[..regions]);
    if list.len() < lost {
        return Salvaged::from(Refusal { code: 17, place: 0 });
    }
    put_down(
        salvaged,
        list,
        form,
        sheet,
        head,
        lists_in(held, head).edges,
        &room[..regions],
    );
    Salvaged {
        code: 0,
        place: 0,
        lost: lost as u64,
    }
}

// Makes a sound sheet of one whose colouring is damaged, in the lent bytes, and lists the regions that were lost; a salvaging that is refused answers why and changes nothing.
pub fn salvage_sheet(sheet: &[u8], salvaged: &mut [u8], list: &mut [u64]) -> Salvaged
    ensures { Promise sheet.now salvaged.old list.old (left result salvaged.new list.new) }
{
    let form = Form::of(sheet);
    let mut held = [0u64; MOST_HELD];
    if let Err(refusal) = hold_others(form, sheet, &mut held) {
        return Salvaged::from(refusal);
    }
    salvage_held(salvaged, list, form, sheet, &held)
}

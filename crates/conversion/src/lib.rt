// From one sheet to the other.
#![tactic(auto)]

ghost use Rattle.std.specs.Prelude.{◌≡◌, ◌≤◌, length};
ghost use Rattle.form.specs.declared.Form.TheVariants.{First, Second};
ghost use Rattle.form.specs.Form.{sheet_of};
ghost use Rattle.form.specs.FormLaws.{Bounded};
ghost use Rattle.form.specs.Firsts.{HasBlocks};
ghost use Rattle.form.specs.Over.{over};
ghost use Rattle.form.specs.Refusals.{contents_refusal};
ghost use Rattle.holding.specs.Held.{most_held, contents_held};
ghost use Rattle.writing.specs.Promise.{left};
ghost use Rattle.conversion.specs.Promise.{carries, Promise};
ghost use Rattle.conversion.specs.Carried.{carried_head};

use blocks::BLOCK_LENGTH;
use form::sections::all_blocks;
use form::{Form, Head};
use holding::places::{colouring_in, lists_in};
use holding::{MOST_HELD, hold};
use meaning::Lists;
use refusals::Refusal;
use scans::first_bad_constraint;
use sheet::opening::head_in;
use terms::limits::BOUNDED;
use writing::Written;
use writing::sections::write_contents;

// The head of what a form carries: the first sheet has no flights.
fn carried_head(to: Form, head: Head) -> Head
    ensures { result ≡ carried_head to head }
{
    match to {
        Form::First => Head {
            flights: 0,
            visits: 0,
            ..head
        },
        Form::Second => head,
    }
}

// Whether the first sheet carries what is held: there is no outside area but 0, no flight, and no constraint of a kind above 4.
fn first_carries(head: Head, held: &[u64]) -> bool
    requires bounded { Bounded head × (most_held ≤ length held.now) }
    requires held_value { (contents_refusal Second (contents_held head held.now)).code ≡ 0 }
    ensures { result ≡ carries First (contents_held head held.now) }
{
    let lists = lists_in(held, head);
    lists.outside.iter().all(|area| *area == 0)
        && lists.counts.is_empty()
        && first_bad_constraint(BOUNDED, lists.constraints).is_none()
}

// Whether a form carries what is held.
fn carries_whole(to: Form, head: Head, held: &[u64]) -> bool
    requires bounded { Bounded head × (most_held ≤ length held.now) }
    requires held_value { (contents_refusal Second (contents_held head held.now)).code ≡ 0 }
    ensures { result ≡ carries to (contents_held head held.now) }
{
    match to {
        Form::First => first_carries(head, held),
        Form::Second => true,
    }
}

// Puts what is held down at the front of the lent bytes as a sheet of a form that carries it.
fn write_held(to: Form, converted: &mut [u8], head: Head, held: &[u64])
    requires { HasBlocks to converted.old head × (most_held ≤ length held.now) }
    ensures { converted.new ≡ over (sheet_of to (contents_held head held.now)) converted.old }
{
    let lists = lists_in(held, head);
    let stored = to.outside_count(head.regions) as usize;
    let carried = Lists {
        outside: &lists.outside[..stored],
        ..lists
    };
    write_contents(to, converted, head, carried, colouring_in(held, head));
}

// Converts a sheet of one form into one of another in the lent bytes; a converting that is refused answers why and changes nothing.
fn convert(from: Form, to: Form, sheet: &[u8], converted: &mut [u8]) -> Written
    ensures { Promise from to sheet.now converted.old (left result converted.new) }
{
    let mut held = [0u64; MOST_HELD];
    if let Err(refusal) = hold(from, sheet, &mut held) {
        return Written::from(refusal);
    }
    let head = head_in(from, sheet);
    let bytes = BLOCK_LENGTH * all_blocks(to, carried_head(to, head));
    if converted.len() < bytes {
        return Written::from(Refusal { code: 40, place: 0 });
    }
    if !carries_whole(to, head, &held) {
        return Written::from(Refusal { code: 41, place: 0 });
    }
    write_held(to, converted, head, &held);
    Written {
        code: 0,
        place: 0,
        bytes: bytes as u64,
    }
}

// Converts a first sheet into a second one, with zeros for outside areas and no flights.
pub fn to_second(sheet: &[u8], converted: &mut [u8]) -> Written
    ensures { Promise First Second sheet.now converted.old (left result converted.new) }
{
    convert(Form::First, Form::Second, sheet, converted)
}

// Converts a second sheet back into a first one, where that carries all of it.
pub fn to_first(sheet: &[u8], converted: &mut [u8]) -> Written
    ensures { Promise Second First sheet.now converted.old (left result converted.new) }
{
    convert(Form::Second, Form::First, sheet, converted)
}

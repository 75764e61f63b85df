// A plan and its colouring into lent bytes, as either sheet.
#![tactic(auto)]

ghost use Rattle.std.specs.Prelude.{◌≡◌, []};
ghost use Rattle.form.specs.declared.Form.TheVariants.{First, Second};
ghost use Rattle.form.specs.Form.{head_of};
ghost use Rattle.form.specs.FormLaws.{HeadLimits};
ghost use Rattle.writing.specs.Promise.{contents, plain, refused_answer, left, Promise};
ghost use Rattle.writing.specs.Sections.{SoMany, numbers_with};
ghost use Rattle.writing.specs.Roomy.{Puts};

use blocks::BLOCK_LENGTH;
use form::sections::all_blocks;
use form::{Form, Head};
use meaning::Lists;
use refusals::{Refusal, plain_refusal, plan_refusal};
use sections::write_contents;
use terms::limits::{BOUNDED, CONSTRAINT_LENGTH, DWELL, EDGE_LENGTH, VISIT_LENGTH};

pub mod sections; // sections.rt: the blocks of each kind

// What writing answers (a struct with a code, since C gets it): a refusal's code and place, or code 0 with how many bytes it wrote.
#[repr(C)]
#[derive(Drop)]
pub struct Written {
    pub code: u64,
    pub place: u64,
    pub bytes: u64,
}

// What a refused writing answers.
impl From<Refusal> for Written {
    ghost from_gives = { λ refusal written. written ≡ refused_answer refusal };

    fn from(refusal: Refusal) -> Written {
        Written {
            code: refusal.code,
            place: refusal.place,
            bytes: 0,
        }
    }
}

// How many of each a plan and its colouring have.
fn head_of(regions: u64, lists: Lists) -> Head
    ensures { result ≡ head_of (contents regions lists.entry.sectors lists.entry.workloads.now lists.entry.outside.now lists.entry.edges.now lists.entry.counts.now lists.entry.visits.now lists.entry.constraints.now []) }
{
    Head {
        regions,
        sectors: lists.sectors,
        edges: (lists.edges.len() / EDGE_LENGTH) as u64,
        constraints: (lists.constraints.len() / CONSTRAINT_LENGTH) as u64,
        flights: lists.counts.len() as u64,
        visits: (lists.visits.len() / VISIT_LENGTH) as u64,
    }
}

// Puts a sheet down where the lent bytes are enough for it; else they stay, and the answer is 40.
fn write_where_room(
    form: Form,
    head: Head,
    lists: Lists,
    colouring: &[u64],
    sheet: &mut [u8],
) -> Written
    requires head_limits { HeadLimits form head }
    requires so_many { SoMany form head lists.workloads.now lists.outside.now lists.edges.now lists.counts.now lists.visits.now lists.constraints.now colouring.now }
    ensures { Puts form head (numbers_with form head lists.entry.workloads.now lists.entry.outside.now lists.entry.edges.now lists.entry.counts.now lists.entry.visits.now lists.entry.constraints.now colouring.now) sheet.old (left result sheet.new) }
{
    let bytes = BLOCK_LENGTH * all_blocks(form, head);
    if sheet.len() < bytes {
        return Written::from(Refusal { code: 40, place: 0 });
    }
    write_contents(form, sheet, head, lists, colouring);
    Written {
        code: 0,
        place: 0,
        bytes: bytes as u64,
    }
}

// Writes a plan without outside areas and flights, and its colouring, into the lent bytes as a first sheet; a writing that is refused answers why and changes nothing.
pub fn write(
    regions: u64,
    sectors: u64,
    workloads: &[u64],
    edges: &[u64],
    constraints: &[u64],
    colouring: &[u64],
    sheet: &mut [u8],
) -> Written
    ensures { Promise First (plain regions sectors workloads.now edges.now constraints.now colouring.now) sheet.old (left result sheet.new) }
{
    let lists = Lists {
        sectors,
        workloads,
        outside: &[],
        edges,
        counts: &[],
        visits: &[],
        constraints,
    };
    let refusal = plain_refusal(
        BOUNDED,
        regions,
        sectors,
        workloads,
        edges,
        constraints,
        colouring,
    );
    match refusal {
        Ok(()) => write_where_room(
            Form::First,
            head_of(regions, lists),
            lists,
            colouring,
            sheet,
        ),
        Err(refusal) => Written::from(refusal),
    }
}

// Writes a plan and its colouring into the lent bytes as a second sheet; a writing that is refused answers why and changes nothing.
pub fn write_second(regions: u64, lists: Lists, colouring: &[u64], sheet: &mut [u8]) -> Written
    ensures { Promise Second (contents regions lists.entry.sectors lists.entry.workloads.now lists.entry.outside.now lists.entry.edges.now lists.entry.counts.now lists.entry.visits.now lists.entry.constraints.now colouring.now) sheet.old (left result sheet.new) }
{
    match plan_refusal(DWELL, regions, lists, colouring) {
        Ok(()) => write_where_room(
            Form::Second,
            head_of(regions, lists),
            lists,
            colouring,
            sheet,
        ),
        Err(refusal) => Written::from(refusal),
    }
}

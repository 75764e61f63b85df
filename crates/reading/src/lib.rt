// Either sheet into lent lists.
#![tactic(auto)]

ghost use Rattle.std.specs.Prelude.{◌≡◌, ◌≤◌, length};
ghost use Rattle.form.specs.FormLaws.{Bounded};
ghost use Rattle.holding.specs.Held.{most_held, contents_held};
ghost use Rattle.reading.specs.Promise.{enough, refused_answer, input, left, Promise};
ghost use Rattle.reading.specs.Handing.{Room, HandedOver};

use form::{Form, Head};
use holding::MOST_HELD;
use holding::places::{colouring_in, lists_in};
use lists::copy;
use refusals::Refusal;
use sheet::opening::head_in;
use terms::limits::{CONSTRAINT_LENGTH, EDGE_LENGTH, VISIT_LENGTH};

// What reading answers (a struct with a code, since C gets it): a refusal's code and place, or code 0 with the numbers of the head.
#[repr(C)]
#[derive(Drop)]
pub struct Read {
    pub code: u64,
    pub place: u64,
    pub regions: u64,
    pub sectors: u64,
    pub edges: u64,
    pub constraints: u64,
    pub flights: u64,
    pub visits: u64,
}

// What a refused reading answers.
impl From<Refusal> for Read {
    ghost from_gives = { λ refusal read. read ≡ refused_answer refusal };

    fn from(refusal: Refusal) -> Read {
        Read {
            code: refusal.code,
            place: refusal.place,
            regions: 0,
            sectors: 0,
            edges: 0,
            constraints: 0,
            flights: 0,
            visits: 0,
        }
    }
}

// Whether lists of these lengths have room for so many of each.
fn room_right(
    head: Head,
    workloads: usize,
    outside: usize,
    edges: usize,
    counts: usize,
    visits: usize,
    constraints: usize,
    colouring: usize,
) -> bool
    requires { Bounded head }
    ensures { result ≡ enough head workloads outside edges counts visits constraints colouring }
{
    let regions = head.regions as usize;
    workloads >= regions
        && outside >= regions
        && edges >= EDGE_LENGTH * head.edges as usize
        && counts >= head.flights as usize
        && visits >= VISIT_LENGTH * head.visits as usize
        && constraints >= CONSTRAINT_LENGTH * head.constraints as usize
        && colouring >= regions
}

// Hands what is held over to lent lists that have room for it. (The lists that are lent to be written stay parameters of their own: a struct of `&mut` would need ghost names in each clause.)
fn hand_over(
    head: Head,
    held: &[u64],
    workloads: &mut [u64],
    outside: &mut [u64],
    edges: &mut [u64],
    counts: &mut [u64],
    visits: &mut [u64],
    constraints: &mut [u64],
    colouring: &mut [u64],
)
    requires bounded { Bounded head × (most_held ≤ length held.now) }
    requires room { Room head (length workloads.old) (length outside.old) (length edges.old) (length counts.old) (length visits.old) (length constraints.old) (length colouring.old) }
    ensures { HandedOver (contents_held head held.now) workloads.old outside.old edges.old counts.old visits.old constraints.old colouring.old workloads.new outside.new edges.new counts.new visits.new constraints.new colouring.new }
{
    let lists = lists_in(held, head);
    copy(lists.workloads, workloads);
    copy(lists.outside, outside);
    copy(lists.edges, edges);
    copy(lists.counts, counts);
    copy(lists.visits, visits);
    copy(lists.constraints, constraints);
    copy(colouring_in(held, head), colouring);
}

// Reads either sheet, by its letters, into the lent lists; a reading that is refused answers why and changes nothing.
pub fn read_sheet(
    sheet: &[u8],
    workloads: &mut [u64],
    outside: &mut [u64],
    edges: &mut [u64],
    counts: &mut [u64],
    visits: &mut [u64],
    constraints: &mut [u64],
    colouring: &mut [u64],
) -> Read
    ensures { Promise (input sheet.now workloads.old outside.old edges.old counts.old visits.old constraints.old colouring.old) (left result workloads.new outside.new edges.new counts.new visits.new constraints.new colouring.new) }
{
    let mut held = [0u64; MOST_HELD];
    if let Err(refusal) = gathering::read(sheet, &mut held) {
        return Read::from(refusal);
    }
    let head = head_in(Form::of(sheet), sheet);
    let room = room_right(
        head,
        workloads.len(),
        outside.len(),
        edges.len(),
        counts.len(),
        visits.len(),
        constraints.len(),
        colouring.len(),
    );
    if !room {
        return Read::from(Refusal { code: 39, place: 0 });
    }
    hand_over(
        head,
        &held,
        workloads,
        outside,
        edges,
        counts,
        visits,
        constraints,
        colouring,
    );
    Read {
        code: 0,
        place: 0,
        regions: head.regions,
        sectors: head.sectors,
        edges: head.edges,
        constraints: head.constraints,
        flights: head.flights,
        visits: head.visits,
    }
}

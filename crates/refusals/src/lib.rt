// What is refused, and at which place: the rows of the documents' table, taken in turn.
#![tactic(auto, using(crate::specs::Passed::first_off_most))]

ghost use Rattle.std.specs.Prelude.{◌≡◌, [], ◌∷◌, ◌+◌, ◌*◌, ◌/◌, ◌<◌, ◌^◌, Option, ℕ, cond, not, eqb, leb, length};
ghost use Rattle.lists.specs.Sums.{sum};
ghost use Rattle.lists.specs.Few.{Few};
ghost use Rattle.meaning.specs.Plan.{edge_length, visit_length, constraint_length, most_edges, most_flights, most_visits, most_constraints, most_kind, no_outside};
ghost use Rattle.scans.specs.Items.{records, at_most, edge_right, count_right, flight_right, constraint_right, sector_right, place_of};
ghost use Rattle.refusals.specs.Checked.{checked};
ghost use Rattle.refusals.specs.Table.{refused, none, whole, item, each, refusal, given, plan_refusal, room_table, call_refusal};
ghost use Rattle.refusals.specs.Turn.{on_sizes, on_regions, from_edges};

use lists::sum_of;
use meaning::Lists;
use terms::{in_limits, limits};

// A code of the table and the place that it names: 0 names none.
#[derive(Clone, Copy)]
pub struct Refusal {
    pub code: u64,
    pub place: u64,
}

// Refuses `code` at `place` where that is given; code 0 refuses nothing.
pub fn refuse_if(given: bool, code: u64, place: u64) -> Result<(), Refusal>
    ensures { result ≡ checked (cond given (refused code place) none) }
{
    if given && code != 0 {
        return Err(Refusal { code, place });
    }
    Ok(())
}

// Refuses `code` unless all is right.
#[tactic(auto, unfolding(crate::specs::Table::refusal))]
fn refuse_unless(right: bool, code: u64) -> Result<(), Refusal>
    requires { 0 < code }
    ensures { result ≡ checked (refusal (whole code right ∷ [])) }
{
    refuse_if(!right, code, 0)
}

// Refuses `code` at the first item that is not right, if any.
#[tactic(auto, unfolding(crate::specs::Table::refusal))]
fn refuse_at(first: Option<usize>, code: u64) -> Result<(), Refusal>
    requires coded { 0 < code }
    requires fits { place_of first < 2 ^ 64 }
    ensures { result ≡ checked (refusal (item code (place_of first) ∷ [])) }
{
    match first {
        Some(k) => Err(Refusal {
            code,
            place: k as u64 + 1,
        }),
        None => Ok(()),
    }
}

// Refuses codes 1 and 2, for the numbers of regions and sectors.
fn check_sizes(regions: u64, sectors: u64) -> Result<(), Refusal>
    ensures { result ≡ checked (refusal (on_sizes regions sectors)) }
{
    refuse_unless(in_limits(1, regions, limits::MOST_REGIONS), 1)?;
    refuse_unless(in_limits(1, sectors, limits::MOST_SECTORS), 2)
}

// Refuses `code` for the list, which is to hold a number for each region, or at a number of it above `most`.
fn check_numbers(code: u64, regions: u64, most: u64, numbers: &[u64]) -> Result<(), Refusal>
    requires { 0 < code }
    ensures { let numbers = numbers.entry.now in result ≡ checked (refusal (whole code (eqb (length numbers) regions) ∷ each code (length numbers) (at_most most numbers) ∷ [])) }
{
    refuse_unless(numbers.len() as u64 == regions, code)?;
    refuse_at(scans::first_above(most, numbers), code)
}

// Refuses code 3 for the workloads, or code 14 for the faces to the outside.
fn check_regions(regions: u64, workloads: &[u64], outside: &[u64]) -> Result<(), Refusal>
    ensures { result ≡ checked (refusal (on_regions regions workloads.now outside.now)) }
{
    check_numbers(3, regions, limits::MOST_WORKLOAD, workloads)?;
    check_numbers(14, regions, limits::MOST_AREA, outside)
}

// Refuses code 4 for the list, or code 5 at an edge of it.
fn check_edges(regions: u64, edges: &[u64]) -> Result<(), Refusal>
    ensures { let edges = edges.entry.now in result ≡ checked (refusal (whole 4 (records edge_length 0 most_edges edges) ∷ each 5 (length edges / edge_length) (edge_right regions edges) ∷ [])) }
{
    let whole = scans::whole_records(limits::EDGE_LENGTH, 0, limits::MOST_EDGES, edges);
    refuse_unless(whole, 4)?;
    refuse_at(scans::first_bad_edge(regions, edges), 5)
}

// Refuses code 13 for too many flights, or at a wrong count.
fn check_counts(counts: &[u64]) -> Result<(), Refusal>
    ensures { let counts = counts.entry.now in result ≡ checked (refusal (whole 13 (leb (length counts) most_flights) ∷ each 13 (length counts) (count_right counts) ∷ [])) }
{
    refuse_unless(counts.len() as u64 <= limits::MOST_FLIGHTS, 13)?;
    refuse_at(scans::first_bad_count(counts), 13)
}

// Refuses code 13 for visits that are not as many as the counts ask for, or at a flight with a wrong visit.
fn check_visits(regions: u64, counts: &[u64], visits: &[u64]) -> Result<(), Refusal>
    requires { Few most_flights most_visits counts.now }
    ensures { let counts = counts.entry.now in let visits = visits.entry.now in result ≡ checked (refusal (whole 13 (eqb (length visits) (visit_length * sum counts (λ n. n))) ∷ each 13 (length counts) (flight_right regions counts visits) ∷ [])) }
{
    let numbers = limits::VISIT_LENGTH * sum_of(counts) as usize;
    refuse_unless(visits.len() == numbers, 13)?;
    refuse_at(scans::first_bad_flight(regions, counts, visits), 13)
}

// Refuses code 13, for the counts first, then for the visits.
fn check_flights(regions: u64, counts: &[u64], visits: &[u64]) -> Result<(), Refusal>
    ensures { let counts = counts.entry.now in let visits = visits.entry.now in result ≡ checked (refusal (whole 13 (leb (length counts) most_flights) ∷ each 13 (length counts) (count_right counts) ∷ whole 13 (eqb (length visits) (visit_length * sum counts (λ n. n))) ∷ each 13 (length counts) (flight_right regions counts visits) ∷ [])) }
{
    check_counts(counts)?;
    check_visits(regions, counts, visits)
}

// Refuses code 6 for the list, or code 7 at a constraint of it. Its kind is to be one of 1 to `kinds`.
// Two rows as in `check_edges`: a function for both would be told the limits, both codes and the scan, which is all that stands here.
fn check_constraints(kinds: u64, constraints: &[u64]) -> Result<(), Refusal>
    ensures { let constraints = constraints.entry.now in result ≡ checked (refusal (whole 6 (records constraint_length 1 most_constraints constraints) ∷ each 7 (length constraints / constraint_length) (constraint_right kinds constraints) ∷ [])) }
{
    let whole = scans::whole_records(
        limits::CONSTRAINT_LENGTH,
        1,
        limits::MOST_CONSTRAINTS,
        constraints,
    );
    refuse_unless(whole, 6)?;
    refuse_at(scans::first_bad_constraint(kinds, constraints), 7)
}

// Refuses code 8 for the list, or at a sector of it.
fn check_colouring(regions: u64, sectors: u64, colouring: &[u64]) -> Result<(), Refusal>
    ensures { let colouring = colouring.entry.now in result ≡ checked (refusal (whole 8 (eqb (length colouring) regions) ∷ each 8 (length colouring) (sector_right sectors colouring) ∷ [])) }
{
    refuse_unless(colouring.len() as u64 == regions, 8)?;
    refuse_at(scans::first_bad_sector(sectors, colouring), 8)
}

// Refuses codes 4 to 8, and 13 after 5.
fn check_from_edges(
    kinds: u64,
    regions: u64,
    lists: Lists,
    colouring: &[u64],
) -> Result<(), Refusal>
    ensures { result ≡ checked (refusal (from_edges kinds regions lists.entry.sectors lists.entry.edges.now lists.entry.counts.now lists.entry.visits.now lists.entry.constraints.now colouring.now)) }
{
    check_edges(regions, lists.edges)?;
    check_flights(regions, lists.counts, lists.visits)?;
    check_constraints(kinds, lists.constraints)?;
    check_colouring(regions, lists.sectors, colouring)
}

// What a plan with constraints of the kinds 1 to `kinds`, and its colouring, are refused for: codes 1 to 8, 14 after 3, and 13 after 5.
pub fn plan_refusal(
    kinds: u64,
    regions: u64,
    lists: Lists,
    colouring: &[u64],
) -> Result<(), Refusal>
    ensures { result ≡ checked (plan_refusal kinds regions lists.entry.sectors lists.entry.workloads.now lists.entry.outside.now lists.entry.edges.now lists.entry.counts.now lists.entry.visits.now lists.entry.constraints.now colouring.now) }
{
    check_sizes(regions, lists.sectors)?;
    check_regions(regions, lists.workloads, lists.outside)?;
    check_from_edges(kinds, regions, lists, colouring)
}

// The same of a plan without outside areas and without flights: codes 1 to 8.
pub fn plain_refusal(
    kinds: u64,
    regions: u64,
    sectors: u64,
    workloads: &[u64],
    edges: &[u64],
    constraints: &[u64],
    colouring: &[u64],
) -> Result<(), Refusal>
    ensures { result ≡ checked (plan_refusal kinds regions sectors workloads.now (no_outside regions) edges.now [] [] constraints.now colouring.now) }
{
    check_sizes(regions, sectors)?;
    check_numbers(3, regions, limits::MOST_WORKLOAD, workloads)?;
    let lists = Lists {
        sectors,
        workloads,
        outside: &[],
        edges,
        counts: &[],
        visits: &[],
        constraints,
    };
    check_from_edges(kinds, regions, lists, colouring)
}

// Whether the work memory has room for R + 2S + 1 numbers, whatever R and S are.
fn room_for_work(regions: u64, sectors: u64, work: usize) -> bool
    ensures { result ≡ leb (regions + 2 * sectors + 1) work }
{
    let room = work as u64;
    room > regions && sectors <= (room - regions - 1) / 2
}

// Refuses codes 9 to 12, for the moves and the room that is lent.
fn check_room(
    regions: u64,
    lists: Lists,
    moves: &[u64],
    rows: usize,
    verdicts: usize,
    work: usize,
) -> Result<(), Refusal>
    ensures { result ≡ checked (refusal (room_table regions lists.entry.sectors lists.entry.constraints.now moves.now rows verdicts work)) }
{
    let whole = scans::whole_records(limits::MOVE_LENGTH, 0, limits::MOST_MOVES, moves);
    let rows_needed = limits::ROW_LENGTH * (moves.len() / limits::MOVE_LENGTH);
    let verdicts_needed = limits::VERDICT_LENGTH
        * (lists.constraints.len() / limits::CONSTRAINT_LENGTH);
    refuse_unless(whole, 9)?;
    refuse_unless(rows_needed <= rows, 10)?;
    refuse_unless(verdicts_needed <= verdicts, 11)?;
    refuse_unless(room_for_work(regions, lists.sectors, work), 12)
}

// What a call is refused for: codes 1 to 14. Of the memory that it only writes, the room is given.
pub fn call_refusal(
    regions: u64,
    lists: Lists,
    colouring: &[u64],
    moves: &[u64],
    rows: usize,
    verdicts: usize,
    work: usize,
) -> Result<(), Refusal>
    ensures { result ≡ checked (call_refusal (given regions lists.entry.sectors lists.entry.workloads.now lists.entry.outside.now lists.entry.edges.now lists.entry.counts.now lists.entry.visits.now lists.entry.constraints.now colouring.now moves.now rows verdicts work)) }
{
    plan_refusal(limits::DWELL, regions, lists, colouring)?;
    check_room(regions, lists, moves, rows, verdicts, work)
}

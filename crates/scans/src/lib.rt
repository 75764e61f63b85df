// The flat lists of a plan: whether their numbers are whole records, and the first item that is not right.
#![tactic(auto)]

ghost use Rattle.std.specs.Prelude.{◌≡◌, ◌&&◌, ◌||◌, ◌+◌, ◌-◌, ◌*◌, ◌/◌, ◌<◌, eqb, length};
ghost use Rattle.lists.specs.Sums.{sum};
ghost use Rattle.terms.specs.Plan.{within};
ghost use Rattle.meaning.specs.Plan.{edge_length, visit_length, constraint_length, edge_at, visit_at, visits_of, most_dwell};
ghost use Rattle.scans.specs.Items.{records, first_off, at_most, edge_right, above, count_right, visits_right, flight_right, takes, constraint_right, sector_right, place_of};

use terms::{Relation, in_limits, limits};

// Whether the numbers are whole records of `width` numbers, `low` to `high` of them.
pub fn whole_records(width: usize, low: u64, high: u64, numbers: &[u64]) -> bool
    requires { 0 < width }
    ensures { result ≡ records width low high numbers.now }
{
    let count = numbers.len() / width;
    numbers.len() % width == 0 && in_limits(low, count as u64, high)
}

// The index of the first number above `most`, if any.
pub fn first_above(most: u64, numbers: &[u64]) -> Option<usize>
    ensures { place_of result ≡ first_off (length numbers.now) (at_most most numbers.now) }
{
    numbers.iter().position(|number| most < *number)
}

fn edge_above_previous(edges: &[u64], edge: usize) -> bool
    requires { edge_length * edge + 2 < length edges.now }
    ensures { result ≡ eqb edge 0 || above (edge_at edges.now (edge - 1)) (edge_at edges.now edge) }
{
    if edge == 0 {
        return true;
    }
    let at = limits::EDGE_LENGTH * edge;
    let previous = limits::EDGE_LENGTH * (edge - 1);
    let a = edges[at];
    let previous_a = edges[previous];
    previous_a < a || previous_a == a && edges[previous + 1] < edges[at + 1]
}

#[tactic(auto, unfolding(crate::specs::Items::edge_right))]
fn edge_right(regions: u64, edges: &[u64], edge: usize) -> bool
    requires { edge_length * edge + 2 < length edges.now }
    ensures { result ≡ edge_right regions edges.now edge }
{
    let at = limits::EDGE_LENGTH * edge;
    let a = edges[at];
    let b = edges[at + 1];
    let area = edges[at + 2];
    1 <= a
        && a < b
        && b <= regions
        && in_limits(1, area, limits::MOST_AREA)
        && edge_above_previous(edges, edge)
}

// The index of the first edge that is against its rules or not above the one before it, if any.
pub fn first_bad_edge(regions: u64, edges: &[u64]) -> Option<usize>
    ensures { place_of result ≡ first_off (length edges.now / edge_length) (edge_right regions edges.now) }
{
    (0..edges.len() / limits::EDGE_LENGTH).position(|edge| !edge_right(regions, edges, edge))
}

// The index of the first count that is not one of 1..32, if any.
pub fn first_bad_count(counts: &[u64]) -> Option<usize>
    ensures { place_of result ≡ first_off (length counts.now) (count_right counts.now) }
{
    counts
        .iter()
        .position(|count| !in_limits(1, *count, limits::MOST_VISITS))
}

fn visit_right(regions: u64, visits: &[u64], visit: usize) -> bool
    requires { visit_length * visit + 1 < length visits.now }
    ensures { let v = visit_at visits.now visit in result ≡ within 1 v.region regions && within 1 v.dwell most_dwell }
{
    let at = limits::VISIT_LENGTH * visit;
    in_limits(1, visits[at], regions) && in_limits(1, visits[at + 1], limits::MOST_DWELL)
}

// Whether each visit of one flight is right.
fn flight_right(regions: u64, visits: &[u64]) -> bool
    ensures { result ≡ visits_right regions (visits_of visits.now) }
{
    (0..visits.len() / limits::VISIT_LENGTH).all(|visit| visit_right(regions, visits, visit))
}

// The index of the first flight with a wrong visit, if any. The visits are those that the counts ask for.
pub fn first_bad_flight(regions: u64, counts: &[u64], visits: &[u64]) -> Option<usize>
    requires { length visits.now ≡ visit_length * sum counts.now (λ n. n) }
    ensures { place_of result ≡ first_off (length counts.now) (flight_right regions counts.now visits.now) }
{
    let mut at = 0;
    for (flight, count) in counts.iter().enumerate() {
        let end = at + limits::VISIT_LENGTH * *count as usize;
        if !flight_right(regions, &visits[at..end]) {
            return Some(flight);
        }
        at = end;
    }
    None
}

fn takes_relation(kind: u64, relation: u64) -> bool
    ensures { result ≡ takes kind relation }
{
    in_limits(Relation::AT_MOST, relation, Relation::AT_LEAST)
        && (kind == limits::CONNECTED || limits::BOUNDED <= kind || relation == Relation::AT_MOST)
}

#[tactic(auto, unfolding(crate::specs::Items::constraint_right))]
fn constraint_right(kinds: u64, constraints: &[u64], constraint: usize) -> bool
    requires { constraint_length * constraint + 3 < length constraints.now }
    ensures { result ≡ constraint_right kinds constraints.now constraint }
{
    let at = limits::CONSTRAINT_LENGTH * constraint;
    let kind = constraints[at];
    let relation = constraints[at + 1];
    let limit = constraints[at + 2];
    let weight = constraints[at + 3];
    in_limits(limits::CONNECTED, kind, kinds)
        && takes_relation(kind, relation)
        && limit <= limits::MOST_LIMIT
        && in_limits(1, weight, limits::MOST_WEIGHT)
}

// The index of the first constraint that is against its rules, or of a kind above `kinds`, if any.
// A chain as in `first_bad_edge`: a function of a width and a test for both would take a longer contract than the chain.
pub fn first_bad_constraint(kinds: u64, constraints: &[u64]) -> Option<usize>
    ensures { place_of result ≡ first_off (length constraints.now / constraint_length) (constraint_right kinds constraints.now) }
{
    (0..constraints.len() / limits::CONSTRAINT_LENGTH).position(|constraint| !constraint_right(
        kinds,
        constraints,
        constraint,
    ))
}

// The index of the first sector that is not one of 1..S, if any.
pub fn first_bad_sector(sectors: u64, colouring: &[u64]) -> Option<usize>
    ensures { place_of result ≡ first_off (length colouring.now) (sector_right sectors colouring.now) }
{
    colouring
        .iter()
        .position(|sector| !in_limits(1, *sector, sectors))
}

// Which flights visit each region, in compressed rows, and the price of the flights that visit a region.
#![tactic(auto)]

ghost use Rattle.std.specs.Prelude.{unwrap_or, ◌≡◌, false, cond, ◌+◌, ◌-◌, ◌*◌, ◌/◌, ◌≤◌, eqb, length};
ghost use Rattle.lists.specs.Sums.{In};
ghost use Rattle.meaning.specs.Plan.{edge_length, visit_length, visits_of, flights_of, constraints_of, most_regions};
ghost use Rattle.meaning.specs.Prices.{visitors_price};
ghost use Rattle.kinds.specs.Constraints.{Paying};
ghost use Rattle.flights.specs.Flying.{Flying};
ghost use Rattle.visitors.specs.HopLaws.{Numbered};
ghost use Rattle.visitors.specs.Laid.{lay_flight, Room, Laid};
ghost use Rattle.visitors.specs.Visitors.{Visitors as Gathered, Pricing};
ghost use Rattle.visitors.specs.Along.{number_price};
ghost use Rattle.visitors.specs.Left.{flight_from};
ghost use Rattle.visitors.specs.AlongBoth.{CellsDiffer, VisitorsDiffer};

use flights::pricing::{Prices, flight_price, flight_prices};
use terms::limits::{EDGE_LENGTH, MOST_FLIGHTS, MOST_VISITS, VISIT_LENGTH};

// What the flights that visit a region are priced by: the constraints of kind 5, the flights, and the rows of the regions.
#[derive(Clone, Copy)]
pub struct Visitors<'a> {
    pub timed: &'a [u64],
    pub counts: &'a [u64],
    pub visits: &'a [u64],
    pub starts: &'a [u64],
    pub numbers: &'a [u64],
    pub firsts: &'a [u64],
}

// Puts down the hops of a flight, whose first visit is the one at index first among all visits.
fn put_flight(flight: &[u64], number: u64, first: usize, hops: &mut [u64])
    requires { edge_length * (first + length flight.now / visit_length) ≤ length hops.old }
    ensures { hops.new ≡ lay_flight number first (visits_of flight.now) hops.old }
{
    let count = flight.len() / VISIT_LENGTH;
    for k in 0..count {
        let i = EDGE_LENGTH * (first + k);
        hops[i] = flight[VISIT_LENGTH * k];
        hops[i + 1] = number;
        hops[i + 2] = first as u64;
    }
}

// Puts down the hops of all flights, and returns how many numbers they take.
fn put_flights(counts: &[u64], visits: &[u64], regions: u64, hops: &mut [u64]) -> usize
    requires flying { Flying regions counts.now visits.now }
    requires regions_le_most_regions { regions ≤ most_regions }
    requires room { Room hops.old }
    ensures { Laid regions counts.now visits.now result hops.new }
{
    let mut first = 0;
    for (k, count) in counts.iter().enumerate() {
        let next = first + *count as usize;
        let start = VISIT_LENGTH * first;
        let end = VISIT_LENGTH * next;
        put_flight(&visits[start..end], regions + k as u64 + 1, first, hops);
        first = next;
    }
    EDGE_LENGTH * first
}

// Writes, for each region, the flights that visit it: for each visit the flight's number, counted on from the regions, into numbers,
// and the index of the flight's first visit into firsts; starts says where those of each region begin.
pub fn gather_visitors(
    counts: &[u64],
    visits: &[u64],
    regions: u64,
    starts: &mut [u64],
    numbers: &mut [u64],
    firsts: &mut [u64],
)
    requires flying { Flying regions counts.now visits.now }
    requires regions_le_most_regions { regions ≤ most_regions }
    requires starts_len { length starts.old ≡ regions + length counts.now + 1 }
    requires visits_in_bounds { length visits.now ≤ length numbers.old }
    requires firsts_len { length firsts.old ≡ length numbers.old }
    ensures { Gathered regions counts.now visits.now starts.new numbers.new firsts.new }
{
    let mut hops = [0u64; EDGE_LENGTH * (MOST_FLIGHTS * MOST_VISITS) as usize];
    let taken = put_flights(counts, visits, regions, &mut hops);
    neighbours::gather(&hops[..taken], starts, numbers, firsts);
}

// The visits of the flight with a number, whose first visit is the one at index first among all visits.
fn flight_at<'a>(visitors: Visitors<'a>, regions: usize, number: u64, first: u64) -> &'a [u64]
    requires { Numbered regions visitors.counts.now visitors.visits.now number first }
    ensures { visits_of result.now ≡ flight_from visitors.entry.counts.now visitors.entry.visits.now (number - regions - 1) first }
{
    let k = number as usize - regions - 1;
    let next = first as usize + visitors.counts[k] as usize;
    &visitors.visits[VISIT_LENGTH * first as usize..VISIT_LENGTH * next]
}

// The price of the flight of a cell, and 0 where the cell before it has the same flight.
fn price_cell(
    visitors: Visitors,
    colouring: &[u64],
    region: u64,
    number: u64,
    first: u64,
    last: Option<u64>,
) -> u64
    requires paying { Paying visitors.timed.now }
    requires numbered { Numbered (length colouring.now) visitors.counts.now visitors.visits.now number first }
    ensures { result ≡ cond (eqb number (unwrap_or last 0)) 0 (number_price visitors.entry.timed.now visitors.entry.counts.now visitors.entry.visits.now colouring.now false region number first) }
{
    if last == Some(number) {
        return 0;
    }
    let flight = flight_at(visitors, colouring.len(), number, first);
    flight_price(visitors.timed, flight, colouring, Some(region))
}

// The price of the stretches that visit a region.
pub fn price_visitors(visitors: Visitors, colouring: &[u64], region: u64) -> u64
    requires pricing { Pricing (length colouring.now) visitors.timed.now visitors.counts.now visitors.visits.now visitors.starts.now visitors.numbers.now visitors.firsts.now }
    requires in_range { In (length colouring.now) region }
    ensures { result ≡ visitors_price (constraints_of visitors.entry.timed.now) colouring.now false region (flights_of visitors.entry.counts.now visitors.entry.visits.now) }
{
    if visitors.timed.is_empty() {
        return 0;
    }
    let row = region as usize;
    let start = visitors.starts[row - 1] as usize;
    let end = visitors.starts[row] as usize;
    let mut last = None;
    let mut sum = 0;
    for j in start..end {
        let number = visitors.numbers[j];
        let first = visitors.firsts[j];
        sum += price_cell(visitors, colouring, region, number, first, last);
        last = Some(number);
    }
    sum
}

// Two prices that differ as those of the flight of a cell do, and 0 where the cell before it has the same flight.
fn price_cell_both(
    visitors: Visitors,
    colouring: &[u64],
    region: u64,
    sector: u64,
    number: u64,
    first: u64,
    last: Option<u64>,
) -> Prices
    requires paying { Paying visitors.timed.now }
    requires numbered { Numbered (length colouring.now) visitors.counts.now visitors.visits.now number first }
    requires in_range { In (length colouring.now) region }
    ensures { CellsDiffer visitors.entry.timed.now visitors.entry.counts.now visitors.entry.visits.now colouring.now region sector number first (unwrap_or last 0) result }
{
    if last == Some(number) {
        return Prices::NONE;
    }
    let flight = flight_at(visitors, colouring.len(), number, first);
    flight_prices(visitors.timed, flight, colouring, region, sector)
}

// Two prices that differ as those of the flights that visit a region do, as it is and with the region given to the sector.
// A loop beside that of `price_visitors`: one for both would need a trait with laws on adding a number and on adding two prices.
pub fn price_both(visitors: Visitors, colouring: &[u64], region: u64, sector: u64) -> Prices
    requires pricing { Pricing (length colouring.now) visitors.timed.now visitors.counts.now visitors.visits.now visitors.starts.now visitors.numbers.now visitors.firsts.now }
    requires in_range { In (length colouring.now) region }
    ensures { VisitorsDiffer (constraints_of visitors.entry.timed.now) colouring.now region sector (flights_of visitors.entry.counts.now visitors.entry.visits.now) result }
{
    if visitors.timed.is_empty() {
        return Prices::NONE;
    }
    let row = region as usize;
    let start = visitors.starts[row - 1] as usize;
    let end = visitors.starts[row] as usize;
    let mut last = None;
    let mut sums = Prices::NONE;
    for j in start..end {
        let number = visitors.numbers[j];
        let first = visitors.firsts[j];
        let cell = price_cell_both(visitors, colouring, region, sector, number, first, last);
        sums.before += cell.before;
        sums.after += cell.after;
        last = Some(number);
    }
    sums
}

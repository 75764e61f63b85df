// The price, by the constraints of kind 5, of a flight's stretches, and of all flights.
ghost use Rattle.std.specs.Prelude.{unwrap_or, ◌≡◌, ◌+◌, ◌*◌, ◌/◌, ◌<◌, ◌^◌, true, cond, eqb, length};
ghost use Rattle.std.specs.Option.{is_none};
ghost use Rattle.lists.specs.Sums.{In};
ghost use Rattle.meaning.specs.Plan.{constraints_of, visit_at, visits_of, flights_of, FlightLimits};
ghost use Rattle.meaning.specs.Prices.{flight_price, flights_price};
ghost use Rattle.kinds.specs.Constraints.{Paying};
ghost use Rattle.flights.specs.Flying.{Flying};
ghost use Rattle.flights.specs.FirstStretch.{alone, joined, broken, price_from, with_visit, Fits, Visiting, Taken};
ghost use Rattle.meaning.specs.Moves.{recolour};
ghost use Rattle.flights.specs.Both.{alone_both, Ready, alike, walked, Differ};

use kinds::price;
use terms::limits::VISIT_LENGTH;

// The first stretch of some visits: its sector, its seconds and whether its price counts; and the price of the stretches after it.
#[derive(Clone, Copy)]
struct Stretch {
    sector: u64,
    seconds: u64,
    counted: bool,
    after: u64,
}

// The stretch of visit k, from 0, alone. It counts where all do, or where the visit is to the only region that counts.
fn stretch_of(flight: &[u64], colouring: &[u64], only: Option<u64>, k: usize) -> Stretch
    requires { Visiting (length colouring.now) flight.now k }
    ensures { result ≡ alone colouring.now (is_none only) (unwrap_or only 0) (visit_at flight.now k) }
{
    let at = VISIT_LENGTH * k;
    let visited = flight[at];
    let seconds = flight[at + 1];
    let z = visited as usize - 1;
    let sector = colouring[z];
    Stretch {
        sector,
        seconds,
        counted: match only {
            None => true,
            Some(region) => visited == region,
        },
        after: 0,
    }
}

// The price of a stretch, where it counts, and of those after it.
fn price_from(timed: &[u64], first: Stretch) -> u64
    requires paying { Paying timed.now }
    requires fits { Fits first }
    ensures { result ≡ price_from (constraints_of timed.now) first }
{
    if first.counted {
        first.after + price(timed, first.seconds)
    } else {
        first.after
    }
}

// A visit in one stretch with the first.
fn joined(visit: Stretch, first: Stretch) -> Stretch
    requires { Fits visit × Fits first }
    ensures { result ≡ joined visit first }
{
    Stretch {
        sector: visit.sector,
        seconds: visit.seconds + first.seconds,
        counted: visit.counted || first.counted,
        after: first.after,
    }
}

// A visit as a stretch of its own, with the price of those after it.
fn broken(visit: Stretch, after: u64) -> Stretch
    ensures { result ≡ broken visit after }
{
    Stretch { after, ..visit }
}

// The first stretch with a visit in front: one with it where both are in one sector, else a stretch of its own.
fn add_visit(timed: &[u64], visit: Stretch, first: Stretch) -> Stretch
    requires paying { Paying timed.now }
    requires fits { Fits visit × Fits first }
    ensures { result ≡ with_visit (constraints_of timed.now) visit first }
{
    if visit.sector == first.sector {
        joined(visit, first)
    } else {
        broken(visit, price_from(timed, first))
    }
}

// The first stretch of the visits from k, from 0, on, by that of the visits after it.
fn with_visit(
    timed: &[u64],
    flight: &[u64],
    colouring: &[u64],
    only: Option<u64>,
    k: usize,
    first: Stretch,
) -> Stretch
    requires { Taken timed.now flight.now colouring.now (is_none only) (unwrap_or only 0) (k + 1) first }
    ensures { Taken timed.now flight.now colouring.now (is_none only) (unwrap_or only 0) k result }
{
    let visit = stretch_of(flight, colouring, only, k);
    add_visit(timed, visit, first)
}

// The price of a flight: of all its stretches, or only of those that visit a region.
pub fn flight_price(timed: &[u64], flight: &[u64], colouring: &[u64], only: Option<u64>) -> u64
    requires paying { Paying timed.now }
    requires flight_limits { FlightLimits (length colouring.now) (visits_of flight.now) }
    ensures { result ≡ flight_price (constraints_of timed.now) colouring.now (is_none only) (unwrap_or only 0) (visits_of flight.now) }
{
    let last = flight.len() / VISIT_LENGTH - 1;
    let mut first = stretch_of(flight, colouring, only, last);
    for k in (0..last).rev() {
        first = with_visit(timed, flight, colouring, only, k, first);
    }
    price_from(timed, first)
}

// A stretch as it is, and with a region given to another sector. Not one generic pair with `Prices`, the only one that callers know.
#[derive(Clone, Copy)]
struct Stretches {
    before: Stretch,
    after: Stretch,
}

// The sector of a visited region, its own or the one that the region is given.
fn sector_given(visited: u64, own: u64, region: u64, sector: u64) -> u64
    ensures { result ≡ cond (eqb visited region) sector own }
{
    if visited == region { sector } else { own }
}

// The stretch of visit k, from 0, alone, as it is and with the region given to the sector.
fn stretches_of(flight: &[u64], colouring: &[u64], region: u64, sector: u64, k: usize) -> Stretches
    requires visiting { Visiting (length colouring.now) flight.now k }
    requires in_range { In (length colouring.now) region }
    ensures { result ≡ alone_both colouring.now region sector (visit_at flight.now k) }
{
    let before = stretch_of(flight, colouring, None, k);
    let given = sector_given(flight[VISIT_LENGTH * k], before.sector, region, sector);
    let after = Stretch {
        sector: given,
        ..before
    };
    Stretches { before, after }
}

// Two prices, as a flight is and with a region given to another sector: what they differ by counts, not how large they are.
#[derive(Clone, Copy)]
pub struct Prices {
    pub before: u64,
    pub after: u64,
}

impl Prices {
    pub const NONE: Prices = Prices {
        before: 0,
        after: 0,
    };
}

// The seconds of a visit, with those of the stretch that it comes into, if any.
fn lengthened(comes_in: bool, seconds: u64, stretch: u64) -> u64
    requires { seconds + stretch < 2 ^ 64 }
    ensures { result ≡ seconds + cond comes_in stretch 0 }
{
    if comes_in { seconds + stretch } else { seconds }
}

// Whether the stretch is the same before and after, but for the prices.
fn alike(stretches: Stretches) -> bool
    ensures { result ≡ alike stretches }
{
    let Stretches { before, after } = stretches;
    before.sector == after.sector && before.seconds == after.seconds
}

// Both first stretches with the visit in front. Where neither it nor they differ, a stretch that ends costs the same before and after,
// and is not priced.
fn add_both(timed: &[u64], visit: Stretches, firsts: Stretches) -> Stretches
    requires paying { Paying timed.now }
    requires ready { Ready visit × Ready firsts }
    ensures { result ≡ walked (constraints_of timed.now) visit firsts }
{
    if alike(visit) && alike(firsts) {
        let sector = visit.before.sector;
        let comes_in = sector == firsts.before.sector;
        let first = Stretch {
            sector,
            seconds: lengthened(comes_in, visit.before.seconds, firsts.before.seconds),
            counted: true,
            after: firsts.before.after,
        };
        return Stretches {
            before: first,
            after: Stretch {
                after: firsts.after.after,
                ..first
            },
        };
    }
    Stretches {
        before: add_visit(timed, visit.before, firsts.before),
        after: add_visit(timed, visit.after, firsts.after),
    }
}

// Two prices that differ as the flight's do, as it is and with the region given to the sector.
// Not `flight_price` twice: what both have in common is not priced, so that only the difference is promised.
pub fn flight_prices(
    timed: &[u64],
    flight: &[u64],
    colouring: &[u64],
    region: u64,
    sector: u64,
) -> Prices
    requires paying { Paying timed.now }
    requires flight_limits { FlightLimits (length colouring.now) (visits_of flight.now) }
    requires in_range { In (length colouring.now) region }
    ensures { Differ (flight_price (constraints_of timed.now) colouring.now true region (visits_of flight.now)) (flight_price (constraints_of timed.now) (recolour colouring.now region sector) true region (visits_of flight.now)) result }
{
    let last = flight.len() / VISIT_LENGTH - 1;
    let mut firsts = stretches_of(flight, colouring, region, sector, last);
    for k in (0..last).rev() {
        let visit = stretches_of(flight, colouring, region, sector, k);
        firsts = add_both(timed, visit, firsts);
    }
    Prices {
        before: price_from(timed, firsts.before),
        after: price_from(timed, firsts.after),
    }
}

// The price of all flights.
pub fn price_all(timed: &[u64], counts: &[u64], visits: &[u64], colouring: &[u64]) -> u64
    requires paying { Paying timed.now }
    requires flying { Flying (length colouring.now) counts.now visits.now }
    ensures { result ≡ flights_price (constraints_of timed.now) colouring.now (flights_of counts.now visits.now) }
{
    let mut sum = 0;
    let mut at = 0;
    for count in counts {
        let end = at + VISIT_LENGTH * *count as usize;
        sum += flight_price(timed, &visits[at..end], colouring, None);
        at = end;
    }
    sum
}

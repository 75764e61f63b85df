// The gauges of the constraints of kind 5, from scratch.
ghost use Rattle.std.specs.Prelude.{◌≡◌, ◌/◌, length};
ghost use Rattle.lists.specs.Sums.{Every};
ghost use Rattle.meaning.specs.Plan.{constraint_length, constraint_at, constraints_of, flights_of, ConstraintLimits};
ghost use Rattle.flights.specs.Flying.{Flying};
ghost use Rattle.flights.specs.Gauged.{dwell_gauge, dwell_gauges, Gauging};

use crate::pricing::price_all;
use meaning::Constraint;
use terms::limits::DWELL;

// The gauge of constraint k, from 0: where it is of kind 5, how far the stretches of all flights are from its limit, else what it has.
fn gauge_at(
    constraints: &[u64],
    counts: &[u64],
    visits: &[u64],
    colouring: &[u64],
    k: usize,
    gauge: u64,
) -> u64
    requires flying { Flying (length colouring.now) counts.now visits.now }
    requires gauging { Gauging constraints.now k }
    ensures { result ≡ dwell_gauge (flights_of counts.now visits.now) colouring.now (constraint_at constraints.now k) gauge }
{
    let constraint = Constraint::at(constraints, k);
    if constraint.kind == DWELL {
        let one = [DWELL, constraint.relation, constraint.limit, 1];
        return price_all(&one, counts, visits, colouring);
    }
    gauge
}

// Puts down the gauge of each constraint of kind 5; the others stay.
pub fn gauge_dwells(
    constraints: &[u64],
    counts: &[u64],
    visits: &[u64],
    colouring: &[u64],
    gauges: &mut [u64],
)
    requires every { Every ConstraintLimits (constraints_of constraints.now) }
    requires gauges_len { length gauges.old ≡ length constraints.now / constraint_length }
    requires flying { Flying (length colouring.now) counts.now visits.now }
    ensures { gauges.new ≡ dwell_gauges (flights_of counts.now visits.now) colouring.now constraints.now gauges.old }
{
    for (k, gauge) in gauges.iter_mut().enumerate() {
        *gauge = gauge_at(constraints, counts, visits, colouring, k, *gauge);
    }
}

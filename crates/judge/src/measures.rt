// The figures of a colouring, what each sector pays, and the gauges of the constraints, by the tallies.
ghost use Rattle.std.specs.Prelude.{◌≡◌, map, ◌-◌, ◌*◌, ◌≤◌, length};
ghost use Rattle.lists.specs.Sums.{sum, Every};
ghost use Rattle.lists.specs.Few.{Few};
ghost use Rattle.terms.specs.Distance.{gap, distance};
ghost use Rattle.meaning.specs.Plan.{ConstraintLimits, most_sectors, most_regions, most_limit, constraints_of};
ghost use Rattle.meaning.specs.Bounds.{most_load};
ghost use Rattle.meaning.specs.Prices.{price};
ghost use Rattle.kinds.specs.Constraints.{Paying};
ghost use Rattle.judge.specs.Figures.{figures_by, gauge_by, gauges_by, constraint_count, unweighted};
ghost use Rattle.judge.specs.Small.{SmallTallies};

use crate::Figures;
use lists::sum_of;
use meaning::Constraint;
use terms::distance;
use terms::limits::BOUNDED;

// The components of each sector above its first, summed.
fn excess_of(counts: &[u64]) -> u64
    requires { Few most_sectors most_regions counts.now }
    ensures { result ≡ sum counts.now (λ n. n - 1) }
{
    counts.iter().map(|count| count.saturating_sub(1)).sum()
}

// How far the workloads of the sectors are from the average, in units of one over the number of sectors, summed.
fn deviation_of(sectors: u64, whole: u64, loads: &[u64]) -> u64
    requires sectors_le_most_sectors { sectors ≤ most_sectors }
    requires whole_le_most_load { whole ≤ most_load }
    requires few { Few most_sectors most_load loads.now }
    ensures { result ≡ sum loads.now (λ x. gap (sectors * x) whole) }
{
    loads
        .iter()
        .map(|load| (sectors * *load).abs_diff(whole))
        .sum()
}

// The figures by the tallies, the whole workload, the border and what the constraints of kind 4 and of kind 5 add to the total.
#[tactic(auto, unfolding(crate::specs::Figures::figures_by))]
pub fn figures_of(
    sectors: u64,
    whole: u64,
    counts: &[u64],
    loads: &[u64],
    border: u64,
    bounded: u64,
    dwell: u64,
) -> Figures
    requires { SmallTallies sectors whole counts.now loads.now }
    ensures { result ≡ figures_by sectors whole counts.now loads.now border bounded dwell }
{
    Figures {
        components: sum_of(counts),
        excess: excess_of(counts),
        border,
        deviation: deviation_of(sectors, whole, loads),
        bounded,
        dwell,
    }
}

// Puts down what each sector pays for the constraints of kind 4, by its workload.
pub fn price_all(limited: &[u64], loads: &[u64], prices: &mut [u64])
    requires paying { Paying limited.now }
    requires few { Few most_sectors most_load loads.now }
    requires prices_len { length prices.old ≡ length loads.now }
    ensures { prices.new ≡ map (price (constraints_of limited.now)) loads.now }
{
    // By index: of a list that is written through a `zip` a proof knows nothing afterwards.
    for (i, price) in prices.iter_mut().enumerate() {
        *price = kinds::price(limited, loads[i]);
    }
}

// How far the workloads of the sectors are from standing in the relation of a code to the limit, summed.
pub fn distances(loads: &[u64], relation: u64, limit: u64) -> u64
    requires few { Few most_sectors most_load loads.now }
    requires limit_le_most_limit { limit ≤ most_limit }
    ensures { result ≡ sum loads.now (λ x. distance relation x limit) }
{
    loads
        .iter()
        .map(|load| distance(relation, *load, limit))
        .sum()
}

// What a constraint's verdict asks for by the workloads: the distances of a bounded one, and nothing of another.
#[tactic(auto, unfolding(crate::specs::Figures::gauge_by))]
pub fn gauge_of(loads: &[u64], constraint: Constraint) -> u64
    requires few { Few most_sectors most_load loads.now }
    requires constraint_limits { ConstraintLimits (unweighted constraint) }
    ensures { result ≡ gauge_by loads.now constraint }
{
    if constraint.kind == BOUNDED {
        return distances(loads, constraint.relation, constraint.limit);
    }
    0
}

// Puts down the gauge of each constraint.
pub fn gauge_all(constraints: &[u64], loads: &[u64], gauges: &mut [u64])
    requires few { Few most_sectors most_load loads.now }
    requires every { Every ConstraintLimits (constraints_of constraints.now) }
    requires gauges_len { length gauges.old ≡ constraint_count constraints.now }
    ensures { gauges.new ≡ gauges_by loads.now constraints.now }
{
    for (k, gauge) in gauges.iter_mut().enumerate() {
        *gauge = gauge_of(loads, Constraint::at(constraints, k));
    }
}

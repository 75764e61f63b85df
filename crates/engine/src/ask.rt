// A region's violation.
ghost use Rattle.std.specs.Prelude.{◌≡◌, length};
ghost use Rattle.meaning.specs.Kinds.{region_violation};
ghost use Rattle.meaning.specs.Prices.{prices as pricesOf};
ghost use Rattle.kinds.specs.Paid.{weights_of};
ghost use Rattle.engine.specs.Asking.{Asking};
ghost use Rattle.engine.specs.Prepared.{plan_prepared, FlownBy};

use crate::Prepared;
use kinds::Weights;
use terms::Region;
use visitors::price_visitors;

// The region's violation: what it has by each of the kinds 1 to 3, times what their constraints weigh, what its sector pays for those of
// kind 4, and what the stretches that visit it cost.
pub fn region_violation(
    prepared: Prepared,
    weights: Weights,
    colouring: &[u64],
    work: &[u64],
    prices: &[u64],
    region: Region,
) -> u64
    requires weights_value { let P = plan_prepared prepared in weights ≡ weights_of P.constraints }
    requires prices_value { let P = plan_prepared prepared in prices.now ≡ pricesOf P colouring.now }
    requires asking { let P = plan_prepared prepared in Asking P prepared.whole prepared.faces.start.now prepared.faces.near.now prepared.faces.areas.now colouring.now work.now region.0 }
    requires flown { FlownBy prepared }
    ensures { let P = plan_prepared prepared.entry in result ≡ region_violation P colouring.now region.0 }
{
    let lists = prepared.lists;
    let v = region.0 as usize;
    let own = colouring[v - 1];
    let at = lists.workloads.len() + own as usize - 1;
    let workload = work[at + lists.sectors as usize];
    let inside = search::border_at(prepared.faces, colouring, v, own);
    let border = inside + lists.outside[v - 1];
    let excess = work[at].saturating_sub(1);
    let balance = (lists.sectors * workload).abs_diff(prepared.whole);
    let dwell = price_visitors(prepared.visitors, colouring, region.0);
    weights.connected * excess
        + weights.border * border
        + weights.balanced * balance
        + prices[own as usize - 1]
        + dwell
}

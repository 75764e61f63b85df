// The front of the work memory: the labels, then the component count and then the workload sum of each sector.
ghost use Rattle.std.specs.Prelude.{◌≡◌, ◌++◌, ◌-◌, length, drop};
ghost use Rattle.meaning.specs.Moves.{differing as differingOf};
ghost use Rattle.engine.specs.State.{memory, memory_length};
ghost use Rattle.engine.specs.Memory.{Placed, sides_in, sides_put, pair_put};
ghost use Rattle.engine.specs.Opening.{Blank};
ghost use Rattle.engine.specs.Prepared.{plan_prepared};

use crate::Prepared;
use change::{Pair, Sides};

// The component counts, the workload sums and the prices of two sectors: the one that a region leaves and the one that it comes to. (Both are plain numbers here and where a change is settled: they are indices, and the first is read off the colouring.)
pub fn sides_in(
    work: &[u64],
    prices: &[u64],
    regions: usize,
    sectors: u64,
    own: u64,
    sector: u64,
) -> Sides
    requires { Placed work.now prices.now regions sectors own sector }
    ensures { result ≡ sides_in work.now prices.now regions sectors own sector }
{
    let old = regions + own as usize - 1;
    let new = regions + sector as usize - 1;
    let further = sectors as usize;
    let components = Pair {
        old: work[old],
        new: work[new],
    };
    let workloads = Pair {
        old: work[old + further],
        new: work[new + further],
    };
    let paid = Pair {
        old: prices[own as usize - 1],
        new: prices[sector as usize - 1],
    };
    Sides {
        components,
        workloads,
        prices: paid,
    }
}

// Puts down the component counts, the workload sums and the prices of two sectors.
pub fn put_sides(
    work: &mut [u64],
    prices: &mut [u64],
    regions: usize,
    sectors: u64,
    own: u64,
    sector: u64,
    sides: Sides,
)
    requires { Placed work.old prices.old regions sectors own sector }
    ensures work_after { work.new ≡ sides_put work.old regions sectors own sector sides }
    ensures prices_after { prices.new ≡ pair_put prices.old (own - 1) (sector - 1) sides.prices }
{
    let old = regions + own as usize - 1;
    let new = regions + sector as usize - 1;
    let further = sectors as usize;
    let components = sides.components;
    let workloads = sides.workloads;
    let paid = sides.prices;
    work[old] = components.old;
    work[new] = components.new;
    work[old + further] = workloads.old;
    work[new + further] = workloads.new;
    prices[own as usize - 1] = paid.old;
    prices[sector as usize - 1] = paid.new;
}

// How many regions have another label after than before.
pub fn differing(before: &[u64], after: &[u64]) -> u64
    requires { length before.now ≡ length after.now }
    ensures { result ≡ differingOf (length before.now) before.now after.now }
{
    let mut n = 0;
    for i in 0..before.len() {
        n += u64::from(before[i] != after[i]);
    }
    n
}

// Puts down the labels of a colouring, the component counts and the workload sums; what lies beyond stays.
pub fn lay_out(prepared: Prepared, colouring: &mut [u64], work: &mut [u64], queue: &mut [u64])
    requires { let P = plan_prepared prepared in Blank P prepared.faces.start.now prepared.faces.near.now colouring.old work.old queue.old }
    ensures colouring_after { colouring.new ≡ colouring.old }
    ensures work_after { let P = plan_prepared prepared.entry in work.new ≡ memory P colouring.old ++ drop (memory_length P) work.old }
{
    let lists = prepared.lists;
    let sectors = lists.sectors as usize;
    let (labels, sums) = work.split_at_mut(lists.workloads.len());
    let (components, rest) = sums.split_at_mut(sectors);
    relabel::label_all(prepared.faces, colouring, labels, queue);
    judge::tallies::tally_components(labels, colouring, components);
    judge::tallies::tally_workloads(lists.workloads, colouring, &mut rest[..sectors]);
}

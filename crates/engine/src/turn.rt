// What giving a region to another sector changes: as it would be, and as the colouring and the labels follow it.
ghost use Rattle.std.specs.Prelude.{◌≡◌, length};
ghost use Rattle.lists.specs.Sums.{In, at};
ghost use Rattle.meaning.specs.Plan.{flights_of, constraints_of};
ghost use Rattle.meaning.specs.Joined.{labels as labelsOf};
ghost use Rattle.meaning.specs.Prices.{limited as limitedOf};
ghost use Rattle.meaning.specs.Moves.{recolour};
ghost use Rattle.search.specs.Remembered.{Remembered};
ghost use Rattle.change.specs.Changed.{sides_of, Single};
ghost use Rattle.visitors.specs.Visitors.{Pricing};
ghost use Rattle.visitors.specs.AlongBoth.{VisitorsDiffer};
ghost use Rattle.kinds.specs.Constraints.{Paying};
ghost use Rattle.engine.specs.Memory.{Kept};
ghost use Rattle.engine.specs.Sorted.{Paid};
ghost use Rattle.engine.specs.Turning.{Movable, Passing, paid_by, change_of, Turning, Turns, Followed};
ghost use Rattle.engine.specs.Prepared.{plan_prepared, FlownBy};

use crate::Prepared;
use crate::memory::sides_in;
use change::{Change, Pair, Sides, Swing};
use kinds::price;
use search::{Look, look_anew, look_at, meet};
use terms::{Region, Sector};
use visitors::{Visitors, price_both};

// What the flights that visit a region gain and lose in price once it is given to the sector.
fn swing_at(visitors: Visitors, colouring: &[u64], region: Region, sector: Sector) -> Swing
    requires pricing { Pricing (length colouring.now) visitors.timed.now visitors.counts.now visitors.visits.now visitors.starts.now visitors.numbers.now visitors.firsts.now }
    requires in_range { In (length colouring.now) region.0 }
    ensures { VisitorsDiffer (constraints_of visitors.entry.timed.now) colouring.now region.0 sector.0 (flights_of visitors.entry.counts.now visitors.entry.visits.now) (record { before = result.lost; after = result.gained }) }
{
    let prices = price_both(visitors, colouring, region.0, sector.0);
    Swing {
        gained: prices.after,
        lost: prices.before,
    }
}

// What the two sectors pay for the constraints of kind 4 once a workload has gone from the one to the other.
fn paid(limited: &[u64], workloads: Pair, workload: u64) -> Pair
    requires paying { Paying limited.now }
    requires passing { Passing workloads workload }
    ensures { result ≡ paid_by (constraints_of limited.now) workloads workload }
{
    Pair {
        old: price(limited, workloads.old - workload),
        new: price(limited, workloads.new + workload),
    }
}

// What giving a region to another sector changes, by what the two sectors have before it, the region's workload, what they pay after it,
// a look at the region and what the flights that visit it cost.
fn change_of(before: Sides, workload: u64, prices: Pair, look: Look, dwell: Swing) -> Change
    requires { Movable before workload look }
    ensures { result ≡ change_of before workload prices look dwell }
{
    let components = before.components;
    let workloads = before.workloads;
    let met = look.met;
    let components_after = Pair {
        old: components.old + look.pieces - 1,
        new: components.new + 1 - met.touching,
    };
    let workloads_after = Pair {
        old: workloads.old - workload,
        new: workloads.new + workload,
    };
    let after = Sides {
        components: components_after,
        workloads: workloads_after,
        prices,
    };
    let border = Swing {
        gained: met.here,
        lost: met.there,
    };
    Change {
        before,
        after,
        border,
        dwell,
    }
}

// What giving the region to another sector would change, by what stands in the work memory and by what is known of pieces.
pub fn change_at(
    prepared: Prepared,
    colouring: &mut [u64],
    work: &[u64],
    prices: &[u64],
    queue: &mut [u64],
    known: &mut [u64],
    clock: u64,
    region: Region,
    sector: Sector,
) -> Change
    requires paid { let P = plan_prepared prepared in Paid P colouring.old prepared.limited.now prices.now }
    requires remembered { let P = plan_prepared prepared in Remembered P.R P.S P.edges colouring.old clock known.old }
    requires turning { let P = plan_prepared prepared in Turning P prepared.faces.start.now prepared.faces.near.now prepared.faces.areas.now colouring.old queue.old region.0 sector.0 }
    requires kept { let P = plan_prepared prepared in Kept P colouring.old work.now }
    requires flown { FlownBy prepared }
    ensures remembered { let P = plan_prepared prepared.entry in Remembered P.R P.S P.edges colouring.old clock known.new }
    ensures turns { let P = plan_prepared prepared.entry in Turns P colouring.old region.0 sector.0 result }
    ensures colouring_after { colouring.new ≡ colouring.old }
{
    let regions = prepared.lists.workloads.len();
    let sectors = prepared.lists.sectors;
    let v = region.0 as usize;
    let before = sides_in(work, prices, regions, sectors, colouring[v - 1], sector.0);
    let workload = prepared.lists.workloads[v - 1];
    let look = look_at(
        prepared.faces,
        &work[..regions],
        colouring,
        queue,
        known,
        sectors,
        clock,
        v,
        sector.0,
    );
    let after = paid(prepared.limited, before.workloads, workload);
    let dwell = swing_at(prepared.visitors, colouring, region, sector);
    change_of(before, workload, after, look, dwell)
}

// What giving the region to another sector would change, by what the two sectors have, where the labels are not known.
pub fn change_anew(
    prepared: Prepared,
    colouring: &mut [u64],
    queue: &mut [u64],
    before: Sides,
    region: Region,
    sector: Sector,
) -> Change
    requires limited_value { let P = plan_prepared prepared in constraints_of prepared.limited.now ≡ limitedOf P.constraints }
    requires turning { let P = plan_prepared prepared in Turning P prepared.faces.start.now prepared.faces.near.now prepared.faces.areas.now colouring.old queue.old region.0 sector.0 }
    requires before_value { let P = plan_prepared prepared in before ≡ sides_of P colouring.old (at colouring.old region.0) sector.0 }
    requires flown { FlownBy prepared }
    ensures turns { let P = plan_prepared prepared.entry in Turns P colouring.old region.0 sector.0 result }
    ensures colouring_after { colouring.new ≡ colouring.old }
{
    let v = region.0 as usize;
    let workload = prepared.lists.workloads[v - 1];
    let look = look_anew(prepared.faces, colouring, queue, v, sector.0);
    let after = paid(prepared.limited, before.workloads, workload);
    let dwell = swing_at(prepared.visitors, colouring, region, sector);
    change_of(before, workload, after, look, dwell)
}

// What has changed, and how many labels are new.
#[derive(Drop)]
pub struct Turned {
    pub change: Change,
    pub relabelled: u64,
}

// Gives the region to another sector in the colouring, brings the labels up to date, and answers what that changes, by what the two sectors have before it.
pub fn turn(
    prepared: Prepared,
    colouring: &mut [u64],
    labels: &mut [u64],
    queue: &mut [u64],
    before: Sides,
    region: Region,
    sector: Sector,
) -> Turned
    requires limited_value { let P = plan_prepared prepared in constraints_of prepared.limited.now ≡ limitedOf P.constraints }
    requires turning { let P = plan_prepared prepared in Turning P prepared.faces.start.now prepared.faces.near.now prepared.faces.areas.now colouring.old queue.old region.0 sector.0 }
    requires before_value { let P = plan_prepared prepared in before ≡ sides_of P colouring.old (at colouring.old region.0) sector.0 }
    requires labels_value { let P = plan_prepared prepared in labels.old ≡ labelsOf P.edges colouring.old }
    requires flown { FlownBy prepared }
    ensures followed { let P = plan_prepared prepared.entry in Followed P colouring.old (recolour colouring.old region.0 sector.0) (at colouring.old region.0) sector.0 colouring.new labels.new result }
    ensures single { Single result.change }
{
    let v = region.0 as usize;
    let workload = prepared.lists.workloads[v - 1];
    let met = meet(prepared.faces, labels, colouring, queue, v, sector.0);
    let after = paid(prepared.limited, before.workloads, workload);
    let dwell = swing_at(prepared.visitors, colouring, region, sector);
    let labelled = relabel::recolour(prepared.faces, colouring, labels, queue, v, sector.0);
    let look = Look {
        pieces: labelled.pieces,
        met,
    };
    let change = change_of(before, workload, after, look, dwell);
    Turned {
        change,
        relabelled: labelled.relabelled,
    }
}

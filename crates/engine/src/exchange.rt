// An exchange, probed or made: two recolourings in turn, the first region to the sector of the second, then the second to the old sector of the first.
ghost use Rattle.std.specs.Prelude.{◌≡◌, length};
ghost use Rattle.lists.specs.Sums.{at};
ghost use Rattle.meaning.specs.Plan.{constraints_of};
ghost use Rattle.meaning.specs.Prices.{limited as limitedOf};
ghost use Rattle.meaning.specs.Joined.{labels as labelsOf};
ghost use Rattle.meaning.specs.Kinds.{total};
ghost use Rattle.meaning.specs.Moves.{swap};
ghost use Rattle.search.specs.Remembered.{Remembered};
ghost use Rattle.change.specs.Shift.{in_turn};
ghost use Rattle.change.specs.Small.{Addable};
ghost use Rattle.change.specs.Changed.{sides_of, Changed};
ghost use Rattle.engine.specs.Memory.{Kept};
ghost use Rattle.engine.specs.Turning.{Followed};
ghost use Rattle.engine.specs.Remade.{Remade};
ghost use Rattle.engine.specs.Swapping.{Swapping};
ghost use Rattle.engine.specs.Exchanging.{Exchanging};
ghost use Rattle.engine.specs.Sorted.{Paid};
ghost use Rattle.engine.specs.Prepared.{plan_prepared, SortedBy, FlownBy};

use crate::memory::{differing, sides_in};
use crate::settle::settle;
use crate::turn::{Turned, change_anew, change_at, turn};
use crate::{Made, Prepared, Standing};
use change::{Change, Sides, figures_after, in_turn, turned_round};
use judge::verdicts::total;
use lists::copy;
use terms::limits::MOST_REGIONS;
use terms::{Region, Sector};

// What giving two regions of different sectors each other's sector would change.
fn change_both(
    prepared: Prepared,
    colouring: &mut [u64],
    work: &[u64],
    prices: &[u64],
    queue: &mut [u64],
    known: &mut [u64],
    clock: u64,
    first: Region,
    second: Region,
) -> Change
    requires paid { let P = plan_prepared prepared in Paid P colouring.old prepared.limited.now prices.now }
    requires remembered { let P = plan_prepared prepared in Remembered P.R P.S P.edges colouring.old clock known.old }
    requires swapping { let P = plan_prepared prepared in Swapping P prepared.faces.start.now prepared.faces.near.now prepared.faces.areas.now colouring.old queue.old first.0 second.0 }
    requires kept { let P = plan_prepared prepared in Kept P colouring.old work.now }
    requires flown { FlownBy prepared }
    ensures remembered { let P = plan_prepared prepared.entry in Remembered P.R P.S P.edges colouring.old clock known.new }
    ensures changed { let P = plan_prepared prepared.entry in Changed P colouring.old (swap colouring.old first.0 second.0) (at colouring.old first.0) (at colouring.old second.0) result }
    ensures colouring_after { colouring.new ≡ colouring.old }
{
    let z = first.0 as usize - 1;
    let own = colouring[z];
    let other = colouring[second.0 as usize - 1];
    let once = change_at(
        prepared,
        colouring,
        work,
        prices,
        queue,
        known,
        clock,
        first,
        Sector(other),
    );
    colouring[z] = other;
    let twice = change_anew(
        prepared,
        colouring,
        queue,
        turned_round(once.after),
        second,
        Sector(own),
    );
    colouring[z] = own;
    in_turn(once, twice)
}

// The total if the two regions were given each other's sectors; all is left as it was, but for what is known of pieces.
pub fn probe(
    prepared: Prepared,
    colouring: &mut [u64],
    work: &[u64],
    prices: &[u64],
    queue: &mut [u64],
    known: &mut [u64],
    clock: u64,
    standing: Standing,
    first: Region,
    second: Region,
) -> u64
    requires sorted { SortedBy prepared }
    requires remembered { let P = plan_prepared prepared in Remembered P.R P.S P.edges colouring.old clock known.old }
    requires exchanging { let P = plan_prepared prepared in Exchanging P prepared.whole prepared.faces.start.now prepared.faces.near.now prepared.faces.areas.now colouring.old work.now prices.now queue.old standing first.0 second.0 }
    requires flown { FlownBy prepared }
    ensures remembered { let P = plan_prepared prepared.entry in Remembered P.R P.S P.edges colouring.old clock known.new }
    ensures r_value { let P = plan_prepared prepared.entry in result ≡ total P (swap colouring.old first.0 second.0) }
    ensures colouring_after { colouring.new ≡ colouring.old }
{
    let own = colouring[first.0 as usize - 1];
    let other = colouring[second.0 as usize - 1];
    if own == other {
        return standing.total;
    }
    let change = change_both(
        prepared, colouring, work, prices, queue, known, clock, first, second,
    );
    let figures = figures_after(
        prepared.lists.sectors,
        prepared.whole,
        standing.figures,
        change,
    );
    total(prepared.shared, figures)
}

// What two recolourings in turn change together, with the new labels counted from before both.
fn together(once: Turned, twice: Turned, relabelled: u64) -> Turned
    requires { Addable once.change twice.change }
    ensures change_value { result.change ≡ in_turn once.change twice.change }
    ensures relabelled_value { result.relabelled ≡ relabelled }
{
    let change = in_turn(once.change, twice.change);
    Turned { change, relabelled }
}

// Gives two regions of different sectors each other's sector in the colouring, brings the labels up to date, and answers what that changes, by what the two sectors have before it. (A call of its own: taken into `make`, it has the memory for the labels cleared also where nothing is exchanged.)
#[inline(never)]
fn turn_both(
    prepared: Prepared,
    colouring: &mut [u64],
    labels: &mut [u64],
    queue: &mut [u64],
    before: Sides,
    first: Region,
    second: Region,
) -> Turned
    requires limited_value { let P = plan_prepared prepared in constraints_of prepared.limited.now ≡ limitedOf P.constraints }
    requires swapping { let P = plan_prepared prepared in Swapping P prepared.faces.start.now prepared.faces.near.now prepared.faces.areas.now colouring.old queue.old first.0 second.0 }
    requires before_value { let P = plan_prepared prepared in before ≡ sides_of P colouring.old (at colouring.old first.0) (at colouring.old second.0) }
    requires labels_value { let P = plan_prepared prepared in labels.old ≡ labelsOf P.edges colouring.old }
    requires flown { FlownBy prepared }
    ensures { let P = plan_prepared prepared.entry in Followed P colouring.old (swap colouring.old first.0 second.0) (at colouring.old first.0) (at colouring.old second.0) colouring.new labels.new result }
{
    let regions = prepared.lists.workloads.len();
    let from = colouring[first.0 as usize - 1];
    let to = colouring[second.0 as usize - 1];
    // A copy in fixed memory, since both recolourings write the labels.
    let mut old = [0u64; MOST_REGIONS as usize];
    copy(labels, &mut old);
    let once = turn(
        prepared,
        colouring,
        labels,
        queue,
        before,
        first,
        Sector(to),
    );
    let between = turned_round(once.change.after);
    let twice = turn(
        prepared,
        colouring,
        labels,
        queue,
        between,
        second,
        Sector(from),
    );
    together(once, twice, differing(&old[..regions], labels))
}

// Gives the two regions each other's sectors, and answers what stands then and how many labels are new after both recolourings.
pub fn make(
    prepared: Prepared,
    colouring: &mut [u64],
    work: &mut [u64],
    prices: &mut [u64],
    queue: &mut [u64],
    standing: Standing,
    first: Region,
    second: Region,
) -> Made
    requires sorted { SortedBy prepared }
    requires exchanging { let P = plan_prepared prepared in Exchanging P prepared.whole prepared.faces.start.now prepared.faces.near.now prepared.faces.areas.now colouring.old work.old prices.old queue.old standing first.0 second.0 }
    requires flown { FlownBy prepared }
    ensures { let P = plan_prepared prepared.entry in Remade P colouring.old work.old (swap colouring.old first.0 second.0) colouring.new work.new prices.new result }
{
    let from = colouring[first.0 as usize - 1];
    let to = colouring[second.0 as usize - 1];
    if from == to {
        return Made {
            standing,
            relabelled: 0,
        };
    }
    let regions = prepared.lists.workloads.len();
    let before = sides_in(work, prices, regions, prepared.lists.sectors, from, to);
    let turned = turn_both(
        prepared,
        colouring,
        &mut work[..regions],
        queue,
        before,
        first,
        second,
    );
    let settled = settle(
        prepared,
        colouring,
        work,
        prices,
        standing,
        from,
        to,
        turned.change,
    );
    Made {
        standing: settled,
        relabelled: turned.relabelled,
    }
}

// A recolouring, probed or made.
ghost use Rattle.std.specs.Prelude.{◌≡◌, length};
ghost use Rattle.meaning.specs.Kinds.{total};
ghost use Rattle.meaning.specs.Moves.{recolour};
ghost use Rattle.search.specs.Remembered.{Remembered};
ghost use Rattle.engine.specs.Remade.{Remade};
ghost use Rattle.engine.specs.Recolouring.{Recolouring};
ghost use Rattle.engine.specs.Prepared.{plan_prepared, FlownBy, SortedBy};

use crate::memory::sides_in;
use crate::settle::settle;
use crate::turn::{change_at, turn};
use crate::{Made, Prepared, Standing};
use change::figures_after;
use judge::verdicts::total;
use terms::{Region, Sector};

// The total if the region were given to the sector; all is left as it was, but for what is known of pieces.
pub fn probe(
    prepared: Prepared,
    colouring: &mut [u64],
    work: &[u64],
    prices: &[u64],
    queue: &mut [u64],
    known: &mut [u64],
    clock: u64,
    standing: Standing,
    region: Region,
    sector: Sector,
) -> u64
    requires sorted { SortedBy prepared }
    requires remembered { let P = plan_prepared prepared in Remembered P.R P.S P.edges colouring.old clock known.old }
    requires recolouring { let P = plan_prepared prepared in Recolouring P prepared.whole prepared.faces.start.now prepared.faces.near.now prepared.faces.areas.now colouring.old work.now prices.now queue.old standing region.0 sector.0 }
    requires flown { FlownBy prepared }
    ensures remembered { let P = plan_prepared prepared.entry in Remembered P.R P.S P.edges colouring.old clock known.new }
    ensures r_value { let P = plan_prepared prepared.entry in result ≡ total P (recolour colouring.old region.0 sector.0) }
    ensures colouring_after { colouring.new ≡ colouring.old }
{
    let own = colouring[region.0 as usize - 1];
    if own == sector.0 {
        return standing.total;
    }
    let change = change_at(
        prepared, colouring, work, prices, queue, known, clock, region, sector,
    );
    let figures = figures_after(
        prepared.lists.sectors,
        prepared.whole,
        standing.figures,
        change,
    );
    total(prepared.shared, figures)
}

// Gives the region to the sector, and answers what stands then and how many labels are new.
pub fn make(
    prepared: Prepared,
    colouring: &mut [u64],
    work: &mut [u64],
    prices: &mut [u64],
    queue: &mut [u64],
    standing: Standing,
    region: Region,
    sector: Sector,
) -> Made
    requires sorted { SortedBy prepared }
    requires recolouring { let P = plan_prepared prepared in Recolouring P prepared.whole prepared.faces.start.now prepared.faces.near.now prepared.faces.areas.now colouring.old work.old prices.old queue.old standing region.0 sector.0 }
    requires flown { FlownBy prepared }
    ensures { let P = plan_prepared prepared.entry in Remade P colouring.old work.old (recolour colouring.old region.0 sector.0) colouring.new work.new prices.new result }
{
    let own = colouring[region.0 as usize - 1];
    if own == sector.0 {
        return Made {
            standing,
            relabelled: 0,
        };
    }
    let regions = prepared.lists.workloads.len();
    let before = sides_in(work, prices, regions, prepared.lists.sectors, own, sector.0);
    let turned = turn(
        prepared,
        colouring,
        &mut work[..regions],
        queue,
        before,
        region,
        sector,
    );
    let settled = settle(
        prepared,
        colouring,
        work,
        prices,
        standing,
        own,
        sector.0,
        turned.change,
    );
    Made {
        standing: settled,
        relabelled: turned.relabelled,
    }
}

// A change is settled: the figures, the total and the numbers of the two sectors are brought up to date.
ghost use Rattle.std.specs.Prelude.{◌≡◌, length};
ghost use Rattle.meaning.specs.Plan.{constraints_of};
ghost use Rattle.meaning.specs.Prices.{shared as sharedOf};
ghost use Rattle.engine.specs.State.{standing_of};
ghost use Rattle.engine.specs.Remade.{Left};
ghost use Rattle.engine.specs.Settling.{Settling};
ghost use Rattle.engine.specs.Prepared.{plan_prepared};

use crate::memory::put_sides;
use crate::{Prepared, Standing};
use change::{Change, figures_after};
use judge::verdicts::total;

// Settles a change that the colouring and the labels have followed, and answers what stands then.
pub fn settle(
    prepared: Prepared,
    colouring: &[u64],
    work: &mut [u64],
    prices: &mut [u64],
    standing: Standing,
    own: u64,
    sector: u64,
    change: Change,
) -> Standing
    requires shared_value { let P = plan_prepared prepared in constraints_of prepared.shared.now ≡ sharedOf P.constraints }
    requires settling { let P = plan_prepared prepared in Settling P prepared.whole colouring.now work.old prices.old standing own sector change }
    ensures left { let P = plan_prepared prepared.entry in Left P work.old colouring.now colouring.now work.new prices.new }
    ensures r_value { let P = plan_prepared prepared.entry in result ≡ standing_of P colouring.now }
{
    let sectors = prepared.lists.sectors;
    let figures = figures_after(sectors, prepared.whole, standing.figures, change);
    let after = total(prepared.shared, figures);
    put_sides(
        work,
        prices,
        prepared.lists.workloads.len(),
        sectors,
        own,
        sector,
        change.after,
    );
    Standing {
        figures,
        total: after,
    }
}

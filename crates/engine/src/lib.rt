// The moves on a colouring, with all that is kept of it brought up to date.
#![tactic(auto)]

ghost use Rattle.std.specs.Prelude.{◌≡◌, ◌+◌, ◌<◌, ◌^◌, length, pos, ◌-ℤ◌};
ghost use Rattle.meaning.specs.Plan.{most_moves};
ghost use Rattle.meaning.specs.Moves.{next};
ghost use Rattle.search.specs.Remembered.{Remembered};
ghost use Rattle.engine.specs.State.{Ready, Within, Opening, Opened, Answered};
ghost use Rattle.kinds.specs.Paid.{weights_of};
ghost use Rattle.engine.specs.Prepared.{plan_prepared, SortedBy, SettingBy, PricedBy, FlownBy};

use judge::Figures;
use kinds::Weights;
use lists::sum_of;
use meaning::Lists;
use neighbours::Faces;
use search::raise;
use terms::Move;
use visitors::Visitors;

pub mod memory; // memory.rt: the front of the work memory
pub mod turn; // turn.rt: what giving a region to another sector changes
pub mod settle; // settle.rt: what stands after a change
pub mod recolour; // recolour.rt: a recolouring, probed or made
pub mod exchange; // exchange.rt: an exchange, probed or made
pub mod ask; // ask.rt: a region's violation

// The figures and the total of the colouring as it stands.
#[derive(Clone, Copy)]
pub struct Standing {
    pub figures: Figures,
    pub total: u64,
}

// What is prepared once in a call: the plan's lists, its whole workload, its constraints of kinds 1 to 3 and of kind 4, the faces that its
// regions share, gathered from its edges, and what the flights that visit a region are priced by.
#[derive(Clone, Copy)]
pub struct Prepared<'a> {
    pub lists: Lists<'a>,
    pub whole: u64,
    pub shared: &'a [u64],
    pub limited: &'a [u64],
    pub faces: Faces<'a>,
    pub visitors: Visitors<'a>,
}

// What stands after a made move, and how many labels it changed.
#[derive(Drop)]
pub struct Made {
    pub standing: Standing,
    pub relabelled: u64,
}

// What a move answers, and what stands after it.
#[derive(Drop)]
pub struct Stepped {
    pub standing: Standing,
    pub delta: i64,
    pub relabelled: u64,
}

// The total after less the total before.
fn delta(after: u64, before: u64) -> i64
    requires { (after < 2 ^ 63) × (before < 2 ^ 63) }
    ensures { result ≡ pos after -ℤ pos before }
{
    after as i64 - before as i64
}

// Does what a move asks for, and answers it: a probe, a question and a refused move leave all as it was, but for what is known of pieces.
pub fn step(
    prepared: Prepared,
    weights: Weights,
    colouring: &mut [u64],
    work: &mut [u64],
    prices: &mut [u64],
    queue: &mut [u64],
    known: &mut [u64],
    clock: u64,
    standing: Standing,
    asked: Move,
) -> Stepped
    requires sorted { let P = plan_prepared prepared in SortedBy prepared × (weights ≡ weights_of P.constraints) }
    requires remembered { let P = plan_prepared prepared in Remembered P.R P.S P.edges colouring.old clock known.old }
    requires clock_bound { clock < most_moves }
    requires setting { SettingBy prepared queue.old }
    requires ready { let P = plan_prepared prepared in Ready P colouring.old work.old prices.old standing }
    requires within { let P = plan_prepared prepared in Within P asked }
    requires flown { FlownBy prepared }
    ensures remembered { let P = plan_prepared prepared.entry in Remembered P.R P.S P.edges (next colouring.old asked) (clock + 1) known.new }
    ensures answered { let P = plan_prepared prepared.entry in Answered P colouring.old work.old asked colouring.new work.new prices.new result }
{
    let before = standing.total;
    match asked {
        Move::Recolour {
            make,
            region,
            sector,
        } => {
            if make {
                let own = colouring[region.0 as usize - 1];
                let made = recolour::make(
                    prepared, colouring, work, prices, queue, standing, region, sector,
                );
                raise(
                    known,
                    prepared.lists.workloads.len(),
                    clock + 1,
                    own,
                    sector.0,
                );
                let after = made.standing;
                Stepped {
                    standing: after,
                    delta: delta(after.total, before),
                    relabelled: made.relabelled,
                }
            } else {
                let total = recolour::probe(
                    prepared, colouring, work, prices, queue, known, clock, standing, region,
                    sector,
                );
                Stepped {
                    standing,
                    delta: delta(total, before),
                    relabelled: 0,
                }
            }
        }
        Move::Exchange {
            make,
            first,
            second,
        } => {
            if make {
                let own = colouring[first.0 as usize - 1];
                let other = colouring[second.0 as usize - 1];
                let made = exchange::make(
                    prepared, colouring, work, prices, queue, standing, first, second,
                );
                raise(known, prepared.lists.workloads.len(), clock + 1, own, other);
                let after = made.standing;
                Stepped {
                    standing: after,
                    delta: delta(after.total, before),
                    relabelled: made.relabelled,
                }
            } else {
                let total = exchange::probe(
                    prepared, colouring, work, prices, queue, known, clock, standing, first, second,
                );
                Stepped {
                    standing,
                    delta: delta(total, before),
                    relabelled: 0,
                }
            }
        }
        Move::Ask(region) => {
            let violation = ask::region_violation(
                prepared, weights, colouring, work, prices, region,
            );
            Stepped {
                standing,
                delta: delta(violation, 0),
                relabelled: 0,
            }
        }
        Move::Refused(_) => Stepped {
            standing,
            delta: 0,
            relabelled: 0,
        },
    }
}

// Judges the colouring from scratch into the front of the work memory and into the prices of the sectors.
pub fn begin(
    prepared: Prepared,
    colouring: &mut [u64],
    work: &mut [u64],
    prices: &mut [u64],
    queue: &mut [u64],
) -> Standing
    requires sorted { SortedBy prepared }
    requires setting { SettingBy prepared queue.old }
    requires opening { let P = plan_prepared prepared in Opening P colouring.old work.old prices.old }
    requires priced { PricedBy prepared }
    ensures { let P = plan_prepared prepared.entry in Opened P colouring.old work.old colouring.new work.new prices.new result }
{
    memory::lay_out(prepared, colouring, work, queue);
    let lists = prepared.lists;
    let visitors = prepared.visitors;
    let regions = lists.workloads.len();
    let counts_end = regions + lists.sectors as usize;
    let loads_end = counts_end + lists.sectors as usize;
    let border = judge::tallies::border_of(lists.outside, prepared.faces.edges, colouring);
    let dwell = flights::pricing::price_all(
        visitors.timed,
        visitors.counts,
        visitors.visits,
        colouring,
    );
    judge::measures::price_all(prepared.limited, &work[counts_end..loads_end], prices);
    let bounded = sum_of(prices);
    let figures = judge::measures::figures_of(
        lists.sectors,
        prepared.whole,
        &work[regions..counts_end],
        &work[counts_end..loads_end],
        border,
        bounded,
        dwell,
    );
    let total = judge::verdicts::total(prepared.shared, figures);
    Standing { figures, total }
}

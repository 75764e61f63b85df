// What changes between two colourings: the two sectors that it concerns, and by them the figures after it.
#![tactic(auto)]

ghost use Rattle.std.specs.Prelude.{◌≡◌, ◌≤◌};
ghost use Rattle.meaning.specs.Plan.{most_sectors};
ghost use Rattle.meaning.specs.Bounds.{most_load};
ghost use Rattle.change.specs.Shift.{less_one, off_balance, shift, swing, figures_after, turned_round, together, in_turn};
ghost use Rattle.change.specs.Small.{AtMost, Fits, Swings, Shifting, Summable, Addable};

use judge::Figures;

// Of the two sectors that a change concerns, the one that a region leaves and the one that it comes to, a number each.
#[derive(Clone, Copy)]
pub struct Pair {
    pub old: u64,
    pub new: u64,
}

impl Pair {
    // What f makes of each number.
    fn each<F: Fn(u64) -> u64>(self, f: F) -> Pair
        requires old { F.pre f self.old }
        requires new { F.pre f self.new }
        ensures old { F.post f self.old result.old }
        ensures new { F.post f self.new result.new }
    {
        Pair {
            old: f(self.old),
            new: f(self.new),
        }
    }

    // The two sectors the other way round.
    fn turned_round(self) -> Pair
        ensures { result ≡ record { old = self.new; new = self.old } }
    {
        Pair {
            old: self.new,
            new: self.old,
        }
    }
}

// The two sectors' components and workloads, and what they pay for the constraints of kind 4.
#[derive(Clone, Copy)]
pub struct Sides {
    pub components: Pair,
    pub workloads: Pair,
    pub prices: Pair,
}

// What a figure gains and loses.
#[derive(Clone, Copy)]
pub struct Swing {
    pub gained: u64,
    pub lost: u64,
}

// What changes: the two sectors before and after, the border, and what the constraints of kind 5 add to the total.
#[derive(Clone, Copy)]
pub struct Change {
    pub before: Sides,
    pub after: Sides,
    pub border: Swing,
    pub dwell: Swing,
}

// A sum of which two terms change.
fn shifted(sum: u64, before: Pair, after: Pair) -> u64
    requires { Fits sum before after }
    ensures { result ≡ shift sum before after }
{
    sum + (after.old + after.new) - (before.old + before.new)
}

// A figure that gains and loses.
fn swung(figure: u64, by: Swing) -> u64
    requires { Swings figure by }
    ensures { result ≡ swing figure by }
{
    figure + by.gained - by.lost
}

// The components of each sector above its first.
fn less_one(components: Pair) -> Pair
    ensures { result ≡ less_one components }
{
    components.each(|count| count.saturating_sub(1))
}

// How far each workload is from the average, times the number of sectors.
fn off_balance(sectors: u64, whole: u64, workloads: Pair) -> Pair
    requires sectors_le_most_sectors { sectors ≤ most_sectors }
    requires at_most { AtMost most_load workloads }
    ensures { result ≡ off_balance sectors whole workloads }
{
    workloads.each(|workload| (sectors * workload).abs_diff(whole))
}

// The figures after the change.
#[tactic(auto, unfolding(crate::specs::Shift::figures_after))]
pub fn figures_after(sectors: u64, whole: u64, figures: Figures, change: Change) -> Figures
    requires { Shifting sectors whole figures change }
    ensures { result ≡ figures_after sectors whole figures change }
{
    let components = change.before.components;
    let components_after = change.after.components;
    let workloads = change.before.workloads;
    let workloads_after = change.after.workloads;
    Figures {
        components: shifted(figures.components, components, components_after),
        excess: shifted(
            figures.excess,
            less_one(components),
            less_one(components_after),
        ),
        border: swung(figures.border, change.border),
        deviation: shifted(
            figures.deviation,
            off_balance(sectors, whole, workloads),
            off_balance(sectors, whole, workloads_after),
        ),
        bounded: shifted(figures.bounded, change.before.prices, change.after.prices),
        dwell: swung(figures.dwell, change.dwell),
    }
}

// The two sectors the other way round.
pub fn turned_round(sides: Sides) -> Sides
    ensures { result ≡ turned_round sides }
{
    Sides {
        components: sides.components.turned_round(),
        workloads: sides.workloads.turned_round(),
        prices: sides.prices.turned_round(),
    }
}

// Two swings in one.
fn both(first: Swing, second: Swing) -> Swing
    requires { Summable first second }
    ensures { result ≡ together first second }
{
    Swing {
        gained: first.gained + second.gained,
        lost: first.lost + second.lost,
    }
}

// Two changes in one: the second, which has the two sectors the other way round, is made on what the first leaves.
pub fn in_turn(first: Change, second: Change) -> Change
    requires { Addable first second }
    ensures { result ≡ in_turn first second }
{
    let before = first.before;
    let after = turned_round(second.after);
    Change {
        before,
        after,
        border: both(first.border, second.border),
        dwell: both(first.dwell, second.dwell),
    }
}

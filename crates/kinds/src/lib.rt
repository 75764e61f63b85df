// The constraints of some kinds, picked out of all, and what a number pays for them.
#![tactic(auto)]

ghost use Rattle.std.specs.Prelude.{◌≡◌, ◌*◌, ◌≤◌, length, take};
ghost use Rattle.std.specs.Iterator.{YieldsFirst, item_count};
ghost use Rattle.meaning.specs.Plan.{ConstraintLimits, constraint_length, constraints_of};
ghost use Rattle.meaning.specs.Bounds.{most_load};
ghost use Rattle.meaning.specs.Prices.{of_kinds, weight_of, price};
ghost use Rattle.kinds.specs.Constraints.{Paying};
ghost use Rattle.kinds.specs.Picked.{Picking, Picks};
ghost use Rattle.kinds.specs.Paid.{price_by, weights_of};

use lists::copy;
use meaning::Constraint;
use terms::limits::{BALANCED, BORDER, CONNECTED, CONSTRAINT_LENGTH};
use terms::{distance, in_limits};

// The constraints of a flat list, one after another.
#[derive(Drop)]
pub struct Constraints<'a>(pub &'a [u64]);

impl<'a> Iterator for Constraints<'a> {
    type Item = Constraint;

    ghost next_gives = { YieldsFirst (λ s. constraints_of s.0.now) };

    ghost remaining = { item_count (λ s. constraints_of s.0.now) };

    #[tactic(auto, using(crate::specs::Constraints::constraints_none))]
    fn next(&mut self) -> Option<Constraint> {
        let [kind, relation, limit, weight, others @ ..] = self.0 else {
            return None;
        };
        self.0 = others;
        Some(Constraint {
            kind: *kind,
            relation: *relation,
            limit: *limit,
            weight: *weight,
        })
    }
}

// Puts constraint k, from 0, down after the n that are picked, where it is of the kinds low to high; answers how many are picked then.
fn pick_at(
    constraints: &[u64],
    low: u64,
    high: u64,
    picked: &mut [u64],
    k: usize,
    n: usize,
) -> usize
    requires { Picking constraints.now picked.old k n }
    ensures { Picks low high constraints.now picked.old k n picked.new result }
{
    let from = CONSTRAINT_LENGTH * k;
    if in_limits(low, constraints[from], high) {
        let end = from + CONSTRAINT_LENGTH;
        let to = CONSTRAINT_LENGTH * n;
        copy(&constraints[from..end], &mut picked[to..]);
        return n + 1;
    }
    n
}

// Puts the constraints of the kinds low to high down in their order, and answers how many there are.
pub fn pick(constraints: &[u64], low: u64, high: u64, picked: &mut [u64]) -> usize
    requires { length constraints.now ≤ length picked.old }
    ensures result_in_bounds { constraint_length * result ≤ length picked.new }
    ensures picked_after { constraints_of (take (constraint_length * result) picked.new) ≡ of_kinds low high (constraints_of constraints.now) }
{
    let mut n = 0;
    for k in 0..constraints.len() / CONSTRAINT_LENGTH {
        n = pick_at(constraints, low, high, picked, k, n);
    }
    n
}

// The distance of x from the limit of a constraint, times its weight.
#[tactic(auto, using(crate::specs::Paid::part_bound))]
fn price_by(constraint: Constraint, x: u64) -> u64
    requires limits { ConstraintLimits constraint }
    requires x_le_most_load { x ≤ most_load }
    ensures { result ≡ price_by x constraint }
{
    constraint.weight * distance(constraint.relation, x, constraint.limit)
}

// What x, a workload or the seconds of a stretch, pays for all the constraints.
pub fn price(constraints: &[u64], x: u64) -> u64
    requires paying { Paying constraints.now }
    requires x_le_most_load { x ≤ most_load }
    ensures { result ≡ price (constraints_of constraints.now) x }
{
    Constraints(constraints)
        .map(|constraint| price_by(constraint, x))
        .sum()
}

// The summed weights of the constraints of the kinds 1, 2 and 3.
#[derive(Clone, Copy)]
pub struct Weights {
    pub connected: u64,
    pub border: u64,
    pub balanced: u64,
}

// The summed weight of the constraints of a kind.
fn weight_of(constraints: &[u64], kind: u64) -> u64
    requires { Paying constraints.now }
    ensures { result ≡ weight_of kind (constraints_of constraints.now) }
{
    Constraints(constraints)
        .map(|constraint| if constraint.kind == kind {
            constraint.weight
        } else {
            0
        })
        .sum()
}

// What the constraints of each of the kinds 1 to 3 weigh.
pub fn weights_of(constraints: &[u64]) -> Weights
    requires { Paying constraints.now }
    ensures { result ≡ weights_of (constraints_of constraints.now) }
{
    Weights {
        connected: weight_of(constraints, CONNECTED),
        border: weight_of(constraints, BORDER),
        balanced: weight_of(constraints, BALANCED),
    }
}

// The violations, the total and the verdicts, by the figures and the gauges.
ghost use Rattle.std.specs.Prelude.{◌≡◌, ◌++◌, not, ◌*◌, ◌<◌, ◌≤◌, ◌^◌, length, drop};
ghost use Rattle.lists.specs.Sums.{In, bit};
ghost use Rattle.terms.specs.Distance.{stands};
ghost use Rattle.meaning.specs.Plan.{ConstraintLimits, constraints_of};
ghost use Rattle.meaning.specs.Moves.{verdict_length};
ghost use Rattle.kinds.specs.Constraints.{Paying};
ghost use Rattle.judge.specs.Figures.{constraint_count, unweighted, violation_by, violation_at, weighted_by, total_by, verdicts_by};
ghost use Rattle.judge.specs.Small.{SmallFigures, Small};

use crate::Figures;
use kinds::Constraints;
use meaning::Constraint;
use terms::distance;
use terms::limits::{BALANCED, BORDER, CONNECTED, CONSTRAINT_LENGTH, VERDICT_LENGTH};

// 1 where x does not stand in the relation to the limit, 0 where it does.
fn missed(relation: u64, x: u64, limit: u64) -> u64
    requires in_range { In 6 relation }
    requires x_bound { (x < 2 ^ 63) × (limit < 2 ^ 63) }
    ensures { result ≡ bit (not (stands relation x limit)) }
{
    u64::from(distance(relation, x, limit) != 0)
}

// The violation of a constraint, by the figures and its gauge.
pub fn violation(figures: Figures, gauge: u64, constraint: Constraint) -> u64
    requires small_figures { SmallFigures figures }
    requires constraint_limits { ConstraintLimits (unweighted constraint) }
    ensures { result ≡ violation_by figures gauge constraint }
{
    let limit = constraint.limit;
    match constraint.kind {
        CONNECTED => missed(constraint.relation, figures.components, limit) + figures.excess,
        BORDER => figures.border.saturating_sub(limit),
        BALANCED => figures.deviation.saturating_sub(limit),
        _ => gauge,
    }
}

// The violation of constraint k, from 0.
pub fn violation_at(constraints: &[u64], figures: Figures, gauges: &[u64], k: usize) -> u64
    requires small { Small figures gauges.now constraints.now }
    requires k_bound { k < constraint_count constraints.now }
    ensures { result ≡ violation_at figures gauges.now constraints.now k }
{
    violation(figures, gauges[k], Constraint::at(constraints, k))
}

// The violation of a constraint by the figures alone, times its weight.
fn weighted(figures: Figures, constraint: Constraint) -> u64
    requires small_figures { SmallFigures figures }
    requires constraint_limits { ConstraintLimits constraint }
    ensures { result ≡ weighted_by figures constraint }
{
    constraint.weight * violation(figures, 0, constraint)
}

// The total: weight times violation, summed over the constraints of kinds 1 to 3, and what the figures have of kinds 4 and 5.
pub fn total(shared: &[u64], figures: Figures) -> u64
    requires small_figures { SmallFigures figures }
    requires paying { Paying shared.now }
    ensures { result ≡ total_by figures (constraints_of shared.now) }
{
    let weighted: u64 = Constraints(shared)
        .map(|constraint| weighted(figures, constraint))
        .sum();
    weighted + figures.bounded + figures.dwell
}

// Puts down the verdict on each constraint; what lies beyond stays.
pub fn put_verdicts(constraints: &[u64], figures: Figures, gauges: &[u64], verdicts: &mut [u64])
    requires small { Small figures gauges.now constraints.now }
    requires constraints_in_bounds { verdict_length * constraint_count constraints.now ≤ length verdicts.old }
    ensures { verdicts.new ≡ verdicts_by figures gauges.now constraints.now (constraint_count constraints.now) ++ drop (verdict_length * constraint_count constraints.now) verdicts.old }
{
    // By index: after a loop over `chunks_exact_mut` a proof knows only how long the list is.
    for k in 0..constraints.len() / CONSTRAINT_LENGTH {
        let at = VERDICT_LENGTH * k;
        let v = violation_at(constraints, figures, gauges, k);
        verdicts[at] = u64::from(v == 0);
        verdicts[at + 1] = v;
    }
}

// How many constraints of each kind do not hold, over the sheets so far and one more.
ghost use Rattle.std.specs.Prelude.{◌≡◌, ◌*◌, ◌/◌, ◌≤◌, length};
ghost use Rattle.lists.specs.Sums.{Every};
ghost use Rattle.meaning.specs.Plan.{constraint_length, most_constraints};
ghost use Rattle.meaning.specs.Moves.{verdict_length};
ghost use Rattle.review.specs.Review as review;
ghost use Rattle.review.specs.Stream.{most_sheets};
ghost use Rattle.review.specs.Next.{with_failed};

use crate::KINDS;
use terms::limits::{CONSTRAINT_LENGTH, VERDICT_LENGTH};

// How many constraints of a kind do not hold.
fn failing(kind: u64, constraints: &[u64], verdicts: &[u64]) -> u64
    requires { verdict_length * (length constraints.now / constraint_length) ≤ length verdicts.now }
    ensures { result ≡ review.failing kind constraints.now verdicts.now }
{
    let (constraints, _) = constraints.as_chunks::<CONSTRAINT_LENGTH>();
    let (verdicts, _) = verdicts.as_chunks::<VERDICT_LENGTH>();
    constraints
        .iter()
        .zip(verdicts)
        .filter(|(constraint, verdict)| constraint[0] == kind && verdict[0] == 0)
        .count() as u64
}

// What failed before, and what fails in one more sheet, for each kind.
pub fn with_failed(failed: [u64; KINDS], constraints: &[u64], verdicts: &[u64]) -> [u64; KINDS]
    requires constraint_length_len_bound { length constraints.now / constraint_length ≤ most_constraints }
    requires constraint_length_in_bounds { verdict_length * (length constraints.now / constraint_length) ≤ length verdicts.now }
    requires every { Every (λ x. x ≤ most_sheets * most_constraints) failed }
    ensures { result ≡ with_failed failed constraints.now verdicts.now }
{
    // By index, since a kind is one more than its place.
    let mut more = failed;
    for k in 0..KINDS {
        more[k] = failed[k] + failing(k as u64 + 1, constraints, verdicts);
    }
    more
}

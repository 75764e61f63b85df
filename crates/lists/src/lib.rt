// Sums, counts and tables over lists, and their laws; numbers copied and added up.
#![tactic(auto)]

ghost use Rattle.std.specs.Prelude.{◌≡◌, ◌++◌, ◌≤◌, ◌<◌, ◌^◌, length, drop};
ghost use Rattle.lists.specs.Sums.{sum};

// Puts numbers down at the front of others; what lies beyond stays.
pub fn copy(from: &[u64], to: &mut [u64])
    requires { length from.now ≤ length to.old }
    ensures { to.new ≡ from.now ++ drop (length from.now) to.old }
{
    to[..from.len()].copy_from_slice(from);
}

// The sum of all the numbers.
#[tactic(auto, using(crate::proofs::Chains::sum_is))]
pub fn sum_of(numbers: &[u64]) -> u64
    requires { sum numbers.now (λ n. n) < 2 ^ 64 }
    ensures { result ≡ sum numbers.now (λ n. n) }
{
    numbers.iter().sum()
}

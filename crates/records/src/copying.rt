// The numbers of a list of records, in order, in an array.
ghost use Rattle.std.specs.Prelude.{◌≡◌};
ghost use Rattle.records.specs.Copied.{put_record, array_of};

use crate::Constraint;
use terms::limits::{CONSTRAINT_LENGTH, MOST_CONSTRAINTS};

// One record more than a list may have, so that a list that is too long stays too long.
pub const MOST_COPIED: usize = MOST_CONSTRAINTS as usize + 1;

// How many numbers an array has.
pub const COPIED_LENGTH: usize = CONSTRAINT_LENGTH * MOST_COPIED;

// Puts the four numbers of record k, from 0, in their place, where there is room for them.
fn put_record(copied: &mut [u64; COPIED_LENGTH], k: usize, constraint: Constraint)
    ensures { copied.new ≡ put_record copied.old k constraint }
{
    if k < MOST_COPIED {
        let at = CONSTRAINT_LENGTH * k;
        copied[at] = constraint.kind;
        copied[at + 1] = constraint.relation;
        copied[at + 2] = constraint.limit;
        copied[at + 3] = constraint.weight;
    }
}

// The numbers of the records, in order, as far as there is room for them.
pub fn array_of(constraints: &[Constraint]) -> [u64; COPIED_LENGTH]
    ensures { result ≡ array_of constraints.now }
{
    let mut numbers = [0; COPIED_LENGTH];
    for k in 0..constraints.len() {
        put_record(&mut numbers, k, constraints[k]);
    }
    numbers
}

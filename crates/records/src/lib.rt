// Constraints as a lent list of records, with the same answers as the list of their numbers.
#![tactic(auto)]

pub mod copying; // copying.rt: the numbers of the records, in order, in an array
pub mod fronts; // fronts.rt: the call and writing on the first records of an array

// What is asked of a plan, as four numbers: a record that is against its rules is refused as its numbers are. (`repr(C)`, since C lends such records.)
#[repr(C)]
#[derive(Clone, Copy)]
pub struct Constraint {
    pub kind: u64,
    pub relation: u64,
    pub limit: u64,
    pub weight: u64,
}

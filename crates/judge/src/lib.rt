// A colouring judged from scratch: its tallies, its figures, the violations, the total and the verdicts.
#![tactic(auto)]

pub mod tallies; // tallies.rt: what each sector has, the border and the whole workload
pub mod measures; // measures.rt: the figures of a colouring, what each sector pays, and the gauges of the constraints
pub mod verdicts; // verdicts.rt: the violations, the total and the verdicts, by the figures and the gauges

// The numbers of a colouring that its total is made of: all components, those above the first of each sector, the border, the deviation of
// the sectors' workloads, and what the constraints of kind 4 and of kind 5 add to the total.
#[derive(Clone, Copy)]
pub struct Figures {
    pub components: u64,
    pub excess: u64,
    pub border: u64,
    pub deviation: u64,
    pub bounded: u64,
    pub dwell: u64,
}

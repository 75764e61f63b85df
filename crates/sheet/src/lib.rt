// Whether a sheet can be read at all, and its blocks.
#![tactic(auto)]

pub mod opening; // opening.rt: the length, the head and the number of blocks
pub mod showing; // showing.rt: the used payload of a block, as that part of the sheet

// Document 01's fixed numbers: the limits, the kinds of constraints, and how many numbers of the flat lists a record takes.

pub const MOST_REGIONS: u64 = 512;

pub const MOST_SECTORS: u64 = 64;

pub const MOST_WORKLOAD: u64 = 1_000_000;

pub const MOST_EDGES: u64 = 2_048;

pub const MOST_AREA: u64 = 1_000_000;

pub const MOST_FLIGHTS: u64 = 64;

// Of one flight.
pub const MOST_VISITS: u64 = 32;

pub const MOST_DWELL: u64 = 86_400;

pub const MOST_CONSTRAINTS: u64 = 16;

pub const MOST_LIMIT: u64 = 100_000_000_000;

pub const MOST_WEIGHT: u64 = 1_000;

pub const MOST_MOVES: u64 = 4_096;

// The kinds are numbers, and no enum: the lent lists hold them, and they are picked by ranges.
pub const CONNECTED: u64 = 1;

pub const BORDER: u64 = 2;

pub const BALANCED: u64 = 3;

pub const BOUNDED: u64 = 4;

pub const DWELL: u64 = 5;

pub const EDGE_LENGTH: usize = 3;

pub const VISIT_LENGTH: usize = 2;

pub const CONSTRAINT_LENGTH: usize = 4;

pub const MOVE_LENGTH: usize = 3;

pub const ROW_LENGTH: usize = 4;

pub const VERDICT_LENGTH: usize = 2;

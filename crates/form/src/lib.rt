// The two sheets: their letters, their kinds of blocks in order, and what these hold.
#![tactic(auto)]

ghost use Rattle.std.specs.Prelude.{◌≡◌};
ghost use Rattle.packing.specs.Numbers.{total};
ghost use Rattle.form.specs.Form.{letters, most_blocks, head_length, outside_count, flight_count, kind_count, form_in, head_widths};

use blocks::{BLOCK_LENGTH, LETTERS_LENGTH};
use packing::Shape;
use terms::limits::{BOUNDED, DWELL, MOST_FLIGHTS};

pub mod sections; // sections.rt: the blocks of each kind
pub mod turning; // turning.rt: a constraint's weight and limit change places

pub const FIRST_LETTERS: [u8; LETTERS_LENGTH] = *b"SCTR";

pub const SECOND_LETTERS: [u8; LETTERS_LENGTH] = *b"SCT2";

const FIRST_BLOCKS: u64 = 43;

const SECOND_BLOCKS: u64 = 74;

// The bytes of the longest sheet.
pub const MOST_BYTES: usize = SECOND_BLOCKS as usize * BLOCK_LENGTH;

// How many numbers a head has at most.
pub const HEAD_LENGTH: usize = 6;

// The numbers of a sheet's head: how many regions, sectors, edges, constraints, flights and visits there are.
#[derive(Clone, Copy)]
pub struct Head {
    pub regions: u64,
    pub sectors: u64,
    pub edges: u64,
    pub constraints: u64,
    pub flights: u64,
    pub visits: u64,
}

// Which of the two sheets: the second carries outside areas and flights.
#[derive(Clone, Copy)]
pub enum Form {
    First,
    Second,
}

impl Form {
    // The form of a sheet, by its letters: what doesn't start with the second's is taken for a first.
    pub fn of(sheet: &[u8]) -> Form
        ensures { result ≡ form_in sheet.now }
    {
        if sheet.starts_with(&SECOND_LETTERS) {
            Form::Second
        } else {
            Form::First
        }
    }

    // What sets the two forms apart, a function for each fact as in the spec: each `match` is a row of one table with a column for either form.

    // The letters that each block starts with.
    pub fn letters(self) -> [u8; LETTERS_LENGTH]
        ensures { result ≡ letters self }
    {
        match self {
            Form::First => FIRST_LETTERS,
            Form::Second => SECOND_LETTERS,
        }
    }

    // How many blocks there are at most.
    pub fn most_blocks(self) -> u64
        ensures { result ≡ most_blocks self }
    {
        match self {
            Form::First => FIRST_BLOCKS,
            Form::Second => SECOND_BLOCKS,
        }
    }

    // How many numbers the head has.
    pub fn head_length(self) -> usize
        ensures { result ≡ head_length self }
    {
        match self {
            Form::First => 4,
            Form::Second => HEAD_LENGTH,
        }
    }

    // How many bytes these are.
    pub fn head_bytes(self) -> usize
        ensures { result ≡ total (head_widths self) }
    {
        match self {
            Form::First => 8,
            Form::Second => 12,
        }
    }

    // How the head's numbers stand in bytes.
    pub fn head_shape(self) -> Shape<'static>
        ensures widths { result.widths.now ≡ head_widths self }
        ensures stride { result.stride ≡ total (head_widths self) }
    {
        let widths: &[u8] = match self {
            Form::First => &[2, 2, 2, 2],
            Form::Second => &[2, 2, 2, 2, 2, 2],
        };
        Shape {
            widths,
            stride: self.head_bytes(),
        }
    }

    // How many of so many regions have an outside area in it.
    pub fn outside_count(self, regions: u64) -> u64
        ensures { result ≡ outside_count self regions }
    {
        match self {
            Form::First => 0,
            Form::Second => regions,
        }
    }

    // How many flights there are at most.
    pub fn flight_count(self) -> u64
        ensures { result ≡ flight_count self }
    {
        match self {
            Form::First => 0,
            Form::Second => MOST_FLIGHTS,
        }
    }

    // Constraints are of the kinds 1 to so many.
    pub fn kind_count(self) -> u64
        ensures { result ≡ kind_count self }
    {
        match self {
            Form::First => BOUNDED,
            Form::Second => DWELL,
        }
    }
}

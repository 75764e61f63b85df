// The block rules of a sheet, over any letters and any list of sections.
#![tactic(auto)]

ghost use Rattle.std.specs.Prelude.{◌≡◌, length};
ghost use Rattle.blocks.specs.Block.{letters_length, header};

use packing::{copy_to, write_number};

pub mod check; // check.rt: Fletcher's two sums
pub mod dues; // dues.rt: which blocks are due
pub mod faults; // faults.rt: what is wrong with a block
pub mod reading; // reading.rt: payloads, and the numbers in them
pub mod writing; // writing.rt: blocks of numbers

pub const BLOCK_LENGTH: usize = 512;

// Each block starts with so many letters. They are lent as a slice, so that any caller's bytes serve.
pub const LETTERS_LENGTH: usize = 4;

pub const KIND_AT: usize = LETTERS_LENGTH;

pub const ZERO_AT: usize = 5;

pub const NUMBER_AT: usize = 6;

pub const USED_AT: usize = 8;

pub const HEADER_LENGTH: usize = 10;

pub const MOST_PAYLOAD: usize = 500;

// The bytes that the check is over.
pub const CHECKED_LENGTH: usize = HEADER_LENGTH + MOST_PAYLOAD;

// The blocks of one kind, which is any number: the rules are over any list of kinds. It says how many bytes a full one holds, and how many there are in all.
#[derive(Clone, Copy)]
pub struct Section {
    pub kind: u8,
    pub size: usize,
    pub bytes: usize,
}

// What is due of a block: its kind, and how many bytes of its payload are used.
#[derive(Clone, Copy)]
pub struct Due {
    pub kind: u8,
    pub used: usize,
}

// The bytes that a block starts with.
fn header_of(letters: &[u8], number: usize, due: Due) -> [u8; HEADER_LENGTH]
    requires { length letters.now ≡ letters_length }
    ensures { result ≡ header letters.now due.kind number due.used }
{
    let mut header = [0u8; HEADER_LENGTH];
    copy_to(&mut header, 0, &letters[..LETTERS_LENGTH]);
    header[KIND_AT] = due.kind;
    write_number(&mut header, NUMBER_AT, 2, number as u64);
    write_number(&mut header, USED_AT, 2, due.used as u64);
    header
}

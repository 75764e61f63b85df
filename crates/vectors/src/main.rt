// Runs published Fletcher vectors, and writes sheet A, and sheet A with outside areas and a flight as a second sheet, to be compared with docs/SHEET.md.
// A line of bytes has the first sum and the second; the line of a sheet has what writing answers: code, place, bytes.
// The line of a block has its first ten bytes, its used payload and its check, in hexadecimal; a byte elsewhere that is not zero would have it refused, and its payload not shown.
#![tactic(auto)]

ghost use Rattle.std.specs.Prelude.{◌+◌, ◌*◌, ◌≤◌, length};
ghost use Rattle.blocks.specs.Block.{block_length};

use blocks::check::{Sums, sums_of};
use blocks::{BLOCK_LENGTH, CHECKED_LENGTH, HEADER_LENGTH};
use meaning::Lists;
use sheet::showing::block;
use std::io;
use writing::{Written, write, write_second};

const WORKLOADS: [u64; 5] = [10, 20, 30, 25, 15];

const EDGES: [u64; 12] = [1, 2, 4, 2, 3, 6, 3, 4, 2, 4, 5, 3];

const CONSTRAINTS: [u64; 16] = [1, 3, 2, 100, 2, 1, 5, 1, 3, 1, 40, 2, 4, 1, 55, 3];

const COLOURING: [u64; 5] = [1, 1, 1, 2, 2];

// What the second sheet has besides: outside areas, a flight of four visits, and a fifth constraint.
const OUTSIDE: [u64; 5] = [7, 0, 1, 0, 3];

const COUNTS: [u64; 1] = [4];

const VISITS: [u64; 8] = [4, 20, 5, 10, 4, 15, 3, 80];

const FLOWN_CONSTRAINTS: [u64; 20] = [
    1, 3, 2, 100, 2, 1, 5, 1, 3, 1, 40, 2, 4, 1, 55, 3, 5, 6, 60, 2,
];

fn say_bytes(rt: &impl Print, bytes: &[u8]) -> io::Result<()> {
    for byte in bytes {
        print!(rt; " {byte:02x}")?;
    }
    Ok(())
}

fn say_sums(rt: &impl Print, name: &str, sums: Sums) -> io::Result<()> {
    let Sums { first, second } = sums;
    println!(rt; "{name}: {first} {second}")
}

fn say_written(rt: &impl Print, name: &str, written: Written) -> io::Result<()> {
    let Written { code, place, bytes } = written;
    println!(rt; "{name}: {code} {place} {bytes}")
}

fn say_block(rt: &impl Print, sheet: &[u8], number: usize) -> io::Result<()>
    requires { block_length * number + block_length ≤ length sheet.now }
{
    let start = BLOCK_LENGTH * number;
    print!(rt; "block {number}:")?;
    say_bytes(rt, &sheet[start..start + HEADER_LENGTH])?;
    print!(rt; ",")?;
    say_bytes(rt, block(sheet, number))?;
    print!(rt; ",")?;
    say_bytes(rt, &sheet[start + CHECKED_LENGTH..start + BLOCK_LENGTH])?;
    println!(rt; "")
}

// The published sums, and those of few bytes and of many, where a sum comes to 255 and so to 0.
fn fletcher_lines(rt: &impl Print) -> io::Result<()> {
    say_sums(rt, "abcde", sums_of(b"abcde"))?;
    say_sums(rt, "abcdef", sums_of(b"abcdef"))?;
    say_sums(rt, "abcdefgh", sums_of(b"abcdefgh"))?;
    say_sums(rt, "no byte", sums_of(&[]))?;
    say_sums(rt, "a byte 254", sums_of(&[254]))?;
    say_sums(rt, "a byte 255", sums_of(&[255]))?;
    say_sums(rt, "bytes 254 and 1", sums_of(&[254, 1]))?;
    say_sums(rt, "255 bytes 1", sums_of(&[1; 255]))?;
    say_sums(rt, "255 bytes 255", sums_of(&[255; 255]))?;
    say_sums(rt, "510 bytes 255", sums_of(&[255; CHECKED_LENGTH]))
}

// The bytes are lent with none zero, so that every zero is written.
fn sheet_a_lines(rt: &impl Print) -> io::Result<()> {
    let mut sheet = [255u8; 5 * BLOCK_LENGTH];
    let written = write(
        5,
        2,
        &WORKLOADS,
        &EDGES,
        &CONSTRAINTS,
        &COLOURING,
        &mut sheet,
    );
    say_written(rt, "sheet A", written)?;
    for number in 0..5 {
        say_block(rt, &sheet, number)?;
    }
    Ok(())
}

fn second_sheet_lines(rt: &impl Print) -> io::Result<()> {
    let mut sheet = [255u8; 8 * BLOCK_LENGTH];
    let lists = Lists {
        sectors: 2,
        workloads: &WORKLOADS,
        outside: &OUTSIDE,
        edges: &EDGES,
        counts: &COUNTS,
        visits: &VISITS,
        constraints: &FLOWN_CONSTRAINTS,
    };
    let written = write_second(5, lists, &COLOURING, &mut sheet);
    say_written(rt, "sheet A, outside areas and a flight", written)?;
    for number in 0..8 {
        say_block(rt, &sheet, number)?;
    }
    Ok(())
}

fn main(rt: HostRuntime) -> io::Result<()> {
    fletcher_lines(&rt)?;
    sheet_a_lines(&rt)?;
    second_sheet_lines(&rt)
}

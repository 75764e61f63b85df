// Makes the calls that standard input has, a line each, and says what comes of them: sheet A's lines that are not proved, a call with a flight, calls with outside areas, one call for each refusal and one for each status of a refused move, and a move with the way back.
// A line has a name, a colon and the lists of a call with a bar between any two: R and S, workloads, outside areas, edges, visit counts, visits, constraints, colouring, moves, and the room for rows, verdicts and work memory. A further list has one number, how many rows are shown. Any other bytes stand between numbers; what follows a # is a comment.
// What is said is the name and the call's answer: code, place, first total, last total; or, where rows are shown, for each of them the name and the row.
#![tactic(auto)]

ghost use Rattle.std.specs.Prelude.{◌≤◌, length};

use crate::trying::{Memory, try_call};
use input::read_full;
use std::io;

mod saying; // saying.rt: answers and rows as text
mod numbers; // numbers.rt: the lists of numbers in a line
mod trying; // trying.rt: the call that a line asks for

// The most bytes of the input that are read.
const MOST_INPUT: usize = 65_536;

// Where a byte first stands in a text, or where the text ends.
fn find(text: &[u8], byte: u8) -> usize
    ensures { result ≤ length text.now }
{
    text.iter().position(|b| *b == byte).unwrap_or(text.len())
}

// Makes the call of a line; a line without a colon has none.
fn try_line(rt: &impl Print, line: &[u8], memory: &mut Memory) -> io::Result<()> {
    let end = find(line, b'#');
    let colon = find(&line[..end], b':');
    if end <= colon {
        return Ok(());
    }
    let after = colon + 1;
    try_call(rt, &line[..after], &line[after..end], memory)
}

fn try_lines(rt: &impl Print, text: &[u8]) -> io::Result<()> {
    let mut memory = Memory::BLANK;
    for line in text.split(|byte| *byte == b'\n') {
        try_line(rt, line, &mut memory)?;
    }
    Ok(())
}

fn main(rt: HostRuntime) -> io::Result<()> {
    let mut input = [0u8; MOST_INPUT];
    let read = read_full(&mut rt.stdin(), &mut input);
    try_lines(&rt, &input[..read])
}

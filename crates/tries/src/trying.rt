// The call that a line asks for.
ghost use Rattle.std.specs.Prelude.{◌≤◌};

use crate::numbers::{MOST_ITEMS, items, read_list};
use crate::saying::say_outcome;
use meaning::Lists;
use std::io;

// The most numbers of each list that a call may change.
const MOST_ROOM: usize = 64;

// A number, or the most room where it is larger.
fn in_room(n: u64) -> usize
    ensures { result ≤ 64 }
{
    n.min(MOST_ROOM as u64) as usize
}

// Memory for the lists of a line, kept from line to line: a line holds its own at their fronts, and reads no further. (Cleared for each line, it took longer than all else that a short line takes.)
#[derive(Drop)]
pub struct Memory {
    workloads: [u64; MOST_ITEMS],
    outside: [u64; MOST_ITEMS],
    edges: [u64; MOST_ITEMS],
    counts: [u64; MOST_ITEMS],
    visits: [u64; MOST_ITEMS],
    constraints: [u64; MOST_ITEMS],
    moves: [u64; MOST_ITEMS],
    colouring: [u64; MOST_ROOM],
}

impl Memory {
    pub const BLANK: Memory = Memory {
        workloads: [0; MOST_ITEMS],
        outside: [0; MOST_ITEMS],
        edges: [0; MOST_ITEMS],
        counts: [0; MOST_ITEMS],
        visits: [0; MOST_ITEMS],
        constraints: [0; MOST_ITEMS],
        moves: [0; MOST_ITEMS],
        colouring: [0; MOST_ROOM],
    };
}

// Makes the call of a line, whose name ends where its lists start, and says what comes of it. The lists are read in the order in which a line has them.
pub fn try_call(rt: &impl Print, name: &[u8], line: &[u8], memory: &mut Memory) -> io::Result<()> {
    let mut head = [0u64; 2];
    let mut room = [0u64; 3];
    let mut shown = [0u64; 1];
    let mut rows = [0i64; MOST_ROOM];
    let mut verdicts = [0u64; MOST_ROOM];
    let mut work = [0u64; MOST_ROOM];
    let mut texts = items(line).split(|byte| *byte == b'|');
    read_list(texts.next(), &mut head);
    let lists = Lists {
        sectors: head[1],
        workloads: read_list(texts.next(), &mut memory.workloads),
        outside: read_list(texts.next(), &mut memory.outside),
        edges: read_list(texts.next(), &mut memory.edges),
        counts: read_list(texts.next(), &mut memory.counts),
        visits: read_list(texts.next(), &mut memory.visits),
        constraints: read_list(texts.next(), &mut memory.constraints),
    };
    let colouring = read_list(texts.next(), &mut memory.colouring);
    let moves = read_list(texts.next(), &mut memory.moves);
    read_list(texts.next(), &mut room);
    read_list(texts.next(), &mut shown);
    let rows = &mut rows[..in_room(room[0])];
    let answer = call::judge(
        head[0],
        lists,
        colouring,
        moves,
        rows,
        &mut verdicts[..in_room(room[1])],
        &mut work[..in_room(room[2])],
    );
    say_outcome(rt, name, answer, rows, in_room(shown[0]))
}

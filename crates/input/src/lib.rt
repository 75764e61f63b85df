// The text that the program `verdicts` prints for an input, from what was read of it into a buffer; and how a buffer is filled, by each program that has an input.
#![tactic(auto)]

ghost use Rattle.std.specs.Prelude.{take};
ghost use Rattle.std.specs.Counts.{IsPrefixLen};
ghost use Rattle.std.specs.Io.KnownBytes.{Consumes};
ghost use Rattle.judgement.specs.Promise.{left};
ghost use Rattle.input.specs.Promise.{Promise};

use form::MOST_BYTES;
use std::io::Read;

// A byte more than the longest sheet has, so that what is longer is not taken for one.
pub const MOST_INPUT: usize = MOST_BYTES + 1;

// Reads until the buffer is full, the input ends or a read fails, and answers how many bytes it put at the buffer's start. They are the next that the reader had, and it has no longer. The standard library's `read_exact` does not say what it had read where the input ends.
pub fn read_full<R: Read>(reader: &mut R, buffer: &mut [u8]) -> usize
    ensures prefix_len { IsPrefixLen result buffer.new }
    ensures consumed { Consumes (R.remaining reader.old) (R.remaining reader.new) (take result buffer.new) }
{
    let mut done = 0;
    while done < buffer.len() {
        match reader.read(&mut buffer[done..]) {
            Ok(0) | Err(_) => return done,
            Ok(n) => done += n,
        }
    }
    done
}

// Puts the text of an input down at the start of `text`, and answers how many of its bytes that is; what lies beyond stays. So many bytes of the input were read into the buffer, until it was full or the input ended. Where `text` has no room for the longest text, it stays as it is, and the answer is 0.
pub fn put_text(buffer: &[u8; MOST_INPUT], read: usize, text: &mut [u8]) -> usize
    ensures prefix_len { IsPrefixLen result text.new }
    ensures promise { Promise buffer.now read text.old (left result text.new) }
{
    judgement::put_text(&buffer[..read.min(MOST_INPUT)], text)
}

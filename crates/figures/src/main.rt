// Prints the figures over the sheets on standard input, each preceded by its block count in two bytes, lower one first; on standard error, that they could not be written.
#![tactic(auto)]

ghost use Rattle.review.specs.SoFar.{Answers};

use blocks::BLOCK_LENGTH;
use form::MOST_BYTES;
use input::read_full;
use review::{Announced, COUNT_LENGTH, MOST_SHEETS, MOST_TEXT, Review, Reviewed, put_reviewed};
use std::io::Read;

// Takes sheet after sheet from the input, and none after the last that is read. No more bytes are asked for than a count or its sheet has.
fn read_all<R: Read>(reader: &mut R) -> Reviewed
    ensures { Answers result }
{
    let mut sheet = [0u8; MOST_BYTES];
    let mut review = Review::none();
    for place in 1..MOST_SHEETS + 1 {
        let mut count = [0u8; COUNT_LENGTH];
        let counted = read_full(reader, &mut count);
        let blocks = match Announced::by(&count[..counted]) {
            Announced::Nothing => return Reviewed { review, torn: None },
            Announced::Wrong => {
                return Reviewed {
                    review,
                    torn: Some(place),
                };
            }
            Announced::Blocks(blocks) => blocks,
        };
        let size = BLOCK_LENGTH * blocks;
        let read = read_full(reader, &mut sheet[..size]);
        if read < size {
            return Reviewed {
                review,
                torn: Some(place),
            };
        }
        review = review.with_sheet(place, &sheet[..size]);
    }
    Reviewed { review, torn: None }
}

fn main(rt: HostRuntime) {
    let mut text = [0u8; MOST_TEXT];
    let bytes = put_reviewed(read_all(&mut rt.stdin()), &mut text);
    if rt.write_all(&text[..bytes]).is_err() {
        let _ = eprintln!(rt; "figures: the text could not be written");
    }
}

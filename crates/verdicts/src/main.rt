// Prints the verdict on each constraint of the sheet on standard input and the total, or why the sheet is refused; on standard error, that this could not be written.
#![tactic(auto)]

use input::{MOST_INPUT, put_text, read_full};
use report::MOST_TEXT;

fn main(rt: HostRuntime) {
    let mut buffer = [0u8; MOST_INPUT];
    let read = read_full(&mut rt.stdin(), &mut buffer);
    let mut text = [0u8; MOST_TEXT];
    let bytes = put_text(&buffer, read, &mut text);
    if rt.write_all(&text[..bytes]).is_err() {
        let _ = eprintln!(rt; "verdicts: the text could not be written");
    }
}

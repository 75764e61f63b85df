// The texts that the programs print, put into a lent buffer.
#![tactic(auto)]

ghost use Rattle.std.specs.Prelude.{◌≡◌, [], ◌∷◌, ◌++◌, ◌+◌, ◌*◌, ◌/◌, ◌≤◌, ◌<◌, length, drop};
ghost use Rattle.std.specs.Counts.{IsPrefixLen};
ghost use Rattle.meaning.specs.Plan.{constraint_length, most_constraints};
ghost use Rattle.meaning.specs.Moves.{verdict_length};
ghost use Rattle.report.specs.Decimal.{decimal};
ghost use Rattle.report.specs.Placed.{Placed};
ghost use Rattle.report.specs.Text.{number, line, line_at, total_line, verdict_text, refused_text, number_lines, most_number, most_refused, most_text};

use itoa::Buffer;
use packing::copy_to;
use terms::limits::{CONSTRAINT_LENGTH, MOST_CONSTRAINTS, VERDICT_LENGTH};

// The most digits that a u64 has.
const MOST_DIGITS: usize = 20;

// The most bytes of a number and the byte after it.
pub const MOST_NUMBER: usize = MOST_DIGITS + 1;

// The most bytes of a line: four numbers.
const MOST_LINE: usize = 4 * MOST_NUMBER;

// The most bytes of a refusal: `refused ` and two numbers.
pub const MOST_REFUSED: usize = 8 + 2 * MOST_NUMBER;

// The most bytes of a text, so that a buffer of so many has room for any: a line for each constraint, then `total ` and a number.
pub const MOST_TEXT: usize = MOST_CONSTRAINTS as usize * MOST_LINE + (6 + MOST_NUMBER);

const TOTAL: [u8; 6] = *b"total ";

const REFUSED: [u8; 8] = *b"refused ";

const SPACE: u8 = b' ';

const NEWLINE: u8 = b'\n';

// Each of these functions is handed the place where it starts: a writer that kept it would have to hold the buffer's `&mut` in a struct, whose clauses say less plainly what was put where.

// Puts a word down at `at`, and answers where it ends.
fn put_word(text: &mut [u8], at: usize, word: &[u8]) -> usize
    requires { at + length word.now ≤ length text.old }
    ensures { Placed text.old at word.now text.new result }
{
    copy_to(text, at, word);
    at + word.len()
}

// Puts a byte down at `at`, and answers where it ends.
fn put_byte(text: &mut [u8], at: usize, byte: u8) -> usize
    requires { at < length text.old }
    ensures { Placed text.old at (byte ∷ []) text.new result }
{
    text[at] = byte;
    at + 1
}

// Puts a number down in decimal, and answers where it ends.
fn put_decimal(text: &mut [u8], at: usize, n: u64) -> usize
    requires { at + length (decimal n) ≤ length text.old }
    ensures { Placed text.old at (decimal n) text.new result }
{
    let mut digits = Buffer::new();
    put_word(text, at, digits.format(n).as_bytes())
}

// Puts a number down in decimal and a byte after it, and answers where that ends.
#[tactic(auto, unfolding(crate::specs::Text::number))]
fn put_number(text: &mut [u8], at: usize, n: u64, after: u8) -> usize
    requires { at + length (number n after) ≤ length text.old }
    ensures { Placed text.old at (number n after) text.new result }
{
    let end = put_decimal(text, at, n);
    put_byte(text, end, after)
}

// Puts the line of a constraint down, and answers where it ends.
#[tactic(auto, unfolding(crate::specs::Text::line))]
fn put_line(text: &mut [u8], at: usize, place: u64, kind: u64, holds: u64, violation: u64) -> usize
    requires { at + length (line place kind holds violation) ≤ length text.old }
    ensures { Placed text.old at (line place kind holds violation) text.new result }
{
    let past_place = put_number(text, at, place, SPACE);
    let past_kind = put_number(text, past_place, kind, SPACE);
    let past_holds = put_number(text, past_kind, holds, SPACE);
    put_number(text, past_holds, violation, NEWLINE)
}

// Puts the line of constraint k, from 0, down, and answers where it ends.
fn put_line_at(text: &mut [u8], at: usize, constraints: &[u64], verdicts: &[u64], k: usize) -> usize
    requires k_in_bounds { k < length constraints.now / constraint_length }
    requires constraint_length_in_bounds { verdict_length * (length constraints.now / constraint_length) ≤ length verdicts.now }
    requires k_in_bounds_2 { at + length (line_at constraints.now verdicts.now k) ≤ length text.old }
    ensures { Placed text.old at (line_at constraints.now verdicts.now k) text.new result }
{
    let place = k as u64 + 1;
    let kind = constraints[CONSTRAINT_LENGTH * k];
    let holds = verdicts[VERDICT_LENGTH * k];
    let violation = verdicts[VERDICT_LENGTH * k + 1];
    put_line(text, at, place, kind, holds, violation)
}

// Puts the line of the total down, and answers where it ends.
#[tactic(auto, unfolding(crate::specs::Text::total_line))]
fn put_total(text: &mut [u8], at: usize, total: u64) -> usize
    requires { at + length (total_line total) ≤ length text.old }
    ensures { Placed text.old at (total_line total) text.new result }
{
    let past_word = put_word(text, at, &TOTAL);
    put_number(text, past_word, total, NEWLINE)
}

// Puts down, at the buffer's start, a line for each constraint, then the total, and answers how many of its bytes that is; what lies beyond stays.
pub fn put_verdicts(constraints: &[u64], verdicts: &[u64], total: u64, text: &mut [u8]) -> usize
    requires constraint_length_len_bound { length constraints.now / constraint_length ≤ most_constraints }
    requires constraint_length_in_bounds { verdict_length * (length constraints.now / constraint_length) ≤ length verdicts.now }
    requires most_text_in_bounds { most_text ≤ length text.old }
    ensures prefix_len { IsPrefixLen result text.new }
    ensures text_after { let t = verdict_text constraints.now verdicts.now total in (result ≡ length t) × (text.new ≡ t ++ drop (length t) text.old) }
{
    let mut end = 0;
    for k in 0..constraints.len() / CONSTRAINT_LENGTH {
        end = put_line_at(text, end, constraints, verdicts, k);
    }
    put_total(text, end, total)
}

// Puts a refusal's code and place down at `at`, and answers where the text ends. (They are two numbers, since this crate stands without `refusals`.)
pub fn put_refused(text: &mut [u8], at: usize, code: u64, place: u64) -> usize
    requires { at + most_refused ≤ length text.old }
    ensures { Placed text.old at (refused_text code place) text.new result }
{
    let past_word = put_word(text, at, &REFUSED);
    let past_code = put_number(text, past_word, code, SPACE);
    put_number(text, past_code, place, NEWLINE)
}

// Puts down, at the buffer's start, a refusal's code and place, and answers how many of its bytes that is; what lies beyond stays.
pub fn put_refusal(code: u64, place: u64, text: &mut [u8]) -> usize
    requires { most_text ≤ length text.old }
    ensures prefix_len { IsPrefixLen result text.new }
    ensures text_after { let t = refused_text code place in (result ≡ length t) × (text.new ≡ t ++ drop (length t) text.old) }
{
    put_refused(text, 0, code, place)
}

// Puts each number down on a line of its own, from `at` on, and answers where the last line ends.
pub fn put_lines(text: &mut [u8], at: usize, numbers: &[u64]) -> usize
    requires { at + most_number * length numbers.now ≤ length text.old }
    ensures placed { Placed text.old at (number_lines numbers.now) text.new result }
    ensures upper_bound { result ≤ at + most_number * length numbers.now }
{
    let mut end = at;
    for number in numbers {
        end = put_number(text, end, *number, NEWLINE);
    }
    end
}

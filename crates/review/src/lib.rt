// The figures over many sheets, one more sheet at a time, and the text that the program `figures` prints of them.
#![tactic(auto)]

ghost use Rattle.std.specs.Prelude.{◌≡◌, ℕ, Bool, [], ◌++◌, ◌+◌, ◌≤◌, ◌<◌, length, drop};
ghost use Rattle.std.specs.Counts.{IsPrefixLen};
ghost use Rattle.report.specs.Placed.{Placed};
ghost use Rattle.report.specs.Text.{number_lines, most_refused};
ghost use Rattle.review.specs.Review.{better, shown, review_of};
ghost use Rattle.review.specs.Stream.{most_sheets, announced_by, numbers, review_text, most_review_text};
ghost use Rattle.review.specs.Next.{with_refused, with_sound, next, Taken};

use by_kind::with_failed;
use form::Form;
use judging::judge_sheet;
use report::{MOST_NUMBER, MOST_REFUSED, put_lines, put_refused};
use terms::in_limits;
use terms::limits::{CONSTRAINT_LENGTH, DWELL, MOST_CONSTRAINTS, VERDICT_LENGTH};

mod by_kind;

// The most sheets that are read.
pub const MOST_SHEETS: u64 = 1_000;

// The bytes of a block count.
pub const COUNT_LENGTH: usize = 2;

// How many kinds of constraints there are.
pub const KINDS: usize = DWELL as usize;

// The most bytes of a text, so that a buffer of so many has room for any: three counts, one for each kind, two totals and two places, each on a line, then a refusal.
pub const MOST_TEXT: usize = (7 + KINDS) * MOST_NUMBER + MOST_REFUSED;

// The code of a block count that is not right, and of an input that ends inside a count or a sheet.
const TORN: u64 = 18;

// A smallest or largest total, and the place of the first sheet that has it.
#[derive(Clone, Copy)]
pub struct Extreme {
    pub total: u64,
    pub place: u64,
}

// The known one, or this total at this place where none is known or where it goes before the known total.
fn better<F: Fn(u64, u64) -> bool>(
    known: Option<Extreme>,
    total: u64,
    place: u64,
    goes_before: F,
) -> Option<Extreme>
    requires { F.IsAlwaysCallable goes_before }
    ensures { (before : ℕ → ℕ → Bool) → ((x y : ℕ) (b : Bool) → F.post goes_before x y b → b ≡ before x y) → result ≡ better before known total place }
{
    match known {
        Some(first) if !goes_before(total, first.total) => known,
        _ => Some(Extreme { total, place }),
    }
}

// The figures over some sheets.
#[derive(Drop)]
pub struct Review {
    pub sound: u64,
    pub refused: u64,
    pub zero: u64,
    pub failed: [u64; KINDS],
    pub smallest: Option<Extreme>,
    pub largest: Option<Extreme>,
}

impl Review {
    // The figures over no sheet.
    pub fn none() -> Review
        ensures { result ≡ review_of [] }
    {
        Review {
            sound: 0,
            refused: 0,
            zero: 0,
            failed: [0; KINDS],
            smallest: None,
            largest: None,
        }
    }

    // With one more sheet, which is refused.
    fn with_refused(mut self) -> Review
        requires { self.refused < most_sheets }
        ensures { result ≡ with_refused self }
    {
        self.refused += 1;
        self
    }

    // With one more sheet, which is read soundly and has this total.
    fn with_sound(mut self, failed: [u64; KINDS], total: u64, place: u64) -> Review
        requires { (self.sound < most_sheets) × (self.zero < most_sheets) }
        ensures { result ≡ with_sound self failed total place }
    {
        self.sound += 1;
        self.zero += u64::from(total == 0);
        self.failed = failed;
        self.smallest = better(self.smallest, total, place, |new, known| new < known);
        self.largest = better(self.largest, total, place, |new, known| new > known);
        self
    }

    // With the sheet at this place, which comes after all that are counted.
    pub fn with_sheet(self, place: u64, sheet: &[u8]) -> Review
        requires { Taken place self × (place ≤ most_sheets) }
        ensures { result ≡ next self place sheet.now }
    {
        let mut constraints = [0u64; CONSTRAINT_LENGTH * MOST_CONSTRAINTS as usize];
        let mut verdicts = [0u64; VERDICT_LENGTH * MOST_CONSTRAINTS as usize];
        match judge_sheet(sheet, &mut constraints, &mut verdicts) {
            Err(_) => self.with_refused(),
            Ok(judged) => {
                let count = judged.constraints as usize;
                let known = self.failed;
                let failed = with_failed(
                    known,
                    &constraints[..CONSTRAINT_LENGTH * count],
                    &verdicts[..VERDICT_LENGTH * count],
                );
                self.with_sound(failed, judged.total, place)
            }
        }
    }
}

// What stands where a block count is due: no byte, so that the input ends there; bytes that are no count of 1 to 74 blocks; or the count of a sheet.
#[derive(Drop)]
pub enum Announced {
    Nothing,
    Wrong,
    Blocks(usize),
}

impl Announced {
    // What is announced by the bytes that were read of a count.
    pub fn by(count: &[u8]) -> Announced
        ensures { result ≡ announced_by count.now }
    {
        match count {
            [] => Announced::Nothing,
            [low, high, ..] => {
                let blocks = u64::from(u16::from_le_bytes([*low, *high]));
                if in_limits(1, blocks, Form::Second.most_blocks()) {
                    Announced::Blocks(blocks as usize)
                } else {
                    Announced::Wrong
                }
            }
            _ => Announced::Wrong,
        }
    }
}

// What an input comes to: the figures over its sheets, and the place of the one that 18 refuses, where there is one.
#[derive(Drop)]
pub struct Reviewed {
    pub review: Review,
    pub torn: Option<u64>,
}

// What is shown of an extreme: both numbers are 0 where there is none.
fn shown(known: Option<Extreme>) -> Extreme
    ensures { result ≡ shown known }
{
    known.unwrap_or(Extreme { total: 0, place: 0 })
}

// Puts the figures down at the buffer's start, one number a line, and answers where the last line ends; a refusal has room there.
fn put_figures(review: Review, text: &mut [u8]) -> usize
    requires { most_review_text ≤ length text.old }
    ensures placed { Placed text.old 0 (number_lines (numbers review)) text.new result }
    ensures most_refused_in_bounds { result + most_refused ≤ length text.new }
{
    let counts = [review.sound, review.refused, review.zero];
    let failed = review.failed;
    let smallest = shown(review.smallest);
    let largest = shown(review.largest);
    let totals = [smallest.total, smallest.place, largest.total, largest.place];
    let past_counts = put_lines(text, 0, &counts);
    let past_failed = put_lines(text, past_counts, &failed);
    put_lines(text, past_failed, &totals)
}

// Puts the text of an input down at the buffer's start, and answers how many of its bytes that is; what lies beyond stays.
pub fn put_reviewed(reviewed: Reviewed, text: &mut [u8]) -> usize
    requires { most_review_text ≤ length text.old }
    ensures prefix_len { IsPrefixLen result text.new }
    ensures text_after { let t = review_text reviewed in (result ≡ length t) × (text.new ≡ t ++ drop (length t) text.old) }
{
    let torn = reviewed.torn;
    let end = put_figures(reviewed.review, text);
    match torn {
        None => end,
        Some(place) => put_refused(text, end, TORN, place),
    }
}

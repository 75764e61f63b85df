// What the planning screen learns from the bytes of either sheet alone: why it is refused, or the verdict on each of its constraints and the total; and the text that the program `verdicts` prints.
#![tactic(auto)]

ghost use Rattle.std.specs.Prelude.{◌≤◌, ◌<◌, length};
ghost use Rattle.std.specs.Counts.{IsPrefixLen};
ghost use Rattle.meaning.specs.Moves.{verdict_length};
ghost use Rattle.report.specs.Text.{most_text};
ghost use Rattle.judgement.specs.Promise.{verdict_at, Promise, TextPromise, left};
ghost use Rattle.judgement.specs.Promise as judgement;
ghost use Rattle.judgement.specs.Told.{Told};

use judging::{Judged, judge_sheet};
use refusals::Refusal;
use report::{MOST_TEXT, put_refusal, put_verdicts};
use terms::in_limits;
use terms::limits::{CONSTRAINT_LENGTH, MOST_CONSTRAINTS, VERDICT_LENGTH};

// Judges a sheet, and keeps only what is answered.
fn numbers_in(sheet: &[u8]) -> Result<Judged, Refusal>
    ensures { Told sheet.now result }
{
    let mut constraints = [0u64; CONSTRAINT_LENGTH * MOST_CONSTRAINTS as usize];
    let mut verdicts = [0u64; VERDICT_LENGTH * MOST_CONSTRAINTS as usize];
    judge_sheet(sheet, &mut constraints, &mut verdicts)
}

// The code that a sheet is refused with, 0 when it is not.
pub fn code(sheet: &[u8]) -> u64
    ensures { Promise (judgement.code sheet.now) result }
{
    numbers_in(sheet).err().map_or(0, |refusal| refusal.code)
}

// The place that the refusal names, 0 when it names none or the sheet is not refused.
pub fn place(sheet: &[u8]) -> u64
    ensures { Promise (judgement.place sheet.now) result }
{
    numbers_in(sheet).err().map_or(0, |refusal| refusal.place)
}

// The total of a sheet, 0 when it is refused.
pub fn total(sheet: &[u8]) -> u64
    ensures { Promise (judgement.total_of sheet.now) result }
{
    numbers_in(sheet).map_or(0, |judged| judged.total)
}

// How many constraints a sheet has, 0 when it is refused.
pub fn constraints(sheet: &[u8]) -> u64
    ensures { Promise (judgement.constraint_count sheet.now) result }
{
    numbers_in(sheet).map_or(0, |judged| judged.constraints)
}

// A number of the verdict on the constraint at a place from 1: number 0 is holds, 1 the violation. For a place outside the list, 0.
fn verdict_at(sheet: &[u8], place: u64, number: usize) -> u64
    requires { number < verdict_length }
    ensures { Promise (verdict_at number sheet.now place) result }
{
    let mut constraints = [0u64; CONSTRAINT_LENGTH * MOST_CONSTRAINTS as usize];
    let mut verdicts = [0u64; VERDICT_LENGTH * MOST_CONSTRAINTS as usize];
    match judge_sheet(sheet, &mut constraints, &mut verdicts) {
        Ok(judged) if in_limits(1, place, judged.constraints) => {
            verdicts[VERDICT_LENGTH * (place as usize - 1) + number]
        }
        _ => 0,
    }
}

// Whether the constraint at a place from 1 holds: 1 or 0. For a place outside the list, 0.
pub fn holds(sheet: &[u8], place: u64) -> u64
    ensures { Promise (judgement.holds sheet.now place) result }
{
    verdict_at(sheet, place, 0)
}

// The violation of the constraint at a place from 1. For a place outside the list, 0.
pub fn violation(sheet: &[u8], place: u64) -> u64
    ensures { Promise (judgement.violation sheet.now place) result }
{
    verdict_at(sheet, place, 1)
}

// Puts the text of a sheet down at the buffer's start, and answers how many of its bytes that is; what lies beyond stays.
fn put_judged(sheet: &[u8], text: &mut [u8]) -> usize
    requires { most_text ≤ length text.old }
    ensures prefix_len { IsPrefixLen result text.new }
    ensures text_promise { TextPromise sheet.now text.old (left result text.new) }
{
    let mut constraints = [0u64; CONSTRAINT_LENGTH * MOST_CONSTRAINTS as usize];
    let mut verdicts = [0u64; VERDICT_LENGTH * MOST_CONSTRAINTS as usize];
    match judge_sheet(sheet, &mut constraints, &mut verdicts) {
        Err(refusal) => put_refusal(refusal.code, refusal.place, text),
        Ok(judged) => {
            let count = judged.constraints as usize;
            put_verdicts(
                &constraints[..CONSTRAINT_LENGTH * count],
                &verdicts[..VERDICT_LENGTH * count],
                judged.total,
                text,
            )
        }
    }
}

// Puts the text of a sheet down at the buffer's start, and answers how many of its bytes that is; what lies beyond stays. A buffer without room for the longest text stays as it is, and the answer is 0.
pub fn put_text(sheet: &[u8], text: &mut [u8]) -> usize
    ensures prefix_len { IsPrefixLen result text.new }
    ensures text_promise { TextPromise sheet.now text.old (left result text.new) }
{
    if text.len() < MOST_TEXT {
        return 0;
    }
    put_judged(sheet, text)
}

// What is wrong with a block, and the first block that is refused.
ghost use Rattle.std.specs.Prelude.{◌≡◌, ◌&&◌, [], ◌∷◌, ◌+◌, ◌-◌, ◌*◌, ◌≤◌, length, replicate};
ghost use Rattle.packing.specs.Part.{part};
ghost use Rattle.refusals.specs.Checked.{checked};
ghost use Rattle.refusals.specs.Table.{refused};
ghost use Rattle.blocks.specs.Fletcher.{check};
ghost use Rattle.blocks.specs.Same.{same};
ghost use Rattle.blocks.specs.Block.{block_length, letters_length, kind_at, zero_at, number_at, used_at, header_length, most_payload, checked_length, wrong};
ghost use Rattle.blocks.specs.Faults.{fault_code, code_of};
ghost use Rattle.blocks.specs.Section.{due_of, Sections};
ghost use Rattle.blocks.specs.Sheet.{block_at, fault_within};

use crate::check::sums_of;
use crate::dues::due_at;
use crate::{
    BLOCK_LENGTH, CHECKED_LENGTH, Due, HEADER_LENGTH, KIND_AT, NUMBER_AT, Section, USED_AT,
    ZERO_AT, header_of,
};
use refusals::Refusal;

// What is wrong with a block, by the first test that fails.
#[derive(Clone, Copy)]
pub enum Fault {
    Letters,
    Check,
    Due,
    Used,
    Zeros,
}

impl Fault {
    pub fn code(self) -> u64
        ensures { result ≡ fault_code self }
    {
        match self {
            Fault::Letters => 32,
            Fault::Check => 33,
            Fault::Due => 34,
            Fault::Used => 35,
            Fault::Zeros => 36,
        }
    }

    // The refusal of a block with this fault.
    pub fn at(self, place: u64) -> Refusal
        ensures { result ≡ refused (fault_code self) place }
    {
        Refusal {
            code: self.code(),
            place,
        }
    }
}

// Whether a part of a block is that part of the header due.
fn same_part(block: &[u8], due: &[u8], from: usize, to: usize) -> bool
    requires { (from ≤ to) × ((to ≤ length block.now) × (to ≤ length due.now)) }
    ensures { result ≡ same (part from to block.now) (part from to due.now) }
{
    block[from..to] == due[from..to]
}

// Whether a block ends with the two sums of all before them.
fn check_right(block: &[u8]) -> bool
    requires { length block.now ≡ block_length }
    ensures { result ≡ same (part checked_length block_length block.now) (check (part 0 checked_length block.now)) }
{
    let check = sums_of(&block[..CHECKED_LENGTH]).bytes();
    block[CHECKED_LENGTH..BLOCK_LENGTH] == check[..]
}

// Whether a part of a block is zeros.
fn zero_part(block: &[u8], from: usize, to: usize) -> bool
    requires { (from ≤ to) × (to ≤ length block.now) }
    ensures { result ≡ same (part from to block.now) (replicate (to - from) 0) }
{
    block[from..to].iter().all(|byte| *byte == 0)
}

// Whether a block's kind and number are those of the header due.
fn due_right(block: &[u8], header: &[u8]) -> bool
    requires { (header_length ≤ length block.now) × (header_length ≤ length header.now) }
    ensures { result ≡ same (part kind_at zero_at block.now) (part kind_at zero_at header.now) && same (part number_at used_at block.now) (part number_at used_at header.now) }
{
    same_part(block, header, KIND_AT, ZERO_AT) && same_part(block, header, NUMBER_AT, USED_AT)
}

// Whether a block has zeros where they are due: in the header, and after the used part of the payload.
fn zeros_right(block: &[u8], used: usize) -> bool
    requires { (length block.now ≡ block_length) × (used ≤ most_payload) }
    ensures { result ≡ same (part zero_at number_at block.now) (0 ∷ []) && same (part (header_length + used) checked_length block.now) (replicate (most_payload - used) 0) }
{
    zero_part(block, ZERO_AT, NUMBER_AT) && zero_part(block, HEADER_LENGTH + used, CHECKED_LENGTH)
}

// What is wrong with a block.
#[tactic(auto, using(crate::proofs::Tests::headed_front, crate::proofs::Tests::headed_kind, crate::proofs::Tests::headed_due, crate::proofs::Tests::headed_count), unfolding(crate::specs::Block::wrong, crate::specs::Block::first_wrong))]
fn fault_of(block: &[u8], letters: &[u8], number: usize, due: Due) -> Result<(), Fault>
    requires letters_len { length letters.now ≡ letters_length }
    requires block_len { (length block.now ≡ block_length) × (due.used ≤ most_payload) }
    ensures { code_of result ≡ wrong letters.now due.kind number due.used block.now }
{
    let header = header_of(letters, number, due);
    if !same_part(block, &header, 0, KIND_AT) {
        return Err(Fault::Letters);
    }
    if !check_right(block) {
        return Err(Fault::Check);
    }
    if !due_right(block, &header) {
        return Err(Fault::Due);
    }
    if !same_part(block, &header, USED_AT, HEADER_LENGTH) {
        return Err(Fault::Used);
    }
    if !zeros_right(block, due.used) {
        return Err(Fault::Zeros);
    }
    Ok(())
}

// What is wrong with a block of a sheet.
pub fn block_fault(sheet: &[u8], letters: &[u8], number: usize, due: Due) -> Result<(), Fault>
    requires letters_len { length letters.now ≡ letters_length }
    requires block_length_in_bounds { (block_length * number + block_length ≤ length sheet.now) × (due.used ≤ most_payload) }
    ensures { code_of result ≡ wrong letters.now due.kind number due.used (block_at sheet.now number) }
{
    let at = BLOCK_LENGTH * number;
    fault_of(&sheet[at..at + BLOCK_LENGTH], letters, number, due)
}

// The first block that is refused of those from block `from` up to block `to`: its code and its number.
pub fn first_fault(
    sheet: &[u8],
    letters: &[u8],
    sections: &[Section],
    from: usize,
    to: usize,
) -> Result<(), Refusal>
    requires letters_len { length letters.now ≡ letters_length }
    requires sections { Sections sections.now }
    requires to_in_bounds { (to ≤ length (due_of sections.now)) × (block_length * to ≤ length sheet.now) }
    ensures { result ≡ checked (fault_within letters.now (due_of sections.now) sheet.now from to) }
{
    for number in from..to {
        let due = due_at(sections, number).unwrap();
        if let Err(fault) = block_fault(sheet, letters, number, due) {
            return Err(fault.at(number as u64));
        }
    }
    Ok(())
}

// Blocks of numbers, put down in a sheet.
ghost use Rattle.std.specs.Prelude.{◌≡◌, ◌+◌, ◌*◌, ◌/◌, ◌≤◌, length};
ghost use Rattle.packing.specs.Part.{part};
ghost use Rattle.packing.specs.Put.{put};
ghost use Rattle.packing.specs.Numbers.{pack, rep};
ghost use Rattle.blocks.specs.Fletcher.{check};
ghost use Rattle.blocks.specs.Block.{block_length, letters_length, checked_length, body, block_of};
ghost use Rattle.blocks.specs.Section.{blocks_of, section_dues};
ghost use Rattle.blocks.specs.Sheet.{sheet_from};
ghost use Rattle.blocks.specs.Whole.{Whole};
ghost use Rattle.blocks.specs.Filling.{Filling, payload_in};

use crate::check::sums_of;
use crate::dues::block_count;
use crate::{BLOCK_LENGTH, CHECKED_LENGTH, Due, HEADER_LENGTH, Section, header_of};
use packing::{Shape, copy_to, write_records, zero_to};

// A block that is to be put down: its payload is the first `count` records of the numbers.
#[derive(Clone, Copy)]
struct Block<'a> {
    letters: &'a [u8],
    kind: u8,
    number: usize,
    shape: Shape<'a>,
    count: usize,
    numbers: &'a [u64],
}

// Puts all of a block but its check down from byte `at` on.
fn write_body(sheet: &mut [u8], at: usize, block: Block)
    requires filling { Filling block.letters.now block.shape.widths.now block.numbers.now block.shape.stride block.count }
    requires block_length_in_bounds { at + block_length ≤ length sheet.old }
    ensures { sheet.new ≡ put sheet.old at (body block.entry.letters.now block.entry.kind block.entry.number (payload_in block.entry.shape.widths.now block.entry.numbers.now block.entry.count)) }
{
    let due = Due {
        kind: block.kind,
        used: block.count * block.shape.stride,
    };
    copy_to(sheet, at, &header_of(block.letters, block.number, due));
    let payload = at + HEADER_LENGTH;
    write_records(sheet, payload, block.shape, block.count, block.numbers);
    zero_to(sheet, payload + due.used, at + CHECKED_LENGTH);
}

// Puts the check of the block that starts at byte `at` down at its end.
fn write_check(sheet: &mut [u8], at: usize)
    requires { at + block_length ≤ length sheet.old }
    ensures { sheet.new ≡ put sheet.old (at + checked_length) (check (part at (at + checked_length) sheet.old)) }
{
    let end = at + CHECKED_LENGTH;
    let sums = sums_of(&sheet[at..end]);
    copy_to(sheet, end, &sums.bytes());
}

// Puts a block down in its place.
fn write_block(sheet: &mut [u8], block: Block)
    requires filling { Filling block.letters.now block.shape.widths.now block.numbers.now block.shape.stride block.count }
    requires block_length_in_bounds { block_length * block.number + block_length ≤ length sheet.old }
    ensures { sheet.new ≡ put sheet.old (block_length * block.entry.number) (block_of block.entry.letters.now block.entry.kind block.entry.number (payload_in block.entry.shape.widths.now block.entry.numbers.now block.entry.count)) }
{
    let at = BLOCK_LENGTH * block.number;
    write_body(sheet, at, block);
    write_check(sheet, at);
}

// Puts the blocks of a section down from block `first` on, and answers the block after them: its bytes are the numbers, in records of this shape. (Taken into each of its callers, so that the widths of the numbers are known where they are put down.)
#[inline(always)]
pub fn write_section(
    sheet: &mut [u8],
    letters: &[u8],
    first: usize,
    section: Section,
    shape: Shape,
    numbers: &[u64],
) -> usize
    requires letters_len { (length letters.now ≡ letters_length) × Whole section shape.widths.now shape.stride }
    requires section_in_bounds { block_length * (first + blocks_of section) ≤ length sheet.old }
    requires widths_in_bounds { section.bytes / shape.stride * length shape.widths.now ≤ length numbers.now }
    ensures value { result ≡ first + blocks_of section }
    ensures sheet_after { sheet.new ≡ put sheet.old (block_length * first) (sheet_from letters.now first (section_dues section) (pack (rep (section.bytes / shape.entry.stride) shape.entry.widths.now) numbers.now)) }
{
    let end = first + block_count(section);
    // The bytes that are left are counted down, since the last block may be part full.
    let mut left = section.bytes;
    let mut from = 0;
    for number in first..end {
        let used = section.size.min(left);
        let block = Block {
            letters,
            kind: section.kind,
            number,
            shape,
            count: used / shape.stride,
            numbers: &numbers[from..],
        };
        write_block(sheet, block);
        left -= used;
        from += block.count * shape.widths.len();
    }
    end
}

// The payloads of a sheet's blocks, and the numbers in them.
ghost use Rattle.std.specs.Prelude.{◌≡◌, ◌+◌, ◌*◌, ◌/◌, ◌≤◌, length, drop};
ghost use Rattle.packing.specs.Put.{put};
ghost use Rattle.packing.specs.Numbers.{unpack, rep};
ghost use Rattle.blocks.specs.Block.{block_length, most_payload};
ghost use Rattle.blocks.specs.Section.{blocks_of, section_dues};
ghost use Rattle.blocks.specs.Sheet.{stream_from};
ghost use Rattle.blocks.specs.Shown.{payload_part, PartOf};
ghost use Rattle.blocks.specs.Whole.{Whole};

use crate::dues::block_count;
use crate::{BLOCK_LENGTH, HEADER_LENGTH, Section};
use packing::{Shape, read_records};

// The used payload of a block, as that part of the sheet.
pub fn payload(sheet: &[u8], number: usize, used: usize) -> &[u8]
    requires { (block_length * number + block_length ≤ length sheet.now) × (used ≤ most_payload) }
    ensures { PartOf sheet.entry (payload_part number used) result }
{
    let at = BLOCK_LENGTH * number + HEADER_LENGTH;
    &sheet[at..at + used]
}

// Puts the numbers of the section that starts at block `first`, in records of this shape, down in `out` from `at` on, and answers the block after it.
pub fn read_section(
    sheet: &[u8],
    first: usize,
    section: Section,
    shape: Shape,
    out: &mut [u64],
    at: usize,
) -> usize
    requires whole { Whole section shape.widths.now shape.stride }
    requires section_in_bounds { block_length * (first + blocks_of section) ≤ length sheet.now }
    requires widths_in_bounds { at + section.bytes / shape.stride * length shape.widths.now ≤ length out.old }
    ensures value { result ≡ first + blocks_of section }
    ensures out_after { out.new ≡ put out.old at (unpack (rep (section.bytes / shape.entry.stride) shape.entry.widths.now) (stream_from (section_dues section) (drop (block_length * first) sheet.now))) }
{
    let end = first + block_count(section);
    // The bytes that are left are counted down, since the last block may be part full.
    let mut left = section.bytes;
    let mut to = at;
    for number in first..end {
        let used = section.size.min(left);
        let bytes = payload(sheet, number, used);
        let count = used / shape.stride;
        read_records(bytes, shape, count, out, to);
        left -= used;
        to += count * shape.widths.len();
    }
    end
}

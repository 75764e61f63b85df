// The blocks of each kind, put down in a sheet.
ghost use Rattle.std.specs.Prelude.{◌≡◌, ◌+◌, ◌*◌, ◌≤◌, length};
ghost use Rattle.packing.specs.Put.{put};
ghost use Rattle.blocks.specs.Block.{block_length};
ghost use Rattle.blocks.specs.Layout.{blocks_in, blocks_at};
ghost use Rattle.blocks.specs.Layout as blocks;
ghost use Rattle.form.specs.Form.{letters, head_layout, layouts, head_numbers};
ghost use Rattle.form.specs.FormLaws.{HeadLimits};
ghost use Rattle.form.specs.Firsts.{workload_first, HasBlocks};
ghost use Rattle.form.specs.Kinds.{widths_of, count_of, layout_of};
ghost use Rattle.form.specs.Over.{over};
ghost use Rattle.writing.specs.Sections.{SoMany, numbers_with};

use blocks::writing::write_section;
use form::sections::{Kind, head_section};
use form::turning::copy_turned;
use form::{Form, Head};
use meaning::Lists;
use terms::limits::{CONSTRAINT_LENGTH, MOST_CONSTRAINTS};

// Puts the head down, and answers the block after it.
fn write_head(form: Form, sheet: &mut [u8], head: Head) -> usize
    requires { HasBlocks form sheet.old head }
    ensures value { result ≡ workload_first form }
    ensures sheet_after { sheet.new ≡ put sheet.old 0 (blocks_at (letters form) (head_layout form) 0 (head_numbers form head)) }
{
    let numbers = [
        head.regions,
        head.sectors,
        head.edges,
        head.constraints,
        head.flights,
        head.visits,
    ];
    write_section(
        sheet,
        &form.letters(),
        0,
        head_section(form),
        form.head_shape(),
        &numbers[..form.head_length()],
    )
}

// Puts the blocks of a kind down from block `first` on, and answers the block after them. (Taken into its callers, which know the kind.)
#[inline(always)]
pub fn write_kind(
    form: Form,
    sheet: &mut [u8],
    head: Head,
    kind: Kind,
    first: usize,
    numbers: &[u64],
) -> usize
    requires head_limits { HeadLimits form head }
    requires blocks { block_length * (first + blocks_in (layout_of kind form head)) ≤ length sheet.old }
    requires numbers_len { length numbers.now ≡ count_of kind form head * length (widths_of kind) }
    ensures value { result ≡ first + blocks_in (layout_of kind form head) }
    ensures sheet_after { sheet.new ≡ put sheet.old (block_length * first) (blocks_at (letters form) (layout_of kind form head) first numbers.now) }
{
    let section = kind.section(form, head);
    write_section(
        sheet,
        &form.letters(),
        first,
        section,
        kind.shape(),
        numbers,
    )
}

// Puts all blocks down at the front of the lent bytes, the constraints turned. The outside areas are those that the form has: of the first sheet none.
pub fn write_contents(form: Form, sheet: &mut [u8], head: Head, lists: Lists, colouring: &[u64])
    requires has_blocks { HasBlocks form sheet.old head }
    requires so_many { SoMany form head lists.workloads.now lists.outside.now lists.edges.now lists.counts.now lists.visits.now lists.constraints.now colouring.now }
    ensures { sheet.new ≡ over (blocks.sheet_of (letters form) (layouts form head) (numbers_with form head lists.entry.workloads.now lists.entry.outside.now lists.entry.edges.now lists.entry.counts.now lists.entry.visits.now lists.entry.constraints.now colouring.now)) sheet.old }
{
    let mut room = [0u64; CONSTRAINT_LENGTH * MOST_CONSTRAINTS as usize];
    let numbers = lists.constraints.len();
    copy_turned(lists.constraints, &mut room);
    let first = write_head(form, sheet, head);
    let first = write_kind(form, sheet, head, Kind::Workloads, first, lists.workloads);
    let first = write_kind(form, sheet, head, Kind::Outside, first, lists.outside);
    let first = write_kind(form, sheet, head, Kind::Edges, first, lists.edges);
    let first = write_kind(
        form,
        sheet,
        head,
        Kind::Constraints,
        first,
        &room[..numbers],
    );
    let first = write_kind(form, sheet, head, Kind::Colouring, first, colouring);
    let first = write_kind(form, sheet, head, Kind::Counts, first, lists.counts);
    write_kind(form, sheet, head, Kind::Visits, first, lists.visits);
}

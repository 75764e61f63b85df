// The numbers of each kind of blocks, read into their places.
ghost use Rattle.std.specs.Prelude.{◌≡◌, ◌+◌, ◌*◌, ◌≤◌, length};
ghost use Rattle.packing.specs.Put.{put};
ghost use Rattle.blocks.specs.Block.{block_length};
ghost use Rattle.blocks.specs.Layout.{blocks_in, numbers_at};
ghost use Rattle.form.specs.Form.{head_in, contents_in};
ghost use Rattle.form.specs.FormLaws.{HeadLimits};
ghost use Rattle.form.specs.Firsts.{HasBlocks};
ghost use Rattle.form.specs.Kinds.{widths_of, count_of, layout_of};
ghost use Rattle.holding.specs.Held.{most_held, contents_held};

use crate::places::{colouring_at, constraints_at, counts_at, edges_at, outside_at, visits_at};
use blocks::reading::read_section;
use form::sections::Kind;
use form::turning::turn;
use form::{Form, Head};

// Puts the numbers of a kind, whose blocks start at block `first`, down in `held` from `at` on, and answers the block after them.
fn read_kind(
    form: Form,
    sheet: &[u8],
    head: Head,
    kind: Kind,
    first: usize,
    held: &mut [u64],
    at: usize,
) -> usize
    requires head_limits { HeadLimits form head }
    requires blocks { block_length * (first + blocks_in (layout_of kind form head)) ≤ length sheet.now }
    requires room { at + count_of kind form head * length (widths_of kind) ≤ length held.old }
    ensures value { result ≡ first + blocks_in (layout_of kind form head) }
    ensures held_after { held.new ≡ put held.old at (numbers_at (layout_of kind form head) first sheet.now) }
{
    let section = kind.section(form, head);
    read_section(sheet, first, section, kind.shape(), held, at)
}

// Puts all lists of a sheet in their places: the outside areas over zeros, which stay where the form has none, and the constraints turned.
pub fn read_lists(form: Form, sheet: &[u8], head: Head, held: &mut [u64])
    requires has_blocks { HasBlocks form sheet.now head × (most_held ≤ length held.old) }
    requires head_value { head ≡ head_in form sheet.now }
    ensures { contents_held head held.new ≡ contents_in form sheet.now }
{
    let outside = outside_at(head);
    let edges = edges_at(head);
    let constraints = constraints_at(head);
    let colouring = colouring_at(head);
    let first = read_kind(form, sheet, head, Kind::Workloads, 1, held, 0);
    held[outside..edges].fill(0);
    let first = read_kind(form, sheet, head, Kind::Outside, first, held, outside);
    let first = read_kind(form, sheet, head, Kind::Edges, first, held, edges);
    let first = read_kind(
        form,
        sheet,
        head,
        Kind::Constraints,
        first,
        held,
        constraints,
    );
    turn(&mut held[constraints..colouring]);
    let first = read_kind(form, sheet, head, Kind::Colouring, first, held, colouring);
    let first = read_kind(
        form,
        sheet,
        head,
        Kind::Counts,
        first,
        held,
        counts_at(head),
    );
    read_kind(
        form,
        sheet,
        head,
        Kind::Visits,
        first,
        held,
        visits_at(head),
    );
}

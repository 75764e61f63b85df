// The blocks of each kind.
ghost use Rattle.std.specs.Prelude.{◌≡◌, ◌≤◌, length, map};
ghost use Rattle.std.specs.List.{slice_get};
ghost use Rattle.packing.specs.Numbers.{total};
ghost use Rattle.blocks.specs.Layout.{section_of};
ghost use Rattle.form.specs.Form.{head_layout, layouts, dues};
ghost use Rattle.form.specs.FormLaws.{HeadLimits};
ghost use Rattle.form.specs.Firsts.{colouring_first, count_first};
ghost use Rattle.form.specs.Kinds.{number_of, widths_of, full_of, count_of, most_of, layout_of};

use crate::{Form, Head};
use blocks::dues::{block_count, due_at, due_count};
use blocks::{Due, Section};
use packing::Shape;

const HEAD_KIND: u8 = 1;

// How many sectors a full block holds, and their bytes.
pub const SECTOR_SIZE: usize = 500;

// What the blocks after the head hold, kind by kind in their order.
#[derive(Clone, Copy)]
pub enum Kind {
    Workloads,
    Outside,
    Edges,
    Constraints,
    Colouring,
    Counts,
    Visits,
}

impl Kind {
    // The number that a block has for its kind.
    fn number(self) -> u8
        ensures { result ≡ number_of self }
    {
        match self {
            Kind::Workloads => 2,
            Kind::Outside => 6,
            Kind::Edges => 3,
            Kind::Constraints => 4,
            Kind::Colouring => 5,
            Kind::Counts => 7,
            Kind::Visits => 8,
        }
    }

    // How a record's numbers stand in bytes.
    pub fn shape(self) -> Shape<'static>
        ensures widths { result.widths.now ≡ widths_of self }
        ensures stride { result.stride ≡ total (widths_of self) }
    {
        match self {
            Kind::Workloads | Kind::Outside => Shape {
                widths: &[4],
                stride: 4,
            },
            Kind::Edges => Shape {
                widths: &[2, 2, 4],
                stride: 8,
            },
            Kind::Constraints => Shape {
                widths: &[1, 1, 2, 8],
                stride: 12,
            },
            Kind::Colouring | Kind::Counts => Shape {
                widths: &[1],
                stride: 1,
            },
            Kind::Visits => Shape {
                widths: &[2, 4],
                stride: 6,
            },
        }
    }

    // How many records a full block holds.
    fn full(self) -> usize
        ensures { result ≡ full_of self }
    {
        match self {
            Kind::Workloads | Kind::Outside => 125,
            Kind::Edges => 62,
            Kind::Constraints => 41,
            Kind::Colouring => SECTOR_SIZE,
            Kind::Counts => 500,
            Kind::Visits => 83,
        }
    }

    // How many records a sheet with this head has.
    fn count(self, form: Form, head: Head) -> u64
        ensures { result ≡ count_of self form head }
    {
        match self {
            Kind::Workloads | Kind::Colouring => head.regions,
            Kind::Outside => form.outside_count(head.regions),
            Kind::Edges => head.edges,
            Kind::Constraints => head.constraints,
            Kind::Counts => head.flights,
            Kind::Visits => head.visits,
        }
    }

    // Its blocks.
    pub fn section(self, form: Form, head: Head) -> Section
        requires { count_of self form head ≤ most_of self }
        ensures { result ≡ section_of (layout_of self form head) }
    {
        let stride = self.shape().stride;
        Section {
            kind: self.number(),
            size: self.full() * stride,
            bytes: self.count(form, head) as usize * stride,
        }
    }
}

// The head. It is none of the kinds: its blocks are asked for before its numbers are known.
pub fn head_section(form: Form) -> Section
    ensures { result ≡ section_of (head_layout form) }
{
    let bytes = form.head_bytes();
    Section {
        kind: HEAD_KIND,
        size: bytes,
        bytes,
    }
}

// The blocks of all kinds in order.
pub fn sections(form: Form, head: Head) -> [Section; 8]
    requires { HeadLimits form head }
    ensures { result ≡ map section_of (layouts form head) }
{
    [
        head_section(form),
        Kind::Workloads.section(form, head),
        Kind::Outside.section(form, head),
        Kind::Edges.section(form, head),
        Kind::Constraints.section(form, head),
        Kind::Colouring.section(form, head),
        Kind::Counts.section(form, head),
        Kind::Visits.section(form, head),
    ]
}

// How many blocks are due.
pub fn all_blocks(form: Form, head: Head) -> usize
    requires { HeadLimits form head }
    ensures { result ≡ length (dues form head) }
{
    due_count(&sections(form, head))
}

// The first block of the visit counts, where they have any: all that are due but theirs and those of the visits come before it.
pub fn count_first(form: Form, head: Head) -> usize
    requires { HeadLimits form head }
    ensures { result ≡ count_first form head }
{
    all_blocks(form, head)
        - block_count(Kind::Counts.section(form, head))
        - block_count(Kind::Visits.section(form, head))
}

// The first block of the colouring.
pub fn colouring_first(form: Form, head: Head) -> usize
    requires { HeadLimits form head }
    ensures { result ≡ colouring_first form head }
{
    count_first(form, head) - block_count(Kind::Colouring.section(form, head))
}

// What is due of a block, from 0; nothing is past the last.
pub fn due_of(form: Form, head: Head, number: usize) -> Option<Due>
    requires { HeadLimits form head }
    ensures { result ≡ slice_get (dues form head) number }
{
    due_at(&sections(form, head), number)
}

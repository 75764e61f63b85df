// Which blocks are due: each is full but the last of its kind.
ghost use Rattle.std.specs.Prelude.{◌≡◌, length};
ghost use Rattle.std.specs.List.{slice_get};
ghost use Rattle.blocks.specs.Section.{blocks_of, due_of, Sized, Sections};

use crate::{Due, Section};

// How many blocks a section has: no bytes, no block.
pub fn block_count(section: Section) -> usize
    requires { Sized section }
    ensures { result ≡ blocks_of section }
{
    section.bytes.div_ceil(section.size)
}

// How many blocks are due.
pub fn due_count(sections: &[Section]) -> usize
    requires { Sections sections.now }
    ensures { result ≡ length (due_of sections.now) }
{
    let mut count = 0;
    for section in sections {
        count += block_count(*section);
    }
    count
}

// What is due of a block, from 0; nothing is past the last.
pub fn due_at(sections: &[Section], number: usize) -> Option<Due>
    requires { Sections sections.now }
    ensures { result ≡ slice_get (due_of sections.now) number }
{
    let mut left = number;
    for section in sections {
        let count = block_count(*section);
        if left < count {
            return Some(Due {
                kind: section.kind,
                used: section.size.min(section.bytes - left * section.size),
            });
        }
        left -= count;
    }
    None
}

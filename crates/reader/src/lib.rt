// Reading goes through a reader, which keeps the lent sheet and its place in it. Each function leaves the work to one that takes the slice and the number.
// They are functions, and no methods, since docs/PROMISES.md promises each by its name.
#![tactic(auto)]

ghost use Rattle.std.specs.Prelude.{◌≡◌};
ghost use Rattle.sheet.specs.Showing.{past_end, next_place, Promise as Shows};
ghost use Rattle.reader.specs.Kept.{Keeps};

use sheet::showing;

// A lent sheet, and the number of a block of it, from 0.
#[derive(Clone, Copy)]
pub struct Reader<'a> {
    pub sheet: &'a [u8],
    pub place: usize,
}

// Opens a sheet at its first block.
pub fn opened<'a>(sheet: &'a [u8]) -> Reader<'a>
    ensures { Keeps sheet.entry 0 result }
{
    Reader { sheet, place: 0 }
}

// The number of the reader's block.
pub fn place<'a>(reader: Reader<'a>) -> usize
    ensures { result ≡ reader.entry.place }
{
    reader.place
}

// Goes to a block, whether there is one or not.
pub fn moved<'a>(reader: Reader<'a>, place: usize) -> Reader<'a>
    ensures { Keeps reader.entry.sheet place result }
{
    Reader { place, ..reader }
}

// Goes to the next block; a reader past the end stays where it is.
pub fn next<'a>(reader: Reader<'a>) -> Reader<'a>
    ensures { Keeps reader.entry.sheet (next_place reader.entry.sheet.now reader.entry.place) result }
{
    let place = showing::after(reader.sheet, reader.place);
    Reader { place, ..reader }
}

// Whether there is no block at the reader's place: none is past the last one, nor anywhere in a sheet whose length, head or block count is refused.
pub fn past_end<'a>(reader: Reader<'a>) -> bool
    ensures { result ≡ past_end reader.entry.sheet.now reader.entry.place }
{
    showing::past_end(reader.sheet, reader.place)
}

// Shows the used payload of the reader's block, as that part of the sheet; of a block that is refused or not there, an empty part.
pub fn part<'a>(reader: Reader<'a>) -> &'a [u8]
    ensures { Shows reader.entry.sheet reader.entry.place result }
{
    showing::block(reader.sheet, reader.place)
}

// Shows the used payload of a block, through a reader; with plain parameters, for a caller that keeps none.
pub fn show(sheet: &[u8], number: usize) -> &[u8]
    ensures { Shows sheet.entry number result }
{
    part(moved(opened(sheet), number))
}

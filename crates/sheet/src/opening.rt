// Whether a sheet can be read at all: its length, its head and the number of its blocks.
ghost use Rattle.std.specs.Prelude.{◌≡◌, ◌≤◌, length};
ghost use Rattle.refusals.specs.Checked.{checked};
ghost use Rattle.refusals.specs.Table.{refusal};
ghost use Rattle.blocks.specs.Block.{block_length};
ghost use Rattle.form.specs.Form.{head_in};
ghost use Rattle.form.specs.Refusals.{length_right, flights_right, head_table, open_table};

use blocks::faults::block_fault;
use blocks::reading::read_section;
use blocks::{BLOCK_LENGTH, Due};
use form::sections::{all_blocks, head_section};
use form::{Form, HEAD_LENGTH, Head};
use refusals::{Refusal, refuse_if};
use terms::{in_limits, limits};

// Whether a sheet is whole blocks, at least one and not too many.
fn length_right(sheet: &[u8]) -> bool
    ensures { result ≡ length_right sheet.now }
{
    let blocks = (sheet.len() / BLOCK_LENGTH) as u64;
    sheet.len() % BLOCK_LENGTH == 0 && in_limits(1, blocks, Form::of(sheet).most_blocks())
}

// The head of a sheet of this form.
pub fn head_in(form: Form, sheet: &[u8]) -> Head
    requires { block_length ≤ length sheet.now }
    ensures { result ≡ head_in form sheet.now }
{
    let mut numbers = [0u64; HEAD_LENGTH];
    read_section(
        sheet,
        0,
        head_section(form),
        form.head_shape(),
        &mut numbers,
        0,
    );
    let [regions, sectors, edges, constraints, flights, visits] = numbers;
    Head {
        regions,
        sectors,
        edges,
        constraints,
        flights,
        visits,
    }
}

// Whether a head has not too many flights, and 1 to 32 visits for each.
fn flights_right(form: Form, head: Head) -> bool
    ensures { result ≡ flights_right form head }
{
    head.flights <= form.flight_count()
        && in_limits(
            head.flights,
            head.visits,
            limits::MOST_VISITS * head.flights,
        )
}

// What is refused of the head's numbers: 37, and the place is the call's code for them.
fn head_refusal(form: Form, head: Head) -> Result<(), Refusal>
    ensures { result ≡ checked (refusal (head_table form head)) }
{
    let edges = head.edges <= limits::MOST_EDGES;
    let flights = flights_right(form, head);
    refuse_if(!in_limits(1, head.regions, limits::MOST_REGIONS), 37, 1)?;
    refuse_if(!in_limits(1, head.sectors, limits::MOST_SECTORS), 37, 2)?;
    refuse_if(!edges, 37, 4)?;
    refuse_if(
        !in_limits(1, head.constraints, limits::MOST_CONSTRAINTS),
        37,
        6,
    )?;
    refuse_if(!flights, 37, 13)
}

// What is refused of the length, the head and the number of blocks of a sheet of this form.
pub fn open_refusal(form: Form, sheet: &[u8]) -> Result<(), Refusal>
    ensures { result ≡ checked (refusal (open_table form sheet.now)) }
{
    refuse_if(!length_right(sheet), 31, 0)?;
    let section = head_section(form);
    let due = Due {
        kind: section.kind,
        used: section.bytes,
    };
    if let Err(fault) = block_fault(sheet, &form.letters(), 0, due) {
        return Err(fault.at(0));
    }
    let head = head_in(form, sheet);
    head_refusal(form, head)?;
    refuse_if(sheet.len() / BLOCK_LENGTH != all_blocks(form, head), 38, 0)
}

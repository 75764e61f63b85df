// The calls of the planning screen and of the search, for programs in Rust or C.
#![tactic(auto)]

ghost use Rattle.call.specs.Promise.{Promise, input, left};

use call::Answer;
use meaning::Lists;

pub mod by_records; // by_records.rt: the calls that take the constraints as a lent list of records
pub mod by_sheet; // by_sheet.rt: the calls on the bytes of a sheet, each of which answers one number
pub mod storing; // storing.rt: a sheet into lists, lists into a sheet, one sheet into the other, and a sound sheet from a damaged one

// Judges a colouring of a plan, takes the moves in turn, and judges the last colouring; a call that is refused answers why and changes nothing.
#[unsafe(no_mangle)]
pub extern "C" fn sctr_call(
    regions: u64,
    sectors: u64,
    workloads: &[u64],
    outside: &[u64],
    edges: &[u64],
    counts: &[u64],
    visits: &[u64],
    constraints: &[u64],
    colouring: &mut [u64],
    moves: &[u64],
    rows: &mut [i64],
    verdicts: &mut [u64],
    work: &mut [u64],
) -> Answer
    ensures { Promise (input regions sectors workloads.now outside.now edges.now counts.now visits.now constraints.now colouring.old moves.now rows.old verdicts.old work.old) (left result colouring.new rows.new verdicts.new work.new) }
{
    let lists = Lists {
        sectors,
        workloads,
        outside,
        edges,
        counts,
        visits,
        constraints,
    };
    call::judge(regions, lists, colouring, moves, rows, verdicts, work)
}

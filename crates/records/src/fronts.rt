// The call and writing, with the constraints as the first records of an array.
ghost use Rattle.call.specs.Promise as call;
ghost use Rattle.form.specs.declared.Form.TheVariants.{First};
ghost use Rattle.writing.specs.Promise as writing;
ghost use Rattle.records.specs.Copied.{front};

use crate::copying::{COPIED_LENGTH, MOST_COPIED};
use call::Answer;
use meaning::Lists;
use terms::limits::CONSTRAINT_LENGTH;
use writing::Written;

// The call on the first `count` records of the array, or on all that it has. The other lists come one by one, since a plan's lists name its constraints as well, and these are in the array.
pub fn judge_front(
    numbers: [u64; COPIED_LENGTH],
    count: usize,
    regions: u64,
    sectors: u64,
    workloads: &[u64],
    outside: &[u64],
    edges: &[u64],
    counts: &[u64],
    visits: &[u64],
    colouring: &mut [u64],
    moves: &[u64],
    rows: &mut [i64],
    verdicts: &mut [u64],
    work: &mut [u64],
) -> Answer
    ensures { call.Promise (call.input regions sectors workloads.now outside.now edges.now counts.now visits.now (front count numbers) colouring.old moves.now rows.old verdicts.old work.old) (call.left result colouring.new rows.new verdicts.new work.new) }
{
    let lists = Lists {
        sectors,
        workloads,
        outside,
        edges,
        counts,
        visits,
        constraints: &numbers[..CONSTRAINT_LENGTH * count.min(MOST_COPIED)],
    };
    call::judge(regions, lists, colouring, moves, rows, verdicts, work)
}

// Writing a first sheet with the first `count` records of the array, or with all that it has.
pub fn write_front(
    numbers: [u64; COPIED_LENGTH],
    count: usize,
    regions: u64,
    sectors: u64,
    workloads: &[u64],
    edges: &[u64],
    colouring: &[u64],
    sheet: &mut [u8],
) -> Written
    ensures { writing.Promise First (writing.plain regions sectors workloads.now edges.now (front count numbers) colouring.now) sheet.old (writing.left result sheet.new) }
{
    writing::write(
        regions,
        sectors,
        workloads,
        edges,
        &numbers[..CONSTRAINT_LENGTH * count.min(MOST_COPIED)],
        colouring,
        sheet,
    )
}

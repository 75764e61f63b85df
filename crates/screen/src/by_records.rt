// The calls that take the constraints as a lent list of records.
ghost use Rattle.call.specs.Promise as call;
ghost use Rattle.form.specs.declared.Form.TheVariants.{First};
ghost use Rattle.writing.specs.Promise as writing;
ghost use Rattle.records.specs.Numbers.{numbers_of};

use call::Answer;
use records::Constraint;
use records::copying::array_of;
use records::fronts::{judge_front, write_front};
use writing::Written;

// Judges as `sctr_call` does, with the same answers as on the list of the records' numbers.
#[unsafe(no_mangle)]
pub extern "C" fn sctr_call_records(
    regions: u64,
    sectors: u64,
    workloads: &[u64],
    outside: &[u64],
    edges: &[u64],
    counts: &[u64],
    visits: &[u64],
    constraints: &[Constraint],
    colouring: &mut [u64],
    moves: &[u64],
    rows: &mut [i64],
    verdicts: &mut [u64],
    work: &mut [u64],
) -> Answer
    ensures { call.Promise (call.input regions sectors workloads.now outside.now edges.now counts.now visits.now (numbers_of constraints.now) colouring.old moves.now rows.old verdicts.old work.old) (call.left result colouring.new rows.new verdicts.new work.new) }
{
    judge_front(
        array_of(constraints),
        constraints.len(),
        regions,
        sectors,
        workloads,
        outside,
        edges,
        counts,
        visits,
        colouring,
        moves,
        rows,
        verdicts,
        work,
    )
}

// Writes a plan, with the constraints as records, and its colouring into the lent bytes as a first sheet; a writing that is refused answers why and changes nothing.
#[unsafe(no_mangle)]
pub extern "C" fn sctr_write_records(
    regions: u64,
    sectors: u64,
    workloads: &[u64],
    edges: &[u64],
    constraints: &[Constraint],
    colouring: &[u64],
    sheet: &mut [u8],
) -> Written
    ensures { writing.Promise First (writing.plain regions sectors workloads.now edges.now (numbers_of constraints.now) colouring.now) sheet.old (writing.left result sheet.new) }
{
    write_front(
        array_of(constraints),
        constraints.len(),
        regions,
        sectors,
        workloads,
        edges,
        colouring,
        sheet,
    )
}

// The calls on the bytes of a sheet, each of which answers one number.
ghost use Rattle.judgement.specs.Promise.{Promise};
ghost use Rattle.judgement.specs.Promise as judgement;

// The code that a sheet is refused with, 0 when it is not.
#[unsafe(no_mangle)]
pub extern "C" fn sctr_code(sheet: &[u8]) -> u64
    ensures { Promise (judgement.code sheet.now) result }
{
    judgement::code(sheet)
}

// The place that the refusal names, 0 when it names none or the sheet is not refused.
#[unsafe(no_mangle)]
pub extern "C" fn sctr_place(sheet: &[u8]) -> u64
    ensures { Promise (judgement.place sheet.now) result }
{
    judgement::place(sheet)
}

// The total of a sheet, 0 when it is refused.
#[unsafe(no_mangle)]
pub extern "C" fn sctr_total(sheet: &[u8]) -> u64
    ensures { Promise (judgement.total_of sheet.now) result }
{
    judgement::total(sheet)
}

// How many constraints a sheet has, 0 when it is refused.
#[unsafe(no_mangle)]
pub extern "C" fn sctr_constraints(sheet: &[u8]) -> u64
    ensures { Promise (judgement.constraint_count sheet.now) result }
{
    judgement::constraints(sheet)
}

// Whether the constraint at a place from 1 holds: 1 or 0. For a place outside the list, 0.
#[unsafe(no_mangle)]
pub extern "C" fn sctr_holds(sheet: &[u8], place: u64) -> u64
    ensures { Promise (judgement.holds sheet.now place) result }
{
    judgement::holds(sheet, place)
}

// The violation of the constraint at a place from 1. For a place outside the list, 0.
#[unsafe(no_mangle)]
pub extern "C" fn sctr_violation(sheet: &[u8], place: u64) -> u64
    ensures { Promise (judgement.violation sheet.now place) result }
{
    judgement::violation(sheet, place)
}

// A sheet into lists, lists into a sheet, one sheet into the other, and a sound sheet from a damaged one.
ghost use Rattle.form.specs.declared.Form.TheVariants.{First, Second};
ghost use Rattle.reading.specs.Promise as reading;
ghost use Rattle.writing.specs.Promise as writing;
ghost use Rattle.conversion.specs.Promise as conversion;
ghost use Rattle.salvage.specs.Promise as salvage;

use meaning::Lists;
use reading::Read;
use salvage::Salvaged;
use writing::Written;

// Reads either sheet, by its letters, into the lent lists; a reading that is refused answers why and changes nothing.
#[unsafe(no_mangle)]
pub extern "C" fn sctr_read(
    sheet: &[u8],
    workloads: &mut [u64],
    outside: &mut [u64],
    edges: &mut [u64],
    counts: &mut [u64],
    visits: &mut [u64],
    constraints: &mut [u64],
    colouring: &mut [u64],
) -> Read
    ensures { reading.Promise (reading.input sheet.now workloads.old outside.old edges.old counts.old visits.old constraints.old colouring.old) (reading.left result workloads.new outside.new edges.new counts.new visits.new constraints.new colouring.new) }
{
    reading::read_sheet(
        sheet,
        workloads,
        outside,
        edges,
        counts,
        visits,
        constraints,
        colouring,
    )
}

// Writes a plan without outside areas and flights, and its colouring, into the lent bytes as a first sheet; a writing that is refused answers why and changes nothing.
#[unsafe(no_mangle)]
pub extern "C" fn sctr_write(
    regions: u64,
    sectors: u64,
    workloads: &[u64],
    edges: &[u64],
    constraints: &[u64],
    colouring: &[u64],
    sheet: &mut [u8],
) -> Written
    ensures { writing.Promise First (writing.plain regions sectors workloads.now edges.now constraints.now colouring.now) sheet.old (writing.left result sheet.new) }
{
    writing::write(
        regions,
        sectors,
        workloads,
        edges,
        constraints,
        colouring,
        sheet,
    )
}

// Writes a plan and its colouring into the lent bytes as a second sheet; a writing that is refused answers why and changes nothing.
#[unsafe(no_mangle)]
pub extern "C" fn sctr_write_second(
    regions: u64,
    sectors: u64,
    workloads: &[u64],
    outside: &[u64],
    edges: &[u64],
    counts: &[u64],
    visits: &[u64],
    constraints: &[u64],
    colouring: &[u64],
    sheet: &mut [u8],
) -> Written
    ensures { writing.Promise Second (writing.contents regions sectors workloads.now outside.now edges.now counts.now visits.now constraints.now colouring.now) sheet.old (writing.left result sheet.new) }
{
    let lists = Lists {
        sectors,
        workloads,
        outside,
        edges,
        counts,
        visits,
        constraints,
    };
    writing::write_second(regions, lists, colouring, sheet)
}

// Converts a first sheet into a second one in the lent bytes; a converting that is refused answers why and changes nothing.
#[unsafe(no_mangle)]
pub extern "C" fn sctr_to_second(sheet: &[u8], converted: &mut [u8]) -> Written
    ensures { conversion.Promise First Second sheet.now converted.old (writing.left result converted.new) }
{
    conversion::to_second(sheet, converted)
}

// Converts a second sheet back into a first one in the lent bytes, where that carries all of it; a converting that is refused answers why and changes nothing.
#[unsafe(no_mangle)]
pub extern "C" fn sctr_to_first(sheet: &[u8], converted: &mut [u8]) -> Written
    ensures { conversion.Promise Second First sheet.now converted.old (writing.left result converted.new) }
{
    conversion::to_first(sheet, converted)
}

// Writes a sound sheet in the lent bytes from one whose colouring is damaged, lists the regions whose sectors were lost, and answers how many; a salvage that is refused answers why and changes nothing.
#[unsafe(no_mangle)]
pub extern "C" fn sctr_salvage(sheet: &[u8], salvaged: &mut [u8], list: &mut [u64]) -> Salvaged
    ensures { salvage.Promise sheet.now salvaged.old list.old (salvage.left result salvaged.new list.new) }
{
    salvage::salvage_sheet(sheet, salvaged, list)
}

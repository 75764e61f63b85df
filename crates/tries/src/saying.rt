// Answers and rows as text.
use call::Answer;
use std::io;
use terms::limits::ROW_LENGTH;

fn say_answer(rt: &impl Print, name: &[u8], answer: Answer) -> io::Result<()> {
    rt.write_all(name)?;
    println!(rt;
        " {} {} {} {}",
        answer.code, answer.place, answer.first, answer.last
    )
}

fn say_row(rt: &impl Print, name: &[u8], row: &[i64]) -> io::Result<()> {
    rt.write_all(name)?;
    for n in row {
        print!(rt; " {n}")?;
    }
    println!(rt;)
}

// The first rows, as far as there are so many, a line each.
fn say_rows(rt: &impl Print, name: &[u8], rows: &[i64], count: usize) -> io::Result<()> {
    for row in rows.chunks_exact(ROW_LENGTH).take(count) {
        say_row(rt, name, row)?;
    }
    Ok(())
}

// The first rows where some are shown, else the answer.
pub fn say_outcome(
    rt: &impl Print,
    name: &[u8],
    answer: Answer,
    rows: &[i64],
    shown: usize,
) -> io::Result<()> {
    if shown == 0 {
        return say_answer(rt, name, answer);
    }
    say_rows(rt, name, rows, shown)
}

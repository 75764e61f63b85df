// The rows of the answer: four signed numbers to a move.
ghost use Rattle.std.specs.Prelude.{◌≡◌, ◌+◌, ◌*◌, ◌≤◌, length};
ghost use Rattle.std.proofs.lemmas.List.Edits.{sets};
ghost use Rattle.std.specs.Int.{w64};
ghost use Rattle.std.proofs.Common.{SFits};
ghost use Rattle.lists.specs.Sums.{Every};
ghost use Rattle.meaning.specs.Moves.{row_length, cells};
ghost use Rattle.turns.specs.RowLaws.{meant};

use terms::limits::ROW_LENGTH;

// What the row of a move says.
#[derive(Drop)]
pub struct Row {
    pub status: u64,
    pub delta: i64,
    pub total: u64,
    pub relabelled: u64,
}

// Puts down row k, from 0.
pub fn put_row(rows: &mut [i64], k: usize, row: Row)
    requires row_length_in_bounds { row_length * k + row_length ≤ length rows.old }
    requires every { Every (SFits w64) (cells (meant row)) }
    ensures { rows.new ≡ sets rows.old (row_length * k) (cells (meant row)) }
{
    let at = ROW_LENGTH * k;
    let cells = [
        row.status as i64,
        row.delta,
        row.total as i64,
        row.relabelled as i64,
    ];
    rows[at..at + ROW_LENGTH].copy_from_slice(&cells);
}

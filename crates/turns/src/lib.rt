// The moves in turn, and their rows: each is judged on the colouring that those before it left, and gets its row.
#![tactic(auto)]

ghost use Rattle.std.specs.Prelude.{◌≡◌, ◌++◌, ◌+◌, ◌*◌, ◌/◌, ◌≤◌, ◌<◌, length, drop};
ghost use Rattle.std.specs.Int.{w64};
ghost use Rattle.std.proofs.Common.{SFits};
ghost use Rattle.lists.specs.Sums.{Every};
ghost use Rattle.terms.specs.Moves.{status};
ghost use Rattle.meaning.specs.Plan.{most_moves};
ghost use Rattle.meaning.specs.Moves.{move_length, row_length, move_at, moves_of, next, row, cells, last};
ghost use Rattle.meaning.specs.Moves as meaning;
ghost use Rattle.search.specs.Remembered.{Remembered};
ghost use Rattle.engine.specs.State.{Ready, Opened};
ghost use Rattle.kinds.specs.Paid.{weights_of};
ghost use Rattle.engine.specs.Prepared.{plan_prepared, SortedBy, SettingBy, FlownBy};
ghost use Rattle.turns.specs.RowLaws.{meant};

mod rows; // rows.rt: a row, and where it is put down

use crate::rows::{Row, put_row};
use engine::{Prepared, Standing};
use kinds::{Weights, weights_of};
use terms::Move;
use terms::limits::{MOST_REGIONS, MOST_SECTORS, MOVE_LENGTH};

// The status of a move: 0 where it is accepted.
fn status_of(asked: Move) -> u64
    ensures { result ≡ status asked }
{
    if let Move::Refused(status) = asked {
        status
    } else {
        0
    }
}

// What stands after a move, and its row.
#[derive(Drop)]
struct Turned {
    standing: Standing,
    row: Row,
}

// Takes move k, from 0, and answers its row; all stands as a first judgement of the colouring after it would leave it.
fn turn(
    prepared: Prepared,
    weights: Weights,
    moves: &[u64],
    k: usize,
    colouring: &mut [u64],
    work: &mut [u64],
    prices: &mut [u64],
    queue: &mut [u64],
    known: &mut [u64],
    standing: Standing,
) -> Turned
    requires sorted { let P = plan_prepared prepared in SortedBy prepared × (weights ≡ weights_of P.constraints) }
    requires remembered { let P = plan_prepared prepared in Remembered P.R P.S P.edges colouring.old k known.old }
    requires k_bound { k < most_moves }
    requires setting { SettingBy prepared queue.old }
    requires ready { let P = plan_prepared prepared in Ready P colouring.old work.old prices.old standing }
    requires move_length_in_bounds { move_length * k + move_length ≤ length moves.now }
    requires flown { FlownBy prepared }
    ensures remembered { let P = plan_prepared prepared.entry in Remembered P.R P.S P.edges (next colouring.old (move_at P moves.now k)) (k + 1) known.new }
    ensures opened { let P = plan_prepared prepared.entry in Opened P (next colouring.old (move_at P moves.now k)) work.old colouring.new work.new prices.new result.standing }
    ensures row_value { let P = plan_prepared prepared.entry in meant result.row ≡ row P colouring.old (move_at P moves.now k) }
    ensures every { Every (SFits w64) (cells (meant result.row)) }
{
    let at = MOVE_LENGTH * k;
    let asked = Move::new(
        prepared.lists.workloads.len() as u64,
        prepared.lists.sectors,
        moves[at],
        moves[at + 1],
        moves[at + 2],
    );
    let stepped = engine::step(
        prepared, weights, colouring, work, prices, queue, known, k as u64, standing, asked,
    );
    let after = stepped.standing;
    let row = Row {
        status: status_of(asked),
        delta: stepped.delta,
        total: after.total,
        relabelled: stepped.relabelled,
    };
    Turned {
        standing: after,
        row,
    }
}

// Takes all moves and puts down their rows; all stands as a first judgement of the last colouring would leave it.
pub fn all_moves(
    prepared: Prepared,
    moves: &[u64],
    colouring: &mut [u64],
    work: &mut [u64],
    prices: &mut [u64],
    queue: &mut [u64],
    rows: &mut [i64],
    first: Standing,
) -> Standing
    requires sorted { SortedBy prepared }
    requires move_length_bound { length moves.now / move_length ≤ most_moves }
    requires setting { SettingBy prepared queue.old }
    requires ready { let P = plan_prepared prepared in Ready P colouring.old work.old prices.old first }
    requires move_length_in_bounds { row_length * (length moves.now / move_length) ≤ length rows.old }
    requires flown { FlownBy prepared }
    ensures opened { let P = plan_prepared prepared.entry in Opened P (last colouring.old (moves_of P moves.now)) work.old colouring.new work.new prices.new result }
    ensures rows_after { let P = plan_prepared prepared.entry in rows.new ≡ meaning.rows P colouring.old (moves_of P moves.now) ++ drop (row_length * (length moves.now / move_length)) rows.old }
{
    let n = moves.len() / MOVE_LENGTH;
    if n == 0 {
        return first;
    }
    let weights = weights_of(prepared.lists.constraints);
    let mut known = [0u64; (MOST_REGIONS + MOST_SECTORS) as usize];
    let mut standing = first;
    for k in 0..n {
        let turned = turn(
            prepared, weights, moves, k, colouring, work, prices, queue, &mut known, standing,
        );
        put_row(rows, k, turned.row);
        standing = turned.standing;
    }
    standing
}

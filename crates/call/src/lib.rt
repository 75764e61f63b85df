// The call: refusal, first judgement, the moves in turn, the verdicts.
#![tactic(auto)]

ghost use Rattle.std.specs.Prelude.{◌≡◌, ◌++◌, ◌*◌, ◌≤◌, length, drop};
ghost use Rattle.meaning.specs.Moves.{verdict_length};
ghost use Rattle.judge.specs.Figures.{constraint_count};
ghost use Rattle.refusals.specs.Valid.{Valid};
ghost use Rattle.engine.specs.State.{Opening};
ghost use Rattle.engine.specs.Prepared.{SortedBy, SettingBy, PricedBy, FlownBy};
ghost use Rattle.call.specs.Promise.{Promise, input_by, given, plan_in, left, ran};
ghost use Rattle.call.specs.Concluding.{Concluding, concluded};
ghost use Rattle.call.specs.Arrays.{input_prepared};

use engine::Prepared;
use flights::gauging::gauge_dwells;
use judge::Figures;
use judge::measures::gauge_all;
use judge::verdicts::put_verdicts;
use kinds::pick;
use lists::sum_of;
use meaning::Lists;
use neighbours::{Faces, gather};
use refusals::call_refusal;
use terms::limits::{
    BALANCED, BOUNDED, CONNECTED, CONSTRAINT_LENGTH, DWELL, MOST_CONSTRAINTS, MOST_EDGES,
    MOST_FLIGHTS, MOST_REGIONS, MOST_SECTORS, MOST_VISITS, VISIT_LENGTH,
};
use visitors::{Visitors, gather_visitors};

// What a call answers: a refusal's code and place, or code 0 with the total before the moves and after them.
#[repr(C)]
#[derive(Drop)]
pub struct Answer {
    pub code: u64,
    pub place: u64,
    pub first: u64,
    pub last: u64,
}

// Puts down the verdicts on a colouring, by its figures and the workloads of its sectors; what lies beyond stays.
fn conclude(lists: Lists, loads: &[u64], colouring: &[u64], figures: Figures, verdicts: &mut [u64])
    requires concluding { Concluding lists.constraints.now lists.counts.now lists.visits.now loads.now colouring.now figures }
    requires constraints_in_bounds { verdict_length * constraint_count lists.constraints.now ≤ length verdicts.old }
    ensures { verdicts.new ≡ concluded lists.entry.constraints.now lists.entry.counts.now lists.entry.visits.now loads.now colouring.now figures ++ drop (verdict_length * constraint_count lists.entry.constraints.now) verdicts.old }
{
    let constraints = lists.constraints;
    let mut room = [0u64; MOST_CONSTRAINTS as usize];
    let gauges = &mut room[..constraints.len() / CONSTRAINT_LENGTH];
    gauge_all(constraints, loads, gauges);
    gauge_dwells(constraints, lists.counts, lists.visits, colouring, gauges);
    put_verdicts(constraints, figures, gauges, verdicts);
}

// Judges the colouring, takes all moves, and puts down the verdicts and T.
fn judge_all(
    prepared: Prepared,
    moves: &[u64],
    colouring: &mut [u64],
    rows: &mut [i64],
    verdicts: &mut [u64],
    work: &mut [u64],
    prices: &mut [u64],
    queue: &mut [u64],
) -> Answer
    requires valid { let i = input_prepared prepared colouring.old moves.now rows.old verdicts.old work.old in Valid (given i) }
    requires sorted { SortedBy prepared }
    requires setting { SettingBy prepared queue.old }
    requires opening { let i = input_prepared prepared colouring.old moves.now rows.old verdicts.old work.old in Opening (plan_in i) colouring.old work.old prices.old }
    requires flown { FlownBy prepared }
    ensures { let i = input_prepared prepared.entry colouring.old moves.now rows.old verdicts.old work.old in left result colouring.new rows.new verdicts.new work.new ≡ ran i }
{
    let first = engine::begin(prepared, colouring, work, prices, queue);
    let last = turns::all_moves(prepared, moves, colouring, work, prices, queue, rows, first);
    let lists = prepared.lists;
    let figures = last.figures;
    let counts_end = lists.workloads.len() + lists.sectors as usize;
    let at = counts_end + lists.sectors as usize;
    conclude(lists, &work[counts_end..at], colouring, figures, verdicts);
    work[at] = figures.border;
    Answer {
        code: 0,
        place: 0,
        first: first.total,
        last: last.total,
    }
}

// Does what is asked of a call that has constraints of kind 5: the flights that visit each region are gathered first.
fn run_timed(
    prepared: Prepared,
    moves: &[u64],
    colouring: &mut [u64],
    rows: &mut [i64],
    verdicts: &mut [u64],
    work: &mut [u64],
    prices: &mut [u64],
    queue: &mut [u64],
) -> Answer
    requires valid { let i = input_prepared prepared colouring.old moves.now rows.old verdicts.old work.old in Valid (given i) }
    requires sorted { SortedBy prepared }
    requires setting { SettingBy prepared queue.old }
    requires opening { let i = input_prepared prepared colouring.old moves.now rows.old verdicts.old work.old in Opening (plan_in i) colouring.old work.old prices.old }
    requires priced { PricedBy prepared }
    ensures { let i = input_prepared prepared.entry colouring.old moves.now rows.old verdicts.old work.old in left result colouring.new rows.new verdicts.new work.new ≡ ran i }
{
    let mut room = [0u64; (MOST_REGIONS + MOST_FLIGHTS) as usize + 1];
    let mut numbers = [0u64; VISIT_LENGTH * (MOST_FLIGHTS * MOST_VISITS) as usize];
    let mut firsts = [0u64; VISIT_LENGTH * (MOST_FLIGHTS * MOST_VISITS) as usize];
    let lists = prepared.lists;
    let regions = lists.workloads.len();
    let starts = &mut room[..regions + lists.counts.len() + 1];
    gather_visitors(
        lists.counts,
        lists.visits,
        regions as u64,
        starts,
        &mut numbers,
        &mut firsts,
    );
    let visitors = Visitors {
        timed: prepared.visitors.timed,
        counts: lists.counts,
        visits: lists.visits,
        starts,
        numbers: &numbers,
        firsts: &firsts,
    };
    judge_all(
        Prepared {
            visitors,
            ..prepared
        },
        moves,
        colouring,
        rows,
        verdicts,
        work,
        prices,
        queue,
    )
}

// Does what is asked of a call that is not refused.
fn run(
    regions: u64,
    lists: Lists,
    moves: &[u64],
    colouring: &mut [u64],
    rows: &mut [i64],
    verdicts: &mut [u64],
    work: &mut [u64],
) -> Answer
    requires { let i = input_by regions lists colouring.old moves.now rows.old verdicts.old work.old in Valid (given i) }
    ensures { let i = input_by regions lists.entry colouring.old moves.now rows.old verdicts.old work.old in left result colouring.new rows.new verdicts.new work.new ≡ ran i }
{
    let mut room = [0u64; MOST_REGIONS as usize + 1];
    let mut near = [0u64; 2 * MOST_EDGES as usize];
    let mut areas = [0u64; 2 * MOST_EDGES as usize];
    let mut timed = [0u64; CONSTRAINT_LENGTH * MOST_CONSTRAINTS as usize];
    let mut shared = [0u64; CONSTRAINT_LENGTH * MOST_CONSTRAINTS as usize];
    let mut limited = [0u64; CONSTRAINT_LENGTH * MOST_CONSTRAINTS as usize];
    let mut prices = [0u64; MOST_SECTORS as usize];
    let mut queue = [0u64; MOST_REGIONS as usize + 1];
    let start = &mut room[..regions as usize + 1];
    let prices = &mut prices[..lists.sectors as usize];
    gather(lists.edges, start, &mut near, &mut areas);
    let whole = sum_of(lists.workloads);
    let constraints = lists.constraints;
    let shared_end = CONSTRAINT_LENGTH * pick(constraints, CONNECTED, BALANCED, &mut shared);
    let limited_end = CONSTRAINT_LENGTH * pick(constraints, BOUNDED, BOUNDED, &mut limited);
    let timed_end = CONSTRAINT_LENGTH * pick(constraints, DWELL, DWELL, &mut timed);
    let prepared = Prepared {
        lists,
        whole,
        shared: &shared[..shared_end],
        limited: &limited[..limited_end],
        faces: Faces {
            edges: lists.edges,
            start,
            near: &near,
            areas: &areas,
        },
        visitors: Visitors {
            timed: &timed[..timed_end],
            counts: lists.counts,
            visits: lists.visits,
            starts: &[],
            numbers: &[],
            firsts: &[],
        },
    };
    if timed_end == 0 {
        judge_all(
            prepared, moves, colouring, rows, verdicts, work, prices, &mut queue,
        )
    } else {
        run_timed(
            prepared, moves, colouring, rows, verdicts, work, prices, &mut queue,
        )
    }
}

// Judges a colouring of a plan, takes the moves in turn, and judges the last colouring; a call that is refused answers why and changes nothing.
pub fn judge(
    regions: u64,
    lists: Lists,
    colouring: &mut [u64],
    moves: &[u64],
    rows: &mut [i64],
    verdicts: &mut [u64],
    work: &mut [u64],
) -> Answer
    ensures { Promise (input_by regions lists.entry colouring.old moves.now rows.old verdicts.old work.old) (left result colouring.new rows.new verdicts.new work.new) }
{
    match call_refusal(
        regions,
        lists,
        colouring,
        moves,
        rows.len(),
        verdicts.len(),
        work.len(),
    ) {
        Err(refusal) => Answer {
            code: refusal.code,
            place: refusal.place,
            first: 0,
            last: 0,
        },
        Ok(()) => run(regions, lists, moves, colouring, rows, verdicts, work),
    }
}

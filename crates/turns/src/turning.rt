// One turn on the run record, which its owner lends.
ghost use Rattle.std.specs.Prelude.{◌≡◌, ◌≤◌, ◌<◌, length};
ghost use Rattle.sets.specs.Limits.{most_stations};
ghost use Rattle.method.specs.Board.{levels};
ghost use Rattle.turns.specs.Moves.{count_end, may_turn, left, brought, onward};
ghost use Rattle.turns.specs.Step.{step_of};

use super::cells;
use super::places::seat_of;
use method::{Did, Op, Row, Run};
use sets::limits::LAST_STATION;

// The operation of station i is made on the board: what it brought, or what the turn was where none is made.
#[tactic(auto, using(crate::proofs::Placing::seat_own), unfolding(method::specs::Board::with_line))]
fn perform(run: &mut Run, i: u8, op: Op) -> Result<u64, Did>
    requires first { 1 ≤ i }
    requires last { i ≤ most_stations }
    requires board { length run.old.board ≡ levels }
    ensures record { run.new ≡ left run.old i op }
    ensures told { result ≡ brought run.old op }
{
    match op {
        Op::Post { stocks } => {
            run.lines[seat_of(i)] = Some(stocks);
            Ok(0)
        }
        Op::Write {
            level,
            array,
            register,
            set,
        } => {
            cells::put_register(run, level, array, register, set);
            Ok(0)
        }
        Op::Read {
            level,
            array,
            register,
        } => Ok(cells::register_of(run, level, array, register)),
        Op::ReadLine { station } => cells::line_of(run, station).ok_or(Did::Unwritten),
        Op::Rest => Err(Did::Idle),
    }
}

// Station i's row after its operation brought v: it counts one turn more.
#[tactic(auto, using(crate::proofs::Stepping::going))]
fn onward(depth: u8, i: u8, row: Row, v: u64) -> Row
    requires first { 1 ≤ i }
    requires last { i ≤ most_stations }
    requires room { row.count < count_end }
    ensures { result ≡ onward depth i row v }
{
    Row {
        state: station::absorbed(depth, i, row.state, v),
        count: row.count + 1,
    }
}

// Whether i is a station of n, and its row has room in its count.
fn may_turn(n: u8, i: u8, count: u16) -> bool
    ensures { result ≡ may_turn n i count }
{
    match i {
        1..=LAST_STATION if i <= n => count < u16::MAX,
        _ => false,
    }
}

// One turn of station i, in place.
#[tactic(auto, using(crate::proofs::Stepping::steps))]
pub fn step(run: &mut Run, i: u8) -> Did
    ensures record { run.new ≡ (step_of run.old i).run }
    ensures told { result ≡ (step_of run.old i).did }
{
    let at = seat_of(i);
    let row = run.rows[at];
    if !may_turn(run.stations, i, row.count) {
        return Did::Nobody;
    }
    match perform(run, i, station::next_op(i, row.state)) {
        Ok(v) => {
            run.rows[at] = onward(run.depth, i, row, v);
            Did::Operation
        }
        Err(did) => did,
    }
}

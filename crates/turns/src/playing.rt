// An order of turns on the run record.
ghost use Rattle.std.specs.Prelude.{◌≡◌};
ghost use Rattle.method.specs.Demand.{is_settled};
ghost use Rattle.turns.specs.Playing.{is_unwritten, stepped, stops_at, played_of};

use super::places::seat_of;
use super::turning::step;
use method::{Did, Row, Run, State};

// The record when the turns are over, and how many were made: all, or those before the first that would read a line never written. A count,
// as the definitions have it (`stops_at`), and no mark for a stop.
#[derive(Drop)]
pub struct Played {
    pub run: Run,
    pub at: usize,
}

// Whether the turn would have read a line never written.
fn is_unwritten(did: Did) -> bool
    ensures { result ≡ is_unwritten did }
{
    matches!(did, Did::Unwritten)
}

// Whether the row's station has settled.
fn is_settled(row: &Row) -> bool
    ensures { result ≡ is_settled row.now.state }
{
    matches!(row.state, State::Settled { .. })
}

// Every turn of the order, one after the other, in place, and how many were made.
fn play(run: &mut Run, turns: &[u8]) -> usize
    ensures record { run.new ≡ stepped run.old turns.now (stops_at run.old turns.now) }
    ensures made { result ≡ stops_at run.old turns.now }
{
    for (t, &i) in turns.iter().enumerate() {
        // The turn of a settled station is idle, and most turns of a long order are: its row alone tells, and nothing is written back.
        if !is_settled(&run.rows[seat_of(i)]) && is_unwritten(step(run, i)) {
            return t;
        }
    }
    turns.len()
}

// The same for whoever hands the record over: no caller of this function lends it.
pub fn play_out(mut run: Run, turns: &[u8]) -> Played
    ensures { result ≡ played_of run turns.now }
{
    let at = play(&mut run, turns);
    Played { run, at }
}

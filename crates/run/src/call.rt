// The run call: the tests, the run, the answer.
ghost use Rattle.std.specs.Prelude.{◌≡◌, Ok, length};
ghost use Rattle.answer.specs.Answer.{answer_in};
ghost use Rattle.verdict.specs.Refusals.{tests};
ghost use Rattle.run.specs.Call.{verdict_of, answered};

use super::words::inputs_of;
use answer::told::put_answer;
use board::start::fresh;
use method::Row;
use sets::limits::STATIONS;
use turns::playing::play_out;
use verdict::Refusal;
use verdict::tests::tested;

// The answer from the rows of a run, which are handed over, so that the run is not kept beside them.
#[tactic(auto, using(answer::proofs::Laid::sixteen_put))]
fn write_answer(answer: &mut [u8], n: usize, rows: [Row; STATIONS])
    ensures { answer.new ≡ answer_in n rows answer.old }
{
    put_answer(answer, n, &rows);
}

// A call that passed the tests: it is run, and the answer is written after the last turn. In a function of its own, so that a call that
// does not pass them makes no record.
#[tactic(auto, using(crate::proofs::Agree::outcomes))]
fn carried_out(n: u64, inputs: &[u8], turns: &[u8], answer: &mut [u8]) -> Result<(), Refusal>
    requires { Ok tt ≡ tests n (length inputs.now) turns.now (length answer.old) }
    ensures verdict { result ≡ verdict_of n inputs.now turns.now answer.old }
    ensures bytes { answer.new ≡ answered n inputs.now turns.now answer.old }
{
    let out = play_out(fresh(n as u8, inputs_of(inputs)), turns);
    if out.at < turns.len() {
        return Err(Refusal::UnwrittenLine { at: out.at as u16 });
    }
    write_answer(answer, n as usize, out.run.rows);
    Ok(())
}

// n stations with their inputs, 8 bytes each, and an order of turns, a byte each; the answer takes 20 bytes a station.
// The order is run, and the answer is written after the last turn. A refusal leaves the answer untouched.
#[tactic(auto, using(crate::proofs::Agree::outcomes))]
pub fn run_call(n: u64, inputs: &[u8], turns: &[u8], answer: &mut [u8]) -> Result<(), Refusal>
    ensures verdict { result ≡ verdict_of n inputs.now turns.now answer.old }
    ensures bytes { answer.new ≡ answered n inputs.now turns.now answer.old }
{
    tested(n, inputs.len(), turns, answer.len())?;
    carried_out(n, inputs, turns, answer)
}

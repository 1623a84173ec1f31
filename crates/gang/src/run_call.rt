// The run call, for the RIP's host program.
ghost use Rattle.std.specs.Prelude.{◌≡◌};
ghost use Rattle.run.specs.Call.{returned, answered};

use run::call::run_call;
use verdict::number_of;

// n stations with their inputs, 8 bytes each, and an order of turns, a byte each; the answer takes 20 bytes a station.
// Returns 0, or the refusal plus 100 times its place, and then the answer is untouched.
#[unsafe(no_mangle)]
pub extern "C" fn gang_run(n: u64, inputs: &[u8], turns: &[u8], answer: &mut [u8]) -> u32
    ensures number { result ≡ returned n inputs.now turns.now answer.old }
    ensures bytes { answer.new ≡ answered n inputs.now turns.now answer.old }
{
    number_of(run_call(n, inputs, turns, answer))
}

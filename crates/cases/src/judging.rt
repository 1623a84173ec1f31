// Whether a plan prints its report, and a run call gives its answer.
use super::parts::Parts;
use page::PAGE;
use report::whole::print_plan;
use run::call::run_call;
use verdict::number_of;

// Room for the longest answer in the files, and more.
const ANSWER: usize = 512;

// An entry is the length of a plan, the plan, the length of its report, the report. A page has room for every report; it is lent
// here as in gangrun, since a function over both would be lent it too.
#[tactic(auto, using(report::proofs::Sizes::suffices))]
pub fn judge_plan(parts: &mut Parts) -> bool {
    let plan = parts.part();
    let report = parts.part();
    let mut page = [0; PAGE];
    let end = print_plan(plan, &mut page).unwrap();
    &page[..end] == report
}

// A run call, with the number that it has to return and the answer that it has to give.
#[derive(Clone, Copy)]
struct Call<'a> {
    stations: u32,
    inputs: &'a [u8],
    turns: &'a [u8],
    number: u32,
    answer: &'a [u8],
}

impl<'a> Call<'a> {
    // An entry is n, the length of the inputs, the inputs, the length of the turns, the turns, the length of the answer, the number
    // returned, the answer.
    fn next(parts: &mut Parts<'a>) -> Call<'a> {
        let stations = parts.number();
        let inputs = parts.part();
        let turns = parts.part();
        let size = parts.number();
        let number = parts.number();
        let answer = parts.bytes(size);
        Call {
            stations,
            inputs,
            turns,
            number,
            answer,
        }
    }

    // Whether the call returns that number and gives that answer. Every answer byte is EE hex before it.
    fn agrees(&self) -> bool {
        let mut room = [0xee; ANSWER];
        match room.get_mut(..self.answer.len()) {
            Some(answer) => {
                let outcome = run_call(u64::from(self.stations), self.inputs, self.turns, answer);
                number_of(outcome) == self.number && &*answer == self.answer
            }
            None => false,
        }
    }
}

pub fn judge_call(parts: &mut Parts) -> bool {
    Call::next(parts).agrees()
}

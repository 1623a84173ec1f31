// Reads a plan from standard input and prints its report. A read or a write that fails is told on standard error.
#![tactic(auto)]

ghost use Rattle.std.specs.Prelude.{◌≡◌, ◌+◌, length};
ghost use Rattle.text.specs.Limits.{most_bytes};

use input::read_all;
use page::PAGE;
use report::whole::print_plan;
use sets::limits::BYTES;
use std::io::Error;

const ROOM: usize = BYTES + 1;

// Room for the longest plan text, and for one byte more, which tells that a text is too long.
fn text_room() -> [u8; ROOM]
    ensures { most_bytes + 1 ≡ length result }
{
    [0; ROOM]
}

// What failed, and why. Where standard error fails too, nothing can be told.
fn tell(rt: &HostRuntime, what: &str, why: Error) {
    let _ = eprintln!(rt; "gangrun: {what}: {why}");
}

// A page has room for every report.
#[tactic(auto, using(report::proofs::Sizes::suffices))]
fn print_report(rt: &HostRuntime, plan: &[u8]) {
    let mut page = [0; PAGE];
    let end = print_plan(plan, &mut page).unwrap();
    if let Err(why) = rt.write_all(&page[..end]) {
        tell(rt, "standard output", why);
    }
}

// A text of which only a part was read is no plan: it is not run.
fn main(rt: HostRuntime) {
    let mut text = text_room();
    match read_all(&mut rt.stdin(), &mut text) {
        Ok(count) => print_report(&rt, &text[..count]),
        Err(why) => tell(&rt, "standard input", why),
    }
}

// Runs the vectors in data/: plans with their reports, and run calls with their answers. Each that differs is told by its number in
// the file, and at the end how many agree.
#![tactic(auto)]

ghost use Rattle.std.specs.Prelude.{◌≡◌, length, IfOk, IfSome};
ghost use Rattle.input.specs.Within.{IsPrefixLen};

use input::read_all;
use judging::{judge_call, judge_plan};
use parts::Parts;
use std::fs::File;
use std::{fmt, io};

mod judging;
mod parts;

// Room for a file.
const FILE: usize = 131072;

// How many entries agree, of how many.
#[derive(Clone, Copy)]
struct Tally {
    agree: usize,
    of: usize,
}

impl fmt::Display for Tally {
    fn fmt<W: fmt::Write>(&self, f: &mut fmt::Formatter<W>) -> fmt::Result {
        write!(f, "{} of {}", self.agree, self.of)
    }
}

// Every entry of a file, from the first on. One that differs is told. An entry takes a byte at least, so there are no more of them than bytes.
// Not inlined: what an entry needs of the stack is not taken while a file is read.
#[inline(never)]
fn run_all<F: Fn(&mut Parts) -> bool>(rt: &HostRuntime, path: &str, file: &[u8], judge: F) -> Tally
    requires { F.IsAlwaysCallable judge }
{
    let mut parts = Parts::new(file);
    let mut agree = 0;
    for entry in 0..file.len() {
        if parts.is_empty() {
            return Tally { agree, of: entry };
        }
        if judge(&mut parts) {
            agree += 1;
        } else {
            let _ = println!(rt; "{path} differs at entry {entry}");
        }
    }
    Tally {
        agree,
        of: file.len(),
    }
}

fn read_file(rt: &HostRuntime, path: &str, file: &mut [u8]) -> io::Result<usize>
    ensures { IfOk result (λ n. IsPrefixLen n file.new) }
{
    read_all(&mut File::open(rt, path)?, file)
}

// A file that cannot be read whole is told. Where standard error fails too, nothing can be told. Not inlined: what telling needs of the stack
// is not taken while entries are judged.
#[inline(never)]
fn read_or_tell(rt: &HostRuntime, path: &str, file: &mut [u8]) -> Option<usize>
    ensures { IfSome result (λ n. IsPrefixLen n file.new) }
{
    match read_file(rt, path, file) {
        Ok(count) => Some(count),
        Err(why) => {
            let _ = eprintln!(rt; "{path}: {why}");
            None
        }
    }
}

// A file that was not read has no entries. The room is lent, so that there is one for all files.
fn run_file<F: Fn(&mut Parts) -> bool>(
    rt: &HostRuntime,
    path: &str,
    file: &mut [u8],
    judge: F,
) -> Tally
    requires { F.IsAlwaysCallable judge }
{
    match read_or_tell(rt, path, file) {
        Some(count) => run_all(rt, path, &file[..count], judge),
        None => Tally { agree: 0, of: 0 },
    }
}

// How many entries of each file agree. Not inlined, for the same reason.
#[inline(never)]
fn tell(rt: &HostRuntime, plans: Tally, calls: Tally, long: Tally) {
    let _ = println!(rt; "{plans} plans, {calls} calls, {long} calls of J and K agree");
}

fn main(rt: HostRuntime) {
    let mut file = [0; FILE];
    let plans = run_file(&rt, "plans.bin", &mut file, judge_plan);
    let calls = run_file(&rt, "calls.bin", &mut file, judge_call);
    let long = run_file(&rt, "J_and_K.bin", &mut file, judge_call);
    tell(&rt, plans, calls, long);
}

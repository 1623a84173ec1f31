// The lines of a report, and the one of a refusal.
ghost use Rattle.std.specs.Prelude.{◌≡◌, ◌≤◌, length};
ghost use Rattle.page.specs.Lines.{refusal_line, run_line, stock_line, station_line, most_station};
ghost use Rattle.page.specs.Page.{put_behind};

use super::PAGE;
use super::fields::{Field, Page};
use answer::shown::Shown;
use method::State;

impl Page {
    // `NO`, number, place: all of a refusal, which has room on a new page. It takes any two numbers, as it always promised of any: a
    // refusal of a plan has the number of a fault alone, and to take one here would ask more of callers.
    #[tactic(auto, using(crate::proofs::Listed::refusal_fits), unfolding(crate::specs::Lines::refusal_line))]
    pub fn put_refusal(&mut self, number: u16, place: u16)
        ensures text { self.new ≡ put_behind self.old (refusal_line number place) }
        ensures upper_bound { length (refusal_line number place) ≤ PAGE }
    {
        self.put_line(b"NO", &[Field::Number(number), Field::Number(place)]);
    }

    // `RUN`, n, turns, idle turns.
    #[tactic(auto, unfolding(crate::specs::Lines::run_line))]
    pub(super) fn put_run(&mut self, n: u16, turns: u16, idle: u16)
        ensures { self.new ≡ put_behind self.old (run_line n turns idle) }
    {
        self.put_line(
            b"RUN",
            &[Field::Number(n), Field::Number(turns), Field::Number(idle)],
        );
    }

    // `STOCK`, number, code.
    #[tactic(auto, unfolding(crate::specs::Lines::stock_line))]
    pub(super) fn put_stock(&mut self, k: u16, code: &[u8])
        ensures { self.new ≡ put_behind self.old (stock_line k code.now) }
    {
        self.put_line(b"STOCK", &[Field::Number(k), Field::Code(code)]);
    }

    // `ST`, number, state, count, stations set, stocks set. Not from the row: how long a line is rests on the count's range, which is known
    // of a number that is passed.
    pub(super) fn put_station(&mut self, i: u16, state: State, count: u16)
        ensures text { self.new ≡ put_behind self.old (station_line i (record { state = state; count = count })) }
        ensures upper_bound { length (station_line i (record { state = state; count = count })) ≤ most_station }
    {
        let shown = Shown::from(state);
        self.put_line(
            b"ST",
            &[
                Field::Number(i),
                Field::Number(u16::from(u8::from(shown))),
                Field::Number(count),
                Field::Stations(shown),
                Field::Stocks(shown),
            ],
        );
    }
}

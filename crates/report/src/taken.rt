// A plan that is taken, and the report of its run.
ghost use Rattle.std.specs.Prelude.{◌≡◌, ◌^◌, ◌<◌};
ghost use Rattle.std.specs.List.{sum_by};
ghost use Rattle.page.specs.Page.{put_behind, codes_of};
ghost use Rattle.report.specs.Printed.{report};
ghost use Rattle.report.specs.Ready.{Ready};

use board::start::fresh;
use method::Row;
use page::fields::Page;
use page::listing::{Report, Stocks};
use sets::limits::STATIONS;
use turns::playing::play_out;

// A plan as it was read: how many stations, each one's input set, the stocks, the turns.
#[derive(Clone, Copy)]
pub(super) struct Taken<'a> {
    pub stations: u8,
    pub sets: [u64; STATIONS],
    pub stocks: Stocks<'a>,
    pub turns: &'a [u8],
}

// The turns that were operations: the rows' counts, added up.
fn counted(rows: &[Row]) -> usize
    requires { sum_by (λ row. row.count) rows.now < 2 ^ 64 }
    ensures { result ≡ sum_by (λ row. row.count) rows.now }
{
    rows.iter().map(|row| usize::from(row.count)).sum()
}

impl Taken<'_> {
    // Puts the report of its run. Not inlined: what a run needs of the stack is not taken while a plan is read or a report written.
    #[inline(never)]
    pub(super) fn put_report(&self, page: &mut Page)
        requires { Ready self.now.stations self.now.sets self.now.turns.now }
        ensures { page.new ≡ put_behind page.old (report self.now.stations self.now.sets (codes_of self.now.stocks) self.now.turns.now) }
    {
        let Taken {
            stations,
            sets,
            stocks,
            turns,
        } = *self;
        let played = play_out(fresh(stations, sets), turns);
        let rows = &played.run.rows;
        let idle = turns.len() - counted(&rows[..usize::from(stations)]);
        page.put_report(&Report {
            stations,
            turns: turns.len() as u16,
            idle: idle as u16,
            stocks,
            rows,
        });
    }
}

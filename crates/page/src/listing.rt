// The report.
ghost use Rattle.std.specs.Prelude.{◌≡◌, ◌*◌, ◌<◌, ◌≤◌, length, take};
ghost use Rattle.text.specs.Limits.{most_stations, most_stocks};
ghost use Rattle.page.specs.Lines.{stock_line, station_line, most_station, numbered, report_lines};
ghost use Rattle.page.specs.Page.{put_behind, code_at, codes_of};

use super::PAGE;
use super::fields::Page;
use method::Row;
use sets::limits::{CELLS, CODE, STATIONS, STOCKS};

// How many stocks there are, and their codes in their cells, each with its length. Of more stocks than cells only those that have a
// cell are shown, and of a code longer than its cell only as much as a cell has. The cells and the lengths stand apart, since a plan that
// is read is handed out so: they are two of the buffers that C lends.
#[derive(Clone, Copy)]
pub struct Stocks<'a> {
    pub count: usize,
    pub cells: &'a [u8; CELLS],
    pub lens: &'a [usize; STOCKS],
}

impl<'a> Stocks<'a> {
    // The code of stock k.
    fn code(&self, k: usize) -> &'a [u8]
        requires { k < most_stocks }
        ensures { result.now ≡ code_at self.now.cells.now self.now.lens.now k }
    {
        let start = k * CODE;
        &self.cells[start..start + self.lens[k].min(CODE)]
    }
}

// What a report tells: the numbers of its first line, the stocks, and the rows, of which the first are the stations'. Of more
// stations than rows only those that have a row are shown. The count stands beside all rows: one past them is told in the first line, and a
// slice of rows would ask more of callers.
#[derive(Clone, Copy)]
pub struct Report<'a> {
    pub stations: u8,
    pub turns: u16,
    pub idle: u16,
    pub stocks: Stocks<'a>,
    pub rows: &'a [Row; STATIONS],
}

impl Page {
    // A line for each stock that has a cell. The loop counts, since a stock's cell and its length stand in two arrays, where its number
    // finds them. One loop for these lines and those of the stations would take a closure over the page, and be no plainer than the two.
    fn put_stocks(&mut self, stocks: &Stocks)
        ensures { self.new ≡ put_behind self.old (numbered stock_line 0 (codes_of stocks.now)) }
    {
        for k in 0..stocks.count.min(STOCKS) {
            self.put_stock(k as u16, stocks.code(k));
        }
    }

    // A line for each of n stations that has a row.
    fn put_stations(&mut self, n: u8, rows: &[Row; STATIONS])
        ensures text { self.new ≡ put_behind self.old (numbered station_line 1 (take n rows.now)) }
        ensures upper_bound { length (numbered station_line 1 (take n rows.now)) ≤ most_stations * most_station }
    {
        for (i, row) in rows[..usize::from(n).min(STATIONS)].iter().enumerate() {
            self.put_station(i as u16 + 1, row.state, row.count);
        }
    }

    // Every line of a report, which has room on a new page.
    #[tactic(auto, using(crate::proofs::Listed::report_put, crate::proofs::Listed::report_fits))]
    pub fn put_report(&mut self, report: &Report)
        ensures text { self.new
            ≡ put_behind self.old (report_lines report.now.stations report.now.turns report.now.idle (codes_of report.now.stocks) report.now.rows.now) }
        ensures upper_bound { length (report_lines report.now.stations report.now.turns report.now.idle (codes_of report.now.stocks) report.now.rows.now) ≤ PAGE }
    {
        self.put_run(u16::from(report.stations), report.turns, report.idle);
        self.put_stocks(&report.stocks);
        self.put_stations(report.stations, report.rows);
    }
}

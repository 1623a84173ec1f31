// What is in hand of a plan while its lines are read, and how each line goes into it.
ghost use Rattle.std.specs.Prelude.{◌≡◌, ◌≤◌, ◌<◌, ◌*◌, length, map};
ghost use Rattle.text.specs.Limits.{most_stations, most_stocks, most_turns, most_code};
ghost use Rattle.text.specs.Text.{fields_of, lines_of};
ghost use Rattle.text.specs.Plan.{fresh, later_fields, later_lines};
ghost use Rattle.text.specs.Buffers.{padded, cells_of};
ghost use Rattle.plan.specs.Outs.{out, all_read, Stepped, counts_held};

use crate::buffers::{put_codes, put_turns};
use crate::line::{Fields, first_line, word};
use crate::stocks::Stocks;
use crate::turns::Turns;
use sets::limits::{CELLS, STATIONS, STOCKS, TURNS};
use std::marker::Model;
use text::{Counts, Fault, Refusal, Word};

// The number of stations, the stocks and the turns. Each part has methods of its own, so that a line that goes into one leaves the others
// as they are.
#[derive(Drop)]
pub(super) struct Hand {
    stations: u8,
    stocks: Stocks,
    turns: Turns,
}

impl Model for Hand {
    ghost use Rattle.std.specs.Prelude.{◌≤◌};
    ghost use Rattle.text.specs.Limits.{most_stations};
    ghost use Rattle.text.specs.Plan.{Held, held};

    ghost Value = { Held };

    ghost view = { λ h. held h.stations h.stocks h.turns };

    ghost invariant = { λ h. h.stations ≤ most_stations };
}

impl Hand {
    // No stock and no turn yet.
    pub(super) fn new(stations: u8) -> Self
        requires { stations ≤ most_stations }
        ensures { result ≡ fresh stations }
    {
        Hand {
            stations,
            stocks: Stocks::new(),
            turns: Turns::new(),
        }
    }

    // A line behind the first, in which no byte strays.
    fn take_line(&mut self, line: &[u8]) -> Result<(), Fault>
        ensures { out result self.new ≡ later_fields self.old (fields_of line.now) }
    {
        let mut fields = Fields::new(line);
        let Some(first) = fields.next() else {
            return Err(Fault::OtherWord);
        };
        match word(first) {
            Word::Has => self.stocks.has_line(self.stations, fields),
            Word::Turn => self.turns.turn_line(self.stations, fields),
            Word::Other => Err(Fault::OtherWord),
        }
    }

    // The first line of the text, and then the text behind it.
    #[tactic(auto, unfolding(text::specs::Plan::later_lines, text::specs::Plan::later_line))]
    fn take_first<'a>(&mut self, text: &'a [u8]) -> Result<&'a [u8], Fault>
        requires { 0 < length text.now }
        ensures { Stepped result text.entry.now self.old self.new }
    {
        let (line, rest) = first_line(text)?;
        self.take_line(line)?;
        Ok(rest)
    }

    // The lines of the text, of which the first is line 2. They are no iterator: the end of a line and its fault come of one scan, which
    // looks at each byte once, so the items would be a line or a fault, and the loop the same, with a type and its laws more.
    #[tactic(auto, using(crate::proofs::LastLines::lines_end))]
    pub(super) fn take_lines(&mut self, text: &[u8]) -> Result<(), Refusal>
        ensures { all_read result self.new ≡ later_lines 2 self.old (lines_of text.now) }
    {
        let mut rest = text;
        let mut place = 2;
        while !rest.is_empty() {
            rest = self
                .take_first(rest)
                .map_err(|fault| Refusal { fault, place })?;
            place += 1;
        }
        Ok(())
    }

    // The counts of what is in hand.
    pub(super) fn counts(&self) -> Counts
        ensures { result ≡ counts_held self.now }
    {
        Counts {
            stations: self.stations,
            stocks: self.stocks.codes.as_slice().len(),
            turns: self.turns.as_slice().len(),
        }
    }

    // Hands all of it out. The buffers are lent as the C interface has them.
    pub(super) fn hand_out(
        &self,
        sets: &mut [u64; STATIONS],
        codes: &mut [u8; CELLS],
        lens: &mut [usize; STOCKS],
        turns: &mut [u8; TURNS],
    )
        ensures sets { sets.new ≡ self.now.stocks.sets }
        ensures codes { codes.new ≡ padded (most_stocks * most_code) (cells_of self.now.stocks.codes) }
        ensures lens { lens.new ≡ padded most_stocks (map length self.now.stocks.codes) }
        ensures turns { turns.new ≡ padded most_turns self.now.turns }
    {
        *sets = self.stocks.sets;
        put_codes(self.stocks.codes.as_slice(), codes, lens);
        put_turns(self.turns.as_slice(), turns);
    }
}

// The stocks in hand: the codes, and the input set of each station.
ghost use Rattle.std.specs.Prelude.{◌≡◌, ◌≤◌, [], replicate};
ghost use Rattle.text.specs.Limits.{most_stations};
ghost use Rattle.text.specs.Plan.{stocked, has_line};
ghost use Rattle.plan.specs.Left.{fields_left};
ghost use Rattle.plan.specs.Outs.{out};

use crate::codes::Codes;
use crate::line::{Fields, station};
use sets::limits::STATIONS;
use std::marker::Model;
use text::Fault;

#[derive(Drop)]
pub(super) struct Stocks {
    pub(super) codes: Codes,
    pub(super) sets: [u64; STATIONS],
}

impl Model for Stocks {
    ghost use Rattle.text.specs.Plan.{Stocked, stocked};

    ghost Value = { Stocked };

    ghost view = { λ s. stocked s.codes s.sets };
}

impl Stocks {
    // No stock yet.
    pub(super) fn new() -> Self
        ensures { result ≡ stocked [] (replicate most_stations 0) }
    {
        Stocks {
            codes: Codes::new(),
            sets: [0; STATIONS],
        }
    }

    // The fields of a `HAS` line behind its word, where the plan is of so many stations.
    #[tactic(auto, unfolding(text::specs::Plan::has_line))]
    pub(super) fn has_line(&mut self, stations: u8, mut fields: Fields) -> Result<(), Fault>
        requires { stations ≤ most_stations }
        ensures { out result self.new ≡ has_line stations self.old (fields_left fields.entry) }
    {
        let Some(first) = fields.next() else {
            return Err(Fault::FewFields);
        };
        if fields.is_empty() {
            return Err(Fault::FewFields);
        }
        let i = usize::from(station(stations, first)? - 1);
        self.sets[i] = self.codes.take_codes(self.sets[i], fields)?;
        Ok(())
    }
}

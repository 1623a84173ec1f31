// The turns in hand.
ghost use Rattle.std.specs.Prelude.{◌≡◌, ◌≤◌, [], length};
ghost use Rattle.text.specs.Limits.{most_turns};
ghost use Rattle.text.specs.Plan.{take_turn, turn_line};
ghost use Rattle.plan.specs.Left.{fields_left};
ghost use Rattle.plan.specs.Outs.{out};

use crate::line::{Fields, station};
use arrayvec::ArrayVec;
use sets::limits::TURNS;
use std::marker::Model;
use text::Fault;

#[derive(Drop)]
pub(super) struct Turns {
    list: ArrayVec<u8, TURNS>,
}

impl Model for Turns {
    ghost use Rattle.std.specs.Prelude.{ℕ, List};

    ghost Value = { List ℕ };

    ghost view = { λ t. t.list.items };
}

impl Turns {
    // No turn yet.
    pub(super) fn new() -> Self
        ensures { result ≡ [] }
    {
        Turns {
            list: ArrayVec::new(),
        }
    }

    // The turns one after the other.
    pub(super) fn as_slice(&self) -> &[u8]
        ensures turns { result.now ≡ self.now }
        ensures most { length result.now ≤ most_turns }
    {
        self.list.as_slice()
    }

    // The field is one turn more, of one of so many stations.
    #[tactic(auto, unfolding(text::specs::Plan::take_turn))]
    fn take_turn(&mut self, stations: u8, field: &[u8]) -> Result<(), Fault>
        ensures { out result self.new ≡ take_turn stations self.old field.now }
    {
        let station = station(stations, field)?;
        if self.list.is_full() {
            return Err(Fault::MoreTurns);
        }
        self.list.push(station);
        Ok(())
    }

    // The fields of a `TURN` line behind its word.
    #[tactic(auto, unfolding(text::specs::Plan::each, text::specs::Plan::turn_line))]
    pub(super) fn turn_line(&mut self, stations: u8, fields: Fields) -> Result<(), Fault>
        ensures { out result self.new ≡ turn_line stations self.old (fields_left fields.entry) }
    {
        if fields.is_empty() {
            return Err(Fault::FewFields);
        }
        for field in fields {
            self.take_turn(stations, field)?;
        }
        Ok(())
    }
}

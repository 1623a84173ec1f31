// The codes in hand, in order of first appearance: the place of a code among them is the number of its stock.
ghost use Rattle.std.specs.Prelude.{◌≡◌, ◌≤◌, ◌<◌, [], length, get_or, IfSome, position};
ghost use Rattle.text.specs.Limits.{most_stocks, most_code};
ghost use Rattle.text.specs.Text.{same};
ghost use Rattle.text.specs.Plan.{holding, each, with_stock, add_stock, take_code};
ghost use Rattle.plan.specs.Key.{key_on};
ghost use Rattle.plan.specs.Left.{fields_left};
ghost use Rattle.plan.specs.Outs.{coded};

use crate::code::{Code, key_of};
use crate::line::Fields;
use arrayvec::ArrayVec;
use fields::code::code_len;
use sets::limits::STOCKS;
use std::marker::Model;
use text::Fault;

// The keys stand beside the codes, each at its code's place: a search goes along them alone.
#[derive(Drop)]
pub(super) struct Codes {
    list: ArrayVec<Code, STOCKS>,
    keys: ArrayVec<u64, STOCKS>,
}

impl Model for Codes {
    ghost use Rattle.std.specs.Prelude.{ℕ, List, ◌≡◌, map};
    ghost use Rattle.plan.specs.Key.{key_on};

    ghost Value = { List (List ℕ) };

    ghost view = { λ c. c.list.items };

    ghost invariant = { λ c. c.keys.items ≡ map (key_on 0) c.list.items };
}

impl Codes {
    // No code yet.
    pub(super) fn new() -> Self
        ensures { result ≡ [] }
    {
        Codes {
            list: ArrayVec::new(),
            keys: ArrayVec::new(),
        }
    }

    // The codes one after the other.
    pub(super) fn as_slice(&self) -> &[Code]
        ensures codes { result.now ≡ self.now }
        ensures most { length result.now ≤ most_stocks }
    {
        self.list.as_slice()
    }

    // Whether the code is stock k. Not inlined: the search would carry a place in the table of codes beside the number k.
    #[inline(never)]
    fn has_at(&self, k: usize, code: &[u8]) -> bool
        requires { k < length self.now }
        ensures { result ≡ same code.now (get_or self.now k []) }
    {
        self.list.as_slice()[k].is(code)
    }

    // The same of a code with this key. Where the keys differ the bytes do.
    #[tactic(auto, using(crate::proofs::Keys::compared))]
    fn is_at(&self, k: usize, code: &[u8], key: u64) -> bool
        requires known { k < length self.now }
        requires key { key ≡ key_on 0 code.now }
        ensures { result ≡ same code.now (get_or self.now k []) }
    {
        key == self.keys.as_slice()[k] && self.has_at(k, code)
    }

    // The number of the code, if it is known. The loop counts, and the keys have an array of their own: among many stocks most of a
    // plan's reading is this search, and the library's position over codes with their keys takes a quarter more.
    fn stock_of(&self, code: &[u8], key: u64) -> Option<usize>
        requires { key ≡ key_on 0 code.now }
        ensures found { result ≡ position (λ known. same code.now known) self.now }
        ensures below { IfSome result (λ k. k < most_stocks) }
    {
        for k in 0..self.list.len() {
            if self.is_at(k, code, key) {
                return Some(k);
            }
        }
        None
    }

    // The code goes into the set, and is a new stock if it is not known.
    #[tactic(auto, using(crate::proofs::StockWays::stock_ways))]
    fn add_stock(&mut self, set: u64, code: &[u8]) -> Result<u64, Fault>
        requires { length code.now ≤ most_code }
        ensures { coded result self.new ≡ add_stock (holding self.old set) code.now }
    {
        let key = key_of(code);
        if let Some(stock) = self.stock_of(code, key) {
            return Ok(with_stock(set, stock));
        }
        if self.list.is_full() {
            return Err(Fault::MoreStocks);
        }
        let stock = self.list.len();
        self.list.push(Code::new(code));
        self.keys.push(key);
        Ok(with_stock(set, stock))
    }

    // The field is a code, and goes into the set.
    #[tactic(auto, using(crate::proofs::StockWays::code_ways), unfolding(text::specs::Plan::take_code))]
    fn take_code(&mut self, set: u64, field: &[u8]) -> Result<u64, Fault>
        ensures { coded result self.new ≡ take_code (holding self.old set) field.now }
    {
        let Some(len) = code_len(field) else {
            return Err(Fault::BadCode);
        };
        self.add_stock(set, &field[..len])
    }

    // The fields, each a code.
    #[tactic(auto, unfolding(text::specs::Plan::each))]
    pub(super) fn take_codes(&mut self, mut set: u64, fields: Fields) -> Result<u64, Fault>
        ensures { coded result self.new ≡ each take_code (holding self.old set) (fields_left fields.entry) }
    {
        for field in fields {
            set = self.take_code(set, field)?;
        }
        Ok(set)
    }
}

// The set with stock k.
fn with_stock(set: u64, k: usize) -> u64
    requires { k < most_stocks }
    ensures { result ≡ with_stock set k }
{
    set | 1u64 << k
}

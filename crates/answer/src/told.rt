// The rows as answer bytes, twenty each.
ghost use Rattle.std.specs.Prelude.{◌≡◌, ◌++◌, ◌*◌, ◌≤◌, length, drop, nat_le, if◌then◌else◌};
ghost use Rattle.answer.specs.Answer.{row_bytes, answer_bytes, answer_in};

use super::shown::Shown;
use method::Row;
use sets::limits::STATIONS;

// The bytes of a row.
const ROW: usize = 20;

// Puts a row: its state, a zero byte, its count and its two sets.
fn put_row(dst: &mut [u8], row: &Row)
    requires { length dst.old ≡ ROW }
    ensures { dst.new ≡ row_bytes row.now }
{
    let shown = Shown::from(row.state);
    let (stations, stocks) = shown.sets();
    dst[0] = u8::from(shown);
    dst[1] = 0;
    dst[2..4].copy_from_slice(&row.count.to_le_bytes());
    dst[4..12].copy_from_slice(&stations.to_le_bytes());
    dst[12..20].copy_from_slice(&stocks.to_le_bytes());
}

// Puts the rows, one after the other. Not by chunks_exact_mut: what was written through a chunk is not known once its loan is over.
fn put_rows(answer: &mut [u8], rows: &[Row])
    requires { ROW * length rows.now ≤ length answer.old }
    ensures { answer.new ≡ answer_bytes (length rows.now) rows.now ++ drop (ROW * length rows.now) answer.old }
{
    for (i, row) in rows.iter().enumerate() {
        put_row(&mut answer[ROW * i..ROW * i + ROW], row);
    }
}

// Puts the first n rows into the answer; one that has no room for them stays as it was, and so it does where there are no n rows, or n is
// more than a run has.
#[tactic(auto, using(crate::proofs::Laid::outcomes))]
pub fn put_answer(answer: &mut [u8], n: usize, rows: &[Row])
    ensures { answer.new ≡ (if nat_le n (length rows.now) then answer_in n rows.now answer.old else answer.old) }
{
    if n <= STATIONS && n <= rows.len() && ROW * n <= answer.len() {
        put_rows(answer, &rows[..n]);
    }
}

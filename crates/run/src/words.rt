// The inputs, out of their bytes.
ghost use Rattle.std.specs.Prelude.{◌≡◌, ◌*◌, ◌%◌, ◌≤◌, length};
ghost use Rattle.sets.specs.Limits.{most_stations};
ghost use Rattle.run.specs.Inputs.{inputs_in};

use sets::limits::STATIONS;

// The inputs of as many stations as there are eights of bytes, and nothing for the others.
pub fn inputs_of(bytes: &[u8]) -> [u64; STATIONS]
    requires few { length bytes.now ≤ 8 * most_stations }
    requires whole { length bytes.now % 8 ≡ 0 }
    ensures { result ≡ inputs_in most_stations bytes.now }
{
    let mut inputs = [0; STATIONS];
    // Not by iter_mut: what was written through an item is not known once its loan is over.
    for (i, word) in bytes.as_chunks::<8>().0.iter().enumerate() {
        inputs[i] = u64::from_le_bytes(*word);
    }
    inputs
}

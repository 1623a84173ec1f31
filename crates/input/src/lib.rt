// Reading an input to its end.
#![tactic(auto)]

ghost use Rattle.std.specs.Prelude.{◌≤◌, length, unwrap_or, IfOk, IfErr};
ghost use Rattle.input.specs.Within.{IsPrefixLen, Gave, GaveSome, NoSignal};

use std::io;
use std::io::{Error, ErrorKind, Read};

// Reads once: so many bytes came, and there may be more; or `None` at the end. A full buffer is an end too. A read that a signal
// interrupted brought nothing and is to be made again.
fn read_some<R: Read>(reader: &mut R, rest: &mut [u8]) -> io::Result<Option<usize>>
    ensures count { IfOk result (λ came. unwrap_or came 0 ≤ length rest.old) }
    ensures bytes { IfOk result (λ came. GaveSome (R.remaining reader.old) (R.remaining reader.new) came rest.new) }
    ensures failure { IfErr result NoSignal }
{
    if rest.is_empty() {
        return Ok(None);
    }
    match reader.read(rest) {
        Ok(0) => Ok(None),
        Ok(count) => Ok(Some(count)),
        Err(error) if error.kind() == ErrorKind::Interrupted => Ok(Some(0)),
        Err(error) => Err(error),
    }
}

// Reads until the input ends or the buffer is full, and returns how many bytes came. Nothing says that an input ends, so the reads are
// counted, up to a number that no run uses up.
pub fn read_all<R: Read>(reader: &mut R, text: &mut [u8]) -> io::Result<usize>
    ensures within { IfOk result (λ n. IsPrefixLen n text.new) }
    ensures bytes { IfOk result (λ n. Gave (R.remaining reader.old) (R.remaining reader.new) n text.new) }
    ensures failure { IfErr result NoSignal }
{
    let mut at = 0;
    for _ in 0..u64::MAX {
        match read_some(reader, &mut text[at..])? {
            Some(count) => at += count,
            None => return Ok(at),
        }
    }
    Err(Error::other("the input does not end"))
}

#[cfg(test)]
mod tests {
    use super::*;

    // Gives two bytes a read. One read fails, with an error of this kind, and those after it go on.
    #[derive(Drop)]
    struct Uneven {
        rest: &'static [u8],
        reads: u32,
        bad: u32,
        kind: ErrorKind,
    }

    impl Read for Uneven {
        fn read(&mut self, buf: &mut [u8]) -> io::Result<usize> {
            let turn = self.reads;
            self.reads = turn.saturating_add(1);
            if turn == self.bad {
                return Err(self.kind.into());
            }
            let most = buf.len().min(2);
            self.rest.read(&mut buf[..most])
        }
    }

    // How many bytes of `abcde` were read into so much room, and what stands there then; or the kind of the failure.
    fn read_uneven(bad: u32, kind: ErrorKind, room: &mut [u8]) -> Result<usize, ErrorKind> {
        let mut reader = Uneven {
            rest: b"abcde",
            reads: 0,
            bad,
            kind,
        };
        read_all(&mut reader, room).map_err(|error| error.kind())
    }

    #[test]
    fn reads_to_the_end(rt: HostRuntime) {
        let mut room = [b'.'; 8];
        assert_eq!(rt; read_uneven(9, ErrorKind::Other, &mut room), Ok(5));
        assert_eq!(rt; room, *b"abcde...");
        let mut small = [b'.'; 3];
        assert_eq!(rt; read_uneven(9, ErrorKind::Other, &mut small), Ok(3));
        assert_eq!(rt; small, *b"abc");
    }

    #[test]
    fn reads_again_where_a_signal_came(rt: HostRuntime) {
        for bad in [0, 1, 3] {
            let mut room = [b'.'; 8];
            let read = read_uneven(bad, ErrorKind::Interrupted, &mut room);
            assert_eq!(rt; read, Ok(5), "at {bad}");
            assert_eq!(rt; room, *b"abcde...", "at {bad}");
        }
    }

    #[test]
    fn tells_a_failure(rt: HostRuntime) {
        for bad in [0, 1, 3] {
            let mut room = [b'.'; 8];
            let read = read_uneven(bad, ErrorKind::IsADirectory, &mut room);
            assert_eq!(rt; read, Err(ErrorKind::IsADirectory), "at {bad}");
        }
    }
}

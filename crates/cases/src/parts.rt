// The parts of a file: numbers of four bytes, and bytes that stand behind their length.

// What is left of a file. Where it ends too soon there is nothing more.
#[derive(Clone, Copy)]
pub struct Parts<'a> {
    rest: &'a [u8],
}

impl<'a> Parts<'a> {
    pub fn new(file: &'a [u8]) -> Parts<'a> {
        Parts { rest: file }
    }

    pub fn is_empty(&self) -> bool {
        self.rest.is_empty()
    }

    // The next number, little-endian.
    pub fn number(&mut self) -> u32 {
        match self.rest.split_first_chunk::<4>() {
            Some((number, rest)) => {
                self.rest = rest;
                u32::from_le_bytes(*number)
            }
            None => {
                self.rest = &[];
                0
            }
        }
    }

    // The next bytes, so many. No From goes from a u32 to a usize.
    pub fn bytes(&mut self, count: u32) -> &'a [u8] {
        match self.rest.split_at_checked(count as usize) {
            Some((bytes, rest)) => {
                self.rest = rest;
                bytes
            }
            None => {
                self.rest = &[];
                &[]
            }
        }
    }

    // The next bytes, behind their length.
    pub fn part(&mut self) -> &'a [u8] {
        let count = self.number();
        self.bytes(count)
    }
}

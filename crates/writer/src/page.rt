// A lent buffer, and the next place in it.
ghost use Rattle.std.specs.Prelude.{◌≡◌, [], ◌∷◌};
ghost use Rattle.value.specs.Values.{bytes};
ghost use Rattle.writer.specs.Laws.Pages.{Opens, Puts};

use super::bytes;

#[derive(Drop)]
pub struct Page<'a> {
    out: &'a mut [u8],
    at: usize,
}

impl<'a> Page<'a> {
    // From byte 0 on.
    pub fn new(out: &'a mut [u8]) -> Page<'a>
        ensures { Opens out.entry result }
    {
        Page { out, at: 0 }
    }

    // The next place: how many bytes were put, also those that did not fit. Counting stops at the first length that is refused.
    pub fn at(&self) -> usize
        ensures { result ≡ self.now.at }
    {
        self.at
    }

    // One byte.
    pub fn put(&mut self, byte: u8)
        ensures { Puts self.old (byte ∷ []) self.new }
    {
        self.at = bytes::put(self.out, self.at, byte);
    }

    // All of these.
    pub fn put_all(&mut self, bytes: &[u8])
        ensures { Puts self.old bytes.now self.new }
    {
        for &byte in bytes {
            self.put(byte);
        }
    }

    // The two lowest bytes of a number, low byte first.
    pub fn put_two(&mut self, n: usize)
        ensures { Puts self.old (bytes 2 n) self.new }
    {
        self.at = bytes::put_two(self.out, self.at, n);
    }

    // The four lowest.
    pub fn put_four(&mut self, n: usize)
        ensures { Puts self.old (bytes 4 n) self.new }
    {
        self.at = bytes::put_four(self.out, self.at, n);
    }
}

// One piece of code sets bytes: what does not fit the lent buffer is not stored, and is counted all the same; and where the text that it is held
// against has another byte, there is no going on.
ghost use Rattle.std.specs.Prelude.{◌≡◌, ◌↔◌, IsTrue, ◌^◌, ◌<◌, [], ◌∷◌, length, set, replicate};
ghost use Rattle.std.proofs.lemmas.List.Edits.{sets};
ghost use Rattle.value.specs.Values.{unword};
ghost use Rattle.ctext.specs.Pieces.{digits, decimal, whole};
ghost use Rattle.typeset.specs.Page.{otherwise, agreeing, lent, IsPast, Begins, Put};

// 10 digits are enough for 32 bits.
const DIGITS: u8 = 10;

// As many spaces as a line of a text begins with, at most.
const SPACES: &[u8] = &[b' '; 32];

// How many bytes of a piece the text agrees with from a place on. Past its end it agrees with all.
fn same_from(text: &[u8], at: usize, piece: &[u8]) -> usize
    ensures counted { result ≡ agreeing text.now at piece.now }
    ensures fits { at < 2 ^ 64 }
{
    let near = piece.len().min(text.len().saturating_sub(at));
    for i in 0..near {
        if text[at + i] != piece[i] {
            return i;
        }
    }
    piece.len()
}

// Stores bytes from a place on, each where the buffer has a place for it.
fn store_all(out: &mut [u8], at: usize, bytes: &[u8])
    ensures stored { out.new ≡ sets out.old at bytes.now }
    ensures fits { length out.old < 2 ^ 64 }
{
    let near = bytes.len().min(out.len().saturating_sub(at));
    for i in 0..near {
        out[at + i] = bytes[i];
    }
}

// A lent buffer, the text that it is held against, and the place where the text goes on: none, once it had another byte.
#[derive(Drop)]
pub struct Page<'a> {
    text: &'a [u8],
    out: &'a mut [u8],
    at: Option<usize>,
}

impl<'a> Page<'a> {
    // At the start.
    pub fn new(text: &'a [u8], out: &'a mut [u8]) -> Page<'a>
        ensures same_reference { result.out.ghost_name ≡ out.entry.ghost_name }
        ensures begins { Begins text.now out.old result }
    {
        Page {
            text,
            out,
            at: Some(0),
        }
    }

    // Where the text goes on.
    pub fn end(&self) -> Option<usize>
        ensures { result ≡ self.now.at }
    {
        self.at // none, once the text had another byte
    }

    // Whether the text has another byte at a place.
    fn differs(&self, at: usize, byte: u8) -> bool
        ensures { result ≡ otherwise self.now.text.now at byte }
    {
        at < self.text.len() && self.text[at] != byte
    }

    // Whether a place is past the ends of both.
    fn is_past(&self, at: usize) -> bool
        ensures { IsTrue result ↔ IsPast self.now at }
    {
        self.text.len() <= at && self.out.len() <= at
    }

    // Stores a byte where the buffer has a place for it.
    fn store(&mut self, at: usize, byte: u8)
        ensures stored { self.new.out.now ≡ set self.old.out.now at byte }
        ensures kept { lent self.new ≡ lent self.old }
    {
        if at < self.out.len() {
            self.out[at] = byte;
        }
    }

    // One byte.
    pub fn put(&mut self, byte: u8)
        ensures { Put self.old (byte ∷ []) self.new }
    {
        let Some(at) = self.at else {
            return;
        };
        if self.differs(at, byte) {
            self.at = None;
            return;
        }
        self.store(at, byte);
        self.at = at.checked_add(1);
    }

    // A piece: what agrees with the text is stored in one go.
    pub fn put_all(&mut self, piece: &[u8])
        ensures { Put self.old piece.now self.new }
    {
        let Some(at) = self.at else {
            return;
        };
        // Past both ends there is only counting.
        if self.is_past(at) {
            self.at = at.checked_add(piece.len());
            return;
        }
        let same = same_from(self.text, at, piece);
        store_all(self.out, at, &piece[..same]);
        self.at = if same < piece.len() {
            None
        } else {
            at.checked_add(same)
        };
    }

    // So many spaces.
    pub fn put_spaces(&mut self, n: usize)
        ensures { Put self.old (replicate n 32) self.new }
    {
        if n <= SPACES.len() {
            return self.put_all(&SPACES[..n]);
        }
        for _ in 0..n {
            self.put(b' ');
        }
    }

    // The digits of n, at most so many of them.
    fn put_digits(&mut self, most: u8, n: u64)
        ensures { Put self.old (digits most n) self.new }
    {
        if most == 0 {
            return;
        }
        if 10 <= n {
            self.put_digits(most - 1, n / 10);
        }
        self.put(b'0' + (n % 10) as u8);
    }

    // A number in decimal.
    pub fn put_number(&mut self, n: usize)
        ensures { Put self.old (decimal n) self.new }
    {
        self.put_digits(DIGITS, n as u64);
    }

    // The whole number of 32 bits.
    pub fn put_whole(&mut self, n: u32)
        ensures { Put self.old (whole (unword n)) self.new }
    {
        if n < 1 << 31 {
            return self.put_number(n as usize);
        }
        self.put(b'-');
        self.put_number(n.wrapping_neg() as usize);
    }
}

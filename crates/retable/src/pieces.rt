// Bytes and numbers of a text. All of it is total: past the end of a text there are zeros, and nothing goes further.
ghost use Rattle.std.specs.Prelude.{◌+◌, ◌≡◌, get_or};
ghost use Rattle.retable.specs.Laws.Pieces.{Skips, ReadsNumber};

// A number in a text, and where it ends.
// stays: a number that is read is no count, so that one struct for both would say less.
#[derive(Clone, Copy)]
pub struct Numbered {
    pub number: u64,
    pub next: usize,
}

// The byte that stands n bytes behind a place.
#[tactic(auto, using(crate::proofs::Places::place_ways))]
pub fn peek(x: &[u8], at: usize, n: usize) -> u8
    ensures { result ≡ get_or x.now (at + n) 0 }
{
    if x.len() <= at || x.len() - at <= n {
        return 0;
    }
    x[at + n]
}

// The place n bytes further.
pub fn skip(x: &[u8], at: usize, n: usize) -> usize
    ensures { Skips x.now at n result }
{
    if x.len() < at || x.len() - at < n {
        return at;
    }
    at + n
}

// The number whose digits begin at a place. Ours have at most ten of them.
pub fn number(x: &[u8], at: usize) -> Numbered
    ensures { ReadsNumber x.now at result }
{
    let mut n = 0u64;
    let mut i = at;
    // stays: where it ends is the answer, also for a place past the end of the text, which a range would forget.
    while i < x.len() {
        let b = x[i];
        if b < 48 {
            return Numbered { number: n, next: i };
        }
        if b > 57 {
            return Numbered { number: n, next: i };
        }
        if n > 999999999 {
            return Numbered { number: n, next: i };
        }
        n = n * 10 + (b - 48) as u64;
        i += 1;
    }
    Numbered { number: n, next: i }
}

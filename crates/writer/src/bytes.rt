// One piece of code writes: what does not fit the lent buffer is not stored, and is counted all the same.
ghost use Rattle.std.specs.Prelude.{[], ◌∷◌, ◌≤◌, length};
ghost use Rattle.std.proofs.Math.Seq.{slice};
ghost use Rattle.value.specs.Values.{bytes};
ghost use Rattle.writer.specs.Laws.Put.{Put};

use basics::numbers::FAR;

// One byte.
pub fn put(out: &mut [u8], at: usize, byte: u8) -> usize
    ensures { Put out.old at (byte ∷ []) out.new result }
{
    if at < out.len() {
        out[at] = byte;
    }
    // Counting stops at the first length that is refused.
    if at < FAR { at + 1 } else { at }
}

// The two lowest bytes of a number, low byte first.
pub fn put_two(out: &mut [u8], at: usize, n: usize) -> usize
    ensures { Put out.old at (bytes 2 n) out.new result }
{
    let [low, high, ..] = n.to_le_bytes();
    let p = put(out, at, low);
    put(out, p, high)
}

// The four lowest.
pub fn put_four(out: &mut [u8], at: usize, n: usize) -> usize
    ensures { Put out.old at (bytes 4 n) out.new result }
{
    let p = put_two(out, at, n);
    put_two(out, p, n / 65536)
}

// The bytes of t from `from` up to `until`.
pub fn put_part(t: &[u8], from: usize, until: usize, out: &mut [u8], at: usize) -> usize
    requires { until ≤ length t.now }
    ensures { Put out.old at (slice from until t.now) out.new result }
{
    let mut p = at;
    for i in from..until {
        p = put(out, p, t[i]);
    }
    p
}

// Numbers that are known to stand in a table, low byte first.
// stays: the checked ones of basics::bytes cost 22 instructions a step on b (92.4 against 70.6), 20 on c (133.9 against 113.8), counted in an unproved build
ghost use Rattle.std.specs.Prelude.{◌≡◌, ◌+◌, ◌≤◌, ◌<◌, length, get_or};
ghost use Rattle.basics.specs.Places.{number_at};

use basics::bytes::{join, pair};

// The number of one byte.
pub fn byte(t: &[u8], at: usize) -> usize
    requires { at < length t.now }
    ensures { (result ≡ get_or t.now at 0) × (result < 256) }
{
    t[at] as usize
}

// The number of two.
pub fn two(t: &[u8], at: usize) -> u16
    requires { at + 2 ≤ length t.now }
    ensures { result ≡ number_at 2 t.now at }
{
    pair(t[at], t[at + 1])
}

// The number of four.
pub fn four(t: &[u8], at: usize) -> u32
    requires { at + 4 ≤ length t.now }
    ensures { result ≡ number_at 4 t.now at }
{
    join(two(t, at), two(t, at + 2))
}

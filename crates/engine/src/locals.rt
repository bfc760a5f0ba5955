// The locals of frames: a row of words, as long as its machine needs, of which each frame has FRAME.
ghost use Rattle.std.specs.Prelude.{◌≡◌, ◌+◌, ◌≤◌, ◌<◌, length, get_or};
ghost use Rattle.value.specs.Values.{given};
ghost use Rattle.engine.specs.Words.{value_in};
ghost use Rattle.engine.specs.Work.{Puts, Clears};

use super::word;
use value::{Reason, Value};

// What local `x` of the frame at `base` holds.
pub fn get(locals: &[u64], base: usize, x: usize) -> Result<Value, Reason>
    requires { base + x < length locals.now }
    ensures { given result ≡ value_in (get_or locals.now (base + x) 0) }
{
    word::unpack(locals[base + x])
}

// Sets local `x` of the frame at `base`.
pub fn put(locals: &mut [u64], base: usize, x: usize, v: Value)
    requires { base + x < length locals.old }
    ensures { Puts locals.old locals.new (base + x) v }
{
    locals[base + x] = word::pack(v);
}

// The words from `from` up to `to` are not set.
pub fn clear(locals: &mut [u64], from: usize, to: usize)
    requires { (from ≤ to) × (to ≤ length locals.old) }
    ensures { Clears locals.old locals.new from to }
{
    locals[from..to].fill(0);
}

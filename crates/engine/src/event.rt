// Events in a lent buffer: "Events that fit whole are written, later ones only counted".
ghost use Rattle.std.specs.Prelude.{◌≡◌, ◌+◌, ◌/◌, ◌≤◌, ◌<◌, length};
ghost use Rattle.std.proofs.lemmas.List.Edits.{sets};
ghost use Rattle.value.specs.Values.{bytes};
ghost use Rattle.semantics.specs.Buffers.{way_byte, event_size};
ghost use Rattle.engine.specs.Events.{way_of, event_of, with_event};

use basics::bytes;
use basics::numbers::{CELL, EVENT};
use value::Value;

// The thread that reads or writes, the cell, the value, and the label of the step: in the sequential machine the number of the procedure.
#[derive(Clone, Copy)]
pub struct Event {
    pub thread: u8,
    pub writes: bool,
    pub location: usize,
    pub index: usize,
    pub value: Value,
    pub label: usize,
}

// The two low bytes of a number, the lowest first.
fn write_two(out: &mut [u8], at: usize, n: usize)
    requires { at + 2 ≤ length out.old }
    ensures { out.new ≡ sets out.old at (bytes 2 n) }
{
    let high = n / 256;
    out[at] = (n % 256) as u8;
    out[at + 1] = (high % 256) as u8;
}

// "0 read or 1 write".
fn way(writes: bool) -> u8
    ensures { result ≡ way_byte (way_of writes) }
{
    u8::from(writes)
}

// "thread, 0 read or 1 write, location (2), index (2), value (5)", label (2): event number `count`, which fits whole.
#[inline(never)]
fn store_event(out: &mut [u8], count: usize, e: Event)
    requires { count < length out.old / event_size }
    ensures { out.new ≡ with_event out.old count (event_of e) }
{
    let at = count * EVENT;
    let value = e.value;
    out[at] = e.thread;
    out[at + 1] = way(e.writes);
    write_two(out, at + 2, e.location);
    write_two(out, at + 4, e.index);
    bytes::write_value(out, at + 6, value);
    write_two(out, at + 6 + CELL, e.label);
}

// Event number `count`, if it fits whole. The test is made in the caller's place: an event that is only counted costs no call.
#[inline]
pub fn write_event(out: &mut [u8], count: usize, e: Event)
    ensures { out.new ≡ with_event out.old count (event_of e) }
{
    if count < out.len() / EVENT {
        store_event(out, count, e);
    }
}

// The five bytes of a value, and numbers of several bytes, low byte first.
ghost use Rattle.std.specs.Prelude.{◌≡◌, ◌+◌, ◌*◌, ◌≤◌, length, get_or};
ghost use Rattle.std.proofs.lemmas.List.Edits.{sets};
ghost use Rattle.value.specs.Try.{or_lacks};
ghost use Rattle.value.specs.declared.Reason.TheVariants.{WrongKind};
ghost use Rattle.value.specs.Values.{given, bytes, word, unword, cell_size};
ghost use Rattle.basics.specs.Places.{cell_kind, cell_number, value_of, number_at, room, with_value};

use super::numbers::CELL;
use value::{Reason, Value};

// A whole number's 32 bits, in two's complement.
fn bits_of(a: i32) -> u32
    ensures { result ≡ word a }
{
    a.cast_unsigned()
}

// The whole number of 32 bits.
pub fn number_of(n: u32) -> i32
    ensures { result ≡ unword n }
{
    n.cast_signed()
}

// The byte at a place: 0 past the end.
pub fn byte_at(t: &[u8], at: usize) -> u8
    ensures { result ≡ get_or t.now at 0 }
{
    t.get(at).copied().unwrap_or(0)
}

// The number of two bytes, the low one first.
pub fn pair(low: u8, high: u8) -> u16
    ensures { result ≡ low + 256 * high }
{
    u16::from_le_bytes([low, high])
}

// The number of two pairs of bytes, the low one first.
pub fn join(low: u16, high: u16) -> u32
    ensures { result ≡ low + 65536 * high }
{
    (low as u32) + 65536 * (high as u32)
}

// The number of two bytes at a place: those past the end count as 0.
pub fn two_bytes(t: &[u8], at: usize) -> u16
    ensures { result ≡ number_at 2 t.now at }
{
    if 1 < t.len() {
        if at < t.len() - 1 {
            return pair(t[at], t[at + 1]);
        }
    }
    byte_at(t, at) as u16
}

// The number of four bytes at a place: those past the end count as 0.
pub fn four_bytes(t: &[u8], at: usize) -> u32
    ensures { result ≡ number_at 4 t.now at }
{
    if 3 < t.len() {
        if at < t.len() - 3 {
            let second = at + 1;
            let third = second + 1;
            let fourth = third + 1;
            return join(pair(t[at], t[second]), pair(t[third], t[fourth]));
        }
    }
    three_bytes(t, at)
}

// The number of three.
fn three_bytes(t: &[u8], at: usize) -> u32
    ensures { result ≡ number_at 3 t.now at }
{
    if at < t.len() {
        let second = at + 1;
        let third = second + 1;
        return join(two_bytes(t, at), byte_at(t, third) as u16);
    }
    0
}

// The kind byte of a value.
pub fn cell_kind(v: Value) -> u8
    ensures { result ≡ cell_kind v }
{
    match v {
        Value::Whole(_) => 1,
        Value::Location(_) => 2,
        Value::Truth(b) => { if b { 4 } else { 3 } }
    }
}

// The number that follows it.
pub fn cell_number(v: Value) -> u32
    ensures { result ≡ cell_number v }
{
    match v {
        Value::Whole(a) => bits_of(a),
        Value::Location(l) => l as u32,
        Value::Truth(_) => 0,
    }
}

// The value of a kind byte and a number.
pub fn value_of(kind: u8, n: u32) -> Result<Value, Reason>
    ensures { given result ≡ or_lacks WrongKind (value_of kind n) }
{
    if kind == 1 {
        return Ok(Value::Whole(number_of(n)));
    }
    if kind == 2 {
        if n < 65536 {
            return Ok(Value::Location(n as u16));
        }
        return Err(Reason::WrongKind);
    }
    if n == 0 {
        if kind == 3 {
            return Ok(Value::Truth(false));
        }
        if kind == 4 {
            return Ok(Value::Truth(true));
        }
    }
    Err(Reason::WrongKind)
}

// The four bytes of a number.
fn write_four(out: &mut [u8], at: usize, n: u32)
    requires { at + 4 ≤ length out.old }
    ensures { out.new ≡ sets out.old at (bytes 4 n) }
{
    let second = n / 256;
    let third = second / 256;
    let fourth = third / 256;
    out[at] = (n % 256) as u8;
    out[at + 1] = (second % 256) as u8;
    out[at + 2] = (third % 256) as u8;
    out[at + 3] = (fourth % 256) as u8;
}

// A value's five bytes, if all fit: whether they do.
pub fn write_value(out: &mut [u8], at: usize, v: Value) -> bool
    ensures { (result ≡ room out.old at cell_size) × (out.new ≡ with_value out.old at v) }
{
    if out.len() < CELL {
        return false;
    }
    if out.len() - CELL < at {
        return false;
    }
    out[at] = cell_kind(v);
    write_four(out, at + 1, cell_number(v));
    true
}

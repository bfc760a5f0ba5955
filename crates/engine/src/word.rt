// Values at work: a value is one word, its kind byte and its number as in a cell's five bytes.
ghost use Rattle.std.specs.Prelude.{◌≡◌};
ghost use Rattle.value.specs.Maybe.{is};
ghost use Rattle.value.specs.Values.{given};
ghost use Rattle.engine.specs.Words.{held, value_in};

use value::{Reason, Value};

// "All cells start as number 0": the word of that number.
pub const ZERO: u64 = 4294967296;

// A kind byte counts so much: the words of numbers lie from here on.
pub const KIND: u64 = 4294967296;

// The word of "not set", and of an answer that there is none.
pub const NOTHING: u64 = 0;

// The words of false and true, and of location 0: those of locations lie from there on.
pub const FALSE: u64 = 12884901888;

pub const TRUE: u64 = 17179869184;

pub const FIRST_LOCATION: u64 = 8589934592;

// The word that holds a value.
pub fn pack(v: Value) -> u64
    ensures { held result ≡ is v }
{
    KIND * (basics::bytes::cell_kind(v) as u64) + (basics::bytes::cell_number(v) as u64)
}

// The value that a word holds.
pub fn unpack(w: u64) -> Result<Value, Reason>
    ensures { given result ≡ value_in w }
{
    basics::bytes::value_of((w / KIND % 256) as u8, (w % KIND) as u32)
}

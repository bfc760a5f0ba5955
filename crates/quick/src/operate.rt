// The operators on two words. Nothing is asked of a word but what it shows: its kind, and its number.
ghost use Rattle.std.specs.Prelude.{◌≡◌, ◌%◌, ◌^◌};
ghost use Rattle.value.specs.Maybe.{is};
ghost use Rattle.value.specs.Values.{whole, unword};
ghost use Rattle.value.specs.declared.Value.TheVariants.{Truth};
ghost use Rattle.engine.specs.Words.{held};
ghost use Rattle.quick.specs.Brief.{Claims, Wholes, SaysTruth, Operates};

use basics::{bytes, marks};
use engine::word;
use engine::word::{FALSE, KIND, NOTHING, TRUE};
use value::Value;

const LOWEST: i64 = -2147483648;

const HIGHEST: i64 = 2147483647;

// The whole number of a word of that kind.
fn whole(w: u64) -> i32
    ensures { result ≡ unword (w % 2 ^ 32) }
{
    bytes::number_of((w % KIND) as u32)
}

// The word of a whole number: "nothing wraps and nothing is clamped".
fn narrow(x: i64) -> u64
    ensures { Claims result (whole x) }
{
    if x < LOWEST {
        return NOTHING;
    }
    if HIGHEST < x {
        return NOTHING;
    }
    word::pack(Value::Whole(x as i32))
}

// The word of a truth value.
fn truth(b: bool) -> u64
    ensures { held result ≡ is (Truth b) }
{
    if b { TRUE } else { FALSE }
}

// Add, subtract, multiply, less and equal of two whole numbers.
fn wholes(mark: u8, a: i32, b: i32) -> u64
    ensures { Wholes mark a b result }
{
    match mark {
        marks::ADD => narrow((a as i64) + (b as i64)),
        marks::SUBTRACT => narrow((a as i64) - (b as i64)),
        marks::MULTIPLY => narrow((a as i64) * (b as i64)),
        marks::LESS => truth(a < b),
        _ => NOTHING,
    }
}

// "equal (two of one kind)", of two whole numbers.
fn equal(left: u64, right: u64) -> u64
    ensures { Operates 0x14 left right result }
{
    if left / KIND != 1 {
        return NOTHING;
    }
    if right / KIND != 1 {
        return NOTHING;
    }
    truth(left == right)
}

// Is it the word of a truth value?
fn is_truth(w: u64) -> bool
    ensures { SaysTruth w result }
{
    if w == FALSE {
        return true;
    }
    w == TRUE
}

// "and" of two truth values. Both sides must have their words, so that it is known where the right one ends.
fn and(left: u64, right: u64) -> u64
    ensures { Operates 0x15 left right result }
{
    if is_truth(right) {
        if left == FALSE {
            return FALSE;
        }
        if left == TRUE {
            return right;
        }
    }
    NOTHING
}

// The word of what the operator of a mark gives of two words: of two truth values, or of two whole numbers. NOTHING in all other cases.
pub fn operate(mark: u8, left: u64, right: u64) -> u64
    ensures { Operates mark left right result }
{
    if mark == marks::EQUAL {
        return equal(left, right);
    }
    if mark == marks::AND {
        return and(left, right);
    }
    if left / KIND != 1 {
        return NOTHING;
    }
    if right / KIND != 1 {
        return NOTHING;
    }
    wholes(mark, whole(left), whole(right))
}

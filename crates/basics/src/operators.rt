// The operators on values. A result outside the range is no value, and so is that of an operand of the wrong kind.
ghost use Rattle.std.specs.Prelude.{◌≡◌};
ghost use Rattle.value.specs.Values.{given, apply₁, apply₂, not, neg, add, sub, mul, less, equal, and};
ghost use Rattle.value.specs.Marks.{mark_of};
ghost use Rattle.basics.specs.Operands.{numbers_of, Narrows};
ghost use Rattle.basics.specs.Columns.{applied₁, applied₂};

use super::marks;
use value::{Reason, Value};

// Two whole numbers, of two values.
fn wholes(left: Value, right: Value) -> Result<(i32, i32), Reason>
    ensures { result ≡ numbers_of left right }
{
    let Value::Whole(a) = left else {
        return Err(Reason::WrongKind);
    };
    let Value::Whole(b) = right else {
        return Err(Reason::WrongKind);
    };
    Ok((a, b))
}

// The whole number, where it is in the range: "nothing wraps and nothing is clamped".
fn in_range(checked: Option<i32>) -> Result<Value, Reason>
    ensures { Narrows checked result }
{
    Ok(Value::Whole(checked.ok_or(Reason::OutOfRange)?))
}

pub fn add(left: Value, right: Value) -> Result<Value, Reason>
    ensures { given result ≡ apply₂ add left right }
{
    let (a, b) = wholes(left, right)?;
    in_range(a.checked_add(b))
}

pub fn subtract(left: Value, right: Value) -> Result<Value, Reason>
    ensures { given result ≡ apply₂ sub left right }
{
    let (a, b) = wholes(left, right)?;
    in_range(a.checked_sub(b))
}

fn multiply(left: Value, right: Value) -> Result<Value, Reason>
    ensures { given result ≡ apply₂ mul left right }
{
    let (a, b) = wholes(left, right)?;
    in_range(a.checked_mul(b))
}

fn less(left: Value, right: Value) -> Result<Value, Reason>
    ensures { given result ≡ apply₂ less left right }
{
    let (a, b) = wholes(left, right)?;
    Ok(Value::Truth(a < b))
}

pub fn negate(operand: Value) -> Result<Value, Reason>
    ensures { given result ≡ apply₁ neg operand }
{
    let Value::Whole(a) = operand else {
        return Err(Reason::WrongKind);
    };
    in_range(a.checked_neg())
}

// "equal (two of one kind)".
pub fn equal(left: Value, right: Value) -> Result<Value, Reason>
    ensures { given result ≡ apply₂ equal left right }
{
    match (left, right) {
        (Value::Whole(a), Value::Whole(b)) => Ok(Value::Truth(a == b)),
        (Value::Location(a), Value::Location(b)) => Ok(Value::Truth(a == b)),
        (Value::Truth(a), Value::Truth(b)) => Ok(Value::Truth(a == b)),
        _ => Err(Reason::WrongKind), // not false
    }
}

// Of two sides that are both looked at: where a false left side decides alone, the evaluator does not ask (engine, `evaluate`).
pub fn and(left: Value, right: Value) -> Result<Value, Reason>
    ensures { given result ≡ apply₂ and left right }
{
    let Value::Truth(a) = left else {
        return Err(Reason::WrongKind);
    };
    let Value::Truth(b) = right else {
        return Err(Reason::WrongKind);
    };
    Ok(Value::Truth(a & b))
}

fn not(operand: Value) -> Result<Value, Reason>
    ensures { given result ≡ apply₁ not operand }
{
    let Value::Truth(a) = operand else {
        return Err(Reason::WrongKind);
    };
    Ok(Value::Truth(!a))
}

// What the operator of a mark gives of one value: no value, if it is no mark of such an operator.
pub fn apply_one(mark: u8, operand: Value) -> Result<Value, Reason>
    ensures { given result ≡ applied₁ (mark_of mark) operand }
{
    match mark {
        marks::NOT => not(operand),
        marks::NEGATE => negate(operand),
        _ => Err(Reason::WrongKind),
    }
}

// And of two.
pub fn apply_two(mark: u8, left: Value, right: Value) -> Result<Value, Reason>
    ensures { given result ≡ applied₂ (mark_of mark) left right }
{
    match mark {
        marks::ADD => add(left, right),
        marks::SUBTRACT => subtract(left, right),
        marks::MULTIPLY => multiply(left, right),
        marks::LESS => less(left, right),
        marks::EQUAL => equal(left, right),
        marks::AND => and(left, right),
        _ => Err(Reason::WrongKind),
    }
}

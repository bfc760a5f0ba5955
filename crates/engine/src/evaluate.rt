// The value of an expression that stands in a table.
ghost use Rattle.std.specs.Prelude.{◌≡◌, ◌≤◌, ◌<◌, get_or};
ghost use Rattle.value.specs.Try.{has};
ghost use Rattle.value.specs.Values.{given, and};
ghost use Rattle.value.specs.Marks.{mark₂, kind_of};
ghost use Rattle.format.specs.Decode.{max_depth};
ghost use Rattle.basics.specs.Columns.{operands_of, takes_of};
ghost use Rattle.engine.specs.Evaluated.{operated₁, operated₂, right_judged, Ready, Evaluates};

use super::{locals, table};
use basics::{bytes, marks, numbers, operators};
use value::{Reason, Value};

// "An expression nests at most 16 deep".
const DEPTH: usize = numbers::DEPTH as usize;

// The marks below this one begin leaves, "01" to "05".
const LEAVES: u8 = numbers::LOCAL + 1;

// An expression's value, and where the expression ends.
#[derive(Clone, Copy)]
pub struct Valued {
    pub answer: Result<Value, Reason>,
    pub next: usize,
}

// What the table says of an operator: the count of its operands, and their kind.
#[derive(Clone, Copy)]
struct Row {
    operands: u8,
    takes: u8,
}

fn row_of(mark: u8) -> Row
    requires { mark < 24 }
    ensures { (result.operands ≡ operands_of mark) × (result.takes ≡ takes_of mark) }
{
    let row = marks::TABLE[mark as usize];
    Row {
        operands: marks::count_in(row),
        takes: marks::kind_in(row),
    }
}

// "An operator with an operand that has no value, or of the wrong kind, has none itself". Where both operands have values, the kind of the table says
// which operator it can be.

// The kind of a value, as the table has it.
fn kind_of(v: Value) -> u8
    ensures { result ≡ kind_of v }
{
    match v {
        Value::Whole(_) => marks::WHOLE,
        Value::Location(_) => marks::LOCATION,
        Value::Truth(_) => marks::TRUTH,
    }
}

// The right operand's value: "The left operand, its kind included, is judged before the right".
fn judged(kind: u8, left: Value, right: Result<Value, Reason>) -> Result<Value, Reason>
    ensures { result ≡ right_judged kind left right }
{
    if right.is_err() {
        if kind != marks::ANY {
            if kind_of(left) != kind {
                return Err(Reason::WrongKind);
            }
        }
    }
    right
}

// "and": "a false left side gives false and the right side isn't evaluated. If the left side is true the rule stays". The right side's answer is there,
// since the evaluator walks over it, and is not looked at.
fn truths(left: Value, right: Result<Value, Reason>) -> Result<Value, Reason>
    ensures { given result ≡ operated₂ (mark₂ and) (has left) (given right) }
{
    let Value::Truth(a) = left else {
        return Err(Reason::WrongKind);
    };
    if !a {
        return Ok(Value::Truth(false));
    }
    operators::and(Value::Truth(a), right?)
}

// What an operator gives of two answers, by the kind of its operands.
fn two(
    mark: u8,
    kind: u8,
    left: Result<Value, Reason>,
    right: Result<Value, Reason>,
) -> Result<Value, Reason>
    requires { (operands_of mark ≡ 2) × (kind ≡ takes_of mark) }
    ensures { given result ≡ operated₂ mark (given left) (given right) }
{
    let u = left?;
    if kind == marks::TRUTH {
        return truths(u, right);
    }
    let v = judged(kind, u, right)?;
    operators::apply_two(mark, u, v)
}

// And of one.
fn one(mark: u8, operand: Result<Value, Reason>) -> Result<Value, Reason>
    ensures { given result ≡ operated₁ mark (given operand) }
{
    operators::apply_one(mark, operand?)
}

// A leaf's value.
fn leaf(t: &[u8], locals: &[u64], base: usize, at: usize) -> Valued
    requires { Ready t.now locals.now base at 1 }
    ensures { Evaluates t.now locals.now base at 1 result }
{
    match t[at] {
        marks::NUMBER => Valued {
            answer: Ok(Value::Whole(bytes::number_of(table::four(t, at + 1)))),
            next: at + 5,
        },
        marks::PLACE => Valued {
            answer: Ok(Value::Location(table::two(t, at + 1))),
            next: at + 3,
        },
        marks::FALSE => Valued {
            answer: Ok(Value::Truth(false)),
            next: at + 1,
        },
        marks::TRUE => Valued {
            answer: Ok(Value::Truth(true)),
            next: at + 1,
        },
        _ => Valued {
            answer: locals::get(locals, base, t[at + 1] as usize),
            next: at + 2,
        },
    }
}

// The value of an operator's expression. A leaf among its operands is evaluated here, without a call of this function.
fn operation(t: &[u8], locals: &[u64], base: usize, at: usize, depth: usize) -> Valued
    requires { Ready t.now locals.now base at depth × (6 ≤ get_or t.now at 0) }
    ensures { Evaluates t.now locals.now base at depth result }
{
    let mark = t[at];
    let first = at + 1;
    let a = if t[first] < LEAVES {
        leaf(t, locals, base, first)
    } else {
        operation(t, locals, base, first, depth - 1)
    };
    let left = a.answer;
    let second = a.next;
    let row = row_of(mark);
    let kind = row.takes;
    if row.operands == 2 {
        let b = if t[second] < LEAVES {
            leaf(t, locals, base, second)
        } else {
            operation(t, locals, base, second, depth - 1)
        };
        let right = b.answer;
        Valued {
            answer: two(mark, kind, left, right),
            next: b.next,
        }
    } else {
        Valued {
            answer: one(mark, left),
            next: second,
        }
    }
}

// The value of an expression, and where it ends. Out of the loop this costs 7 instructions a step on c (103.8 against 97.1).
#[inline]
pub fn evaluate(t: &[u8], locals: &[u64], base: usize, at: usize) -> Valued
    requires { Ready t.now locals.now base at max_depth }
    ensures { Evaluates t.now locals.now base at max_depth result }
{
    if t[at] < LEAVES {
        leaf(t, locals, base, at)
    } else {
        operation(t, locals, base, at, DEPTH)
    }
}

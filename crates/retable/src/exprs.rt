// Expressions of a text, as the bytes of a table.
ghost use Rattle.std.specs.Prelude.{◌≡◌};
ghost use Rattle.ctext.proofs.Laws.ExprText.{key_at, name_key, name_length};
ghost use Rattle.retable.specs.Laws.Exprs.{ParsesByte, ParsesTwo, ParsesWhole, ParsesLeaf, ParsesExpr};

use super::pieces::{number, peek, skip};
use basics::marks::{
    ADD, AND, EQUAL, FALSE, LESS, MULTIPLY, NEGATE, NOT, NUMBER, PLACE, SUBTRACT, TRUE, operands,
};
use basics::numbers::LOCAL;
use writer::bytes::{put, put_four, put_two};

// Where a thing ends in the text, and where its bytes end in the table.
#[derive(Clone, Copy)]
pub struct Parsed {
    pub next: usize,
    pub to: usize,
}

// How many things, where they end in the text, and where their bytes end in the table.
#[derive(Clone, Copy)]
pub struct Listed<N> {
    pub count: N,
    pub next: usize,
    pub to: usize,
}

// A number of one byte.
pub fn parse_byte(x: &[u8], at: usize, out: &mut [u8], to: usize) -> Parsed
    ensures { ParsesByte x.now at out.old to out.new result }
{
    let n = number(x, at);
    Parsed {
        next: n.next,
        to: put(out, to, (n.number % 256) as u8),
    }
}

// A number of two bytes.
pub fn parse_two(x: &[u8], at: usize, out: &mut [u8], to: usize) -> Parsed
    ensures { ParsesTwo x.now at out.old to out.new result }
{
    let n = number(x, at);
    Parsed {
        next: n.next,
        to: put_two(out, to, n.number as usize),
    }
}

// A whole number, two's complement.
fn parse_whole(x: &[u8], at: usize, out: &mut [u8], to: usize) -> Parsed
    ensures { ParsesWhole x.now at out.old to out.new result }
{
    if peek(x, at, 0) == b'-' {
        let n = number(x, skip(x, at, 1));
        return Parsed {
            next: n.next,
            to: put_four(out, to, (4294967296 - n.number % 4294967296) as usize),
        };
    }
    let n = number(x, at);
    Parsed {
        next: n.next,
        to: put_four(out, to, n.number as usize),
    }
}

// The mark of what is called so: by the third and the fourth byte.
#[tactic(auto, using(crate::proofs::Naming::name_ways))]
fn name_key(third: u8, fourth: u8) -> u8
    ensures { result ≡ name_key third fourth }
{
    match third {
        b'n' => match fourth {
            b'u' => NUMBER, // z_num
            b'o' => NOT, // z_not
            _ => NEGATE, // z_neg
        },
        b'l' => match fourth {
            b'o' => PLACE, // z_loc
            _ => LESS, // z_less
        },
        b'f' => FALSE, // z_false
        b't' => TRUE, // z_true
        b'a' => match fourth {
            b'd' => ADD, // z_add
            _ => AND, // z_and
        },
        b's' => SUBTRACT, // z_sub
        b'm' => MULTIPLY, // z_mul
        _ => EQUAL, // z_equal
    }
}

// The mark of the expression at a place.
fn key_at(x: &[u8], at: usize) -> u8
    ensures { result ≡ key_at x.now at }
{
    if peek(x, at, 0) == b'x' {
        return LOCAL;
    }
    name_key(peek(x, at, 2), peek(x, at, 3))
}

// How long an operator's name is, with its parenthesis.
#[tactic(auto, using(crate::proofs::Naming::name_ways))]
fn name_length(mark: u8) -> usize
    ensures { result ≡ name_length mark }
{
    match mark {
        LESS => 7,
        EQUAL => 8,
        _ => 6,
    }
}

// The leaf at a place, which has this mark.
#[tactic(auto, using(crate::proofs::Leaves::leaf_ways))]
fn parse_leaf(x: &[u8], at: usize, mark: u8, out: &mut [u8], to: usize) -> Parsed
    ensures { ParsesLeaf x.now at mark out.old to out.new result }
{
    let p = put(out, to, mark);
    match mark {
        LOCAL => parse_byte(x, skip(x, at, 1), out, p),
        NUMBER => {
            let n = parse_whole(x, skip(x, at, 6), out, p);
            Parsed {
                next: skip(x, n.next, 1),
                to: n.to,
            }
        }
        PLACE => {
            let n = parse_two(x, skip(x, at, 6), out, p);
            Parsed {
                next: skip(x, n.next, 1),
                to: n.to,
            }
        }
        FALSE => Parsed {
            next: skip(x, at, 9),
            to: p,
        },
        _ => Parsed {
            next: skip(x, at, 8),
            to: p,
        },
    }
}

// The expression at a place, which is at most `depth` deep.
pub fn parse_expr(x: &[u8], at: usize, depth: u8, out: &mut [u8], to: usize) -> Parsed
    ensures { ParsesExpr x.now at depth out.old to out.new result }
{
    if depth == 0 {
        return Parsed { next: at, to };
    }
    let mark = key_at(x, at);
    let count = operands(mark);
    if count == 0 {
        return parse_leaf(x, at, mark, out, to);
    }
    let p = put(out, to, mark);
    let a = parse_expr(x, skip(x, at, name_length(mark)), depth - 1, out, p);
    if count == 1 {
        return Parsed {
            next: skip(x, a.next, 1),
            to: a.to,
        };
    }
    let b = parse_expr(x, skip(x, a.next, 2), depth - 1, out, a.to);
    Parsed {
        next: skip(x, b.next, 1),
        to: b.to,
    }
}

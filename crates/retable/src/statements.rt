// The lines of a text that hold no block, as instructions of a table.
ghost use Rattle.retable.specs.Laws.Lines.{ParsesPointed, ParsesTarget, ParsesWrite, ParsesSelect, ParsesMore, ParsesArgs, ParsesCounted, ParsesCall};

use super::exprs::{Listed, Parsed, parse_byte, parse_expr, parse_two};
use super::pieces::{number, peek, skip};
use basics::numbers::{ASSIGN, CALL, DEPTH, READ, SELECT, WRITE};
use writer::bytes::put;

// "<y>, o": a local, and an expression.
fn parse_pointed(x: &[u8], at: usize, out: &mut [u8], to: usize) -> Parsed
    ensures { ParsesPointed x.now at out.old to out.new result }
{
    let y = parse_byte(x, at, out, to);
    parse_expr(x, skip(x, y.next, 2), DEPTH, out, y.to)
}

// "x<x> = z_set(e);" or "x<x> = z_read(here, x<y>, o);"
pub fn parse_target(x: &[u8], at: usize, out: &mut [u8], to: usize) -> Parsed
    ensures { ParsesTarget x.now at out.old to out.new result }
{
    let target = number(x, skip(x, at, 1));
    let next = target.next;
    let local = (target.number % 256) as u8;
    if peek(x, next, 5) == b's' {
        let p = put(out, to, ASSIGN);
        let q = put(out, p, local);
        let e = parse_expr(x, skip(x, next, 9), DEPTH, out, q);
        return Parsed {
            next: skip(x, e.next, 3),
            to: e.to,
        };
    }
    let p = put(out, to, READ);
    let q = put(out, p, local);
    let o = parse_pointed(x, skip(x, next, 17), out, q);
    Parsed {
        next: skip(x, o.next, 3),
        to: o.to,
    }
}

// "z_write(here, x<y>, o, e);"
pub fn parse_write(x: &[u8], at: usize, out: &mut [u8], to: usize) -> Parsed
    ensures { ParsesWrite x.now at out.old to out.new result }
{
    let p = put(out, to, WRITE);
    let o = parse_pointed(x, skip(x, at, 15), out, p);
    let e = parse_expr(x, skip(x, o.next, 2), DEPTH, out, o.to);
    Parsed {
        next: skip(x, e.next, 3),
        to: e.to,
    }
}

// "z_select(<a>, <b>);"
pub fn parse_select(x: &[u8], at: usize, out: &mut [u8], to: usize) -> Parsed
    ensures { ParsesSelect x.now at out.old to out.new result }
{
    let p = put(out, to, SELECT);
    let a = parse_two(x, skip(x, at, 9), out, p);
    let b = parse_two(x, skip(x, a.next, 2), out, a.to);
    Parsed {
        next: skip(x, b.next, 3),
        to: b.to,
    }
}

// ", e, e, ..": the arguments behind the first, up to a parenthesis.
fn parse_more(x: &[u8], at: usize, out: &mut [u8], mut to: usize) -> Listed<u8>
    ensures { ParsesMore x.now at 1 out.old to out.new result }
{
    let mut next = at;
    for count in 1..u8::MAX {
        if peek(x, next, 0) != b',' {
            return Listed { count, next, to };
        }
        let e = parse_expr(x, skip(x, next, 2), DEPTH, out, to);
        next = e.next;
        to = e.to;
    }
    Listed {
        count: u8::MAX,
        next,
        to,
    }
}

// All arguments.
fn parse_args(x: &[u8], at: usize, out: &mut [u8], to: usize) -> Listed<u8>
    ensures { ParsesArgs x.now at out.old to out.new result }
{
    if peek(x, at, 0) == b')' {
        return Listed {
            count: 0,
            next: at,
            to,
        };
    }
    let first = parse_expr(x, at, DEPTH, out, to);
    parse_more(x, first.next, out, first.to)
}

// Their number, which is known behind them, and all arguments.
fn parse_counted(x: &[u8], at: usize, out: &mut [u8], to: usize) -> Parsed
    ensures { ParsesCounted x.now at out.old to out.new result }
{
    let p = put(out, to, 0);
    let a = parse_args(x, at, out, p);
    put(out, to, a.count);
    Parsed {
        next: a.next,
        to: a.to,
    }
}

// "z_call(); p<m>(e, e, ..);"
pub fn parse_call(x: &[u8], at: usize, out: &mut [u8], to: usize) -> Parsed
    ensures { ParsesCall x.now at out.old to out.new result }
{
    let p = put(out, to, CALL);
    let m = parse_two(x, skip(x, at, 11), out, p);
    let a = parse_counted(x, skip(x, m.next, 1), out, m.to);
    Parsed {
        next: skip(x, a.next, 3),
        to: a.to,
    }
}

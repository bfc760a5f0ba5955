// What stands around the bodies in a text: locations, areas, heads of procedures, and lines for their locals.
ghost use Rattle.std.specs.Prelude.{◌≡◌};
ghost use Rattle.std.proofs.Math.Bool as B;
ghost use Rattle.ctext.proofs.Laws.DefinitionText.{unsetting};
ghost use Rattle.retable.specs.Laws.Frames.{SkipsTwo, ParsesLocation, ParsesSizes, SkipsAreas, CountsMore, CountsParams, CountsHead, SkipsDeclarations};
ghost use Rattle.retable.specs.Laws.Frames.{SkipsArgs, CountsUnsets, CountsLocals};

use super::exprs::{Listed, Parsed, parse_two};
use super::pieces::{number, peek, skip};
use basics::numbers::{LOCATIONS, MOST_PROCEDURES};

// How many things, and where they end.
#[derive(Clone, Copy)]
pub struct Counted<N> {
    pub count: N,
    pub next: usize,
}

// A procedure's parameters and locals, and where its body begins.
#[derive(Clone, Copy)]
pub struct Locals {
    pub params: u8,
    pub locals: u8,
    pub next: usize,
}

// Behind a line with two numbers: so many bytes before the first, between them, and behind the second.
fn skip_two(x: &[u8], at: usize, before: usize, between: usize, behind: usize) -> usize
    ensures { SkipsTwo x.now at before between behind result }
{
    let a = number(x, skip(x, at, before));
    let b = number(x, skip(x, a.next, between));
    skip(x, b.next, behind)
}

// "z_value m<k>[<size>];"
fn parse_location(x: &[u8], at: usize, out: &mut [u8], to: usize) -> Parsed
    ensures { ParsesLocation x.now at out.old to out.new result }
{
    let k = number(x, skip(x, at, 9));
    let size = parse_two(x, skip(x, k.next, 1), out, to);
    Parsed {
        next: skip(x, size.next, 3),
        to: size.to,
    }
}

// The sizes of all locations.
pub fn parse_sizes(x: &[u8], at: usize, out: &mut [u8], mut to: usize) -> Listed<usize>
    ensures { ParsesSizes x.now at 0 out.old to out.new result }
{
    let mut next = at;
    for count in 0..LOCATIONS {
        if peek(x, next, 0) != b'z' {
            return Listed { count, next, to };
        }
        let one = parse_location(x, next, out, to);
        next = one.next;
        to = one.to;
    }
    Listed {
        count: LOCATIONS,
        next,
        to,
    }
}

// "  { m<k>, <size> }," so many times.
pub fn skip_areas(x: &[u8], at: usize, count: usize) -> usize
    ensures { SkipsAreas x.now at count result }
{
    let mut next = at;
    for _ in 0..count {
        next = skip_two(x, next, 5, 2, 4);
    }
    next
}

// ", z_value x<j>" as often as it stands there, behind the first parameter.
fn more_params(x: &[u8], at: usize) -> Counted<u8>
    ensures { CountsMore x.now at 1 result }
{
    let mut next = at;
    for count in 1..u8::MAX {
        if peek(x, next, 0) != b',' {
            return Counted { count, next };
        }
        next = number(x, skip(x, next, 11)).next;
    }
    Counted {
        count: u8::MAX,
        next,
    }
}

// "void" or "z_value x0, z_value x1, .."
fn parse_params(x: &[u8], at: usize) -> Counted<u8>
    ensures { CountsParams x.now at result }
{
    if peek(x, at, 0) == b'v' {
        return Counted {
            count: 0,
            next: skip(x, at, 4),
        };
    }
    more_params(x, skip(x, at, 10))
}

// "void p<k>(" and the parameters.
fn parse_head(x: &[u8], at: usize) -> Counted<u8>
    ensures { CountsHead x.now at result }
{
    let k = number(x, skip(x, at, 6));
    parse_params(x, skip(x, k.next, 1))
}

// The declarations of all procedures.
pub fn skip_declarations(x: &[u8], at: usize) -> Counted<usize>
    ensures { SkipsDeclarations x.now at 0 result }
{
    let mut next = at;
    for count in 0..MOST_PROCEDURES {
        if peek(x, next, 0) != b'v' {
            return Counted { count, next };
        }
        let head = parse_head(x, next);
        next = skip(x, head.next, 3);
    }
    Counted {
        count: MOST_PROCEDURES,
        next,
    }
}

// "  x<j> = z_arg(x<j>);" for each parameter.
fn skip_args(x: &[u8], at: usize, count: u8) -> usize
    ensures { SkipsArgs x.now at count result }
{
    let mut next = at;
    for _ in 0..count {
        next = skip_two(x, next, 3, 10, 3);
    }
    next
}

// Whether no line for another local stands here.
fn body_begins(x: &[u8], at: usize) -> bool
    ensures { result ≡ B.not (unsetting x.now at) }
{
    if peek(x, at, 2) == b'z' {
        return peek(x, at, 4) != b'v';
    }
    true
}

// "  z_value x<j> = z_unset(); (void)x<j>;" for each other local: how many locals there are with the parameters.
fn count_unsets(x: &[u8], at: usize, params: u8) -> Counted<u8>
    ensures { CountsUnsets x.now at params result }
{
    let mut next = at;
    for count in params..u8::MAX {
        if body_begins(x, next) {
            return Counted { count, next };
        }
        next = skip_two(x, next, 11, 21, 2);
    }
    Counted {
        count: u8::MAX,
        next,
    }
}

// The lines of a definition before its body.
pub fn parse_locals(x: &[u8], at: usize) -> Locals
    ensures { CountsLocals x.now at result }
{
    let head = parse_head(x, skip(x, at, 1));
    let again = number(x, skip(x, head.next, 20));
    let args = skip_args(x, skip(x, again.next, 4), head.count);
    let all = count_unsets(x, args, head.count);
    Locals {
        params: head.count,
        locals: all.count,
        next: all.next,
    }
}

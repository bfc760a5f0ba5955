// Instructions and blocks of a text, as the bytes of a table: the two parsers call each other, the allowed depth falling.
ghost use Rattle.std.specs.Prelude.{◌+◌, ◌*◌, ◌≤◌, ◌≡◌};
ghost use Rattle.ctext.proofs.Laws.LineText.{ended};
ghost use Rattle.retable.specs.Laws.Blocks.{ParsesTest, ParsesIf, ParsesInstr, ParsesBlock};

use super::exprs::{Parsed, parse_expr};
use super::pieces::{peek, skip};
use super::statements::{parse_call, parse_select, parse_target, parse_write};
use basics::numbers::{DEPTH, END, IF, WHILE};
use writer::bytes::put;

// The test of a while or an if, and the rest of its line: "e)) {".
fn parse_test(x: &[u8], at: usize, mark: u8, out: &mut [u8], to: usize) -> Parsed
    ensures { ParsesTest x.now at mark out.old to out.new result }
{
    let p = put(out, to, mark);
    let e = parse_expr(x, at, DEPTH, out, p);
    Parsed {
        next: skip(x, e.next, 5),
        to: e.to,
    }
}

// Whether a block whose lines have so many spaces ends at a place: by a brace two spaces before them, or by "z_return".
#[tactic(auto, using(crate::proofs::Nesting::test_ways))]
fn ends(x: &[u8], at: usize, width: usize) -> bool
    requires { (2 ≤ width) × (width ≤ 64) }
    ensures { result ≡ ended x.now at width }
{
    peek(x, at, width - 2) == b'}' || (peek(x, at, width) == b'z' && peek(x, at, width + 2) == b'r')
}

// "if (z_test(e)) {", a block, "} else {", a block, and "}".
#[cycle(parse_block_parse_if_parse_instr)]
fn parse_if(x: &[u8], at: usize, depth: u8, width: usize, out: &mut [u8], to: usize) -> Parsed
    requires { (2 ≤ width) × (width + 2 * depth ≤ 62) }
    ensures { ParsesIf x.now at depth width out.old to out.new result }
{
    let inner = width + 2;
    let otherwise = width + 9;
    let e = parse_test(x, skip(x, at, 11), IF, out, to);
    let b = parse_block(x, e.next, depth, inner, out, e.to);
    let c = parse_block(x, skip(x, b.next, otherwise), depth, inner, out, b.to);
    Parsed {
        next: skip(x, c.next, inner),
        to: c.to,
    }
}

// The instruction at a place, behind its spaces; the blocks in it are at most `depth` deep.
#[cycle(parse_block_parse_if_parse_instr)]
fn parse_instr(x: &[u8], at: usize, depth: u8, width: usize, out: &mut [u8], to: usize) -> Parsed
    requires { (2 ≤ width) × (width + 2 * depth ≤ 62) }
    ensures { ParsesInstr x.now at depth width out.old to out.new result }
{
    let inner = width + 2;
    let first = peek(x, at, 0);
    if first == b'x' {
        return parse_target(x, at, out, to);
    }
    if first == b'w' {
        let e = parse_test(x, skip(x, at, 14), WHILE, out, to);
        let b = parse_block(x, e.next, depth, inner, out, e.to);
        return Parsed {
            next: skip(x, b.next, inner),
            to: b.to,
        };
    }
    if first == b'i' {
        return parse_if(x, at, depth, width, out, to);
    }
    let third = peek(x, at, 2);
    if third == b'w' {
        return parse_write(x, at, out, to);
    }
    if third == b'c' {
        return parse_call(x, at, out, to);
    }
    parse_select(x, at, out, to)
}

// The block at a place, at most `depth` blocks one in the other, whose lines have so many spaces.
#[cycle(parse_block_parse_if_parse_instr)]
pub fn parse_block(
    x: &[u8],
    at: usize,
    depth: u8,
    width: usize,
    out: &mut [u8],
    to: usize,
) -> Parsed
    requires { (2 ≤ width) × (width + 2 * depth ≤ 64) }
    ensures { ParsesBlock x.now at depth width out.old to out.new result }
{
    if depth == 0 {
        return Parsed { next: at, to };
    }
    let mut i = at;
    let mut p = to;
    while i < x.len() {
        if ends(x, i, width) {
            return Parsed {
                next: i,
                to: put(out, p, END),
            };
        }
        let one = parse_instr(x, skip(x, i, width), depth - 1, width, out, p);
        // A text of ours always goes on.
        if one.next <= i {
            return Parsed { next: i, to: p };
        }
        i = one.next;
        p = one.to;
    }
    Parsed { next: i, to: p }
}

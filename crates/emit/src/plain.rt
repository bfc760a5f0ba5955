// The code of the instructions that hold no block: assign, read and write, without the label that follows.
ghost use Rattle.std.specs.Prelude.{◌≡◌, ◌+◌, ◌<◌, length, slice_index};
ghost use Rattle.emit.specs.Laws.Sources.{LoadsOf, Stores, Holds, LoadsWrite, Sets, Gets, Plain, PlainIf};

use crate::exprs::{moved, put_expr};
use crate::layout::{Site, home};
use crate::pieces::{put_keep, put_load, put_loads, put_locate};
use basics::bytes::byte_at;
use basics::numbers::{ASSIGN, DEPTH, LOCAL, READ, WRITE};
use labels::count::after_expr;
use labels::variables::gather;
use writer::page::Page;

// The loads of the variables of the expression at `at`.
pub fn put_loads_of(t: &[u8], at: usize, s: Site, out: &mut Page)
    ensures { LoadsOf t.now at s out.old out.new }
{
    put_loads(s, gather(t, at, DEPTH).set, out);
}

// tmp := location l; tmp[tid] := the expression at `at`. Answers, as all that copy from the source, where it goes on.
pub fn put_store(t: &[u8], at: usize, l: usize, out: &mut Page) -> usize
    ensures { Stores t.now at l out.old out.new result }
{
    put_locate(out, l);
    put_keep(out);
    put_expr(t, at, DEPTH, out)
}

// "store x": what local x was set to, into its location.
fn put_held(s: Site, x: u8, out: &mut Page)
    ensures { Holds s x out.old out.new }
{
    put_locate(out, home(s, x));
    put_keep(out);
    out.put_all(&[LOCAL, moved(x)]);
}

// assign: figure 3
fn put_assign(t: &[u8], at: usize, s: Site, out: &mut Page) -> usize
    requires { (at < length t.now) × (slice_index t.now at ≡ 0x20) }
    ensures { Plain t.now at s out.old out.new result }
{
    put_loads_of(t, at + 2, s, out);
    put_store(t, at + 2, home(s, byte_at(t, at + 1)), out)
}

// "load e's j, then o's k, then p", where the offset o stands at `at` and e at `mid`
fn put_write_loads(t: &[u8], at: usize, mid: usize, s: Site, y: u8, out: &mut Page)
    ensures { LoadsWrite t.now at mid s y out.old out.new }
{
    put_loads_of(t, mid, s, out);
    put_loads_of(t, at, s, out);
    put_load(s, y, out);
}

// y[o] := e
fn put_set(t: &[u8], at: usize, y: u8, out: &mut Page) -> usize
    ensures { Sets t.now at y out.old out.new result }
{
    out.put_all(&[WRITE, moved(y)]);
    let mid = put_expr(t, at, DEPTH, out);
    put_expr(t, mid, DEPTH, out)
}

// write: figure 5
fn put_write(t: &[u8], at: usize, s: Site, out: &mut Page) -> usize
    requires { (at < length t.now) × (slice_index t.now at ≡ 0x21) }
    ensures { Plain t.now at s out.old out.new result }
{
    let y = byte_at(t, at + 1);
    put_write_loads(t, at + 2, after_expr(t, at + 2), s, y, out);
    put_set(t, at + 2, y, out)
}

// x := y[o]
fn put_get(t: &[u8], at: usize, x: u8, y: u8, out: &mut Page) -> usize
    ensures { Gets t.now at x y out.old out.new result }
{
    out.put_all(&[READ, moved(x), moved(y)]);
    put_expr(t, at, DEPTH, out)
}

// read: figure 4
fn put_read(t: &[u8], at: usize, s: Site, out: &mut Page) -> usize
    requires { (at < length t.now) × (slice_index t.now at ≡ 0x22) }
    ensures { Plain t.now at s out.old out.new result }
{
    let x = byte_at(t, at + 1);
    let y = byte_at(t, at + 2);
    put_loads_of(t, at + 3, s, out);
    put_load(s, y, out);
    let next = put_get(t, at + 3, x, y, out);
    put_held(s, x, out);
    next
}

// Whichever of them stands at `at`.
pub fn put_plain(t: &[u8], at: usize, s: Site, out: &mut Page) -> usize
    requires { at < length t.now }
    ensures { PlainIf t.now at s out.old out.new result }
{
    match t[at] {
        ASSIGN => put_assign(t, at, s, out),
        WRITE => put_write(t, at, s, out),
        READ => put_read(t, at, s, out),
        _ => at + 1,
    }
}

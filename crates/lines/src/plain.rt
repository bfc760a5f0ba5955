// Instructions that hold no block, as text.
ghost use Rattle.std.specs.Prelude.{◌++◌, ◌^◌, ◌<◌};
ghost use Rattle.ctext.specs.Pieces.{say, decimal};
ghost use Rattle.ctext.specs.Text.{var};
ghost use Rattle.typeset.specs.Page.{Put};
ghost use Rattle.lines.specs.Lines.{ShowsLast, ShowsAs, ShowsPlain};

use super::args::put_args;
use basics::bytes::{byte_at, two_bytes};
use basics::numbers::{ASSIGN, CALL, READ, WRITE};
use phrases::exprs::{put_expr, put_var};
use typeset::pieces::Page;

// The expression at `at`, and the end of its line.
fn put_last(t: &[u8], at: usize, page: &mut Page) -> usize
    ensures { ShowsLast t.now at page.old page.new result }
{
    let next = put_expr(t, at, page);
    page.put_all(b");\n");
    next
}

// A word, the pointer y and a comma.
fn put_pointer(word: &[u8], y: u8, page: &mut Page)
    ensures { Put page.old (word.now ++ (var y ++ say ", ")) page.new }
{
    page.put_all(word);
    put_var(y, page);
    page.put_all(b", ");
}

// A word and a number.
fn put_numbered(word: &[u8], n: u16, page: &mut Page)
    ensures { Put page.old (word.now ++ decimal n) page.new }
{
    page.put_all(word);
    page.put_number(usize::from(n));
}

// "20 x e"
fn put_assign(t: &[u8], at: usize, page: &mut Page) -> usize
    requires { at < 2 ^ 63 }
    ensures { ShowsAs t.now at 0x20 page.old page.new result }
{
    put_var(byte_at(t, at + 1), page);
    page.put_all(b" = z_set(");
    put_last(t, at + 2, page)
}

// "21 y o e"
fn put_write(t: &[u8], at: usize, page: &mut Page) -> usize
    requires { at < 2 ^ 63 }
    ensures { ShowsAs t.now at 0x21 page.old page.new result }
{
    put_pointer(b"z_write(here, ", byte_at(t, at + 1), page);
    let source = put_expr(t, at + 2, page);
    page.put_all(b", ");
    put_last(t, source, page)
}

// "22 x y o"
fn put_read(t: &[u8], at: usize, page: &mut Page) -> usize
    requires { at < 2 ^ 63 }
    ensures { ShowsAs t.now at 0x22 page.old page.new result }
{
    put_var(byte_at(t, at + 1), page);
    put_pointer(b" = z_read(here, ", byte_at(t, at + 2), page);
    put_last(t, at + 3, page)
}

// "25 m(2) n(1) n expressions"
fn put_call(t: &[u8], at: usize, page: &mut Page) -> usize
    requires { at < 2 ^ 63 }
    ensures { ShowsAs t.now at 0x25 page.old page.new result }
{
    put_numbered(b"z_call(); p", two_bytes(t, at + 1), page);
    page.put(b'(');
    let next = put_args(t, at + 4, byte_at(t, at + 3), page);
    page.put_all(b");\n");
    next
}

// "27 a(2) b(2)"
fn put_select(t: &[u8], at: usize, page: &mut Page) -> usize
    requires { at < 2 ^ 63 }
    ensures { ShowsAs t.now at 0x27 page.old page.new result }
{
    put_numbered(b"z_select(", two_bytes(t, at + 1), page);
    put_numbered(b", ", two_bytes(t, at + 3), page);
    page.put_all(b");\n");
    at + 5
}

// An instruction that holds no block, by its byte.
pub fn put_plain(t: &[u8], at: usize, mark: u8, page: &mut Page) -> usize
    requires { at < 2 ^ 63 }
    ensures { ShowsPlain t.now at mark page.old page.new result }
{
    match mark {
        ASSIGN => put_assign(t, at, page),
        WRITE => put_write(t, at, page),
        READ => put_read(t, at, page),
        CALL => put_call(t, at, page),
        _ => put_select(t, at, page),
    }
}

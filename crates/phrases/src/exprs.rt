// Expressions as text.
ghost use Rattle.std.specs.Prelude.{◌≡◌, ◌-◌, ◌^◌, ◌<◌};
ghost use Rattle.format.specs.Decode.{max_depth};
ghost use Rattle.ctext.specs.Text.{var, sep};
ghost use Rattle.typeset.specs.Page.{Put};
ghost use Rattle.phrases.specs.Shows.{name_of, Shows, ShowsLeaf};

use basics::bytes::{byte_at, four_bytes, two_bytes};
use basics::marks::{ADD, AND, EQUAL, FALSE, LESS, MULTIPLY, NOT, NUMBER, PLACE, SUBTRACT};
use basics::numbers::{DEPTH, LOCAL};
use typeset::pieces::Page;

// "SEP(l) is `, ` for l = 1, 2, 3": so many levels keep to their line.
pub const NEAR: u8 = 3;

// An operator's name, up to its parenthesis.
fn put_name(mark: u8, page: &mut Page)
    ensures { Put page.old (name_of mark) page.new }
{
    match mark {
        EQUAL => page.put_all(b"z_equal("),
        ADD => page.put_all(b"z_add("),
        AND => page.put_all(b"z_and("),
        NOT => page.put_all(b"z_not("),
        LESS => page.put_all(b"z_less("),
        SUBTRACT => page.put_all(b"z_sub("),
        MULTIPLY => page.put_all(b"z_mul("),
        _ => page.put_all(b"z_neg("),
    }
}

// What stands between two operands.
fn put_sep(near: u8, page: &mut Page)
    ensures { Put page.old (sep near) page.new }
{
    match near {
        0 => page.put_all(b",\n"),
        _ => page.put_all(b", "),
    }
}

// A local.
pub fn put_var(i: u8, page: &mut Page)
    ensures { Put page.old (var i) page.new }
{
    page.put(b'x');
    page.put_number(usize::from(i));
}

// A leaf: a local, a name with a number, or a name.
fn put_leaf(t: &[u8], at: usize, mark: u8, page: &mut Page) -> usize
    requires { at < 2 ^ 63 }
    ensures { ShowsLeaf t.now at mark page.old page.new result }
{
    match mark {
        LOCAL => {
            put_var(byte_at(t, at + 1), page);
            at + 2
        }
        NUMBER => {
            page.put_all(b"z_num(");
            page.put_whole(four_bytes(t, at + 1));
            page.put(b')');
            at + 5
        }
        PLACE => {
            page.put_all(b"z_loc(");
            page.put_number(usize::from(two_bytes(t, at + 1)));
            page.put(b')');
            at + 3
        }
        FALSE => {
            page.put_all(b"z_false()");
            at + 1
        }
        _ => {
            page.put_all(b"z_true()");
            at + 1
        }
    }
}

// The expression at `at`, which is at most `depth` deep; `near` levels of it keep to their line. Where the table goes on is answered.
pub fn put_levels(t: &[u8], at: usize, depth: u8, near: u8, page: &mut Page) -> usize
    ensures { Shows t.now at depth near page.old page.new result }
{
    if depth == 0 || t.len() <= at {
        return at;
    }
    let mark = t[at];
    if mark < ADD {
        return put_leaf(t, at, mark, page);
    }
    let below = near.saturating_sub(1);
    put_name(mark, page);
    let mid = put_levels(t, at + 1, depth - 1, below, page);
    if AND < mark {
        page.put(b')');
        return mid;
    }
    put_sep(near, page);
    let end = put_levels(t, mid, depth - 1, below, page);
    page.put(b')');
    end
}

// The expression at `at`.
pub fn put_expr(t: &[u8], at: usize, page: &mut Page) -> usize
    ensures { Shows t.now at max_depth 3 page.old page.new result }
{
    put_levels(t, at, DEPTH, NEAR, page)
}

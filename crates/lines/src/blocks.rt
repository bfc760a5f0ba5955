// Instructions and blocks as text: they call each other, the depth falling.
ghost use Rattle.std.specs.Prelude.{◌+◌, ◌*◌, ◌≤◌, ◌<◌, length};
ghost use Rattle.lines.specs.Lines.{ShowsTest, ShowsClosed, ShowsInstr, ShowsBlock};

use super::plain::put_plain;
use basics::numbers::{END, IF, WHILE};
use phrases::exprs::put_expr;
use typeset::pieces::Page;

// A word, a test and a brace.
fn put_test(word: &[u8], t: &[u8], at: usize, page: &mut Page) -> usize
    ensures { ShowsTest word.now t.now at page.old page.new result }
{
    page.put_all(word);
    let next = put_expr(t, at, page);
    page.put_all(b")) {\n");
    next
}

// The block at `at`, two spaces further in, and the line behind it.
#[cycle(put_block_put_closed_put_instr)]
fn put_closed(word: &[u8], t: &[u8], at: usize, depth: u8, spaces: usize, page: &mut Page) -> usize
    requires { spaces + 2 * depth ≤ 32 }
    ensures { ShowsClosed word.now t.now at depth spaces page.old page.new result }
{
    let next = put_block(t, at, depth, spaces + 2, page);
    page.put_spaces(spaces);
    page.put_all(word);
    next
}

// The instruction at `at`, behind its spaces; blocks in it are at most `depth` deep.
#[cycle(put_block_put_closed_put_instr)]
fn put_instr(t: &[u8], at: usize, depth: u8, spaces: usize, page: &mut Page) -> usize
    requires { (at < length t.now) × (spaces + 2 * depth ≤ 32) }
    ensures { ShowsInstr t.now at depth spaces page.old page.new result }
{
    match t[at] {
        WHILE => {
            let body = put_test(b"while (z_test(", t, at + 1, page);
            put_closed(b"}\n", t, body, depth, spaces, page)
        }
        IF => {
            let yes = put_test(b"if (z_test(", t, at + 1, page);
            let no = put_closed(b"} else {\n", t, yes, depth, spaces, page);
            put_closed(b"}\n", t, no, depth, spaces, page)
        }
        mark => put_plain(t, at, mark, page),
    }
}

// The block at `at`, which is at most `depth` deep, its lines behind so many spaces.
#[cycle(put_block_put_closed_put_instr)]
pub fn put_block(t: &[u8], at: usize, depth: u8, spaces: usize, page: &mut Page) -> usize
    requires { spaces + 2 * depth ≤ 34 }
    ensures { ShowsBlock t.now at depth spaces page.old page.new result }
{
    if depth == 0 {
        return at;
    }
    let mut next = at;
    while next < t.len() {
        if t[next] == END {
            return next + 1;
        }
        page.put_spaces(spaces);
        next = put_instr(t, next, depth - 1, spaces, page);
    }
    next
}

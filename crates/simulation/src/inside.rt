// The code of an atomic block: "its instructions in place without pc". Block and instruction call each other, the depth falling. Each answers
// where the source goes on.
ghost use Rattle.std.specs.Prelude.{◌<◌, length};
ghost use Rattle.emit.specs.Laws.Sources.{InsideInstr, InsideBlock, Branch, Asks};

use basics::numbers::{DEPTH, END, IF};
use emit::exprs::put_expr;
use emit::layout::Site;
use emit::plain::{put_loads_of, put_plain};
use writer::page::Page;

// if, and the test at `at`
pub fn put_ask(t: &[u8], at: usize, out: &mut Page) -> usize
    ensures { Asks t.now at out.old out.new result }
{
    out.put(IF);
    put_expr(t, at, DEPTH, out)
}

// The instructions of the block at `at`, in place.
#[cycle(put_branch_put_inside_put_instr)]
pub fn put_inside(t: &[u8], at: usize, depth: u8, s: Site, out: &mut Page) -> usize
    ensures { InsideBlock t.now at depth s out.old out.new result }
{
    if depth == 0 {
        return at;
    }
    let mut next = at;
    while next < t.len() {
        if t[next] == END {
            return next + 1;
        }
        next = put_instr(t, next, depth - 1, s, out);
    }
    next
}

// An instruction, in place.
#[cycle(put_branch_put_inside_put_instr)]
fn put_instr(t: &[u8], at: usize, depth: u8, s: Site, out: &mut Page) -> usize
    requires { at < length t.now }
    ensures { InsideInstr t.now at depth s out.old out.new result }
{
    if t[at] == IF {
        put_loads_of(t, at + 1, s, out);
        let yes = put_ask(t, at + 1, out);
        let no = put_branch(t, yes, depth, s, out);
        return put_branch(t, no, depth, s, out);
    }
    put_plain(t, at, s, out)
}

// "an inner if keeps its blocks"
#[cycle(put_branch_put_inside_put_instr)]
fn put_branch(t: &[u8], at: usize, depth: u8, s: Site, out: &mut Page) -> usize
    ensures { Branch t.now at depth s out.old out.new result }
{
    let next = put_inside(t, at, depth, s, out);
    out.put(END);
    next
}

// The code of one label: report RR-2017-03, figures 3 to 11. A block ends with it.
ghost use Rattle.std.specs.Prelude.{◌<◌, length};
ghost use Rattle.emit.specs.Laws.Sources.{Ways, Questions, Tests, LoadsEach, Passes, Marks, Calls, Steps};

use crate::inside::{put_ask, put_inside};
use basics::numbers::{ATOMIC, END, NESTING};
use emit::layout::{Site, home};
use emit::pieces::{put_goto, put_loads, put_locate, put_pc};
use emit::plain::{put_loads_of, put_plain, put_store};
use labels::variables::gather_each;
use writer::page::Page;

// A branch of "one tmp[tid] := label".
fn put_way(out: &mut Page, label: usize)
    ensures { Ways label out.old out.new }
{
    put_goto(out, label);
    out.put(END);
}

// tmp := pct; if e; for the test at `at`
fn put_question(t: &[u8], at: usize, s: Site, out: &mut Page)
    ensures { Questions t.now at s out.old out.new }
{
    put_loads_of(t, at, s, out);
    put_locate(out, s.pct as usize);
    put_ask(t, at, out);
}

// if, while: figures 6 and 7
pub fn put_test(t: &[u8], at: usize, s: Site, yes: usize, no: usize, out: &mut Page)
    ensures { Tests t.now at s yes no out.old out.new }
{
    put_question(t, at, s, out);
    put_way(out, yes);
    put_way(out, no);
    out.put(END);
}

// The loads of the variables of `count` expressions from `at` on, "of all arguments together".
fn put_loads_each(t: &[u8], at: usize, count: u8, s: Site, out: &mut Page)
    ensures { LoadsEach t.now at count s out.old out.new }
{
    put_loads(s, gather_each(t, at, count), out);
}

// "store each argument in its parameter"
fn put_passes(t: &[u8], at: usize, count: u8, callee: Site, out: &mut Page)
    ensures { Passes t.now at count 0 callee out.old out.new }
{
    let mut next = at;
    for x in 0..count {
        next = put_store(t, next, home(callee, x), out);
    }
}

// "store next label in from(m)"
fn put_from(callee: Site, label: usize, out: &mut Page)
    ensures { Marks callee label out.old out.new }
{
    put_locate(out, callee.from as usize);
    put_goto(out, label);
}

// call: figure 8, with `count` arguments from `at` on
pub fn put_call(
    t: &[u8],
    at: usize,
    count: u8,
    s: Site,
    callee: Site,
    begin: usize,
    next: usize,
    out: &mut Page,
)
    ensures { Calls t.now at count s callee begin next out.old out.new }
{
    put_loads_each(t, at, count, s, out);
    put_passes(t, at, count, callee, out);
    put_from(callee, next, out);
    put_pc(s, begin, out);
}

// assign, read, write and atomic: the code in place, and then pc
pub fn put_step(t: &[u8], at: usize, s: Site, next: usize, out: &mut Page)
    requires { at < length t.now }
    ensures { Steps t.now at s next out.old out.new }
{
    if t[at] == ATOMIC {
        put_inside(t, at + 1, NESTING, s, out);
        put_pc(s, next, out);
    } else {
        put_plain(t, at, s, out);
        put_pc(s, next, out);
    }
}

// Procedure 0: report RR-2017-03, figure 12.
ghost use Rattle.format.specs.Syntax.{local, two, write, read, select};
ghost use Rattle.value.specs.Values.{equal};
ghost use Rattle.translation.specs.Code.{tmp, num};
ghost use Rattle.translation.specs.Translate.{stmt};
ghost use Rattle.writer.specs.Laws.Pages.{PutsExpr, PutsInstr};
ghost use Rattle.zeroth.specs.Laws.Zeroth.{judgment, Judged, Cases, Invokes, OneThread, AllThreads, Chooses, Switches};
ghost use Rattle.zeroth.specs.Laws.Zeroth.{Closes, RoundOf, LoopOf, StartOf, ZerothOf};

use basics::numbers::{
    AND, ASSIGN, BOUNDS, CALL, END, EQUAL, FALSE, IF, LOCAL, NOT, READ, SELECT, TRUE, WHILE, WRITE,
};
use emit::layout::{Hub, Shape, hub_of, main_of, site_of};
use emit::pieces::{TID, TMP, put_locate, put_number, put_take};
use simulation::simulate::begin_of;
use writer::page::Page;

// "locals tid, tmp, stmt, terminated"
const STMT: u8 = 2;

const TERMINATED: u8 = 3;

// What procedure 0 has for each thread: its beginning, its "from", and whether it has finished.
#[derive(Clone, Copy)]
enum Part {
    Beginning,
    From,
    Finished,
}

// tmp[i] := n
fn put_initial(out: &mut Page, i: usize, n: usize)
    ensures { PutsInstr out.old (write tmp (num i) (num n)) out.new }
{
    out.put_all(&[WRITE, TMP]);
    put_number(out, i);
    put_number(out, n);
}

// x := tmp[i]
fn put_get_at(out: &mut Page, x: u8, i: usize)
    ensures { PutsInstr out.old (read x tmp (num i)) out.new }
{
    out.put_all(&[READ, x, TMP]);
    put_number(out, i);
}

// stmt = n
fn put_equal(out: &mut Page, n: usize)
    ensures { PutsExpr out.old (two equal (local stmt) (num n)) out.new }
{
    out.put_all(&[EQUAL, LOCAL, STMT]);
    put_number(out, n);
}

// terminated := terminated and (stmt = 0)
fn put_judge(out: &mut Page)
    ensures { PutsInstr out.old judgment out.new }
{
    out.put_all(&[ASSIGN, TERMINATED, AND, LOCAL, TERMINATED]);
    put_equal(out, 0);
}

// "stmt := tmp[t], terminated := terminated and (stmt = 0)"
fn put_finished(out: &mut Page, k: usize)
    ensures { Judged k out.old out.new }
{
    put_get_at(out, STMT, k);
    put_judge(out);
}

// One part of thread k.
fn put_thread(
    part: Part,
    t: &[u8],
    shape: Shape,
    bounds: &[usize; BOUNDS],
    k: usize,
    out: &mut Page,
)
    ensures { OneThread part t.now shape bounds.now k out.old out.new }
{
    match part {
        Part::Beginning => put_initial(out, k, begin_of(bounds, main_of(t, shape, k))),
        Part::From => {
            let main = site_of(t, shape, main_of(t, shape, k));
            put_locate(out, main.from as usize);
            put_initial(out, k, 0);
        }
        Part::Finished => put_finished(out, k),
    }
}

// "for each t"
fn put_threads(part: Part, t: &[u8], shape: Shape, bounds: &[usize; BOUNDS], out: &mut Page)
    ensures { AllThreads part t.now shape bounds.now out.old out.new }
{
    for k in 0..usize::from(shape.threads) {
        put_thread(part, t, shape, bounds, k, out);
    }
}

// select(a, b)
fn put_select(out: &mut Page, a: usize, b: usize)
    ensures { PutsInstr out.old (select a b) out.new }
{
    out.put(SELECT);
    out.put_two(a);
    out.put_two(b);
}

// "select(ptid, pct); tmp := ptid; tid := tmp[0]; tmp := pct; stmt := tmp[tid]"
fn put_choice(hub: Hub, out: &mut Page)
    ensures { Chooses hub out.old out.new }
{
    put_select(out, hub.ptid, hub.pct);
    put_locate(out, hub.ptid);
    put_get_at(out, TID, 0);
    put_take(out, hub.pct, STMT);
}

// "call l with tid"
fn put_invoke(out: &mut Page, l: usize)
    ensures { Invokes l out.old out.new }
{
    out.put(CALL);
    out.put_two(l);
    out.put_all(&[1, LOCAL, TID, END]);
}

// "if stmt = l, call l with tid, else nothing"
fn put_case(out: &mut Page, l: usize)
    ensures { Cases l out.old out.new }
{
    out.put(IF);
    put_equal(out, l);
    put_invoke(out, l);
    out.put(END);
}

// "for each label a separate" one
fn put_switch(labels: usize, out: &mut Page)
    ensures { Switches labels out.old out.new }
{
    for k in 0..labels {
        put_case(out, k + 1);
    }
}

// "terminated := true; tmp := pct; for each t, .."; the end of the round
fn put_closing(t: &[u8], shape: Shape, bounds: &[usize; BOUNDS], hub: Hub, out: &mut Page)
    ensures { Closes t.now shape bounds.now hub out.old out.new }
{
    out.put_all(&[ASSIGN, TERMINATED, TRUE]);
    put_locate(out, hub.pct);
    put_threads(Part::Finished, t, shape, bounds, out);
    out.put(END);
}

// A round of the loop.
fn put_round(t: &[u8], shape: Shape, bounds: &[usize; BOUNDS], hub: Hub, out: &mut Page)
    ensures { RoundOf t.now shape bounds.now hub out.old out.new }
{
    put_choice(hub, out);
    put_switch(usize::from(shape.labels), out);
    put_closing(t, shape, bounds, hub, out);
}

// "terminated := false; while not terminated"
fn put_loop(t: &[u8], shape: Shape, bounds: &[usize; BOUNDS], hub: Hub, out: &mut Page)
    ensures { LoopOf t.now shape bounds.now hub out.old out.new }
{
    out.put_all(&[ASSIGN, TERMINATED, FALSE]);
    out.put_all(&[WHILE, NOT, LOCAL, TERMINATED]);
    put_round(t, shape, bounds, hub, out);
    out.put(END);
}

// "tmp := pct; for each t, tmp[t] := beginning of its main; for each t, tmp := from of its main, tmp[t] := 0"
fn put_start(t: &[u8], shape: Shape, bounds: &[usize; BOUNDS], hub: Hub, out: &mut Page)
    ensures { StartOf t.now shape bounds.now hub out.old out.new }
{
    put_locate(out, hub.pct);
    put_threads(Part::Beginning, t, shape, bounds, out);
    put_threads(Part::From, t, shape, bounds, out);
}

// The body of procedure 0.
pub fn put_zeroth(t: &[u8], shape: Shape, bounds: &[usize; BOUNDS], out: &mut Page)
    ensures { ZerothOf t.now shape bounds.now out.old out.new }
{
    let hub = hub_of(shape);
    put_start(t, shape, bounds, hub, out);
    put_loop(t, shape, bounds, hub, out);
}

// The procedures that simulate the labels, in label order: each body is the code of its label.
ghost use Rattle.std.specs.Prelude.{◌≡◌, ◌≤◌, ◌<◌, length};
ghost use Rattle.format.specs.Rules.{max_labels};
ghost use Rattle.simulation.specs.Laws.Bodies.{BeginAt, CallsAt, PutsNode, PutsLabel, KeptAt, PutsBodies};

use crate::codes::{put_call, put_step, put_test};
use basics::bytes::{byte_at, two_bytes};
use basics::numbers::{BOUNDS, CALL, END, FAR, IF, LABELS, MAP, NODE, PAIR, PROCEDURES, WHILE};
use emit::layout::{Shape, Site, site_of};
use emit::pieces::put_return;
use labels::label_map::{FIRST, NEXT, OTHER, PROCEDURE};
use writer::page::Page;

// Where procedure m begins; 0 past the last.
pub fn begin_of(bounds: &[usize; BOUNDS], m: usize) -> usize
    ensures { BeginAt bounds.now m result }
{
    if m < PROCEDURES {
        return bounds[PAIR * m + FIRST];
    }
    0
}

// The call at `at`, which `next` follows.
fn put_call_at(
    t: &[u8],
    at: usize,
    shape: Shape,
    bounds: &[usize; BOUNDS],
    s: Site,
    next: usize,
    out: &mut Page,
)
    requires { at < length t.now }
    ensures { CallsAt t.now at shape bounds.now s next out.old out.new }
{
    let callee = usize::from(two_bytes(t, at + 1));
    let begin = begin_of(bounds, callee);
    let count = byte_at(t, at + 3);
    put_call(
        t,
        at + 4,
        count,
        s,
        site_of(t, shape, callee),
        begin,
        next,
        out,
    );
}

// What stands at `at`: an instruction that leads to `next`, and if it is a test that fails to `other`, or the end of a body.
fn put_node(
    t: &[u8],
    at: usize,
    shape: Shape,
    bounds: &[usize; BOUNDS],
    s: Site,
    next: usize,
    other: usize,
    out: &mut Page,
)
    ensures { PutsNode t.now at shape bounds.now s next other out.old out.new }
{
    if t.len() <= at {
        return;
    }
    match t[at] {
        END => put_return(s, out),
        // stays: of an arm `WHILE | IF` the proof knows a range of bytes, and the arms after it do not close.
        WHILE => put_test(t, at + 1, s, next, other, out),
        IF => put_test(t, at + 1, s, next, other, out),
        CALL => put_call_at(t, at, shape, bounds, s, next, out),
        _ => put_step(t, at, s, next, out),
    }
}

// "Procedure l simulates label l"
fn put_label(
    t: &[u8],
    shape: Shape,
    map: &[usize; MAP],
    bounds: &[usize; BOUNDS],
    label: usize,
    out: &mut Page,
)
    requires { label ≤ max_labels }
    ensures { PutsLabel t.now shape map.now bounds.now label out.old out.new }
{
    let row = NODE * label;
    let at = map[row];
    let next = map[row + NEXT];
    let other = map[row + OTHER];
    let s = site_of(t, shape, map[row + PROCEDURE]);
    put_node(t, at, shape, bounds, s, next, other, out);
}

// Where a body begins, as it is kept: where counting has stopped, nothing is read of it.
fn short(at: usize) -> u32
    ensures { KeptAt at result }
{
    at.min(FAR) as u32
}

// The bodies of all labels, and where each begins.
pub fn put_bodies(
    t: &[u8],
    shape: Shape,
    map: &[usize; MAP],
    bounds: &[usize; BOUNDS],
    offsets: &mut [u32; LABELS],
    out: &mut Page,
)
    requires { (shape.labels ≤ max_labels) × (length offsets.old ≡ max_labels) }
    ensures { PutsBodies t.now shape map.now bounds.now offsets.new
        out.old out.new }
{
    for done in 0..usize::from(shape.labels) {
        offsets[done] = short(out.at());
        put_label(t, shape, map, bounds, done + 1, out);
    }
}

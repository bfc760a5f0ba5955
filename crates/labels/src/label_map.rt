// The label map of a concurrent table that was read: for each label four numbers, its position, its procedure and the labels that
// it leads to.
ghost use Rattle.std.specs.Prelude.{◌≡◌, ◌+◌, ◌≤◌, length};
ghost use Rattle.basics.specs.Sizes.{map_words, bound_words};
ghost use Rattle.labels.specs.Walks.{BlockIn, InstrIn, BeginsAt, PutsNode, PutsBounds, FillsBlock, FillsInstr, BodiesIn, MapsLabels};

use super::count::{after_expr, count_block, count_instr};
use basics::numbers::{BOUNDS, END, IF, LABELS, MAP, NESTING, NODE, PAIR, PROCEDURES, WHILE};

// A label's row of the map has its place, and then these.
pub const PROCEDURE: usize = 1;

pub const NEXT: usize = 2;

pub const OTHER: usize = 3;

// A procedure's row of the bounds has these.
pub const FIRST: usize = 0;

pub const LAST: usize = 1;

// Writes the four numbers of a label.
fn put_node(
    map: &mut [usize; MAP],
    label: usize,
    place: usize,
    proc: usize,
    next: usize,
    other: usize,
)
    ensures { PutsNode map.old label place proc next other map.new }
{
    if label <= LABELS {
        let i = NODE * label;
        map[i] = place;
        map[i + PROCEDURE] = proc;
        map[i + NEXT] = next;
        map[i + OTHER] = other;
    }
}

// Writes the first and the last label of a procedure.
fn put_bounds(bounds: &mut [usize; BOUNDS], proc: usize, begin: usize, end: usize)
    ensures { PutsBounds bounds.old proc begin end bounds.new }
{
    if proc < PROCEDURES {
        let i = PAIR * proc;
        bounds[i + FIRST] = begin;
        bounds[i + LAST] = end;
    }
}

// The label that a block begins with, where its labels count from `label`; of an empty one, that of what follows it.
fn begin(t: &[u8], at: usize, label: usize, after: usize) -> usize
    ensures { BeginsAt t.now at label after result }
{
    if at < t.len() && t[at] == END {
        after
    } else {
        label
    }
}

// The nodes of a block's labels, from `label` on. The label `after` follows the block.
#[cycle(fill_block_fill_instr)]
fn fill_block(
    t: &[u8],
    at: usize,
    depth: u8,
    label: usize,
    after: usize,
    proc: usize,
    map: &mut [usize; MAP],
)
    requires block_in { BlockIn t.now at depth }
    requires label_bound { label ≤ at + 1 }
    ensures { FillsBlock t.now at depth label after proc map.old map.new }
{
    let mut i = at;
    let mut l = label;
    while t[i] != END {
        let one = count_instr(t, i, depth - 1);
        let next = one.next;
        let beyond = l + one.labels;
        let follow = begin(t, next, beyond, after);
        fill_instr(t, i, depth - 1, l, follow, proc, map);
        i = next;
        l = beyond;
    }
}

// The node of an instruction's label, and those of the blocks inside. The label `after` follows the instruction: after the last
// instruction of a while body comes the while; after the last of a branch, what follows the if.
#[cycle(fill_block_fill_instr)]
fn fill_instr(
    t: &[u8],
    at: usize,
    depth: u8,
    label: usize,
    after: usize,
    proc: usize,
    map: &mut [usize; MAP],
)
    requires instr_in { InstrIn t.now at depth }
    requires label_bound { label ≤ at + 1 }
    ensures { FillsInstr t.now at depth label after proc map.old map.new }
{
    match t[at] {
        WHILE => {
            let body = after_expr(t, at + 1);
            let first = begin(t, body, label + 1, label);
            put_node(map, label, at, proc, first, after);
            fill_block(t, body, depth, label + 1, label, proc, map);
        }
        IF => {
            let yes = after_expr(t, at + 1);
            let counted = count_block(t, yes, depth);
            let no = counted.next;
            let second = label + 1 + counted.labels;
            let then_first = begin(t, yes, label + 1, after);
            let else_first = begin(t, no, second, after);
            put_node(map, label, at, proc, then_first, else_first);
            fill_block(t, yes, depth, label + 1, after, proc, map);
            fill_block(t, no, depth, second, after, proc, map);
        }
        _ => put_node(map, label, at, proc, after, 0),
    }
}

// Fills the map with the numbers of each label, and `bounds` with the first and the last label of each procedure: "in each,
// instructions in textual order .. then one end label". Answers how many labels there are.
pub fn fill_labels(
    t: &[u8],
    procs: usize,
    map: &mut [usize; MAP],
    bounds: &mut [usize; BOUNDS],
) -> usize
    requires bodies_in { BodiesIn t.now 0 procs }
    requires map_len { (length map.old ≡ map_words) × (length bounds.old ≡ bound_words) }
    ensures { MapsLabels t.now procs map.new bounds.new result }
{
    let mut at = 0;
    let mut l = 1;
    for m in 0..procs {
        let body = count_block(t, at, NESTING);
        let next = body.next;
        let end = l + body.labels;
        fill_block(t, at, NESTING, l, end, m, map);
        put_node(map, end, next - 1, m, 0, 0);
        let first = begin(t, at, l, end);
        put_bounds(bounds, m, first, end);
        at = next;
        l = end + 1;
    }
    l - 1
}

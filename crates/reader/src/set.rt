// Rule 8: "a local may be read before it is set". A set of locals is the bits of a number.
ghost use Rattle.std.specs.Prelude.{◌≡◌, ◌<◌, length, get_or};
ghost use Rattle.format.specs.Rules.{set_first};
ghost use Rattle.basics.specs.BitSets.{bits};
ghost use Rattle.reader.specs.BitSets.{insert, below};
ghost use Rattle.scan.specs.Laws.Laid.{Judges, Named};
ghost use Rattle.reader.specs.Laws.KnownScans.{leaf_known, Knows};
ghost use Rattle.reader.specs.Laws.SetPlain.{settled, SetsPlain, SetsInstr, SetsBlock};
ghost use Rattle.reader.specs.Laws.SetScans.{proc_set};

use basics::marks;
use basics::numbers::{ASSIGN, ATOMIC, CALL, END, IF, LOCAL, NESTING, READ, SELECT, WHILE, WRITE};
use scan::bodies::Bodies;
use scan::tokens::byte_at;

// Is x in the set?
#[tactic(auto, using(crate::specs::Laws::KnownScans::known_ways))]
fn has(set: u64, x: usize) -> bool
    ensures { result ≡ bits set x }
{
    x < 64 && (set >> x) % 2 == 1
}

// The set with x; there are no locals from 64 on.
#[tactic(auto, using(crate::specs::Laws::SetScans::ways))]
fn with(set: u64, x: usize) -> u64
    ensures { result ≡ insert set x }
{
    if x < 64 { set | (1 << x) } else { set }
}

// Is the variable set, if the mark at a place is one?
#[tactic(auto, using(crate::specs::Laws::KnownScans::known_ways))]
fn leaf_known(t: &[u8], at: usize, mark: u8, set: u64) -> bool
    requires { (at < length t.now) × (mark ≡ get_or t.now at 0) }
    ensures { result ≡ leaf_known t.now at (bits set) }
{
    mark != LOCAL || has(set, byte_at(t, at + 1))
}

// Where `count` expressions that stand from `at` on end, if each of their variables is set. A mark is followed by its operands,
// so each adds those and takes itself from what is still to come.
fn known_exprs(t: &[u8], at: usize, count: usize, set: u64) -> Option<usize>
    requires { count < 256 }
    ensures { Knows t.now at count set result }
{
    let mut i = at;
    let mut left = count;
    while 0 < left {
        if t.len() <= i {
            return None;
        }
        let mark = t[i];
        let operands = marks::operands(mark);
        if operands == marks::NO_MARK {
            return None;
        }
        if !leaf_known(t, i, mark, set) {
            return None;
        }
        i = i + 1 + (marks::payload(mark) as usize);
        left = left - 1 + (operands as usize);
    }
    Some(i)
}

// What is set behind expressions whose variables are set.
#[tactic(auto, unfolding(crate::specs::Laws::SetPlain::settled))]
fn then_set(end: Option<usize>, set: u64) -> Option<(usize, u64)>
    ensures { result ≡ settled end set }
{
    Some((end?, set))
}

// An instruction that holds no block: where it ends, and what is set behind it, if no local may be read before it is set. "An assignment or
// read sets its target".
#[tactic(auto, using(crate::specs::Laws::SetScans::ways))]
fn set_plain(t: &[u8], at: usize, set: u64) -> Option<(usize, u64)>
    requires { at < length t.now }
    ensures { SetsPlain t.now at set result }
{
    match t[at] {
        ASSIGN => then_set(
            known_exprs(t, at + 2, 1, set),
            with(set, byte_at(t, at + 1)),
        ),
        WRITE if has(set, byte_at(t, at + 1)) => then_set(known_exprs(t, at + 2, 2, set), set),
        READ if has(set, byte_at(t, at + 2)) => then_set(
            known_exprs(t, at + 3, 1, set),
            with(set, byte_at(t, at + 1)),
        ),
        CALL => then_set(known_exprs(t, at + 4, byte_at(t, at + 3), set), set),
        SELECT => Some((at + 5, set)),
        _ => None,
    }
}

// "after an if, what both branches set; after a while, what was set before it; after an atomic, what its block sets".
#[cycle(set_block_set_instr)]
#[tactic(auto, using(crate::specs::Laws::SetScans::ways))]
fn set_instr(t: &[u8], at: usize, depth: u8, set: u64) -> Option<(usize, u64)>
    requires { at < length t.now }
    ensures { SetsInstr t.now at depth set result }
{
    match t[at] {
        WHILE => {
            let body = known_exprs(t, at + 1, 1, set)?;
            let (next, _) = set_block(t, body, depth, set)?;
            Some((next, set))
        }
        IF => {
            let yes = known_exprs(t, at + 1, 1, set)?;
            let (no, one) = set_block(t, yes, depth, set)?;
            let (next, other) = set_block(t, no, depth, set)?;
            Some((next, one & other))
        }
        ATOMIC => set_block(t, at + 1, depth, set),
        _ => set_plain(t, at, set),
    }
}

// The instructions up to the byte 00, one after the other.
#[cycle(set_block_set_instr)]
#[tactic(auto, using(crate::specs::Laws::SetScans::ways))]
fn set_block(t: &[u8], at: usize, depth: u8, set: u64) -> Option<(usize, u64)>
    ensures { SetsBlock t.now at depth set result }
{
    if depth == 0 {
        return None;
    }
    let mut i = at;
    let mut known = set;
    while i < t.len() {
        if t[i] == END {
            return Some((i + 1, known));
        }
        (i, known) = set_instr(t, i, depth - 1, known)?;
    }
    None
}

// The numbers below n.
#[tactic(auto, using(crate::specs::Laws::SetScans::proc_ways))]
fn firsts(n: usize) -> u64
    ensures { result ≡ below n }
{
    if n < 64 { (1 << n) - 1 } else { 0 }
}

// Procedure m: "parameters are set at entry".
fn body_set(bodies: &Bodies, m: usize) -> bool
    requires { m < bodies.now.procedures }
    ensures { Judges (Named bodies.now.table.now bodies.now.procedures bodies.now.records) (proc_set m) result }
{
    let parameters = firsts(bodies.parameters(m));
    set_block(bodies.table, bodies.start(m), NESTING, parameters).is_some()
}

// All procedures of a table that rules 1 to 5 let through.
pub fn set_before_read(bodies: &Bodies) -> bool
    ensures { Judges (Named bodies.now.table.now bodies.now.procedures bodies.now.records) set_first result }
{
    for m in 0..bodies.procedures {
        if !body_set(bodies, m) {
            return false;
        }
    }
    true
}

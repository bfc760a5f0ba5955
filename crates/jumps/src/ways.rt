// The jump table of a sequential table that was accepted: an entry for each position. It says where a run goes on after a block that
// ends there, and where it goes on if the test there fails.
ghost use Rattle.std.specs.Prelude.{◌≡◌, ◌≤◌, ◌<◌, length, get_or};
ghost use Rattle.labels.specs.Walks.{BlockIn, InstrIn, BodiesIn};
ghost use Rattle.jumps.specs.Jumps.{positions, Onward, FillsBlock, FillsInstr, FillsJumps, Settles, Branches};

use basics::numbers::{END, IF, LONGEST, NESTING, WHILE};
use labels::count::{after_expr, count_block, count_instr};

// Where code goes on whose next block, or the rest of one, stands at `at`: there, or at `after` if nothing of it is left.
fn onward(t: &[u8], at: usize, after: usize) -> usize
    requires { at < length t.now }
    ensures { Onward t.now at after result }
{
    if t[at] == END { after } else { at }
}

// The entries of a block. What follows the block goes on at `after`.
#[cycle(fill_block_fill_instr)]
fn fill_block(t: &[u8], at: usize, depth: u8, after: usize, jumps: &mut [u16; LONGEST])
    requires block_in { BlockIn t.now at depth }
    requires after_lt_positions { (after < positions) × (length t.now ≤ positions) }
    ensures { FillsBlock t.now at depth after jumps.old jumps.new }
{
    let mut i = at;
    while t[i] != END {
        let next = count_instr(t, i, depth - 1).next;
        let follow = onward(t, next, after);
        fill_instr(t, i, depth - 1, follow, jumps);
        i = next;
    }
    jumps[i] = after as u16;
}

// Those of an instruction: "After the last instruction of a while body comes the while; after the last of a branch, what follows the
// if", which goes on at `after`.
#[cycle(fill_block_fill_instr)]
fn fill_instr(t: &[u8], at: usize, depth: u8, after: usize, jumps: &mut [u16; LONGEST])
    requires instr_in { InstrIn t.now at depth }
    requires after_lt_positions { (after < positions) × (length t.now ≤ positions) }
    ensures { FillsInstr t.now at depth after jumps.old jumps.new }
{
    match t[at] {
        WHILE => {
            jumps[at] = after as u16;
            let body = after_expr(t, at + 1);
            fill_block(t, body, depth, at, jumps);
        }
        IF => {
            let yes = after_expr(t, at + 1);
            let no = count_block(t, yes, depth).next;
            jumps[at] = onward(t, no, after) as u16;
            fill_block(t, yes, depth, after, jumps);
            fill_block(t, no, depth, after, jumps);
        }
        _ => {}
    }
}

// The entries of all bodies. A body's end leads to itself.
pub fn fill(t: &[u8], procedures: usize, jumps: &mut [u16; LONGEST])
    requires { BodiesIn t.now 0 procedures × (length t.now ≤ positions) }
    ensures { FillsJumps t.now procedures jumps.old jumps.new }
{
    let mut at = 0;
    for _ in 0..procedures {
        let next = count_block(t, at, NESTING).next;
        fill_block(t, at, NESTING, next - 1, jumps);
        at = next;
    }
}

// An entry as a position.
fn wide(entry: u16) -> usize
    ensures { (result ≡ entry) × (result < positions) }
{
    usize::from(entry)
}

// Where a run goes on whose next block, or the rest of one, stands at `at`.
pub fn settle(t: &[u8], jumps: &[u16; LONGEST], at: usize) -> usize
    requires { (at < length t.now) × (length t.now ≤ positions) }
    ensures { Settles t.now jumps.now at result }
{
    if t[at] == END { wide(jumps[at]) } else { at }
}

// Where a run goes on after a test at `at`: `next` is where the expression ends.
pub fn branch(t: &[u8], jumps: &[u16; LONGEST], at: usize, truth: bool, next: usize) -> usize
    requires { (at < positions) × (next < length t.now) × (length t.now ≤ positions) }
    ensures { Branches t.now jumps.now at truth next result }
{
    if truth {
        settle(t, jumps, next)
    } else {
        wide(jumps[at])
    }
}

// Where a run goes on after the test at `at` failed.
pub fn other(jumps: &[u16; LONGEST], at: usize) -> usize
    requires { at < positions }
    ensures { (result ≡ get_or jumps.now at 0) × (result < positions) }
{
    wide(jumps[at])
}

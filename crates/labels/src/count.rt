// How many labels the blocks and instructions of a concurrent table have, and where they end. What is walked over stands there:
// the table was read.
ghost use Rattle.labels.specs.Walks.{ExprEnds, ExprsEnd, PlainEnds, BlockIn, InstrIn, CountsBlock, CountsInstr};

use basics::numbers::{ASSIGN, ATOMIC, CALL, DEPTH, END, IF, READ, WHILE, WRITE};
use parse::expression::read_expr;

// Where a block or an instruction ends, and its labels.
#[derive(Clone, Copy)]
pub struct Counted {
    pub next: usize,
    pub labels: usize,
}

// Where an expression ends.
#[tactic(auto, using(crate::proofs::Counting::after_read))]
pub fn after_expr(t: &[u8], at: usize) -> usize
    ensures { ExprEnds t.now at result }
{
    read_expr(t, at, DEPTH).unwrap_or(at)
}

// Where n expressions end.
fn after_exprs(t: &[u8], at: usize, n: u8) -> usize
    ensures { ExprsEnd t.now at n result }
{
    let mut i = at;
    for _ in 0..n {
        i = after_expr(t, i);
    }
    i
}

// The labels of the instructions up to the byte 00.
#[cycle(count_block_count_instr)]
pub fn count_block(t: &[u8], at: usize, depth: u8) -> Counted
    requires { BlockIn t.now at depth }
    ensures { CountsBlock t.now at depth result }
{
    let mut i = at;
    let mut n = 0;
    while t[i] != END {
        let one = count_instr(t, i, depth - 1);
        i = one.next;
        n += one.labels;
    }
    Counted {
        next: i + 1,
        labels: n,
    }
}

// An instruction has a label, and those of the blocks inside. What is inside an atomic block has none.
#[cycle(count_block_count_instr)]
pub fn count_instr(t: &[u8], at: usize, depth: u8) -> Counted
    requires { InstrIn t.now at depth }
    ensures { CountsInstr t.now at depth result }
{
    match t[at] {
        WHILE => {
            let body = count_block(t, after_expr(t, at + 1), depth);
            Counted {
                next: body.next,
                labels: 1 + body.labels,
            }
        }
        IF => {
            let yes = count_block(t, after_expr(t, at + 1), depth);
            let no = count_block(t, yes.next, depth);
            Counted {
                next: no.next,
                labels: 1 + yes.labels + no.labels,
            }
        }
        ATOMIC => Counted {
            next: count_block(t, at + 1, depth).next,
            labels: 1,
        },
        _ => Counted {
            next: after_plain(t, at),
            labels: 1,
        },
    }
}

// Where an instruction ends that holds no block.
fn after_plain(t: &[u8], at: usize) -> usize
    requires { InstrIn t.now at 0 }
    ensures { PlainEnds t.now at result }
{
    match t[at] {
        ASSIGN => after_expr(t, at + 2),
        WRITE => after_expr(t, after_expr(t, at + 2)),
        READ => after_expr(t, at + 3),
        CALL => after_exprs(t, at + 4, t[at + 3]),
        _ => at + 5,
    }
}

// Blocks and instructions in bytes: the two readers call each other, the allowed depth falling.
ghost use Rattle.std.specs.Prelude.{◌≡◌, eqb};
ghost use Rattle.std.proofs.Math.Bool as B;
ghost use Rattle.value.specs.Maybe.{both};
ghost use Rattle.format.specs.Rules.{is_concurrent, plainly};
ghost use Rattle.parse.specs.Ends.{ReadsValues, ReadsPlain, ReadsInstr, ReadsBlock, BodyReads, kind_of, here_of, inside_of};

use super::expression::read_expr;
use super::{Context, Kind};
use basics::numbers::{ASSIGN, ATOMIC, CALL, DEPTH, END, IF, NESTING, READ, SELECT, WHILE, WRITE};

// Where `count` expressions that stand from `at` on end.
#[tactic(auto, using(crate::proofs::Values::values_ways))]
fn read_values(code: &[u8], at: usize, count: u8) -> Option<usize>
    ensures { ReadsValues code.now at count result }
{
    if code.len() < at {
        return None;
    }
    let mut position = at;
    for _ in 0..count {
        position = read_expr(code, position, DEPTH)?;
    }
    Some(position)
}

// "select, sequential only, only in procedure 0".
fn may_select(context: Context) -> bool
    ensures { result ≡ both (B.not (is_concurrent (here_of context).kind)) (eqb context.procedure 0) }
{
    context.kind == Kind::Sequential && context.procedure == 0
}

// "atomic, concurrent only; within it no while, call or atomic".
fn may_atomic(context: Context) -> bool
    ensures { result ≡ both (is_concurrent (here_of context).kind) (plainly (here_of context)) }
{
    context.kind == Kind::Concurrent && !context.inside
}

// The instructions that hold no block: some bytes, and then some expressions.
#[tactic(auto, using(crate::proofs::Plain::plain_ways))]
fn read_plain(code: &[u8], at: usize, context: Context) -> Option<usize>
    ensures { ReadsPlain code.now at (here_of context) result }
{
    match *code.get(at)? {
        ASSIGN => read_values(code, at + 2, 1),
        WRITE => read_values(code, at + 2, 2),
        READ => read_values(code, at + 3, 1),
        CALL if !context.inside => read_values(code, at + 4, *code.get(at + 3)?),
        SELECT if may_select(context) => read_values(code, at + 5, 0),
        _ => None,
    }
}

// Inside an atomic block that stands there.
fn within(context: Context) -> Context
    ensures { here_of result ≡ inside_of (here_of context) }
{
    Context {
        inside: true,
        ..context
    }
}

// Where the block that stands from `at` on ends, if it is at most `depth` blocks one in the other.
#[cycle(read_block_read_instruction)]
#[tactic(auto, using(crate::proofs::Blocks::block_ways))]
pub fn read_block(code: &[u8], at: usize, depth: u8, context: Context) -> Option<usize>
    ensures { ReadsBlock code.now at depth (here_of context) result }
{
    if depth == 0 {
        return None;
    }
    let mut position = at;
    while position < code.len() {
        if code[position] == END {
            return Some(position + 1);
        }
        position = read_instruction(code, position, depth - 1, context)?;
    }
    None
}

// Where the body of a procedure ends that begins at `at`.
pub fn read_body(code: &[u8], at: usize, procedure: usize, kind: Kind) -> Option<usize>
    ensures { BodyReads (kind_of kind) code.now at procedure result }
{
    let context = Context {
        kind,
        procedure,
        inside: false,
    };
    read_block(code, at, NESTING, context)
}

// Where the instruction that stands from `at` on ends; the blocks in it are at most `depth` deep.
#[cycle(read_block_read_instruction)]
#[tactic(auto, using(crate::proofs::Blocks::block_ways))]
fn read_instruction(code: &[u8], at: usize, depth: u8, context: Context) -> Option<usize>
    ensures { ReadsInstr code.now at depth (here_of context) result }
{
    match *code.get(at)? {
        WHILE if context.inside => None,
        WHILE => {
            let body = read_expr(code, at + 1, DEPTH)?;
            read_block(code, body, depth, context)
        }
        IF => {
            let first = read_expr(code, at + 1, DEPTH)?;
            let second = read_block(code, first, depth, context)?;
            read_block(code, second, depth, context)
        }
        ATOMIC if may_atomic(context) => read_block(code, at + 1, depth, within(context)),
        ATOMIC => None,
        _ => read_plain(code, at, context),
    }
}

// The variables that an expression mentions, as a set: bit x of a number is local x.
ghost use Rattle.std.specs.Prelude.{◌≡◌, ◌<◌, length};
ghost use Rattle.basics.specs.BitSets.{bits};
ghost use Rattle.labels.specs.Walks.{Only, Gathers, GathersLeaf, GathersEach, CountsSet};

use basics::marks::{operands, payload};
use basics::numbers::{DEPTH, LOCAL, LOCALS};

// The set of the variables, and where the expression ends.
#[derive(Clone, Copy)]
pub struct Gathered {
    pub set: u16,
    pub next: usize,
}

// The set of one variable. There are no locals from 16 on: such a byte gives the empty set.
fn only(x: u8) -> u16
    ensures { Only x result }
{
    if x < LOCALS { 1 << x } else { 0 }
}

// Is x in the set?
pub fn has(set: u16, x: u8) -> bool
    ensures { result ≡ bits set x }
{
    x < LOCALS && (set >> x) % 2 == 1
}

// How many variables are in the set: k of the price list.
pub fn count(set: u16) -> u64
    ensures { CountsSet set result }
{
    u64::from(set.count_ones())
}

// The variables of the expression that stands from `at` on, at most `depth` deep.
pub fn gather(code: &[u8], at: usize, depth: u8) -> Gathered
    ensures { Gathers code.now at depth result }
{
    if depth == 0 || code.len() <= at {
        return Gathered { set: 0, next: at };
    }
    match operands(code[at]) {
        1 => gather(code, at + 1, depth - 1),
        2 => {
            let left = gather(code, at + 1, depth - 1);
            let right = gather(code, left.next, depth - 1);
            Gathered {
                set: left.set | right.set,
                next: right.next,
            }
        }
        _ => leaf(code, at),
    }
}

// A leaf: a constant mentions no variable.
fn leaf(code: &[u8], at: usize) -> Gathered
    requires { at < length code.now }
    ensures { GathersLeaf code.now at result }
{
    let mark = code[at];
    let next = at + 1 + usize::from(payload(mark));
    if mark == LOCAL && at + 1 < code.len() {
        Gathered {
            set: only(code[at + 1]),
            next,
        }
    } else {
        Gathered { set: 0, next }
    }
}

// The variables of `count` expressions from `at` on, in one set.
pub fn gather_each(code: &[u8], at: usize, count: u8) -> u16
    ensures { GathersEach code.now at count result }
{
    let mut set = 0;
    let mut i = at;
    for _ in 0..count {
        let found = gather(code, i, DEPTH);
        set |= found.set;
        i = found.next;
    }
    set
}

// The price list. k is the count of ones of a set of variables; for a call the sets of all arguments are joined first.
ghost use Rattle.std.specs.Prelude.{◌≡◌, ◌<◌, length};
ghost use Rattle.prices.specs.Costs.{InnerIn, InsideIn, StepIn, CostsPlain, CostsInner, CostsInside, CostsStep};

use basics::bytes::byte_at;
use basics::numbers::{ASSIGN, ATOMIC, CALL, DEPTH, END, IF, NESTING, WHILE, WRITE};
use labels::variables::{count, gather, gather_each};

// The least and the most that a step costs.
#[derive(Clone, Copy)]
pub struct Cost {
    pub least: u64,
    pub most: u64,
}

// What code inside an atomic block costs, and where it ends.
#[derive(Clone, Copy)]
struct Inside {
    cost: Cost,
    next: usize,
}

// A step that costs the same in any case.
fn exactly(price: u64) -> Cost
    ensures { result ≡ record { least = price; most = price } }
{
    Cost {
        least: price,
        most: price,
    }
}

// assign, write and read in place: "assign, read and write 2 lower".
fn plain_costs(t: &[u8], at: usize) -> Inside
    requires { at < length t.now }
    ensures { CostsPlain t.now at result }
{
    match t[at] {
        ASSIGN => {
            let e = gather(t, at + 2, DEPTH);
            Inside {
                cost: exactly(2 * count(e.set) + 2),
                next: e.next,
            }
        }
        WRITE => {
            let o = gather(t, at + 2, DEPTH);
            let e = gather(t, o.next, DEPTH);
            Inside {
                cost: exactly(2 * count(e.set) + 2 * count(o.set) + 3),
                next: e.next,
            }
        }
        _ => {
            let o = gather(t, at + 3, DEPTH);
            Inside {
                cost: exactly(2 * count(o.set) + 5),
                next: o.next,
            }
        }
    }
}

// An instruction in place: "an inner if keeps its blocks (2k+1 and the branch taken)".
#[cycle(inner_costs_inside_costs)]
fn inner_costs(t: &[u8], at: usize, depth: u8) -> Inside
    requires { InnerIn t.now at depth }
    ensures { CostsInner t.now at depth result }
{
    if t[at] == IF {
        let test = gather(t, at + 1, DEPTH);
        let yes = inside_costs(t, test.next, depth);
        let no = inside_costs(t, yes.next, depth);
        let own = 2 * count(test.set) + 1;
        return Inside {
            cost: Cost {
                least: own + yes.cost.least.min(no.cost.least),
                most: own + yes.cost.most.max(no.cost.most),
            },
            next: no.next,
        };
    }
    plain_costs(t, at)
}

// The instructions of a block in place, up to the byte 00.
#[cycle(inner_costs_inside_costs)]
fn inside_costs(t: &[u8], at: usize, depth: u8) -> Inside
    requires { InsideIn t.now at depth }
    ensures { CostsInside t.now at depth result }
{
    let mut i = at;
    let mut least = 0;
    let mut most = 0;
    while t[i] != END {
        let one = inner_costs(t, i, depth - 1);
        least += one.cost.least;
        most += one.cost.most;
        i = one.next;
    }
    Inside {
        cost: Cost { least, most },
        next: i + 1,
    }
}

// The step of what stands at `at`: the end of a body, or an instruction.
pub fn step_costs(t: &[u8], at: usize) -> Cost
    requires { StepIn t.now at }
    ensures { CostsStep t.now at result }
{
    match t[at] {
        END => exactly(4),
        IF | WHILE => exactly(2 * count(gather(t, at + 1, DEPTH).set) + 3),
        CALL => {
            let n = byte_at(t, at + 3);
            let k = count(gather_each(t, at + 4, n));
            exactly(2 * k + 2 * u64::from(n) + 4)
        }
        ATOMIC => {
            let inside = inside_costs(t, at + 1, NESTING).cost;
            Cost {
                least: inside.least + 2,
                most: inside.most + 2,
            }
        }
        _ => exactly(plain_costs(t, at).cost.least + 2),
    }
}

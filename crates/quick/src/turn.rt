// The deciding half of a frequent step, by words: what `decide` answers, with the words of its values instead of the values, and with
// the tests in a row that fail as one. `Left` claims nothing: the run then goes the general way. So this may leave out whatever it likes.
ghost use Rattle.std.specs.Prelude.{◌≡◌, ◌+◌, ◌≤◌, ◌<◌, length, get_or};
ghost use Rattle.jumps.specs.Jumps.{positions};
ghost use Rattle.decide.specs.Decided.{Poised};
ghost use Rattle.quick.specs.Quick.{Turning, Turns, steps_of, Small, Spotted, Assigns, Writing, Writes, Reading, Reads, Tested, Testing};
ghost use Rattle.quick.specs.Quick.{Choice, SaysChoice, SaysAnother, Chooses, Calls};

use super::brief;
use super::brief::{LEAVES, Worded};
use basics::numbers::{
    ASSIGN, CALL, END, EQUAL, FRAME, LOCAL, LOCATIONS, LONGEST, READ, SELECT, STARTS, WHOLE, WRITE,
};
use engine::memory::Spot;
use engine::word::{FALSE, FIRST_LOCATION, KIND, NOTHING, TRUE};
use engine::{memory, table};
use jumps::ways;

// What a step does. `next` is where the instruction ends, of a test that holds where its expression ends. Of tests that fail `at` is
// where the run goes on after so many of them. The arguments of a call are in the frame above.
#[derive(Clone, Copy)]
pub enum Quick {
    Assign {
        x: usize,
        word: u64,
        next: usize,
    },
    Read {
        x: usize,
        location: usize,
        index: usize,
        word: u64,
        next: usize,
    },
    Write {
        location: usize,
        index: usize,
        cell: usize,
        word: u64,
        next: usize,
    },
    Holds {
        next: usize,
    },
    Fails {
        at: usize,
        steps: u64,
    },
    Call {
        procedure: usize,
        next: usize,
    },
    // stays: an Option costs 2.8 instructions a step on b (73.4 against 70.6), 2.4 on c (116.2 against 113.8), counted in an unproved build
    Left,
}

// How many steps it is: none, if it is left to the general way.
pub fn steps(quick: Quick) -> u64
    ensures { result ≡ steps_of quick }
{
    match quick {
        Quick::Assign { .. } => 1,
        Quick::Read { .. } => 1,
        Quick::Write { .. } => 1,
        Quick::Holds { .. } => 1,
        Quick::Fails { at: _, steps } => steps,
        Quick::Call { .. } => 1,
        Quick::Left => 0,
    }
}

// "x := e".
fn assign(t: &[u8], at: usize, e: Worded) -> Quick
    requires { at + 1 < length t.now }
    ensures { Assigns t.now at e result }
{
    if e.word == NOTHING {
        return Quick::Left;
    }
    Quick::Assign {
        x: table::byte(t, at + 1),
        word: e.word,
        next: e.next,
    }
}

// The cell of a pointer and an index, if they have one. Words of other kinds are too low, or too high for a location, or for an index of any.
fn place(starts: &[u32; STARTS], pointer: u64, offset: u64) -> Option<Spot>
    requires { Small starts.now }
    ensures { Spotted starts.now pointer offset result }
{
    if pointer < FIRST_LOCATION {
        return None;
    }
    let location = (pointer - FIRST_LOCATION) as usize;
    if location >= LOCATIONS {
        return None;
    }
    if offset < KIND {
        return None;
    }
    let index = (offset - KIND) as usize;
    let cell = memory::start(starts, location) + index;
    if cell < memory::start(starts, location + 1) {
        Some(Spot {
            location,
            index,
            cell,
        })
    } else {
        None
    }
}

// "y[o] := e" with a local o: "21 y 05 o e".
fn write(
    t: &[u8],
    words: &[u64],
    base: usize,
    starts: &[u32; STARTS],
    at: usize,
    e: Worded,
) -> Quick
    requires { Writing t.now words.now starts.now base at e }
    ensures { Writes t.now words.now starts.now base at result }
{
    if e.word == NOTHING {
        return Quick::Left;
    }
    let pointer = brief::local(t, words, base, at + 1);
    let offset = brief::local(t, words, base, at + 3);
    let Some(
        Spot {
            location,
            index,
            cell,
        },
    ) = place(starts, pointer, offset)
    else {
        return Quick::Left;
    };
    Quick::Write {
        location,
        index,
        cell,
        word: e.word,
        next: e.next,
    }
}

// "x := y[o]".
fn read(
    t: &[u8],
    words: &[u64],
    base: usize,
    starts: &[u32; STARTS],
    cells: &[u64],
    at: usize,
    offset: u64,
    next: usize,
) -> Quick
    requires { Reading t.now words.now starts.now cells.now base at offset next }
    ensures { Reads t.now words.now starts.now cells.now base at result }
{
    let pointer = brief::local(t, words, base, at + 2);
    let Some(
        Spot {
            location,
            index,
            cell,
        },
    ) = place(starts, pointer, offset)
    else {
        return Quick::Left;
    };
    Quick::Read {
        x: table::byte(t, at + 1),
        location,
        index,
        word: cells[cell],
        next,
    }
}

// The test of a while or an if.
fn test(jumps: &[u16; LONGEST], at: usize, e: Worded) -> Quick
    requires { at < positions }
    ensures { Tested jumps.now at e result }
{
    if e.word == TRUE {
        return Quick::Holds { next: e.next };
    }
    if e.word == FALSE {
        return Quick::Fails {
            at: ways::other(jumps, at),
            steps: 1,
        };
    }
    Quick::Left
}

// Whether the test at `at` is of a local and a number that are equal: "24 14 05 x 01 c".
fn is_choice(t: &[u8], words: &[u64], base: usize, at: usize) -> bool
    requires { Testing t.now words.now base at }
    ensures { SaysChoice t.now at result }
{
    if t[at + 1] != EQUAL {
        return false;
    }
    if t[at + 2] != LOCAL {
        return false;
    }
    t[at + 4] == WHOLE
}

// The bytes of such a test before its blocks.
const CHOICE: usize = 9;

// Whether one stands at `to` too, begins with the same four bytes, and has another number than v.
fn is_another(t: &[u8], to: usize, head: u32, v: u32) -> bool
    requires { to < positions }
    ensures { SaysAnother t.now to head v result }
{
    if t.len() < to + CHOICE {
        return false;
    }
    if table::four(t, to) != head {
        return false;
    }
    if t[to + 4] != WHOLE {
        return false;
    }
    table::four(t, to + 5) != v
}

// Such a test, if it holds; and if not, all that follow each other from there, ask for the same local and fail: at most `left`.
// A copy's procedure 0 has one for each label.
fn choose(
    t: &[u8],
    jumps: &[u16; LONGEST],
    words: &[u64],
    base: usize,
    at: usize,
    left: u64,
) -> Quick
    requires { Testing t.now words.now base at × Choice t.now at × (at + 9 ≤ length t.now) × (length t.now ≤ positions) × (1 ≤ left) }
    ensures { Chooses t.now jumps.now words.now base at left result }
{
    let head = table::four(t, at);
    let w = brief::local(t, words, base, at + 3);
    if w / KIND != 1 {
        return Quick::Left;
    }
    let v = (w % KIND) as u32;
    if table::four(t, at + 5) == v {
        return Quick::Holds { next: at + CHOICE };
    }
    let mut to = ways::other(jumps, at);
    let mut steps = 1;
    while steps < left {
        if !is_another(t, to, head, v) {
            return Quick::Fails { at: to, steps };
        }
        to = ways::other(jumps, to);
        steps += 1;
    }
    Quick::Fails { at: to, steps }
}

// The test of a while or an if, and those that fail after it.
fn probe(
    t: &[u8],
    jumps: &[u16; LONGEST],
    words: &[u64],
    base: usize,
    at: usize,
    left: u64,
) -> Quick
    requires { Testing t.now words.now base at × (1 ≤ left) }
    ensures { Chooses t.now jumps.now words.now base at left result }
{
    if is_choice(t, words, base, at) {
        return choose(t, jumps, words, base, at, left);
    }
    if t[at + 1] < LEAVES {
        return test(jumps, at, brief::leaf(t, words, base, at + 1));
    }
    test(jumps, at, brief::operation(t, words, base, at + 1))
}

// A call: its arguments go to the frame above, which is no part of the state before the call.
fn call(t: &[u8], words: &mut [u64], base: usize, at: usize) -> Quick
    requires { Poised t.now words.old base at × (get_or t.now at 0 ≡ 0x25) × (at + 4 ≤ length t.now) }
    ensures { Calls t.now words.old words.new base at result }
{
    let count = table::byte(t, at + 3);
    let above = base + FRAME;
    let mut next = at + 4;
    for i in 0..count {
        let e = if t[next] < LEAVES {
            brief::leaf(t, words, base, next)
        } else {
            brief::operation(t, words, base, next)
        };
        if e.word == NOTHING {
            return Quick::Left;
        }
        words[above + i] = e.word;
        next = e.next;
    }
    Quick::Call {
        procedure: table::two(t, at + 1) as usize,
        next,
    }
}

// The step of the instruction at `at`, over the locals of the frame at `base`. At least one step is left.
pub fn decide(
    t: &[u8],
    jumps: &[u16; LONGEST],
    words: &mut [u64],
    base: usize,
    starts: &[u32; STARTS],
    cells: &[u64],
    at: usize,
    left: u64,
) -> Quick
    requires { Turning t.now words.old starts.now cells.now base at × (1 ≤ left) }
    ensures { Turns t.now jumps.now words.old words.new starts.now
        cells.now base at left result }
{
    match t[at] {
        ASSIGN => {
            if t[at + 2] < LEAVES {
                return assign(t, at, brief::leaf(t, words, base, at + 2));
            }
            assign(t, at, brief::operation(t, words, base, at + 2))
        }
        WRITE => {
            if t[at + 2] != LOCAL {
                return Quick::Left;
            }
            let e = brief::expression(t, words, base, at + 4);
            write(t, words, base, starts, at, e)
        }
        READ => match t[at + 3] {
            LOCAL => {
                let o = brief::local(t, words, base, at + 4);
                read(t, words, base, starts, cells, at, o, at + 5)
            }
            WHOLE => read(
                t,
                words,
                base,
                starts,
                cells,
                at,
                brief::number(t, at + 4),
                at + 8,
            ),
            _ => Quick::Left,
        },
        CALL => call(t, words, base, at),
        END => Quick::Left,
        SELECT => Quick::Left,
        _ => probe(t, jumps, words, base, at, left),
    }
}

// The deciding half of a step: reads the instruction that stands at a place, and answers what is to be done.
ghost use Rattle.std.specs.Prelude.{◌≡◌, ◌+◌, ◌≤◌, ◌<◌, length, get_or};
ghost use Rattle.decide.specs.Decided.{Poised, Passable, Writable, Readable, Laid, Lies, Kept, Any, AssignOf, TestOf, Decides};
ghost use Rattle.decide.specs.Decided.{PassesAll, DecidesAll, Selectable, Looks, Selects};

use basics::numbers::{ASSIGN, CALL, END, FRAME, READ, STARTS, WRITE};
use engine::evaluate::Valued;
use engine::{evaluate, locals, memory, table};
use value::{Reason, Value};

// What a step does. `next` is where the instruction ends, of a test where its expression ends.
#[derive(Clone, Copy)]
pub enum Step {
    Return,
    Assign {
        x: usize,
        value: Value,
        next: usize,
    },
    Read {
        x: usize,
        location: usize,
        index: usize,
        value: Value,
        next: usize,
    },
    Write {
        location: usize,
        index: usize,
        cell: usize,
        value: Value,
        next: usize,
    },
    Test {
        truth: bool,
        next: usize,
    },
    Call {
        procedure: usize,
        next: usize,
    },
    Select {
        cell: usize,
        thread: u8,
        next: usize,
    },
    // a Result<Step, Reason> was counted: 136.6 instructions a step on nest for 131.9 here; as few only with decide_read and decide_write inline
    Blocked(Reason),
}

// Each kind of instruction has a function that gets what the instruction's expressions came to. So it is small, and inline in both machines; a read only in
// the concurrent ones.

// "x := e".
pub fn decide_assign(t: &[u8], at: usize, e: Valued) -> Step
    requires { at + 1 < length t.now }
    ensures { AssignOf t.now at e result }
{
    match e.answer {
        Ok(value) => Step::Assign {
            x: table::byte(t, at + 1),
            value,
            next: e.next,
        },
        Err(reason) => Step::Blocked(reason),
    }
}

// The test of a while or an if.
pub fn decide_test(e: Valued) -> Step
    ensures { TestOf e result }
{
    match e.answer {
        Ok(Value::Truth(truth)) => Step::Test {
            truth,
            next: e.next,
        },
        Ok(_) => Step::Blocked(Reason::WrongKind),
        Err(reason) => Step::Blocked(reason),
    }
}

// "y[o] := e": "a write judges the value, then the index expression, then the pointer, then the index against the size".
pub fn decide_write(
    t: &[u8],
    words: &[u64],
    base: usize,
    starts: &[u32; STARTS],
    at: usize,
    o: Valued,
    e: Valued,
) -> Step
    requires { Writable t.now words.now base at o e }
    ensures { Decides t.now words.now base at (Laid starts.now) result }
{
    let value = match e.answer {
        Ok(value) => value,
        Err(reason) => return Step::Blocked(reason),
    };
    let pointer = locals::get(words, base, table::byte(t, at + 1));
    match memory::place(starts, pointer, o.answer) {
        Ok(spot) => Step::Write {
            location: spot.location,
            index: spot.index,
            cell: spot.cell,
            value,
            next: e.next,
        },
        Err(reason) => Step::Blocked(reason),
    }
}

// "x := y[o]", compiled into its caller.
#[inline(always)]
fn read_step(
    t: &[u8],
    words: &[u64],
    base: usize,
    starts: &[u32; STARTS],
    cells: &[u64],
    at: usize,
    o: Valued,
) -> Step
    requires { Readable t.now words.now base at o × Kept starts.now cells.now }
    ensures { Decides t.now words.now base at (Lies starts.now cells.now) result }
{
    let pointer = locals::get(words, base, table::byte(t, at + 2));
    let spot = match memory::place(starts, pointer, o.answer) {
        Ok(spot) => spot,
        Err(reason) => return Step::Blocked(reason),
    };
    match memory::get(cells, spot.cell) {
        Ok(value) => Step::Read {
            x: table::byte(t, at + 1),
            location: spot.location,
            index: spot.index,
            value,
            next: o.next,
        },
        Err(reason) => Step::Blocked(reason),
    }
}

// The same by a call, for the sequential machine's loop, which gets dearer where more is compiled into it.
#[inline(never)]
pub fn decide_read(
    t: &[u8],
    words: &[u64],
    base: usize,
    starts: &[u32; STARTS],
    cells: &[u64],
    at: usize,
    o: Valued,
) -> Step
    requires { Readable t.now words.now base at o × Kept starts.now cells.now }
    ensures { Decides t.now words.now base at (Lies starts.now cells.now) result }
{
    read_step(t, words, base, starts, cells, at, o)
}

// The values of `count` expressions go to the frame above, which is no part of the state before the call. Answers where the last one ends, or why the first
// that has no value has none.
fn pass(
    t: &[u8],
    words: &mut [u64],
    base: usize,
    from: usize,
    count: usize,
) -> Result<usize, Reason>
    requires { Passable t.now words.old base from count }
    ensures { PassesAll t.now words.old words.new base from count result }
{
    let above = base + FRAME;
    let mut at = from;
    for i in 0..count {
        let e = evaluate::evaluate(t, words, base, at);
        let v = e.answer?;
        locals::put(words, above, i, v);
        at = e.next;
    }
    Ok(at)
}

// "call procedure m".
pub fn decide_call(t: &[u8], words: &mut [u64], base: usize, at: usize) -> Step
    requires { Poised t.now words.old base at × (get_or t.now at 0 ≡ 0x25) × (at + 4 ≤ length t.now) }
    ensures { DecidesAll t.now words.old words.new base at Any result }
{
    let count = table::byte(t, at + 3);
    match pass(t, words, base, at + 4, count) {
        Ok(next) => Step::Call {
            procedure: table::two(t, at + 1) as usize,
            next,
        },
        Err(reason) => Step::Blocked(reason),
    }
}

// The step of the instruction or return at `at`, over the locals of the frame at `base`. It is no select and no atomic block.
// The sequential machine matches on the mark itself (`sequential::due`).
pub fn decide(
    t: &[u8],
    words: &mut [u64],
    base: usize,
    starts: &[u32; STARTS],
    cells: &[u64],
    at: usize,
) -> Step
    requires { Poised t.now words.old base at × Kept starts.now cells.now }
    ensures { DecidesAll t.now words.old words.new base at (Lies starts.now
        cells.now) result }
{
    let mark = t[at];
    match mark {
        END => Step::Return,
        ASSIGN => decide_assign(t, at, evaluate::evaluate(t, words, base, at + 2)),
        WRITE => {
            let o = evaluate::evaluate(t, words, base, at + 2);
            let e = evaluate::evaluate(t, words, base, o.next);
            decide_write(t, words, base, starts, at, o, e)
        }
        READ => {
            let o = evaluate::evaluate(t, words, base, at + 3);
            read_step(t, words, base, starts, cells, at, o)
        }
        CALL => decide_call(t, words, base, at),
        _ => decide_test(evaluate::evaluate(t, words, base, at + 1)),
    }
}

// The value that a select looks at: the cell of this thread.
fn looked_at(
    t: &[u8],
    starts: &[u32; STARTS],
    cells: &[u64],
    at: usize,
    thread: u8,
) -> Result<Value, Reason>
    requires { Selectable t.now starts.now cells.now at }
    ensures { Looks t.now starts.now cells.now at thread result }
{
    let source = table::two(t, at + 3) as usize;
    let spot = memory::find(starts, source, thread as u32)?;
    memory::get(cells, spot.cell)
}

// The step of the select at `at`, which takes an entry of the schedule.
pub fn decide_select(t: &[u8], starts: &[u32; STARTS], cells: &[u64], at: usize, thread: u8) -> Step
    requires { Selectable t.now starts.now cells.now at }
    ensures { Selects t.now starts.now cells.now at thread result }
{
    match looked_at(t, starts, cells, at, thread) {
        Ok(Value::Whole(0)) => Step::Blocked(Reason::FinishedThread), // "and takes none"
        Ok(Value::Whole(_)) => Step::Select {
            cell: memory::start(starts, table::two(t, at + 1) as usize),
            thread,
            next: at + 5,
        },
        Ok(_) => Step::Blocked(Reason::WrongKind),
        Err(reason) => Step::Blocked(reason),
    }
}

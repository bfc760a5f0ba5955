// The threads of the concurrent machine: each has a stack of frames, a frame being a label and its words of locals.
ghost use Rattle.std.specs.Prelude.{◌≡◌, ◌*◌, ◌≤◌};
ghost use Rattle.format.specs.Rules.{max_labels};
ghost use Rattle.concurrent.specs.Turning.{Turning, Turns};
ghost use Rattle.concurrent.specs.Stepping.{test_label, Moving, Moves, Stepping, Steps};

use atomic::block::{carry_out, do_atomic};
use basics::numbers::{
    ALL_FRAMES, ATOMIC, BOUNDS, FRAME, MAP, NODE, PAIR, PROGRAM_WORDS, STARTS, THREAD_FRAMES,
    THREAD_WORDS, THREADS,
};
use decide::step::{Step, decide};
use engine::{locals, memory, table};
use labels::label_map::{FIRST, NEXT, OTHER};
use value::Reason;

// What a step of a frame's code does, if it does not block: the code goes on, with so many events then; a test comes out; a procedure is called;
// or it returns.
#[derive(Clone, Copy)]
enum Turn {
    Next(usize),
    Test(bool),
    Call(usize),
    Return,
}

// One step of the code at `at`, which has this label, over the locals of the frame at `base`: "one assign, read, write, test, call, return or
// whole atomic block". The arguments of a call are the first locals of the frame above, whose other locals are not set.
fn take_turn(
    t: &[u8],
    at: usize,
    thread: u8,
    label: usize,
    base: usize,
    starts: &[u32; STARTS],
    words: &mut [u64; THREAD_WORDS],
    cells: &mut [u64; PROGRAM_WORDS],
    events: &mut [u8],
    count: usize,
) -> Result<Turn, Reason>
    requires { Turning t.now thread label base starts.now at words.old cells.old events.old count }
    ensures { Turns t.now thread label base starts.now at words.old cells.old events.old count
        words.new cells.new events.new result }
{
    if t[at] == ATOMIC {
        let done = do_atomic(
            t,
            at + 1,
            thread,
            label,
            base,
            starts,
            words,
            cells,
            events,
            count,
        )?;
        return Ok(Turn::Next(done.events));
    }
    let step = decide(t, words, base, starts, cells, at);
    match step {
        Step::Return => Ok(Turn::Return),
        Step::Test { truth, next: _ } => Ok(Turn::Test(truth)),
        Step::Call { procedure, next: _ } => {
            let above = base + FRAME;
            locals::clear(words, above + table::byte(t, at + 3), above + FRAME);
            Ok(Turn::Call(procedure))
        }
        _ => {
            let done = carry_out(step, thread, label, base, words, cells, events, count)?;
            Ok(Turn::Next(done.events))
        }
    }
}

// The label that a test leads to, of those in a row of the map.
fn after_test(map: &[usize; MAP], row: usize, truth: bool) -> usize
    requires { row ≤ 4 * max_labels }
    ensures { result ≡ test_label map.now row truth }
{
    if truth {
        map[row + NEXT]
    } else {
        map[row + OTHER]
    }
}

// Where a thread goes on after a turn of its uppermost frame, which is frame `top` of all: the labels that the turn leads to, and how
// many frames the thread has then. Answers how many events there are, where there were `count`.
fn move_on(
    turn: Turn,
    map: &[usize; MAP],
    bounds: &[usize; BOUNDS],
    thread: usize,
    top: usize,
    labels: &mut [usize; ALL_FRAMES],
    depths: &mut [usize; THREADS],
    count: usize,
) -> usize
    requires { Moving turn thread top labels.old depths.old }
    ensures { Moves turn map.now bounds.now thread top labels.old depths.old count
        labels.new depths.new result }
{
    let row = NODE * labels[top];
    match turn {
        Turn::Next(n) => {
            labels[top] = map[row + NEXT];
            n
        }
        Turn::Test(truth) => {
            labels[top] = after_test(map, row, truth);
            count
        }
        Turn::Call(procedure) => {
            labels[top] = map[row + NEXT];
            labels[top + 1] = bounds[PAIR * procedure + FIRST];
            depths[thread] += 1;
            count
        }
        Turn::Return => {
            depths[thread] -= 1;
            count
        }
    }
}

// Thread `thread` takes a step, if it can, and answers how many events there are then. Frame d of thread i has the label labels[THREAD_FRAMES * i + d].
pub fn step(
    t: &[u8],
    map: &[usize; MAP],
    bounds: &[usize; BOUNDS],
    starts: &[u32; STARTS],
    thread: u8,
    labels: &mut [usize; ALL_FRAMES],
    depths: &mut [usize; THREADS],
    words: &mut [u64; THREAD_WORDS],
    cells: &mut [u64; PROGRAM_WORDS],
    events: &mut [u8],
    count: usize,
) -> Result<usize, Reason>
    requires { Stepping t.now map.now bounds.now starts.now thread labels.old depths.old words.old cells.old events.old count }
    ensures { Steps t.now map.now bounds.now starts.now thread
        labels.old depths.old words.old cells.old events.old count
        labels.new depths.new words.new cells.new events.new result }
{
    let i = usize::from(thread);
    // "4 finished thread chosen".
    if depths[i] == 0 {
        return Err(Reason::FinishedThread);
    }
    let top = THREAD_FRAMES * i + depths[i] - 1;
    let label = labels[top];
    let at = map[NODE * label];
    let turn = take_turn(
        t,
        at,
        thread,
        label,
        FRAME * top,
        starts,
        words,
        cells,
        events,
        count,
    )?;
    Ok(move_on(turn, map, bounds, i, top, labels, depths, count))
}

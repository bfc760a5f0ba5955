// Atomic blocks: a whole one is a step. Block and instruction functions call each other, the allowed depth falling.
ghost use Rattle.std.specs.Prelude.{◌≡◌, ◌+◌, ◌≤◌, length};
ghost use Rattle.engine.specs.Work.{frame_words};
ghost use Rattle.format.specs.Decode.{max_nesting};
ghost use Rattle.atomic.specs.Doing.{Carrying, Carries, Doing, Does, DoingI, DoesI, Copies, DoesWhole};

use basics::numbers::{END, FRAME, NESTING, PROGRAM_WORDS, STARTS};
use decide::step::{Step, decide};
use engine::event::Event;
use engine::{event, locals, memory};
use labels::count::count_block;
use value::Reason;

// A block or an instruction that did not block: where it ends, and how many events there are then.
#[derive(Clone, Copy)]
pub struct Done {
    pub next: usize,
    pub events: usize,
}

// Carries out an assignment, a read or a write that was decided, of a step with this label. Inline, so that the step is not copied for it, and the outcome not stored.
#[inline(always)]
pub fn carry_out(
    step: Step,
    thread: u8,
    label: usize,
    base: usize,
    words: &mut [u64],
    cells: &mut [u64],
    events: &mut [u8],
    count: usize,
) -> Result<Done, Reason>
    requires { Carrying base step words.old cells.old events.old count }
    ensures { Carries thread label base step words.old cells.old events.old count
        words.new cells.new events.new result }
{
    match step {
        // [assign]
        Step::Assign { x, value, next } => {
            locals::put(words, base, x, value);
            Ok(Done {
                next,
                events: count,
            })
        }
        // [read]; the figure has the names of this rule and the next one the other way round
        Step::Read {
            x,
            location,
            index,
            value,
            next,
        } => {
            locals::put(words, base, x, value);
            event::write_event(
                events,
                count,
                Event {
                    thread,
                    writes: false,
                    location,
                    index,
                    value,
                    label,
                },
            );
            Ok(Done {
                next,
                events: count + 1,
            })
        }
        // [write]
        Step::Write {
            location,
            index,
            cell,
            value,
            next,
        } => {
            memory::put(cells, cell, value);
            event::write_event(
                events,
                count,
                Event {
                    thread,
                    writes: true,
                    location,
                    index,
                    value,
                    label,
                },
            );
            Ok(Done {
                next,
                events: count + 1,
            })
        }
        Step::Blocked(reason) => Err(reason),
        // no other step stands in an atomic block
        _ => Err(Reason::WrongKind),
    }
}

// The instructions of a block up to the byte 00.
#[cycle(do_block_do_instr)]
fn do_block(
    t: &[u8],
    at: usize,
    depth: u8,
    thread: u8,
    label: usize,
    base: usize,
    starts: &[u32; STARTS],
    words: &mut [u64],
    cells: &mut [u64],
    events: &mut [u8],
    count: usize,
) -> Result<Done, Reason>
    requires { Doing t.now thread label base starts.now at depth words.old cells.old events.old count }
    ensures { Does t.now thread label base starts.now at depth
        words.old cells.old events.old count
        words.new cells.new events.new result }
{
    let mut i = at;
    let mut n = count;
    while t[i] != END {
        let done = do_instr(
            t,
            i,
            depth - 1,
            thread,
            label,
            base,
            starts,
            words,
            cells,
            events,
            n,
        )?;
        i = done.next;
        n = done.events;
    }
    Ok(Done {
        next: i + 1,
        events: n,
    })
}

// An instruction. Of an if, the branch that its test chooses is done, and the other one passed over.
#[cycle(do_block_do_instr)]
fn do_instr(
    t: &[u8],
    at: usize,
    depth: u8,
    thread: u8,
    label: usize,
    base: usize,
    starts: &[u32; STARTS],
    words: &mut [u64],
    cells: &mut [u64],
    events: &mut [u8],
    count: usize,
) -> Result<Done, Reason>
    requires { DoingI t.now thread label base starts.now at depth words.old cells.old events.old count }
    ensures { DoesI t.now thread label base starts.now at depth
        words.old cells.old events.old count
        words.new cells.new events.new result }
{
    let step = decide(t, words, base, starts, cells, at);
    if let Step::Test { truth, next } = step {
        if truth {
            let done = do_block(
                t, next, depth, thread, label, base, starts, words, cells, events, count,
            )?;
            return Ok(Done {
                next: count_block(t, done.next, depth).next,
                events: done.events,
            });
        }
        let no = count_block(t, next, depth).next;
        return do_block(
            t, no, depth, thread, label, base, starts, words, cells, events, count,
        );
    }
    carry_out(step, thread, label, base, words, cells, events, count)
}

// The words of a frame on which a block is tried, and of one above it.
const TRIED: usize = FRAME + FRAME;

// The words of the frame at `base`, from 0 on.
fn copy_frame(words: &[u64], base: usize, copy: &mut [u64])
    requires { (base + frame_words ≤ length words.now) × (frame_words ≤ length copy.old) }
    ensures { Copies words.now base frame_words copy.new }
{
    copy[..FRAME].copy_from_slice(&words[base..base + FRAME]);
}

// A block over the cells of a program, as deep as one may be.
fn do_all(
    t: &[u8],
    at: usize,
    thread: u8,
    label: usize,
    base: usize,
    starts: &[u32; STARTS],
    words: &mut [u64],
    cells: &mut [u64; PROGRAM_WORDS],
    events: &mut [u8],
    count: usize,
) -> Result<Done, Reason>
    requires { Doing t.now thread label base starts.now at max_nesting words.old cells.old events.old count }
    ensures { Does t.now thread label base starts.now at max_nesting
        words.old cells.old events.old count
        words.new cells.new events.new result }
{
    do_block(
        t, at, NESTING, thread, label, base, starts, words, cells, events, count,
    )
}

// A whole atomic block. "The state stays as before the step, and no event of that step is written or counted" where it blocks: it is
// tried first on copies of its frame's words and of the cells, with no room for events. Events inside have the block's label.
pub fn do_atomic(
    t: &[u8],
    at: usize,
    thread: u8,
    label: usize,
    base: usize,
    starts: &[u32; STARTS],
    words: &mut [u64],
    cells: &mut [u64; PROGRAM_WORDS],
    events: &mut [u8],
    count: usize,
) -> Result<Done, Reason>
    requires { Doing t.now thread label base starts.now at max_nesting words.old cells.old events.old count }
    ensures { DoesWhole t.now thread label base starts.now at max_nesting
        words.old cells.old events.old count
        words.new cells.new events.new result }
{
    // the cells first: behind a branch, as copying a frame has one, their 16 KB would be cleared before they are copied
    let mut some_cells = *cells;
    let mut copy = [0u64; TRIED];
    copy_frame(words, base, &mut copy);
    let mut no_events = [0u8; 1];
    let tried = do_all(
        t,
        at,
        thread,
        label,
        0,
        starts,
        &mut copy,
        &mut some_cells,
        &mut no_events,
        0,
    );
    tried?;
    do_all(
        t, at, thread, label, base, starts, words, cells, events, count,
    )
}

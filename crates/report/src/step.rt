// One step of a thread: report RR-2017-03, figures 1 and 2. Each rule of the figures stands by its name where it is done.
ghost use Rattle.report.specs.Rows.{Testing, Tested};
ghost use Rattle.report.specs.Stepping.{Stepping, Steps, Ready, Rules};

use super::rows::{ALL_ROWS, PLACES, ROWS, after_block, body, left};
use atomic::block::{carry_out, do_atomic};
use basics::numbers::{
    ALL_FRAMES, ATOMIC, FRAME, PROGRAM_WORDS, STARTS, THREAD_FRAMES, THREAD_WORDS, THREADS, WHILE,
};
use decide::step::{Step, decide};
use engine::{locals, table};
use value::Reason;

// Where the rows of a frame go on after a test at `at` whose expression ends at `next`.
fn after_test(
    t: &[u8],
    at: usize,
    truth: bool,
    next: usize,
    top: usize,
    rows: &mut [usize; ALL_ROWS],
    heights: &mut [usize; ALL_FRAMES],
    ends: &mut [u16; PLACES],
)
    requires { Testing t.now at next top rows.old heights.old ends.old }
    ensures { Tested t.now at truth next top rows.old heights.old rows.new heights.new ends.new }
{
    let height = heights[top];
    let row = ROWS * top + height - 1;
    if t[at] == WHILE {
        if truth {
            // [while : true]: the loop stays first in its row, and its body comes before it
            rows[row + 1] = next;
            heights[top] = height + 1;
        } else {
            // [while : false]
            rows[row] = after_block(t, next, ends);
        }
    } else {
        let no = after_block(t, next, ends);
        rows[row] = after_block(t, no, ends);
        heights[top] = height + 1;
        if truth {
            // [if : true]
            rows[row + 1] = next;
        } else {
            // [if : false]
            rows[row + 1] = no;
        }
    }
}

// The first instruction of frame `top`, which is that of its uppermost row; answers how many events there are then.
fn rule(
    t: &[u8],
    records: usize,
    starts: &[u32; STARTS],
    thread: u8,
    top: usize,
    depths: &mut [usize; THREADS],
    heights: &mut [usize; ALL_FRAMES],
    rows: &mut [usize; ALL_ROWS],
    ends: &mut [u16; PLACES],
    words: &mut [u64; THREAD_WORDS],
    cells: &mut [u64; PROGRAM_WORDS],
    events: &mut [u8],
    count: usize,
) -> Result<usize, Reason>
    requires stepping { Stepping t.now records starts.now thread depths.old heights.old rows.old ends.old words.old cells.old events.old count }
    requires ready { Ready t.now thread top depths.old heights.old rows.old words.old count }
    ensures { Rules t.now records starts.now thread top depths.old heights.old rows.old ends.old
        words.old cells.old events.old count
        depths.new heights.new rows.new ends.new words.new cells.new events.new result }
{
    let row = ROWS * top + heights[top] - 1;
    let at = rows[row];
    let base = FRAME * top;
    // [atomic], of figure 2
    if t[at] == ATOMIC {
        let went = do_atomic(
            t,
            at + 1,
            thread,
            0,
            base,
            starts,
            words,
            cells,
            events,
            count,
        );
        // stays: with `?` no edit of what a block that blocks leaves behind is refused for its meaning (`blocked_block_loses_locals`)
        return match went {
            Ok(done) => {
                rows[row] = done.next;
                Ok(done.events)
            }
            Err(reason) => Err(reason),
        };
    }
    let step = decide(t, words, base, starts, cells, at);
    match step {
        // [while : true], [while : false], [if : true], [if : false]
        Step::Test { truth, next } => {
            after_test(t, at, truth, next, top, rows, heights, ends);
            Ok(count)
        }
        // [call]; that the procedure runs in no frame is so by rule 7
        Step::Call { procedure, next } => {
            let above = base + FRAME;
            locals::clear(words, above + table::byte(t, at + 3), above + FRAME);
            rows[row] = next;
            rows[ROWS * (top + 1)] = body(t, records, procedure);
            heights[top + 1] = 1;
            depths[thread as usize] += 1;
            Ok(count)
        }
        // [assign], [read], [write]; the figure has the names of the last two the other way round. No other step stands in a row
        _ => {
            let done = carry_out(step, thread, 0, base, words, cells, events, count)?;
            rows[row] = done.next;
            Ok(done.events)
        }
    }
}

// Thread `thread` takes a step, if it can, and answers how many events there are then: figure 2, [seq]. Frame d of thread i is frame THREAD_FRAMES * i + d of all.
pub fn step(
    t: &[u8],
    records: usize,
    starts: &[u32; STARTS],
    thread: u8,
    depths: &mut [usize; THREADS],
    heights: &mut [usize; ALL_FRAMES],
    rows: &mut [usize; ALL_ROWS],
    ends: &mut [u16; PLACES],
    words: &mut [u64; THREAD_WORDS],
    cells: &mut [u64; PROGRAM_WORDS],
    events: &mut [u8],
    count: usize,
) -> Result<usize, Reason>
    requires { Stepping t.now records starts.now thread depths.old heights.old rows.old ends.old words.old cells.old events.old count }
    ensures { Steps t.now records starts.now thread depths.old heights.old rows.old ends.old
        words.old cells.old events.old count
        depths.new heights.new rows.new ends.new words.new cells.new events.new result }
{
    let i = thread as usize;
    // "4 finished thread chosen".
    if depths[i] == 0 {
        return Err(Reason::FinishedThread);
    }
    let top = THREAD_FRAMES * i + depths[i] - 1;
    // a row that is used up goes away
    heights[top] = left(t, rows, ROWS * top, heights[top]);
    // [return]: no code remains
    if heights[top] == 0 {
        depths[i] -= 1;
        return Ok(count);
    }
    rule(
        t, records, starts, thread, top, depths, heights, rows, ends, words, cells, events, count,
    )
}

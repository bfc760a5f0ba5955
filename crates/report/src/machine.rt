// The plain machine under a schedule.
ghost use Rattle.std.specs.Prelude.{◌≡◌, length};
ghost use Rattle.basics.specs.Sizes.{all_frames, most_threads};
ghost use Rattle.concurrent.specs.Concurrent.{Accepted, Entries};
ghost use Rattle.report.specs.Rows.{all_rows};
ghost use Rattle.report.specs.Running.{Beginning, Begins, Starting, Runs, Outcomes};

use super::rows::{ALL_ROWS, PLACES, ROWS, body};
use super::step::step;
use basics::numbers::{
    ALL_FRAMES, MAIN, PROGRAM_WORDS, RECORD, SIZE, STARTS, THREAD_FRAMES, THREAD_WORDS, THREADS,
    TRAILER,
};
use concurrent::machine::{Ran, finished, outcome, write_out};
use engine::ends::End;
use engine::word::ZERO;
use engine::{memory, table};
use semantics::RunAnswer;

// "Then per thread its main procedure", from `at` on: each thread begins with one frame, whose one row is the body of its main.
fn begin(
    t: &[u8],
    at: usize,
    records: usize,
    threads: usize,
    depths: &mut [usize; THREADS],
    heights: &mut [usize; ALL_FRAMES],
    rows: &mut [usize; ALL_ROWS],
)
    requires { Beginning t.now at records threads × (length depths.old ≡ most_threads) × (length heights.old ≡ all_frames) × (length rows.old ≡ all_rows) }
    ensures { Begins t.now at records threads depths.new heights.new rows.new }
{
    for i in 0..threads {
        let main = usize::from(table::two(t, at + MAIN * i));
        let first = THREAD_FRAMES * i;
        rows[ROWS * first] = body(t, records, main);
        heights[first] = 1;
        depths[i] = 1;
    }
}

// The run: "A finished run is answered before the schedule is asked". An entry that blocks is not taken.
fn go(
    t: &[u8],
    records: usize,
    threads: usize,
    schedule: &[u8],
    starts: &[u32; STARTS],
    depths: &mut [usize; THREADS],
    heights: &mut [usize; ALL_FRAMES],
    rows: &mut [usize; ALL_ROWS],
    words: &mut [u64; THREAD_WORDS],
    cells: &mut [u64; PROGRAM_WORDS],
    events: &mut [u8],
) -> Ran
    requires { Starting t.now records threads schedule.now starts.now depths.old heights.old rows.old words.old cells.old }
    ensures { Runs t.now records threads schedule.now starts.now
        depths.old heights.old rows.old words.old cells.old events.old
        cells.new events.new result }
{
    let mut ends = [0u16; PLACES];
    let mut count = 0;
    for (taken, &thread) in schedule.iter().enumerate() {
        if finished(depths, threads) {
            return outcome(End::Finished, taken, count);
        }
        match step(
            t, records, starts, thread, depths, heights, rows, &mut ends, words, cells, events,
            count,
        ) {
            Ok(after) => count = after,
            Err(reason) => return outcome(End::Blocked(reason), taken, count),
        }
    }
    if finished(depths, threads) {
        return outcome(End::Finished, schedule.len(), count);
    }
    outcome(End::UsedUp, schedule.len(), count)
}

// The run on a table that is accepted, under a schedule of its threads, with room for its cells.
pub fn run(
    t: &[u8],
    procedures: usize,
    locations: usize,
    threads: usize,
    count: usize,
    schedule: &[u8],
    cells: &mut [u8],
    events: &mut [u8],
) -> RunAnswer
    requires { Accepted t.now procedures locations threads count × Entries threads schedule.now }
    ensures { Outcomes t.now procedures locations threads count schedule.now
        cells.old events.old result cells.new events.new }
{
    let mains = t.len() - TRAILER - MAIN * threads;
    let sizes = mains - SIZE * locations;
    let records = sizes - RECORD * procedures;
    let mut starts = [0u32; STARTS];
    let mut depths = [0usize; THREADS];
    let mut heights = [0usize; ALL_FRAMES];
    let mut rows = [0usize; ALL_ROWS];
    let mut words = [0u64; THREAD_WORDS];
    let mut memory = [ZERO; PROGRAM_WORDS];
    memory::set_starts(t, sizes, locations, &mut starts);
    begin(
        t,
        mains,
        records,
        threads,
        &mut depths,
        &mut heights,
        &mut rows,
    );
    let ran = go(
        t,
        records,
        threads,
        schedule,
        &starts,
        &mut depths,
        &mut heights,
        &mut rows,
        &mut words,
        &mut memory,
        events,
    );
    write_out(&memory, count, cells);
    RunAnswer {
        number: 0,
        end: ran.end.number(),
        steps: ran.taken as u64,
        unused: schedule.len() - ran.taken,
        events: ran.events as u64,
        reason: ran.end.reason(),
    }
}

// The concurrent machine: report RR-2017-03, figure 2, under a schedule.
ghost use Rattle.std.specs.Prelude.{◌≡◌, ◌≤◌, length};
ghost use Rattle.engine.specs.Work.{program_words, Writes};
ghost use Rattle.atomic.specs.Threaded.{most_threads, all_frames};
ghost use Rattle.concurrent.specs.Concurrent.{AllDone, MainsAt, Begins, ran_with, Starting, Runs, Entries, Accepted, Outcomes};

use super::anew::prepare;
use super::threads::step;
use basics::numbers::{
    ALL_FRAMES, BOUNDS, MAIN, MAP, PAIR, PROGRAM_WORDS, STARTS, THREAD_FRAMES, THREAD_WORDS,
    THREADS, TRAILER,
};
use engine::ends::End;
use engine::word::ZERO;
use engine::{memory, table};
use semantics::RunAnswer;

// What a run came to: its end, the entries taken, each for a step, and the events recorded.
#[derive(Clone, Copy)]
pub struct Ran {
    pub end: End,
    pub taken: usize,
    pub events: usize,
}

// Whether all threads are finished.
pub fn finished(depths: &[usize; THREADS], threads: usize) -> bool
    requires { threads ≤ most_threads }
    ensures { AllDone depths.now threads result }
{
    depths[..threads].iter().all(|&depth| depth == 0)
}

// "Then per thread its main procedure", from `at` on: each thread begins with one frame, at the first label of its main.
pub fn begin(
    t: &[u8],
    at: usize,
    threads: usize,
    bounds: &[usize; BOUNDS],
    labels: &mut [usize; ALL_FRAMES],
    depths: &mut [usize; THREADS],
)
    requires { MainsAt t.now at threads × (length labels.old ≡ all_frames) × (length depths.old ≡ most_threads) }
    ensures { Begins t.now at threads bounds.now labels.new depths.new }
{
    for i in 0..threads {
        let main = usize::from(table::two(t, at + MAIN * i));
        labels[THREAD_FRAMES * i] = bounds[PAIR * main];
        depths[i] = 1;
    }
}

// How a run ended.
pub fn outcome(end: End, taken: usize, events: usize) -> Ran
    ensures { result ≡ ran_with end taken events }
{
    Ran { end, taken, events }
}

// The run: "A finished run is answered before the schedule is asked". An entry that blocks is not taken.
fn go(
    t: &[u8],
    threads: usize,
    schedule: &[u8],
    map: &[usize; MAP],
    bounds: &[usize; BOUNDS],
    starts: &[u32; STARTS],
    labels: &mut [usize; ALL_FRAMES],
    depths: &mut [usize; THREADS],
    words: &mut [u64; THREAD_WORDS],
    cells: &mut [u64; PROGRAM_WORDS],
    events: &mut [u8],
) -> Ran
    requires { Starting t.now threads schedule.now map.now bounds.now starts.now labels.old depths.old words.old cells.old }
    ensures { Runs t.now threads schedule.now map.now bounds.now starts.now
        labels.old depths.old words.old cells.old events.old
        cells.new events.new result }
{
    let mut count = 0;
    for (taken, &thread) in schedule.iter().enumerate() {
        if finished(depths, threads) {
            return outcome(End::Finished, taken, count);
        }
        match step(
            t, map, bounds, starts, thread, labels, depths, words, cells, events, count,
        ) {
            Ok(after) => count = after,
            Err(reason) => return outcome(End::Blocked(reason), taken, count),
        }
    }
    if finished(depths, threads) {
        return outcome(End::Finished, schedule.len(), count);
    }
    outcome(End::UsedUp, schedule.len(), count)
}

// The final cells, `count` of them.
pub fn write_out(words: &[u64; PROGRAM_WORDS], count: usize, out: &mut [u8])
    requires { count ≤ program_words }
    ensures { Writes words.now count out.old out.new }
{
    memory::write_cells(words, count, out);
}

// The run on a table that is accepted, under a schedule of its threads, with room for its cells.
pub fn run(
    t: &[u8],
    procedures: usize,
    locations: usize,
    threads: usize,
    count: usize,
    schedule: &[u8],
    cells: &mut [u8],
    events: &mut [u8],
) -> RunAnswer
    requires { Accepted t.now procedures locations threads count × Entries threads schedule.now }
    ensures { Outcomes t.now procedures locations threads count schedule.now
        cells.old events.old result cells.new events.new }
{
    let mains = t.len() - TRAILER - MAIN * threads;
    let mut map = [0usize; MAP];
    let mut bounds = [0usize; BOUNDS];
    let mut starts = [0u32; STARTS];
    let mut labels = [0usize; ALL_FRAMES];
    let mut depths = [0usize; THREADS];
    let mut words = [0u64; THREAD_WORDS];
    let mut memory = [ZERO; PROGRAM_WORDS];
    prepare(
        t,
        procedures,
        locations,
        threads,
        &mut map,
        &mut bounds,
        &mut starts,
    );
    begin(t, mains, threads, &bounds, &mut labels, &mut depths);
    let ran = go(
        t,
        threads,
        schedule,
        &map,
        &bounds,
        &starts,
        &mut labels,
        &mut depths,
        &mut words,
        &mut memory,
        events,
    );
    write_out(&memory, count, cells);
    RunAnswer {
        number: 0,
        end: ran.end.number(),
        steps: ran.taken as u64,
        unused: schedule.len() - ran.taken,
        events: ran.events as u64,
        reason: ran.end.reason(),
    }
}

// A program that is prepared once and run many times: each run begins by touching only what the program has, the first frames of its
// threads and its cells. Its steps are those of `threads::step`.
ghost use Rattle.std.specs.Prelude.{◌≡◌, ◌≤◌, length};
ghost use Rattle.engine.specs.Work.{thread_words, program_words};
ghost use Rattle.atomic.specs.Threaded.{most_threads, all_frames};
ghost use Rattle.concurrent.specs.Concurrent.{MainsAt};
ghost use Rattle.concurrent.specs.Anew.{Preparing, Prepares, FramesClear, CellsClear, Renews};

use super::machine::begin;
use basics::numbers::{
    ALL_FRAMES, BOUNDS, FRAME, MAIN, MAP, PROGRAM_WORDS, SIZE, STARTS, THREAD_FRAMES, THREAD_WORDS,
    THREADS, TRAILER,
};
use engine::word::ZERO;
use engine::{locals, memory};
use labels::label_map::fill_labels;

// The label map of an accepted table, and the first cell of each of its locations.
pub fn prepare(
    t: &[u8],
    procedures: usize,
    locations: usize,
    threads: usize,
    map: &mut [usize; MAP],
    bounds: &mut [usize; BOUNDS],
    starts: &mut [u32; STARTS],
)
    requires { Preparing t.now procedures locations threads map.old bounds.old starts.old }
    ensures { Prepares t.now procedures locations threads map.new bounds.new starts.new }
{
    fill_labels(t, procedures, map, bounds);
    let mains = t.len() - TRAILER - MAIN * threads;
    memory::set_starts(t, mains - SIZE * locations, locations, starts);
}

// The locals of each thread's first frame are not set.
fn clear_frames(threads: usize, words: &mut [u64; THREAD_WORDS])
    requires { (threads ≤ most_threads) × (length words.old ≡ thread_words) }
    ensures { FramesClear threads words.new }
{
    for i in 0..threads {
        let base = FRAME * THREAD_FRAMES * i;
        locals::clear(words, base, base + FRAME);
    }
}

// "All cells start as number 0": the first `count` words.
fn clear_cells(count: usize, cells: &mut [u64; PROGRAM_WORDS])
    requires { (count ≤ program_words) × (count ≤ length cells.old) }
    ensures { CellsClear count cells.new }
{
    cells[..count].fill(ZERO);
}

// A run begins: "per thread its main procedure", from `at` on, and `count` cells.
pub fn renew(
    t: &[u8],
    at: usize,
    threads: usize,
    count: usize,
    bounds: &[usize; BOUNDS],
    labels: &mut [usize; ALL_FRAMES],
    depths: &mut [usize; THREADS],
    words: &mut [u64; THREAD_WORDS],
    cells: &mut [u64; PROGRAM_WORDS],
)
    requires { MainsAt t.now at threads × (count ≤ program_words) × (length labels.old ≡ all_frames) × (length depths.old ≡ most_threads)
        × (length words.old ≡ thread_words) × (count ≤ length cells.old) }
    ensures { Renews t.now at threads count bounds.now labels.new depths.new
        words.new cells.new }
{
    begin(t, at, threads, bounds, labels, depths);
    clear_frames(threads, words);
    clear_cells(count, cells);
}

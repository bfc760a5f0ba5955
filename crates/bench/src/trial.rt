// Trying an allotment: the program's run, in which each thread in its turn takes the steps that it is given.
ghost use Rattle.bench.specs.Trying.{Taking, Takes, Playing, Plays, Trying, Tries};

use super::counts::{PLACES, fill_counts};
use basics::numbers::{ALL_FRAMES, BOUNDS, MAP, PROGRAM_WORDS, STARTS, THREAD_WORDS, THREADS};
use concurrent::anew::renew;
use concurrent::threads::step;

// A thread takes so many steps, one by one; "leaves out each step of a finished thread". Answers whether one blocks.
fn take_steps(
    t: &[u8],
    map: &[usize; MAP],
    bounds: &[usize; BOUNDS],
    starts: &[u32; STARTS],
    thread: u8,
    steps: u8,
    labels: &mut [usize; ALL_FRAMES],
    depths: &mut [usize; THREADS],
    words: &mut [u64; THREAD_WORDS],
    cells: &mut [u64; PROGRAM_WORDS],
) -> bool
    requires { Taking t.now map.now bounds.now starts.now thread labels.old depths.old words.old cells.old }
    ensures { Takes t.now map.now bounds.now starts.now thread steps
        labels.old depths.old words.old cells.old
        labels.new depths.new words.new cells.new result }
{
    for _taken in 0..steps {
        if depths[thread as usize] == 0 {
            return false;
        }
        let stepped = step(
            t,
            map,
            bounds,
            starts,
            thread,
            labels,
            depths,
            words,
            cells,
            &mut [0u8; 0],
            0,
        );
        if stepped.is_err() {
            return true;
        }
    }
    false
}

// The rounds of an allotment: "threads in rising order", each with its count. Answers whether a step blocks; the rounds are left there.
fn play(
    t: &[u8],
    map: &[usize; MAP],
    bounds: &[usize; BOUNDS],
    starts: &[u32; STARTS],
    rounds: usize,
    threads: usize,
    counts: &[u8; PLACES],
    labels: &mut [usize; ALL_FRAMES],
    depths: &mut [usize; THREADS],
    words: &mut [u64; THREAD_WORDS],
    cells: &mut [u64; PROGRAM_WORDS],
) -> bool
    requires { Playing t.now map.now bounds.now starts.now rounds threads counts.now labels.old depths.old words.old cells.old }
    ensures { Plays t.now map.now bounds.now starts.now rounds threads counts.now
        labels.old depths.old words.old cells.old
        labels.new depths.new words.new cells.new result }
{
    let mut blocked = false;
    // stays: the labelled break is asked for, "leaves both the rounds and the allotments at the first blocked run"
    'rounds: for round in 0..rounds {
        for thread in 0..threads {
            let steps = counts[threads * round + thread];
            if take_steps(
                t,
                map,
                bounds,
                starts,
                thread as u8,
                steps,
                labels,
                depths,
                words,
                cells,
            ) {
                blocked = true;
                break 'rounds;
            }
        }
    }
    blocked
}

// Tries allotment `number`, before which none blocks, and answers whether that one blocks. Leaves its counts and the cells of its run.
pub fn try_one(
    t: &[u8],
    mains: usize,
    threads: usize,
    count: usize,
    rounds: usize,
    most: u64,
    number: u64,
    map: &[usize; MAP],
    bounds: &[usize; BOUNDS],
    starts: &[u32; STARTS],
    counts: &mut [u8; PLACES],
    labels: &mut [usize; ALL_FRAMES],
    depths: &mut [usize; THREADS],
    words: &mut [u64; THREAD_WORDS],
    cells: &mut [u64; PROGRAM_WORDS],
) -> bool
    requires { Trying t.now mains threads count rounds most number map.now bounds.now starts.now counts.old
        labels.old depths.old words.old cells.old }
    ensures { Tries t.now mains threads count rounds most number map.now bounds.now starts.now
        counts.old labels.old depths.old words.old cells.old
        counts.new labels.new depths.new words.new cells.new result }
{
    fill_counts(number, most + 1, rounds * threads, counts);
    renew(
        t, mains, threads, count, bounds, labels, depths, words, cells,
    );
    play(
        t, map, bounds, starts, rounds, threads, counts, labels, depths, words, cells,
    )
}

// The search: allotment after allotment, up to one whose run blocks.
ghost use Rattle.std.specs.Prelude.{◌≡◌};
ghost use Rattle.allotments.specs.Bench as Bench;
ghost use Rattle.bench.specs.Searching.{found_with, Searching, Searches};

use super::counts::PLACES;
use super::trial::try_one;
use allotments::BenchAnswer;
use basics::numbers::{
    ALL_FRAMES, BOUNDS, MAIN, MAP, PROGRAM_WORDS, STARTS, THREAD_WORDS, THREADS, TRAILER,
};
use concurrent::anew::prepare;
use concurrent::machine::write_out;

// No allotment: zeros. "A refusal returns its number and zeros".
pub fn without(number: u8) -> BenchAnswer
    ensures { result ≡ Bench.without number }
{
    let counts = [0u8; PLACES];
    BenchAnswer {
        number,
        found: false,
        allotment: 0,
        counts,
    }
}

// The allotment of this number and these counts.
fn found(allotment: u64, counts: [u8; PLACES]) -> BenchAnswer
    ensures { result ≡ found_with allotment counts }
{
    BenchAnswer {
        number: 0,
        found: true,
        allotment,
        counts,
    }
}

// Tries `total` allotments: "stops at the first allotment whose run of the concurrent program blocks". The cell buffer gets the last run's cells.
pub fn search(
    t: &[u8],
    procedures: usize,
    locations: usize,
    threads: usize,
    count: usize,
    rounds: usize,
    most: u64,
    total: u64,
    out: &mut [u8],
) -> BenchAnswer
    requires { Searching t.now procedures locations threads count rounds most total out.old }
    ensures { Searches t.now procedures locations threads count rounds most total out.old out.new result }
{
    let mains = t.len() - TRAILER - MAIN * threads;
    let mut map = [0usize; MAP];
    let mut bounds = [0usize; BOUNDS];
    let mut starts = [0u32; STARTS];
    let mut counts = [0u8; PLACES];
    let mut labels = [0usize; ALL_FRAMES];
    let mut depths = [0usize; THREADS];
    let mut words = [0u64; THREAD_WORDS];
    let mut cells = [0u64; PROGRAM_WORDS];
    prepare(
        t,
        procedures,
        locations,
        threads,
        &mut map,
        &mut bounds,
        &mut starts,
    );
    // "either answers i, where that one blocks, or goes on with i + 1, where it doesn't"
    for number in 0..total {
        if try_one(
            t,
            mains,
            threads,
            count,
            rounds,
            most,
            number,
            &map,
            &bounds,
            &starts,
            &mut counts,
            &mut labels,
            &mut depths,
            &mut words,
            &mut cells,
        ) {
            write_out(&cells, count, out);
            return found(number, counts);
        }
    }
    write_out(&cells, count, out);
    without(0)
}

// The round-robin bench: tries the allotments of steps to threads in rising order, and answers the first whose run blocks. May use
// `allotments`, `reader`, `concurrent` and what those use. Its call is for users; read it first, then src/search.rt and src/trial.rt.
#![tactic(auto)]

mod counts;
mod search;
mod trial;

ghost use Rattle.std.specs.Prelude.{◌≡◌};
ghost use Rattle.allotments.specs.Bench.{Outcome, bench_call};
ghost use Rattle.bench.specs.Benching.{Benches};

use allotments::BenchAnswer;
use basics::numbers::CELL;
use basics::refusals::Refusal;
use counts::allotments;
use reader::Kind;
use search::{search, without};

// The search of a table that is accepted, for numbers that are not refused, with room for its cells.
fn searched(table: &[u8], rounds: u64, most: u64, cells: &mut [u8]) -> Result<BenchAnswer, Refusal>
    ensures { Benches table.now rounds most cells.old cells.new result }
{
    let read = reader::check(table, Kind::Concurrent)?;
    let Some(total) = allotments(read.threads, rounds, most) else {
        return Err(Refusal::Allotments);
    };
    if cells.len() < CELL * read.cells {
        return Err(Refusal::NoCells);
    }
    Ok(search(
        table,
        read.procedures,
        read.locations,
        read.threads,
        read.cells,
        rounds as usize,
        most,
        total,
        cells,
    ))
}

// Tries each allotment of `rounds` rounds in which a thread is given from 0 to `most` steps, up to one whose run blocks.
pub fn bench(table: &[u8], rounds: u64, most: u64, cells: &mut [u8]) -> BenchAnswer
    ensures { ◌≡◌ {A = Outcome} (record { answer = result; cells = cells.new })
        (bench_call table.now rounds most cells.old) }
{
    match searched(table, rounds, most, cells) {
        Ok(answer) => answer,
        Err(refusal) => without(refusal.number()),
    }
}

// The calls for programs in C: a slice is a pointer and a length, and the numbers of an answer go into a lent array, each where the
// array has a place for it. May use `reader`, `translator`, `machines`, `bench`, `prices`, `mender`, `printer`, `fromtext` and the types that they answer. Read specs/Numbers.antt first.
#![tactic(auto)]

ghost use Rattle.std.specs.Prelude.{◌≡◌};
ghost use Rattle.format.specs.Syntax.{concurrent, sequential};
ghost use Rattle.format.specs.Calls.{read_call};
ghost use Rattle.translation.specs.Placement.{mode_numbered};
ghost use Rattle.translation.specs.Calls.{translate_call};
ghost use Rattle.ctext.specs.Calls.{print_call, read_text_call};
ghost use Rattle.semantics.specs.Calls.{concurrent_call, plain_call, sequential_call};
ghost use Rattle.allotments.specs.Bench.{bench_call};
ghost use Rattle.agreement.specs.Prices.{prices_call};
ghost use Rattle.mending.specs.Mending.{kind_numbered, mend_call};
ghost use Rattle.clib.specs.Numbers.{stored, read_numbers, write_numbers, run_numbers, bench_numbers, prices_numbers};
ghost use Rattle.clib.specs.Numbers.{Translated, translated, Ran, ran, Benched, benched};
ghost use Rattle.clib.specs.Numbers.{mend_numbers, Mended, mended};

use agreement::PricesAnswer;
use allotments::BenchAnswer;
use format::ReadAnswer;
use mending::MendAnswer;
use semantics::RunAnswer;
use translation::WriteAnswer;

// Numbers of an answer from the array's first place on, as many as it has places for.
fn store(numbers: &[u64], answer: &mut [u64])
    ensures { answer.new ≡ stored 0 numbers.now answer.old }
{
    let n = numbers.len().min(answer.len());
    answer[..n].copy_from_slice(&numbers[..n]);
}

// The six numbers of a read.
fn store_read(r: ReadAnswer, answer: &mut [u64])
    ensures { answer.new ≡ stored 0 (read_numbers r) answer.old }
{
    let numbers = [
        u64::from(r.number),
        r.procedures as u64,
        r.locations as u64,
        r.threads as u64,
        r.labels as u64,
        r.cells as u64,
    ];
    store(&numbers, answer);
}

// The two numbers of a translation.
fn store_write(r: WriteAnswer, answer: &mut [u64])
    ensures { answer.new ≡ stored 0 (write_numbers r) answer.old }
{
    store(&[u64::from(r.number), r.length as u64], answer);
}

// The six numbers of a run.
fn store_run(r: RunAnswer, answer: &mut [u64])
    ensures { answer.new ≡ stored 0 (run_numbers r) answer.old }
{
    let numbers = [
        u64::from(r.number),
        u64::from(r.end),
        r.steps,
        r.unused as u64,
        r.events,
        u64::from(r.reason),
    ];
    store(&numbers, answer);
}

// The 22 numbers of the bench, the counts from place 3 on.
fn store_bench(r: BenchAnswer, answer: &mut [u64])
    ensures { answer.new ≡ stored 0 (bench_numbers r) answer.old }
{
    store(
        &[u64::from(r.number), u64::from(r.found), r.allotment],
        answer,
    );
    let first = answer.len().min(3);
    store(&r.counts.map(u64::from), &mut answer[first..]);
}

// The three numbers of a label's prices.
fn store_prices(r: PricesAnswer, answer: &mut [u64])
    ensures { answer.new ≡ stored 0 (prices_numbers r) answer.old }
{
    store(&[u64::from(r.refusal), r.least, r.most], answer);
}

// The three numbers of the mender.
fn store_mend(r: MendAnswer, answer: &mut [u64])
    ensures { answer.new ≡ stored 0 (mend_numbers r) answer.old }
{
    let numbers = [u64::from(r.refusal), u64::from(r.mended), r.changes as u64];
    store(&numbers, answer);
}

// Reads a concurrent table.
pub fn zaru_read_concurrent(table: &[u8], answer: &mut [u64])
    ensures { answer.new ≡ stored 0 (read_numbers (read_call concurrent table.now)) answer.old }
{
    store_read(reader::read_concurrent(table), answer);
}

// Reads a sequential table.
pub fn zaru_read_sequential(table: &[u8], answer: &mut [u64])
    ensures { answer.new ≡ stored 0 (read_numbers (read_call sequential table.now)) answer.old }
{
    store_read(reader::read_sequential(table), answer);
}

// Translates a concurrent table: in mode 0 each procedure's locals have cells of their own, in any other those of different call paths share them.
pub fn zaru_translate(table: &[u8], mode: u64, out: &mut [u8], answer: &mut [u64])
    ensures { ◌≡◌ {A = Translated} (record { out = out.exit.now; answer = answer.new }) (translated (translate_call
        (mode_numbered mode) table.now out.entry.now) answer.old) }
{
    let r = translator::translate(table, translator::mode_numbered(mode), out);
    store_write(r, answer);
}

// Prints a sequential table as C text.
pub fn zaru_c_text(table: &[u8], out: &mut [u8], answer: &mut [u64])
    ensures { ◌≡◌ {A = Translated} (record { out = out.exit.now; answer = answer.new }) (translated (print_call
        table.now out.entry.now) answer.old) }
{
    let r = printer::print(table, out);
    store_write(r, answer);
}

// Reads such a text.
pub fn zaru_from_c_text(text: &[u8], out: &mut [u8], answer: &mut [u64])
    ensures { ◌≡◌ {A = Translated} (record { out = out.exit.now; answer = answer.new }) (translated (read_text_call
        text.now out.entry.now) answer.old) }
{
    let r = fromtext::read_text(text, out);
    store_write(r, answer);
}

// Runs a concurrent table.
pub fn zaru_run_concurrent(
    table: &[u8],
    schedule: &[u8],
    cells: &mut [u8],
    events: &mut [u8],
    answer: &mut [u64],
)
    ensures { ◌≡◌ {A = Ran} (record { cells = cells.exit.now; events = events.new; answer = answer.new })
        (ran (concurrent_call table.now schedule.now cells.entry.now events.old)
        answer.old) }
{
    let r = machines::run_concurrent(table, schedule, cells, events);
    store_run(r, answer);
}

// Runs a concurrent table as the report has it, without labels.
pub fn zaru_run_plain(
    table: &[u8],
    schedule: &[u8],
    cells: &mut [u8],
    events: &mut [u8],
    answer: &mut [u64],
)
    ensures { ◌≡◌ {A = Ran} (record { cells = cells.exit.now; events = events.new; answer = answer.new })
        (ran (plain_call table.now schedule.now cells.entry.now events.old)
        answer.old) }
{
    let r = machines::run_plain(table, schedule, cells, events);
    store_run(r, answer);
}

// Runs a sequential table.
pub fn zaru_run_sequential(
    table: &[u8],
    schedule: &[u8],
    budget: u64,
    h: usize,
    cells: &mut [u8],
    events: &mut [u8],
    answer: &mut [u64],
)
    ensures { ◌≡◌ {A = Ran} (record { cells = cells.exit.now; events = events.new; answer = answer.new })
        (ran (sequential_call budget h table.now schedule.now cells.entry.now events.old)
        answer.old) }
{
    let r = machines::run_sequential(table, schedule, budget, h, cells, events);
    store_run(r, answer);
}

// Tries a concurrent table's round-robin orders.
pub fn zaru_bench(table: &[u8], rounds: u64, most: u64, cells: &mut [u8], answer: &mut [u64])
    ensures { ◌≡◌ {A = Benched} (record { cells = cells.exit.now; answer = answer.new })
        (benched (bench_call table.now rounds most cells.entry.now) answer.old) }
{
    let r = bench::bench(table, rounds, most, cells);
    store_bench(r, answer);
}

// What the step at a label of a concurrent table costs.
pub fn zaru_prices(table: &[u8], label: u64, answer: &mut [u64])
    ensures { answer.new ≡ stored 0 (prices_numbers (prices_call table.now label)) answer.old }
{
    store_prices(prices::prices(table, label), answer);
}

// Mends a table of the kind wanted whose trailer is lost: 0 concurrent, any other number sequential.
pub fn zaru_mend(table: &mut [u8], kind: u64, list: &mut [u8], answer: &mut [u64])
    ensures { ◌≡◌ {A = Mended} (record { table = table.exit.now; list = list.new; answer = answer.new })
        (mended (mend_call (kind_numbered kind) table.entry.now list.old) answer.old) }
{
    let r = mender::mend(table, mender::kind_numbered(kind), list);
    store_mend(r, answer);
}

// The exports for programs in C: each calls the function of `clib` that has its name, under the same promise. Its archive is installed as libzaru.a, with
// lib/zaru.h as its header.
#![tactic(auto)]

ghost use Rattle.std.specs.Prelude.{◌≡◌};
ghost use Rattle.format.specs.Syntax.{concurrent, sequential};
ghost use Rattle.format.specs.Calls.{read_call};
ghost use Rattle.translation.specs.Placement.{mode_numbered};
ghost use Rattle.translation.specs.Calls.{translate_call};
ghost use Rattle.ctext.specs.Calls.{print_call, read_text_call};
ghost use Rattle.semantics.specs.Calls.{concurrent_call, plain_call, sequential_call};
ghost use Rattle.allotments.specs.Bench.{bench_call};
ghost use Rattle.agreement.specs.Prices.{prices_call};
ghost use Rattle.mending.specs.Mending.{kind_numbered, mend_call};
ghost use Rattle.clib.specs.Numbers.{stored, read_numbers, write_numbers, run_numbers, bench_numbers, prices_numbers};
ghost use Rattle.clib.specs.Numbers.{Translated, translated, Ran, ran, Benched, benched};
ghost use Rattle.clib.specs.Numbers.{mend_numbers, Mended, mended};

// Reads a concurrent table.
#[unsafe(no_mangle)]
pub extern "C" fn zaru_read_concurrent(table: &[u8], answer: &mut [u64])
    ensures { answer.new ≡ stored 0 (read_numbers (read_call concurrent table.now)) answer.old }
{
    clib::zaru_read_concurrent(table, answer);
}

// Reads a sequential table.
#[unsafe(no_mangle)]
pub extern "C" fn zaru_read_sequential(table: &[u8], answer: &mut [u64])
    ensures { answer.new ≡ stored 0 (read_numbers (read_call sequential table.now)) answer.old }
{
    clib::zaru_read_sequential(table, answer);
}

// Translates a concurrent table: in mode 0 each procedure's locals have cells of their own, in any other those of different call paths share them.
#[unsafe(no_mangle)]
pub extern "C" fn zaru_translate(table: &[u8], mode: u64, out: &mut [u8], answer: &mut [u64])
    ensures { ◌≡◌ {A = Translated} (record { out = out.exit.now; answer = answer.new }) (translated (translate_call
        (mode_numbered mode) table.now out.entry.now) answer.old) }
{
    clib::zaru_translate(table, mode, out, answer);
}

// Prints a sequential table as C text.
#[unsafe(no_mangle)]
pub extern "C" fn zaru_c_text(table: &[u8], out: &mut [u8], answer: &mut [u64])
    ensures { ◌≡◌ {A = Translated} (record { out = out.exit.now; answer = answer.new }) (translated (print_call
        table.now out.entry.now) answer.old) }
{
    clib::zaru_c_text(table, out, answer);
}

// Reads such a text.
#[unsafe(no_mangle)]
pub extern "C" fn zaru_from_c_text(text: &[u8], out: &mut [u8], answer: &mut [u64])
    ensures { ◌≡◌ {A = Translated} (record { out = out.exit.now; answer = answer.new }) (translated (read_text_call
        text.now out.entry.now) answer.old) }
{
    clib::zaru_from_c_text(text, out, answer);
}

// Runs a concurrent table.
#[unsafe(no_mangle)]
pub extern "C" fn zaru_run_concurrent(
    table: &[u8],
    schedule: &[u8],
    cells: &mut [u8],
    events: &mut [u8],
    answer: &mut [u64],
)
    ensures { ◌≡◌ {A = Ran} (record { cells = cells.exit.now; events = events.new; answer = answer.new })
        (ran (concurrent_call table.now schedule.now cells.entry.now events.old)
        answer.old) }
{
    clib::zaru_run_concurrent(table, schedule, cells, events, answer);
}

// Runs a concurrent table as the report has it, without labels.
#[unsafe(no_mangle)]
pub extern "C" fn zaru_run_plain(
    table: &[u8],
    schedule: &[u8],
    cells: &mut [u8],
    events: &mut [u8],
    answer: &mut [u64],
)
    ensures { ◌≡◌ {A = Ran} (record { cells = cells.exit.now; events = events.new; answer = answer.new })
        (ran (plain_call table.now schedule.now cells.entry.now events.old)
        answer.old) }
{
    clib::zaru_run_plain(table, schedule, cells, events, answer);
}

// Runs a sequential table.
#[unsafe(no_mangle)]
pub extern "C" fn zaru_run_sequential(
    table: &[u8],
    schedule: &[u8],
    budget: u64,
    h: usize,
    cells: &mut [u8],
    events: &mut [u8],
    answer: &mut [u64],
)
    ensures { ◌≡◌ {A = Ran} (record { cells = cells.exit.now; events = events.new; answer = answer.new })
        (ran (sequential_call budget h table.now schedule.now cells.entry.now events.old)
        answer.old) }
{
    clib::zaru_run_sequential(table, schedule, budget, h, cells, events, answer);
}

// Tries a concurrent table's round-robin orders.
#[unsafe(no_mangle)]
pub extern "C" fn zaru_bench(
    table: &[u8],
    rounds: u64,
    most: u64,
    cells: &mut [u8],
    answer: &mut [u64],
)
    ensures { ◌≡◌ {A = Benched} (record { cells = cells.exit.now; answer = answer.new })
        (benched (bench_call table.now rounds most cells.entry.now) answer.old) }
{
    clib::zaru_bench(table, rounds, most, cells, answer);
}

// What the step at a label of a concurrent table costs.
#[unsafe(no_mangle)]
pub extern "C" fn zaru_prices(table: &[u8], label: u64, answer: &mut [u64])
    ensures { answer.new ≡ stored 0 (prices_numbers (prices_call table.now label)) answer.old }
{
    clib::zaru_prices(table, label, answer);
}

// Mends a table of the kind wanted whose trailer is lost: 0 concurrent, any other number sequential.
#[unsafe(no_mangle)]
pub extern "C" fn zaru_mend(table: &mut [u8], kind: u64, list: &mut [u8], answer: &mut [u64])
    ensures { ◌≡◌ {A = Mended} (record { table = table.exit.now; list = list.new; answer = answer.new })
        (mended (mend_call (kind_numbered kind) table.entry.now list.old) answer.old) }
{
    clib::zaru_mend(table, kind, list, answer);
}

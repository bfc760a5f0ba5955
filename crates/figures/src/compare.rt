// Translates a program, runs it and its copy, and tells both runs' figures.
//
// Stack, beside what the lower calls use: 65,536 bytes for the copy's table; while the program runs, 10,240 for its cells; while the
// copy runs, 81,920 for its cells. The figures have only the number of events, so the event buffers are empty.
ghost use Rattle.std.specs.Prelude.{◌≡◌};
ghost use Rattle.format.specs.Syntax.{concurrent};
ghost use Rattle.format.specs.Calls.{read_call};
ghost use Rattle.agreement.specs.Answers.{program_answer, copy_answer, compared};
ghost use Rattle.agreement.specs.Figures.{figures_call};

use super::refused;
use agreement::Figures;
use basics::numbers::{BUDGET, COPY_CELLS, LONGEST, PROGRAM_CELLS};
use machines::{run_concurrent, run_sequential};
use reader::read_concurrent;
use semantics::RunAnswer;
use translation::Mode;
use translator::translate;

// The program's run, with room for the most cells.
fn run_program(table: &[u8], schedule: &[u8]) -> RunAnswer
    ensures { result ≡ program_answer table.now schedule.now }
{
    let mut cells = [0u8; PROGRAM_CELLS];
    run_concurrent(table, schedule, &mut cells, &mut [])
}

// The copy's run, with room for the most cells; "comparison uses h = M".
fn run_copy(copy: &[u8], schedule: &[u8], locations: usize) -> RunAnswer
    ensures { result ≡ copy_answer copy.now schedule.now locations }
{
    let mut cells = [0u8; COPY_CELLS];
    run_sequential(copy, schedule, BUDGET, locations, &mut cells, &mut [])
}

// Both runs; the copy runs only where the program does.
fn run_both(table: &[u8], schedule: &[u8], copy: &[u8]) -> Figures
    ensures { result ≡ compared (program_answer table.now schedule.now)
        (copy_answer copy.now schedule.now (read_call concurrent table.now).locations) }
{
    let program = run_program(table, schedule);
    // stays: the call's answer is the paper's, with its number, and so is this one; a `Result` between them would be made and taken apart at once.
    if program.number != 0 {
        return refused(program.number);
    }
    let read = read_concurrent(table);
    let copied = run_copy(copy, schedule, read.locations);
    Figures {
        number: 0,
        end: program.end,
        steps: program.steps,
        copy: copied.steps,
        unused: program.unused,
        events: program.events,
        reason: program.reason,
    }
}

// The figures of a concurrent table and its copy in a mode, under a schedule: refused by 1 to 8, 9 and 11, in this order, or told.
pub fn figures(table: &[u8], mode: Mode, schedule: &[u8]) -> Figures
    ensures { result ≡ figures_call mode table.now schedule.now }
{
    let mut copy = [0u8; LONGEST];
    let written = translate(table, mode, &mut copy);
    // stays: as in `run_both`
    if written.number != 0 {
        return refused(written.number);
    }
    let n = written.length;
    run_both(table, schedule, &copy[..n])
}

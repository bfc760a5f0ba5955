// Answers a batch of requests from standard input with a line for each. The folder `second` writes the batch that is stored beside
// this program, and the lines to expect; the command `zaru` asks it for everything that it tells.
//
// A request is a header of 36 bytes, then a table and a schedule. The header, numbers low byte first: what to call (1 byte; 0 ends the
// batch), whether to show the lent buffers (1), two zeros, the table's length (4), the schedule's (4), budget (8), h (4), the lengths of
// the lent buffers for cells (4), events (4) and output (4).
//
// A line has the call's number, the numbers of its answer, and a hash of each lent buffer. Where they are to be shown, their bytes
// follow it. Before a call byte i of a lent buffer is the low byte of 7 * i + 13.
//
// The bench has its rounds in the budget's place and the most steps of a count in h's. The mender has the kind wanted in h's place (0
// concurrent, 1 sequential), and its list of changes is the lent buffer for events; it mends a copy of the table, whose hash comes first.
// A translation has its mode in h's place (0 own cells for each procedure's locals, 1 shared ones).
//
// The prices have their label in the budget's place; no buffer is lent to them, so that their line has no hash. A text to be read stands in the table's place.
//
// What can be called: the calls below by 1 to 12, and the greeting by 90 (hexadecimal 5A, far from the calls that may still come). A
// greeting's line has the version of requests and lines, so that the command `zaru` does not read the lines of another program.
#![tactic(auto)]

mod buffers;
mod call;
mod print;

use basics::bytes;
use basics::numbers::{COPY_CELLS, ENTRIES, EVENT};
use call::Call;
use figures::input::LINE;

const HEADER: usize = 36;

const LONGEST_TABLE: usize = 66000;

const LONGEST_SCHEDULE: usize = 5000;

// Room for all cells, and for some bytes more.
const LONGEST_CELLS: usize = COPY_CELLS + 4096;

// An event for each entry of the longest schedule.
const LONGEST_EVENTS: usize = EVENT * ENTRIES;

const LONGEST_OUT: usize = 70000;

// There are longer texts, of up to 3,373,119 bytes: so large an array is more than the prover can look at.
const LONGEST_TEXT: usize = 524288;

// No batch has more requests: the loop over them ends.
const MOST_REQUESTS: u32 = 1000000;

// One more whenever a request, or a line that answers one, changes its form. `zaru/engine.py` and `second/src/batch.rs` have it too.
const VERSION: u64 = 9;

// What is asked for, beside the table and the schedule.
#[derive(Clone, Copy)]
struct Request {
    call: Call,
    shown: bool,
    budget: u64,
    h: usize,
    cells: usize,
    events: usize,
    out: usize,
}

impl Request {
    // None where there is no such call.
    fn of(header: &[u8; HEADER]) -> Option<Request> {
        let number = |at: usize| bytes::four_bytes(header, at);
        Some(Request {
            call: Call::try_from(header[0]).ok()?,
            shown: header[1] == 1,
            budget: u64::from(number(12)) + 4294967296 * u64::from(number(16)),
            h: number(20) as usize,
            cells: number(24) as usize,
            events: number(28) as usize,
            out: number(32) as usize,
        })
    }

    // Prints the line that answers it.
    fn answered(&self, numbers: &[u64], lent: &[&[u8]]) {
        print::line(self.call, numbers, lent);
        if self.shown {
            print::show(lent);
        }
    }
}

// Reads a table.
fn read(request: &Request, table: &[u8]) {
    let mut numbers = [0; 6];
    match request.call {
        Call::ReadConcurrent => clib::zaru_read_concurrent(table, &mut numbers),
        _ => clib::zaru_read_sequential(table, &mut numbers),
    }
    request.answered(&numbers, &[]);
}

// Writes a translation, a table as text, or a text as table, with this room for it.
fn write(request: &Request, input: &[u8], room: &mut [u8]) {
    let Some(out) = buffers::lend(room, request.out) else {
        return;
    };
    let mut numbers = [0; 2];
    match request.call {
        Call::Print => clib::zaru_c_text(input, out, &mut numbers),
        Call::ReadText => clib::zaru_from_c_text(input, out, &mut numbers),
        _ => clib::zaru_translate(input, request.h as u64, out, &mut numbers),
    }
    request.answered(&numbers, &[out]);
}

// With room for a table.
fn write_table(request: &Request, input: &[u8]) {
    let mut room = [0; LONGEST_OUT];
    write(request, input, &mut room);
}

// Room for a text. It comes from a function of its own, so that only its length is looked at where it is lent.
fn text_room() -> [u8; LONGEST_TEXT] {
    [0; LONGEST_TEXT]
}

// With room for a text.
fn write_text(request: &Request, table: &[u8]) {
    let mut room = text_room();
    write(request, table, &mut room);
}

// Runs one of the machines, with this room for cells and events.
fn run(request: &Request, table: &[u8], schedule: &[u8], cells: &mut [u8], events: &mut [u8]) {
    let (Some(cells), Some(events)) = (
        buffers::lend(cells, request.cells),
        buffers::lend(events, request.events),
    ) else {
        return;
    };
    let mut numbers = [0; 6];
    match request.call {
        Call::RunConcurrent => {
            clib::zaru_run_concurrent(table, schedule, cells, events, &mut numbers)
        }
        Call::RunPlain => clib::zaru_run_plain(table, schedule, cells, events, &mut numbers),
        _ => clib::zaru_run_sequential(
            table,
            schedule,
            request.budget,
            request.h,
            cells,
            events,
            &mut numbers,
        ),
    }
    request.answered(&numbers, &[cells, events]);
}

fn run_machine(request: &Request, table: &[u8], schedule: &[u8]) {
    let mut cells = [0; LONGEST_CELLS];
    let mut events = [0; LONGEST_EVENTS];
    run(request, table, schedule, &mut cells, &mut events);
}

// Tries a table's round-robin orders.
fn try_orders(request: &Request, table: &[u8]) {
    let mut room = [0; LONGEST_CELLS];
    let Some(cells) = buffers::lend(&mut room, request.cells) else {
        return;
    };
    let mut numbers = [0; 22];
    clib::zaru_bench(table, request.budget, request.h as u64, cells, &mut numbers);
    request.answered(&numbers, &[cells]);
}

// What a label's step costs.
fn tell_prices(request: &Request, table: &[u8]) {
    let mut numbers = [0; 3];
    clib::zaru_prices(table, request.budget, &mut numbers);
    request.answered(&numbers, &[]);
}

// Mends a copy of the table, with this room for the copy and the list of changes.
fn mend_copy(request: &Request, table: &[u8], copy: &mut [u8], list: &mut [u8]) {
    let (Some(copy), Some(list)) = (
        copy.get_mut(..table.len()),
        buffers::lend(list, request.events),
    ) else {
        return;
    };
    copy.copy_from_slice(table);
    let mut numbers = [0; 3];
    clib::zaru_mend(copy, request.h as u64, list, &mut numbers);
    request.answered(&numbers, &[copy, list]);
}

fn mend(request: &Request, table: &[u8]) {
    let mut copy = [0; LONGEST_TABLE];
    let mut list = [0; LONGEST_EVENTS];
    mend_copy(request, table, &mut copy, &mut list);
}

// The run program's line on its whole input.
fn run_program(request: &Request, input: &[u8]) {
    let mut line = [0; LINE];
    let n = figures::input::print(input, &mut line);
    print::text(request.call, &line[..n]);
}

// One call, and its line.
fn answer(request: &Request, table: &[u8], schedule: &[u8]) {
    match request.call {
        Call::ReadConcurrent | Call::ReadSequential => read(request, table),
        Call::Translate | Call::ReadText => write_table(request, table),
        Call::Print => write_text(request, table),
        Call::RunConcurrent | Call::RunSequential | Call::RunPlain => {
            run_machine(request, table, schedule)
        }
        Call::RunProgram => run_program(request, table),
        Call::Bench => try_orders(request, table),
        Call::Prices => tell_prices(request, table),
        Call::Mend => mend(request, table),
        Call::Greeting => request.answered(&[VERSION], &[]),
    }
}

// Reads what follows a header, with this room for the table, and answers the request.
fn take_request(header: &[u8; HEADER], room: &mut [u8]) -> Option<()> {
    let mut entries = [0; LONGEST_SCHEDULE];
    // Both are read, whatever the other is.
    let table = buffers::read_into(room, bytes::four_bytes(header, 4) as usize);
    let schedule = buffers::read_into(&mut entries, bytes::four_bytes(header, 8) as usize);
    answer(&Request::of(header)?, table?, schedule?);
    Some(())
}

// A text stands in the table's place: only then is there room for one, since it is cleared for each request.
fn text_request(header: &[u8; HEADER]) -> Option<()> {
    let mut text = text_room();
    take_request(header, &mut text)
}

fn table_request(header: &[u8; HEADER]) -> Option<()> {
    let mut table = [0; LONGEST_TABLE];
    take_request(header, &mut table)
}

// Reads a request and answers it; none at the end of the batch, or where it is cut off.
fn next_request() -> Option<()> {
    let mut header = [0; HEADER];
    if io::read_full(0, &mut header) < HEADER {
        return None;
    }
    if header[0] == Call::ReadText as u8 {
        text_request(&header)
    } else {
        table_request(&header)
    }
}

fn main() {
    for _ in 0..MOST_REQUESTS {
        if next_request().is_none() {
            return;
        }
    }
}

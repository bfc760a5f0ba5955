// The rows of frames. A row is a position in the table: what is left of a block, from there up to its byte 00. The code that remains in a frame is its
// uppermost row, then the one below it, and so on.
ghost use Rattle.std.specs.Prelude.{◌≡◌, ◌+◌, ◌*◌, ◌<◌};
ghost use Rattle.basics.specs.Places.{number_at};
ghost use Rattle.format.specs.Encode.{record_size};
ghost use Rattle.report.specs.Rows.{Passing, Passes, Within, Leaves, HasRecord};

use basics::numbers;
use basics::numbers::{ALL_FRAMES, END, NESTING, RECORD};
use engine::table;
use labels::count::count_block;

// A frame has a row for each block around its next instruction: "depth at most 16".
pub const ROWS: usize = NESTING as usize;

pub const ALL_ROWS: usize = ROWS * ALL_FRAMES;

// The positions of a concurrent table.
pub const PLACES: usize = numbers::CONCURRENT.bytes;

// Where the block at `at` ends. It is walked over once: `ends` keeps what was found, and 0 where nothing was.
// stays: an array of Option<u16> has no such number, but takes twice the room on the stack
pub fn after_block(t: &[u8], at: usize, ends: &mut [u16; PLACES]) -> usize
    requires { Passing t.now ends.old at }
    ensures { Passes t.now at ends.new result }
{
    let known = usize::from(ends[at]);
    if known != 0 {
        return known;
    }
    let next = count_block(t, at, NESTING).next;
    ends[at] = next as u16;
    next
}

// Where the body of a procedure begins, whose record is one of those from `records` on.
pub fn body(t: &[u8], records: usize, procedure: usize) -> usize
    requires { HasRecord t.now records procedure }
    ensures { result ≡ number_at 4 t.now (records + record_size * procedure + 2) }
{
    table::four(t, records + RECORD * procedure + 2) as usize
}

// How many rows are left of `height` ones, the lowest at place `low`: those that are used up go away, without a step.
pub fn left(t: &[u8], rows: &[usize; ALL_ROWS], low: usize, height: usize) -> usize
    requires { Within t.now rows.now low height }
    ensures { Leaves t.now rows.now low height result }
{
    for n in (0..height).rev() {
        if t[rows[low + n]] != END {
            return n + 1;
        }
    }
    0
}

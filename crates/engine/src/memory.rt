// The cells of memory: a row of words, and the number of each location's first cell.
ghost use Rattle.std.specs.Prelude.{◌≡◌, ◌+◌, ◌*◌, ◌^◌, ◌≤◌, ◌<◌, length, get_or};
ghost use Rattle.value.specs.Values.{given};
ghost use Rattle.engine.specs.Words.{value_in};
ghost use Rattle.engine.specs.Work.{most_locations, start_words, Puts, sizes_at, Starts, Finds, Places, WritesOne, Writes};

use super::{table, word};
use basics::bytes;
use basics::numbers::{CELL, LOCATIONS, SIZE, STARTS};
use value::{Reason, Value};

// A cell's location, its index there and its number among all cells.
#[derive(Clone, Copy)]
pub struct Spot {
    pub location: usize,
    pub index: usize,
    pub cell: usize,
}

// A number of 32 bits, as the number of a cell.
fn wide(n: u32) -> usize
    ensures { (result ≡ n) × (result < 2 ^ 32) }
{
    n as usize
}

// The first cell of each of `count` locations, whose sizes stand in the table from `at` on; answers the number of all cells.
pub fn set_starts(t: &[u8], at: usize, count: usize, starts: &mut [u32; STARTS]) -> usize
    requires { (at + 2 * count ≤ length t.now) × (count ≤ most_locations) × (length starts.old ≡ start_words) }
    ensures { Starts (sizes_at t.now at count) starts.new result }
{
    let mut total = 0u32;
    for i in 0..count {
        starts[i] = total;
        total += table::two(t, at + SIZE * i) as u32;
    }
    for i in count..STARTS {
        starts[i] = total;
    }
    wide(total)
}

// The first cell of a location.
pub fn start(starts: &[u32; STARTS], location: usize) -> usize
    requires { location ≤ most_locations }
    ensures { result ≡ get_or starts.now location 0 }
{
    wide(starts[location])
}

// The cell of an index of a location.
pub fn find(starts: &[u32; STARTS], location: usize, index: u32) -> Result<Spot, Reason>
    ensures { Finds starts.now location index result }
{
    if location >= LOCATIONS {
        return Err(Reason::IndexOutside);
    }
    let index = index as usize;
    let cell = wide(starts[location]) + index;
    if cell >= wide(starts[location + 1]) {
        return Err(Reason::IndexOutside);
    }
    Ok(Spot {
        location,
        index,
        cell,
    })
}

// The cell of a pointer and an index: "the index expression, then the pointer, then the index against the size".
pub fn place(
    starts: &[u32; STARTS],
    pointer: Result<Value, Reason>,
    offset: Result<Value, Reason>,
) -> Result<Spot, Reason>
    ensures { Places starts.now (given pointer) (given offset) result }
{
    let Value::Whole(n) = offset? else {
        return Err(Reason::WrongKind); // before the pointer
    };
    let Value::Location(l) = pointer? else {
        return Err(Reason::WrongKind);
    };
    if n < 0 {
        return Err(Reason::IndexOutside);
    }
    find(starts, l as usize, n as u32)
}

// What a cell holds.
pub fn get(cells: &[u64], cell: usize) -> Result<Value, Reason>
    requires { cell < length cells.now }
    ensures { given result ≡ value_in (get_or cells.now cell 0) }
{
    word::unpack(cells[cell])
}

// A value is stored in a cell.
pub fn put(cells: &mut [u64], cell: usize, v: Value)
    requires { cell < length cells.old }
    ensures { Puts cells.old cells.new cell v }
{
    cells[cell] = word::pack(v);
}

// The five bytes of the value that a word holds.
fn write_cell(w: u64, out: &mut [u8], at: usize)
    ensures { WritesOne w out.old at out.new }
{
    if let Ok(v) = word::unpack(w) {
        bytes::write_value(out, at, v);
    }
}

// The first `count` cells: "Final cells are written as such values, in location order".
pub fn write_cells(cells: &[u64], count: usize, out: &mut [u8])
    requires { count ≤ length cells.now }
    ensures { Writes cells.now count out.old out.new }
{
    for i in 0..count {
        write_cell(cells[i], out, i * CELL);
    }
}

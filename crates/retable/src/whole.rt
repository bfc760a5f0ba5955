// A whole text, as the bytes of a table: bodies, records, sizes, trailer.
ghost use Rattle.std.specs.Prelude.{◌∷◌};
ghost use Rattle.value.specs.Values.{bytes};
ghost use Rattle.writer.specs.Laws.Put.{Put};
ghost use Rattle.retable.specs.Laws.Whole.{ParsesDefinition, ParsesDefinitions, Finds, PutsMiddle, Counts, Lengths, Trails, Reparses};

use super::blocks::parse_block;
use super::frames::{parse_locals, parse_sizes, skip_areas, skip_declarations};
use super::pieces::skip;
use basics::numbers::{
    FAR, FORM_MARK, MOST_PROCEDURES, NESTING, RECORD, SEQUENTIAL_MARK, SIZE, TRAILER,
};
use writer::bytes::{put, put_four, put_part, put_two};

// "PRELUDE is the bytes of share/prelude.h: 5,071 of them"
const PRELUDE: usize = 5071;

// The bytes of all records.
const RECORDS: usize = RECORD * MOST_PROCEDURES;

// Where a definition ends in the text, its body in the table, and its record in its row.
#[derive(Clone, Copy)]
pub struct Defined {
    pub next: usize,
    pub to: usize,
    pub row: usize,
}

// Where all bodies end in the table, and all records in their row.
#[derive(Clone, Copy)]
pub struct Coded {
    pub to: usize,
    pub row: usize,
}

// How many locations and procedures there are, and where the definitions begin.
#[derive(Clone, Copy)]
pub struct Found {
    pub locations: u16,
    pub procedures: u16,
    pub next: usize,
}

// "parameters, locals, body offset (4)"
fn put_record(out: &mut [u8], at: usize, params: u8, locals: u8, offset: usize) -> usize
    ensures { Put out.old at (params ∷ locals ∷ bytes 4 offset) out.new result }
{
    let p = put(out, at, params);
    let q = put(out, p, locals);
    put_four(out, q, offset)
}

// The definition at a place: its body goes to the table, its record to a row of its own.
fn parse_definition(
    x: &[u8],
    at: usize,
    out: &mut [u8],
    to: usize,
    records: &mut [u8],
    row: usize,
) -> Defined
    ensures { ParsesDefinition x.now at out.old to records.old row out.new records.new result }
{
    let l = parse_locals(x, at);
    let end = put_record(records, row, l.params, l.locals, to);
    let b = parse_block(x, l.next, NESTING, 2, out, to);
    Defined {
        next: skip(x, b.next, 16),
        to: b.to,
        row: end,
    }
}

// So many definitions.
fn parse_definitions(x: &[u8], at: usize, count: u16, out: &mut [u8], records: &mut [u8]) -> Coded
    ensures { ParsesDefinitions x.now at count out.old 0 records.old 0 out.new records.new result }
{
    let mut next = at;
    let mut to = 0;
    let mut row = 0;
    for _ in 0..count {
        let d = parse_definition(x, next, out, to, records, row);
        next = d.next;
        to = d.to;
        row = d.row;
    }
    Coded { to, row }
}

// What stands before the definitions.
fn find(x: &[u8]) -> Found
    ensures { Finds x.now result }
{
    let mut nowhere = [0u8; 1];
    let s = parse_sizes(x, PRELUDE, &mut nowhere, 0);
    let areas = skip_areas(x, skip(x, s.next, 27), s.count);
    let d = skip_declarations(x, skip(x, areas, 15));
    Found {
        locations: (s.count % 65536) as u16,
        procedures: (d.count % 65536) as u16,
        next: d.next,
    }
}

// Records and sizes.
fn put_middle(x: &[u8], records: &[u8], row: usize, out: &mut [u8], at: usize) -> usize
    ensures { PutsMiddle x.now records.now row out.old at out.new result }
{
    if records.len() < row {
        return at;
    }
    let p = put_part(records, 0, row, out, at);
    let s = parse_sizes(x, PRELUDE, out, p);
    s.to
}

// "procedures P, locations M, threads T (2 each)"
fn put_counts(out: &mut [u8], at: usize, procedures: u16, locations: u16) -> usize
    ensures { Counts procedures locations out.old at out.new result }
{
    let p = put_two(out, at, procedures as usize);
    let q = put_two(out, p, locations as usize);
    put_two(out, q, 0)
}

// "the distance from the trailer back to the procedure records (4); the whole length (4)"
fn put_lengths(out: &mut [u8], at: usize, back: usize, whole: usize) -> usize
    ensures { Lengths back whole out.old at out.new result }
{
    let p = put_four(out, at, back);
    put_four(out, p, whole)
}

// "Last a 16-byte trailer"; "Sequential tables have T = 0"
fn put_trailer(out: &mut [u8], at: usize, procedures: u16, locations: u16, whole: usize) -> usize
    ensures { Trails procedures locations whole out.old at out.new result }
{
    let back = RECORD * (procedures as usize) + SIZE * (locations as usize);
    let p = put(out, at, SEQUENTIAL_MARK);
    let q = put(out, p, FORM_MARK);
    let u = put_counts(out, q, procedures, locations);
    put_lengths(out, u, back, whole)
}

// The table of a text: its bytes go to `out`, and their number is answered.
pub fn parse(x: &[u8], out: &mut [u8]) -> usize
    ensures { Reparses x.now out.old out.new result }
{
    let found = find(x);
    let mut records = [0u8; RECORDS];
    let code = parse_definitions(x, found.next, found.procedures, out, &mut records);
    let q = put_middle(x, &records, code.row, out, code.to);
    if FAR <= q {
        return q;
    }
    put_trailer(out, q, found.procedures, found.locations, q + TRAILER)
}

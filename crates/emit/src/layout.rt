// Where the copy keeps what: the locations after the source's. No other file knows their numbers.
ghost use Rattle.std.specs.Prelude.{◌≡◌, ◌+◌};
ghost use Rattle.emit.specs.Laws.Shapes.{LocalsAt, MainAt, HubAt, SiteAt, RowsAt};

use basics::bytes::{byte_at, two_bytes};
use basics::numbers::{MAIN, PROCEDURES, RECORD, SIZE};
use translation::Mode;

// What is known of an accepted concurrent table: where its procedure records begin, and its counts; and where its copy's mode places the
// locals: where those of each procedure begin in their row, and how long the row is.
// stays: numbers of 16 bits here, and of 32 in a site, by which no sum of them wraps.
#[derive(Clone, Copy)]
pub struct Shape {
    pub records: u16,
    pub procedures: u16,
    pub locations: u16,
    pub threads: u16,
    pub labels: u16,
    pub mode: Mode,
    pub starts: [u16; PROCEDURES],
    pub row: u16,
}

// Where the copy keeps the thread selected last and the program counters.
#[derive(Clone, Copy)]
pub struct Hub {
    pub ptid: usize,
    pub pct: usize,
}

// What the code of a procedure's labels must know: how many locals the procedure has, and where the copy keeps the program counters,
// the procedure's "from" and its first local.
#[derive(Clone, Copy)]
pub struct Site {
    pub locals: u8,
    pub pct: u32,
    pub from: u32,
    pub home: u32,
}

// How many locals procedure m has; 0 past the last.
pub fn locals_of(t: &[u8], shape: Shape, m: usize) -> u8
    ensures { LocalsAt t.now shape m result }
{
    if usize::from(shape.procedures) <= m {
        return 0;
    }
    byte_at(t, usize::from(shape.records) + RECORD * m + 1)
}

// The main procedure of thread k.
pub fn main_of(t: &[u8], shape: Shape, k: usize) -> usize
    ensures { MainAt t.now shape k result }
{
    if usize::from(shape.threads) <= k {
        return 0;
    }
    let sizes = usize::from(shape.records) + RECORD * usize::from(shape.procedures);
    usize::from(two_bytes(t, sizes + SIZE * usize::from(shape.locations) + MAIN * k))
}

// "ptid (size 1), pct"
pub fn hub_of(shape: Shape) -> Hub
    ensures { HubAt shape result }
{
    let first = usize::from(shape.locations);
    Hub {
        ptid: first,
        pct: first + 1,
    }
}

// "one from per procedure", and after these the row of locals
pub fn site_of(t: &[u8], shape: Shape, m: usize) -> Site
    ensures { SiteAt t.now shape m result }
{
    if PROCEDURES <= m {
        return Site {
            locals: 0,
            pct: 0,
            from: 0,
            home: 0,
        };
    }
    let first = u32::from(shape.locations);
    let homes = first + 2 + u32::from(shape.procedures);
    Site {
        locals: locals_of(t, shape, m),
        pct: first + 1,
        from: first + 2 + m as u32,
        home: homes + u32::from(shape.starts[m]),
    }
}

// How many locations have size T: pct, one "from" per procedure, the row of locals.
pub fn rows_of(shape: Shape) -> usize
    ensures { RowsAt shape result }
{
    1 + usize::from(shape.procedures) + usize::from(shape.row)
}

// The location of local x.
pub fn home(s: Site, x: u8) -> usize
    ensures { result ≡ s.home + x }
{
    s.home as usize + usize::from(x)
}

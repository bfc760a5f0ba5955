// Rule 3: the records of procedures, the sizes of locations, the mains of threads. `body` is the table without its trailer.
ghost use Rattle.std.specs.Prelude.{◌≡◌, ◌+◌, ◌*◌, ◌≤◌, length};
ghost use Rattle.format.specs.Encode.{record_size, distance};
ghost use Rattle.parse.specs.Ends.{kind_of};
ghost use Rattle.shape.specs.Shapes.{LocalsTest, SizesTest, CellsAre, BegunTest, MainsTest, StartsTest, RecordsTest, trailer_of};

use super::header::Trailer;
use basics::bytes::two_bytes;
use basics::numbers::{LARGEST, MAIN, RECORD, SIZE};
use parse::Kind;

// "parameters over locals; locals over 16".
fn right_locals(body: &[u8], at: usize, count: u16, most: u8) -> bool
    requires { at + record_size * count ≤ length body.now }
    ensures { LocalsTest body.now at count most result }
{
    (0..count as usize).all(|i| {
        let record = at + RECORD * i;
        body[record] <= body[record + 1] && body[record + 1] <= most
    })
}

// "size not 1..256".
fn right_sizes(body: &[u8], at: usize, count: u16) -> bool
    requires { at + 2 * count ≤ length body.now }
    ensures { SizesTest body.now at count result }
{
    (0..count as usize).all(|i| (1..=LARGEST).contains(&two_bytes(body, at + SIZE * i)))
}

// "all sizes together".
#[tactic(auto, using(crate::proofs::Rule3::cells_ways))]
pub fn cells(body: &[u8], at: usize, count: u16) -> usize
    requires { at + 2 * count ≤ length body.now }
    ensures { CellsAre body.now at count result }
{
    let mut total = 0;
    for i in 0..count as usize {
        total += two_bytes(body, at + SIZE * i) as usize;
    }
    total
}

// Is there such a procedure, with no parameters?
#[tactic(auto, using(crate::proofs::Rule3::begun_ways))]
fn begun(body: &[u8], records: usize, procedures: u16, main: u16) -> bool
    requires { records + record_size * procedures ≤ length body.now }
    ensures { BegunTest body.now records procedures main result }
{
    main < procedures && body[records + RECORD * (main as usize)] == 0
}

// "a main that is not below P or has parameters".
fn right_mains(body: &[u8], at: usize, count: u16, records: usize, procedures: u16) -> bool
    requires { (at + 2 * count ≤ length body.now) × (records + record_size * procedures ≤ length body.now) }
    ensures { MainsTest body.now at count records procedures result }
{
    (0..count as usize).all(|i| begun(body, records, procedures, two_bytes(body, at + MAIN * i)))
}

// The mains; of a sequential table procedure 0 too.
fn right_starts(
    body: &[u8],
    at: usize,
    count: u16,
    records: usize,
    procedures: u16,
    kind: Kind,
) -> bool
    requires { (at + 2 * count ≤ length body.now) × (records + record_size * procedures ≤ length body.now) }
    ensures { StartsTest (kind_of kind) body.now at count records procedures result }
{
    (kind == Kind::Concurrent || begun(body, records, procedures, 0))
        && right_mains(body, at, count, records, procedures)
}

// Rule 3.
pub fn right_records(body: &[u8], records: usize, trailer: Trailer, kind: Kind) -> bool
    requires { records + distance trailer.procedures trailer.locations trailer.threads ≤ length body.now }
    ensures { RecordsTest (kind_of kind) body.now records (trailer_of trailer) result }
{
    let most = kind.limits();
    let sizes = records + RECORD * (trailer.procedures as usize);
    let mains = sizes + SIZE * (trailer.locations as usize);
    right_locals(body, records, trailer.procedures, most.locals)
        && right_sizes(body, sizes, trailer.locations)
        && cells(body, sizes, trailer.locations) <= most.cells
        && right_starts(
            body,
            mains,
            trailer.threads,
            records,
            trailer.procedures,
            kind,
        )
}

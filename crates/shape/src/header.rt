// Rules 1 and 2: the trailer.
ghost use Rattle.std.specs.Prelude.{◌≡◌, ◌≤◌, length};
ghost use Rattle.format.specs.Encode.{trailer_size};
ghost use Rattle.parse.specs.Ends.{kind_of};
ghost use Rattle.shape.specs.Shapes.{trailer_of, TrailerAt, TrailerTest, CountsTest, HeaderIs};

use basics::numbers::{FORM_MARK, MAIN, RECORD, SIZE, TRAILER};
use basics::refusals::Refusal;
use parse::Kind;

// What the trailer says.
#[derive(Clone, Copy)]
pub struct Trailer {
    pub kind: u8,
    pub mark: u8,
    pub procedures: u16,
    pub locations: u16,
    pub threads: u16,
    pub distance: u32,
    pub length: u32,
}

// The last bytes.
fn read_trailer(table: &[u8]) -> Trailer
    requires { trailer_size ≤ length table.now }
    ensures { TrailerAt table.now result }
{
    let at = table.len() - TRAILER;
    Trailer {
        kind: table[at],
        mark: table[at + 1],
        procedures: basics::bytes::two_bytes(table, at + 2),
        locations: basics::bytes::two_bytes(table, at + 4),
        threads: basics::bytes::two_bytes(table, at + 6),
        distance: basics::bytes::four_bytes(table, at + 8),
        length: basics::bytes::four_bytes(table, at + 12),
    }
}

// "wrong kind marks, distance or length; distance over length - 16".
fn right_trailer(table: &[u8], trailer: Trailer, kind: Kind) -> bool
    requires { trailer_size ≤ length table.now }
    ensures { TrailerTest (kind_of kind) table.now (trailer_of trailer) result }
{
    let distance = trailer.distance as usize;
    trailer.kind == kind.mark()
        && trailer.mark == FORM_MARK
        && distance
            == RECORD * (trailer.procedures as usize)
                + SIZE * (trailer.locations as usize)
                + MAIN * (trailer.threads as usize)
        && trailer.length as usize == table.len()
        && distance <= table.len() - TRAILER
}

// "over 16,384 bytes, P not 1..16, M over 64, T not 1..32".
fn right_counts(table: &[u8], trailer: Trailer, kind: Kind) -> bool
    ensures { CountsTest (kind_of kind) table.now (trailer_of trailer) result }
{
    let most = kind.limits();
    table.len() <= most.bytes
        && (1..=most.procedures).contains(&trailer.procedures)
        && trailer.locations <= most.locations
        && (most.fewest..=most.threads).contains(&trailer.threads)
}

// Rules 1 and 2.
#[tactic(auto, using(crate::proofs::Trailers::header_ways))]
pub fn read_header(table: &[u8], kind: Kind) -> Result<Trailer, Refusal>
    ensures { HeaderIs (kind_of kind) table.now result }
{
    if table.len() < TRAILER {
        return Err(Refusal::Trailer);
    }
    let trailer = read_trailer(table);
    if !right_trailer(table, trailer, kind) {
        return Err(Refusal::Trailer);
    }
    if !right_counts(table, trailer, kind) {
        return Err(Refusal::Counts);
    }
    Ok(trailer)
}

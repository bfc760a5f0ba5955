// Rules 1 to 4: the shape of a table.
ghost use Rattle.parse.specs.Ends.{kind_of};
ghost use Rattle.shape.specs.Shapes.{Closed, FormIs};

use super::header::Trailer;
use super::{bodies, header, records};
use basics::numbers;
use basics::refusals::Refusal;
use parse::Kind;

// What rules 1 to 4 leave to know: the counts, and the byte at which the records of procedures begin.
#[derive(Clone, Copy)]
pub struct Shape {
    pub procedures: usize,
    pub locations: usize,
    pub threads: usize,
    pub records: usize,
    pub cells: usize,
}

// Rules 3 and 4, behind a trailer that rules 1 and 2 let through.
#[tactic(auto, using(crate::proofs::Shaping::shape_ways))]
fn read_shape(table: &[u8], trailer: Trailer, kind: Kind) -> Result<Shape, Refusal>
    requires { Closed (kind_of kind) table.now trailer }
    ensures { FormIs (kind_of kind) table.now result }
{
    let end = table.len() - numbers::TRAILER;
    let at = end - (trailer.distance as usize);
    let body = &table[..end];
    if !records::right_records(body, at, trailer, kind) {
        return Err(Refusal::Records);
    }
    if !bodies::right_bodies(&table[..at], body, at, trailer.procedures, kind) {
        return Err(Refusal::Bodies);
    }
    let sizes = at + numbers::RECORD * (trailer.procedures as usize);
    Ok(Shape {
        procedures: trailer.procedures as usize,
        locations: trailer.locations as usize,
        threads: trailer.threads as usize,
        records: at,
        cells: records::cells(body, sizes, trailer.locations),
    })
}

// Rules 1 to 4.
pub fn read_form(table: &[u8], kind: Kind) -> Result<Shape, Refusal>
    ensures { FormIs (kind_of kind) table.now result }
{
    let trailer = header::read_header(table, kind)?;
    read_shape(table, trailer, kind)
}

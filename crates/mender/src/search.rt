// The search for the choices of counts that make an acceptable table. The bodies say themselves where they end, so they are read from byte 0
// on, once. With P of them read, all bytes up to the trailer are records, sizes and mains: M + T is known.
ghost use Rattle.std.specs.Prelude.{◌≤◌, length};
ghost use Rattle.parse.specs.Ends.{kind_of};
ghost use Rattle.mender.specs.Trailing.{Sized};
ghost use Rattle.mender.specs.Searching.{Accepted, Adds, TriesCounts, TriesThreads, TriesProcedures, Finds};

use super::trailer::{Counts, put_trailer};
use basics::numbers::{RECORD, SIZE, TRAILER};
use parse::Kind;
use parse::block::read_body;

// The acceptable choices so far. stays: none, one and several are three cases, and an Option of an Option would say no more.
#[derive(Clone, Copy)]
pub enum Found {
    None,
    One(Counts),
    Several,
}

// Is a table accepted?
pub fn accepted(table: &[u8], kind: Kind) -> bool
    ensures { Accepted (kind_of kind) table.now result }
{
    reader::check(table, kind).is_ok()
}

// One more acceptable choice.
#[tactic(auto, using(crate::proofs::Searching::counts_ways))]
fn add(found: Found, counts: Counts) -> Found
    ensures { Adds found counts result }
{
    match found {
        Found::None => Found::One(counts),
        Found::One(_) => Found::Several,
        Found::Several => Found::Several,
    }
}

// One choice.
fn try_counts(table: &mut [u8], kind: Kind, counts: Counts, found: Found) -> Found
    requires { Sized table.old }
    ensures { TriesCounts (kind_of kind) table.old counts found table.new result }
{
    put_trailer(table, kind, counts);
    if accepted(table, kind) {
        return add(found, counts);
    }
    found
}

// The choice with so many procedures, locations and threads together, and threads.
#[tactic(auto, using(crate::proofs::Searching::counts_ways))]
fn try_threads(
    table: &mut [u8],
    kind: Kind,
    procedures: u16,
    numbers: usize,
    threads: u16,
    found: Found,
) -> Found
    requires { Sized table.old }
    ensures { TriesThreads (kind_of kind) table.old procedures numbers threads found table.new result }
{
    if numbers < threads as usize {
        return found;
    }
    let locations = numbers - (threads as usize);
    if (kind.limits().locations as usize) < locations {
        return found;
    }
    try_counts(
        table,
        kind,
        Counts {
            procedures,
            locations: locations as u16,
            threads,
        },
        found,
    )
}

// The choices with so many procedures, whose bodies end at a place.
#[tactic(auto, using(crate::proofs::Searching::procedures_ways))]
fn try_procedures(table: &mut [u8], kind: Kind, procedures: u16, at: usize, before: Found) -> Found
    requires { Sized table.old × (at ≤ length table.old) }
    ensures { TriesProcedures (kind_of kind) table.old procedures at before table.new result }
{
    let most = kind.limits();
    let end = table.len() - TRAILER;
    let records = at + RECORD * (procedures as usize);
    if end < records {
        return before;
    }
    let rest = end - records;
    if rest % SIZE != 0 {
        return before;
    }
    let mut found = before;
    for threads in most.fewest..=most.threads {
        found = try_threads(table, kind, procedures, rest / SIZE, threads, found);
    }
    found
}

// All choices within the bounds.
pub fn find(table: &mut [u8], kind: Kind) -> Found
    requires { Sized table.old }
    ensures { Finds (kind_of kind) table.old table.new result }
{
    let mut found = Found::None;
    let mut position = 0;
    for procedure in 0..kind.limits().procedures {
        let bodies = &table[..table.len() - TRAILER];
        let Some(next) = read_body(bodies, position, procedure as usize, kind) else {
            return found;
        };
        position = next;
        found = try_procedures(table, kind, procedure + 1, position, found);
    }
    found
}

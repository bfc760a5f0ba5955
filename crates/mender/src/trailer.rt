// The last sixteen bytes of a table.
ghost use Rattle.parse.specs.Ends.{kind_of};
ghost use Rattle.mender.specs.Trailing.{Sized, Trails, Keeps, PutsBack};

use basics::numbers::{FORM_MARK, MAIN, RECORD, SIZE, TRAILER};
use parse::Kind;
use writer::page::Page;

// A choice of the three counts.
#[derive(Clone, Copy)]
pub struct Counts {
    pub procedures: u16,
    pub locations: u16,
    pub threads: u16,
}

// Overwrites it with that of a choice: "procedures P, locations M, threads T (2 each)", "the distance from the trailer back to the procedure
// records (4); the whole length (4)"
#[tactic(auto, using(crate::proofs::Trailing::trails))]
pub fn put_trailer(table: &mut [u8], kind: Kind, counts: Counts)
    requires { Sized table.old }
    ensures { Trails (kind_of kind) table.old counts table.new }
{
    let whole = table.len();
    let back = RECORD * (counts.procedures as usize)
        + SIZE * (counts.locations as usize)
        + MAIN * (counts.threads as usize);
    let mut new = [0; TRAILER];
    let mut page = Page::new(&mut new);
    page.put_all(&[kind.mark(), FORM_MARK]);
    page.put_two(counts.procedures as usize);
    page.put_two(counts.locations as usize);
    page.put_two(counts.threads as usize);
    page.put_four(back);
    page.put_four(whole);
    put_back(&new, table);
}

// Keeps it.
pub fn take_trailer(table: &[u8]) -> [u8; TRAILER]
    requires { Sized table.now }
    ensures { Keeps table.now result }
{
    let mut old = [0; TRAILER];
    old.copy_from_slice(&table[table.len() - TRAILER..]);
    old
}

// Writes sixteen bytes over it, as those that were kept.
pub fn put_back(old: &[u8; TRAILER], table: &mut [u8])
    requires { Sized table.old }
    ensures { PutsBack old.now table.old table.new }
{
    let end = table.len() - TRAILER;
    table[end..].copy_from_slice(old);
}

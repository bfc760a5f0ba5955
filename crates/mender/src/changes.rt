// The list of changes.
ghost use Rattle.mender.specs.Trailing.{Sized, PutsChange, ListsChanges};

use basics::numbers::TRAILER;
use writer::page::Page;

// The bytes of a change.
pub const CHANGE: usize = 6;

// The byte at a place, if it is changed: "place 4 bytes, old, new".
#[tactic(auto, using(crate::proofs::Trailing::listing_ways))]
fn put_change(list: &mut Page, place: usize, old: u8, new: u8)
    ensures { PutsChange place old new list.old list.new }
{
    if old != new {
        list.put_four(place);
        list.put_all(&[old, new]);
    }
}

// "each changed byte, by rising place, with its old and new value": where the list ends.
#[tactic(auto, using(crate::proofs::Trailing::listing_ways))]
pub fn put_changes(old: &[u8; TRAILER], table: &[u8], list: &mut [u8]) -> usize
    requires { Sized table.now }
    ensures { ListsChanges old.now table.now list.old list.new result }
{
    let end = table.len() - TRAILER;
    let mut page = Page::new(list);
    for i in 0..TRAILER {
        put_change(&mut page, end + i, old[i], table[end + i]);
    }
    page.at()
}

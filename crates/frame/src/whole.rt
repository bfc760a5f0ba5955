// The whole text of an accepted table, on a page: counted if nothing is lent, written into a buffer, or held against a text.
ghost use Rattle.std.specs.Prelude.{◌+◌, ◌*◌, ◌^◌, ◌≤◌, length};
ghost use Rattle.frame.specs.Frames.{ShowsPlaces, ShowsText};

use super::locations::{put_areas, put_locations};
use super::procedures::{put_declarations, put_definitions};
use basics::numbers::{RECORD, SIZE, TRAILER};
use typeset::pieces::Page;
use typeset::prelude::put_prelude;

// Prelude, locations and areas.
fn put_places(t: &[u8], sizes: usize, n: usize, page: &mut Page)
    requires { sizes + 2 * n ≤ 2 ^ 63 }
    ensures { ShowsPlaces t.now sizes n page.old page.new }
{
    put_prelude(page);
    put_locations(t, sizes, n, page);
    page.put_all(b"const z_area z_areas[] = {\n");
    put_areas(t, sizes, n, page);
    page.put_all(b"  { 0, 0 }\n};\n\n");
}

// The text of a table of so many procedures and locations, which its reader counted.
pub fn put_text(t: &[u8], procedures: usize, locations: usize, page: &mut Page)
    requires { 16 + (6 * procedures + 2 * locations) ≤ length t.now }
    ensures { ShowsText t.now procedures locations page.old page.new }
{
    let records = t.len() - TRAILER - (RECORD * procedures + SIZE * locations);
    put_places(t, records + RECORD * procedures, locations, page);
    put_declarations(t, records, procedures, page);
    put_definitions(t, records, procedures, page);
}

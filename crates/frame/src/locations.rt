// Locations, and their entries in the table of areas.
ghost use Rattle.std.specs.Prelude.{◌+◌, ◌*◌, ◌^◌, ◌≤◌};
ghost use Rattle.ctext.specs.Text.{location, area};
ghost use Rattle.typeset.specs.Page.{Put};
ghost use Rattle.frame.specs.Frames.{sized, ShowsSizes};

use super::heads::{Line, put_counted};
use basics::bytes::two_bytes;
use basics::numbers::SIZE;
use typeset::pieces::Page;

// A line that says a location's number and its size.
fn put_sized(line: Line, k: usize, size: usize, page: &mut Page)
    ensures { Put page.old (sized line.entry k size) page.new }
{
    put_counted(line.before, k, page);
    put_counted(line.between, size, page);
    page.put_all(line.behind);
}

// One for each of the n locations whose sizes stand from `from` on.
fn put_lines(line: Line, t: &[u8], from: usize, n: usize, page: &mut Page)
    requires { from + 2 * n ≤ 2 ^ 63 }
    ensures { ShowsSizes (sized line.entry) t.now from n page.old page.new }
{
    for k in 0..n {
        put_sized(line, k, usize::from(two_bytes(t, from + SIZE * k)), page);
    }
}

// The locations.
pub fn put_locations(t: &[u8], from: usize, n: usize, page: &mut Page)
    requires { from + 2 * n ≤ 2 ^ 63 }
    ensures { ShowsSizes location t.now from n page.old page.new }
{
    let line = Line {
        before: b"z_value m",
        between: b"[",
        behind: b"];\n",
    };
    put_lines(line, t, from, n, page);
}

// Their entries.
pub fn put_areas(t: &[u8], from: usize, n: usize, page: &mut Page)
    requires { from + 2 * n ≤ 2 ^ 63 }
    ensures { ShowsSizes area t.now from n page.old page.new }
{
    let line = Line {
        before: b"  { m",
        between: b", ",
        behind: b" },\n",
    };
    put_lines(line, t, from, n, page);
}

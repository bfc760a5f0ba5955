// Expressions of the source, written into the copy: local x becomes local 3 + x.
ghost use Rattle.std.specs.Prelude.{◌≡◌, ◌+◌, ◌%◌};
ghost use Rattle.emit.specs.Laws.Sources.{Copies};

use basics::numbers::LOCAL;
use writer::page::Page;

// "local i as 3+i"
pub fn moved(x: u8) -> u8
    ensures { result ≡ (x + 3) % 256 }
{
    x.wrapping_add(3)
}

// The expression at `at`, which is at most `depth` deep: where the source goes on.
pub fn put_expr(t: &[u8], at: usize, depth: u8, out: &mut Page) -> usize
    ensures { Copies t.now at depth out.old out.new result }
{
    if depth == 0 {
        return at;
    }
    if t.len() <= at {
        return at;
    }
    let mark = t[at];
    match basics::marks::operands(mark) {
        1 => {
            out.put(mark);
            put_expr(t, at + 1, depth - 1, out)
        }
        2 => {
            out.put(mark);
            let mid = put_expr(t, at + 1, depth - 1, out);
            put_expr(t, mid, depth - 1, out)
        }
        _ => {
            let end = at + 1 + usize::from(basics::marks::payload(mark));
            if t.len() < end {
                return at;
            }
            if mark == LOCAL {
                out.put_all(&[mark, moved(t[at + 1])]);
                return end;
            }
            out.put_all(&t[at..end]);
            end
        }
    }
}

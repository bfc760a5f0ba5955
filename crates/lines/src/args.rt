// Arguments as text.
ghost use Rattle.lines.specs.Lines.{ShowsNext, ShowsMore, ShowsArgs};

use phrases::exprs::put_expr;
use typeset::pieces::Page;

// The expression at `at`, behind a comma.
fn put_next(t: &[u8], at: usize, page: &mut Page) -> usize
    ensures { ShowsNext t.now at page.old page.new result }
{
    page.put_all(b",\n");
    put_expr(t, at, page)
}

// n expressions from `at` on, each behind a comma.
fn put_more(t: &[u8], at: usize, n: u8, page: &mut Page) -> usize
    ensures { ShowsMore t.now at n page.old page.new result }
{
    let mut next = at;
    for _ in 0..n {
        next = put_next(t, next, page);
    }
    next
}

// n expressions.
pub fn put_args(t: &[u8], at: usize, n: u8, page: &mut Page) -> usize
    ensures { ShowsArgs t.now at n page.old page.new result }
{
    if n == 0 {
        return at;
    }
    let first = put_expr(t, at, page);
    put_more(t, first, n - 1, page)
}

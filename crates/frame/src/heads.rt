// Heads, parameters and other locals.
ghost use Rattle.std.specs.Prelude.{◌++◌, ◌-◌};
ghost use Rattle.value.specs.Lists.{upto};
ghost use Rattle.format.specs.Encode.{each};
ghost use Rattle.ctext.specs.Pieces.{decimal};
ghost use Rattle.ctext.specs.Text.{var, params, head, argument, unset};
ghost use Rattle.ctext.proofs.Laws.FrameText.{another};
ghost use Rattle.typeset.specs.Page.{Put};
ghost use Rattle.frame.specs.Frames.{twice};

use phrases::exprs::put_var;
use typeset::pieces::Page;

// The pieces of a line that says two things: before the first, between them, and behind the second.
#[derive(Clone, Copy)]
pub struct Line<'a> {
    pub before: &'a [u8],
    pub between: &'a [u8],
    pub behind: &'a [u8],
}

// A piece, then local j.
fn put_named(piece: &[u8], j: u8, page: &mut Page)
    ensures { Put page.old (piece.now ++ var j) page.new }
{
    page.put_all(piece);
    put_var(j, page);
}

// The parameters behind the first.
fn put_others(n: u8, page: &mut Page)
    ensures { Put page.old (each another (upto 1 (n - 1))) page.new }
{
    for j in 1..n {
        put_named(b", z_value ", j, page);
    }
}

// So many parameters.
fn put_params(n: u8, page: &mut Page)
    ensures { Put page.old (params n) page.new }
{
    if n == 0 {
        return page.put_all(b"void");
    }
    page.put_all(b"z_value x0");
    put_others(n, page);
}

// A piece, then number k.
pub fn put_counted(piece: &[u8], k: usize, page: &mut Page)
    ensures { Put page.old (piece.now ++ decimal k) page.new }
{
    page.put_all(piece);
    page.put_number(k);
}

// Procedure k with n parameters.
pub fn put_head(k: usize, n: u8, page: &mut Page)
    ensures { Put page.old (head k n) page.new }
{
    put_counted(b"void p", k, page);
    page.put(b'(');
    put_params(n, page);
    page.put(b')');
}

// A line that names local j twice.
fn put_twice(line: Line, j: u8, page: &mut Page)
    ensures { Put page.old (twice line.entry j) page.new }
{
    put_named(line.before, j, page);
    put_named(line.between, j, page);
    page.put_all(line.behind);
}

// One for each local from `from` up to n.
fn put_lines(line: Line, from: u8, n: u8, page: &mut Page)
    ensures { Put page.old (each (twice line.entry) (upto from (n - from))) page.new }
{
    for j in from..n {
        put_twice(line, j, page);
    }
}

// All parameters, judged.
pub fn put_arguments(n: u8, page: &mut Page)
    ensures { Put page.old (each argument (upto 0 n)) page.new }
{
    let line = Line {
        before: b"  ",
        between: b" = z_arg(",
        behind: b");\n",
    };
    put_lines(line, 0, n, page);
}

// The other locals, from `from` up to n.
pub fn put_unsets(from: u8, n: u8, page: &mut Page)
    ensures { Put page.old (each unset (upto from (n - from))) page.new }
{
    let line = Line {
        before: b"  z_value ",
        between: b" = z_unset(); (void)",
        behind: b";\n",
    };
    put_lines(line, from, n, page);
}

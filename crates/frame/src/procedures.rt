// Declarations and definitions.
ghost use Rattle.std.specs.Prelude.{◌++◌, ◌+◌, ◌*◌, ◌^◌, ◌≤◌};
ghost use Rattle.ctext.specs.Pieces.{say};
ghost use Rattle.ctext.specs.Text.{head};
ghost use Rattle.typeset.specs.Page.{Put};
ghost use Rattle.frame.specs.Frames.{opening, ShowsDeclarations, ShowsDefinition, ShowsDefinitions};

use super::heads::{put_arguments, put_counted, put_head, put_unsets};
use basics::bytes::byte_at;
use basics::numbers::{NESTING, RECORD};
use lines::blocks::put_block;
use typeset::pieces::Page;

// Procedure k, declared.
fn put_declaration(k: usize, n: u8, page: &mut Page)
    ensures { Put page.old (head k n ++ say ";\n") page.new }
{
    put_head(k, n, page);
    page.put_all(b";\n");
}

// The n procedures whose records stand from `from` on, declared.
pub fn put_declarations(t: &[u8], from: usize, n: usize, page: &mut Page)
    requires { from + 6 * n ≤ 2 ^ 63 }
    ensures { ShowsDeclarations t.now from n page.old page.new }
{
    for k in 0..n {
        put_declaration(k, byte_at(t, from + RECORD * k), page);
    }
}

// Procedure k's lines before its body.
fn put_opening(k: usize, params: u8, locals: u8, page: &mut Page)
    ensures { Put page.old (opening k params locals) page.new }
{
    page.put(b'\n');
    put_head(k, params, page);
    put_counted(b" {\n  enum { here = ", k, page);
    page.put_all(b" };\n");
    put_arguments(params, page);
    put_unsets(params, locals, page);
}

// Procedure k, whose body stands at `at`.
fn put_definition(t: &[u8], at: usize, k: usize, params: u8, locals: u8, page: &mut Page) -> usize
    ensures { ShowsDefinition t.now at k params locals page.old page.new result }
{
    put_opening(k, params, locals, page);
    let next = put_block(t, at, NESTING, 2, page);
    page.put_all(b"  z_return();\n}\n");
    next
}

// The n procedures whose records stand from `from` on, and their bodies from 0 on.
pub fn put_definitions(t: &[u8], from: usize, n: usize, page: &mut Page)
    requires { from + 6 * n ≤ 2 ^ 63 }
    ensures { ShowsDefinitions t.now from n page.old page.new }
{
    let mut next = 0;
    for k in 0..n {
        let here = from + RECORD * k;
        next = put_definition(t, next, k, byte_at(t, here), byte_at(t, here + 1), page);
    }
}

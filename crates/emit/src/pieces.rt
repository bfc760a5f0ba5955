// The pieces of generated code that do not read the source: loads, stores and labels.
ghost use Rattle.std.specs.Prelude.{◌<◌, [], ◌∷◌};
ghost use Rattle.format.specs.Syntax.{local, assign, write, read};
ghost use Rattle.translation.specs.Code.{tid, tmp, num, loc};
ghost use Rattle.writer.specs.Laws.Pages.{Puts, PutsExpr, PutsInstr};
ghost use Rattle.emit.specs.Laws.Sources.{Takes, Loads, LoadsIf, LoadsAll, Goes, Returns};

use crate::exprs::moved;
use crate::layout::{Site, home};
use basics::numbers::{ASSIGN, END, LOCAL, LOCATION, READ, WHOLE, WRITE};
use labels::variables::has;
use writer::page::Page;

// "it has parameter tid = 0, then tmp = 1, aux = 2"
pub const TID: u8 = 0;

pub const TMP: u8 = 1;

const AUX: u8 = 2;

// tmp := location l
pub fn put_locate(out: &mut Page, l: usize)
    ensures { PutsInstr out.old (assign tmp (loc l)) out.new }
{
    out.put_all(&[ASSIGN, TMP, LOCATION]);
    out.put_two(l);
}

// x := tmp[tid]
fn put_fetch(out: &mut Page, x: u8)
    ensures { PutsInstr out.old (read x tmp (local tid)) out.new }
{
    out.put_all(&[READ, x, TMP, LOCAL, TID]);
}

// tmp[tid] := .., up to the expression
pub fn put_keep(out: &mut Page)
    ensures { Puts out.old (0x21 ∷ tmp ∷ 0x05 ∷ tid ∷ []) out.new }
{
    out.put_all(&[WRITE, TMP, LOCAL, TID]);
}

// A whole number.
pub fn put_number(out: &mut Page, n: usize)
    ensures { PutsExpr out.old (num n) out.new }
{
    out.put(WHOLE);
    out.put_four(n);
}

// "one tmp[tid] := label"
pub fn put_goto(out: &mut Page, label: usize)
    ensures { PutsInstr out.old (write tmp (local tid) (num label)) out.new }
{
    put_keep(out);
    put_number(out, label);
}

// tmp := location l; x := tmp[tid]
pub fn put_take(out: &mut Page, l: usize, x: u8)
    ensures { Takes l x out.old out.new }
{
    put_locate(out, l);
    put_fetch(out, x);
}

// "To load x: tmp := location of x; x := tmp[tid]"
pub fn put_load(s: Site, x: u8, out: &mut Page)
    ensures { Loads s x out.old out.new }
{
    put_take(out, home(s, x), moved(x));
}

// Load local x if it is in the set.
fn put_member(s: Site, set: u16, x: u8, out: &mut Page)
    requires { x < s.locals }
    ensures { LoadsIf s set x out.old out.new }
{
    if has(set, x) {
        put_load(s, x, out);
    }
}

// "Loads go over distinct variables, rising": the procedure's locals that are in the set.
pub fn put_loads(s: Site, set: u16, out: &mut Page)
    ensures { LoadsAll s set out.old out.new }
{
    if set == 0 {
        return;
    }
    for x in 0..s.locals {
        put_member(s, set, x, out);
    }
}

// "pc" is tmp := pct; tmp[tid] := label. A block ends with it.
pub fn put_pc(s: Site, label: usize, out: &mut Page)
    ensures { Goes s label out.old out.new }
{
    put_locate(out, s.pct as usize);
    put_goto(out, label);
    out.put(END);
}

// The end label: figure 9.
pub fn put_return(s: Site, out: &mut Page)
    ensures { Returns s out.old out.new }
{
    put_take(out, s.from as usize, AUX);
    put_locate(out, s.pct as usize);
    put_keep(out);
    out.put_all(&[LOCAL, AUX, END]);
}

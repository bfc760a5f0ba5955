// Prints a sequential table as C11 text. May use `reader`, `answers`, `ctext`, `translation`, `frame` and what those use. Its call `print` is for users; read it
// first.
#![tactic(auto)]

ghost use Rattle.std.specs.Prelude.{◌≡◌};
ghost use Rattle.answers.specs.Answers.{answer_of};
ghost use Rattle.ctext.specs.Calls.{print_call};
ghost use Rattle.printer.specs.Accepted.{Accepts};

use answers::written;
use basics::refusals::Refusal;
use frame::whole::put_text;
use reader::{Counts, Kind, check};
use translation::WriteAnswer;
use typeset::pieces::Page;

// The text of an accepted table: measured first, then written.
fn write_text(table: &[u8], counts: Counts, out: &mut [u8]) -> Result<usize, Refusal>
    requires { Accepts table.now counts }
    ensures { record { answer = answer_of result; out = out.new } ≡ print_call table.now out.old }
{
    let mut nothing = [0u8; 1];
    let mut measured = Page::new(b"", &mut nothing);
    put_text(table, counts.procedures, counts.locations, &mut measured);
    let Some(length) = measured.end() else {
        return Err(Refusal::NoRoom);
    };
    if out.len() < length {
        return Err(Refusal::NoRoom);
    }
    let mut page = Page::new(b"", out);
    put_text(table, counts.procedures, counts.locations, &mut page);
    Ok(length)
}

// The length of the text, or why there is none.
fn print_accepted(table: &[u8], out: &mut [u8]) -> Result<usize, Refusal>
    ensures { record { answer = answer_of result; out = out.new } ≡ print_call table.now out.old }
{
    let counts = check(table, Kind::Sequential)?;
    write_text(table, counts, out)
}

// Prints a sequential table into the lent buffer: 1 to 8 as the reader refuses, and 10. A refusal writes nothing.
pub fn print(table: &[u8], out: &mut [u8]) -> WriteAnswer
    ensures { record { answer = result; out = out.new } ≡ print_call table.now out.old }
{
    written(print_accepted(table, out))
}

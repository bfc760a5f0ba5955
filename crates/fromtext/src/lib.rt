// Reads C11 text back into the sequential table whose text it is. May use `retable`, `reader`, `answers`, `ctext`, `translation`, `frame` and what those use. Its
// call `read_text` is for users; read it first.
#![tactic(auto)]

ghost use Rattle.std.specs.Prelude.{◌≡◌};
ghost use Rattle.answers.specs.Answers.{answer_of};
ghost use Rattle.ctext.specs.Calls.{read_text_call};
ghost use Rattle.printer.specs.Accepted.{Accepts};
ghost use Rattle.fromtext.specs.Judged.{Judges};

use answers::written;
use basics::numbers::LONGEST;
use basics::refusals::Refusal;
use frame::whole::put_text;
use reader::{Counts, Kind, check};
use retable::whole::parse;
use translation::WriteAnswer;
use typeset::pieces::Page;
use writer::bytes::put_part;

// Writes an accepted table, if this is its text.
fn compare(text: &[u8], table: &[u8], counts: Counts, out: &mut [u8]) -> Result<usize, Refusal>
    requires { Accepts table.now counts }
    ensures { Judges text.now table.now out.old out.new result }
{
    let mut nothing = [0u8; 1];
    let mut page = Page::new(text, &mut nothing);
    put_text(table, counts.procedures, counts.locations, &mut page);
    if page.end() != Some(text.len()) {
        return Err(Refusal::NotOurs);
    }
    if out.len() < table.len() {
        return Err(Refusal::NoRoom);
    }
    put_part(table, 0, table.len(), out, 0);
    Ok(table.len())
}

// Writes a table, if it is accepted and this is its text.
fn judge(text: &[u8], table: &[u8], out: &mut [u8]) -> Result<usize, Refusal>
    ensures { Judges text.now table.now out.old out.new result }
{
    match check(table, Kind::Sequential) {
        Ok(counts) => compare(text, table, counts, out),
        Err(_) => Err(Refusal::NotOurs),
    }
}

// The table of a text: its length, or why there is none.
fn read_table(text: &[u8], out: &mut [u8]) -> Result<usize, Refusal>
    ensures { record { answer = answer_of result; out = out.new } ≡ read_text_call text.now out.old }
{
    let mut scratch = [0u8; LONGEST];
    let n = parse(text, &mut scratch);
    if LONGEST < n {
        return Err(Refusal::NotOurs);
    }
    judge(text, &scratch[..n], out)
}

// Reads a text into the lent buffer: its table, byte by byte; 1 for all other text, and 10. A refusal writes nothing.
pub fn read_text(text: &[u8], out: &mut [u8]) -> WriteAnswer
    ensures { record { answer = result; out = out.new } ≡ read_text_call text.now out.old }
{
    written(read_table(text, out))
}

// The run program's line, written into a lent buffer.
//
// stays: `write!` promises a text only where it answers `Ok`, and no clause says that it does; these calls cannot fail.
ghost use Rattle.std.specs.Prelude.{◌≡◌, ◌++◌};
ghost use Rattle.std.specs.List.{flat_map};
ghost use Rattle.writer.specs.Laws.Put.{Put};
ghost use Rattle.agreement.specs.Line.{spaced, newline, end_word, line, lined};

use super::input::LINE;
use agreement::Figures;
use basics::numbers::{FINISHED, USED};
use itoa::Buffer;
use writer::bytes::{put, put_part};

// A word.
fn put_word(word: &[u8], out: &mut [u8], at: usize) -> usize
    ensures { Put out.old at word.now out.new result }
{
    put_part(word, 0, word.len(), out, at)
}

// A space, then n in decimal.
fn put_number(n: u64, out: &mut [u8], at: usize) -> usize
    ensures { Put out.old at (spaced n) out.new result }
{
    let mut digits = Buffer::new();
    let p = put(out, at, b' ');
    put_word(digits.format(n).as_bytes(), out, p)
}

// Numbers end a line.
fn put_numbers(numbers: &[u64], out: &mut [u8], at: usize) -> usize
    ensures { Put out.old at (flat_map spaced numbers.now ++ newline) out.new result }
{
    let mut p = at;
    for n in numbers {
        p = put_number(*n, out, p);
    }
    put(out, p, b'\n')
}

// "Ends are written finished, used, blocked".
fn end_word(end: u8) -> &'static [u8]
    ensures { result.now ≡ end_word end }
{
    match end {
        FINISHED => b"finished",
        USED => b"used",
        _ => b"blocked",
    }
}

// "It prints one line".
fn put_line(f: Figures, out: &mut [u8]) -> usize
    ensures { Put out.old 0 (line f) out.new result }
{
    if f.number != 0 {
        let p = put_word(b"refused", out, 0);
        return put_numbers(&[u64::from(f.number)], out, p);
    }
    let p = put_word(end_word(f.end), out, 0);
    let numbers = [
        f.steps,
        f.copy,
        f.unused as u64,
        f.events,
        u64::from(f.reason),
    ];
    put_numbers(&numbers, out, p)
}

// The line, and its length.
pub fn write_line(f: Figures, out: &mut [u8; LINE]) -> usize
    ensures { record { count = result; out = out.new } ≡ lined (line f) out.old }
{
    put_line(f, out)
}

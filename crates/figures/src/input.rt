// The run program from its input to its line.
ghost use Rattle.std.specs.Prelude.{◌≡◌};
ghost use Rattle.agreement.specs.Line.{told, printed, lined};

use super::compare::figures;
use super::line::write_line;
use super::refused;
use agreement::Figures;
use basics::bytes::two_bytes;
use basics::numbers::LONGEST_INPUT;
use basics::refusals::Refusal;
use translation::Mode;

// A buffer that is large enough for a line: it has at most 114 bytes.
pub const LINE: usize = 128;

// "A schedule length (2 bytes), the schedule, a concurrent table. If the input ends before the schedule does, the table is empty." The copy
// is that of the old mode.
pub fn figures_of_input(input: &[u8]) -> Figures
    ensures { result ≡ told input.now }
{
    // "An input over 20,482 bytes is answered 2".
    if LONGEST_INPUT < input.len() {
        return refused(Refusal::Counts.number());
    }
    let entries = usize::from(two_bytes(input, 0));
    let rest = &input[input.len().min(2)..];
    let (schedule, table) = rest.split_at(entries.min(rest.len()));
    figures(table, Mode::Own, schedule)
}

// The run program: the line that it prints for its standard input, and the line's length.
pub fn print(input: &[u8], out: &mut [u8; LINE]) -> usize
    ensures { record { count = result; out = out.new } ≡ lined (printed input.now) out.old }
{
    write_line(figures_of_input(input), out)
}

// The paper's number of each reason.
ghost use Rattle.std.specs.Prelude.{◌≡◌};
ghost use Rattle.value.specs.Try.{reason_number};

use value::Reason;

// "1 outside the number range, 2 wrong kind. Machines add 3 index outside, 4 finished thread chosen".
pub fn number(reason: Reason) -> u8
    ensures { result ≡ reason_number reason }
{
    match reason {
        Reason::OutOfRange => 1,
        Reason::WrongKind => 2,
        Reason::IndexOutside => 3,
        Reason::FinishedThread => 4,
    }
}

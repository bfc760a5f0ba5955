// Document 01, "Worked by hand": the starred cases, of the calls. Each function makes one call on the paper's input, and its contract
// is what the paper says of it.
ghost use Rattle.std.specs.Prelude.{◌≡◌, [], ◌∷◌, negsuc};
ghost use Rattle.value.specs.Try.{has, lacks};
ghost use Rattle.value.specs.declared.Reason.TheVariants.{OutOfRange};
ghost use Rattle.value.specs.Values.{given};
ghost use Rattle.value.specs.declared.Value.TheVariants.{Whole};

use super::compare::figures;
use agreement::Figures;
use basics::operators;
use format::ReadAnswer;
use machines::run_concurrent;
use reader::read_concurrent;
use translation::{Mode, WriteAnswer};
use translator::translate;
use value::{Reason, Value};

// "25 bytes, one thread, empty body".
const A: [u8; 25] = *b"\x00\
      \x00\x00\x00\x00\x00\x00\
      \x00\x00\
      \x43\x50\x01\x00\x00\x00\x01\x00\x08\x00\x00\x00\x19\x00\x00\x00";

// "One location of size 1; one procedure, locals p, v; p := location 0; v := p[0]; p[0] := v + 1; two threads. 57 bytes".
const B: [u8; 57] = *b"\x20\x00\x02\x00\x00\
      \x22\x01\x00\x01\x00\x00\x00\x00\
      \x21\x00\x01\x00\x00\x00\x00\x10\x05\x01\x01\x01\x00\x00\x00\
      \x00\
      \x00\x02\x00\x00\x00\x00\
      \x01\x00\
      \x00\x00\x00\x00\
      \x43\x50\x01\x00\x01\x00\x02\x00\x0C\x00\x00\x00\x39\x00\x00\x00";

// "L = 1".
fn a_is_read() -> ReadAnswer
    ensures { result ≡ record { number = 0; procedures = 1; locations = 0; threads = 1; labels = 1; cells = 0 } }
{
    read_concurrent(&A)
}

// "Its translation has 173 bytes."
fn a_is_translated() -> WriteAnswer
    ensures { result ≡ record { number = 0; length = 173 } }
{
    let mut copy = [0u8; 173];
    translate(&A, Mode::Own, &mut copy)
}

// "Schedule 0: finished, 24 steps."
fn a_finishes() -> Figures
    ensures { result ≡ record { number = 0; end = 0; steps = 1; copy = 24; unused = 0; events = 0; reason = 0 } }
{
    figures(&A, Mode::Own, b"\x00")
}

// "A, schedule 0 0: finished, one entry unused."
fn a_leaves_one() -> Figures
    ensures { result ≡ record { number = 0; end = 0; steps = 1; copy = 24; unused = 1; events = 0; reason = 0 } }
{
    figures(&A, Mode::Own, b"\x00\x00")
}

// "L = 4".
fn b_is_read() -> ReadAnswer
    ensures { result ≡ record { number = 0; procedures = 1; locations = 1; threads = 2; labels = 4; cells = 1 } }
{
    read_concurrent(&B)
}

// "Translation 419 bytes".
fn b_is_translated() -> WriteAnswer
    ensures { result ≡ record { number = 0; length = 419 } }
{
    let mut copy = [0u8; 419];
    translate(&B, Mode::Own, &mut copy)
}

// "Prices 4, 7, 7, 4": each step costs the copy L + 2T + 10 = 18 and its price. From 9, 4 for the assignment.
fn b_assigns() -> Figures
    ensures { result ≡ record { number = 0; end = 1; steps = 1; copy = 31; unused = 0; events = 0; reason = 0 } }
{
    figures(&B, Mode::Own, b"\x00")
}

// 7 for the read.
fn b_reads() -> Figures
    ensures { result ≡ record { number = 0; end = 1; steps = 2; copy = 56; unused = 0; events = 1; reason = 0 } }
{
    figures(&B, Mode::Own, b"\x00\x00")
}

// 7 for the write.
fn b_writes() -> Figures
    ensures { result ≡ record { number = 0; end = 1; steps = 3; copy = 81; unused = 0; events = 2; reason = 0 } }
{
    figures(&B, Mode::Own, b"\x00\x00\x00")
}

// 4 for the end label.
fn b_returns() -> Figures
    ensures { result ≡ record { number = 0; end = 1; steps = 4; copy = 103; unused = 0; events = 2; reason = 0 } }
{
    figures(&B, Mode::Own, b"\x00\x00\x00\x00")
}

// "B, schedule 0 0 0 0 1 1 1 1: the cell ends 2."
fn b_adds_twice() -> [u8; 5]
    ensures { result ≡ 1 ∷ 2 ∷ 0 ∷ 0 ∷ 0 ∷ [] }
{
    let mut cells = [0u8; 5];
    run_concurrent(&B, b"\x00\x00\x00\x00\x01\x01\x01\x01", &mut cells, &mut []);
    cells
}

// "0 0 1 1 0 1 0 1: it ends 1."
fn b_loses_one() -> [u8; 5]
    ensures { result ≡ 1 ∷ 1 ∷ 0 ∷ 0 ∷ 0 ∷ [] }
{
    let mut cells = [0u8; 5];
    run_concurrent(&B, b"\x00\x00\x01\x01\x00\x01\x00\x01", &mut cells, &mut []);
    cells
}

// "198 copy steps each."
fn b_in_turn() -> Figures
    ensures { result ≡ record { number = 0; end = 0; steps = 8; copy = 198; unused = 0; events = 4; reason = 0 } }
{
    figures(&B, Mode::Own, b"\x00\x00\x00\x00\x01\x01\x01\x01")
}

// The same of the lost update.
fn b_mixed() -> Figures
    ensures { result ≡ record { number = 0; end = 0; steps = 8; copy = 198; unused = 0; events = 4; reason = 0 } }
{
    figures(&B, Mode::Own, b"\x00\x00\x01\x01\x00\x01\x00\x01")
}

// "B, empty schedule: used up, 0 steps; the copy took 9."
fn b_unscheduled() -> Figures
    ensures { result ≡ record { number = 0; end = 1; steps = 0; copy = 9; unused = 0; events = 0; reason = 0 } }
{
    figures(&B, Mode::Own, b"")
}

// "4 finished thread chosen": B, schedule 0 0 0 0 0 1.
fn b_blocks() -> Figures
    ensures { result ≡ record { number = 0; end = 2; steps = 4; copy = 103; unused = 2; events = 2; reason = 4 } }
{
    figures(&B, Mode::Own, b"\x00\x00\x00\x00\x00\x01")
}

// "2,147,483,647 + 1 .. no value": "1 outside the number range".
fn sum_too_large() -> Result<Value, Reason>
    ensures { given result ≡ lacks OutOfRange }
{
    operators::add(Value::Whole(2147483647), Value::Whole(1))
}

// "Negate of -2,147,483,648 .. no value".
fn negate_too_large() -> Result<Value, Reason>
    ensures { given result ≡ lacks OutOfRange }
{
    operators::negate(Value::Whole(-2147483648))
}

// "-2,147,483,648 itself has".
fn lowest() -> Result<Value, Reason>
    ensures { given result ≡ has (Whole (negsuc 2147483647)) }
{
    operators::subtract(Value::Whole(-2147483647), Value::Whole(1))
}

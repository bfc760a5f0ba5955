// How a run ends, and the paper's numbers for that.
ghost use Rattle.std.specs.Prelude.{◌≡◌};
ghost use Rattle.semantics.specs.Calls.{end_number, reason_of};
ghost use Rattle.engine.specs.Ends.{end_of};

use basics::numbers::{BLOCKED, FINISHED, SPENT, USED};
use basics::reasons;
use value::Reason;

// All threads finished, the schedule is used up, a step blocked, or the budget is spent.
#[derive(Clone, Copy)]
pub enum End {
    Finished,
    UsedUp,
    Blocked(Reason),
    Spent,
}

impl End {
    // The number that is answered.
    pub fn number(self) -> u8
        ensures { result ≡ end_number (end_of self) }
    {
        match self {
            End::Finished => FINISHED,
            End::UsedUp => USED,
            End::Blocked(_) => BLOCKED,
            End::Spent => SPENT,
        }
    }

    // Why it blocked: "0 when not blocked".
    pub fn reason(self) -> u8
        ensures { result ≡ reason_of (end_of self) }
    {
        match self {
            End::Blocked(reason) => reasons::number(reason),
            _ => 0,
        }
    }
}

// Expressions, instructions and blocks in bytes: where what is read ends. May use `value` and `format`. Read specs/Ends.antt first, then
// src/block.rt. An inner room: its functions may have a `requires`.
#![tactic(auto)]

pub mod block;
pub mod expression;

ghost use Rattle.std.specs.Prelude.{◌≡◌};
ghost use Rattle.format.specs.Encode.{kind_mark};
ghost use Rattle.format.specs.Rules.{limits};
ghost use Rattle.parse.specs.Ends.{kind_of, limits_of};

use basics::numbers::{CONCURRENT, CONCURRENT_MARK, Limits, SEQUENTIAL, SEQUENTIAL_MARK};

// The two languages.
#[derive(Clone, Copy, PartialEq, Eq)]
pub enum Kind {
    Concurrent,
    Sequential,
}

impl Kind {
    // "43 50 concurrent or 53 50 sequential": the first of these bytes.
    pub fn mark(self) -> u8
        ensures { result ≡ kind_mark (kind_of self) }
    {
        match self {
            Kind::Concurrent => CONCURRENT_MARK,
            Kind::Sequential => SEQUENTIAL_MARK,
        }
    }

    // The bounds of its tables.
    pub fn limits(self) -> Limits
        ensures { limits_of result ≡ limits (kind_of self) }
    {
        match self {
            Kind::Concurrent => CONCURRENT,
            Kind::Sequential => SEQUENTIAL,
        }
    }
}

// Where an instruction stands: in which language, in which procedure, inside an atomic block or not.
#[derive(Clone, Copy)]
pub struct Context {
    pub kind: Kind,
    pub procedure: usize,
    pub inside: bool,
}

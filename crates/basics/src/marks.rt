// The marks of expressions, and the constant table by mark byte, 00 to 17: operand count, operand kind and result kind.
ghost use Rattle.std.specs.Prelude.{◌≡◌, ◌/◌, ◌%◌};
ghost use Rattle.basics.specs.Columns.{operands_of, payload_of};
ghost use Rattle.basics.specs.Columns.{packed_of};

// The marks of leaves.
pub const NUMBER: u8 = 0x01;

pub const PLACE: u8 = 0x02;

pub const FALSE: u8 = 0x03;

pub const TRUE: u8 = 0x04;

// Those of operators.
pub const ADD: u8 = 0x10;

pub const SUBTRACT: u8 = 0x11;

pub const MULTIPLY: u8 = 0x12;

pub const LESS: u8 = 0x13;

pub const EQUAL: u8 = 0x14;

pub const AND: u8 = 0x15;

pub const NOT: u8 = 0x16;

pub const NEGATE: u8 = 0x17;

// The kinds of values. ANY is the operand kind of "equal (two of one kind)", and of a mark without operands.
pub const ANY: u8 = 0;

pub const WHOLE: u8 = 1;

pub const LOCATION: u8 = 2;

pub const TRUTH: u8 = 3;

// The operand count of a byte that is no mark. stays: it is a count of the packed table, and most callers ask for 1 or 2 alone, which an Option
// would make no plainer.
pub const NO_MARK: u8 = 9;

// A row is one number: its operand count times COUNT, its result kind times GIVES, and its operand kind. stays: a constant array is laid down
// anew at each use, so that one look at a table of bytes is what an operator can afford.
const COUNT: u8 = 16;

const GIVES: u8 = 4;

const NO_ROW: u8 = NO_MARK * COUNT;

// The bytes 00 to 17.
const BYTES: usize = 24;

pub const TABLE: [u8; BYTES] = [
    NO_ROW,
    WHOLE * GIVES, // whole number
    LOCATION * GIVES, // location
    TRUTH * GIVES, // false
    TRUTH * GIVES, // true
    ANY * GIVES, // local variable
    NO_ROW,
    NO_ROW,
    NO_ROW,
    NO_ROW,
    NO_ROW,
    NO_ROW,
    NO_ROW,
    NO_ROW,
    NO_ROW,
    NO_ROW,
    2 * COUNT + WHOLE * GIVES + WHOLE, // add
    2 * COUNT + WHOLE * GIVES + WHOLE, // subtract
    2 * COUNT + WHOLE * GIVES + WHOLE, // multiply
    2 * COUNT + TRUTH * GIVES + WHOLE, // less
    2 * COUNT + TRUTH * GIVES + ANY, // equal
    2 * COUNT + TRUTH * GIVES + TRUTH, // and
    1 * COUNT + TRUTH * GIVES + TRUTH, // not
    1 * COUNT + WHOLE * GIVES + WHOLE, // negate
];

// The bytes that follow a mark before any operand.
const PAYLOAD: [u8; BYTES] = [
    0, 4, 2, 0, 0, 1, 0, 0, 0, 0, 0, 0, 0, 0, 0, 0, 0, 0, 0, 0, 0, 0, 0, 0,
];

// The row of a byte: that of no mark, if it is none.
fn row(mark: u8) -> u8
    ensures { result ≡ packed_of mark }
{
    // stays: of `get(..).copied().unwrap_or(..)` the proof did not close, as it does of a test and an index
    if (mark as usize) < BYTES {
        TABLE[mark as usize]
    } else {
        NO_ROW
    }
}

// The operand count of a row.
pub fn count_in(row: u8) -> u8
    ensures { result ≡ row / 16 }
{
    row / COUNT
}

// The operand kind of a row.
pub fn kind_in(row: u8) -> u8
    ensures { result ≡ row % 4 }
{
    row % GIVES
}

// How many operands a byte has as a mark: NO_MARK, if it is none.
pub fn operands(mark: u8) -> u8
    ensures { result ≡ operands_of mark }
{
    count_in(row(mark))
}

// The bytes that follow it before any operand.
pub fn payload(mark: u8) -> u8
    ensures { result ≡ payload_of mark }
{
    // stays: as in `row`
    if (mark as usize) < BYTES {
        PAYLOAD[mark as usize]
    } else {
        0
    }
}

// The numbers of the paper that code goes by, each said once, and the sizes of arrays that follow from them. The definitions have their own:
// `limits`, `max_labels` and so on, and specs/Sizes.antt for what follows. A contract that speaks of both joins them.

use super::marks;

// "An expression nests at most 16 deep".
pub const DEPTH: u8 = 16;

// "A body is at depth 1; depth at most 16".
pub const NESTING: u8 = 16;

// The bounds of numbers 2 and 3. Threads: not fewer than `fewest` and not more than `threads`.
#[derive(Clone, Copy)]
pub struct Limits {
    pub bytes: usize,
    pub procedures: u16,
    pub locations: u16,
    pub fewest: u16,
    pub threads: u16,
    pub locals: u8,
    pub cells: usize,
}

pub const CONCURRENT: Limits = Limits {
    bytes: 16384,
    procedures: 16,
    locations: 64,
    fewest: 1,
    threads: 32,
    locals: 16,
    cells: 2048,
};

pub const SEQUENTIAL: Limits = Limits {
    bytes: 65536,
    procedures: 1024,
    locations: 512,
    fewest: 0,
    threads: 0,
    locals: 32,
    cells: 16384,
};

// "size not 1..256".
pub const LARGEST: u16 = 256;

// "concurrent: over 1,000 labels".
pub const LABELS: usize = 1000;

// "schedule over 4,096 entries".
pub const ENTRIES: usize = 4096;

// "a budget of at least 140,000,000 steps".
pub const BUDGET: u64 = 140000000;

// ---- bytes

// "per procedure 6 bytes".
pub const RECORD: usize = 6;

// The bytes of a location's size, and of a thread's main procedure.
pub const SIZE: usize = 2;

pub const MAIN: usize = 2;

// "a 16-byte trailer".
pub const TRAILER: usize = 16;

// "43 50 concurrent or 53 50 sequential".
pub const CONCURRENT_MARK: u8 = 0x43;

pub const SEQUENTIAL_MARK: u8 = 0x53;

pub const FORM_MARK: u8 = 0x50;

// "5 bytes a cell".
pub const CELL: usize = 5;

// An event: "The event record becomes 13 bytes".
pub const EVENT: usize = 13;

// The marks of an expression that code asks for or writes: a whole number, a location, false, true, a local, equal, and, not.
pub const WHOLE: u8 = marks::NUMBER;

pub const LOCATION: u8 = marks::PLACE;

pub const FALSE: u8 = marks::FALSE;

pub const TRUE: u8 = marks::TRUE;

pub const LOCAL: u8 = 0x05;

pub const EQUAL: u8 = marks::EQUAL;

pub const AND: u8 = marks::AND;

pub const NOT: u8 = marks::NOT;

// The bytes that begin an instruction.
pub const ASSIGN: u8 = 0x20;

pub const WRITE: u8 = 0x21;

pub const READ: u8 = 0x22;

pub const WHILE: u8 = 0x23;

pub const IF: u8 = 0x24;

pub const CALL: u8 = 0x25;

pub const ATOMIC: u8 = 0x26;

pub const SELECT: u8 = 0x27;

// "a block ends with byte 00".
pub const END: u8 = 0x00;

// ---- answers

// A number for each end of a run: the paper has words only, and none for a run at its budget.
pub const FINISHED: u8 = 0;

pub const USED: u8 = 1;

pub const BLOCKED: u8 = 2;

pub const SPENT: u8 = 3;

// ---- sizes that follow

// The locals of a procedure in a concurrent table: each is a bit of a set, a number of 16 bits.
pub const LOCALS: u8 = CONCURRENT.locals;

// The label map has four numbers for each label: its place, its procedure, and the labels that it leads to. Label 0 is a finished thread.
pub const NODE: usize = 4;

pub const MAP: usize = NODE * (LABELS + 1);

// For each procedure of a concurrent table two: its first and its last label.
pub const PAIR: usize = 2;

pub const PROCEDURES: usize = CONCURRENT.procedures as usize;

pub const BOUNDS: usize = PAIR * PROCEDURES;

// No procedure runs twice in a thread, so that it has at most as many frames as there are procedures; one more for the arguments of a call.
pub const THREAD_FRAMES: usize = PROCEDURES + 1;

// A thread's frames, for each thread.
pub const THREADS: usize = CONCURRENT.threads as usize;

pub const ALL_FRAMES: usize = THREADS * THREAD_FRAMES;

// Of a sequential table, in the same way.
pub const MOST_PROCEDURES: usize = SEQUENTIAL.procedures as usize;

pub const FRAMES: usize = MOST_PROCEDURES + 1;

// The words of a frame, one for each local that it may have, and those of all frames.
pub const FRAME: usize = SEQUENTIAL.locals as usize;

pub const LOCAL_WORDS: usize = FRAME * FRAMES;

// Those of the frames of all threads.
pub const THREAD_WORDS: usize = FRAME * ALL_FRAMES;

// A first cell for each location, and the number of all cells.
pub const LOCATIONS: usize = SEQUENTIAL.locations as usize;

pub const STARTS: usize = LOCATIONS + 1;

// A word for each cell.
pub const CELL_WORDS: usize = SEQUENTIAL.cells;

// And for each of a concurrent table.
pub const PROGRAM_WORDS: usize = CONCURRENT.cells;

// The longest table, and the first length that is too long.
pub const LONGEST: usize = SEQUENTIAL.bytes;

pub const FAR: usize = LONGEST + 1;

// The bytes of all cells.
pub const PROGRAM_CELLS: usize = CELL * CONCURRENT.cells;

pub const COPY_CELLS: usize = CELL * SEQUENTIAL.cells;

// The run program's input: the schedule's length (2 bytes), a schedule, a concurrent table.
pub const LONGEST_INPUT: usize = 2 + ENTRIES + CONCURRENT.bytes;

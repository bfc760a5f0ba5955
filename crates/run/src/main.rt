// The run program: reads a schedule length (2 bytes), a schedule and a concurrent table from standard input, and prints one line.
// May use `figures` and the kit's input and output; read `figures::input::print` first.
//
// Stack, beside what the calls below use: 20,483 bytes for the input, 128 for the line.
#![tactic(auto)]

use basics::numbers::LONGEST_INPUT;
use figures::input::LINE;

// One byte more than an input may have, so that one that is too long is seen; what follows is not read.
const INPUT: usize = LONGEST_INPUT + 1;

fn main() {
    let mut input = [0u8; INPUT];
    let mut line = [0u8; LINE];
    // stays: a read that fails ends the input, and what cannot be written is passed over; the readers and writers of `std::io` give errors there.
    let n = io::read_full(0, &mut input);
    let m = figures::input::print(&input[..n], &mut line);
    io::write_all(1, &line[..m]);
}

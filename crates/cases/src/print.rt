// The lines on standard output.
//
// stays: the kit's `io` writes them. What cannot be written is passed over; `println!` and the writers of `std::io` give an error there.
use super::buffers;
use super::call::Call;

// A space, then the number.
fn number(n: u64) {
    io::write_all(1, b" ");
    io::print_decimal(1, n);
}

// A call's number, those of its answer, and a hash of each lent buffer.
pub fn line(call: Call, numbers: &[u64], lent: &[&[u8]]) {
    io::print_decimal(1, call as u64);
    for n in numbers {
        number(*n);
    }
    for buffer in lent {
        io::write_all(1, b" ");
        io::print_hex(1, buffers::hash(buffer), 16);
    }
    io::write_all(1, b"\n");
}

// The bytes of lent buffers.
pub fn show(lent: &[&[u8]]) {
    for buffer in lent {
        io::write_all(1, buffer);
    }
}

// A call's number, and a text that ends its line.
pub fn text(call: Call, text: &[u8]) {
    io::print_decimal(1, call as u64);
    io::write_all(1, b" ");
    io::write_all(1, text);
}

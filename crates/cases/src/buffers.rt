// Lent buffers: what they hold before a call, and a hash of what they hold after it.

// FNV-1a with 64 bits: the hash of no bytes, and what each byte multiplies it by.
const BASIS: u64 = 14695981039346656037;

const PRIME: u64 = 1099511628211;

// The hash of a buffer.
pub fn hash(buffer: &[u8]) -> u64 {
    buffer.iter().fold(BASIS, |h, byte| (h ^ u64::from(*byte)).wrapping_mul(PRIME))
}

// The first n bytes, if there are as many: byte i is the low byte of 7 * i + 13.
pub fn lend(buffer: &mut [u8], n: usize) -> Option<&mut [u8]> {
    let part = buffer.get_mut(..n)?;
    let mut next = 13u8;
    for byte in part.iter_mut() {
        *byte = next;
        next = next.wrapping_add(7);
    }
    Some(part)
}

// The first n bytes come from standard input, if there are as many; those past its end stay.
// stays: the kit's `io` reads them, since a table that is cut off is answered too; `read_exact` of `std::io` gives an error there.
pub fn read_into(buffer: &mut [u8], n: usize) -> Option<&[u8]> {
    let part = buffer.get_mut(..n)?;
    io::read_full(0, part);
    Some(part)
}

// How many allotments there are, and the counts of one.
ghost use Rattle.bench.specs.Counting.{Threads, SaysAllotments, Filling, Fills};

// "s not 1..64".
const MOST_STEPS: u64 = 64;

// "more than 1,000,000 allotments".
const MOST: u64 = 1000000;

// "at most 19 counts".
pub const PLACES: usize = 19;

// The number of allotments, if it is not refused. From 20 counts on there are too many, each being 0 or more.
pub fn allotments(threads: usize, rounds: u64, most: u64) -> Option<u64>
    requires { Threads threads }
    ensures { SaysAllotments threads rounds most result }
{
    if rounds == 0 || most == 0 || MOST_STEPS < most || (PLACES as u64) < rounds {
        return None;
    }
    let counts = rounds as u32 * threads as u32;
    let total = (most + 1).checked_pow(counts);
    total.filter(|&total| total <= MOST)
}

// The counts of an allotment, `n` of them: its number to that base, the last varying fastest.
pub fn fill_counts(number: u64, base: u64, n: usize, counts: &mut [u8; PLACES])
    requires { Filling base n counts.old }
    ensures { Fills number base n counts.old counts.new }
{
    let mut rest = number;
    for i in (0..n).rev() {
        counts[i] = (rest % base) as u8;
        rest /= base;
    }
}

// The round-robin bench: the allotments of steps to threads, their runs, and what the bench answers. Definitions and laws, no code. May use
// `value`, `format` and `semantics`. Read specs/Allotments.antt first, then specs/Bench.antt.
#![tactic(auto)]

// What the bench answers: number 0 with whether an allotment was found whose run blocks, its number and its counts (the rest 0); zeros
// if there is none. Or the number of refusal and zeros.
#[derive(Clone, Copy)]
pub struct BenchAnswer {
    pub number: u8,
    pub found: bool,
    pub allotment: u64,
    pub counts: [u8; 19],
}

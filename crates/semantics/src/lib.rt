// The two machines: what they do on a program, and what each run call answers. Definitions and laws, no code. May use `value` and `format`.
// Read specs/Step.antt, Threads.antt and Copy.antt first, then specs/Calls.antt.
#![tactic(auto)]

// What a run answers: number 0 with its end, steps, unused entries, events and the reason (0 unless it
// blocked), or the number of refusal and zeros.
#[derive(Clone, Copy)]
pub struct RunAnswer {
    pub number: u8,
    pub end: u8,
    pub steps: u64,
    pub unused: usize,
    pub events: u64,
    pub reason: u8,
}

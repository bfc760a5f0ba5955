// The sequential program of a concurrent one, and what the translator's call answers: definitions and laws, no code. May use `value` and
// `format`. Read specs/Placement.antt, Layout.antt, Code.antt and Translate.antt first, then the end of proofs/Laws/Copy.antt.
#![tactic(auto)]

// Where the copy keeps locals. Own: each procedure's locals have cells of their own, in order. Shared: a procedure's locals begin after the
// largest end among its callers' locals (at 0 without callers), and procedures placed together share cells.
#[derive(Clone, Copy)]
pub enum Mode {
    Own,
    Shared,
}

// What the translator answers: number 0 with the length written, or the number of refusal and 0.
#[derive(Clone, Copy)]
pub struct WriteAnswer {
    pub number: u8,
    pub length: usize,
}

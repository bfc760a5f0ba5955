// Programs of both languages, their bytes, and the rules by which a table is read: definitions and laws, no code. May use `value`. Read
// specs/Syntax.antt, Encode.antt and Rules.antt first, then what they are worth: proofs/Laws/Sound.antt and Accepted.antt.
#![tactic(auto)]

// What a reader answers: number 0 with the five counts, or the number of refusal and zeros.
#[derive(Clone, Copy)]
pub struct ReadAnswer {
    pub number: u8,
    pub procedures: usize,
    pub locations: usize,
    pub threads: usize,
    pub labels: usize,
    pub cells: usize,
}

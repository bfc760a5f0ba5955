// The mender for lost trailers: the trailers that would make a table acceptable, and what the mender answers. Definitions and laws, no code.
// May use `value` and `format`. Read specs/Mending.antt.
#![tactic(auto)]

// What the mender answers: refusal 0 with whether it mended and how many changed bytes it listed; zeros if there is nothing to mend. Or the
// number of refusal and zeros.
#[derive(Clone, Copy)]
pub struct MendAnswer {
    pub refusal: u8,
    pub mended: bool,
    pub changes: usize,
}

// Sequential programs as C11 text, and what the printer's and the text reader's calls answer: definitions and laws, no code. May use `value`,
// `format` and `translation`. Read docs/C-TEXT.md and specs/Text.antt first, then what they are worth: proofs/Laws/OneToOne.antt and Reads.antt.
#![tactic(auto)]

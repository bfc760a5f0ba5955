// The run program's figures and its line: runs a program and its copy. May use every crate below. Its calls `compare::figures`,
// `input::figures_of_input` and `input::print` are for users; read them first.
#![tactic(auto)]

pub mod compare;
pub mod input;
mod line;
mod worked;

ghost use Rattle.std.specs.Prelude.{◌≡◌};
ghost use Rattle.agreement.specs.Figures.{refusal};

use agreement::Figures;

// A refusal's figures: its number and zeros.
fn refused(number: u8) -> Figures
    ensures { result ≡ refusal number }
{
    Figures {
        number,
        end: 0,
        steps: 0,
        copy: 0,
        unused: 0,
        events: 0,
        reason: 0,
    }
}

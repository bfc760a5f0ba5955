// What a call that writes one buffer answers, from how it went: the paper's number and the length. May use `value`, `format`, `basics` and `translation`.
// Read specs/Answers.antt. An inner room.
#![tactic(auto)]

ghost use Rattle.std.specs.Prelude.{◌≡◌};
ghost use Rattle.answers.specs.Answers.{answer_of};

use basics::refusals::Refusal;
use translation::WriteAnswer;

// "A refusal returns its number and zeros".
pub fn written(outcome: Result<usize, Refusal>) -> WriteAnswer
    ensures { result ≡ answer_of outcome }
{
    match outcome {
        Ok(length) => WriteAnswer { number: 0, length },
        Err(refusal) => WriteAnswer {
            number: refusal.number(),
            length: 0,
        },
    }
}

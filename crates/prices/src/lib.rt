// What the step at a label costs the copy: document 01's price list, read from a table's bytes. May use `reader`, `labels`, `agreement` and
// what those use. Its call `prices` is for users; read it first, then src/costs.rt.
#![tactic(auto)]

mod costs;

ghost use Rattle.std.specs.Prelude.{◌≡◌};
ghost use Rattle.agreement.specs.Prices.{prices_call};
ghost use Rattle.prices.specs.Costs.{LabelIn};
ghost use Rattle.prices.specs.Answers.{answer_with, answer_of};

use agreement::PricesAnswer;
use basics::numbers::{BOUNDS, MAP, NODE};
use basics::refusals::Refusal;
use costs::{Cost, step_costs};
use labels::label_map::fill_labels;
use reader::Kind;

// What a label of an accepted table costs: what stands at its place.
fn label_costs(t: &[u8], procedures: usize, label: usize) -> Cost
    requires { LabelIn t.now procedures label }
    ensures { answer_with result ≡ prices_call t.now label }
{
    let mut map = [0; MAP];
    let mut bounds = [0; BOUNDS];
    fill_labels(t, procedures, &mut map, &mut bounds);
    step_costs(t, map[NODE * label])
}

// The same of any label: none, if there is no such label.
fn find_costs(table: &[u8], label: u64) -> Result<Option<Cost>, Refusal>
    ensures { answer_of result ≡ prices_call table.now label }
{
    let counts = reader::check(table, Kind::Concurrent)?;
    if label == 0 || (counts.labels as u64) < label {
        return Ok(None);
    }
    let cost = label_costs(table, counts.procedures, label as usize);
    Ok(Some(cost))
}

// The paper's answer: "A refusal returns its number and zeros", and so does a label that there is not.
fn answer(outcome: Result<Option<Cost>, Refusal>) -> PricesAnswer
    ensures { result ≡ answer_of outcome }
{
    match outcome {
        Ok(Some(cost)) => PricesAnswer {
            refusal: 0,
            least: cost.least,
            most: cost.most,
        },
        Ok(None) => PricesAnswer {
            refusal: 0,
            least: 0,
            most: 0,
        },
        Err(refusal) => PricesAnswer {
            refusal: refusal.number(),
            least: 0,
            most: 0,
        },
    }
}

// The least and the most that the step at a label costs the copy; 1 to 8 as the reader refuses.
pub fn prices(table: &[u8], label: u64) -> PricesAnswer
    ensures { result ≡ prices_call table.now label }
{
    answer(find_costs(table, label))
}

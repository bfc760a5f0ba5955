// Rule 6: the number of labels, "those inside an atomic block having none, then one end label".
ghost use Rattle.std.specs.Prelude.{◌≡◌, ◌+◌, ◌-◌, ◌<◌};
ghost use Rattle.scan.specs.Laws.LabelScans.{instruction, entered, further, own_labels, blocks_open, CountsLabels};

use super::bodies::Bodies;
use super::tokens::{Token, token_at, token_end};

// 1, if a token begins an instruction.
#[tactic(auto, unfolding(crate::specs::Laws::LabelScans::instruction))]
fn begins(k: Token) -> usize
    ensures { result ≡ instruction k }
{
    match k {
        Token::Stop | Token::Plain | Token::Location(_) | Token::Local(_) => 0,
        _ => 1,
    }
}

// The labels of a token. `within` counts the blocks that are still to end before an atomic block does: outside it is 0.
#[tactic(auto, using(crate::specs::Laws::LabelScans::ways))]
fn own_labels(k: Token, within: usize) -> usize
    ensures { result ≡ own_labels within k }
{
    if 0 < within { 0 } else { begins(k) }
}

// The blocks that are still to end behind a token outside.
#[tactic(auto, unfolding(crate::specs::Laws::LabelScans::entered))]
fn enters(k: Token) -> usize
    ensures { result ≡ entered k }
{
    match k {
        Token::Atomic => 1,
        _ => 0,
    }
}

// And behind one inside.
#[tactic(auto, unfolding(crate::specs::Laws::LabelScans::further))]
fn inside(k: Token, within: usize) -> usize
    requires { (0 < within) × (within + 2 < 18446744073709551616) }
    ensures { result ≡ further (within - 1) k }
{
    match k {
        Token::Stop => within - 1,
        Token::While => within + 1,
        Token::If => within + 2,
        Token::Atomic => within + 1,
        _ => within,
    }
}

// Behind any.
#[tactic(auto, using(crate::specs::Laws::LabelScans::ways))]
fn blocks_open(k: Token, within: usize) -> usize
    requires { within + 2 < 18446744073709551616 }
    ensures { result ≡ blocks_open within k }
{
    if 0 < within {
        inside(k, within)
    } else {
        enters(k)
    }
}

// The labels of a table that rules 1 to 4 let through. Each procedure has one end label.
pub fn count_labels(bodies: &Bodies) -> usize
    ensures { CountsLabels bodies.now.table.now bodies.now.procedures bodies.now.records result }
{
    let t = bodies.table;
    let mut labels = bodies.procedures;
    let mut within = 0;
    let mut i = 0;
    while i < bodies.records {
        let k = token_at(t, i);
        labels += own_labels(k, within);
        within = blocks_open(k, within);
        i = token_end(t, i);
    }
    labels
}

// Rules 1 to 8 one after the other: "The smallest number that applies is answered".
ghost use Rattle.std.specs.Prelude.{◌≡◌};
ghost use Rattle.format.specs.Calls.{read_call};
ghost use Rattle.parse.specs.Ends.{kind_of};
ghost use Rattle.shape.specs.Shapes.{HasShape, LabelsAre};
ghost use Rattle.reader.specs.Answers.{Answers, answer_of};

use super::set::set_before_read;
use basics::numbers::LABELS;
use basics::refusals::Refusal;
use format::ReadAnswer;
use parse::Kind;
use scan::bodies::Bodies;
use scan::calls::no_cycle;
use scan::label_count::count_labels;
use scan::names::names_right;
use shape::form::{Shape, read_form};

// "P, M, T, the number of labels (sequential: 0) and of cells" of an accepted table.
#[derive(Clone, Copy)]
pub struct Counts {
    pub procedures: usize,
    pub locations: usize,
    pub threads: usize,
    pub labels: usize,
    pub cells: usize,
}

// The number of labels; a sequential program has none.
#[tactic(auto, using(crate::proofs::Verdicts::verdict_ways))]
fn labels_of(table: &[u8], shape: Shape, kind: Kind) -> usize
    requires { HasShape (kind_of kind) table.now shape }
    ensures { LabelsAre (kind_of kind) table.now shape result }
{
    match kind {
        Kind::Concurrent => count_labels(&Bodies {
            table,
            procedures: shape.procedures,
            records: shape.records,
        }),
        Kind::Sequential => 0,
    }
}

// Rules 5 to 8, on a table that rules 1 to 4 let through.
#[tactic(auto, using(crate::proofs::Verdicts::verdict_ways))]
fn judge(table: &[u8], shape: Shape, kind: Kind) -> Result<Counts, Refusal>
    requires { HasShape (kind_of kind) table.now shape }
    ensures { Answers (kind_of kind) table.now result }
{
    let bodies = Bodies {
        table,
        procedures: shape.procedures,
        records: shape.records,
    };
    if !names_right(&bodies, shape.locations) {
        return Err(Refusal::Names);
    }
    let labels = labels_of(table, shape, kind);
    // "concurrent: over 1,000 labels"
    if LABELS < labels {
        return Err(Refusal::Labels);
    }
    if !no_cycle(&bodies) {
        return Err(Refusal::Cycle);
    }
    if !set_before_read(&bodies) {
        return Err(Refusal::Unset);
    }
    Ok(Counts {
        procedures: shape.procedures,
        locations: shape.locations,
        threads: shape.threads,
        labels,
        cells: shape.cells,
    })
}

// Accepts a table of a kind, or says why not: rules 1 to 8.
pub fn check(table: &[u8], kind: Kind) -> Result<Counts, Refusal>
    ensures { answer_of result ≡ read_call (kind_of kind) table.now }
{
    let shape = read_form(table, kind)?;
    judge(table, shape, kind)
}

// The paper's answer: "A refusal returns its number and zeros", "An accepted read answers 0 with P, M, T, the number of labels and of cells".
pub fn answer(outcome: Result<Counts, Refusal>) -> ReadAnswer
    ensures { result ≡ answer_of outcome }
{
    match outcome {
        Ok(counts) => ReadAnswer {
            number: 0,
            procedures: counts.procedures,
            locations: counts.locations,
            threads: counts.threads,
            labels: counts.labels,
            cells: counts.cells,
        },
        Err(refusal) => ReadAnswer {
            number: refusal.number(),
            procedures: 0,
            locations: 0,
            threads: 0,
            labels: 0,
            cells: 0,
        },
    }
}

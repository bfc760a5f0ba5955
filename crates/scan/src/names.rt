// Rule 5: "a local, location or procedure not below its count; n not the callee's parameters".
ghost use Rattle.std.specs.Prelude.{◌≡◌, ◌<◌, ◌≤◌, length, ltb};
ghost use Rattle.value.specs.Maybe.{both};
ghost use Rattle.format.specs.Rules.{all_named};
ghost use Rattle.scan.specs.Laws.Laid.{Judges};
ghost use Rattle.scan.specs.Laws.Scans.{Scans};
ghost use Rattle.scan.specs.Laws.NameScans.{takes_here, named_here, all_here, proc_named, Counted};

use super::bodies::Bodies;
use super::tokens::{Token, token_at, token_end};

// Two numbers below a count.
fn below(a: usize, b: usize, count: usize) -> bool
    ensures { result ≡ both (ltb a count) (ltb b count) }
{
    a < count && b < count
}

// A callee, and its parameters.
#[tactic(auto, using(crate::specs::Laws::NameScans::ways))]
fn takes(bodies: &Bodies, callee: usize, arguments: usize) -> bool
    ensures { result ≡ takes_here bodies.now.table.now bodies.now.procedures bodies.now.records callee arguments }
{
    callee < bodies.procedures && bodies.parameters(callee) == arguments
}

// The names of one token.
#[tactic(auto, unfolding(crate::specs::Laws::NameScans::named_here))]
fn token_named(bodies: &Bodies, k: Token, locals: usize, locations: usize) -> bool
    ensures { result ≡ named_here bodies.now.table.now bodies.now.procedures locations bodies.now.records locals k }
{
    match k {
        Token::Location(l) => l < locations,
        Token::Local(x) => x < locals,
        Token::Assign(x) => x < locals,
        Token::Write(y) => y < locals,
        Token::Read(x, y) => below(x, y, locals),
        Token::Call(m, n) => takes(bodies, m, n),
        Token::Select(a, b) => below(a, b, locations),
        Token::Stop | Token::Plain | Token::While | Token::If | Token::Atomic => true,
    }
}

// The names of the tokens from a place up to another.
fn tokens_named(bodies: &Bodies, at: usize, end: usize, locals: usize, locations: usize) -> bool
    requires { end ≤ length bodies.now.table.now }
    ensures { Scans bodies.now.table.now end (all_here bodies.now.table.now bodies.now.procedures locations bodies.now.records locals) at result }
{
    let t = bodies.table;
    let mut i = at;
    while i < end {
        if !token_named(bodies, token_at(t, i), locals, locations) {
            return false;
        }
        i = token_end(t, i);
    }
    true
}

// The names of procedure m.
fn body_named(bodies: &Bodies, m: usize, locations: usize) -> bool
    requires { m < bodies.now.procedures }
    ensures { Judges (Counted bodies.now.table.now bodies.now.procedures locations bodies.now.records) (proc_named m) result }
{
    tokens_named(
        bodies,
        bodies.start(m),
        bodies.end(m),
        bodies.locals(m),
        locations,
    )
}

// The names of all procedures of a table that rules 1 to 4 let through.
pub fn names_right(bodies: &Bodies, locations: usize) -> bool
    ensures { Judges (Counted bodies.now.table.now bodies.now.procedures locations bodies.now.records) all_named result }
{
    for m in 0..bodies.procedures {
        if !body_named(bodies, m, locations) {
            return false;
        }
    }
    true
}

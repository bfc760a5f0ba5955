// Who calls whom, as written: dead code and atomic blocks too. Each body is walked over once.
ghost use Rattle.std.specs.Prelude.{◌≡◌, ◌≤◌, length};
ghost use Rattle.scan.specs.Laws.CallScans.{call_in};
ghost use Rattle.scan.specs.Laws.Scans.{Scans};
ghost use Rattle.places.specs.Placed.{Source};
ghost use Rattle.places.specs.Laws.Marking.{marking, marked_by, Marked};

use basics::numbers::PROCEDURES;
use scan::bodies::Bodies;
use scan::tokens::{Token, token_at, token_end};

// Marks the call that a token is.
#[tactic(auto, unfolding(crate::specs::Laws::Marking::marking))]
fn mark_call(k: Token, called: &mut [bool; PROCEDURES])
    ensures { called.new ≡ marking (call_in k) called.old }
{
    if let Token::Call(m, _) = k
        && m < PROCEDURES
    {
        called[m] = true;
    }
}

// Marks the calls of the tokens from a place up to another.
fn mark_body(t: &[u8], at: usize, end: usize, called: &mut [bool; PROCEDURES])
    requires { end ≤ length t.now }
    ensures { Scans t.now end (marked_by called.old) at called.new }
{
    let mut i = at;
    while i < end {
        mark_call(token_at(t, i), called);
        i = token_end(t, i);
    }
}

// Of each procedure, which ones it calls.
pub fn calls_of(bodies: &Bodies) -> [[bool; PROCEDURES]; PROCEDURES]
    requires { Source bodies.now.table.now bodies.now.procedures bodies.now.records }
    ensures { Marked bodies.now.table.now bodies.now.procedures bodies.now.records result }
{
    let mut calls = [[false; PROCEDURES]; PROCEDURES];
    for q in 0..bodies.procedures {
        mark_body(bodies.table, bodies.start(q), bodies.end(q), &mut calls[q]);
    }
    calls
}

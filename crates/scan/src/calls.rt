// Rule 7: "some procedure can reach itself by calls". Each body is walked over once: at a call of a procedure that was not entered yet the walk goes on in that
// one's body, and comes back at its end. A call of a procedure on the way to here closes a cycle.
ghost use Rattle.std.specs.Prelude.{◌≡◌, ◌<◌, ◌≤◌, length};
ghost use Rattle.format.specs.Rules.{no_cycle};
ghost use Rattle.scan.specs.Laws.Laid.{Judges, Named};
ghost use Rattle.scan.specs.Laws.CallSearch.{Begins};
ghost use Rattle.scan.specs.Laws.CallScans.{calls_on, NextCall};

use super::bodies::Bodies;
use super::tokens::{Token, token_at, token_end};
use basics::numbers::MOST_PROCEDURES;

// What is known of a procedure: it was not entered yet, it is on the way, or it was left and reaches no cycle.
#[derive(Clone, Copy, PartialEq, Eq)]
enum State {
    New,
    Entered,
    Left,
}

// A procedure on the way to here, and the place where its walk goes on.
#[derive(Clone, Copy)]
struct Visit {
    procedure: u16,
    at: u16,
}

// Does a token call a procedure that was not left yet?
#[tactic(auto, unfolding(crate::specs::Laws::CallScans::calls_on))]
fn calls_on(k: Token, states: &[State; MOST_PROCEDURES]) -> bool
    ensures { result ≡ calls_on states.now k }
{
    match k {
        Token::Call(m, _) => m >= MOST_PROCEDURES || states[m] != State::Left,
        _ => false,
    }
}

// The first token from a place on that does, or the end.
#[tactic(auto, using(crate::specs::Laws::CallScans::pass_ways))]
fn next_call(t: &[u8], at: usize, end: usize, states: &[State; MOST_PROCEDURES]) -> usize
    requires { end ≤ length t.now }
    ensures { NextCall t.now end states.now at result }
{
    let mut i = at;
    while i < end {
        if calls_on(token_at(t, i), states) {
            return i;
        }
        i = token_end(t, i);
    }
    end
}

// A visit of a procedure begins where its body does.
fn visit_of(bodies: &Bodies, m: usize) -> Visit
    requires { m < bodies.now.procedures }
    ensures { Begins bodies.now.table.now bodies.now.procedures bodies.now.records m result }
{
    Visit {
        procedure: m as u16,
        at: bodies.start(m) as u16,
    }
}

// A table that rules 1 to 5 let through. The way to here is a row of procedures, each of which calls the next one, and the place where each goes on.
pub fn no_cycle(bodies: &Bodies) -> bool
    ensures { Judges (Named bodies.now.table.now bodies.now.procedures bodies.now.records) no_cycle result }
{
    let t = bodies.table;
    let mut states = [State::New; MOST_PROCEDURES];
    let mut way = [Visit {
        procedure: 0,
        at: 0,
    }; MOST_PROCEDURES];
    let mut depth = 0;
    let mut first = 0;
    // stays: a step enters or leaves a procedure or goes on to the next one, so that no range counts the steps
    while first < bodies.procedures {
        if depth == 0 {
            if states[first] == State::New {
                states[first] = State::Entered;
                way[0] = visit_of(bodies, first);
                depth = 1;
            } else {
                first += 1;
            }
        } else {
            let top = depth - 1;
            let m = usize::from(way[top].procedure);
            let end = bodies.end(m);
            let at = next_call(t, usize::from(way[top].at), end, &states);
            if at < end {
                let Token::Call(callee, _) = token_at(t, at) else {
                    return false;
                };
                if callee >= bodies.procedures || states[callee] != State::New {
                    return false;
                }
                way[top].at = at as u16;
                states[callee] = State::Entered;
                way[depth] = visit_of(bodies, callee);
                depth += 1;
            } else {
                states[m] = State::Left;
                depth = top;
            }
        }
    }
    true
}

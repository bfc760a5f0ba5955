// Mends a table whose trailer is lost. May use `mending`, `reader`, `writer`, `parse` and what those use. Its call is for users; read it first, then
// src/search.rt.
#![tactic(auto)]

mod changes;
mod search;
mod trailer;

ghost use Rattle.std.specs.Prelude.{◌≡◌};
ghost use Rattle.parse.specs.Ends.{kind_of};
ghost use Rattle.mending.specs.Mending.{kind_numbered, mend_call};
ghost use Rattle.mender.specs.Trailing.{Sized, Keeps};
ghost use Rattle.mender.specs.Answering.{answer_of, Becomes, MendsBut, Mends, Called};

use basics::numbers::TRAILER;
use basics::refusals::Refusal;
use changes::{CHANGE, put_changes};
use mending::MendAnswer;
use parse::Kind;
use search::{Found, accepted, find};
use trailer::{Counts, put_back, put_trailer, take_trailer};

// The kind by its number: 0 concurrent, any other sequential. stays: the contracts of the calls for C (`zaru_mend`) name the kind by
// `kind_numbered`, and no From<u64>.
#[tactic(auto, using(crate::proofs::Answering::answer_ways))]
pub fn kind_numbered(number: u64) -> Kind
    ensures { kind_of result ≡ kind_numbered number }
{
    match number {
        0 => Kind::Concurrent,
        _ => Kind::Sequential,
    }
}

// The one acceptable choice: how many bytes change. "too short a list buffer is 10"
fn mend_by(
    table: &mut [u8],
    kind: Kind,
    counts: Counts,
    old: &[u8; TRAILER],
    list: &mut [u8],
) -> Result<usize, Refusal>
    requires { Sized table.old }
    ensures { Becomes (kind_of kind) table.old counts old.now list.old table.new list.new result }
{
    put_trailer(table, kind, counts);
    let mut nowhere = [0u8; 1];
    let length = put_changes(old, table, &mut nowhere);
    if list.len() < length {
        return Err(Refusal::NoRoom);
    }
    put_changes(old, table, list);
    Ok(length / CHANGE)
}

// By the choices that are found: "14 if no choice is acceptable, 15 if more than one is".
fn mend_found(
    table: &mut [u8],
    kind: Kind,
    old: &[u8; TRAILER],
    list: &mut [u8],
) -> Result<usize, Refusal>
    requires { Sized table.old × Keeps table.old old.now }
    ensures { MendsBut (kind_of kind) table.old old.now list.old table.new list.new result }
{
    match find(table, kind) {
        Found::None => Err(Refusal::NoChoice),
        Found::One(counts) => mend_by(table, kind, counts, old, list),
        Found::Several => Err(Refusal::Choices),
    }
}

// A table that is not accepted as it is. "A refusal writes nothing".
#[tactic(auto, using(crate::proofs::Answering::answer_ways))]
fn mend_damaged(table: &mut [u8], kind: Kind, list: &mut [u8]) -> Result<usize, Refusal>
    requires { Sized table.old }
    ensures { Mends (kind_of kind) table.old list.old table.new list.new result }
{
    let old = take_trailer(table);
    let outcome = mend_found(table, kind, &old, list);
    if outcome.is_err() {
        put_back(&old, table);
    }
    outcome
}

// How many bytes change, if any has to.
#[tactic(auto, using(crate::proofs::Answering::call_ways))]
fn mended(table: &mut [u8], kind: Kind, list: &mut [u8]) -> Result<Option<usize>, Refusal>
    ensures { Called (kind_of kind) table.old list.old table.new list.new result }
{
    if table.len() < TRAILER {
        return Err(Refusal::Trailer);
    }
    if kind.limits().bytes < table.len() {
        return Err(Refusal::Counts);
    }
    if accepted(table, kind) {
        return Ok(None);
    }
    Ok(Some(mend_damaged(table, kind, list)?))
}

// The paper's answer.
fn answer(outcome: Result<Option<usize>, Refusal>) -> MendAnswer
    ensures { result ≡ answer_of outcome }
{
    match outcome {
        Ok(Some(changes)) => MendAnswer {
            refusal: 0,
            mended: true,
            changes,
        },
        Ok(None) => MendAnswer {
            refusal: 0,
            mended: false,
            changes: 0,
        },
        Err(refusal) => MendAnswer {
            refusal: refusal.number(),
            mended: false,
            changes: 0,
        },
    }
}

// Overwrites the last sixteen bytes with the trailer of the one choice of counts that makes an acceptable table, and lists each changed
// byte: its place in four bytes, the old and the new one; 96 bytes are enough. A refusal writes nothing.
pub fn mend(table: &mut [u8], kind: Kind, list: &mut [u8]) -> MendAnswer
    ensures { record { answer = result; table = table.new; list = list.new } ≡ mend_call (kind_of kind) table.old list.old }
{
    answer(mended(table, kind, list))
}

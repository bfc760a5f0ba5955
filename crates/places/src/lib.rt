// Where the copy keeps locals: where those of each procedure begin in the row of all locals, and how long that row is, in both modes. May use
// `scan`, `translation` and what those use. Read `place` at the end first, then specs/Placed.antt. An inner room: its functions have a `requires`.
#![tactic(auto)]

mod marks;

ghost use Rattle.std.specs.Prelude.{◌≡◌, ◌<◌, ◌≤◌, length};
ghost use Rattle.format.specs.Rules.{limits};
ghost use Rattle.format.specs.Syntax.{concurrent};
ghost use Rattle.translation.specs.declared.Mode.TheVariants.{Own, Shared};
ghost use Rattle.places.specs.Placed.{Source, PlacesOf};
ghost use Rattle.places.specs.Laws.Marking.{Marked};
ghost use Rattle.places.specs.Laws.Raising.{end_at, raised_to, Low, Raises, Round, Longest};

use basics::numbers::PROCEDURES;
use marks::calls_of;
use scan::bodies::Bodies;
use translation::Mode;

// stays: `Source` is a clause of each function here; a ghost field holds no fact that names a program, since that may have two proofs.

// Where the locals of each procedure begin, and how many locations there are for locals.
#[derive(Drop)]
pub struct Places {
    pub starts: [u16; PROCEDURES],
    pub row: u16,
}

// The old mode: "one per local of each procedure in order".
fn in_order(bodies: &Bodies) -> Places
    requires { Source bodies.now.table.now bodies.now.procedures bodies.now.records }
    ensures { PlacesOf bodies.now.table.now bodies.now.procedures bodies.now.records Own result }
{
    let mut starts = [0; PROCEDURES];
    let mut row = 0;
    for m in 0..bodies.procedures {
        starts[m] = row;
        row += bodies.locals(m) as u16;
    }
    Places { starts, row }
}

// Where a procedure's locals end.
#[tactic(auto, unfolding(crate::specs::Laws::Raising::end_at))]
fn end_of(bodies: &Bodies, starts: &[u16; PROCEDURES], m: usize) -> u16
    requires low { Low bodies.now.table.now bodies.now.procedures bodies.now.records starts.now }
    requires below { m < bodies.now.procedures }
    requires few { bodies.now.procedures ≤ (limits concurrent).procs }
    ensures { result ≡ end_at bodies.now.table.now bodies.now.records starts.now m }
{
    starts[m] + bodies.locals(m) as u16
}

// Where a procedure begins: not before `end`, if a caller's locals end there.
#[tactic(auto, unfolding(crate::specs::Laws::Raising::raised_to))]
fn raised(called: bool, start: u16, end: u16) -> u16
    ensures { result ≡ raised_to called start end }
{
    if called { start.max(end) } else { start }
}

// None of the procedures that are called begins before `end`.
fn raise_callees(
    called: &[bool; PROCEDURES],
    procedures: usize,
    end: u16,
    starts: &mut [u16; PROCEDURES],
)
    requires { procedures ≤ (limits concurrent).procs }
    ensures { Raises called.now procedures end starts.old starts.new }
{
    for m in 0..procedures {
        starts[m] = raised(called[m], starts[m], end);
    }
}

// No procedure begins before its callers' locals end, as these begin by now.
fn raise_all(
    bodies: &Bodies,
    calls: &[[bool; PROCEDURES]; PROCEDURES],
    starts: &mut [u16; PROCEDURES],
)
    requires source { Source bodies.now.table.now bodies.now.procedures bodies.now.records }
    requires marked { Marked bodies.now.table.now bodies.now.procedures bodies.now.records calls.now }
    requires low { Low bodies.now.table.now bodies.now.procedures bodies.now.records starts.old }
    ensures { Round bodies.now.table.now bodies.now.procedures bodies.now.records starts.old starts.new }
{
    for q in 0..bodies.procedures {
        let end = end_of(bodies, starts, q);
        raise_callees(&calls[q], bodies.procedures, end, starts);
    }
}

// The largest end.
fn longest(bodies: &Bodies, starts: &[u16; PROCEDURES]) -> u16
    requires source { Source bodies.now.table.now bodies.now.procedures bodies.now.records }
    requires low { Low bodies.now.table.now bodies.now.procedures bodies.now.records starts.now }
    ensures { Longest bodies.now.table.now bodies.now.procedures bodies.now.records starts.now result }
{
    let mut row = 0u16;
    for m in 0..bodies.procedures {
        row = row.max(end_of(bodies, starts, m));
    }
    row
}

// The shared mode: "a procedure's locals begin after the largest end among its callers' locals (at 0 without callers)". No procedure reaches
// itself by calls, so that as many rounds as there are procedures are enough.
fn shared(bodies: &Bodies) -> Places
    requires { Source bodies.now.table.now bodies.now.procedures bodies.now.records }
    ensures { PlacesOf bodies.now.table.now bodies.now.procedures bodies.now.records Shared result }
{
    let calls = calls_of(bodies);
    let mut starts = [0; PROCEDURES];
    for _ in 0..bodies.procedures {
        raise_all(bodies, &calls, &mut starts);
    }
    let row = longest(bodies, &starts);
    Places { starts, row }
}

// The places of the locals of an accepted concurrent table, whose procedure records begin at `records`.
pub fn place(table: &[u8], mode: Mode, procedures: usize, records: usize) -> Places
    requires { Source table.now procedures records }
    ensures { PlacesOf table.now procedures records mode result }
{
    let bodies = Bodies {
        table,
        procedures,
        records,
    };
    match mode {
        Mode::Own => in_order(&bodies),
        Mode::Shared => shared(&bodies),
    }
}

// The sequential machine: report RR-2017-03, figure 1, with select by a schedule, under a budget.
ghost use Rattle.std.specs.Prelude.{◌≡◌, ◌+◌, ◌^◌, ◌≤◌, ◌<◌, pos, length};
ghost use Rattle.sequential.specs.Frames.{word_of, place_in, procedure_in};
ghost use Rattle.value.specs.declared.Value.TheVariants.{Whole};
ghost use Rattle.jumps.specs.Jumps.{positions};
ghost use Rattle.sequential.specs.Sequential.{most_frames, event_in, Recorded, moved_to, selected_to, Enterable, Enters, Due, CarriesOut};
ghost use Rattle.sequential.specs.Sequential.{Facing, Faces, UsedUp, ran_with, Starting, Runs, Accepted, Outcomes};
ghost use Rattle.sequential.specs.Words.{RecordedWord, DueWords, CarriesWords};

use basics::numbers::{
    ASSIGN, CALL, CELL_WORDS, END, EVENT, FRAME, FRAMES, LOCAL_WORDS, LONGEST, READ, RECORD,
    SELECT, SIZE, STARTS, TRAILER, WRITE,
};
use decide::step;
use decide::step::Step;
use engine::ends::End;
use engine::event::Event;
use engine::word::ZERO;
use engine::{evaluate, event, locals, memory, table, word};
use jumps::ways;
use quick::turn;
use quick::turn::Quick;
use semantics::RunAnswer;
use value::Value;

// The state of a run beside its arrays: where it goes on, how many frames there are, the thread last selected, the entries taken and
// the events recorded.
#[derive(Clone, Copy)]
struct State {
    at: usize,
    depth: usize,
    thread: u8,
    taken: usize,
    events: usize,
}

// What a run came to: its end, its steps, the entries taken and the events recorded.
#[derive(Clone, Copy)]
struct Ran {
    end: End,
    steps: u64,
    taken: usize,
    events: usize,
}

// A number of 32 bits, as a position.
fn wide(n: u32) -> usize
    ensures { result ≡ n }
{
    n as usize
}

// An entry of the schedule as a value.
fn number(entry: u8) -> Value
    ensures { result ≡ Whole (pos entry) }
{
    Value::Whole(entry as i32)
}

// A frame has a word: where the frame below goes on, and times this the number of the frame's procedure.
const PLACES: u32 = LONGEST as u32;

// The word of a frame.
fn frame_word(next: usize, m: usize) -> u32
    requires { (next < positions) × (m < most_frames) }
    ensures { result ≡ word_of next m }
{
    next as u32 + PLACES * m as u32
}

// Where the frame below goes on.
fn place_in(word: u32) -> usize
    ensures { result ≡ place_in word }
{
    wide(word % PLACES)
}

// The number of the frame's procedure.
fn procedure_in(word: u32) -> usize
    ensures { result ≡ procedure_in word }
{
    wide(word / PLACES)
}

// "records only locations below h", with "the number of the procedure it is in". Answers how many events there are.
fn record_event(
    events: &mut [u8],
    h: usize,
    back: &[u32; FRAMES],
    state: State,
    writes: bool,
    location: usize,
    index: usize,
    value: Value,
) -> usize
    requires { (state.events + 1 < 2 ^ 64) × (1 ≤ state.depth) × (state.depth ≤ most_frames) }
    ensures { Recorded h events.old state.events (event_in back.now state writes location index value)
        events.new result }
{
    let count = state.events;
    if location < h {
        let e = Event {
            thread: state.thread,
            writes,
            location,
            index,
            value,
            label: procedure_in(back[state.depth - 1]),
        };
        event::write_event(events, count, e);
        return count + 1;
    }
    count
}

// The same for the value that a word holds. What is only counted is not taken apart. Out of the loop this costs some 25 instructions a step.
#[inline(always)]
fn record_word(
    events: &mut [u8],
    h: usize,
    back: &[u32; FRAMES],
    state: State,
    writes: bool,
    location: usize,
    index: usize,
    w: u64,
) -> usize
    requires { (state.events + 1 < 2 ^ 64) × (1 ≤ state.depth) × (state.depth ≤ most_frames) }
    ensures { RecordedWord h back.now events.old state writes location index w events.new result }
{
    let count = state.events;
    if location >= h {
        return count;
    }
    if count < events.len() / EVENT {
        if let Ok(value) = word::unpack(w) {
            return record_event(events, h, back, state, writes, location, index, value);
        }
    }
    count + 1
}

// The state in which a run goes on at `at`, with so many frames and events.
fn moved(state: State, at: usize, depth: usize, events: usize) -> State
    ensures { result ≡ moved_to state at depth events }
{
    State {
        at,
        depth,
        thread: state.thread,
        taken: state.taken,
        events,
    }
}

// The state in which a run goes on at `at` that took an entry of the schedule.
fn selected(state: State, at: usize, thread: u8) -> State
    requires { state.taken + 1 < 2 ^ 64 }
    ensures { result ≡ selected_to state at thread }
{
    State {
        at,
        depth: state.depth,
        thread,
        taken: state.taken + 1,
        events: state.events,
    }
}

// Procedure `m` begins above `depth` frames; its arguments are in its frame already, and the frame below is to go on at `next`, as the
// frame's word says. Answers where its body begins.
fn enter(
    t: &[u8],
    records: usize,
    words: &mut [u64; LOCAL_WORDS],
    back: &mut [u32; FRAMES],
    depth: usize,
    m: usize,
    next: usize,
) -> usize
    requires { Enterable t.now records depth m × (next < positions) }
    ensures { Enters t.now records depth m next words.old back.old words.new
        back.new result }
{
    let record = records + RECORD * m;
    let base = FRAME * depth;
    back[depth] = frame_word(next, m);
    locals::clear(
        words,
        base + table::byte(t, record),
        base + table::byte(t, record + 1),
    );
    wide(table::four(t, record + 2))
}

// Carries out a step that was decided. A test goes on by the jump table, a return where the frame below was left. Nothing stands before
// the match and each way makes its state anew: so the compiled code goes from what decides a step straight to what carries it out.
fn carry_out(
    t: &[u8],
    records: usize,
    jumps: &[u16; LONGEST],
    words: &mut [u64; LOCAL_WORDS],
    cells: &mut [u64; CELL_WORDS],
    back: &mut [u32; FRAMES],
    events: &mut [u8],
    h: usize,
    state: State,
    step: Step,
) -> State
    requires { Due t.now records jumps.now words.old back.old cells.old events.old state step }
    ensures { CarriesOut t.now records jumps.now h words.old back.old
        cells.old events.old state step words.new back.new cells.new
        events.new result }
{
    match step {
        Step::Return => {
            let depth = state.depth - 1;
            moved(state, place_in(back[depth]), depth, state.events)
        }
        Step::Assign { x, value, next } => {
            locals::put(words, FRAME * (state.depth - 1), x, value);
            let to = ways::settle(t, jumps, next);
            moved(state, to, state.depth, state.events)
        }
        Step::Read {
            x,
            location,
            index,
            value,
            next,
        } => {
            locals::put(words, FRAME * (state.depth - 1), x, value);
            let count = record_event(events, h, back, state, false, location, index, value);
            moved(state, ways::settle(t, jumps, next), state.depth, count)
        }
        Step::Write {
            location,
            index,
            cell,
            value,
            next,
        } => {
            memory::put(cells, cell, value);
            let count = record_event(events, h, back, state, true, location, index, value);
            moved(state, ways::settle(t, jumps, next), state.depth, count)
        }
        Step::Test { truth, next } => {
            let to = ways::branch(t, jumps, state.at, truth, next);
            moved(state, to, state.depth, state.events)
        }
        Step::Call { procedure, next } => {
            let to = ways::settle(t, jumps, next);
            let start = enter(t, records, words, back, state.depth, procedure, to);
            moved(state, start, state.depth + 1, state.events)
        }
        Step::Select { cell, thread, next } => {
            memory::put(cells, cell, number(thread));
            selected(state, ways::settle(t, jumps, next), thread)
        }
        Step::Blocked(_) => state,
    }
}

// Carries out a quick step: `carry_out` for the step that it stands for, or for several tests that fail.
fn carry_words(
    t: &[u8],
    records: usize,
    jumps: &[u16; LONGEST],
    words: &mut [u64; LOCAL_WORDS],
    cells: &mut [u64; CELL_WORDS],
    back: &mut [u32; FRAMES],
    events: &mut [u8],
    h: usize,
    state: State,
    step: Quick,
) -> State
    requires { DueWords t.now records jumps.now words.old back.old cells.old events.old state step }
    ensures { CarriesWords t.now records jumps.now h words.old back.old
        cells.old events.old state step words.new back.new cells.new
        events.new result }
{
    match step {
        Quick::Assign { x, word, next } => {
            words[FRAME * (state.depth - 1) + x] = word;
            moved(
                state,
                ways::settle(t, jumps, next),
                state.depth,
                state.events,
            )
        }
        Quick::Read {
            x,
            location,
            index,
            word,
            next,
        } => {
            words[FRAME * (state.depth - 1) + x] = word;
            let count = record_word(events, h, back, state, false, location, index, word);
            moved(state, ways::settle(t, jumps, next), state.depth, count)
        }
        Quick::Write {
            location,
            index,
            cell,
            word,
            next,
        } => {
            cells[cell] = word;
            let count = record_word(events, h, back, state, true, location, index, word);
            moved(state, ways::settle(t, jumps, next), state.depth, count)
        }
        Quick::Holds { next } => {
            moved(
                state,
                ways::settle(t, jumps, next),
                state.depth,
                state.events,
            )
        }
        Quick::Fails { at, steps: _ } => moved(state, at, state.depth, state.events),
        Quick::Call { procedure, next } => {
            let to = ways::settle(t, jumps, next);
            let start = enter(t, records, words, back, state.depth, procedure, to);
            moved(state, start, state.depth + 1, state.events)
        }
        Quick::Left => state,
    }
}

// The step that is due: a select asks the schedule's next entry. For the rest this does what `step::decide` does: that has other callers,
// and so would not be compiled into the loop.
fn due(
    t: &[u8],
    schedule: &[u8],
    starts: &[u32; STARTS],
    words: &mut [u64; LOCAL_WORDS],
    cells: &[u64; CELL_WORDS],
    state: State,
) -> Step
    requires { Facing t.now schedule.now starts.now words.old cells.now state × (state.at < length t.now)
        × (1 ≤ state.depth) × (state.depth ≤ most_frames) }
    ensures { Faces t.now schedule.now starts.now words.old
        cells.now state words.new result }
{
    let at = state.at;
    let base = FRAME * (state.depth - 1);
    let mark = t[at];
    match mark {
        SELECT => {
            let taken = state.taken;
            step::decide_select(t, starts, cells, at, schedule[taken])
        }
        END => Step::Return,
        ASSIGN => step::decide_assign(t, at, evaluate::evaluate(t, words, base, at + 2)),
        WRITE => {
            let o = evaluate::evaluate(t, words, base, at + 2);
            let e = evaluate::evaluate(t, words, base, o.next);
            step::decide_write(t, words, base, starts, at, o, e)
        }
        READ => {
            let o = evaluate::evaluate(t, words, base, at + 3);
            step::decide_read(t, words, base, starts, cells, at, o)
        }
        CALL => step::decide_call(t, words, base, at),
        _ => step::decide_test(evaluate::evaluate(t, words, base, at + 1)),
    }
}

// "used up (select and no entry)".
fn used_up(t: &[u8], schedule: &[u8], state: State) -> bool
    requires { (state.at < length t.now) × (state.taken ≤ length schedule.now) }
    ensures { UsedUp t.now schedule.now state result }
{
    let at = state.at;
    if t[at] == SELECT {
        state.taken == schedule.len()
    } else {
        false
    }
}

// How a run ended.
fn outcome(end: End, steps: u64, state: State) -> Ran
    ensures { result ≡ ran_with end steps state }
{
    Ran {
        end,
        steps,
        taken: state.taken,
        events: state.events,
    }
}

// The run: "Before each step a run is judged finished, at its budget, used up (select and no entry), blocked, in this order".
fn go(
    t: &[u8],
    records: usize,
    schedule: &[u8],
    jumps: &[u16; LONGEST],
    starts: &[u32; STARTS],
    words: &mut [u64; LOCAL_WORDS],
    cells: &mut [u64; CELL_WORDS],
    back: &mut [u32; FRAMES],
    events: &mut [u8],
    h: usize,
    budget: u64,
) -> Ran
    requires { Starting t.now records jumps.now starts.now words.old back.old cells.old }
    ensures { Runs t.now records schedule.now jumps.now starts.now
        words.old back.old cells.old h budget events.old cells.new
        events.new result }
{
    let mut state = State {
        at: wide(table::four(t, records + 2)),
        depth: 1,
        thread: 0,
        taken: 0,
        events: 0,
    };
    let mut steps = 0;
    loop {
        if state.depth == 0 {
            return outcome(End::Finished, steps, state);
        }
        if steps == budget {
            return outcome(End::Spent, steps, state);
        }
        let base = FRAME * (state.depth - 1);
        let fast = turn::decide(
            t,
            jumps,
            words,
            base,
            starts,
            cells,
            state.at,
            budget - steps,
        );
        let taken = turn::steps(fast);
        if 0 < taken {
            state = carry_words(
                t, records, jumps, words, cells, back, events, h, state, fast,
            );
            steps += taken;
            continue;
        }
        if used_up(t, schedule, state) {
            return outcome(End::UsedUp, steps, state);
        }
        let step = due(t, schedule, starts, words, cells, state);
        if let Step::Blocked(reason) = step {
            return outcome(End::Blocked(reason), steps, state);
        }
        state = carry_out(
            t, records, jumps, words, cells, back, events, h, state, step,
        );
        steps += 1;
    }
}

// The run on a table that is accepted, with room for its cells.
pub fn run(
    t: &[u8],
    procedures: usize,
    locations: usize,
    count: usize,
    schedule: &[u8],
    budget: u64,
    h: usize,
    cells: &mut [u8],
    events: &mut [u8],
) -> RunAnswer
    requires { Accepted t.now procedures locations count }
    ensures { Outcomes t.now procedures locations count schedule.now budget h cells.old
        events.old result cells.new events.new }
{
    let records = t.len() - TRAILER - RECORD * procedures - SIZE * locations;
    let mut positions = [0u16; LONGEST];
    let mut starts = [0u32; STARTS];
    let mut words = [0u64; LOCAL_WORDS];
    let mut memory = [ZERO; CELL_WORDS];
    let mut back = [0u32; FRAMES];
    ways::fill(t, procedures, &mut positions);
    memory::set_starts(t, records + RECORD * procedures, locations, &mut starts);
    let ran = go(
        t,
        records,
        schedule,
        &positions,
        &starts,
        &mut words,
        &mut memory,
        &mut back,
        events,
        h,
        budget,
    );
    memory::write_cells(&memory, count, cells);
    RunAnswer {
        number: 0,
        end: ran.end.number(),
        steps: ran.steps,
        unused: schedule.len() - ran.taken,
        events: ran.events as u64,
        reason: ran.end.reason(),
    }
}

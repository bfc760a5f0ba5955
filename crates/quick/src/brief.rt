// The words of brief expressions: leaves, operators on two leaves, operators on two of these. `evaluate` does all others.
//
// All of this answers NOTHING where an expression has no value and where it is not brief: whoever asks then goes the general way.
// So nothing is claimed of NOTHING, and any other answer is right.
ghost use Rattle.std.specs.Prelude.{◌≡◌, ◌+◌, ◌≤◌, ◌<◌, length, get_or};
ghost use Rattle.quick.specs.Brief.{Shown, worded, Standing, LocalAt, NumberAt, LocationAt, Words, Sure};

use super::operate::operate;
use basics::marks;
use basics::numbers::LOCAL;
use engine::table;
use engine::word::{FALSE, FIRST_LOCATION, KIND, NOTHING, TRUE};

// The marks below this one begin leaves.
pub const LEAVES: u8 = LOCAL + 1;

// "not" and "negate", with one operand, have the marks from this one on.
const SINGLE: u8 = marks::NOT;

// Past the words of numbers, and then of locations.
const PAST: u64 = FIRST_LOCATION + 65536;

// The word of an expression, and where it ends; that means nothing if the word is NOTHING.
// stays: an Option costs 21 instructions a step on c (134.8 against 113.8), 16 on b (86.2 against 70.6), counted in an unproved build
#[derive(Clone, Copy)]
pub struct Worded {
    pub word: u64,
    pub next: usize,
}

// No word.
fn none(at: usize) -> Worded
    ensures { result ≡ worded 0 at }
{
    Worded {
        word: NOTHING,
        next: at,
    }
}

// The word of the local whose number stands at `at`, whatever it holds.
pub fn local(t: &[u8], words: &[u64], base: usize, at: usize) -> u64
    requires { LocalAt t.now words.now base at }
    ensures { result ≡ get_or words.now (base + get_or t.now at 0) 0 }
{
    words[base + table::byte(t, at)]
}

// The word of the number that stands there.
pub fn number(t: &[u8], at: usize) -> u64
    requires { at + 4 ≤ length t.now }
    ensures { NumberAt t.now at result }
{
    KIND + (table::four(t, at) as u64)
}

// That of the location.
fn location(t: &[u8], at: usize) -> u64
    requires { at + 2 ≤ length t.now }
    ensures { LocationAt t.now at result }
{
    FIRST_LOCATION + (table::two(t, at) as u64)
}

// A word that shows by itself that it holds a number or a location, or NOTHING.
fn shown(w: u64) -> u64
    ensures { Shown w result }
{
    if w < KIND {
        return NOTHING;
    }
    if w < PAST {
        return w;
    }
    NOTHING
}

// A leaf.
pub fn leaf(t: &[u8], words: &[u64], base: usize, at: usize) -> Worded
    requires { Standing t.now words.now base at }
    ensures { Sure t.now words.now base at result }
{
    match t[at] {
        LOCAL => Worded {
            word: shown(local(t, words, base, at + 1)),
            next: at + 2,
        },
        marks::NUMBER => Worded {
            word: number(t, at + 1),
            next: at + 5,
        },
        marks::PLACE => Worded {
            word: location(t, at + 1),
            next: at + 3,
        },
        marks::FALSE => Worded {
            word: FALSE,
            next: at + 1,
        },
        marks::TRUE => Worded {
            word: TRUE,
            next: at + 1,
        },
        _ => none(at),
    }
}

// A local, whatever it holds, or a number.
fn short(t: &[u8], words: &[u64], base: usize, at: usize) -> Worded
    requires { Standing t.now words.now base at }
    ensures { Words t.now words.now base at result }
{
    match t[at] {
        LOCAL => Worded {
            word: local(t, words, base, at + 1),
            next: at + 2,
        },
        marks::NUMBER => Worded {
            word: number(t, at + 1),
            next: at + 5,
        },
        _ => none(at),
    }
}

// An operator on two of these.
fn pair(t: &[u8], words: &[u64], base: usize, at: usize) -> Worded
    requires { Standing t.now words.now base at × (6 ≤ get_or t.now at 0) }
    ensures { Sure t.now words.now base at result }
{
    let mark = t[at];
    if mark >= SINGLE {
        return none(at);
    }
    let a = short(t, words, base, at + 1);
    if a.word == NOTHING {
        return none(at);
    }
    let b = short(t, words, base, a.next);
    Worded {
        word: operate(mark, a.word, b.word),
        next: b.next,
    }
}

// A local, a number, or an operator on two.
fn operand(t: &[u8], words: &[u64], base: usize, at: usize) -> Worded
    requires { Standing t.now words.now base at }
    ensures { Words t.now words.now base at result }
{
    if t[at] < LEAVES {
        short(t, words, base, at)
    } else {
        pair(t, words, base, at)
    }
}

// An operator on two of these.
fn nested(t: &[u8], words: &[u64], base: usize, at: usize) -> Worded
    requires { Standing t.now words.now base at × (6 ≤ get_or t.now at 0) × (get_or t.now at 0 < 22) }
    ensures { Sure t.now words.now base at result }
{
    let mark = t[at];
    let a = operand(t, words, base, at + 1);
    if a.word == NOTHING {
        return none(at);
    }
    let b = operand(t, words, base, a.next);
    Worded {
        word: operate(mark, a.word, b.word),
        next: b.next,
    }
}

// An operator's expression. "op 05 x 01 n", the most frequent one, has code of its own where it is asked for.
pub fn operation(t: &[u8], words: &[u64], base: usize, at: usize) -> Worded
    requires { Standing t.now words.now base at × (6 ≤ get_or t.now at 0) }
    ensures { Sure t.now words.now base at result }
{
    let mark = t[at];
    if mark >= SINGLE {
        return none(at);
    }
    if t[at + 1] == LOCAL {
        if t[at + 3] == marks::NUMBER {
            return Worded {
                word: operate(mark, local(t, words, base, at + 2), number(t, at + 4)),
                next: at + 8,
            };
        }
    }
    nested(t, words, base, at)
}

// Any expression.
pub fn expression(t: &[u8], words: &[u64], base: usize, at: usize) -> Worded
    requires { Standing t.now words.now base at }
    ensures { Sure t.now words.now base at result }
{
    match t[at] {
        LOCAL => Worded {
            word: shown(local(t, words, base, at + 1)),
            next: at + 2,
        },
        marks::NUMBER => Worded {
            word: number(t, at + 1),
            next: at + 5,
        },
        marks::PLACE => Worded {
            word: location(t, at + 1),
            next: at + 3,
        },
        marks::FALSE => Worded {
            word: FALSE,
            next: at + 1,
        },
        marks::TRUE => Worded {
            word: TRUE,
            next: at + 1,
        },
        marks::NOT => none(at),
        marks::NEGATE => none(at),
        _ => nested(t, words, base, at),
    }
}

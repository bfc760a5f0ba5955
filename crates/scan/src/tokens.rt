// The code part of a table as a flat row of tokens: each mark with the numbers that follow it.
ghost use Rattle.std.specs.Prelude.{◌≡◌, ◌+◌, ◌<◌, length, get_or};
ghost use Rattle.scan.specs.Tokens.{two_at, token_at, size_of, size_at};

use basics::{bytes, numbers};

// What a mark begins. A truth value, a whole number or an operator names nothing: it is plain.
#[derive(Clone, Copy)]
pub enum Token {
    Stop,
    Plain,
    Location(usize),
    Local(usize),
    Assign(usize),
    Write(usize),
    Read(usize, usize),
    While,
    If,
    Call(usize, usize),
    Atomic,
    Select(usize, usize),
}

// The byte at a place; 0 past the end.
pub fn byte_at(t: &[u8], i: usize) -> usize
    ensures { (result ≡ get_or t.now i 0) × (result < 256) }
{
    usize::from(bytes::byte_at(t, i))
}

// The number of the two bytes at a place, low byte first.
fn two_at(t: &[u8], i: usize) -> usize
    ensures { (result ≡ two_at t.now i) × (result < 65536) }
{
    usize::from(bytes::two_bytes(t, i))
}

// The token whose mark stands at a place.
#[tactic(auto, using(crate::specs::Laws::Tokens::token_ways))]
pub fn token_at(t: &[u8], i: usize) -> Token
    requires { i < length t.now }
    ensures { result ≡ token_at t.now i }
{
    match t[i] {
        numbers::END => Token::Stop,
        numbers::LOCATION => Token::Location(two_at(t, i + 1)),
        numbers::LOCAL => Token::Local(byte_at(t, i + 1)),
        numbers::ASSIGN => Token::Assign(byte_at(t, i + 1)),
        numbers::WRITE => Token::Write(byte_at(t, i + 1)),
        numbers::READ => Token::Read(byte_at(t, i + 1), byte_at(t, i + 2)),
        numbers::WHILE => Token::While,
        numbers::IF => Token::If,
        numbers::CALL => Token::Call(two_at(t, i + 1), byte_at(t, i + 3)),
        numbers::ATOMIC => Token::Atomic,
        numbers::SELECT => Token::Select(two_at(t, i + 1), two_at(t, i + 3)),
        _ => Token::Plain,
    }
}

// How many bytes a token has, by its mark 00 to 27.
const TOKEN_BYTES: [u8; 40] = [
    1, 5, 3, 1, 1, 2, 1, 1, 1, 1, 1, 1, 1, 1, 1, 1, 1, 1, 1, 1, 1, 1, 1, 1, 1, 1, 1, 1, 1, 1, 1, 1,
    2, 2, 3, 1, 1, 4, 1, 5,
];

// And by any mark.
#[tactic(auto, using(crate::specs::Laws::Tokens::sizes_listed))]
fn size_of(mark: u8) -> usize
    ensures { (result ≡ size_of mark) × (result < 256) }
{
    usize::from(TOKEN_BYTES.get(usize::from(mark)).copied().unwrap_or(1))
}

// Where the token after the one at a place begins.
#[tactic(auto, unfolding(crate::specs::Tokens::size_at))]
pub fn token_end(t: &[u8], i: usize) -> usize
    requires { i < length t.now }
    ensures { result ≡ i + size_at t.now i }
{
    i + size_of(t[i])
}

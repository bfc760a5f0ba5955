// What can be called, by the numbers that requests and lines have for it.
#[derive(Clone, Copy, PartialEq, Eq)]
pub enum Call {
    ReadConcurrent = 1,
    ReadSequential = 2,
    Translate = 3,
    RunConcurrent = 4,
    RunSequential = 5,
    RunProgram = 6,
    Bench = 7,
    Prices = 8,
    Print = 9,
    ReadText = 10,
    Mend = 11,
    RunPlain = 12,
    Greeting = 90,
}

// The number of no call.
#[derive(Clone, Copy)]
pub struct NoCall;

impl TryFrom<u8> for Call {
    type Error = NoCall;

    fn try_from(number: u8) -> Result<Call, NoCall> {
        Ok(match number {
            1 => Call::ReadConcurrent,
            2 => Call::ReadSequential,
            3 => Call::Translate,
            4 => Call::RunConcurrent,
            5 => Call::RunSequential,
            6 => Call::RunProgram,
            7 => Call::Bench,
            8 => Call::Prices,
            9 => Call::Print,
            10 => Call::ReadText,
            11 => Call::Mend,
            12 => Call::RunPlain,
            90 => Call::Greeting,
            _ => return Err(NoCall),
        })
    }
}

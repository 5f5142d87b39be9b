// What each question refuses, by the question's number. The questions of a run, 16 to 25, get their
// refusals with the runner.
ghost use Rattle.std.specs.Prelude.{◌≡◌};
ghost use Rattle.script.specs.Faults.{fault, answer};
ghost use Rattle.script.specs.Refusals.{number_of, IsRefusalOf};

use crate::fault::Fault;
use std::error::Error;
use std::fmt;

#[derive(Clone, Copy, PartialEq, Eq, Debug)]
pub enum Refusal {
    // reading a script
    TextTooLong = 1,
    UnknownByte = 2,
    TokenTooLarge = 3,
    TooManyTokens = 4,
    TooDeep = 5,
    NotAScript = 6,
    TooManyNames = 7,
    DeclaredTwice = 8,
    Undeclared = 9,
    ReadIntoCell = 10,
    OutOfRange = 11,
    TooManySteps = 12,
    // accepting it
    StaleUse = 13,
    // memories
    NoSuchCell = 26,
    OpenAlready = 27,
    NotOpen = 28,
    TooManyValues = 29,
    // the tables of hosts, and hosts
    WrongRowCount = 30,
    TooManySamples = 31,
    SampleOutOfRange = 32,
    TickFalls = 33,
    NoSuchChannel = 34,
    TickTooLarge = 35,
}

impl Refusal {
    pub fn number(self) -> u8
        ensures { result ≡ number_of self }
    {
        self as u8
    }

    // The fault that says so of a place.
    pub fn at(self, place: usize) -> Fault
        ensures { result ≡ fault (number_of self) place }
    {
        Fault::new(self.number(), place)
    }

    // What the question answers: nothing to refuse, or the fault at the place that it refuses.
    pub fn answer(self, place: Option<usize>) -> Result<(), Fault>
        ensures { result ≡ answer (number_of self) place }
    {
        match place {
            Some(place) => Err(self.at(place)),
            None => Ok(()),
        }
    }
}

// A number that no refusal has here.
#[derive(Clone, Copy, PartialEq, Eq, Debug)]
pub struct UnknownNumber(pub u8);

impl fmt::Display for UnknownNumber {
    fn fmt<W: fmt::Write>(&self, f: &mut fmt::Formatter<W>) -> fmt::Result {
        write!(f, "no refusal here has the number {}", self.0)
    }
}

impl Error for UnknownNumber {}

impl TryFrom<u8> for Refusal {
    type Error = UnknownNumber;

    ghost try_from_gives = { IsRefusalOf };

    // A match, since no derive goes from a number to its case.
    fn try_from(number: u8) -> Result<Refusal, UnknownNumber> {
        match number {
            1 => Ok(Refusal::TextTooLong),
            2 => Ok(Refusal::UnknownByte),
            3 => Ok(Refusal::TokenTooLarge),
            4 => Ok(Refusal::TooManyTokens),
            5 => Ok(Refusal::TooDeep),
            6 => Ok(Refusal::NotAScript),
            7 => Ok(Refusal::TooManyNames),
            8 => Ok(Refusal::DeclaredTwice),
            9 => Ok(Refusal::Undeclared),
            10 => Ok(Refusal::ReadIntoCell),
            11 => Ok(Refusal::OutOfRange),
            12 => Ok(Refusal::TooManySteps),
            13 => Ok(Refusal::StaleUse),
            26 => Ok(Refusal::NoSuchCell),
            27 => Ok(Refusal::OpenAlready),
            28 => Ok(Refusal::NotOpen),
            29 => Ok(Refusal::TooManyValues),
            30 => Ok(Refusal::WrongRowCount),
            31 => Ok(Refusal::TooManySamples),
            32 => Ok(Refusal::SampleOutOfRange),
            33 => Ok(Refusal::TickFalls),
            34 => Ok(Refusal::NoSuchChannel),
            35 => Ok(Refusal::TickTooLarge),
            _ => Err(UnknownNumber(number)),
        }
    }
}

impl fmt::Display for Refusal {
    fn fmt<W: fmt::Write>(&self, f: &mut fmt::Formatter<W>) -> fmt::Result {
        f.write_str(match self {
            Refusal::TextTooLong => "the script is longer than 8192 bytes",
            Refusal::UnknownByte => "this byte is neither a blank nor part of a token",
            Refusal::TokenTooLarge => {
                "a name has at most 24 bytes, and a number is at most 2147483647"
            }
            Refusal::TooManyTokens => "a script has at most 2048 tokens",
            Refusal::TooDeep => {
                "more than 16 braces and parentheses are open here, or this one closes what was never opened"
            }
            Refusal::NotAScript => "no script has this here",
            Refusal::TooManyNames => "a script has at most 64 cells and 64 locals",
            Refusal::DeclaredTwice => "this name is declared already",
            Refusal::Undeclared => "this name is not declared",
            Refusal::ReadIntoCell => "a reading goes to a local, and this is a cell",
            Refusal::OutOfRange => "a repeat count is from 1 to 1000, and a channel from 0 to 15",
            Refusal::TooManySteps => "a script takes at most 1000000 steps and 4096 readings",
            Refusal::StaleUse => "a reading behind this use may be from before a power failure",
            Refusal::NoSuchCell => "there is no such cell",
            Refusal::OpenAlready => "the memory is open already",
            Refusal::NotOpen => "the memory is not open",
            Refusal::TooManyValues => "a memory has at most 64 cells",
            Refusal::WrongRowCount => "a drift table has 1 to 16 rows",
            Refusal::TooManySamples => "a trace has at most 1024 samples",
            Refusal::SampleOutOfRange => {
                "a tick is at most 2000000000, and a channel from 0 to 15"
            }
            Refusal::TickFalls => "this tick is below the one before it",
            Refusal::NoSuchChannel => "there is no such channel",
            Refusal::TickTooLarge => "a tick is at most 2000000000",
        })
    }
}

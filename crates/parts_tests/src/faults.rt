//! The texts of errors.

use acts::{Fault, Id};
use memory::NoMemory;
use std::alloc::Allocator;
use tables::{Answers, number};

/// The table of errors, each by its place.
pub struct Faults;

impl Answers for Faults {
    fn answer<A: Allocator + Copy>(
        &self,
        row: &[Vec<u8>],
        answer: &mut Vec<u8, A>,
    ) -> Result<(), NoMemory> {
        let [place] = row else {
            return Ok(());
        };
        let place = number(place);
        let alloc = *answer.allocator();
        let Some(fault) = fault_at(alloc, place)? else {
            return Ok(());
        };
        let text = fault.text(alloc)?;
        if place_of(&fault) == place && !is_said_before(alloc, place, &text)? {
            answer.extend_from_slice(&text)?;
        }
        Ok(())
    }
}

/// Whether an error before this place has the same text.
fn is_said_before<A: Allocator + Copy>(
    alloc: A,
    place: u64,
    text: &[u8],
) -> Result<bool, NoMemory> {
    for other in 0..place {
        if let Some(fault) = fault_at(alloc, other)? {
            if fault.text(alloc)?.as_slice() == text {
                return Ok(true);
            }
        }
    }
    Ok(false)
}

/// The place of an error. A new one needs a place of its own, and a row.
fn place_of<A: Allocator>(fault: &Fault<A>) -> u64 {
    match fault {
        Fault::ListOpenBrace => 0,
        Fault::ListOpenQuote => 1,
        Fault::ListAfterBrace => 2,
        Fault::ListAfterQuote => 3,
        Fault::EscapeNotHere => 4,
        Fault::PatternTooLong => 5,
        Fault::OpenBrace => 6,
        Fault::OpenBracket => 7,
        Fault::OpenQuote => 8,
        Fault::AfterBrace => 9,
        Fault::AfterQuote => 10,
        Fault::TooDeep => 11,
        Fault::BadVariable => 12,
        Fault::BadExpression => 13,
        Fault::DivideByZero => 14,
        Fault::OutOfRange => 15,
        Fault::NegativeShift => 16,
        Fault::BadSize => 17,
        Fault::TooManyIds => 18,
        Fault::MissingWord => 19,
        Fault::RegexNotHere => 20,
        Fault::BreakOutside => 21,
        Fault::ContinueOutside => 22,
        Fault::AgainOutside => 23,
        Fault::TooManyNested => 24,
        Fault::NotOpen(None) => 25,
        Fault::SendFailed { .. } => 26,
        Fault::NoVariable(_) => 27,
        Fault::IsArray(_) => 28,
        Fault::NotArray(_) => 29,
        Fault::NoElement(_) => 30,
        Fault::NotANumber(_) => 31,
        Fault::NotATruth(_) => 32,
        Fault::NotOpen(Some(_)) => 33,
        Fault::BadFlag(_) => 34,
        Fault::CannotExecute(_) => 35,
        Fault::CannotOpenLog(_) => 36,
        Fault::NoChannel(_) => 37,
        Fault::InvalidCommand(_) => 38,
        Fault::NotInProfile(_) => 39,
        Fault::WrongArgs(_) => 40,
        Fault::CannotConnect { .. } => 41,
        Fault::BadArgument { .. } => 42,
    }
}

/// The error at a place, if there is one: the names in it are `a(i)` and, of commands and hosts,
/// `cmd`.
fn fault_at<A: Allocator + Copy>(alloc: A, place: u64) -> Result<Option<Fault<A>>, NoMemory> {
    if place < 27 {
        return Ok(plain_fault(place));
    }
    if place < 38 {
        return Ok(naming_fault(Vec::from_slice(alloc, b"a(i)")?, place));
    }
    let command = Vec::from_slice(alloc, b"cmd")?;
    if place == 42 {
        let word = Vec::from_slice(alloc, b"a(i)")?;
        return Ok(Some(Fault::BadArgument { word, command }));
    }
    Ok(command_fault(command, place))
}

/// The error at a place, if it is one that names nothing.
fn plain_fault<A: Allocator>(place: u64) -> Option<Fault<A>> {
    Some(match place {
        0 => Fault::ListOpenBrace,
        1 => Fault::ListOpenQuote,
        2 => Fault::ListAfterBrace,
        3 => Fault::ListAfterQuote,
        4 => Fault::EscapeNotHere,
        5 => Fault::PatternTooLong,
        6 => Fault::OpenBrace,
        7 => Fault::OpenBracket,
        8 => Fault::OpenQuote,
        9 => Fault::AfterBrace,
        10 => Fault::AfterQuote,
        11 => Fault::TooDeep,
        12 => Fault::BadVariable,
        13 => Fault::BadExpression,
        14 => Fault::DivideByZero,
        15 => Fault::OutOfRange,
        16 => Fault::NegativeShift,
        17 => Fault::BadSize,
        18 => Fault::TooManyIds,
        19 => Fault::MissingWord,
        20 => Fault::RegexNotHere,
        21 => Fault::BreakOutside,
        22 => Fault::ContinueOutside,
        23 => Fault::AgainOutside,
        24 => Fault::TooManyNested,
        25 => Fault::NotOpen(None),
        26 => Fault::SendFailed { id: Id(4), sent: 0 },
        _ => return None,
    })
}

/// The error at a place, if it is one that names a word.
fn naming_fault<A: Allocator>(word: Vec<u8, A>, place: u64) -> Option<Fault<A>> {
    Some(match place {
        27 => Fault::NoVariable(word),
        28 => Fault::IsArray(word),
        29 => Fault::NotArray(word),
        30 => Fault::NoElement(word),
        31 => Fault::NotANumber(word),
        32 => Fault::NotATruth(word),
        33 => Fault::NotOpen(Some(word)),
        34 => Fault::BadFlag(word),
        35 => Fault::CannotExecute(word),
        36 => Fault::CannotOpenLog(word),
        37 => Fault::NoChannel(word),
        _ => return None,
    })
}

/// The error at a place, if it is one that names a command or a host.
fn command_fault<A: Allocator>(name: Vec<u8, A>, place: u64) -> Option<Fault<A>> {
    Some(match place {
        38 => Fault::InvalidCommand(name),
        39 => Fault::NotInProfile(name),
        40 => Fault::WrongArgs(name),
        41 => Fault::CannotConnect {
            host: name,
            port: 7,
        },
        _ => return None,
    })
}

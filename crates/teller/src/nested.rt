//! Which scripts of a code are in progress at a place of it, and which of their commands, by the
//! instructions around that place.

use acts::NoMemory;
use code::Instruction;
use expects::form::Form;
use std::alloc::Allocator;
use tcltext::{Value, split_values};

/// How a script stands in a code.
#[derive(Drop)]
pub(crate) enum Stands<A: Allocator> {
    /// It is the whole code.
    Whole,
    /// In brackets, in a word of a command.
    Bracket,
    /// In brackets, in a formula that is a word.
    Formula,
    /// In brackets, in a word of an argument in braces, where that is known (expect(1), expect).
    Argument(Option<Value<A>>),
    /// It is a word of a command, where that is known, and whether white space around it is left
    /// out (eval(n)).
    Body(Option<Value<A>>, bool),
}

/// A script in progress.
#[derive(Drop)]
pub(crate) struct Level<A: Allocator> {
    pub stands: Stands<A>,
    /// How many bytes its text has from its command in progress on, if one has begun.
    pub command: Option<usize>,
    /// The same of the command after that, if there is one.
    pub next: Option<usize>,
    /// Where the instruction stands by which the command has its own code, if it has.
    own: Option<usize>,
}

impl<A: Allocator> Level<A> {
    /// A script of which no command has begun.
    fn new(stands: Stands<A>) -> Level<A> {
        Level {
            stands,
            command: None,
            next: None,
            own: None,
        }
    }
}

/// The scripts that are in progress right before a place of a code, the outermost first.
///
/// # Errors
/// `NoMemory`.
pub(crate) fn levels_at<A: Allocator + Copy>(
    alloc: A,
    code: &[Instruction<A>],
    place: usize,
) -> Result<Vec<Level<A>, A>, NoMemory> {
    let (before, after) = code.split_at(place.min(code.len()));
    let mut levels = Vec::new(alloc);
    levels.push(Level::new(Stands::Whole))?;
    for (at, it) in before.iter().enumerate() {
        pass(alloc, code, &mut levels, at, it)?;
    }
    look_ahead(&mut levels, after);
    Ok(levels)
}

/// Passes an instruction, which stands at this place.
fn pass<A: Allocator + Copy>(
    alloc: A,
    code: &[Instruction<A>],
    levels: &mut Vec<Level<A>, A>,
    at: usize,
    it: &Instruction<A>,
) -> Result<(), NoMemory> {
    match it {
        Instruction::Next(from_end) => {
            if let Some(level) = levels.last_mut() {
                level.command = Some(*from_end);
                level.own = None;
            }
        }
        Instruction::Unhidden(_, _)
        | Instruction::Foreach(_, _, _)
        | Instruction::Switch(_, _, _) => {
            if let Some(level) = levels.last_mut() {
                level.own = Some(at);
            }
        }
        Instruction::Enter => {
            let stands = bracket_in(code, own_of(levels))?;
            levels.push(Level::new(stands))?;
        }
        Instruction::Body(after) => {
            let stands = body_in(alloc, code, own_of(levels), *after)?;
            levels.push(Level::new(stands))?;
        }
        Instruction::Leave => {
            let _ = levels.pop();
        }
        _ => {}
    }
    Ok(())
}

/// Where the instruction stands by which the innermost command has its own code, if it has.
fn own_of<A: Allocator>(levels: &[Level<A>]) -> Option<usize> {
    levels.last()?.own
}

/// How a script in brackets stands: in a word, but for one in the formula of a command, or in its
/// argument in braces.
fn bracket_in<A: Allocator>(
    code: &[Instruction<A>],
    own: Option<usize>,
) -> Result<Stands<A>, NoMemory> {
    let Some(at) = own else {
        return Ok(Stands::Bracket);
    };
    match code.get(at) {
        Some(Instruction::Unhidden(name, _)) if Form::read(name.as_slice()).is_some() => {
            let argument = word_in(code.get(at..).unwrap_or(&[]), 0);
            Ok(Stands::Argument(shared(argument)?))
        }
        Some(Instruction::Unhidden(_, _)) => Ok(Stands::Formula),
        Some(_) | None => Ok(Stands::Bracket),
    }
}

/// How a body stands, after which so many words of its command stand.
fn body_in<A: Allocator + Copy>(
    alloc: A,
    code: &[Instruction<A>],
    own: Option<usize>,
    after: usize,
) -> Result<Stands<A>, NoMemory> {
    let Some(at) = own else {
        return Ok(Stands::Body(None, false));
    };
    match code.get(at) {
        Some(Instruction::Unhidden(name, _)) => {
            let word = word_in(code.get(at..).unwrap_or(&[]), after);
            let trimmed = name.as_slice() == b"eval".as_slice();
            Ok(Stands::Body(shared(word)?, trimmed))
        }
        Some(Instruction::Foreach(_, body, _)) => Ok(Stands::Body(Some(body.share()?), false)),
        Some(Instruction::Switch(_, words, _)) => {
            Ok(Stands::Body(arm_in(alloc, words, after)?, false))
        }
        Some(_) | None => Ok(Stands::Body(None, false)),
    }
}

/// The word of a command after which so many stand, where the texts of its words follow the first
/// instruction.
fn word_in<A: Allocator>(code: &[Instruction<A>], after: usize) -> Option<&Value<A>> {
    let words = code
        .iter()
        .skip(1)
        .take_while(|it| matches!(it, Instruction::Text(_)))
        .count();
    match code.get(words.checked_sub(after)?)? {
        Instruction::Text(text) => Some(text),
        _ => None,
    }
}

/// The body of a `switch` with these words after its string, after which so many patterns and
/// bodies stand.
fn arm_in<A: Allocator + Copy>(
    alloc: A,
    words: &[Value<A>],
    after: usize,
) -> Result<Option<Value<A>>, NoMemory> {
    if let [list] = words {
        return match split_values(alloc, list.as_slice()) {
            Ok(arms) => shared(before_last(&arms, after)),
            Err(_) => Ok(None),
        };
    }
    shared(before_last(words, after))
}

/// The text after which so many stand.
fn before_last<A: Allocator>(texts: &[Value<A>], after: usize) -> Option<&Value<A>> {
    texts.get(texts.len().checked_sub(after)?.checked_sub(1)?)
}

/// A text that is shared, where there is one.
fn shared<A: Allocator>(text: Option<&Value<A>>) -> Result<Option<Value<A>>, NoMemory> {
    match text {
        Some(text) => Ok(Some(text.share()?)),
        None => Ok(None),
    }
}

/// Finds for each script in progress the command after that in progress, in the code that follows.
fn look_ahead<A: Allocator>(levels: &mut [Level<A>], after: &[Instruction<A>]) {
    // how many scripts are open, and how many of those in progress still are
    let mut open = levels.len();
    let mut left = open;
    for it in after {
        match it {
            Instruction::Enter | Instruction::Body(_) => open = open.saturating_add(1),
            Instruction::Leave => {
                open = open.saturating_sub(1);
                left = left.min(open);
            }
            Instruction::Next(from_end) if open == left => {
                if let Some(level) = levels.get_mut(left.saturating_sub(1)) {
                    level.next = level.next.or(Some(*from_end));
                }
            }
            _ => {}
        }
    }
}

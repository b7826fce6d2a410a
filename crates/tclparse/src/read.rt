//! The readers of words and commands: one pass over the text, from left to right.

ghost use Rattle.std.specs.Prelude.{◌≡◌, ℕ, ◌<◌, ◌≤◌, length, [], false, true, IfOk, OnOk, Ok, Err};
ghost use Rattle.tclparse.specs.Tree.{Parts, no_parts, element, Words, Commands, no_commands, bytes_then};
ghost use Rattle.tclparse.specs.View.{part_view, parts_then, words_then, commands_then};
ghost use Rattle.tclparse.specs.Normal.{other, form_of, is_normal_word, AreNormalParts, AreNormalWords, AreNormalCommand, AreNormalCommands, EndsLiteral};
ghost use Rattle.tclparse.specs.Context.{ends_script, ends_command, ends_word};
ghost use Rattle.tclparse.specs.Piece.{ends_parts};
ghost use Rattle.tclparse.specs.Seen.{context_of, place_of};
ghost use Rattle.tclparse.specs.Reads.{ReadsParts, ReadsElement, ReadsBracket, ReadsBraced, ReadsBody, ReadsWord, ReadsWords, ReadsTo};

use crate::braces::fold_lines;
use crate::context::{Context, ends_command, ends_script, ends_word};
use crate::error::ReadError;
use crate::fault::Fault;
use crate::gap::{skip_gap, skip_white};
use crate::piece::{Piece, Place, next};
use crate::shared::{Shared, shared};
use crate::tree::{Command, Part, Word};
use crate::word::{Opening, close_bracket, close_index, close_quotes, open_word, split_prefix};
use memory::NoMemory;
use std::alloc::Allocator;
use tcltext::{Value, braces};

/// How many brackets and variable indexes may be open at one place.
pub const MAX_OPEN: u32 = 100;

// Turns the literal bytes read so far, if there are any, into one more part.
fn end_literal<A: Allocator + Copy>(
    alloc: A,
    parts: &mut Vec<Part<A>, A>,
    literal: &mut Vec<u8, A>,
) -> Result<(), NoMemory>
    ensures empty { OnOk result (literal.new.items ≡ []) }
    ensures parts { OnOk result ((t : Parts)
        → parts_then parts.new.items t ≡ parts_then parts.old.items
        (bytes_then literal.old.items t)) }
    ensures forms { OnOk result (EndsLiteral parts.old.items parts.new.items) }
{
    if !literal.is_empty() {
        let value = Value::word(alloc, literal)?;
        parts.push(Part::Literal(value))?;
        literal.clear();
    }
    Ok(())
}

/// The parts that stand for exactly this value: one literal, or none where it is empty.
pub(crate) fn literal_parts<A: Allocator + Copy>(
    alloc: A,
    value: Value<A>,
) -> Result<Shared<Part<A>, A>, NoMemory>
    ensures parts { IfOk result (λ ps. (t : Parts)
        → parts_then ps.value.items t ≡ bytes_then value t) }
    ensures normal { IfOk result (λ ps. AreNormalParts ps) }
{
    if value.as_slice().is_empty() {
        return shared(alloc, Vec::new(alloc));
    }
    let mut parts = Vec::new(alloc);
    parts.push(Part::Literal(value))?;
    shared(alloc, parts)
}

/// The element of the array of that name whose index is these bytes themselves.
pub(crate) fn literal_element<A: Allocator + Copy>(
    alloc: A,
    name: &[u8],
    index: &[u8],
) -> Result<Part<A>, NoMemory>
    ensures part { IfOk result (λ p. (t : Parts)
        → part_view p t ≡ element name.now (bytes_then index.now no_parts) t) }
    ensures normal { IfOk result (λ p. form_of p ≡ other) }
{
    let name = Value::from_slice(alloc, name)?;
    let index = literal_parts(alloc, Value::from_slice(alloc, index)?)?;
    Ok(Part::Element(name, index))
}

// The parts of a word in braces, its open brace already read, and the text after the word.
fn read_braces<A: Allocator + Copy>(
    alloc: A,
    context: Context,
    text: &[u8],
) -> Result<(Shared<Part<A>, A>, &[u8]), ReadError>
    ensures tree { ReadsBraced (context_of context) text.now result }
    ensures normal { IfOk result (λ r. AreNormalParts r.0) }
    ensures shorter { IfOk result (λ r. length r.1.now ≤ length text.now) }
{
    let Some((content, rest)) = braces::split(text) else {
        return Err(ReadError::Fault(Fault::OpenBrace));
    };
    if !ends_word(context, rest) {
        return Err(ReadError::Fault(Fault::AfterBrace));
    }
    let bytes = fold_lines(alloc, content)?;
    let value = Value::new(alloc, bytes)?;
    let parts = literal_parts(alloc, value)?;
    Ok((parts, rest))
}

/// The parts of a word up to the end of their place, and the text from that end on. At most `depth`
/// more brackets and indexes may be open.
#[cycle(read)]
pub(crate) fn read_parts<A: Allocator + Copy>(
    alloc: A,
    place: Place,
    depth: u32,
    text: &[u8],
) -> Result<(Shared<Part<A>, A>, &[u8]), ReadError>
    ensures tree { ReadsParts (place_of place) depth text.now result }
    ensures normal { IfOk result (λ r. AreNormalParts r.0) }
    ensures shorter { IfOk result (λ r. length r.1.now ≤ length text.now) }
    ensures moves { ends_parts (place_of place) text.now ≡ false
        → IfOk result (λ r. length r.1.now < length text.now) }
{
    let mut parts = Vec::new(alloc);
    let mut literal = Vec::new(alloc);
    let mut bytes = text;
    loop {
        let (part, rest) = match next(place, depth, bytes) {
            Piece::End => {
                end_literal(alloc, &mut parts, &mut literal)?;
                let parts = shared(alloc, parts)?;
                return Ok((parts, bytes));
            }
            Piece::Fault(fault) => return Err(ReadError::Fault(fault)),
            Piece::Byte(c, rest) => {
                literal.push(c)?;
                bytes = rest;
                continue;
            }
            Piece::Name(name, rest) => (Part::Variable(Value::from_slice(alloc, name)?), rest),
            Piece::Index(name, inner) => read_element(alloc, depth - 1, name, inner)?,
            Piece::Element(name, index, rest) => (literal_element(alloc, name, index)?, rest),
            Piece::Bracket(inner) => read_bracket(alloc, depth - 1, inner)?,
        };
        end_literal(alloc, &mut parts, &mut literal)?;
        parts.push(part)?;
        bytes = rest;
    }
}

/// The element of the array of that name whose index the text begins with, its open parenthesis
/// already read, and the text after the closing parenthesis.
#[cycle(read)]
pub(crate) fn read_element<'a, A: Allocator + Copy>(
    alloc: A,
    depth: u32,
    name: &[u8],
    text: &'a [u8],
) -> Result<(Part<A>, &'a [u8]), ReadError>
    ensures tree { ReadsElement name.now depth text.now result }
    ensures normal { IfOk result (λ r. form_of r.0 ≡ other) }
    ensures shorter { IfOk result (λ r. length r.1.now ≤ length text.now) }
{
    let name = Value::from_slice(alloc, name)?;
    let (index, end) = read_parts(alloc, Place::Index, depth, text)?;
    let rest = close_index(end)?;
    Ok((Part::Element(name, index), rest))
}

/// The script that the text begins with, its open bracket already read, and the text after the
/// closing bracket.
#[cycle(read)]
pub(crate) fn read_bracket<A: Allocator + Copy>(
    alloc: A,
    depth: u32,
    text: &[u8],
) -> Result<(Part<A>, &[u8]), ReadError>
    ensures tree { ReadsBracket depth text.now result }
    ensures normal { IfOk result (λ r. form_of r.0 ≡ other) }
    ensures shorter { IfOk result (λ r. length r.1.now ≤ length text.now) }
{
    let (commands, end) = read_commands(alloc, Context::Brackets, depth, text)?;
    let rest = close_bracket(end?)?;
    Ok((Part::Bracket(commands), rest))
}

// The parts of a word from which the prefix `{*}` was removed, and the text after the word.
#[cycle(read)]
fn read_body<A: Allocator + Copy>(
    alloc: A,
    context: Context,
    depth: u32,
    text: &[u8],
) -> Result<(Shared<Part<A>, A>, &[u8]), ReadError>
    requires { ends_word (context_of context) text.now ≡ false }
    ensures tree { ReadsBody (context_of context) depth text.now result }
    ensures normal { IfOk result (λ r. AreNormalParts r.0) }
    ensures shorter { IfOk result (λ r. length r.1.now < length text.now) }
{
    match open_word(text) {
        Opening::Braces(inner) => read_braces(alloc, context, inner),
        Opening::Quotes(inner) => {
            let (parts, end) = read_parts(alloc, Place::Quotes, depth, inner)?;
            let rest = close_quotes(context, end)?;
            Ok((parts, rest))
        }
        Opening::Bare => read_parts(alloc, Place::Bare(context), depth, text),
    }
}

#[cycle(read)]
fn read_word<A: Allocator + Copy>(
    alloc: A,
    context: Context,
    depth: u32,
    text: &[u8],
) -> Result<(Word<A>, &[u8]), ReadError>
    requires { ends_word (context_of context) text.now ≡ false }
    ensures tree { ReadsWord (context_of context) depth text.now result }
    ensures normal { IfOk result (λ r. is_normal_word r.0 ≡ true) }
    ensures shorter { IfOk result (λ r. length r.1.now < length text.now) }
{
    let (expands, body) = split_prefix(context, text);
    let (parts, rest) = read_body(alloc, context, depth, body)?;
    Ok((Word { expands, parts }, rest))
}

/// The words of one command up to its end, and the text from that end on.
#[cycle(read)]
pub(crate) fn read_words<A: Allocator + Copy>(
    alloc: A,
    context: Context,
    depth: u32,
    text: &[u8],
) -> Result<(Shared<Word<A>, A>, &[u8]), ReadError>
    requires begins { ends_word (context_of context) text.now
        ≡ ends_command (context_of context) text.now }
    ensures tree { ReadsWords (context_of context) depth text.now result }
    ensures normal { IfOk result (λ r. AreNormalWords r.0) }
    ensures command { ends_command (context_of context) text.now ≡ false
        → IfOk result (λ r. AreNormalCommand r.0) }
    ensures shorter { IfOk result (λ r. length r.1.now ≤ length text.now) }
    ensures moves { ends_command (context_of context) text.now ≡ false
        → IfOk result (λ r. length r.1.now < length text.now) }
    ensures ends { IfOk result (λ r. ends_command (context_of context) r.1.now ≡ true) }
{
    let mut words = Vec::new(alloc);
    let mut bytes = text;
    while !ends_command(context, bytes) {
        let (word, rest) = read_word(alloc, context, depth, bytes)?;
        words.push(word)?;
        bytes = skip_white(context, rest);
    }
    let words = shared(alloc, words)?;
    Ok((words, bytes))
}

/// The commands of a script up to its end or first fault, and the text from that end on or that
/// fault.
#[cycle(read)]
pub(crate) fn read_commands<A: Allocator + Copy>(
    alloc: A,
    context: Context,
    depth: u32,
    text: &[u8],
) -> Result<(Shared<Command<A>, A>, Result<&[u8], Fault>), NoMemory>
    ensures tree { IfOk result (λ r. ReadsTo (context_of context) depth
        (commands_then r.0.value.items no_commands) text.now r.1) }
    ensures normal { IfOk result (λ r. AreNormalCommands r.0) }
    ensures shorter { IfOk result (λ r. IfOk r.1 (λ z. length z.now ≤ length text.now)) }
    ensures ends { IfOk result (λ r. IfOk r.1
        (λ z. ends_script (context_of context) z.now ≡ true)) }
{
    let mut commands = Vec::new(alloc);
    let mut bytes = text;
    loop {
        let start = skip_gap(context, bytes);
        if ends_script(context, start) {
            let commands = shared(alloc, commands)?;
            return Ok((commands, Ok(start)));
        }
        match read_words(alloc, context, depth, start) {
            Ok((words, rest)) => {
                let from_end = start.len();
                commands.push(Command { from_end, words })?;
                bytes = rest;
            }
            Err(ReadError::Fault(fault)) => {
                let commands = shared(alloc, commands)?;
                return Ok((commands, Err(fault)));
            }
            Err(ReadError::Memory(refusal)) => return Err(refusal),
        }
    }
}

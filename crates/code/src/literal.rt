//! Words that are texts as they stand.

ghost use Rattle.std.specs.Prelude.{◌≡◌, false, IfOk, IfSome};
ghost use Rattle.code.specs.Literals.{Are, IsLiteral};
ghost use Rattle.tclparse.specs.Tree.{Words, bytes_then, no_parts, no_words, word as word_then};
ghost use Rattle.tclparse.specs.View.{part_view, parts_then, words_then};

use memory::NoMemory;
use std::alloc::Allocator;
use tclparse::{Part, Word};
use tcltext::Value;

/// The text of a word, and the words after it.
#[derive(Drop)]
pub(crate) struct First<'a, A: Allocator> {
    pub text: &'a [u8],
    pub rest: &'a [Word<A>],
}

/// The parts of a word, and the words after it.
#[derive(Drop)]
pub(crate) struct Plain<'a, A: Allocator> {
    pub parts: &'a [Part<A>],
    pub rest: &'a [Word<A>],
}

/// The text of a word that has no substitutions; `None` where it has some, or is a list of words.
pub(crate) fn literal_of<A: Allocator>(word: &Word<A>) -> Option<&[u8]>
    ensures { IfSome result (λ text. IsLiteral word.now text.now) }
{
    if word.expands {
        return None;
    }
    text_of(&word.parts)
}

/// The text of the first of some words, where it is a literal.
pub(crate) fn first_of<A: Allocator>(words: &[Word<A>]) -> Option<First<'_, A>>
    ensures { IfSome result (λ first. (ws : Words) → words_then first.rest.now no_words ≡ ws →
        words_then words.now no_words
        ≡ word_then false (bytes_then first.text.now no_parts) ws) }
{
    let [word, rest @ ..] = words else {
        return None;
    };
    let text = literal_of(word)?;
    Some(First { text, rest })
}

/// Some words as texts; `None` where one of them is no literal.
///
/// # Errors
/// `NoMemory`, after which nothing stays allocated.
pub fn texts_of<A: Allocator + Copy>(
    alloc: A,
    words: &[Word<A>],
) -> Result<Option<Vec<Value<A>, A>>, NoMemory>
    ensures { IfOk result (λ read. IfSome read (λ texts. Are words.now texts.items)) }
{
    let mut texts = Vec::new(alloc);
    for word in words {
        let Some(text) = literal_of(word) else {
            return Ok(None);
        };
        let text = Value::from_slice(alloc, text)?;
        texts.push(text)?;
    }
    Ok(Some(texts))
}

/// The parts of the first of some words, where it is no list of words.
pub(crate) fn plain_of<A: Allocator>(words: &[Word<A>]) -> Option<Plain<'_, A>>
    ensures { IfSome result (λ plain. (ws : Words) → words_then plain.rest.now no_words ≡ ws →
        words_then words.now no_words ≡ word_then false (parts_then plain.parts.now no_parts) ws) }
{
    let [word, rest @ ..] = words else {
        return None;
    };
    if !word.expands {
        return Some(Plain {
            parts: &word.parts,
            rest,
        });
    }
    None
}

/// The text of these parts, where they are one literal, or none.
fn text_of<A: Allocator>(parts: &[Part<A>]) -> Option<&[u8]>
    ensures { IfSome result (λ text.
        parts_then parts.now no_parts ≡ bytes_then text.now no_parts) }
{
    match parts {
        [] => Some(b""),
        [part] => text_of_part(part),
        _ => None,
    }
}

/// The text of a part, where it is a literal.
fn text_of_part<A: Allocator>(part: &Part<A>) -> Option<&[u8]>
    ensures { IfSome result (λ text. part_view part.now no_parts ≡ bytes_then text.now no_parts) }
{
    let Part::Literal(text) = part else {
        return None;
    };
    Some(text.as_slice())
}

//! The words of `switch` where they are literals, but for its string (switch(n)).

ghost use Rattle.std.specs.Prelude.{◌≡◌, [], ◌∷◌, false, true, codes, length, IfOk, IfSome};
ghost use Rattle.std.specs.Str.{bytes_eq};
ghost use Rattle.code.specs.Switch.{AreArms, AreWhole, IsShort, dashes_word, flag_word, is_default, option_words, words_before};
ghost use Rattle.tclparse.specs.Tree.{no_parts, no_words, word as word_then, texts_then};
ghost use Rattle.tclparse.specs.View.{parts_then, words_then};

use crate::literal::{first_of, plain_of};
use crate::options::{Flag, Options};
use memory::NoMemory;
use std::alloc::Allocator;
use tclparse::{Part, Word};
use tcltext::{ListFault, Value, split_values};

/// The most bytes that a glob may have.
const MOST_BYTES: usize = 1_000_000;

/// How many patterns and bodies a `switch` with code of its own has at most.
const MOST_ARMS: usize = 200;

/// The words after `switch`: its options, the word of its string, and the words after it.
#[derive(Drop)]
pub(crate) struct SwitchWords<'a, A: Allocator> {
    pub options: Options,
    pub string: &'a [Part<A>],
    pub after: &'a [Word<A>],
}

/// The flag at the front of some words, and the words after it.
fn flag_of<A: Allocator>(words: &[Word<A>]) -> (Option<Flag>, &[Word<A>])
    ensures { words_then words.now no_words
        ≡ texts_then (flag_word result.0) (words_then result.1.now no_words) }
{
    let Some(first) = first_of(words) else {
        return (None, words);
    };
    if first.text == b"-exact".as_slice() {
        return (Some(Flag::Exact), first.rest);
    }
    if first.text == b"-glob".as_slice() {
        return (Some(Flag::Glob), first.rest);
    }
    (None, words)
}

/// Whether `--` stands at the front of some words, and the words after it.
fn dashes_of<A: Allocator>(words: &[Word<A>]) -> (bool, &[Word<A>])
    ensures { words_then words.now no_words
        ≡ texts_then (dashes_word result.0) (words_then result.1.now no_words) }
{
    let Some(first) = first_of(words) else {
        return (false, words);
    };
    if first.text == b"--".as_slice() {
        return (true, first.rest);
    }
    (false, words)
}

/// The options at the front of the words after `switch`, and the words after them; two words have
/// none.
fn options_of<A: Allocator>(words: &[Word<A>]) -> (Options, &[Word<A>])
    ensures { words_then words.now no_words
        ≡ texts_then (option_words result.0) (words_then result.1.now no_words) }
{
    if words.len() <= 2 {
        let options = Options {
            flag: None,
            dashes: false,
        };
        return (options, words);
    }
    let (flag, rest) = flag_of(words);
    let (dashes, rest) = dashes_of(rest);
    (Options { flag, dashes }, rest)
}

/// The words of a command as those of `switch`, up to those after its string.
pub(crate) fn switch_words<A: Allocator>(words: &[Word<A>]) -> Option<SwitchWords<'_, A>>
    ensures { IfSome result (λ found. words_then words.now no_words
        ≡ texts_then (words_before found.options)
        (word_then false (parts_then found.string.now no_parts)
        (words_then found.after.now no_words))) }
{
    let name = first_of(words)?;
    if name.text != b"switch".as_slice() {
        return None;
    }
    let (options, rest) = options_of(name.rest);
    let string = plain_of(rest)?;
    Some(SwitchWords {
        options,
        string: string.parts,
        after: string.rest,
    })
}

/// Texts that are shared.
fn shared<A: Allocator + Copy>(alloc: A, texts: &[Value<A>]) -> Result<Vec<Value<A>, A>, NoMemory>
    ensures { IfOk result (λ all. all.items ≡ texts.now) }
{
    let mut all = Vec::with_capacity(alloc, texts.len())?;
    for text in texts {
        let text = text.share()?;
        all.push(text)?;
    }
    Ok(all)
}

/// The elements of a list; `None` where the text is none.
fn elements_of<A: Allocator + Copy>(
    alloc: A,
    list: &[u8],
) -> Result<Option<Vec<Value<A>, A>>, NoMemory>
    ensures { IfOk result (λ read. IfSome read (λ arms. AreArms arms.items (list.now ∷ []))) }
{
    match split_values(alloc, list) {
        Ok(arms) => Ok(Some(arms)),
        Err(ListFault::NoMemory(refusal)) => Err(refusal),
        Err(_) => Ok(None),
    }
}

/// The patterns and bodies of a `switch` with these words after its string; `None` where there is
/// no word, or only one, which is no list.
pub(crate) fn arms_of<A: Allocator + Copy>(
    alloc: A,
    after: &[Value<A>],
) -> Result<Option<Vec<Value<A>, A>>, NoMemory>
    ensures { IfOk result (λ read. IfSome read (λ arms. AreArms arms.items after.now)) }
{
    match after {
        [] => Ok(None),
        [list] => Ok(elements_of(alloc, list.as_slice())?),
        _ => Ok(Some(shared(alloc, after)?)),
    }
}

/// Whether a pattern is a last `default`, after which no pattern stands.
pub(crate) fn is_last_default<A: Allocator>(pattern: &[u8], more: &[Value<A>]) -> bool
    ensures { result ≡ is_default pattern.now more.now }
{
    pattern == b"default".as_slice() && more.is_empty()
}

/// Whether a pattern is not too long, where it is a glob.
fn is_short<A: Allocator>(globs: bool, pattern: &Value<A>) -> bool
    ensures { result ≡ true → IsShort globs pattern.now }
{
    if !globs {
        return true;
    }
    pattern.as_slice().len() <= MOST_BYTES
}

/// Whether a body is not `-`, where no pattern stands after it.
fn has_body<A: Allocator>(body: &Value<A>, more: &[Value<A>]) -> bool
    ensures { result ≡ true → length more.now ≡ 0 → bytes_eq body.now (codes "-") ≡ false }
{
    if !more.is_empty() {
        return true;
    }
    body.as_slice() != b"-".as_slice()
}

/// Whether each pattern has a body, where the last one is not `-`, and no glob is too long.
fn are_whole<A: Allocator>(globs: bool, arms: &[Value<A>]) -> bool
    ensures { result ≡ true → AreWhole globs arms.now }
{
    let mut rest = arms;
    'arms: while let [pattern, body, more @ ..] = rest {
        if !is_short(globs, pattern) {
            return false;
        }
        if !has_body(body, more) {
            return false;
        }
        rest = more;
    }
    rest.is_empty()
}

/// Whether patterns and bodies have code of their own: they are whole, and not very many.
pub(crate) fn have_code<A: Allocator>(globs: bool, arms: &[Value<A>]) -> bool
    ensures { result ≡ true → AreWhole globs arms.now }
{
    arms.len() <= MOST_ARMS && are_whole(globs, arms)
}

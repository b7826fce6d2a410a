//! The flags in the words of a command, and the words for which it has no room.

ghost use Rattle.std.specs.Prelude.{◌≡◌, map, option_map};
ghost use Rattle.state.specs.Prelude.{Answers, Raises};
ghost use Rattle.kinds.specs.Usage as definition;

use acts::Raise;
use acts::raise::{bad_argument, bad_flag, wrong_args};
use state::arguments::{begins_with_dash, is_flag};
use std::alloc::Allocator;
use tcltext::Value;

/// The name of a command and the flags that it takes, for the error of a word that it refuses.
#[derive(Clone, Copy, Debug)]
pub struct Usage<'a> {
    pub command: &'a [u8],
    pub flags: &'a [&'a [u8]],
}

/// Whether a flag stands first, and the words after it.
pub fn after_flag<'a, A: Allocator>(words: &'a [Value<A>], flag: &[u8]) -> (bool, &'a [Value<A>])
    ensures { (result.0, result.1.now) ≡ definition.after_flag flag.now words.now }
{
    match words {
        [word, more @ ..] if word.as_slice() == flag => (true, more),
        _ => (false, words),
    }
}

/// The word of a flag, where the two stand first, and the words after them.
pub fn after_pair<'a, A: Allocator>(
    words: &'a [Value<A>],
    flag: &[u8],
) -> (Option<&'a [u8]>, &'a [Value<A>])
    ensures { (option_map (λ w. w.now) result.0, result.1.now)
        ≡ definition.after_pair flag.now words.now }
{
    match words {
        [word, value, more @ ..] if word.as_slice() == flag => (Some(value.as_slice()), more),
        _ => (None, words),
    }
}

impl Usage<'_> {
    /// Refuses a word for which the command has no room: the error names the word where it would be
    /// a flag and is none of the command's, and is else that of the number of words.
    pub fn misplaced<A: Allocator + Copy>(&self, alloc: A, word: &[u8]) -> Raise<A>
        ensures { Raises (definition.misplaced (map (λ f. f.now) self.now.flags.now)
            self.now.command.now word.now) result }
    {
        if !is_among(self.flags, word) && is_flag(word) {
            bad_argument(alloc, word, self.command)
        } else {
            wrong_args(alloc, self.command)
        }
    }

    /// Checks that no word stands after the flags.
    ///
    /// # Errors
    /// A word stands there; or memory is refused for the error.
    pub fn no_more<A: Allocator + Copy>(&self, alloc: A, words: &[Value<A>]) -> Result<(), Raise<A>>
        ensures { Answers (λ done. done) (definition.no_more (map (λ f. f.now) self.now.flags.now)
            self.now.command.now words.now) result }
    {
        match words {
            [] => Ok(()),
            [word, ..] => Err(self.misplaced(alloc, word.as_slice())),
        }
    }

    /// The one word that may stand after the flags.
    ///
    /// # Errors
    /// There are more words, or the word would be a flag; or memory is refused for the error.
    pub fn at_most_one<'w, A: Allocator + Copy>(
        &self,
        alloc: A,
        words: &'w [Value<A>],
    ) -> Result<Option<&'w [u8]>, Raise<A>>
        ensures { Answers (option_map (λ w. w.now))
            (definition.at_most_one (map (λ f. f.now) self.now.flags.now)
            self.now.command.now words.now) result }
    {
        match words {
            [] => Ok(None),
            [word] if !is_flag(word.as_slice()) => Ok(Some(word.as_slice())),
            [word, ..] => Err(self.misplaced(alloc, word.as_slice())),
        }
    }

    /// The text that stands after the flags, alone or after `--`.
    ///
    /// # Errors
    /// The words are too few or too many, or a flag stands among them; or memory is refused for the
    /// error.
    pub fn text<'w, A: Allocator + Copy>(
        &self,
        alloc: A,
        words: &'w [Value<A>],
    ) -> Result<&'w [u8], Raise<A>>
        ensures { Answers (λ text. text.now)
            (definition.text_in (map (λ f. f.now) self.now.flags.now)
            self.now.command.now words.now) result }
    {
        match words {
            [] => Err(wrong_args(alloc, self.command)),
            [text] if !begins_with_dash(text.as_slice()) => Ok(text.as_slice()),
            [dashes, text] if is_dashes(dashes.as_slice()) => Ok(text.as_slice()),
            [word, ..] => Err(self.no_text(alloc, word.as_slice())),
        }
    }

    /// Refuses a word where a text is due: the error names the word where it begins as flags do and
    /// is none of the command's, and is else that of the number of words.
    fn no_text<A: Allocator + Copy>(&self, alloc: A, word: &[u8]) -> Raise<A>
        ensures { Raises (definition.no_text (map (λ f. f.now) self.now.flags.now)
            self.now.command.now word.now) result }
    {
        if !is_among(self.flags, word) && begins_with_dash(word) {
            bad_flag(alloc, word)
        } else {
            wrong_args(alloc, self.command)
        }
    }
}

/// Whether a word is `--`, after which no flag stands.
fn is_dashes(word: &[u8]) -> bool
    ensures { result ≡ definition.is_dashes word.now }
{
    word == b"--".as_slice()
}

/// Whether a word is one of some flags.
fn is_among(flags: &[&[u8]], word: &[u8]) -> bool
    ensures { result ≡ definition.is_among (map (λ f. f.now) flags.now) word.now }
{
    for flag in flags {
        if word == *flag {
            return true;
        }
    }
    false
}

//! The words of a line, taken one after another.

use crate::fault::RowFault;
use acts::Id;
use std::alloc::Global;
use std::str::FromStr;

/// The words that are still to be taken.
#[derive(Clone, Copy)]
pub struct Words<'a> {
    rest: &'a [Vec<u8>],
}

impl<'a> Words<'a> {
    /// All words of a line, none of them taken yet.
    pub fn new(line: &'a [Vec<u8>]) -> Words<'a> {
        Words { rest: line }
    }

    /// The next word.
    pub fn take(&mut self) -> Result<&'a [u8], RowFault> {
        match self.rest {
            [word, rest @ ..] => {
                self.rest = rest;
                Ok(word.as_slice())
            }
            [] => Err(RowFault::WordMissing),
        }
    }

    /// The name that the next word is.
    pub fn take_name(&mut self) -> Result<&'a str, RowFault> {
        Ok(name_of(self.take()?))
    }

    /// The next word, in memory of its own.
    pub fn take_copy(&mut self, alloc: Global) -> Result<Vec<u8>, RowFault> {
        Ok(Vec::from_slice(alloc, self.take()?)?)
    }

    /// The id that the next word names.
    pub fn take_id(&mut self) -> Result<Id, RowFault> {
        match Id::read(self.take()?) {
            Some(id) => Ok(id),
            None => Err(RowFault::NoId),
        }
    }

    /// The number that the next word spells.
    pub fn take_number<N: FromStr>(&mut self) -> Result<N, RowFault>
    where
        N::Err: Drop,
    {
        number(self.take()?)
    }

    /// Takes all remaining words.
    pub fn take_rest(&mut self) -> &'a [Vec<u8>] {
        let rest = self.rest;
        self.rest = &[];
        rest
    }

    /// Whether all words were taken.
    pub fn is_empty(&self) -> bool {
        self.rest.is_empty()
    }

    /// What was read of the words. Further words are refused.
    pub fn close<T: Drop>(&self, read: T) -> Result<T, RowFault> {
        if self.is_empty() {
            Ok(read)
        } else {
            Err(RowFault::WordTooMany)
        }
    }
}

/// The name that a word is: the word as a text, or the empty name, which nothing has, where it is
/// none.
pub fn name_of(word: &[u8]) -> &str {
    std::str::from_utf8(word).unwrap_or("")
}

/// The number that a word spells.
pub fn number<N: FromStr>(word: &[u8]) -> Result<N, RowFault>
where
    N::Err: Drop,
{
    let Ok(digits) = std::str::from_utf8(word) else {
        return Err(RowFault::NoNumber);
    };
    match digits.parse::<N>() {
        Ok(number) => Ok(number),
        Err(_) => Err(RowFault::NoNumber),
    }
}

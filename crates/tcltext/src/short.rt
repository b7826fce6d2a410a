//! Texts of a few bytes, in place.

ghost use Rattle.std.specs.Prelude.{◌≡◌, ◌<◌, ◌++◌, [], length, min, IfSome, IfNone};

use std::marker::Model;

/// The most bytes that a text may have to lie in place where no number is kept with it.
pub(crate) const IN_PLACE: usize = 14;

/// A text of at most `MOST` bytes, which contracts see as a list of bytes. It asks for no memory.
#[derive(Drop)]
pub struct Short<const MOST: usize> {
    len: u8,
    bytes: [u8; MOST],
}

impl<const MOST: usize> Model for Short<MOST> {
    ghost use Rattle.std.specs.Prelude.{List, ℕ, take, ◌≤◌};

    ghost Value = { List ℕ };

    ghost view = { λ short. take short.len short.bytes };

    ghost invariant = { λ short. short.len ≤ MOST };
}

impl<const MOST: usize> Short<MOST> {
    /// The empty text.
    pub(crate) fn empty() -> Short<MOST>
        ensures { result ≡ [] }
    {
        Short {
            len: 0,
            bytes: [0; MOST],
        }
    }

    /// A text of these bytes, or `None` where they are more than `MOST` or more than 255.
    pub(crate) fn new(text: &[u8]) -> Option<Short<MOST>>
        ensures bytes { IfSome result (λ short. short ≡ text.now) }
        ensures room { IfNone result (min MOST 255 < length text.now) }
    {
        if text.len() > MOST {
            return None;
        }
        let Ok(len) = u8::try_from(text.len()) else {
            return None;
        };
        let mut bytes = [0; MOST];
        bytes[..text.len()].copy_from_slice(text);
        Some(Short { len, bytes })
    }

    /// Two texts as one, or `None` where they are together more than `MOST` bytes or more than 255.
    pub(crate) fn joined(first: &[u8], second: &[u8]) -> Option<Short<MOST>>
        ensures bytes { IfSome result (λ short. short ≡ first.now ++ second.now) }
        ensures room { IfNone result (min MOST 255 < length (first.now ++ second.now)) }
    {
        let whole = first.len() + second.len();
        if whole > MOST {
            return None;
        }
        let Ok(len) = u8::try_from(whole) else {
            return None;
        };
        let mut bytes = [0; MOST];
        let room = &mut bytes[..];
        room[..first.len()].copy_from_slice(first);
        room[first.len()..whole].copy_from_slice(second);
        Some(Short { len, bytes })
    }

    /// The same bytes once more.
    pub(crate) fn copied(&self) -> Short<MOST>
        ensures { result ≡ self.now }
    {
        Short {
            len: self.len,
            bytes: self.bytes,
        }
    }

    /// The bytes.
    pub(crate) fn as_slice(&self) -> &[u8]
        ensures { result.now ≡ self.now }
    {
        &self.bytes[..usize::from(self.len)]
    }
}

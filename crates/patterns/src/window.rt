//! A window as a search compares it.
ghost use Rattle.std.specs.Prelude.{◌≡◌, ◌^◌, ◌∷◌, ◌<◌, ◌≤◌, [], length, drop, slice_range, IfSome, MatchOption};
ghost use Rattle.memchr.specs.Find.{IsFirstByte, IsLastByte, is_byte};
ghost use Rattle.patterns.specs.Match.{compared};

use memchr::{memchr, memchr2, memrchr, memrchr2};
use std::marker::Model;

/// The bytes of a window as they compare: as they came, or with each upper case ASCII letter as its
/// lower case one (expect(1), `-nocase`). They are never copied.
#[derive(Drop)]
pub struct Window<'a> {
    bytes: &'a [u8],
    folds: bool,
}

impl<'a> Model for Window<'a> {
    ghost use Rattle.std.specs.Prelude.{ℕ, List};

    ghost Value = { List ℕ };

    ghost use Rattle.patterns.specs.Match.{compared};

    ghost view = { λ w. compared w.folds w.bytes.now };
}

impl<'a> Window<'a> {
    /// The bytes, with letters folded or not.
    pub fn new(bytes: &'a [u8], folds: bool) -> Window<'a>
        ensures value { result ≡ compared folds bytes.now }
        ensures fits { length result < 2 ^ 64 }
    {
        Window { bytes, folds }
    }

    /// How many bytes there are.
    pub fn len(&self) -> usize
        ensures { result ≡ length self.now }
    {
        self.bytes.len()
    }

    /// The bytes, unless their letters are folded.
    pub fn as_bytes(&self) -> Option<&'a [u8]>
        ensures { IfSome result (λ bytes. bytes.now ≡ self.now) }
    {
        if self.folds { None } else { Some(self.bytes) }
    }

    /// The bytes from this place on.
    pub fn behind(&self, place: usize) -> Window<'a>
        requires { place ≤ length self.now }
        ensures { result ≡ drop place self.now }
    {
        Window {
            bytes: &self.bytes[place..],
            folds: self.folds,
        }
    }

    /// The bytes from one place up to another.
    pub fn part(&self, from: usize, end: usize) -> Window<'a>
        requires ordered { from ≤ end }
        requires within { end ≤ length self.now }
        ensures { result ≡ slice_range self.now from end }
    {
        Window {
            bytes: &self.bytes[from..end],
            folds: self.folds,
        }
    }

    /// The first byte, and those after it.
    pub fn split_first(&self) -> Option<(u8, Window<'a>)>
        ensures { MatchOption result
            (self.now ≡ [])
            (λ split. self.now ≡ split.0 ∷ split.1) }
    {
        let [first, rest @ ..] = self.bytes else {
            return None;
        };
        let byte = if self.folds {
            first.to_ascii_lowercase()
        } else {
            *first
        };
        let behind = Window {
            bytes: rest,
            folds: self.folds,
        };
        Some((byte, behind))
    }

    /// The first place of a byte.
    pub fn find_byte(&self, byte: u8) -> Option<usize>
        ensures { IsFirstByte (is_byte byte) self.now result }
    {
        if !self.folds {
            return memchr(byte, self.bytes);
        }
        if byte.is_ascii_uppercase() {
            return None;
        }
        memchr2(byte, byte.to_ascii_uppercase(), self.bytes)
    }

    /// The last place of a byte.
    pub fn rfind_byte(&self, byte: u8) -> Option<usize>
        ensures { IsLastByte (is_byte byte) self.now result }
    {
        if !self.folds {
            return memrchr(byte, self.bytes);
        }
        if byte.is_ascii_uppercase() {
            return None;
        }
        memrchr2(byte, byte.to_ascii_uppercase(), self.bytes)
    }
}

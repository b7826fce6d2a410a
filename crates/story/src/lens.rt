//! How a window and a pattern are looked at so that some differences between them vanish.

use memory::NoMemory;
use patterns::Found;
use std::alloc::Allocator;

/// Which bytes are left out.
#[derive(Clone, Copy, Debug, PartialEq, Eq)]
pub(crate) enum Omitted {
    /// None.
    Nothing,
    /// Carriage returns.
    Returns,
    /// Blanks, tabs and carriage returns.
    Blanks,
}

/// How a window and a pattern are looked at.
#[derive(Clone, Copy, Debug, PartialEq, Eq)]
pub(crate) struct Lens {
    /// The window's capital letters are looked at as small ones.
    pub(crate) lowers_window: bool,
    /// The pattern's capital letters are looked at as small ones.
    pub(crate) lowers_pattern: bool,
    /// What is left out of both.
    pub(crate) omitted: Omitted,
}

/// What is seen of a window.
#[derive(Drop)]
pub(crate) enum View<'w, A: Allocator> {
    /// The window itself.
    Itself(&'w [u8]),
    /// Other bytes.
    Changed(Vec<u8, A>),
}

impl<A: Allocator> View<'_, A> {
    /// The bytes that are seen.
    pub(crate) fn as_slice(&self) -> &[u8] {
        match self {
            View::Itself(window) => window,
            View::Changed(bytes) => bytes,
        }
    }
}

impl Lens {
    /// As `expect` looks, with or without `-nocase`.
    pub(crate) fn plain(folds: bool) -> Lens {
        Lens {
            lowers_window: folds,
            lowers_pattern: false,
            omitted: Omitted::Nothing,
        }
    }

    /// The same, with these bytes left out.
    pub(crate) fn without(self, omitted: Omitted) -> Lens {
        Lens {
            lowers_window: self.lowers_window,
            lowers_pattern: self.lowers_pattern,
            omitted,
        }
    }

    /// With the case of letters left out too.
    pub(crate) fn without_case(self) -> Lens {
        Lens {
            lowers_window: true,
            lowers_pattern: true,
            omitted: self.omitted,
        }
    }

    /// Whether a byte is left out.
    pub(crate) fn omits(self, byte: u8) -> bool {
        match self.omitted {
            Omitted::Nothing => false,
            Omitted::Returns => byte == b'\r',
            Omitted::Blanks => matches!(byte, b' ' | b'\t' | b'\r'),
        }
    }

    /// A byte of a pattern, as it is looked at.
    pub(crate) fn of_pattern(self, byte: u8) -> u8 {
        if self.lowers_pattern {
            byte.to_ascii_lowercase()
        } else {
            byte
        }
    }

    /// What is seen of a window.
    pub(crate) fn view<A: Allocator>(
        self,
        alloc: A,
        window: &[u8],
    ) -> Result<View<'_, A>, NoMemory> {
        if !self.lowers_window && self.omitted == Omitted::Nothing {
            return Ok(View::Itself(window));
        }
        let mut bytes = Vec::with_capacity(alloc, window.len())?;
        for byte in window {
            if !self.omits(*byte) {
                bytes.push(self.of_window(*byte))?;
            }
        }
        Ok(View::Changed(bytes))
    }

    /// A byte of a window, as it is looked at.
    fn of_window(self, byte: u8) -> u8 {
        if self.lowers_window {
            byte.to_ascii_lowercase()
        } else {
            byte
        }
    }

    /// Where in the window a part of what is seen of it stands.
    pub(crate) fn part_of(self, window: &[u8], seen: Found) -> Found {
        let start = self.place_of(window, seen.start);
        let end = match seen.end.checked_sub(1) {
            Some(last) if seen.start < seen.end => self.place_of(window, last).saturating_add(1),
            _ => start,
        };
        let end = end.min(window.len()).max(start);
        Found { start, end }
    }

    /// Where in the window the byte at a place of what is seen of it stands.
    fn place_of(self, window: &[u8], seen: usize) -> usize {
        let mut before = 0usize;
        for (place, byte) in window.iter().enumerate() {
            if !self.omits(*byte) {
                if before == seen {
                    return place;
                }
                before = before.saturating_add(1);
            }
        }
        window.len()
    }
}

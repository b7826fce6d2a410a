//! The files that a call of the program names.

ghost use Rattle.std.specs.Prelude.{⊤, ℕ, Bool, List, Result};
ghost use Rattle.std.specs.declared.io.Error.{Error};

use crate::input::Reader;
use crate::same_file::{is_kept, is_same_file};
use std::fs::{self, Files};
use std::io::{self, Input, Write};

/// What a call of the program asks of the files of the system: each method is one such question.
pub trait Folder {
    /// A file that is open to be read.
    type File: Reader + Drop;

    /// A file that was made, to be written to.
    type Made: Write + Drop;

    /// Standard input.
    type Standard: Reader + Drop;

    /// Whether the system may answer so where the file of a name is to be read.
    ghost opens: { Self → List ℕ → Result Self.File Error → Type 0 };

    /// Whether it may answer so where the file of a name is to be made, or emptied.
    ghost makes: { Self → List ℕ → Result Self.Made Error → Type 0 };

    /// Whether the system may answer so where it is asked whether two names are those of one file.
    ghost same: { Self → List ℕ → List ℕ → Bool → Type 0 };

    /// Opens the file of a name to be read.
    fn open(&self, name: &str) -> io::Result<Self::File>
        ensures { opens self.now name.now result };

    /// Makes the file of a name, or empties it.
    fn make(&self, name: &str) -> io::Result<Self::Made>
        ensures { makes self.now name.now result };

    /// Standard input.
    fn standard(&self) -> Self::Standard;

    /// Whether the file of a name keeps its bytes, so that it can be read once more.
    fn is_lasting(&self, name: &str) -> bool;

    /// Whether these are names of one existing file that keeps what is written to it.
    fn is_same(&self, first: &[u8], second: &[u8]) -> bool
        ensures { same self.now first.now second.now result };
}

/// The files of the system themselves: what its calls answer is taken on trust.
#[derive(Drop)]
pub struct Disk<'a, R> {
    pub rt: &'a R,
}

impl<'a, R: Files + Input> Folder for Disk<'a, R> {
    type File = R::File;

    type Made = R::File;

    type Standard = R::Reader;

    // What the system does is not modelled.
    ghost opens = { λ _ _ _. ⊤ };

    ghost makes = { λ _ _ _. ⊤ };

    ghost same = { λ _ _ _ _. ⊤ };

    fn open(&self, name: &str) -> io::Result<R::File> {
        fs::open(self.rt, name)
    }

    fn make(&self, name: &str) -> io::Result<R::File> {
        fs::create(self.rt, name)
    }

    fn standard(&self) -> R::Reader {
        self.rt.reader()
    }

    fn is_lasting(&self, name: &str) -> bool {
        is_kept(self.rt, name)
    }

    fn is_same(&self, first: &[u8], second: &[u8]) -> bool {
        is_same_file(self.rt, first, second)
    }
}

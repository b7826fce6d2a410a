//! Scripts kept by their texts, so that a text that is run again is not read again.
#![tactic(auto)]

mod argument;

ghost use Rattle.std.specs.Prelude.{◌≡◌, ◌≤◌, ◌⊎◌, [], length, false, IfOk, OnOk, OnErr};
ghost use Rattle.std.specs.List.{IsDistinct};
ghost use Rattle.std.specs.Str.{bytes_eq};
ghost use Rattle.kept.specs.Kept.{is_among, newest, with_newest, with_text, IsTree};

pub use argument::{Argument, Arguments};
use code::{CodedFormula, CodedScript, Instruction};
use hints::{Hints, Table, found_near, new_table};
use memory::NoMemory;
use recent::Recent;
use std::alloc::Allocator;
use std::marker::Model;
use std::rc::Rc;
use tclparse::Script;

/// The formulas of the texts that were read last, as their code (expr(n)).
pub type KeptFormulas<A> = Recent<A, CodedFormula<A>>;

/// What the texts that were read last say: the scripts that ran within others, the formulas, and
/// the arguments in braces. It says nothing that the texts do not, so a contract of who reads by it
/// speaks of texts alone.
pub struct Parsed<A: Allocator> {
    pub scripts: Kept<A>,
    pub formulas: KeptFormulas<A>,
    pub arguments: Arguments<A>,
}

impl<A: Allocator> Drop for Parsed<A> {
    fn drop(self) {
        let Parsed {
            scripts: _,
            formulas: _,
            arguments: _,
        } = self;
    }
}

impl<A: Allocator + Copy> Parsed<A> {
    /// Nothing was read yet; takes no memory.
    pub fn new(alloc: A) -> Parsed<A> {
        Parsed {
            scripts: Kept::new(alloc),
            formulas: KeptFormulas::new(alloc),
            arguments: Arguments::new(alloc),
        }
    }
}

/// The most texts that are kept.
pub const MOST_KEPT: usize = 256;

/// The scripts of the texts that were last put here, at most [`MOST_KEPT`], as their code.
/// Contracts see the texts, each once, the oldest first.
///
/// A look-up compares one text in most cases, and else computes one hash. A script lives as long as
/// a frame holds it, whether it is still kept or not.
pub struct Kept<A: Allocator> {
    scripts: Table<CodedScript<A>, A>,
    hints: Hints<256>,
}

impl<A: Allocator> Drop for Kept<A> {
    fn drop(self) {
        let Kept {
            scripts: _,
            hints: _,
        } = self;
    }
}

impl<A: Allocator> Model for Kept<A> {
    ghost use Rattle.std.specs.Prelude.{List, ℕ, ◌≤◌, length};

    ghost Value = { List (List ℕ) };

    ghost use Rattle.kept.specs.Kept.{texts_of, AreTrees};

    ghost view = { λ k. texts_of k.scripts.entries };

    ghost invariant = { λ k. AreTrees k.scripts.entries × (length k.scripts.entries ≤ 256) };
}

impl<A: Allocator> Kept<A> {
    /// How many texts are kept.
    pub fn len(&self) -> usize
        ensures len { result ≡ length self.now }
        ensures most { length self.now ≤ 256 }
        ensures once { IsDistinct bytes_eq self.now }
    {
        self.scripts.len()
    }
}

impl<A: Allocator> Kept<A> {
    /// The text under which the script with this code is kept, if it is. Takes no memory. No
    /// contract speaks of it: it is told to who watches a run, which text it is that runs.
    pub fn text_of(&self, code: &Rc<Vec<Instruction<A>, A>, A>) -> Option<&[u8]> {
        for (text, script) in self.scripts.iter() {
            if Rc::ptr_eq(script.code(), code) {
                return Some(text.as_slice());
            }
        }
        None
    }
}

impl<A: Allocator + Copy> Kept<A> {
    /// Keeps no text yet. Takes no memory.
    pub fn new(alloc: A) -> Kept<A>
        ensures { result ≡ [] }
    {
        Kept {
            scripts: new_table(alloc),
            hints: Hints::new(),
        }
    }

    /// The script of a text: the kept one, else one that is read and then kept. A new text goes
    /// last, and where [`MOST_KEPT`] are kept already, the oldest is dropped for it.
    ///
    /// Where memory is refused only for keeping the script, the script is returned all the same and
    /// the texts are as they were.
    ///
    /// # Errors
    /// `NoMemory` where the script itself could not be made or shared. The texts are then as they
    /// were.
    pub fn get(&mut self, text: &[u8]) -> Result<CodedScript<A>, NoMemory>
        ensures tree { IfOk result (λ script. IsTree script text.now) }
        ensures texts { (self.new ≡ self.old) ⊎ (self.new ≡ with_text text.now self.old) }
        ensures unchanged { OnErr result (self.new ≡ self.old) }
    {
        if let Some(script) = found_near(&self.scripts, self.hints.place(text), text) {
            return script.share();
        }
        let script = read_script(*self.scripts.allocator(), text)?;
        let _ = self.keep(text, &script);
        Ok(script)
    }

    /// Keeps the script of a text that is not kept yet.
    fn keep(&mut self, text: &[u8], script: &CodedScript<A>) -> Result<(), NoMemory>
        requires new { is_among text.now self.old ≡ false }
        requires tree { IsTree script.now text.now }
        ensures ok { OnOk result (self.new ≡ with_newest text.now self.old) }
        ensures unchanged { OnErr result (self.new ≡ self.old) }
    {
        let key = Vec::from_slice(*self.scripts.allocator(), text)?;
        self.scripts.insert(key, script.share()?)?;
        drop_oldest(&mut self.scripts);
        self.hints.note(text, self.scripts.len().saturating_sub(1));
        Ok(())
    }
}

/// Reads a text as a script (Tcl(n)), and makes its code.
fn read_script<A: Allocator + Copy>(alloc: A, text: &[u8]) -> Result<CodedScript<A>, NoMemory>
    ensures { IfOk result (λ script. IsTree script text.now) }
{
    let script = Script::read(alloc, text)?;
    CodedScript::new(alloc, script)
}

/// Drops the oldest where there are more than [`MOST_KEPT`].
fn drop_oldest<A: Allocator>(scripts: &mut Table<CodedScript<A>, A>)
    ensures { scripts.new.entries ≡ newest scripts.old.entries }
{
    if MOST_KEPT < scripts.len() {
        scripts.shift_remove_index(0);
    }
}

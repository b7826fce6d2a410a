//! What is run as a code of its own, with what the code is made of: a script, a formula, or the
//! words of an argument in braces.

ghost use Rattle.std.specs.Prelude.{◌≡◌, IfOk};
ghost use Rattle.tclparse.specs.ScriptTree.{seen};
ghost use Rattle.formulas.specs.View.{formula_of};
ghost use Rattle.tclparse.specs.View.{words_of};

use crate::doing::Doing;
use crate::instruction::Instruction;
use crate::whole::{argument_code, code_of, formula_code};
use formulas::{Formula, ReadError};
use memory::NoMemory;
use recent::{Readable, Shared};
use std::alloc::Allocator;
use std::marker::Model;
use std::rc::Rc;
use tclparse::{Script, Word};

/// A script's code, with the tree that it is made of. Contracts see the tree.
pub struct CodedScript<A: Allocator> {
    tree: Script<A>,
    code: Rc<Vec<Instruction<A>, A>, A>,
}

impl<A: Allocator> Drop for CodedScript<A> {
    fn drop(self) {
        let CodedScript { tree: _, code: _ } = self;
    }
}

impl<A: Allocator> Model for CodedScript<A> {
    ghost use Rattle.tclparse.specs.ScriptTree.{ScriptTree, stored, seen};
    ghost use Rattle.code.specs.CodeOf.{IsCodeOf};

    ghost Value = { ScriptTree };

    ghost coded = { stored };

    ghost view = { λ c. seen c.tree };

    ghost invariant = { λ c. IsCodeOf c.code.value.items (seen c.tree) };
}

impl<A: Allocator> CodedScript<A> {
    ghost use Rattle.code.specs.CodeOf.{IsCodeOf};

    /// The same code once more; nothing of it is copied.
    ///
    /// # Errors
    /// `NoMemory` where the handles cannot be counted.
    pub fn share(&self) -> Result<CodedScript<A>, NoMemory>
        ensures { IfOk result (λ same. same ≡ self.now) }
    {
        let tree = share_tree(&self.tree)?;
        let code = self.code.clone()?;
        Ok(CodedScript { tree, code })
    }

    /// The instructions. No contract speaks of them: who watches a run is told which code it is.
    pub fn code(&self) -> &Rc<Vec<Instruction<A>, A>, A> {
        &self.code
    }

    /// The instructions alone.
    pub fn into_code(self) -> Rc<Vec<Instruction<A>, A>, A>
        ensures { IsCodeOf result.value.items self }
    {
        let CodedScript { tree: _, code } = self;
        code
    }
}

impl<A: Allocator + Copy> CodedScript<A> {
    /// The code of a script.
    ///
    /// # Errors
    /// `NoMemory`, after which nothing stays allocated.
    pub fn new(alloc: A, tree: Script<A>) -> Result<CodedScript<A>, NoMemory>
        ensures { IfOk result (λ coded. coded ≡ seen tree) }
    {
        let code = Rc::new(alloc, code_of(alloc, &tree)?)?;
        Ok(CodedScript { tree, code })
    }
}

/// A formula's code, with the formula that it is made of. Contracts see the formula.
pub struct CodedFormula<A: Allocator> {
    formula: Formula<A>,
    code: Rc<Vec<Instruction<A>, A>, A>,
}

impl<A: Allocator> Drop for CodedFormula<A> {
    fn drop(self) {
        let CodedFormula {
            formula: _,
            code: _,
        } = self;
    }
}

impl<A: Allocator> Model for CodedFormula<A> {
    ghost use Rattle.formulas.specs.View.{formula_of};
    ghost use Rattle.tclparse.specs.Formula.{Formula};
    ghost use Rattle.code.specs.StoredFormula.{stored};
    ghost use Rattle.code.specs.CodeOf.{IsCodeOfFormula};

    ghost Value = { Formula };

    ghost coded = { stored };

    ghost view = { λ c. formula_of c.formula };

    ghost invariant = { λ c. IsCodeOfFormula c.code.value.items (formula_of c.formula) };
}

impl<A: Allocator> CodedFormula<A> {
    ghost use Rattle.code.specs.CodeOf.{IsCodeOfFormula};

    /// The same code once more; nothing of it is copied.
    ///
    /// # Errors
    /// `NoMemory` where the handles cannot be counted.
    pub fn share(&self) -> Result<CodedFormula<A>, NoMemory>
        ensures { IfOk result (λ same. same ≡ self.now) }
    {
        let formula = self.formula.share()?;
        let code = self.code.clone()?;
        Ok(CodedFormula { formula, code })
    }

    /// The instructions alone.
    pub fn into_code(self) -> Rc<Vec<Instruction<A>, A>, A>
        ensures { IsCodeOfFormula result.value.items self }
    {
        let CodedFormula { formula: _, code } = self;
        code
    }
}

impl<A: Allocator + Copy> CodedFormula<A> {
    /// The code of a formula.
    ///
    /// # Errors
    /// `NoMemory`, after which nothing stays allocated.
    pub fn new(alloc: A, formula: Formula<A>) -> Result<CodedFormula<A>, NoMemory>
        ensures { IfOk result (λ coded. coded ≡ formula_of formula) }
    {
        let code = Rc::new(alloc, formula_code(alloc, &formula)?)?;
        Ok(CodedFormula { formula, code })
    }
}

impl<A: Allocator> Shared for CodedFormula<A> {
    ghost use Rattle.code.specs.ReadsCode.{ReadsCode};

    type Error = ReadError;

    ghost reads = { ReadsCode };

    fn share(&self) -> Result<CodedFormula<A>, ReadError> {
        Ok(CodedFormula::share(self)?)
    }
}

impl<A: Allocator + Copy> Readable<A> for CodedFormula<A> {
    fn read_from(alloc: A, text: &[u8]) -> Result<CodedFormula<A>, ReadError> {
        let formula = Formula::read(alloc, text)?;
        Ok(CodedFormula::new(alloc, formula)?)
    }
}

/// The code of the words of an argument in braces, with these words. Contracts see the words.
pub struct CodedArgument<A: Allocator> {
    words: Rc<Vec<Word<A>, A>, A>,
    code: Rc<Vec<Instruction<A>, A>, A>,
}

impl<A: Allocator> Drop for CodedArgument<A> {
    fn drop(self) {
        let CodedArgument { words: _, code: _ } = self;
    }
}

impl<A: Allocator> Model for CodedArgument<A> {
    ghost use Rattle.code.specs.CodeOf.{IsCodeOfArgument};
    ghost use Rattle.tclparse.specs.ScriptTree.{stored_argument};
    ghost use Rattle.tclparse.specs.Tree.{Words};
    ghost use Rattle.tclparse.specs.View.{words_of};

    ghost Value = { Words };

    ghost coded = { stored_argument };

    ghost view = { λ c. words_of c.words };

    ghost invariant = { λ c. IsCodeOfArgument c.code.value.items (words_of c.words) };
}

impl<A: Allocator> CodedArgument<A> {
    ghost use Rattle.code.specs.CodeOf.{IsCodeOfArgument};

    /// The same code once more; nothing of it is copied.
    ///
    /// # Errors
    /// `NoMemory` where the handles cannot be counted.
    pub fn share(&self) -> Result<CodedArgument<A>, NoMemory>
        ensures { IfOk result (λ same. same ≡ self.now) }
    {
        let words = self.words.clone()?;
        let code = self.code.clone()?;
        Ok(CodedArgument { words, code })
    }

    /// The instructions alone.
    pub fn into_code(self) -> Rc<Vec<Instruction<A>, A>, A>
        ensures { IsCodeOfArgument result.value.items self }
    {
        let CodedArgument { words: _, code } = self;
        code
    }
}

impl<A: Allocator + Copy> CodedArgument<A> {
    /// The code of the words of an argument in braces.
    ///
    /// # Errors
    /// `NoMemory`, after which nothing stays allocated.
    pub fn new(alloc: A, words: Rc<Vec<Word<A>, A>, A>) -> Result<CodedArgument<A>, NoMemory>
        ensures { IfOk result (λ coded. coded ≡ words_of words) }
    {
        let code = Rc::new(alloc, argument_code(alloc, &words)?)?;
        Ok(CodedArgument { words, code })
    }
}

/// What a command runs by its text.
#[derive(Drop)]
pub enum Made<A: Allocator> {
    /// A script.
    Script(CodedScript<A>),
    /// A formula, whose value the command takes.
    Formula(CodedFormula<A>),
}

impl<A: Allocator> Made<A> {
    ghost use Rattle.code.specs.Made.{IsCodeOfMade};

    /// The instructions alone.
    pub fn into_code(self) -> Rc<Vec<Instruction<A>, A>, A>
        ensures { IsCodeOfMade result.value.items self }
    {
        match self {
            Made::Script(script) => script.into_code(),
            Made::Formula(formula) => formula.into_code(),
        }
    }
}

/// What is run as a code of its own.
#[derive(Drop)]
pub enum Entry<A: Allocator> {
    /// What a command runs by its text, whose outcome the command takes.
    Made(Made<A>),
    /// The words of an argument in braces, which give the branches of their command.
    Argument(CodedArgument<A>),
    /// What a command does that began by its words, whose outcome is that of the command.
    Does(Doing<A>),
}

impl<A: Allocator + Copy> Entry<A> {
    ghost use Rattle.code.specs.Made.{IsCodeOfEntry};

    /// The instructions alone; those of what a command does are made here.
    ///
    /// # Errors
    /// `NoMemory`, after which nothing stays allocated.
    pub fn into_code(self, alloc: A) -> Result<Rc<Vec<Instruction<A>, A>, A>, NoMemory>
        ensures { IfOk result (λ code. IsCodeOfEntry code.value.items self) }
    {
        match self {
            Entry::Made(made) => Ok(made.into_code()),
            Entry::Argument(argument) => Ok(argument.into_code()),
            Entry::Does(doing) => Ok(Rc::new(alloc, doing.into_code(alloc)?)?),
        }
    }
}

/// The same tree once more; nothing of it is copied.
fn share_tree<A: Allocator>(tree: &Script<A>) -> Result<Script<A>, NoMemory>
    ensures { IfOk result (λ same. (same.commands.value ≡ tree.now.commands.value)
        × (same.fault ≡ tree.now.fault)) }
{
    Ok(Script {
        commands: tree.commands.clone()?,
        fault: tree.fault,
    })
}

//! How deep the scripts and the expressions in the words of commands have code.

use crate::argument::put_argued;
use crate::inner::{emit_body, emit_expression, leave_body, leave_expression};
use crate::instruction::Instruction;
use memory::NoMemory;
use std::alloc::Allocator;
use tclparse::Word;
use tcltext::Value;

/// How deep what stands in words has code: each depth is a type, so that code is made without a
/// count of what is open.
pub(crate) trait Nest<A: Allocator> {
    ghost use Rattle.std.specs.Prelude.{IfOk, OnOk};
    ghost use Rattle.code.specs.Blocks.{BodyBlock, ExpressionBlock, OwnBlock};
    ghost use Rattle.tclparse.specs.Tree.{no_words};
    ghost use Rattle.tclparse.specs.View.{words_then};

    /// Puts a script that is a word of a command: it runs one level deeper, and so many words stand
    /// after it.
    fn put_body(
        &self,
        code: &mut Vec<Instruction<A>, A>,
        text: &Value<A>,
        after: usize,
    ) -> Result<(), NoMemory>
        ensures { OnOk result (BodyBlock code.old.items code.new.items text.now) };

    /// Puts an expression, whose value is put on top.
    fn put_expression(
        &self,
        code: &mut Vec<Instruction<A>, A>,
        text: &Value<A>,
    ) -> Result<(), NoMemory>
        ensures { OnOk result (ExpressionBlock code.old.items code.new.items text.now) };

    /// Puts the code of a command that takes branches and has an argument in braces, and says
    /// whether these words are one, and have code here.
    fn put_argued(
        &self,
        code: &mut Vec<Instruction<A>, A>,
        words: &[Word<A>],
    ) -> Result<bool, NoMemory>
        ensures { IfOk result (λ put. OwnBlock put code.old.items code.new.items
            (words_then words.now no_words)) };
}

/// What stands in words is left as text, which is read when it runs.
pub(crate) struct Flat;

/// What stands in words has code, and what stands in the words of that has it as deep as this says.
pub(crate) struct Deeper<N>(N);

/// As deep as the code of a whole script goes: within four bodies, what stands in the words of a
/// command is left as text.
pub(crate) const NESTED: Deeper<Deeper<Deeper<Deeper<Flat>>>> = Deeper(Deeper(Deeper(Deeper(
    Flat,
))));

impl<A: Allocator + Copy> Nest<A> for Flat {
    fn put_body(
        &self,
        code: &mut Vec<Instruction<A>, A>,
        text: &Value<A>,
        after: usize,
    ) -> Result<(), NoMemory> {
        Ok(leave_body(code, text, after)?)
    }

    fn put_expression(
        &self,
        code: &mut Vec<Instruction<A>, A>,
        text: &Value<A>,
    ) -> Result<(), NoMemory> {
        Ok(leave_expression(code, text)?)
    }

    fn put_argued(&self, _: &mut Vec<Instruction<A>, A>, _: &[Word<A>]) -> Result<bool, NoMemory> {
        Ok(false)
    }
}

impl<A: Allocator + Copy, N: Nest<A>> Nest<A> for Deeper<N> {
    fn put_body(
        &self,
        code: &mut Vec<Instruction<A>, A>,
        text: &Value<A>,
        after: usize,
    ) -> Result<(), NoMemory> {
        Ok(emit_body(code, text, after, &self.0)?)
    }

    fn put_expression(
        &self,
        code: &mut Vec<Instruction<A>, A>,
        text: &Value<A>,
    ) -> Result<(), NoMemory> {
        Ok(emit_expression(code, text, &self.0)?)
    }

    fn put_argued(
        &self,
        code: &mut Vec<Instruction<A>, A>,
        words: &[Word<A>],
    ) -> Result<bool, NoMemory> {
        Ok(put_argued(code, words, &self.0)?)
    }
}

//! What a command does that has code of its own and whose words are texts.

ghost use Rattle.std.specs.Prelude.{◌≡◌, [], ◌∷◌, ℕ, List, codes, IfOk, IfSome, OnOk};
ghost use Rattle.code.specs.Blocks.{ItsBlock};
ghost use Rattle.code.specs.Literals.{Are};
ghost use Rattle.code.specs.Own as definition;
ghost use Rattle.code.specs.Own.{IsOwn, name_of};
ghost use Rattle.pure.specs.Concat.{concatenated as joined_of};

use crate::branches::Branches;
use crate::catch::{Catch, emit_catch, read_catch};
use crate::conditional::{emit_branches, read_if};
use crate::evaluate::read_joined;
use crate::instruction::Instruction;
use crate::literal::{first_of, texts_of};
use crate::nest::Nest;
use crate::repeat::{For, Turns, emit_for, emit_turns, read_for, read_while};
use memory::NoMemory;
use std::alloc::Allocator;
use tclparse::Word;
use tcltext::Value;

/// What the words of a command are read as.
#[derive(Drop)]
pub(crate) enum Own<A: Allocator> {
    /// `if`.
    If(Branches<A>),
    /// `while`.
    While(Turns<A>),
    /// `for`.
    For(For<A>),
    /// `eval`, with its script.
    Eval(Value<A>),
    /// `catch`.
    Catch(Catch<A>),
    /// `expr`, with its expression.
    Expr(Value<A>),
}

/// Whether a command of this name may have code of its own.
fn has_own(name: &[u8]) -> bool
    ensures { result ≡ definition.has_own name.now }
{
    if name == b"if".as_slice() || name == b"while".as_slice() || name == b"for".as_slice() {
        return true;
    }
    name == b"eval".as_slice() || name == b"catch".as_slice() || name == b"expr".as_slice()
}

impl<A: Allocator + Copy> Own<A> {
    /// Reads the words of a command that has code of its own; `None` where it has none, or where a
    /// word is no literal.
    pub(crate) fn of_literals(alloc: A, words: &[Word<A>]) -> Result<Option<Own<A>>, NoMemory>
        ensures { IfOk result (λ read. IfSome read (λ own. (args : List (List ℕ)) ×
            Are words.now (name_of own ∷ args) × IsOwn own args)) }
    {
        let Some(name) = first_of(words) else {
            return Ok(None);
        };
        if !has_own(name.text) {
            return Ok(None);
        }
        let Some(texts) = texts_of(alloc, words)? else {
            return Ok(None);
        };
        Ok(Own::read(alloc, &texts)?)
    }

    /// Reads the words of a command that has code of its own; `None` where it has none.
    pub(crate) fn read(alloc: A, texts: &[Value<A>]) -> Result<Option<Own<A>>, NoMemory>
        ensures { IfOk result (λ read. IfSome read (λ own. (args : List (List ℕ)) ×
            (texts.now ≡ name_of own ∷ args) × IsOwn own args)) }
    {
        let [name, args @ ..] = texts else {
            return Ok(None);
        };
        let name = name.as_slice();
        if name == b"if".as_slice() {
            return Ok(read_if(alloc, args)?.map(|own| Own::If(own)));
        }
        if name == b"while".as_slice() {
            return Ok(read_while(alloc, args)?.map(|own| Own::While(own)));
        }
        if name == b"for".as_slice() {
            return Ok(read_for(alloc, args)?.map(|own| Own::For(own)));
        }
        if name == b"eval".as_slice() {
            return Ok(read_joined(alloc, args)?.map(|own| Own::Eval(own)));
        }
        if name == b"catch".as_slice() {
            return Ok(read_catch(args)?.map(|own| Own::Catch(own)));
        }
        if name == b"expr".as_slice() {
            return Ok(read_joined(alloc, args)?.map(|own| Own::Expr(own)));
        }
        Ok(None)
    }

    /// The name of the command.
    pub(crate) fn name(&self) -> &[u8]
        ensures { result.now ≡ name_of self.now }
    {
        match self {
            Own::If(_) => b"if",
            Own::While(_) => b"while",
            Own::For(_) => b"for",
            Own::Eval(_) => b"eval",
            Own::Catch(_) => b"catch",
            Own::Expr(_) => b"expr",
        }
    }
}

/// Puts what `expr` does: the value of its expression, as text.
fn emit_expr<A: Allocator + Copy, N: Nest<A>>(
    code: &mut Vec<Instruction<A>, A>,
    joined: &Value<A>,
    nest: &N,
) -> Result<(), NoMemory>
    ensures { (text : List ℕ) → joined.now ≡ joined_of (text ∷ []) →
        OnOk result (ItsBlock (codes "expr") code.old.items code.new.items (text ∷ [])) }
{
    nest.put_expression(code, joined)?;
    code.push(Instruction::Result)?;
    Ok(())
}

/// Puts what the command does.
pub(crate) fn emit_its<A: Allocator + Copy, N: Nest<A>>(
    code: &mut Vec<Instruction<A>, A>,
    own: &Own<A>,
    nest: &N,
) -> Result<(), NoMemory>
    ensures { (args : List (List ℕ)) → IsOwn own.now args →
        OnOk result (ItsBlock (name_of own.now) code.old.items code.new.items args) }
{
    match own {
        Own::If(own) => Ok(emit_branches(code, own, nest)?),
        Own::While(own) => Ok(emit_turns(code, own, nest)?),
        Own::For(own) => Ok(emit_for(code, own, nest)?),
        Own::Eval(own) => Ok(nest.put_body(code, own, 0)?),
        Own::Catch(own) => Ok(emit_catch(code, own, nest)?),
        Own::Expr(own) => Ok(emit_expr(code, own, nest)?),
    }
}

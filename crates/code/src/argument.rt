//! The words of `expect` and its kin where they are the name and one argument in braces (expect(1),
//! expect, expect_before and expect_after).

ghost use Rattle.std.specs.Prelude.{◌≡◌, [], ◌∷◌, ℕ, List, true, IfOk, IfSome, OnOk};
ghost use Rattle.code.specs.Argument as definition;
ghost use Rattle.code.specs.Argument.{IsArgued};
ghost use Rattle.code.specs.Blocks.{ItsBlock, OwnBlock};
ghost use Rattle.code.specs.Literals.{Are};
ghost use Rattle.tclparse.specs.Tree.{no_words};
ghost use Rattle.tclparse.specs.View.{words_then};

use crate::emit::{emit_argument, emit_words};
use crate::formula::fill;
use crate::instruction::Instruction;
use crate::literal::{first_of, texts_of};
use crate::nest::Nest;
use memory::NoMemory;
use std::alloc::Allocator;
use std::rc::Rc;
use tclparse::{Word, Words};
use tcltext::Value;

/// A command that takes branches, with its name and the words of its argument in braces.
#[derive(Drop)]
struct Argued<A: Allocator> {
    pub name: Value<A>,
    pub words: Rc<Vec<Word<A>, A>, A>,
}

/// The name of such a command, and the text of its argument.
#[derive(Drop)]
struct Named<'a> {
    name: &'a [u8],
    text: &'a [u8],
}

/// Whether the first byte of an argument that is not white is a newline, so that the argument is
/// one in braces (expect(1), expect).
pub fn is_braced(text: &[u8]) -> bool
    ensures { result ≡ definition.is_braced text.now }
{
    let mut rest = text;
    while let Some((byte, behind)) = rest.split_first() {
        if !is_white(*byte) {
            return *byte == b'\n';
        }
        rest = behind;
    }
    false
}

/// Whether a byte is white and no newline.
fn is_white(byte: u8) -> bool
    ensures { result ≡ definition.is_white byte }
{
    byte == b' ' || byte == b'\t' || byte == 0x0b || byte == 0x0c || byte == b'\r'
}

/// Whether a command of this name takes branches.
fn takes_branches(name: &[u8]) -> bool
    ensures { result ≡ definition.takes_branches name.now }
{
    if name == b"expect".as_slice() || name == b"expect_before".as_slice() {
        return true;
    }
    name == b"expect_after".as_slice()
}

/// The name of a command that takes branches, and its argument in braces, where both are literals
/// and nothing else stands there.
fn named_of<A: Allocator>(words: &[Word<A>]) -> Option<Named<'_>>
    ensures { IfSome result (λ named. Are words.now (named.name.now ∷ named.text.now ∷ [])
        × (definition.takes_branches named.name.now ≡ true)
        × (definition.is_braced named.text.now ≡ true)) }
{
    let name = first_of(words)?;
    let word = first_of(name.rest)?;
    if word.rest.is_empty() && takes_branches(name.text) && is_braced(word.text) {
        Some(Named {
            name: name.text,
            text: word.text,
        })
    } else {
        None
    }
}

/// Reads the words of a command as those of one that takes branches, with one argument in braces.
/// `None` where they are not that, where the argument has a fault, or where its words are texts as
/// they stand, so that nothing in them is to be run.
fn read_argued<A: Allocator + Copy>(
    alloc: A,
    words: &[Word<A>],
) -> Result<Option<Argued<A>>, NoMemory>
    ensures { IfOk result (λ read. IfSome read (λ own. (text : List ℕ) ×
        Are words.now (own.name ∷ text ∷ []) × IsArgued own text)) }
{
    let Some(named) = named_of(words) else {
        return Ok(None);
    };
    let Words { words: said, fault } = Words::read(alloc, named.text)?;
    if fault.is_some() || texts_of(alloc, &said)?.is_some() {
        return Ok(None);
    }
    let name = Value::from_slice(alloc, named.name)?;
    Ok(Some(Argued { name, words: said }))
}

/// Puts the name of a command that takes branches on top, and after it the words of its argument,
/// by which it says its branches.
fn emit_argued<A: Allocator + Copy, N: Nest<A>>(
    code: &mut Vec<Instruction<A>, A>,
    own: &Argued<A>,
    nest: &N,
) -> Result<(), NoMemory>
    ensures { (text : List ℕ) → IsArgued own.now text →
        OnOk result (ItsBlock own.now.name code.old.items code.new.items (text ∷ [])) }
{
    let name = own.name.share()?;
    code.push(Instruction::Text(name))?;
    emit_argument(code, &own.words, nest)?;
    Ok(())
}

/// Puts the code of a command that takes branches and has an argument in braces, and says whether
/// these words are one: its words, for where a procedure hides it, and then the words of its
/// argument.
pub(crate) fn put_argued<A: Allocator + Copy, N: Nest<A>>(
    code: &mut Vec<Instruction<A>, A>,
    words: &[Word<A>],
    nest: &N,
) -> Result<bool, NoMemory>
    ensures { IfOk result (λ put. OwnBlock put code.old.items code.new.items
        (words_then words.now no_words)) }
{
    let Some(own) = read_argued(*code.allocator(), words)? else {
        return Ok(false);
    };
    let name = own.name.share()?;
    let unhidden = code.len();
    code.push(Instruction::Hole)?;
    emit_words(code, words, nest)?;
    let over = code.len();
    code.push(Instruction::Hole)?;
    fill(code, unhidden, Instruction::Unhidden(name, code.len()));
    emit_argued(code, &own, nest)?;
    fill(code, over, Instruction::Jump(code.len()));
    Ok(true)
}

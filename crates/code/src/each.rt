//! The code of `foreach` whose variables and whose body are literals, and that has one list
//! (foreach(n)).

ghost use Rattle.std.specs.Prelude.{◌≡◌, is_some, IfOk, IfSome, OnOk};
ghost use Rattle.std.specs.List.{list_all};
ghost use Rattle.code.specs.Blocks.{AssignsBlock, DealBlock, ForeachBlock, NextBlock};
ghost use Rattle.code.specs.Code.{AreNames, foreach_words};
ghost use Rattle.tclparse.specs.Tree.{Parts, no_parts, no_words};
ghost use Rattle.tclparse.specs.Variable.{named};
ghost use Rattle.tclparse.specs.View.{parts_then, words_then};

use crate::formula::fill;
use crate::instruction::Instruction;
use crate::literal::{first_of, plain_of};
use crate::nest::Nest;
use memory::NoMemory;
use std::alloc::Allocator;
use tclparse::{Part, Word, variable_name};
use tcltext::{ListFault, Value, split_values};

/// A `foreach` with one list: the word of its variables, their names, and the body.
#[derive(Drop)]
pub(crate) struct Each<A: Allocator> {
    variables: Value<A>,
    names: Vec<Value<A>, A>,
    body: Value<A>,
}

/// The words after `foreach`: the variables, the word of their list, and the body.
#[derive(Drop)]
struct EachWords<'a, A: Allocator> {
    variables: &'a [u8],
    list: &'a [Part<A>],
    body: &'a [u8],
}

/// The words after `foreach`, where there is one list, and the words around it are literals.
fn each_words<A: Allocator>(words: &[Word<A>]) -> Option<EachWords<'_, A>>
    ensures { IfSome result (λ found. words_then words.now no_words
        ≡ foreach_words found.variables.now (parts_then found.list.now no_parts) found.body.now) }
{
    let name = first_of(words)?;
    let variables = first_of(name.rest)?;
    let list = plain_of(variables.rest)?;
    let body = first_of(list.rest)?;
    if name.text == b"foreach".as_slice() && body.rest.is_empty() {
        Some(EachWords {
            variables: variables.text,
            list: list.parts,
            body: body.text,
        })
    } else {
        None
    }
}

/// Whether each word names a variable or an element.
fn all_named<A: Allocator>(words: &[Value<A>]) -> bool
    ensures { result ≡ list_all (λ w. is_some (named w)) words.now }
{
    for word in words {
        if variable_name(word.as_slice()).is_err() {
            return false;
        }
    }
    true
}

/// The names in a word of variables; `None` where the word is no list, or has no element, or one
/// that names no variable.
fn names_of<A: Allocator + Copy>(
    alloc: A,
    word: &[u8],
) -> Result<Option<Vec<Value<A>, A>>, NoMemory>
    ensures { IfOk result (λ read. IfSome read (λ names. AreNames word.now names.items)) }
{
    let names = match split_values(alloc, word) {
        Ok(names) => names,
        Err(ListFault::NoMemory(refusal)) => return Err(refusal),
        Err(_) => return Ok(None),
    };
    if names.is_empty() || !all_named(&names) {
        return Ok(None);
    }
    Ok(Some(names))
}

/// Reads the words of a command as those of `foreach` with one list. `None` where they are not
/// that, where a word around the list is no literal, or where that of the variables names none.
pub(crate) fn read_each<A: Allocator + Copy>(
    alloc: A,
    words: &[Word<A>],
) -> Result<Option<Each<A>>, NoMemory>
    ensures { IfOk result (λ read. IfSome read (λ own. (list : Parts) ×
        (words_then words.now no_words ≡ foreach_words own.variables list own.body) ×
        AreNames own.variables own.names.items)) }
{
    let Some(found) = each_words(words) else {
        return Ok(None);
    };
    let Some(names) = names_of(alloc, found.variables)? else {
        return Ok(None);
    };
    let variables = Value::from_slice(alloc, found.variables)?;
    let body = Value::from_slice(alloc, found.body)?;
    Ok(Some(Each {
        variables,
        names,
        body,
    }))
}

/// Puts code by which each variable takes an element.
fn emit_assigns<A: Allocator + Copy>(
    code: &mut Vec<Instruction<A>, A>,
    names: &[Value<A>],
) -> Result<(), NoMemory>
    ensures { OnOk result (AssignsBlock code.old.items code.new.items names.now) }
{
    for name in names {
        let name = name.share()?;
        code.push(Instruction::Assign(name))?;
    }
    Ok(())
}

/// Puts the code that begins a turn, whose body stands at the one place and ends at the other, and
/// the end of the loop.
fn emit_next<A: Allocator + Copy>(
    code: &mut Vec<Instruction<A>, A>,
    names: &[Value<A>],
    body: usize,
    end: usize,
) -> Result<(), NoMemory>
    ensures { OnOk result (NextBlock code.old.items code.new.items names.now body end) }
{
    let more = code.len();
    code.push(Instruction::Hole)?;
    emit_assigns(code, names)?;
    code.push(Instruction::Begin(body, end))?;
    fill(code, more, Instruction::More(code.len()));
    code.push(Instruction::Done)?;
    Ok(())
}

/// Puts the code of the turns: the elements, with which it goes on at what begins a turn, and the
/// body before that.
fn emit_deal<A: Allocator + Copy, N: Nest<A>>(
    code: &mut Vec<Instruction<A>, A>,
    names: &[Value<A>],
    body: &Value<A>,
    nest: &N,
) -> Result<(), NoMemory>
    ensures { OnOk result (DealBlock code.old.items code.new.items names.now body.now) }
{
    let deal = code.len();
    code.push(Instruction::Hole)?;
    let first = code.len();
    nest.put_body(code, body, 0)?;
    let end = code.len();
    code.push(Instruction::EndTurn)?;
    fill(code, deal, Instruction::Deal(code.len()));
    emit_next(code, names, first, end)?;
    Ok(())
}

/// Puts what a `foreach` does once its list is on top: its turns.
pub(crate) fn emit_each<A: Allocator + Copy, N: Nest<A>>(
    code: &mut Vec<Instruction<A>, A>,
    own: &Each<A>,
    nest: &N,
) -> Result<(), NoMemory>
    ensures { AreNames own.now.variables own.now.names.items →
        OnOk result (ForeachBlock code.old.items code.new.items
        own.now.variables own.now.body) }
{
    let each = code.len();
    code.push(Instruction::Hole)?;
    emit_deal(code, &own.names, &own.body, nest)?;
    let variables = own.variables.share()?;
    let body = own.body.share()?;
    fill(
        code,
        each,
        Instruction::Foreach(variables, body, code.len()),
    );
    Ok(())
}

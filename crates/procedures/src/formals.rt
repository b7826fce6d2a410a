//! The formals of a procedure, as `proc` takes them.

ghost use Rattle.acts.specs.Raise.{Answers, Raises};
ghost use Rattle.kinds.specs.Readings.{Finds};
ghost use Rattle.procedures.specs.Formals as definition;

use acts::Raise;
use acts::raise::bad_argument;
use kinds::variables::name_in;
use meanings::no_list;
use std::alloc::Allocator;
use tclstate::{Formal, Formals, FormalsError};

/// The formals that a text is, each with the name of a variable as a whole (proc(n)).
///
/// # Errors
/// The text is no list; an element of it is no formal; the name of a formal is not that of a
/// variable as a whole. Or memory is refused.
pub fn formals_of<A: Allocator + Copy>(alloc: A, text: &[u8]) -> Result<Formals<A>, Raise<A>>
    ensures { Finds (λ formals. formals) (definition.formals_of text.now) result }
{
    let formals = listed(alloc, text)?;
    Ok(usable(alloc, text, formals)?)
}

/// The formals that a text is, whatever their names are.
fn listed<A: Allocator + Copy>(alloc: A, text: &[u8]) -> Result<Formals<A>, Raise<A>>
    ensures { Finds (λ formals. formals) (definition.listed text.now) result }
{
    match Formals::read(alloc, text) {
        Ok(formals) => Ok(formals),
        Err(FormalsError::NotAList(fault)) => Err(no_list(fault)),
        Err(FormalsError::BadFormal) => Err(bad_formals(alloc, text)),
        Err(FormalsError::NoMemory(refusal)) => Err(Raise::NoMemory(refusal)),
    }
}

/// Formals, where each has the name of a variable as a whole.
fn usable<A: Allocator + Copy>(
    alloc: A,
    text: &[u8],
    formals: Formals<A>,
) -> Result<Formals<A>, Raise<A>>
    ensures { Answers (λ formals. formals) (definition.usable text.now formals) result }
{
    all_whole(alloc, text, formals.as_slice())?;
    Ok(formals)
}

/// Refuses formals of which one has not the name of a variable as a whole.
fn all_whole<A: Allocator + Copy>(
    alloc: A,
    text: &[u8],
    formals: &[Formal<A>],
) -> Result<(), Raise<A>>
    ensures { Answers (λ done. tt) (definition.all_whole text.now formals.now) result }
{
    for formal in formals {
        whole(alloc, text, formal.name.as_slice())?;
    }
    Ok(())
}

/// Refuses a name that is not that of a variable as a whole.
fn whole<A: Allocator + Copy>(alloc: A, text: &[u8], name: &[u8]) -> Result<(), Raise<A>>
    ensures { Answers (λ done. tt) (definition.whole text.now name.now) result }
{
    let name = name_in(name)?;
    match name.index {
        None => Ok(()),
        Some(_) => Err(bad_formals(alloc, text)),
    }
}

/// The error of a text that is no list of formals.
fn bad_formals<A: Allocator + Copy>(alloc: A, text: &[u8]) -> Raise<A>
    ensures { Raises (definition.bad_formals text.now) result }
{
    bad_argument(alloc, text, b"proc")
}

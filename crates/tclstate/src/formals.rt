//! The formal arguments of a procedure.
ghost use Rattle.std.specs.Prelude.{◌≡◌, ℕ, List, IfOk, IfErr, IfSome};
ghost use Rattle.tclstate.specs.Formals.{IsFormal, IsFormals, single, takes_rest};
ghost use Rattle.tclstate.specs.FormalsError.{HasFault, IsNoFormal};
ghost use Rattle.tcltext.specs.Elements.{HasFlaw};
ghost use Rattle.tcltext.specs.Seen.{flaw_of};

use memory::NoMemory;
use std::alloc::{AllocError, AllocFailed, Allocator};
use std::error::Error;
use std::fmt;
use std::marker::Model;
use tcltext::{ListFault, Value, split_values};

/// Why a text was not read as formals.
#[derive(Clone, Copy, Debug, PartialEq, Eq)]
pub enum FormalsError {
    /// The text is no list.
    NotAList(ListFault),
    /// An element of the list is neither a name nor a name with its default.
    BadFormal,
    /// Memory was refused.
    NoMemory(NoMemory),
}

impl fmt::Display for FormalsError {
    fn fmt<W: fmt::Write>(&self, f: &mut fmt::Formatter<W>) -> fmt::Result {
        match self {
            FormalsError::NotAList(fault) => fault.fmt(f),
            FormalsError::BadFormal => f.write_str("neither a name nor a name with its default"),
            FormalsError::NoMemory(refusal) => refusal.fmt(f),
        }
    }
}

impl Error for FormalsError {}

impl From<NoMemory> for FormalsError {
    ghost use Rattle.tclstate.specs.FormalsError.{WantsMemory};

    ghost from_gives = { λ _ error. WantsMemory error };

    fn from(refusal: NoMemory) -> FormalsError {
        FormalsError::NoMemory(refusal)
    }
}

impl<T: Drop> From<AllocFailed<T>> for FormalsError {
    ghost use Rattle.tclstate.specs.FormalsError.{WantsMemory};

    ghost from_gives = { λ _ error. WantsMemory error };

    fn from(failed: AllocFailed<T>) -> FormalsError {
        FormalsError::NoMemory(failed.into())
    }
}

/// A formal argument: its name, and its default if it has one.
#[derive(Drop)]
pub struct Formal<A: Allocator> {
    pub name: Value<A>,
    pub default: Option<Value<A>>,
}

impl<A: Allocator> Model for Formal<A> {
    ghost use Rattle.tclstate.specs.Formals as definition;

    ghost Value = { definition.Formal };

    ghost view = { λ f. record { name = f.name; default = f.default } };
}

/// The formal arguments of a procedure, in order (proc(n)).
pub struct Formals<A: Allocator> {
    list: Vec<Formal<A>, A>,
}

impl<A: Allocator> Drop for Formals<A> {
    fn drop(self) {
        let Formals { list: _ } = self;
    }
}

impl<A: Allocator> Model for Formals<A> {
    ghost use Rattle.std.specs.Prelude.{List};
    ghost use Rattle.tclstate.specs.Formals as definition;

    ghost Value = { List definition.Formal };

    ghost view = { λ f. f.list.items };
}

impl<A: Allocator> Formals<A> {
    /// All of them, in order.
    pub fn as_slice(&self) -> &[Formal<A>]
        ensures { result.now ≡ self.now }
    {
        self.list.as_slice()
    }

    /// The formals that take one word each, and whether a last `args` takes the remaining words
    /// (proc(n)). A default of such an `args` is ignored.
    pub fn split(&self) -> (&[Formal<A>], bool)
        ensures single { result.0.now ≡ single self.now }
        ensures rest { result.1 ≡ takes_rest self.now }
    {
        let all = self.list.as_slice();
        if ends_in_args(all) {
            (&all[..all.len() - 1], true)
        } else {
            (all, false)
        }
    }
}

impl<A: Allocator + Copy> Formals<A> {
    /// Reads the formals of a procedure: a list, each element a name or a list of a name and its
    /// default (proc(n)). Any text is a name, also the empty one in `{{} 5}`; whether a variable
    /// may have that name is for the caller to check. A name that is given twice stands in the list
    /// twice.
    ///
    /// # Errors
    /// `NotAList` with the list's fault, `BadFormal` where the text is a list and some element is
    /// no formal, and `NoMemory`.
    pub fn read(alloc: A, text: &[u8]) -> Result<Formals<A>, FormalsError>
        ensures formals { IfOk result (λ formals. IsFormals formals text.now) }
        ensures fault { IfErr result (λ e. HasFault e text.now) }
    {
        let words = match split_values(alloc, text) {
            Ok(words) => words,
            Err(ListFault::NoMemory(refusal)) => return Err(FormalsError::NoMemory(refusal)),
            Err(fault) => return Err(FormalsError::NotAList(fault)),
        };
        let mut list = Vec::new(alloc);
        for word in &words {
            match read_formal(alloc, word.as_slice()) {
                Ok(formal) => list.push(formal)?,
                Err(error) => return Err(error),
            }
        }
        Ok(Formals { list })
    }
}

/// Reads one formal.
fn read_formal<A: Allocator + Copy>(alloc: A, text: &[u8]) -> Result<Formal<A>, FormalsError>
    ensures formal { IfOk result (λ formal. IsFormal formal text.now) }
    ensures fault { IfErr result (λ e. IsNoFormal e text.now) }
{
    let parts = match split_values(alloc, text) {
        Ok(parts) => parts,
        Err(fault) => return Err(no_formal(fault)),
    };
    match parts.as_slice() {
        [] => Err(FormalsError::BadFormal),
        [name] => Ok(Formal {
            name: name.share()?,
            default: None,
        }),
        [name, default] => Ok(Formal {
            name: name.share()?,
            default: Some(default.share()?),
        }),
        [_, _, _, ..] => Err(FormalsError::BadFormal),
    }
}

/// The error for a formal whose text was not read as a list.
fn no_formal(fault: ListFault) -> FormalsError
    ensures { (text : List ℕ) → IfSome (flaw_of fault) (λ flaw. HasFlaw flaw text)
        → IsNoFormal result text }
{
    match fault {
        ListFault::NoMemory(refusal) => FormalsError::NoMemory(refusal),
        _ => FormalsError::BadFormal,
    }
}

/// Whether the last formal is `args`.
fn ends_in_args<A: Allocator>(formals: &[Formal<A>]) -> bool
    ensures { result ≡ takes_rest formals.now }
{
    match formals {
        [.., last] => last.name.as_slice() == b"args".as_slice(),
        [] => false,
    }
}

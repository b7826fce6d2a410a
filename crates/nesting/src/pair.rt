//! Variables of `foreach`, with the elements that they are to take (foreach(n)).

ghost use Rattle.std.specs.Prelude.{◌≡◌, ℕ, ◌<◌, length, codes, IfOk, drop, IfNone};
ghost use Rattle.state.specs.Prelude.{Status, FitsState};
ghost use Rattle.nesting.specs.Foreach.{asked, assigned, assigns, behind, dealt, first_of, with_names, with_pair};
ghost use Rattle.nesting.specs.Looping.{Assigned, Comes, pair_of};

use crate::listed::elements_of;
use acts::{Fault, NoMemory};
use state::State;
use state::variables::{all_named, store};
use std::alloc::Allocator;
use std::collections::VecDeque;
use tclparse::{Name, variable_name};
use tcltext::Value;

/// Variables, and the elements that they are still to take.
pub struct Pair<A: Allocator> {
    pub names: Vec<Value<A>, A>,
    pub elements: VecDeque<Value<A>, A>,
}

impl<A: Allocator> Drop for Pair<A> {
    fn drop(self) {
        let Pair {
            names: _,
            elements: _,
        } = self;
    }
}

impl<A: Allocator + Copy> Pair<A> {
    /// Reads the word of the variables and that of their list; also gives how many turns they ask
    /// for. The script's error is given where a word is wrong.
    pub(crate) fn read(
        alloc: A,
        variables: &[u8],
        list: &[u8],
    ) -> Result<Result<(Pair<A>, usize), Fault<A>>, NoMemory>
        ensures reads { IfOk result (λ r.
            Comes r (λ read. pair_of read.0) (with_pair variables.now list.now)) }
        ensures turns { IfOk result (λ r. IfOk r (λ read. read.1 ≡ asked (pair_of read.0))) }
    {
        let names = match names_of(alloc, variables)? {
            Ok(names) => names,
            Err(fault) => return Ok(Err(fault)),
        };
        let elements = match elements_of(alloc, list)? {
            Ok(elements) => elements,
            Err(fault) => return Ok(Err(fault)),
        };
        let turns = elements.len().div_ceil(names.len());
        let elements = VecDeque::from(elements);
        Ok(Ok((Pair { names, elements }, turns)))
    }

    /// Sets each variable to its next element; gives the script's error where one can't be set.
    pub(crate) fn assign(
        &mut self,
        alloc: A,
        state: &mut State<A>,
    ) -> Result<Option<Fault<A>>, NoMemory>
        ensures assigns { (s : Status) → FitsState state.old s → IfOk result (λ told.
            Assigned told state.new
            (assigns (dealt self.old.names.items self.old.elements.items) s)) }
        ensures behind { IfOk result (λ told.
            IfNone told (pair_of self.new ≡ behind (pair_of self.old))) }
        ensures left { state.new.left ≡ state.old.left }
    {
        assign_all(alloc, state, &self.names, &mut self.elements)
    }
}

/// Sets variables to one element each; gives the script's error where one can't be set.
fn assign_all<A: Allocator + Copy>(
    alloc: A,
    state: &mut State<A>,
    names: &[Value<A>],
    elements: &mut VecDeque<Value<A>, A>,
) -> Result<Option<Fault<A>>, NoMemory>
    ensures assigns { (s : Status) → FitsState state.old s → IfOk result (λ told.
        Assigned told state.new (assigns (dealt names.now elements.old.items) s)) }
    ensures rest { IfOk result (λ told.
        IfNone told (elements.new.items ≡ drop (length names.now) elements.old.items)) }
    ensures left { state.new.left ≡ state.old.left }
{
    for name in names {
        let element = take_first(elements);
        if let Some(fault) = set(alloc, state, name.as_slice(), element)? {
            return Ok(Some(fault));
        }
    }
    Ok(None)
}

/// Takes the first element; the empty text where none is left.
fn take_first<A: Allocator>(elements: &mut VecDeque<Value<A>, A>) -> Value<A>
    ensures first { result ≡ first_of elements.old.items }
    ensures rest { elements.new.items ≡ drop 1 elements.old.items }
{
    match elements.pop_front() {
        Some(element) => element,
        None => Value::empty(),
    }
}

/// Sets a variable; gives the script's error where it can't be set.
fn set<A: Allocator + Copy>(
    alloc: A,
    state: &mut State<A>,
    word: &[u8],
    value: Value<A>,
) -> Result<Option<Fault<A>>, NoMemory>
    ensures assigns { (s : Status) → FitsState state.old s → IfOk result (λ told.
        Assigned told state.new (assigned word.now value s)) }
    ensures left { state.new.left ≡ state.old.left }
{
    let Ok(Name { name, index }) = variable_name(word) else {
        return Ok(Some(Fault::BadVariable));
    };
    match store(alloc, state, name, index, value)? {
        Ok(()) => Ok(None),
        Err(fault) => Ok(Some(fault)),
    }
}

/// The names in a word of variables, at least one; or the script's error.
fn names_of<A: Allocator + Copy>(
    alloc: A,
    word: &[u8],
) -> Result<Result<Vec<Value<A>, A>, Fault<A>>, NoMemory>
    ensures names { IfOk result (λ r. Comes r (λ names. names.items) (with_names word.now)) }
    ensures some { IfOk result (λ r. IfOk r (λ names. 0 < length names.items)) }
{
    let names = match elements_of(alloc, word)? {
        Ok(names) => names,
        Err(fault) => return Ok(Err(fault)),
    };
    if names.is_empty() {
        let word = Vec::from_slice(alloc, word)?;
        let command = Vec::from_slice(alloc, b"foreach")?;
        return Ok(Err(Fault::BadArgument { word, command }));
    }
    if !all_named(&names) {
        return Ok(Err(Fault::BadVariable));
    }
    Ok(Ok(names))
}

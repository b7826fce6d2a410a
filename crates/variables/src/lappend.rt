//! `lappend n ?v ..?` (lappend(n)).

ghost use Rattle.std.specs.Prelude.{◌≡◌, ◌++◌, ℕ, List, IfOk, option_copied};
ghost use Rattle.tcltext.specs.Canonical.{canonical, IsCanonical};
ghost use Rattle.kinds.specs.Answers.{Keeps};
ghost use Rattle.variables.specs.Lappend as definition;
ghost use Rattle.variables.specs.Lists.{HoldsList};
ghost use Rattle.kinds.specs.Readings.{Leaves};
ghost use Rattle.variables.specs.Values.{puts};

use crate::values::{held, put_back, release};
use acts::Raise;
use acts::raise::wrong_args;
use kinds::variables::name_in;
use meanings::list_of;
use std::alloc::Allocator;
use tclparse::Name;
use tclstate::Scopes;
use tcltext::Value;

/// Appends elements to a variable's list, and gives the whole list in its canonical text.
///
/// # Errors
/// There is no word; a word that is no variable name; a variable that can't be read or is no list:
/// nothing changes. Or memory is refused.
pub fn begin<A: Allocator + Copy>(
    alloc: A,
    scopes: &mut Scopes<A>,
    args: &[Value<A>],
) -> Result<Value<A>, Raise<A>>
    ensures { Leaves (definition.lappend args.now scopes.old) result scopes.new }
{
    match args {
        [] => Err(wrong_args(alloc, b"lappend")),
        [word, elements @ ..] => append(alloc, scopes, word.as_slice(), elements),
    }
}

/// Appends elements to the list of the variable or the element that a word names.
fn append<A: Allocator + Copy>(
    alloc: A,
    scopes: &mut Scopes<A>,
    word: &[u8],
    elements: &[Value<A>],
) -> Result<Value<A>, Raise<A>>
    ensures { Leaves (definition.appends word.now elements.now scopes.old) result scopes.new }
{
    let Name { name, index } = name_in(word)?;
    Ok(extend(alloc, scopes, name, index, elements)?)
}

/// Appends elements to the list of a variable or an element.
fn extend<A: Allocator + Copy>(
    alloc: A,
    scopes: &mut Scopes<A>,
    name: &[u8],
    index: Option<&[u8]>,
    more: &[Value<A>],
) -> Result<Value<A>, Raise<A>>
    ensures { Leaves
        (definition.extends name.now (option_copied index.entry) more.now scopes.old)
        result scopes.new }
{
    match list_in(alloc, scopes, name, index) {
        Ok(list) => put(alloc, scopes, name, index, list, more),
        Err(why) => Err(why),
    }
}

/// The canonical text of the list of a variable or an element, the empty list where it is missing.
fn list_in<A: Allocator + Copy>(
    alloc: A,
    scopes: &Scopes<A>,
    name: &[u8],
    index: Option<&[u8]>,
) -> Result<Value<A>, Raise<A>>
    ensures list { HoldsList result name.now (option_copied index.entry) scopes.now }
    ensures canonical { IfOk result IsCanonical }
{
    match held(alloc, scopes, name, index) {
        Ok(Some(text)) => list_of(alloc, text),
        Ok(None) => Ok(Value::empty()),
        Err(why) => Err(why),
    }
}

/// Appends elements to a list, writes its canonical text, and gives that. The variable lets go of
/// its text first, so that the list grows in place where no one else shares it.
fn put<A: Allocator + Copy>(
    alloc: A,
    scopes: &mut Scopes<A>,
    name: &[u8],
    index: Option<&[u8]>,
    list: Value<A>,
    more: &[Value<A>],
) -> Result<Value<A>, Raise<A>>
    requires { IsCanonical list }
    ensures { (v : List (List ℕ)) → list ≡ canonical v →
        Keeps (puts name.now (option_copied index.entry) (canonical (v ++ more.now)) scopes.old)
        scopes.old result scopes.new }
{
    release(scopes, name, index);
    let whole = list.push_elements(alloc, more)?;
    Ok(put_back(alloc, scopes, name, index, whole)?)
}

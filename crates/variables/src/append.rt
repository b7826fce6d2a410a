//! `append n v ..` (append(n)).

ghost use Rattle.std.specs.Prelude.{◌≡◌, ◌++◌, IfOk, OnOk, option_copied};
ghost use Rattle.std.specs.List.{concat};
ghost use Rattle.variables.specs.Append as definition;
ghost use Rattle.kinds.specs.Answers.{Keeps};

use crate::values::{put_back, taken};
use acts::raise::wrong_args;
use acts::{NoMemory, Raise};
use kinds::variables::name_in;
use std::alloc::Allocator;
use tclparse::Name;
use tclstate::Scopes;
use tcltext::Value;

/// Appends texts to that of a variable, and gives the whole.
///
/// # Errors
/// The wrong number of words; a word that is no variable name; or a variable that can't be read:
/// nothing changes. Or memory is refused.
pub fn begin<A: Allocator + Copy>(
    alloc: A,
    scopes: &mut Scopes<A>,
    args: &[Value<A>],
) -> Result<Value<A>, Raise<A>>
    ensures { Keeps (definition.append args.now scopes.old) scopes.old result scopes.new }
{
    match args {
        [] => Err(wrong_args(alloc, b"append")),
        [_] => Err(wrong_args(alloc, b"append")),
        [word, texts @ ..] => append(alloc, scopes, word.as_slice(), texts),
    }
}

/// Appends texts to that of the variable or the element that a word names.
fn append<A: Allocator + Copy>(
    alloc: A,
    scopes: &mut Scopes<A>,
    word: &[u8],
    texts: &[Value<A>],
) -> Result<Value<A>, Raise<A>>
    ensures { Keeps (definition.appends word.now texts.now scopes.old)
        scopes.old result scopes.new }
{
    let Name { name, index } = name_in(word)?;
    Ok(extend(alloc, scopes, name, index, texts)?)
}

/// Appends texts to that of a variable or an element.
fn extend<A: Allocator + Copy>(
    alloc: A,
    scopes: &mut Scopes<A>,
    name: &[u8],
    index: Option<&[u8]>,
    texts: &[Value<A>],
) -> Result<Value<A>, Raise<A>>
    ensures { Keeps (definition.extends name.now (option_copied index.entry)
        (concat texts.now) scopes.old) scopes.old result scopes.new }
{
    let text = taken(alloc, scopes, name, index)?;
    let whole = joined(alloc, text, texts)?;
    Ok(put_back(alloc, scopes, name, index, whole)?)
}

/// A text with others after it. The text grows in place where no one else shares it.
fn joined<A: Allocator + Copy>(
    alloc: A,
    text: Value<A>,
    texts: &[Value<A>],
) -> Result<Value<A>, NoMemory>
    ensures { IfOk result (λ whole. whole ≡ text ++ concat texts.now) }
{
    let mut whole = text.into_vec(alloc)?;
    push_all(&mut whole, texts)?;
    Ok(Value::new(alloc, whole)?)
}

/// Appends texts to a text. On `Err` some of them may have been appended.
fn push_all<A: Allocator>(whole: &mut Vec<u8, A>, texts: &[Value<A>]) -> Result<(), NoMemory>
    ensures { OnOk result (whole.new.items ≡ whole.old.items ++ concat texts.now) }
{
    for text in texts {
        whole.extend_from_slice(text.as_slice())?;
    }
    Ok(())
}

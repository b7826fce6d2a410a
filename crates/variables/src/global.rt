//! `global n ..` (global(n)).

ghost use Rattle.std.specs.Prelude.{◌≡◌, OnOk};
ghost use Rattle.acts.specs.Raise.{Answers};
ghost use Rattle.variables.specs.Global as definition;
ghost use Rattle.kinds.specs.Answers.{Keeps};

use acts::raise::{bad_argument, wrong_args};
use acts::{NoMemory, Raise};
use kinds::variables::name_in;
use std::alloc::Allocator;
use tclstate::Scopes;
use tcltext::Value;

/// In the procedure that runs, makes names mean the global variables of the same names; at the top
/// level nothing changes.
///
/// # Errors
/// There is no word, or one that names no variable as a whole, and then no name is linked; or
/// memory is refused.
pub fn begin<A: Allocator + Copy>(
    alloc: A,
    scopes: &mut Scopes<A>,
    args: &[Value<A>],
) -> Result<Value<A>, Raise<A>>
    ensures { Keeps (definition.global args.now scopes.old) scopes.old result scopes.new }
{
    match args {
        [] => Err(wrong_args(alloc, b"global")),
        [_, ..] => link_named(alloc, scopes, args),
    }
}

/// Links the names, where each word names a variable as a whole.
fn link_named<A: Allocator + Copy>(
    alloc: A,
    scopes: &mut Scopes<A>,
    words: &[Value<A>],
) -> Result<Value<A>, Raise<A>>
    ensures { Keeps (definition.links_named words.now scopes.old) scopes.old result scopes.new }
{
    all_whole(alloc, words)?;
    link_all(alloc, scopes, words)?;
    Ok(Value::empty())
}

/// Refuses words of which one names no variable as a whole.
fn all_whole<A: Allocator + Copy>(alloc: A, words: &[Value<A>]) -> Result<(), Raise<A>>
    ensures { Answers (λ done. tt) (definition.all_whole words.now) result }
{
    for word in words {
        whole(alloc, word.as_slice())?;
    }
    Ok(())
}

/// Refuses a word that names no variable as a whole.
fn whole<A: Allocator + Copy>(alloc: A, word: &[u8]) -> Result<(), Raise<A>>
    ensures { Answers (λ done. tt) (definition.whole word.now) result }
{
    let name = name_in(word)?;
    match name.index {
        None => Ok(()),
        Some(_) => Err(bad_argument(alloc, word, b"global")),
    }
}

/// Links each name to the global of that name. On `Err` some of them may be linked.
fn link_all<A: Allocator + Copy>(
    alloc: A,
    scopes: &mut Scopes<A>,
    words: &[Value<A>],
) -> Result<(), NoMemory>
    ensures { OnOk result (scopes.new ≡ definition.links words.now scopes.old) }
{
    for word in words {
        scopes.link_global(alloc, word.as_slice())?;
    }
    Ok(())
}

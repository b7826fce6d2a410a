//! The words of `eval` and of `expr` where they are the name and one text (eval(n); expr(n)).

ghost use Rattle.std.specs.Prelude.{◌≡◌, [], ◌∷◌, ℕ, List, IfOk, IfSome};
ghost use Rattle.pure.specs.Concat.{concatenated as joined_of};

use memory::NoMemory;
use pure::concatenated;
use std::alloc::Allocator;
use tcltext::Value;

/// Reads the words after the name of a command as one word, which is given without the white space
/// at its ends (concat(n)). `None` where they are not that.
pub(crate) fn read_joined<A: Allocator + Copy>(
    alloc: A,
    args: &[Value<A>],
) -> Result<Option<Value<A>>, NoMemory>
    ensures { IfOk result (λ read. IfSome read (λ own. (text : List ℕ) ×
        (args.now ≡ text ∷ []) × (own ≡ joined_of (text ∷ [])))) }
{
    let [_] = args else {
        return Ok(None);
    };
    let text = concatenated(alloc, args)?;
    let joined = Value::from_slice(alloc, &text)?;
    Ok(Some(joined))
}

//! `proc n formals b` (proc(n)).

ghost use Rattle.std.specs.Prelude.{◌≡◌, OnErr};
ghost use Rattle.kinds.specs.Readings.{Found, Leaves};
ghost use Rattle.procedures.specs.Proc as definition;

use crate::formals::formals_of;
use acts::raise::wrong_args;
use acts::{Fault, Raise};
use std::alloc::Allocator;
use tclparse::holds_colons;
use tclstate::{Formals, Procedure, Procs};
use tcltext::Value;

/// Defines a procedure, in place of what was defined for its name before. The name is examined
/// first, then the formals; the body is read when the procedure is called.
///
/// # Errors
/// The wrong number of words; a name that holds `::`; a text that is no list of formals; or memory
/// is refused. Nothing changes.
pub fn begin<A: Allocator + Copy>(
    alloc: A,
    procs: &mut Procs<A>,
    args: &[Value<A>],
) -> Result<Value<A>, Raise<A>>
    ensures leaves { Leaves (definition.proc args.now procs.old) result procs.new }
    ensures unchanged { OnErr result (procs.new ≡ procs.old) }
{
    match args {
        [name, formals, body] => {
            define_named(alloc, procs, name.as_slice(), formals.as_slice(), body)
        }
        _ => Err(wrong_args(alloc, b"proc")),
    }
}

/// Defines the procedure of a name; a name that holds `::` is refused.
fn define_named<A: Allocator + Copy>(
    alloc: A,
    procs: &mut Procs<A>,
    name: &[u8],
    formals: &[u8],
    body: &Value<A>,
) -> Result<Value<A>, Raise<A>>
    ensures leaves { Leaves (definition.defines_named name.now formals.now body.now procs.old)
        result procs.new }
    ensures unchanged { OnErr result (procs.new ≡ procs.old) }
{
    if holds_colons(name) {
        Err(Raise::Fault(Fault::BadVariable))
    } else {
        define_read(alloc, procs, name, formals, body)
    }
}

/// Defines the procedure of a name with the formals that a text is.
fn define_read<A: Allocator + Copy>(
    alloc: A,
    procs: &mut Procs<A>,
    name: &[u8],
    formals: &[u8],
    body: &Value<A>,
) -> Result<Value<A>, Raise<A>>
    ensures leaves { Leaves (definition.defines_read name.now formals.now body.now procs.old)
        result procs.new }
    ensures unchanged { OnErr result (procs.new ≡ procs.old) }
{
    let formals = formals_of(alloc, formals)?;
    Ok(define(alloc, procs, name, formals, body)?)
}

/// Defines the procedure of a name.
fn define<A: Allocator + Copy>(
    alloc: A,
    procs: &mut Procs<A>,
    name: &[u8],
    formals: Formals<A>,
    body: &Value<A>,
) -> Result<Value<A>, Raise<A>>
    ensures leaves { Leaves (Found (definition.defines name.now formals body.now procs.old))
        result procs.new }
    ensures unchanged { OnErr result (procs.new ≡ procs.old) }
{
    let body = body.share()?;
    procs.define(alloc, name, Procedure { formals, body })?;
    Ok(Value::empty())
}

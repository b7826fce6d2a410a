//! The commands that read and change the variables alone.

ghost use Rattle.commands.specs.Locals as definition;
ghost use Rattle.kinds.specs.Readings.{Leaves};

use acts::Raise;
use std::alloc::Allocator;
use tclstate::Scopes;
use tcltext::Value;
use variables::{append, array, global, incr, info, lappend, set, unset};

/// The commands that read and change the variables alone.
#[derive(Clone, Copy, Debug, PartialEq, Eq)]
pub(crate) enum Local {
    Set,
    Append,
    Incr,
    Lappend,
    Unset,
    Global,
    Array,
    Info,
}

/// Performs one of these commands.
#[inline(always)]
#[tactic(auto, using(kinds::proofs::Left::stores_leave, kinds::proofs::Left::keeps_leave))]
pub(crate) fn call<A: Allocator + Copy>(
    alloc: A,
    scopes: &mut Scopes<A>,
    local: Local,
    args: &[Value<A>],
) -> Result<Value<A>, Raise<A>>
    ensures { Leaves (definition.does local args.now scopes.old) result scopes.new }
{
    match local {
        Local::Set => set::begin(alloc, scopes, args),
        Local::Append => append::begin(alloc, scopes, args),
        Local::Incr => incr::begin(alloc, scopes, args),
        Local::Lappend => lappend::begin(alloc, scopes, args),
        Local::Unset => unset::begin(alloc, scopes, args),
        Local::Global => global::begin(alloc, scopes, args),
        Local::Array => array::begin(alloc, scopes, args),
        Local::Info => info::begin(alloc, scopes, args),
    }
}

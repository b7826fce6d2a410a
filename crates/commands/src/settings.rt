//! The commands that read or change settings, and ask for no act.

ghost use Rattle.std.specs.Prelude.{◌≤◌};
ghost use Rattle.commands.specs.Settings as definition;
ghost use Rattle.kinds.specs.Answers.{Sets};
ghost use Rattle.state.specs.Prelude.{Status, FitsState};

use acts::Raise;
use output::log_user;
use processes::{match_max, remove_nulls};
use state::State;
use std::alloc::Allocator;
use tcltext::Value;

/// The commands that read or change settings, and ask for no act.
#[derive(Clone, Copy, Debug, PartialEq, Eq)]
pub(crate) enum Setting {
    MatchMax,
    RemoveNulls,
    LogUser,
}

/// Performs one of these commands.
#[inline(always)]
pub(crate) fn call<A: Allocator + Copy>(
    alloc: A,
    state: &mut State<A>,
    setting: Setting,
    args: &[Value<A>],
) -> Result<Value<A>, Raise<A>>
    ensures shows { (s : Status) → FitsState state.old s →
        Sets (definition.does setting args.now s) s result state.new }
    ensures left { state.new.left ≤ state.old.left }
{
    match setting {
        Setting::MatchMax => match_max::begin(alloc, state, args),
        Setting::RemoveNulls => remove_nulls::begin(alloc, state, args),
        Setting::LogUser => log_user::begin(alloc, state, args),
    }
}

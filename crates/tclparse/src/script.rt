//! Whole scripts.

ghost use Rattle.std.specs.Prelude.{IfOk, option_map};
ghost use Rattle.tclparse.specs.View.{commands_of};
ghost use Rattle.tclparse.specs.Normal.{AreNormalCommands};
ghost use Rattle.tclparse.specs.Grammar.{IsScript};
ghost use Rattle.tclparse.specs.Seen.{fault_of};

use crate::context::Context;
use crate::fault::Fault;
use crate::read::{MAX_OPEN, read_commands};
use crate::tree::Command;
use memory::NoMemory;
use std::alloc::Allocator;
use std::rc::Rc;

/// A script's tree (Tcl(n)).
pub struct Script<A: Allocator> {
    /// The commands before the end or the fault. A frame can keep the list alive by a clone of the
    /// pointer.
    pub commands: Rc<Vec<Command<A>, A>, A>,
    /// What ends the reading early: the first fault from the left, which is in the command after
    /// the last one of `commands`.
    pub fault: Option<Fault>,
}

impl<A: Allocator> Drop for Script<A> {
    fn drop(self) {
        let Script {
            commands: _,
            fault: _,
        } = self;
    }
}

impl<A: Allocator + Copy> Script<A> {
    /// Reads a whole text. Each text has exactly one tree (`laws`).
    ///
    /// Takes time linear in the length of the text, and stack for each bracket and index that is
    /// open at one place. On `NoMemory` nothing stays allocated.
    pub fn read(alloc: A, text: &[u8]) -> Result<Script<A>, NoMemory>
        ensures tree { IfOk result (λ s.
            IsScript (commands_of s.commands) (option_map fault_of s.fault) text.now) }
        ensures normal { IfOk result (λ s. AreNormalCommands s.commands) }
    {
        let (commands, end) = read_commands(alloc, Context::Script, MAX_OPEN, text)?;
        let fault = end.err();
        Ok(Script { commands, fault })
    }
}

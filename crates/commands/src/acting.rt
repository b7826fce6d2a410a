//! The commands that ask for acts: how each one begins, and how it continues with an answer.

ghost use Rattle.std.specs.Prelude.{◌≤◌};
ghost use Rattle.state.specs.Prelude.{deed_of, reply_of, Status, FitsState};
ghost use Rattle.commands.specs.Acting as definition;
ghost use Rattle.commands.specs.View.{next_of};
ghost use Rattle.kinds.specs.Answers.{Comes};
ghost use Rattle.kinds.specs.Exchange.{talks};

use crate::waits::Waits;
use acts::{Act, Answer, Raise};
use output::{channel, log_file, puts, send, send_error, send_log, send_user};
use processes::{close, sleep, socket, spawn, wait};
use state::{Leaf, State};
use std::alloc::Allocator;
use tcltext::Value;

/// The commands that ask for acts.
#[derive(Clone, Copy, Debug, PartialEq, Eq)]
pub enum Acting {
    Puts,
    Spawn,
    Send,
    Sleep,
    Socket,
    Close,
    Wait,
    SendUser,
    SendError,
    SendLog,
    LogFile,
}

/// Begins one of these commands, up to its first act.
#[inline(always)]
#[tactic(auto, using(kinds::proofs::Comes::talks_comes, kinds::proofs::Comes::fails_comes))]
pub(crate) fn call<A: Allocator + Copy>(
    alloc: A,
    state: &mut State<A>,
    acting: Acting,
    args: &[Value<A>],
) -> Result<Leaf<A, Waits<A>>, Raise<A>>
    ensures shows { (s : Status) → FitsState state.old s →
        Comes next_of (talks (definition.does acting args.now s) s) result state.new }
    ensures left { state.new.left ≤ state.old.left }
{
    match acting {
        Acting::Puts => Ok(puts::begin(alloc, args)?.map(|own| Waits::Write(own))),
        Acting::Spawn => Ok(spawn::begin(alloc, state, args)?.map(|own| Waits::Spawn(own))),
        Acting::Send => Ok(send::begin(alloc, state, args)?.map(|own| Waits::Send(own))),
        Acting::Sleep => Ok(sleep::begin(alloc, state, args)?.map(|own| Waits::Sleep(own))),
        Acting::Socket => Ok(socket::begin(alloc, state, args)?.map(|own| Waits::Socket(own))),
        Acting::Close => Ok(close::begin(alloc, state, args)?.map(|own| Waits::Close(own))),
        Acting::Wait => Ok(wait::begin(alloc, state, args)?.map(|own| Waits::Wait(own))),
        Acting::SendUser => Ok(send_user::begin(alloc, args)?.map(|own| Waits::Write(own))),
        Acting::SendError => Ok(send_error::begin(alloc, args)?.map(|own| Waits::Write(own))),
        Acting::SendLog => Ok(send_log::begin(alloc, state, args)?.map(|own| Waits::Write(own))),
        Acting::LogFile => Ok(log_file::begin(alloc, state, args)?.map(|own| Waits::LogFile(own))),
    }
}

/// Continues one of these commands with the answer to its act.
#[inline(always)]
#[tactic(auto, using(kinds::proofs::Comes::goes_on_comes))]
pub(crate) fn answered<A: Allocator + Copy>(
    alloc: A,
    state: &mut State<A>,
    act: Act<A>,
    waits: Waits<A>,
    answer: Answer<A>,
) -> Result<Leaf<A, Waits<A>>, Raise<A>>
    ensures shows { (s : Status) → FitsState state.old s → Comes next_of
        (next_of waits (deed_of act) s (reply_of answer)) result state.new }
    ensures left { state.new.left ≤ state.old.left }
{
    match waits {
        Waits::Write(own) => {
            Ok(channel::answered(alloc, state, act, own, answer)?.map(|own| Waits::Write(own)))
        }
        Waits::Spawn(own) => {
            Ok(spawn::answered(alloc, state, act, own, answer)?.map(|own| Waits::Spawn(own)))
        }
        Waits::Send(own) => Ok(send::answered(state, own, answer)?.map(|own| Waits::Send(own))),
        Waits::Sleep(_) => Ok(sleep::answered(state)?.map(|own| Waits::Sleep(own))),
        Waits::Socket(_) => {
            Ok(socket::answered(alloc, state, act, answer)?.map(|own| Waits::Socket(own)))
        }
        Waits::Close(own) => Ok(close::answered(state, own)?.map(|own| Waits::Close(own))),
        Waits::Wait(own) => {
            Ok(wait::answered(alloc, state, own, answer)?.map(|own| Waits::Wait(own)))
        }
        Waits::LogFile(own) => {
            Ok(log_file::answered(alloc, state, act, own, answer)?.map(|own| Waits::LogFile(own)))
        }
    }
}

//! Programs over pipes.

ghost use Rattle.std.specs.Prelude.{◌≡◌, ◌≢◌, ◌==◌, ℕ, ℤ, Option, map, position, true, IfErr, IfOk, OnErr, OnOk};
ghost use Rattle.std.specs.declared.io.Error.{Error};
ghost use Rattle.acts.specs.Deed.{reply_of};
ghost use Rattle.acts.specs.Deed as said;
ghost use Rattle.acts.specs.Fits as table;
ghost use Rattle.live.specs.Calls as call;
ghost use Rattle.live.specs.Refusing.{IsRefusal, NamingStops, StartStops};
ghost use Rattle.live.specs.Live.{AddsProgram, IsNamed, IsStart, IsWhy, LosesProgram, Opens, exit_status};

use crate::calls::{Owned, System};
use crate::peers::{Peer, Peers};
use crate::system::{refused, text_of};
use acts::{Answer, Id};
use std::alloc::Global;
use std::io::{self, ErrorKind};

/// The command of a program and its arguments. Its standard error stays that of this process.
fn command_of<S: System>(system: &mut S, words: &[Vec<u8>]) -> io::Result<S::Command>
    ensures named { OnOk result (IsNamed S.step system.old (map (λ word. word.items) words.now)
        system.new) }
    ensures stops { IfErr result (λ error. NamingStops S.step system.old
        (map (λ word. word.items) words.now) error system.new) }
{
    let Some((name, args)) = words.split_first() else {
        return Err(io::Error::from(ErrorKind::InvalidInput));
    };
    let mut command = system.command(text_of(name)?)?;
    for arg in args {
        system.arg(&mut command, text_of(arg)?)?;
    }
    Ok(command)
}

/// Starts a program under an id, and says the number of its process.
pub fn spawn<S: System>(
    system: &mut S,
    peers: &mut Peers<S::Link>,
    programs: &mut Vec<S::Program>,
    id: Id,
    words: &[Vec<u8>],
    why: &mut Option<io::Error>,
) -> Answer<Global>
    ensures fits { table.fits_spawn (reply_of result) ≡ true }
    ensures why { IsWhy (reply_of result) why.old why.new }
    ensures started { (pid : ℕ) → reply_of result ≡ said.Started pid →
        Opens S.Link.owner id peers.old peers.new
        × IsStart S.step system.old id (map (λ word. word.items) words.now) pid system.new }
    ensures added { (pid : ℕ) → reply_of result ≡ said.Started pid →
        AddsProgram S.Program.owner id programs.old.items programs.new.items }
    ensures kept { ((pid : ℕ) → reply_of result ≢ said.Started pid) →
        programs.new.items ≡ programs.old.items }
    ensures refused { ((pid : ℕ) → reply_of result ≢ said.Started pid) →
        (peers.new.deadline ≡ peers.old.deadline) × (peers.new.last ≡ peers.old.last)
        × (peers.new.list.items ≡ peers.old.list.items)
        × ((error : Error) × IsRefusal error (reply_of result) × StartStops S.step system.old id
        (map (λ word. word.items) words.now) error system.new) }
{
    match started(system, peers, programs, id, words) {
        Ok(number) => Answer::Started(number),
        Err(error) => refused(why, error),
    }
}

/// Starts a program under an id, and gives the number of its process. Its link and the room for it
/// are made first, so that no program is left running for which nobody waits.
fn started<S: System>(
    system: &mut S,
    peers: &mut Peers<S::Link>,
    programs: &mut Vec<S::Program>,
    id: Id,
    words: &[Vec<u8>],
) -> io::Result<u64>
    ensures started { IfOk result (λ pid. Opens S.Link.owner id peers.old peers.new
        × IsStart S.step system.old id (map (λ word. word.items) words.now) pid system.new) }
    ensures added { OnOk result (AddsProgram S.Program.owner id programs.old.items
        programs.new.items) }
    ensures kept { OnErr result (programs.new.items ≡ programs.old.items) }
    ensures refused { OnErr result ((peers.new.deadline ≡ peers.old.deadline)
        × (peers.new.last ≡ peers.old.last) × (peers.new.list.items ≡ peers.old.list.items)) }
    ensures stops { IfErr result (λ error. StartStops S.step system.old id
        (map (λ word. word.items) words.now) error system.new) }
{
    peers.reserve()?;
    programs.reserve(1)?;
    let mut command = command_of(system, words)?;
    let link = system.pipes(id, &mut command)?;
    system.watch(&link)?;
    let (program, number) = system.start(id, &mut command)?;
    programs.push_reserved(program);
    peers.list.push_reserved(Peer::new(peers.alloc, link));
    Ok(number)
}

/// Waits for the program of an id to end, and takes it out of those that were started. The answer
/// is that there are no more answers where no program was started under the id, or where it was
/// waited for already.
pub fn reap<S: System>(system: &mut S, programs: &mut Vec<S::Program>, id: Id) -> Answer<Global>
    ensures fits { table.fits_reap (reply_of result) ≡ true }
    ensures exited { (status : Option ℕ) → reply_of result ≡ said.Exited status →
        (code : Option ℤ) × S.step system.old (call.Wait id code) system.new
        × (status ≡ exit_status code) }
    ensures gone { (status : Option ℕ) → reply_of result ≡ said.Exited status →
        LosesProgram S.Program.owner id programs.old.items programs.new.items }
{
    let Some(place) = place_of(programs, id) else {
        return Answer::NoMore;
    };
    let mut program = programs.remove(place);
    match system.wait(&mut program) {
        Ok(code) => Answer::Exited(status_of(code)),
        Err(_) => Answer::NoMore,
    }
}

/// The place of the first program of an id.
fn place_of<P: Owned>(programs: &[P], id: Id) -> Option<usize>
    ensures { result ≡ position (λ program. (P.owner program).0 == id.0) programs.now }
{
    programs.iter().position(|program| program.id() == id)
}

/// The status of an exit; none where there is no code, or none of 8 bits.
fn status_of(code: Option<i32>) -> Option<u8>
    ensures { result ≡ exit_status code }
{
    match u8::try_from(code?) {
        Ok(status) => Some(status),
        Err(_) => None,
    }
}

//! Servers over TCP.

ghost use Rattle.std.specs.Prelude.{◌≡◌, ◌≢◌, [], ◌∷◌, true, IfErr, OnErr, OnOk};
ghost use Rattle.std.specs.declared.io.Error.{Error};
ghost use Rattle.acts.specs.Deed.{reply_of};
ghost use Rattle.acts.specs.Deed as said;
ghost use Rattle.acts.specs.Fits as table;
ghost use Rattle.live.specs.Calls as call;
ghost use Rattle.live.specs.Live.{IsWhy, Opens};
ghost use Rattle.live.specs.Refusing.{IsRefusal, StopsShort};

use crate::calls::System;
use crate::peers::{Peer, Peers};
use crate::system::{refused, text_of};
use acts::{Answer, Id};
use std::alloc::Global;
use std::io;

/// Connects to a port of a host under an id. It waits until the host answers or refuses.
pub fn connect<S: System>(
    system: &mut S,
    peers: &mut Peers<S::Link>,
    id: Id,
    host: &[u8],
    port: u16,
    why: &mut Option<io::Error>,
) -> Answer<Global>
    ensures fits { table.fits_open (reply_of result) ≡ true }
    ensures why { IsWhy (reply_of result) why.old why.new }
    ensures done { reply_of result ≡ said.Done → Opens S.Link.owner id peers.old peers.new
        × call.Made S.step system.old (call.Connect id host.now port ∷ call.Poll id ∷ [])
        system.new }
    ensures refused { reply_of result ≢ said.Done → (peers.new.deadline ≡ peers.old.deadline)
        × (peers.new.last ≡ peers.old.last) × (peers.new.list.items ≡ peers.old.list.items)
        × ((error : Error) × IsRefusal error (reply_of result) × StopsShort S.step system.old
        (call.Connect id host.now port ∷ call.Poll id ∷ []) error system.new) }
{
    match connected(system, peers, id, host, port) {
        Ok(()) => Answer::Done,
        Err(error) => refused(why, error),
    }
}

/// Connects to a port of a host under an id. Room for the link is made first.
fn connected<S: System>(
    system: &mut S,
    peers: &mut Peers<S::Link>,
    id: Id,
    host: &[u8],
    port: u16,
) -> io::Result<()>
    ensures done { OnOk result (Opens S.Link.owner id peers.old peers.new
        × call.Made S.step system.old (call.Connect id host.now port ∷ call.Poll id ∷ [])
        system.new) }
    ensures refused { OnErr result ((peers.new.deadline ≡ peers.old.deadline)
        × (peers.new.last ≡ peers.old.last) × (peers.new.list.items ≡ peers.old.list.items)) }
    ensures stops { IfErr result (λ error. StopsShort S.step system.old
        (call.Connect id host.now port ∷ call.Poll id ∷ []) error system.new) }
{
    peers.reserve()?;
    let link = system.connect(id, text_of(host)?, port)?;
    system.watch(&link)?;
    peers.list.push_reserved(Peer::new(peers.alloc, link));
    Ok(())
}

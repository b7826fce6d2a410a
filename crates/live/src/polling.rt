//! The system's poll over all links.

use crate::calls::Owned;
use crate::host::{Ends, Wire};
use crate::link::Look;
use crate::silent::Silent;
use acts::Id;
use mio::event::Event;
use mio::unix::SourceFd;
use mio::{Events, Interest, Poll, Token};
use std::alloc::Global;
use std::io::{self, ErrorKind};
use std::net::{Net, TcpStream};
use std::os::fd::{AsRawFd, RawFd};
use std::time::Duration;

/// How many events one call takes from the system at most: more than there are links, as scripts
/// open them.
const MOST_EVENTS: usize = 128;

/// The token of what no id is told of.
const NONE: Token = Token(usize::MAX);

/// How much the poll has told of what came.
#[derive(Clone, Copy, PartialEq, Eq)]
enum Told {
    /// Not all: since it was asked something was read or written, or time has passed.
    NotAll,
    /// Not all either, and a silent link was read since, to see whether something came.
    Probed,
    /// All: it was asked, and nothing but silent links was looked at since.
    All,
}

/// The links that are watched.
pub struct Polling {
    poll: Poll,
    /// This one is asked about one end at a time, so that `poll` still reports what is new.
    single: Poll,
    events: Events<Global>,
    silent: Silent,
    told: Told,
    /// Whether the poll was asked in the midst of a look, and told of a link which that look may
    /// have passed.
    is_ahead: bool,
}

impl Drop for Polling {
    fn drop(self) {
        let Polling {
            poll: _,
            single: _,
            events: _,
            silent: _,
            told: _,
            is_ahead: _,
        } = self;
    }
}

impl Polling {
    /// Watches no link. Errors: memory is refused, or the system gives no poll.
    pub fn new<R: Net + AllocGlobal>(rt: &R) -> io::Result<Polling> {
        Ok(Polling {
            poll: Poll::new(rt)?,
            single: Poll::new(rt)?,
            events: Events::with_capacity(rt.alloc(), MOST_EVENTS)?,
            silent: Silent::none(),
            told: Told::NotAll,
            is_ahead: false,
        })
    }

    /// Makes pauses end when something new can be read from this link. A link that is dropped is no
    /// longer watched.
    pub fn watch(&self, link: &Wire) -> io::Result<()> {
        let mut source = SourceFd(&read_end(&link.ends));
        let token = token_of(link.id());
        self.poll
            .registry()
            .register(&mut source, token, Interest::READABLE)
    }

    /// Waits until something new can be read from any link, or a signal comes, or the time is up.
    /// Where something was told of that may not have been looked at yet, it does not wait: that is
    /// told once.
    pub fn pause(&mut self, time: Option<Duration>) -> io::Result<()> {
        let time = if self.is_ahead {
            Some(Duration::ZERO)
        } else {
            time
        };
        // A pause that a signal ends has no event, and there may be some.
        let count = self.hear(time)?;
        if 0 < count && count < MOST_EVENTS {
            self.told = Told::All;
        }
        Ok(())
    }

    /// Waits until the link can be written to, or something new can be read from any link. A link
    /// that was found at its end is not waited for to be read, since its end would never be new.
    pub fn pause_to_write(&mut self, link: &Wire, found: Look) -> io::Result<()> {
        match &link.ends {
            Ends::Program { input, .. } => {
                let mut source = SourceFd(&input.as_raw_fd());
                self.poll
                    .registry()
                    .register(&mut source, NONE, Interest::WRITABLE)?;
                let ended = self.pause(None);
                self.poll.registry().deregister(&mut source)?;
                ended
            }
            Ends::Server(stream) => {
                let mut source = SourceFd(&stream.as_raw_fd());
                let token = token_of(link.id());
                let wanted = match found {
                    Look::End => Interest::WRITABLE,
                    Look::Bytes(_) | Look::Silence => Interest::READABLE | Interest::WRITABLE,
                };
                self.poll.registry().reregister(&mut source, token, wanted)?;
                let ended = self.pause(None);
                self.poll
                    .registry()
                    .reregister(&mut source, token, Interest::READABLE)?;
                ended
            }
        }
    }

    /// Whether a read from the link of an id would find nothing, where that is known without one:
    /// the last read found nothing, and the poll, which tells once of each link to which something
    /// comes after that, has told nothing of it since (epoll(7), edge-triggered). The first such
    /// link is to be read all the same, so that a wait for one id does not ask the poll as well.
    pub fn is_silent(&mut self, id: Id) -> bool {
        if !self.silent.has(id) {
            return false;
        }
        match self.told {
            Told::NotAll => {
                self.told = Told::Probed;
                false
            }
            Told::Probed => self.ask_of_all() && self.silent.has(id),
            Told::All => true,
        }
    }

    /// Asks of all links at once, and says whether all were told of.
    fn ask_of_all(&mut self) -> bool {
        let Ok(count) = self.hear(Some(Duration::ZERO)) else {
            return false;
        };
        self.is_ahead = count > 0;
        if count < MOST_EVENTS {
            self.told = Told::All;
        }
        count < MOST_EVENTS
    }

    /// Waits for events, notes of which links they tell, and says how many came.
    fn hear(&mut self, time: Option<Duration>) -> io::Result<usize> {
        self.doubt();
        self.is_ahead = false;
        self.poll.poll(&mut self.events, time)?;
        for event in self.events.iter() {
            self.silent.wake(Id(event.token().0 as u64));
        }
        Ok(self.events.iter().count())
    }

    /// Notes what a read from the link of an id found.
    pub fn note(&mut self, id: Id, found: &io::Result<usize>) {
        match found {
            Err(error) if error.kind() == ErrorKind::Interrupted => {}
            Err(error) if error.kind() == ErrorKind::WouldBlock => self.silent.note(id),
            _ => self.hears(id),
        }
    }

    /// Something was read from the link of an id: who looked is answered, and looks anew later.
    fn hears(&mut self, id: Id) {
        self.silent.wake(id);
        self.is_ahead = false;
        self.doubt();
    }

    /// Something may have come since the poll was asked.
    pub fn doubt(&mut self) {
        self.told = Told::NotAll;
    }

    /// What a read of one byte from the link would find now.
    pub fn peek(&mut self, ends: &Ends) -> io::Result<Look> {
        match ends {
            Ends::Program { output, .. } => self.peek_pipe(output.as_raw_fd()),
            Ends::Server(stream) => Ok(peek_stream(stream)),
        }
    }

    /// What a read of one byte from an end of a pipe would find now.
    fn peek_pipe(&mut self, end: RawFd) -> io::Result<Look> {
        let event = self.ask(end, Interest::READABLE, Duration::ZERO)?;
        Ok(event.map_or(Look::Silence, look_of))
    }

    /// Whether a link that takes nothing now takes something within a second, or has gone by then.
    pub fn takes_soon(&mut self, ends: &Ends) -> io::Result<bool> {
        let event = self.ask(write_end(ends), Interest::WRITABLE, Duration::from_secs(1))?;
        Ok(event.is_some())
    }

    /// Asks about one end alone, and gives the event that is reported of it within a time, if any.
    fn ask(&mut self, end: RawFd, kind: Interest, time: Duration) -> io::Result<Option<Event>> {
        let mut source = SourceFd(&end);
        self.single.registry().register(&mut source, NONE, kind)?;
        let asked = self.single.poll(&mut self.events, Some(time));
        self.single.registry().deregister(&mut source)?;
        asked?;
        Ok(self.events.iter().next().copied())
    }
}

/// What names the link of an id in the events of the poll.
fn token_of(id: Id) -> Token {
    Token(id.0 as usize)
}

/// What an event says of an end of a pipe: its end is reported only after all bytes.
fn look_of(event: Event) -> Look {
    if event.is_readable() {
        Look::Bytes(1)
    } else {
        Look::End
    }
}

/// What a read of one byte from a connection would find now.
fn peek_stream(stream: &TcpStream) -> Look {
    match stream.peek(&mut [0u8]) {
        Ok(0) => Look::End,
        Ok(count) => Look::Bytes(count),
        Err(error) => match error.kind() {
            ErrorKind::WouldBlock | ErrorKind::Interrupted => Look::Silence,
            _ => Look::End,
        },
    }
}

/// What is read from.
fn read_end(ends: &Ends) -> RawFd {
    match ends {
        Ends::Program { output, .. } => output.as_raw_fd(),
        Ends::Server(stream) => stream.as_raw_fd(),
    }
}

/// What is written to.
fn write_end(ends: &Ends) -> RawFd {
    match ends {
        Ends::Program { input, .. } => input.as_raw_fd(),
        Ends::Server(stream) => stream.as_raw_fd(),
    }
}

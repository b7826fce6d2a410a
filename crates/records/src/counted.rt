//! Sinks over an `io::Write`.

ghost use Rattle.std.specs.Prelude.{◌≡◌, ◌≤◌, ℕ, List, Result, Option, true, false, length, take};
ghost use Rattle.std.specs.Io.{WritesAtMost};
ghost use Rattle.std.specs.Io.KnownBytes.{Appends, WriteAppends};
ghost use Rattle.std.specs.declared.io.Error.{Error};
ghost use Rattle.records.specs.Sink.{fails_at};
ghost use Rattle.records.specs.Tries.{Tries};

use crate::sink::Sink;
use std::io::{self, ErrorKind, Write};

/// An `io::Write`, each of whose writes is a step from one state to the next.
pub trait Writer {
    /// The bytes that it holds, where they are known.
    ghost held: { Self → Option (List ℕ) };

    /// Whether a write of this text may give this answer and lead from one state to another.
    ghost writes: { Self → List ℕ → Result ℕ Error → Self → Type 0 };

    /// Writes some bytes from the front of a text, and says how many, as `io::Write::write`.
    fn write_once(&mut self, text: &[u8]) -> io::Result<usize>
        ensures within { WritesAtMost result text.now }
        ensures held { WriteAppends (held self.old) (held self.new) result text.now }
        ensures writes { writes self.old text.now result self.new };
}

impl<W: Write> Writer for W {
    ghost held = { λ writer. W.contents writer };

    ghost writes = { λ before text answer after.
        WriteAppends (W.contents before) (W.contents after) answer text };

    fn write_once(&mut self, text: &[u8]) -> io::Result<usize> {
        self.write(text)
    }
}

/// A sink over an `io::Write`. It fails at the first write that fails, or that takes none of a text
/// that is not empty; a write that was interrupted is tried again.
pub struct Counted<W> {
    writer: W,
    failed: bool,
    /// The error of the last write that failed.
    fault: Option<io::Error>,
}

impl<W: Drop> Drop for Counted<W> {
    fn drop(self) {
        let Counted {
            writer: _,
            failed: _,
            fault: _,
        } = self;
    }
}

impl<W> Counted<W> {
    /// A sink that has not failed.
    pub fn new(writer: W) -> Counted<W>
        ensures writer { result.writer ≡ writer }
        ensures failed { result.failed ≡ false }
    {
        Counted {
            writer,
            failed: false,
            fault: None,
        }
    }
}

impl<W: Writer> Sink for Counted<W> {
    ghost adds = { λ before bytes after.
        Appends (W.held before.writer) (W.held after.writer) bytes };

    ghost has_failed = { λ sink. sink.failed };

    fn put(&mut self, bytes: &[u8]) -> usize
        ensures within { result ≤ length bytes.now }
        ensures adds { Appends (W.held self.old.writer) (W.held self.new.writer)
            (take result bytes.now) }
        ensures fails { self.new.failed ≡ fails_at self.old.failed bytes.now result }

        // The sink takes nothing of a text that is not empty only where its writer did or failed.
        ensures tries { self.old.failed ≡ false
            → Tries W.writes self.old.writer bytes.now result self.new.writer }

        // Nothing is written to a sink that has failed.
        ensures kept { self.old.failed ≡ true → self.new ≡ self.old }
    {
        if self.failed {
            return 0;
        }
        let taken = write_some(&mut self.writer, bytes, &mut self.fault);
        self.failed = taken == 0 && !bytes.is_empty();
        taken
    }

    fn failed(&self) -> bool {
        self.failed
    }

    fn fault(&self) -> Option<io::Error> {
        if !self.failed {
            return None;
        }
        self.fault
    }
}

/// Writes some bytes from the front of a text, and says how many: 0 also where the write fails,
/// whose error is kept then. A write that was interrupted is tried again.
fn write_some<W: Writer>(writer: &mut W, text: &[u8], fault: &mut Option<io::Error>) -> usize
    ensures within { result ≤ length text.now }
    ensures held { Appends (W.held writer.old) (W.held writer.new) (take result text.now) }
    ensures tries { Tries W.writes writer.old text.now result writer.new }
{
    for tries in 0..u64::MAX {
        match writer.write_once(text) {
            Ok(taken) => return taken,
            Err(error) => match error.kind() {
                ErrorKind::Interrupted => {}
                _ => {
                    *fault = Some(error);
                    return 0;
                }
            },
        }
    }
    0
}

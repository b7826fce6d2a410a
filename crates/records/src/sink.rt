//! Destinations of bytes that may fail.

ghost use Rattle.std.specs.Prelude.{◌≡◌, ◌≤◌, ◌++◌, ℕ, Bool, List, None, decimal, false, length, take};
ghost use Rattle.records.specs.Sink.{Takes, fails_at};

use itoa::Buffer;
use std::io;

/// A destination of bytes. It takes what it can of each text, and has failed once it took nothing
/// of a text that is not empty.
pub trait Sink {
    /// Whether a put may lead from one state to another and add these bytes.
    ghost adds: { Self → List ℕ → Self → Type 0 };

    /// Whether a sink in this state has failed.
    ghost has_failed: { Self → Bool };

    /// Takes some bytes from the front of a text, and says how many. The sink has failed from the
    /// first time on that it takes nothing of a text that is not empty.
    fn put(&mut self, bytes: &[u8]) -> usize
        ensures within { result ≤ length bytes.now }
        ensures adds { adds self.old (take result bytes.now) self.new }
        ensures fails { has_failed self.new ≡ fails_at (has_failed self.old) bytes.now result };

    /// Whether the sink has failed.
    fn failed(&self) -> bool
        ensures { result ≡ has_failed self.now };

    /// Why the sink has failed, in the words of the system: none where it has not, or where the
    /// system did not say.
    fn fault(&self) -> Option<io::Error>
        ensures { has_failed self.now ≡ false → result ≡ None };
}

/// Puts a whole text into a sink, piece by piece, as long as it does not fail. A sink that has
/// failed gets nothing more.
pub fn put_all<S: Sink>(sink: &mut S, text: &[u8])
    ensures { Takes S.adds S.has_failed sink.old text.now sink.new }
{
    if sink.failed() {
        return;
    }
    let mut rest = text;
    'text: while !rest.is_empty() {
        let taken = sink.put(rest);
        // The sink took nothing of some bytes, so it has failed now.
        if taken == 0 {
            return;
        }
        rest = &rest[taken..];
    }
}

/// Puts a number in decimal digits, between two texts, as long as the sink does not fail.
pub fn put_number<S: Sink>(sink: &mut S, before: &[u8], number: u64, after: &[u8])
    ensures { Takes S.adds S.has_failed sink.old
        (before.now ++ decimal number ++ after.now) sink.new }
{
    put_all(sink, before);
    put_digits(sink, number);
    put_all(sink, after);
}

/// Puts a number in decimal digits.
fn put_digits<S: Sink>(sink: &mut S, number: u64)
    ensures { Takes S.adds S.has_failed sink.old (decimal number) sink.new }
{
    let mut buffer = Buffer::new();
    put_all(sink, buffer.format(number).as_bytes());
}

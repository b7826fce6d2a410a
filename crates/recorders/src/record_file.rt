//! The file of a record that is made.

ghost use Rattle.std.specs.Prelude.{◌≡◌, ◌≢◌, ◌+◌, ◌<◌, ◌≤◌, [], false, true, length, take, vec_len, IsTrue};
ghost use Rattle.records.specs.Sink.{Gets, fails_at};
ghost use Rattle.recorders.specs.RecordFile as spec;
ghost use Rattle.recorders.specs.RecordFile.{Gathers, Stores};

use crate::room::{ROOM, Room};
use records::Sink;
use std::io;

/// A record's file, over a sink. What is put is gathered until an entry is whole, and then goes out
/// at once, so that a run that is killed leaves the record of its beginning. It fails at the first
/// text of which its sink takes nothing.
pub struct RecordFile<S> {
    file: S,
    gathered: Room,
    failed: bool,
}

impl<S: Drop> Drop for RecordFile<S> {
    fn drop(self) {
        let RecordFile {
            file: _,
            gathered: _,
            failed: _,
        } = self;
    }
}

impl<S: Sink> RecordFile<S> {
    /// A record's file that has not failed.
    pub fn new(file: S, gathered: Room) -> RecordFile<S>
        ensures file { result.file ≡ file }
        ensures gathered { result.gathered ≡ gathered }
        ensures failed { result.failed ≡ false }
    {
        RecordFile {
            file,
            gathered,
            failed: false,
        }
    }
}

impl<S: Sink> Sink for RecordFile<S> {
    ghost adds = { λ before bytes after. Stores S.adds before bytes after };

    ghost has_failed = { λ sink. sink.failed };

    fn put(&mut self, bytes: &[u8]) -> usize
        ensures within { result ≤ length bytes.now }
        ensures adds { Stores S.adds self.old (take result bytes.now) self.new }
        ensures fails { self.new.failed ≡ fails_at self.old.failed bytes.now result }

        // Nothing is taken of a text that is not empty only where the file's own sink has failed.
        ensures cause { self.old.failed ≡ false → bytes.now ≢ [] → result ≡ 0
            → S.has_failed self.new.file ≡ true }
    {
        if self.failed || bytes.is_empty() {
            return 0;
        }
        let text = &bytes[..bytes.len().min(ROOM)];
        let taken = gather(&mut self.file, &mut self.gathered, text);
        self.failed = taken == 0;
        taken
    }

    fn failed(&self) -> bool {
        self.failed
    }

    fn fault(&self) -> Option<io::Error> {
        if !self.failed {
            return None;
        }
        self.file.fault()
    }
}

/// Gathers a text, writes what is gathered where an entry is whole, and says how many bytes of the
/// text were taken: all of them unless the file fails.
fn gather<S: Sink>(file: &mut S, gathered: &mut Room, text: &[u8]) -> usize
    requires some { 0 < length text.now }
    requires small { length text.now ≤ 65536 }
    ensures taken { result ≤ length text.now }
    ensures gathers { Gathers S.adds file.old gathered.old.bytes.items (take result text.now)
        gathered.new.bytes.items file.new }
    ensures waits { 0 < result → spec.is_whole gathered.new.bytes.items ≡ false }
    ensures cause { result ≡ 0 → S.has_failed file.new ≡ true }
{
    if gathered.bytes().len() > ROOM - text.len() && !hand_on(file, gathered) {
        return 0;
    }
    gather_in(file, gathered, text)
}

/// Gathers a text for which there is room, as `gather` does.
fn gather_in<S: Sink>(file: &mut S, gathered: &mut Room, text: &[u8]) -> usize
    requires some { 0 < length text.now }
    requires room { vec_len gathered.old.bytes + length text.now ≤ 65536 }
    ensures taken { result ≤ length text.now }
    ensures gathers { Gathers S.adds file.old gathered.old.bytes.items (take result text.now)
        gathered.new.bytes.items file.new }
    ensures waits { 0 < result → spec.is_whole gathered.new.bytes.items ≡ false }
    ensures cause { result ≡ 0 → S.has_failed file.new ≡ true }
{
    let before = gathered.bytes().len();
    gathered.add(text);
    if !is_whole(gathered.bytes()) {
        return text.len();
    }
    let gone = put_count(file, gathered.bytes());
    gathered.truncate(gone.max(before));
    gathered.drop_front(gone);
    gone.saturating_sub(before)
}

/// Writes what was gathered, and says whether all of it was written. What was not stays gathered.
fn hand_on<S: Sink>(file: &mut S, gathered: &mut Room) -> bool
    ensures gathers { Gathers S.adds file.old gathered.old.bytes.items [] gathered.new.bytes.items
        file.new }
    ensures all { IsTrue result → gathered.new.bytes.items ≡ [] }
    ensures cause { result ≡ false → S.has_failed file.new ≡ true }
{
    let gone = put_count(file, gathered.bytes());
    gathered.drop_front(gone);
    gathered.bytes().is_empty()
}

/// Puts a text into a sink, piece by piece, as long as it does not fail, and says how many bytes
/// the sink took.
pub fn put_count<S: Sink>(sink: &mut S, text: &[u8]) -> usize
    ensures within { result ≤ length text.now }
    ensures gets { Gets S.adds sink.old (take result text.now) sink.new }
    ensures cause { result < length text.now → S.has_failed sink.new ≡ true }
{
    if sink.failed() {
        return 0;
    }
    let mut done = 0;
    'text: while done < text.len() {
        let taken = sink.put(&text[done..]);
        if taken == 0 {
            return done;
        }
        done += taken;
    }
    done
}

/// Whether an entry ends here: at the end of a line, unless it is that of a wait, whose answer
/// follows.
fn is_whole(text: &[u8]) -> bool
    ensures { result ≡ spec.is_whole text.now }
{
    text.ends_with(b"\n") && !is_wait(text)
}

/// Whether a text that ends with a line is a single one, that of a wait. The line of the wait's
/// answer, which may be long, is not examined.
fn is_wait(text: &[u8]) -> bool
    ensures { result ≡ spec.is_wait text.now }
{
    match text.split_last() {
        Some((_, front)) => text.starts_with(b"wait") && !front.contains(&b'\n'),
        None => false,
    }
}

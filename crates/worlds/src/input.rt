//! What comes from outside: the words of a call, and the bytes of files.

ghost use Rattle.std.specs.Prelude.{◌≡◌, ◌≢◌, ◌<◌, ◌≤◌, ◌↔◌, ⊤, ℕ, List, Option, Result, IfErr, IfOk, IfSome, IsErrOf, IsTrue, OnOk, codes, length, option_map, take, vec_len};
ghost use Rattle.std.specs.Io.{ReadsAtMost, WritesAtMost};
ghost use Rattle.std.specs.Io.KnownBytes.{Consumes, ConsumesCount, IsAtEnd, ReadConsumes};
ghost use Rattle.std.specs.declared.io.Error.{Error};
ghost use Rattle.arguments.specs.Arguments.{texts};
ghost use Rattle.worlds.specs.Lacking.{IsUnread, IsUnreadScript};
ghost use Rattle.worlds.specs.Reads.{Follows, GivesUp};
ghost use Rattle.worlds.specs.Texts.{IsScriptOf, IsTextOf};
ghost use Rattle.worlds.specs.Words.{AreGiven, IsGiven};
ghost use Rattle.worlds.specs.declared.input.Unread.TheVariants as unread;

use crate::folder::{Disk, Folder};
use acts::NoMemory;
use records::{first_room, widen};
use std::alloc::{AllocError, Allocator};
use std::env::FillError;
use std::fs::Files;
use std::io::{self, ErrorKind, Input, Read};
use std::rt::Env;
use thiserror::Error;

/// The room that is first made for a word, in bytes.
const FIRST_ROOM: usize = 256;

/// How often the room for a word is doubled at most: to 2^62 bytes.
const MOST_DOUBLINGS: u32 = 54;

/// Why bytes from outside were not read.
#[derive(Clone, Copy, Debug, PartialEq, Eq, Error)]
pub enum Unread {
    /// The system refuses to give them.
    #[error("not to be read")]
    Refused,
    /// Memory was refused.
    #[error("no memory")]
    NoMemory(NoMemory),
}

impl From<NoMemory> for Unread {
    ghost from_gives = { λ refusal result. result ≡ unread.NoMemory refusal };

    fn from(refusal: NoMemory) -> Unread {
        Unread::NoMemory(refusal)
    }
}

impl From<AllocError> for Unread {
    ghost from_gives = { λ _ result. result ≢ unread.Refused };

    fn from(refusal: AllocError) -> Unread {
        Unread::NoMemory(NoMemory::from(refusal))
    }
}

/// What has the arguments of a call: an `Env`, each of whose answers is one of the system.
pub trait ArgumentList {
    /// Whether the system may answer so where the argument at a place is asked for.
    ghost gives: { Self → ℕ → Option (List ℕ) → Type 0 };

    /// Puts the argument at a place to the front of the room, and says how long it is, as
    /// `Env::arg`.
    fn copy_argument(&self, place: usize, room: &mut [u8]) -> Result<usize, FillError>
        ensures within { WritesAtMost result room.new }
        ensures gives { IsGiven (gives self.now) place result room.new };
}

impl<R: Env> ArgumentList for R {
    // What the system does is not modelled.
    ghost gives = { λ _ _ _. ⊤ };

    fn copy_argument(&self, place: usize, room: &mut [u8]) -> Result<usize, FillError> {
        self.arg(place, room)
    }
}

/// The arguments of the program after its name, as bytes, in their order.
pub fn read_words<R: ArgumentList, A: Allocator + Copy>(
    rt: &R,
    alloc: A,
) -> Result<Vec<Vec<u8, A>, A>, Unread>
    ensures { IfOk result (λ words. AreGiven (R.gives rt.now) 1 (texts words.items)) }
{
    let mut words = Vec::new(alloc);
    for place in 1..usize::MAX {
        match read_word(rt, alloc, place)? {
            Some(word) => words.push(word).map_err(NoMemory::from)?,
            None => return Ok(words),
        }
    }
    Err(Unread::Refused)
}

/// The argument at a place, if there is one. The room for it is doubled until it suffices.
fn read_word<R: ArgumentList, A: Allocator>(
    rt: &R,
    alloc: A,
    place: usize,
) -> Result<Option<Vec<u8, A>>, Unread>
    ensures { IfOk result (λ word. R.gives rt.now place (option_map (λ word. word.items) word)) }
{
    let mut word = Vec::new(alloc);
    for doublings in 0..=MOST_DOUBLINGS {
        word.resize(FIRST_ROOM << doublings, 0)?;
        match rt.copy_argument(place, &mut word) {
            Ok(len) => {
                word.truncate(len);
                return Ok(Some(word));
            }
            Err(FillError::NotPresent) => return Ok(None),
            Err(FillError::TooLong) => {}
        }
    }
    Err(Unread::Refused)
}

/// Whether a script of this name is read from standard input: `-`.
pub fn is_standard_input(name: &[u8]) -> bool
    ensures { IsTrue result ↔ (name.now ≡ codes "-") }
{
    name == b"-".as_slice()
}

/// The text of a script of the system; the name `-` is standard input.
pub fn read_script<R: Files + Input, A: Allocator + Copy>(
    rt: &R,
    alloc: A,
    name: &[u8],
) -> Result<Vec<u8, A>, Unread> {
    script_in(&Disk { rt }, alloc, name)
}

/// The bytes of a file of the system.
pub fn read_file<R: Files + Input, A: Allocator + Copy>(
    rt: &R,
    alloc: A,
    name: &[u8],
) -> Result<Vec<u8, A>, Unread> {
    file_in(&Disk { rt }, alloc, name)
}

/// The text of a script, all that the system gives to read of it; the name `-` is standard input.
/// It is refused only where the system refused it.
pub fn script_in<F: Folder, A: Allocator + Copy>(
    files: &F,
    alloc: A,
    name: &[u8],
) -> Result<Vec<u8, A>, Unread>
    ensures text { IfOk result (λ text. IsScriptOf (F.opens files.now) F.File.left
        F.Standard.left name.now text.items) }
    ensures refused { IsErrOf result unread.Refused → IsUnreadScript (F.opens files.now)
        F.File.reads F.Standard.reads name.now }
{
    if is_standard_input(name) {
        read_all(alloc, &mut files.standard())
    } else {
        file_in(files, alloc, name)
    }
}

/// The bytes of a file, all that the system gives to read of it. It is refused only where the
/// system takes no such name, or refused to open or to read it: a name that is not UTF-8 is
/// refused.
pub fn file_in<F: Folder, A: Allocator + Copy>(
    files: &F,
    alloc: A,
    name: &[u8],
) -> Result<Vec<u8, A>, Unread>
    ensures text { IfOk result (λ text. IsTextOf (F.opens files.now) F.File.left name.now
        text.items) }
    ensures refused { IsErrOf result unread.Refused → IsUnread (F.opens files.now) F.File.reads
        name.now }
{
    let Ok(path) = std::str::from_utf8(name) else {
        return Err(Unread::Refused);
    };
    match files.open(path) {
        Ok(mut file) => read_all(alloc, &mut file),
        Err(_) => Err(Unread::Refused),
    }
}

/// An `io::Read`, each of whose reads is a step from one state to the next.
pub trait Reader {
    /// The bytes that it has left, where they are known.
    ghost left: { Self → Option (List ℕ) };

    /// Whether a read may give this answer and lead from one state to another.
    ghost reads: { Self → Result ℕ Error → Self → Type 0 };

    /// Reads some bytes to the front of the room, and says how many, as `io::Read::read`.
    fn read_once(&mut self, room: &mut [u8]) -> io::Result<usize>
        ensures within { ReadsAtMost result room.new }
        ensures len { length room.new ≡ length room.old }
        ensures left { ReadConsumes (left self.old) (left self.new) result room.new }
        ensures reads { reads self.old result self.new };
}

impl<R: Read> Reader for R {
    ghost left = { λ reader. R.remaining reader };

    // A read that fails keeps what is left.
    ghost reads = { λ before answer after.
        ConsumesCount (R.remaining before) (R.remaining after) answer };

    fn read_once(&mut self, room: &mut [u8]) -> io::Result<usize> {
        self.read(room)
    }
}

/// All remaining bytes of a reader. It refuses only where a read of them failed.
pub fn read_all<A: Allocator + Copy, R: Reader>(
    alloc: A,
    reader: &mut R,
) -> Result<Vec<u8, A>, Unread>
    ensures all { IfOk result (λ text. IfSome (R.left reader.old) (λ bytes. text.items ≡ bytes)) }
    ensures refused { IsErrOf result unread.Refused → GivesUp R.reads reader.old reader.new }
{
    let mut text = Vec::new(alloc);
    let mut chunk = first_room(alloc)?;
    'chunks: for _read in 0..u64::MAX {
        let taken = read_some(reader, &mut chunk)?;
        if taken == 0 {
            return Ok(text);
        }
        text.extend_from_slice(&chunk[..taken])?;
        widen(&mut chunk, taken)?;
    }
    Err(Unread::Refused)
}

/// Reads some bytes to the front of a chunk, and says how many: none only at the end. A read that
/// was interrupted is tried again.
pub(crate) fn read_some<R: Reader>(reader: &mut R, chunk: &mut [u8]) -> Result<usize, Unread>
    requires { 0 < length chunk.old }
    ensures within { IfOk result (λ taken. taken ≤ length chunk.new) }
    ensures len { length chunk.new ≡ length chunk.old }
    ensures bytes { IfOk result (λ taken.
        Consumes (R.left reader.old) (R.left reader.new) (take taken chunk.new)) }
    ensures end { IfOk result (λ taken. taken ≡ 0 → IsAtEnd (R.left reader.new)) }
    ensures reads { OnOk result ((answers : List (Result ℕ Error))
        × (1 ≤ length answers) × Follows R.reads reader.old answers reader.new) }
    ensures refused { IfErr result (λ why. (why ≡ unread.Refused)
        × GivesUp R.reads reader.old reader.new) }
{
    'tries: for _tried in 0..u64::MAX {
        match reader.read_once(chunk) {
            Ok(taken) => return Ok(taken),
            Err(error) => match error.kind() {
                ErrorKind::Interrupted => {}
                _ => return Err(Unread::Refused),
            },
        }
    }
    Err(Unread::Refused)
}

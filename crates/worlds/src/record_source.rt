//! Records that are read from their files as the run goes on.

ghost use Rattle.std.specs.Prelude.{◌≡◌, IfSome, Ok};
ghost use Rattle.records.specs.Reading.{IsFresh, place_of};
ghost use Rattle.replays.specs.Reel.{reeled_in};
ghost use Rattle.worlds.specs.RecordSource.{IsRecordFile, IsReelOf};

use crate::folder::Folder;
use crate::input::{Reader, read_some};
use records::{EntryReader, Source};
use replays::Reel;
use std::alloc::Global;

/// The bytes of a file, as a source of a record.
pub struct FileSource<R> {
    file: R,
    /// How many bytes may still be asked for, so that a source comes to an end.
    left: u64,
}

impl<R: Drop> Drop for FileSource<R> {
    fn drop(self) {
        let FileSource { file: _, left: _ } = self;
    }
}

impl<R> FileSource<R> {
    /// The bytes that a file has left.
    pub fn new(file: R) -> FileSource<R>
        ensures { result.file ≡ file }
    {
        FileSource {
            file,
            left: u64::MAX,
        }
    }
}

impl<R: Reader> Source for FileSource<R> {
    ghost use Rattle.worlds.specs.RecordSource.{Gives, GivesUpIn};

    ghost gives = { Gives R.left };

    ghost gives_up = { GivesUpIn R.reads };

    ghost most = { λ source. source.left };

    fn read_some(&mut self, room: &mut [u8]) -> Option<usize> {
        let Some(left) = self.left.checked_sub(room.len() as u64) else {
            self.left = 0;
            return None;
        };
        self.left = left;
        read_some(&mut self.file, room).ok()
    }
}

/// The recorded run of a file that is read as the run goes on: a file that can be read twice, and
/// that is a record of version 2, which is looked through first. `None` says nothing of the file.
pub fn reel_in<F: Folder>(
    files: &F,
    alloc: Global,
    name: &[u8],
) -> Option<Reel<Global, FileSource<F::File>>>
    ensures { IfSome result (λ reel. IsReelOf F.File.left (F.opens files.now) name.now
        (reeled_in reel)) }
{
    match std::str::from_utf8(name) {
        Ok(path) => reel_at(files, alloc, path),
        Err(_) => None,
    }
}

/// The same of a file whose name is text.
fn reel_at<F: Folder>(
    files: &F,
    alloc: Global,
    path: &str,
) -> Option<Reel<Global, FileSource<F::File>>>
    ensures { IfSome result (λ reel. IsReelOf F.File.left (F.opens files.now) path.now
        (reeled_in reel)) }
{
    if !files.is_lasting(path) {
        return None;
    }
    let count = count_in(files, alloc, path)?;
    let mut entries = entries_in(files, alloc, path)?;
    match entries.begin() {
        Ok(true) => Some(Reel::new(entries, count)),
        _ => None,
    }
}

/// How many entries the file of a name has, where all that it gives is a record of version 2.
fn count_in<F: Folder>(files: &F, alloc: Global, path: &str) -> Option<u64>
    ensures { IfSome result (λ count. IsRecordFile F.File.left (F.opens files.now) path.now count) }
{
    let mut entries = entries_in(files, alloc, path)?;
    match entries.count() {
        Ok(count) => count,
        Err(_) => None,
    }
}

/// The entries of the file of a name, which is opened.
fn entries_in<F: Folder>(
    files: &F,
    alloc: Global,
    path: &str,
) -> Option<EntryReader<Global, FileSource<F::File>>>
    ensures opens { IfSome result (λ entries. F.opens files.now path.now
        (Ok (place_of entries).0.file)) }
    ensures fresh { IfSome result (λ entries. IsFresh entries) }
{
    let file = files.open(path).ok()?;
    EntryReader::new(alloc, FileSource::new(file)).ok()
}

//! The file of a record that is made.

ghost use Rattle.std.specs.Prelude.{IsErrOf, Ok, OnOk};
ghost use Rattle.worlds.specs.Lacking.{IsUnmade};
ghost use Rattle.worlds.specs.declared.input.Unread.TheVariants as unread;

use crate::folder::Folder;
use crate::input::Unread;
use recorders::{RecordFile, Room};
use records::Counted;
use std::alloc::Global;

/// Makes the file of a record, or empties it. It is refused only where the system takes no such
/// name, or refused to make it: a name that is not UTF-8 is refused.
pub fn create_record<F: Folder>(
    files: &F,
    alloc: Global,
    name: &[u8],
) -> Result<RecordFile<Counted<F::Made>>, Unread>
    ensures made { OnOk result ((file : F.Made) × F.makes files.now name.now (Ok file)) }
    ensures refused { IsErrOf result unread.Refused → IsUnmade (F.makes files.now)
        (F.same files.now) name.now }
{
    let Ok(path) = std::str::from_utf8(name) else {
        return Err(Unread::Refused);
    };
    let room = Room::new(alloc)?;
    match files.make(path) {
        Ok(file) => Ok(RecordFile::new(Counted::new(file), room)),
        Err(_) => Err(Unread::Refused),
    }
}

//! The program `rx-explain`.

ghost use Rattle.std.specs.Prelude.{◌≡◌, ◌⊎◌, false, if◌then◌else◌, List, ℕ, Option, Ok, IfNone, IfSome};
ghost use Rattle.std.specs.Option.{option_copied};
ghost use Rattle.arguments.specs.Arguments.{Call, Holds, texts};
ghost use Rattle.explain.specs.Asked.{Asks};
ghost use Rattle.explain.specs.Explained.{Ends, Explains, Rejects, StarvesOrTold, usage};
ghost use Rattle.records.specs.Sink.{Takes};
ghost use Rattle.teller.specs.declared.telling.Detail.{Detail as Much};
ghost use Rattle.worlds.specs.Lacking.{IsOther, IsOtherRecord, IsUnmade};

use crate::asked::{Asked, asked_by};
use crate::watched::Story;
use arguments::Arguments;
use records::{Counted, Sink, put_all};
use std::alloc::Global;
use std::fs::File;
use std::io::{Input, Write};
use std::net::{Net, TcpStream};
use std::process::{Processes, SystemProcess};
use std::rt::{Clock, Env, Files};
use teller::Detail;
use worlds::folder::{Disk, Folder};
use worlds::input::read_words;
use worlds::play::finish;
use worlds::program::{is_read, perform_call};
use worlds::standard::hold_closed;
use worlds::status::Outcome;

/// The line that is written where the words are not those of a call.
const USAGE: &[u8] = b"usage: rx-explain [--story F] [--brief] [-c cmds]... [--replay F] \
    [--record G] [--limit N] [[-f] file [args]]\n";

/// The status of a call whose words are not those of one.
const USAGE_STATUS: u8 = 2;

/// Runs a call of the program, and gives its status: what `rx` does with the words after `--story`
/// and `--brief`, with the story of the run on `told` or in the file that is named.
pub fn program<R, O, E, T>(rt: &R, out: O, err: E, told: T) -> u8
where
    R: Env
        + Input
        + Net<Stream = TcpStream>
        + Processes<Started = SystemProcess>
        + Files<File = File>
        + Clock
        + AllocGlobal,
    O: Write + Drop,
    E: Write + Drop,
    T: Write + Drop,
{
    let _standard = hold_closed(rt);
    let mut out = Counted::new(out);
    let mut err = Counted::new(err);
    match read_words(rt, rt.alloc()) {
        Ok(words) => explain(
            rt,
            &Disk { rt },
            &words,
            &mut out,
            &mut err,
            Counted::new(told),
        ),
        Err(fault) => finish(Outcome::of_words(fault), &mut err),
    }
}

/// Performs a call of these words, and gives its status. Its output goes to two sinks that have not
/// failed, and its story to a third one or to the file that is named.
pub fn explain<R, F, O, E, T>(
    rt: &R,
    files: &F,
    words: &[Vec<u8, Global>],
    out: &mut O,
    err: &mut E,
    told: T,
) -> u8
where
    R: Net<Stream = TcpStream>
        + Processes<Started = SystemProcess>
        + Files<File = File>
        + Clock
        + AllocGlobal,
    F: Folder,
    O: Sink,
    E: Sink,
    T: Sink + Drop,
    requires out { O.has_failed out.old ≡ false }
    requires err { E.has_failed err.old ≡ false }
    // Words that ask for no story are told as such, and nothing else is done.
    ensures usage { ((file : Option (List ℕ)) (detail : Much) (call : Call)
        → ¬ Asks (texts words.now) file detail call)
        → Rejects E.adds E.has_failed (out.old, err.old) (out.new, err.new) result }

    // A call whose story is asked for does what it does as a call of `rx`, and its acts are told
    // with their answers, each once and in order; where the story is lost, the call ends as where a
    // writer failed.
    ensures story { (file : Option (List ℕ)) (detail : Much) (call : Call)
        → Asks (texts words.now) file detail call
        → Explains (F.opens files.now) F.File.left F.File.reads F.Standard.left F.Standard.reads
        (F.makes files.now) (F.same files.now) O.adds O.has_failed E.adds E.has_failed
        F.Made.contents T.adds T.has_failed told Global file detail call (out.old, err.old)
        (out.new, err.new) result }
{
    let Some(asked) = asked_by(words) else {
        return reject(err);
    };
    let Some(name) = asked.file else {
        return tell(rt, files, asked.detail, &asked.call, out, err, told);
    };
    match story_file(files, &asked.call, name) {
        Some(file) => tell(
            rt,
            files,
            asked.detail,
            &asked.call,
            out,
            err,
            Counted::new(file),
        ),
        None => finish(Outcome::CannotOpen(name), err),
    }
}

/// Performs a call, and tells the story of its run to a sink.
fn tell<R, F, O, E, S>(
    rt: &R,
    files: &F,
    detail: Detail,
    call: &Arguments<'_, Global>,
    out: &mut O,
    err: &mut E,
    sink: S,
) -> u8
where
    R: Net<Stream = TcpStream>
        + Processes<Started = SystemProcess>
        + Files<File = File>
        + Clock
        + AllocGlobal,
    F: Folder,
    O: Sink,
    E: Sink,
    S: Sink + Drop,
    requires out { O.has_failed out.old ≡ false }
    requires err { E.has_failed err.old ≡ false }
    ensures { (asked : Call) → Holds call.now asked
        → StarvesOrTold (F.opens files.now) F.File.left F.File.reads F.Standard.left
        F.Standard.reads (F.makes files.now) (F.same files.now) O.adds O.has_failed E.adds
        E.has_failed S.adds S.has_failed detail sink Global asked (out.old, err.old)
        (out.new, err.new) result }
{
    let commands = match call.commands(rt.alloc()) {
        Ok(text) => text.len(),
        Err(refusal) => return finish(Outcome::NoMemory(refusal), err),
    };
    let mut story = Story::new(rt.alloc(), sink, detail, commands);
    let status = perform_call(rt, files, call, out, err, &mut story);
    story.end(status);
    end_call(story.failed(), status, err)
}

/// Ends a call whose run had this status; where its story is lost, as where a writer failed.
fn end_call<E: Sink>(lost: bool, ended: u8, err: &mut E) -> u8
    ensures { Ends E.adds E.has_failed lost ended err.old err.new result }
{
    if lost {
        finish(Outcome::OutputFailed, err)
    } else {
        ended
    }
}

/// Writes what the words of a call are, and gives the status of a call that has others.
fn reject<E: Sink>(err: &mut E) -> u8
    ensures line { Takes E.adds E.has_failed err.old usage err.new }
    ensures status { result ≡ (if E.has_failed err.new then 4 else 2) }
{
    put_all(err, USAGE);
    if err.failed() {
        Outcome::OutputFailed.status()
    } else {
        USAGE_STATUS
    }
}

/// The file of a story of this name, made anew; `None` where that is refused, or where the call
/// reads that file or makes it as its record.
fn story_file<F: Folder>(files: &F, call: &Arguments<'_, Global>, name: &[u8]) -> Option<F::Made>
    ensures made { IfSome result (λ file. F.makes files.now name.now (Ok file)) }
    ensures other { IfSome result (λ _. IsOther (F.same files.now) (texts call.now.script.now)
        (option_copied call.now.replay) name.now) }
    ensures apart { IfSome result (λ _. IsOtherRecord (F.same files.now)
        (option_copied call.now.made) name.now) }
    ensures none { IfNone result (IsUnmade (F.makes files.now) (F.same files.now) name.now) }
{
    if is_read(files, call, name) {
        return None;
    }
    let path = std::str::from_utf8(name).ok()?;
    let file = files.make(path).ok()?;
    match call.made {
        Some(made) if files.is_same(made, name) => None,
        _ => Some(file),
    }
}

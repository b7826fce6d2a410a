//! The program, which reads its arguments and files.

ghost use Rattle.std.specs.Prelude.{◌≡◌, [], ◌∷◌, ◌++◌, ℕ, List, false, true, codes, map, IfErr, IfOk, IsErrOf, IsTrue, None, Ok, OnOk};
ghost use Rattle.std.specs.Option.{option_copied};
ghost use Rattle.arguments.specs.Arguments.{Call, Holds, IsCall, lines, texts};
ghost use Rattle.records.specs.Entry.{note_of};
ghost use Rattle.replays.specs.Reel.{reeled_in};
ghost use Rattle.worlds.specs.Lacking.{IsOther, IsOtherRecord, IsOtherScript, IsUnmade, IsUnreadScript};
ghost use Rattle.worlds.specs.Play.{Declines};
ghost use Rattle.worlds.specs.Runs.{Heard, unheard};
ghost use Rattle.worlds.specs.Program.{IsLack, IsMade, IsText, LacksFile, Performs, Runs, RunsOn, RunsText, RunsUnder};
ghost use Rattle.worlds.specs.Texts.{IsScriptOf};
ghost use Rattle.worlds.specs.declared.input.Unread.TheVariants as unread;
ghost use Rattle.worlds.specs.declared.status.Outcome.TheVariants.{Usage};

use crate::folder::{Disk, Folder};
use crate::input::{Unread, file_in, is_standard_input, read_words, script_in};
use crate::lived::lived_by;
use crate::play::{finish, rerun_by, rerun_reel};
use crate::record_file::create_record;
use crate::record_source::{FileSource, reel_in};
use crate::recorded::Runner;
use crate::standard::hold_closed;
use crate::status::Outcome;
use acts::NoMemory;
use arguments::Arguments;
use engine::Unwatched;
use recorders::RecordFile;
use records::{Counted, Entry, Sink, read_entries};
use replays::Reel;
use std::alloc::{Allocator, Global};
use std::fs::File;
use std::io::Write;
use std::net::{Net, TcpStream};
use std::process::{Processes, SystemProcess};
use std::rt::{Clock, Env, Files};

/// Runs a call of the program, and gives its status.
pub fn program<R, O, E>(rt: &R, out: O, err: E) -> u8
where
    R: Env
        + Input
        + Net<Stream = TcpStream>
        + Processes<Started = SystemProcess>
        + Files<File = File>
        + Clock
        + AllocGlobal,
    O: Write + Drop,
    E: Write + Drop,
{
    let _standard = hold_closed(rt);
    let mut out = Counted::new(out);
    let mut err = Counted::new(err);
    match read_words(rt, rt.alloc()) {
        Ok(words) => perform(rt, &Disk { rt }, &words, &mut out, &mut err),
        Err(fault) => finish(Outcome::of_words(fault), &mut err),
    }
}

/// Performs a call of these words, and gives its status. Its output goes to two writers that have
/// not failed. Faults are found in the order words, script, record that is read, file of the record
/// that is made.
pub fn perform<R, F, O, E>(
    rt: &R,
    files: &F,
    words: &[Vec<u8, Global>],
    out: &mut O,
    err: &mut E,
) -> u8
where
    R: Net<Stream = TcpStream>
        + Processes<Started = SystemProcess>
        + Files<File = File>
        + Clock
        + AllocGlobal,
    F: Folder,
    O: Sink,
    E: Sink,
    requires out { O.has_failed out.old ≡ false }
    requires err { E.has_failed err.old ≡ false }
    // Words that are no call are reported as such, and nothing else is done.
    ensures usage { ((call : Call) → ¬ IsCall (texts words.now) call)
        → Declines O.adds O.has_failed E.adds E.has_failed Usage
        (out.old, err.old) (out.new, err.new) result }

    // A call runs its script in the live world, or under the record that it names, and makes a
    // record of that where it names one.
    ensures call { (call : Call) → IsCall (texts words.now) call
        → Performs (F.opens files.now) F.File.left F.File.reads F.Standard.left F.Standard.reads
        (F.makes files.now) (F.same files.now) O.adds O.has_failed E.adds E.has_failed unheard
        Global call (out.old, err.old) (out.new, err.new) result }
{
    match Arguments::read(words) {
        Some(call) => perform_call(rt, files, &call, out, err, &mut Unwatched),
        None => finish(Outcome::Usage, err),
    }
}

/// Performs a call, as `perform` does, by one who runs its script.
pub fn perform_call<R, F, O, E, X>(
    rt: &R,
    files: &F,
    call: &Arguments<'_, Global>,
    out: &mut O,
    err: &mut E,
    runner: &mut X,
) -> u8
where
    R: Net<Stream = TcpStream>
        + Processes<Started = SystemProcess>
        + Files<File = File>
        + Clock
        + AllocGlobal,
    F: Folder,
    O: Sink,
    E: Sink,
    X: Runner<Global>,
    requires out { O.has_failed out.old ≡ false }
    requires err { E.has_failed err.old ≡ false }
    ensures { (asked : Call) → Holds call.now asked
        → Performs (F.opens files.now) F.File.left F.File.reads F.Standard.left F.Standard.reads
        (F.makes files.now) (F.same files.now) O.adds O.has_failed E.adds E.has_failed
        (Heard X.told runner.old runner.new) Global asked (out.old, err.old) (out.new, err.new)
        result }
{
    let text = match text_of(files, rt.alloc(), call) {
        Ok(text) => text,
        Err(outcome) => return finish(outcome, err),
    };
    if call.script.is_empty() {
        match own_name(rt.alloc()) {
            Ok(args) => run_script(rt, files, call, &text, &args, out, err, runner),
            Err(refusal) => finish(Outcome::NoMemory(refusal), err),
        }
    } else {
        run_script(rt, files, call, &text, call.script, out, err, runner)
    }
}

/// The text that a call runs, or how the call ends without it.
fn text_of<'a, F: Folder, A: Allocator + Copy>(
    files: &F,
    alloc: A,
    call: &Arguments<'a, A>,
) -> Result<Vec<u8, A>, Outcome<'a>>
    ensures text { IfOk result (λ text. (asked : Call) → Holds call.now asked
        → IsText (IsScriptOf (F.opens files.now) F.File.left F.Standard.left) asked text.items) }
    ensures lack { IfErr result (λ outcome. IsLack (IsUnreadScript
        (F.opens files.now) F.File.reads F.Standard.reads) (texts call.now.script.now) outcome) }
{
    let Some(name) = call.script.first() else {
        return Ok(call.commands(alloc)?);
    };
    match text_with(files, alloc, call, name) {
        Ok(text) => Ok(text),
        Err(fault) => Err(Outcome::of_file(name, fault)),
    }
}

/// The text of `-c`, and after it that of the file of this name.
fn text_with<F: Folder, A: Allocator + Copy>(
    files: &F,
    alloc: A,
    call: &Arguments<'_, A>,
    name: &[u8],
) -> Result<Vec<u8, A>, Unread>
    ensures text { IfOk result (λ text. (asked : Call) → Holds call.now asked → (file : List ℕ)
        × IsScriptOf (F.opens files.now) F.File.left F.Standard.left name.now file
        × (text.items ≡ lines asked.commands ++ file)) }
    ensures refused { IsErrOf result unread.Refused → IsUnreadScript (F.opens files.now)
        F.File.reads F.Standard.reads name.now }
{
    let mut text = call.commands(alloc)?;
    let file = script_in(files, alloc, name)?;
    text.extend_from_slice(&file)?;
    Ok(text)
}

/// The name that a script without a file has as its `argv0`: that of the program.
fn own_name<A: Allocator + Copy>(alloc: A) -> Result<Vec<Vec<u8, A>, A>, NoMemory>
    ensures { IfOk result (λ args. texts args.items ≡ codes "rx" ∷ []) }
{
    let mut args = Vec::new(alloc);
    args.push(Vec::from_slice(alloc, b"rx")?)?;
    Ok(args)
}

/// Runs a script as a call asks for it: live, or under the record that it names, which is read
/// before the file of a record that is made.
fn run_script<R, F, O, E, X>(
    rt: &R,
    files: &F,
    call: &Arguments<'_, Global>,
    script: &[u8],
    args: &[Vec<u8, Global>],
    out: &mut O,
    err: &mut E,
    runner: &mut X,
) -> u8
where
    R: Net<Stream = TcpStream>
        + Processes<Started = SystemProcess>
        + Files<File = File>
        + Clock
        + AllocGlobal,
    F: Folder,
    O: Sink,
    E: Sink,
    X: Runner<Global>,
    requires out { O.has_failed out.old ≡ false }
    requires err { E.has_failed err.old ≡ false }
    ensures { Runs (F.opens files.now) F.File.left F.File.reads F.Standard.left F.Standard.reads
        (F.makes files.now) (F.same files.now) O.adds O.has_failed E.adds E.has_failed
        (Heard X.told runner.old runner.new) script.now args.now call.now.limits.ticks
        (option_copied call.now.replay) (option_copied call.now.made)
        (out.old, err.old) (out.new, err.new) result }
{
    let Some(name) = call.replay else {
        return match made_of(files, rt.alloc(), call) {
            Ok(mut made) => lived_by(rt, script, args, call.limits, out, err, &mut made, runner),
            Err(outcome) => finish(outcome, err),
        };
    };
    match reel_in(files, rt.alloc(), name) {
        Some(reel) => run_reel(
            rt.alloc(),
            files,
            call,
            script,
            args,
            name,
            reel,
            out,
            err,
            runner,
        ),
        None => run_record(
            rt.alloc(),
            files,
            call,
            script,
            args,
            name,
            out,
            err,
            runner,
        ),
    }
}

/// Runs a script under the record of a name, which is read as the run goes on.
fn run_reel<F: Folder, O: Sink, E: Sink, X: Runner<Global>>(
    alloc: Global,
    files: &F,
    call: &Arguments<'_, Global>,
    script: &[u8],
    args: &[Vec<u8, Global>],
    name: &[u8],
    reel: Reel<Global, FileSource<F::File>>,
    out: &mut O,
    err: &mut E,
    runner: &mut X,
) -> u8
    requires out { O.has_failed out.old ≡ false }
    requires err { E.has_failed err.old ≡ false }
    ensures { RunsOn (F.opens files.now) F.File.left F.File.reads F.Standard.left
        F.Standard.reads (F.makes files.now) (F.same files.now) O.adds O.has_failed E.adds
        E.has_failed (Heard X.told runner.old runner.new) script.now args.now
        call.now.limits.ticks name.entry (option_copied call.now.made) (reeled_in reel)
        (out.old, err.old) (out.new, err.new) result }
{
    match made_of(files, alloc, call) {
        Ok(mut made) => rerun_reel(
            alloc,
            script,
            args,
            call.limits,
            name,
            reel,
            out,
            err,
            &mut made,
            runner,
        ),
        Err(outcome) => finish(outcome, err),
    }
}

/// Runs a script under the record of a name, all of which is read before.
fn run_record<F: Folder, O: Sink, E: Sink, X: Runner<Global>>(
    alloc: Global,
    files: &F,
    call: &Arguments<'_, Global>,
    script: &[u8],
    args: &[Vec<u8, Global>],
    name: &[u8],
    out: &mut O,
    err: &mut E,
    runner: &mut X,
) -> u8
    requires out { O.has_failed out.old ≡ false }
    requires err { E.has_failed err.old ≡ false }
    ensures { RunsText (F.opens files.now) F.File.left F.File.reads F.Standard.left
        F.Standard.reads (F.makes files.now) (F.same files.now) O.adds O.has_failed E.adds
        E.has_failed (Heard X.told runner.old runner.new) script.now args.now
        call.now.limits.ticks name.entry (option_copied call.now.made) (out.old, err.old)
        (out.new, err.new) result }
{
    let record = match file_in(files, alloc, name) {
        Ok(record) => record,
        Err(fault) => return finish(Outcome::of_file(name, fault), err),
    };
    match read_entries(alloc, &record) {
        Ok(entries) => run_entries(alloc, files, call, script, args, entries, out, err, runner),
        Err(fault) => finish(Outcome::of_fault(name, fault), err),
    }
}

/// Runs a script under the entries of a record, as a call asks for it.
fn run_entries<F: Folder, O: Sink, E: Sink, X: Runner<Global>>(
    alloc: Global,
    files: &F,
    call: &Arguments<'_, Global>,
    script: &[u8],
    args: &[Vec<u8, Global>],
    entries: Vec<Entry<Global>, Global>,
    out: &mut O,
    err: &mut E,
    runner: &mut X,
) -> u8
    requires out { O.has_failed out.old ≡ false }
    requires err { E.has_failed err.old ≡ false }
    ensures { RunsUnder (F.opens files.now) F.File.left F.File.reads F.Standard.left
        F.Standard.reads (F.makes files.now) (F.same files.now) O.adds O.has_failed E.adds
        E.has_failed (Heard X.told runner.old runner.new) script.now args.now
        call.now.limits.ticks (option_copied call.now.made) (map note_of entries.items)
        (out.old, err.old) (out.new, err.new) result }
{
    match made_of(files, alloc, call) {
        Ok(mut made) => rerun_by(
            alloc,
            script,
            args,
            call.limits,
            entries,
            out,
            err,
            &mut made,
            runner,
        ),
        Err(outcome) => finish(outcome, err),
    }
}

/// The record that a call makes, where it names one, or how the call ends without it.
fn made_of<'a, F: Folder>(
    files: &F,
    alloc: Global,
    call: &Arguments<'a, Global>,
) -> Result<Option<RecordFile<Counted<F::Made>>>, Outcome<'a>>
    ensures none { IfOk result (λ made. option_copied call.now.made ≡ None → made ≡ None) }
    ensures made { OnOk result (IsMade (F.makes files.now) (option_copied call.now.made)) }
    ensures lack { IfErr result (λ outcome. LacksFile (IsUnmade (F.makes files.now)
        (F.same files.now)) (option_copied call.now.made) outcome) }
{
    let Some(name) = call.made else {
        return Ok(None);
    };
    match made_file(files, alloc, call, name) {
        Ok(file) => Ok(Some(file)),
        Err(fault) => Err(Outcome::of_file(name, fault)),
    }
}

/// The file of a record of this name. A file that the call also reads is refused before any of it
/// is lost.
fn made_file<F: Folder>(
    files: &F,
    alloc: Global,
    call: &Arguments<'_, Global>,
    name: &[u8],
) -> Result<RecordFile<Counted<F::Made>>, Unread>
    ensures made { OnOk result ((file : F.Made) × F.makes files.now name.now (Ok file)) }
    ensures other { OnOk result (IsOther (F.same files.now) (texts call.now.script.now)
        (option_copied call.now.replay) name.now) }
    ensures refused { IsErrOf result unread.Refused → IsUnmade (F.makes files.now)
        (F.same files.now) name.now }
{
    if is_read(files, call, name) {
        return Err(Unread::Refused);
    }
    create_record(files, alloc, name)
}

/// Whether a call reads the file of this name, as its script or its record.
pub fn is_read<F: Folder>(files: &F, call: &Arguments<'_, Global>, name: &[u8]) -> bool
    ensures read { IsTrue result → (read : List ℕ) × F.same files.now read name.now true }
    ensures other { result ≡ false → IsOther (F.same files.now) (texts call.now.script.now)
        (option_copied call.now.replay) name.now }
{
    is_script(files, call, name) || is_record(files, call, name)
}

/// Whether a call reads the file of this name as its script.
fn is_script<F: Folder>(files: &F, call: &Arguments<'_, Global>, name: &[u8]) -> bool
    ensures read { IsTrue result → (read : List ℕ) × F.same files.now read name.now true }
    ensures other { result ≡ false → IsOtherScript (F.same files.now) (texts call.now.script.now)
        name.now }
{
    match call.script.first() {
        Some(script) => !is_standard_input(script) && files.is_same(script, name),
        None => false,
    }
}

/// Whether a call reads the file of this name as its record.
fn is_record<F: Folder>(files: &F, call: &Arguments<'_, Global>, name: &[u8]) -> bool
    ensures read { IsTrue result → (read : List ℕ) × F.same files.now read name.now true }
    ensures other { result ≡ false → IsOtherRecord (F.same files.now)
        (option_copied call.now.replay) name.now }
{
    match call.replay {
        Some(record) => files.is_same(record, name),
        None => false,
    }
}

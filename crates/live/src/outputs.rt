//! Standard output, standard error and the log file.

ghost use Rattle.std.specs.Prelude.{◌≡◌, ◌≢◌, ◌-◌, length, true, [], ◌∷◌, IfErr, IfOk, IfNone, IfSome, IsSomeAnd, OnOk};
ghost use Rattle.std.specs.declared.io.Error.{Error};
ghost use Rattle.std.specs.Io.{WritesAtMost};
ghost use Rattle.std.specs.Io.KnownBytes.{Appends};
ghost use Rattle.acts.specs.Deed as said;
ghost use Rattle.acts.specs.Deed.{reply_of};
ghost use Rattle.acts.specs.Fits as table;
ghost use Rattle.live.specs.Calls as call;
ghost use Rattle.live.specs.Calls.{took};
ghost use Rattle.live.specs.Live.{IsWhy};
ghost use Rattle.live.specs.Outputs.{IsOpened, went_out};
ghost use Rattle.live.specs.Refusing.{IsRefusal, StopsShort};

use crate::calls::System;
use crate::system::{MOST_TRIES, refused, text_of};
use acts::{Answer, LogMode};
use std::alloc::Global;
use std::io::{self, ErrorKind, Write};

/// Writes a text, and where this fails says how many bytes went out, and keeps why. A write that
/// was interrupted is tried again.
pub fn write_text<W: Write>(
    writer: &mut W,
    text: &[u8],
    why: &mut Option<io::Error>,
) -> Answer<Global>
    ensures fits { table.fits_write text.now (reply_of result) ≡ true }
    ensures why { IsWhy (reply_of result) why.old why.new }
    ensures gets { Appends (W.contents writer.old) (W.contents writer.new)
        (went_out text.now (reply_of result)) }
{
    let mut rest = text;
    for _ in 0..MOST_TRIES {
        if rest.is_empty() {
            return Answer::Done;
        }
        match write_some(writer, rest) {
            Ok(count) => rest = &rest[count..],
            Err(error) => {
                *why = Some(error);
                return failed(text, rest);
            }
        }
    }
    failed(text, rest)
}

/// Writes some bytes from the front of a text, and says how many: `Ok(0)` where the write was
/// interrupted, and an `Err` where no more will go out.
#[tactic(auto, using(crate::proofs::Texts::kept_grows))]
fn write_some<W: Write>(writer: &mut W, text: &[u8]) -> io::Result<usize>
    ensures within { WritesAtMost result text.now }
    ensures gets { Appends (W.contents writer.old) (W.contents writer.new)
        (took result text.now) }
{
    match writer.write(text) {
        Ok(0) => Err(io::Error::from(ErrorKind::WriteZero)),
        Ok(count) => Ok(count),
        Err(error) if error.kind() == ErrorKind::Interrupted => Ok(0),
        Err(error) => Err(error),
    }
}

/// The answer that the write of a text failed, when this rest of it was not written.
pub fn failed(text: &[u8], rest: &[u8]) -> Answer<Global>
    ensures { reply_of result ≡ said.Failed (length text.now - length rest.now) }
{
    Answer::Failed(text.len().saturating_sub(rest.len()) as u64)
}

/// Writes a text to the log file; where none is open, nothing goes out.
pub fn write_log<W: Write>(
    log: &mut Option<W>,
    text: &[u8],
    why: &mut Option<io::Error>,
) -> Answer<Global>
    ensures fits { table.fits_write text.now (reply_of result) ≡ true }
    ensures why { IsWhy (reply_of result) why.old why.new }
    ensures some { IfSome log.old (λ file. IsSomeAnd log.new (λ new.
        Appends (W.contents file) (W.contents new) (went_out text.now (reply_of result)))) }
    ensures none { IfNone log.old ((reply_of result ≡ said.Failed 0) × (log.new ≡ None)) }
{
    match log {
        Some(file) => write_text(file, text, why),
        None => Answer::Failed(0),
    }
}

/// Opens a log file in place of the one that is open. Where the new one is refused, the open one
/// stays.
pub fn open_log<S: System>(
    system: &mut S,
    log: &mut Option<S::Log>,
    name: &[u8],
    mode: LogMode,
    why: &mut Option<io::Error>,
) -> Answer<Global>
    ensures fits { table.fits_open (reply_of result) ≡ true }
    ensures why { IsWhy (reply_of result) why.old why.new }
    ensures done { reply_of result ≡ said.Done → IsSomeAnd log.new (λ file.
        IsOpened (S.holds system.old name.now) mode (S.Log.contents file))
        × S.step system.old (call.OpenLog name.now mode) system.new }
    ensures kept { reply_of result ≢ said.Done → log.new ≡ log.old }
    ensures stops { reply_of result ≢ said.Done → (error : Error)
        × IsRefusal error (reply_of result) × StopsShort S.step system.old
        (call.OpenLog name.now mode ∷ []) error system.new }
{
    match log_file(system, name, mode) {
        Ok(file) => {
            *log = Some(file);
            Answer::Done
        }
        Err(error) => refused(why, error),
    }
}

/// The file of a log.
fn log_file<S: System>(system: &mut S, name: &[u8], mode: LogMode) -> io::Result<S::Log>
    ensures opened { IfOk result (λ file.
        IsOpened (S.holds system.old name.now) mode (S.Log.contents file)) }
    ensures step { OnOk result (S.step system.old (call.OpenLog name.now mode) system.new) }
    ensures stops { IfErr result (λ error. StopsShort S.step system.old
        (call.OpenLog name.now mode ∷ []) error system.new) }
{
    Ok(system.open_log(text_of(name)?, mode)?)
}

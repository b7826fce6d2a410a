//! How acts and answers are told.

ghost use Rattle.std.specs.Prelude.{◌≡◌, ◌==◌, ◌++◌, if◌then◌else◌, true, [], codes, decimal, OnOk};
ghost use Rattle.acts.specs.Deed.{deed_of, reply_of};
ghost use Rattle.acts.specs.Id.{id_text};
ghost use Rattle.teller.specs.Told.{about, buffer, buffers, is_wait, lasting, may_be_unasked, opening, outcome, shown, sized};

use acts::decimal::push_decimal;
use acts::{Act, Answer, Id, LogMode, NoMemory, Row, Timer};
use std::alloc::Allocator;
use story::push_shortened;

/// How many bytes of a text are told at most.
pub(crate) const MOST_TOLD: usize = 120;

/// Writes the name of an id.
pub(crate) fn push_id<A: Allocator>(out: &mut Vec<u8, A>, id: Id) -> Result<(), NoMemory>
    ensures { OnOk result (out.new.items ≡ out.old.items ++ id_text id.0) }
{
    out.extend_from_slice(b"exp")?;
    push_decimal(out, id.0)
}

/// Writes how many bytes a text has, and the text.
pub(crate) fn push_bytes<A: Allocator>(out: &mut Vec<u8, A>, text: &[u8]) -> Result<(), NoMemory>
    ensures { OnOk result (out.new.items ≡ out.old.items ++ sized text.now) }
{
    push_decimal(out, text.len() as u64)?;
    out.extend_from_slice(unit_of(text.len()))?;
    push_shortened(out, text, MOST_TOLD)
}

/// What stands between a number of bytes and the bytes.
fn unit_of(count: usize) -> &'static [u8]
    ensures { result.now ≡ (if count == 1 then codes " byte  " else codes " bytes  ") }
{
    if count == 1 { b" byte  " } else { b" bytes  " }
}

/// Whether an act is also done where no command asks for it: what has come is shown and logged, and
/// at the end an error is reported and what is open is closed.
pub(crate) fn may_be_unasked<A: Allocator>(act: &Act<A>) -> bool
    ensures { result ≡ may_be_unasked (deed_of act.now) }
{
    matches!(
        act,
        Act::Out(_) | Act::Err(_) | Act::Log(_) | Act::Close(_) | Act::CloseLog
    )
}

/// Whether an act is a wait.
pub(crate) fn is_wait<A: Allocator>(act: &Act<A>) -> bool
    ensures { result ≡ is_wait (deed_of act.now) }
{
    matches!(act, Act::Wait { .. })
}

/// Writes what an act is about.
///
/// # Errors
/// `NoMemory`; a beginning of it may then have been written.
pub(crate) fn push_act<A: Allocator>(out: &mut Vec<u8, A>, act: &Act<A>) -> Result<(), NoMemory>
    ensures { OnOk result (out.new.items ≡ out.old.items ++ about (deed_of act.now)) }
{
    match act {
        Act::Out(text) => push_written(out, b"prints ", text),
        Act::Err(text) => push_written(out, b"prints to standard error ", text),
        Act::Log(text) => push_written(out, b"logs ", text),
        Act::Send(id, text) => push_sent(out, *id, text),
        Act::Spawn(id, _) | Act::Reap(id) => push_id(out, *id),
        Act::Connect(id, host, port) => push_server(out, *id, host, *port),
        Act::OpenLog(name, mode) => push_log(out, name, *mode),
        Act::Close(id) => push_closed(out, *id),
        Act::Sleep(seconds) => push_seconds(out, *seconds),
        Act::CloseLog => Ok(out.extend_from_slice(b"closes the log")?),
        Act::Wait { rows, timer } => push_wait(out, rows, *timer),
    }
}

/// Writes that a text is written.
fn push_written<A: Allocator>(out: &mut Vec<u8, A>, how: &[u8], text: &[u8]) -> Result<(), NoMemory>
    ensures { OnOk result (out.new.items ≡ out.old.items ++ (how.now ++ sized text.now)) }
{
    out.extend_from_slice(how)?;
    push_bytes(out, text)
}

/// Writes that a text is sent to an id.
fn push_sent<A: Allocator>(out: &mut Vec<u8, A>, id: Id, text: &[u8]) -> Result<(), NoMemory>
    ensures { OnOk result
        (out.new.items ≡ out.old.items ++ (id_text id.0 ++ (codes ", " ++ sized text.now))) }
{
    push_id(out, id)?;
    push_written(out, b", ", text)
}

/// Writes the server of a connection.
fn push_server<A: Allocator>(
    out: &mut Vec<u8, A>,
    id: Id,
    host: &[u8],
    port: u16,
) -> Result<(), NoMemory>
    ensures { OnOk result (out.new.items ≡ out.old.items ++ (id_text id.0 ++ (codes ", host "
        ++ (shown host.now ++ (codes ", port " ++ decimal port))))) }
{
    push_id(out, id)?;
    out.extend_from_slice(b", host ")?;
    push_shortened(out, host, MOST_TOLD)?;
    out.extend_from_slice(b", port ")?;
    push_decimal(out, u64::from(port))
}

/// Writes the name of a log, and what becomes of its bytes.
fn push_log<A: Allocator>(out: &mut Vec<u8, A>, name: &[u8], mode: LogMode) -> Result<(), NoMemory>
    ensures { OnOk result (out.new.items ≡ out.old.items ++ (opening mode ++ shown name.now)) }
{
    match mode {
        LogMode::Append => out.extend_from_slice(b"appends to ")?,
        LogMode::Truncate => out.extend_from_slice(b"begins anew ")?,
    }
    push_shortened(out, name, MOST_TOLD)
}

/// Writes that an id is closed.
fn push_closed<A: Allocator>(out: &mut Vec<u8, A>, id: Id) -> Result<(), NoMemory>
    ensures { OnOk result (out.new.items ≡ out.old.items ++ (codes "closes " ++ id_text id.0)) }
{
    out.extend_from_slice(b"closes ")?;
    push_id(out, id)
}

/// Writes a time in seconds.
fn push_seconds<A: Allocator>(out: &mut Vec<u8, A>, seconds: u64) -> Result<(), NoMemory>
    ensures { OnOk result (out.new.items ≡ out.old.items ++ (decimal seconds ++ codes " s")) }
{
    push_decimal(out, seconds)?;
    out.extend_from_slice(b" s")?;
    Ok(())
}

/// Writes what a wait waits for: the ids with their buffers, and the time.
fn push_wait<A: Allocator>(out: &mut Vec<u8, A>, rows: &[Row], timer: Timer) -> Result<(), NoMemory>
    ensures { OnOk result (out.new.items ≡
        out.old.items ++ (codes "waits for " ++ (buffers true rows.now ++ lasting timer))) }
{
    out.extend_from_slice(b"waits for ")?;
    push_buffers(out, rows)?;
    push_timer(out, timer)
}

/// Writes ids with their buffers, with a comma before each but the first.
fn push_buffers<A: Allocator>(out: &mut Vec<u8, A>, rows: &[Row]) -> Result<(), NoMemory>
    ensures { OnOk result (out.new.items ≡ out.old.items ++ buffers true rows.now) }
{
    let mut first = true;
    for row in rows {
        push_next(out, first, row)?;
        first = false;
    }
    Ok(())
}

/// Writes an id with its buffer, and a comma before it where it is not the first.
fn push_next<A: Allocator>(out: &mut Vec<u8, A>, first: bool, row: &Row) -> Result<(), NoMemory>
    ensures { OnOk result (out.new.items ≡
        out.old.items ++ ((if first then [] else codes ", ") ++ buffer row.now)) }
{
    if !first {
        out.extend_from_slice(b", ")?;
    }
    push_id(out, row.id)?;
    out.extend_from_slice(b" (")?;
    push_decimal(out, u64::from(row.held))?;
    out.extend_from_slice(b" of ")?;
    push_decimal(out, u64::from(row.max))?;
    out.extend_from_slice(b" bytes)")?;
    Ok(())
}

/// Writes how long a wait may last.
fn push_timer<A: Allocator>(out: &mut Vec<u8, A>, timer: Timer) -> Result<(), NoMemory>
    ensures { OnOk result (out.new.items ≡ out.old.items ++ lasting timer) }
{
    match timer {
        Timer::Start(seconds) => {
            out.extend_from_slice(b", ")?;
            push_seconds(out, seconds)
        }
        Timer::Running => Ok(out.extend_from_slice(b", the time runs on")?),
        Timer::Endless => Ok(out.extend_from_slice(b", without end")?),
    }
}

/// Writes, after what an act is about, what its answer says, where that is not only that it is
/// done.
///
/// # Errors
/// `NoMemory`; a beginning of it may then have been written.
pub(crate) fn push_answer<A: Allocator>(
    out: &mut Vec<u8, A>,
    answer: &Answer<A>,
) -> Result<(), NoMemory>
    ensures { OnOk result (out.new.items ≡ out.old.items ++ outcome (reply_of answer.now)) }
{
    match answer {
        Answer::Started(process) => push_part(out, b", process ", *process, b""),
        Answer::Failed(count) => push_part(out, b", failed after ", *count, b" bytes"),
        Answer::Refused => Ok(out.extend_from_slice(b", refused")?),
        Answer::Exited(Some(status)) => push_part(out, b", status ", u64::from(*status), b""),
        Answer::Exited(None) => Ok(out.extend_from_slice(b", ended by a signal")?),
        Answer::NoMore => Ok(out.extend_from_slice(b", and the world has no more answers")?),
        Answer::Done | Answer::Arrive(_, _) | Answer::Ended(_) | Answer::TimedOut => Ok(()),
    }
}

/// Writes a number between two texts.
fn push_part<A: Allocator>(
    out: &mut Vec<u8, A>,
    before: &[u8],
    number: u64,
    after: &[u8],
) -> Result<(), NoMemory>
    ensures { OnOk result
        (out.new.items ≡ out.old.items ++ (before.now ++ (decimal number ++ after.now))) }
{
    out.extend_from_slice(before)?;
    push_decimal(out, number)?;
    out.extend_from_slice(after)?;
    Ok(())
}

//! Waiting for what programs and servers say.

ghost use Rattle.std.specs.Prelude.{◌≡◌, ◌==◌, [], ◌∷◌, ◌≤◌, true, length, option_map, position, IfOk, IfSome, None};
ghost use Rattle.acts.specs.Deed.{reply_of};
ghost use Rattle.acts.specs.Fits as table;
ghost use Rattle.live.specs.Arriving.{Rests, Sees, Waits, comes, is_of, is_wanted};
ghost use Rattle.live.specs.Early.{IfAnswered};
ghost use Rattle.live.specs.Kept.{ids_of, kept_of};
ghost use Rattle.live.specs.Live.{IsWhy};
ghost use Rattle.live.specs.Turns as turns;
ghost use Rattle.live.specs.Turns.{IsFirst, KeepsTurns, in_turn, last_of};

use crate::calls::{Owned, System};
use crate::link::Look;
use crate::peers::{Passed, Peers, look_early, place_from, place_of};
use crate::system::MOST_TRIES;
use crate::waiting::{Left, is_over, time_from, time_left};
use acts::{Answer, Id, Row, Timer};
use std::alloc::Global;
use std::io::{self, ErrorKind};

/// Waits for bytes or an end under one of the ids of the rows, or for the timer. The answer is that
/// there are no more answers where memory or the system refuses, or nothing could ever come.
#[tactic(auto, using(crate::proofs::Arrivals::wait_why))]
pub fn wait<S: System>(
    system: &mut S,
    peers: &mut Peers<S::Link>,
    rows: &[Row],
    timer: Timer,
) -> Answer<Global>
    ensures fits { table.fits_wait rows.now timer (reply_of result) ≡ true }
    ensures wanted { is_wanted rows.now (reply_of result) ≡ true }
    ensures why { IsWhy (reply_of result) None None }
    ensures ids { ids_of S.Link.owner peers.new.list.items
        ≡ ids_of S.Link.owner peers.old.list.items }
    ensures waits { IfAnswered (reply_of result) (Waits S.step system.old
        (ids_of S.Link.owner peers.old.list.items) rows.now
        (kept_of S.Link.owner peers.old.list.items) timer peers.old.deadline peers.new.deadline
        (reply_of result) (kept_of S.Link.owner peers.new.list.items) system.new
        × KeepsTurns S.step system.old (ids_of S.Link.owner peers.old.list.items) rows.now
        peers.old.last peers.new.last (reply_of result)
        (kept_of S.Link.owner peers.new.list.items) system.new) }
{
    match next(system, peers, rows, timer) {
        Ok(answer) => answer,
        Err(_) => Answer::NoMore,
    }
}

/// What comes next. A wait reads before it gives up, but one that continues a timer that has run
/// out does not: a program that never stops writing cannot hold it.
#[tactic(auto, using(crate::proofs::Arrivals::comes_fits))]
fn next<S: System>(
    system: &mut S,
    peers: &mut Peers<S::Link>,
    rows: &[Row],
    timer: Timer,
) -> io::Result<Answer<Global>>
    ensures fits { IfOk result (λ answer.
        table.fits_wait rows.now timer (reply_of answer) ≡ true) }
    ensures wanted { IfOk result (λ answer. is_wanted rows.now (reply_of answer) ≡ true) }
    ensures ids { ids_of S.Link.owner peers.new.list.items
        ≡ ids_of S.Link.owner peers.old.list.items }
    ensures waits { IfOk result (λ answer. IfAnswered (reply_of answer) (Waits S.step system.old
        (ids_of S.Link.owner peers.old.list.items) rows.now
        (kept_of S.Link.owner peers.old.list.items) timer peers.old.deadline peers.new.deadline
        (reply_of answer) (kept_of S.Link.owner peers.new.list.items) system.new
        × KeepsTurns S.step system.old (ids_of S.Link.owner peers.old.list.items) rows.now
        peers.old.last peers.new.last (reply_of answer)
        (kept_of S.Link.owner peers.new.list.items) system.new)) }
{
    peers.deadline = time_from(system, peers.deadline, timer)?;
    if is_over(system, peers.deadline, timer)? {
        return Ok(Answer::TimedOut);
    }
    'looks: for _ in 0..MOST_TRIES {
        match look_round(system, peers, rows)? {
            Some(heard) => return Ok(heard),
            None => {}
        }
        match rest(system, peers, rows, timer)? {
            Some(ended) => return Ok(ended),
            None => {}
        }
    }
    Ok(Answer::NoMore)
}

/// Waits until something may have come, or answers that the time is up, or that nothing could ever
/// come.
fn rest<S: System>(
    system: &mut S,
    peers: &Peers<S::Link>,
    rows: &[Row],
    timer: Timer,
) -> io::Result<Option<Answer<Global>>>
    ensures fits { IfOk result (λ found. IfSome found (λ answer.
        (table.fits_wait rows.now timer (reply_of answer) ≡ true)
        × (is_wanted rows.now (reply_of answer) ≡ true))) }
    ensures rests { IfOk result (λ found. Rests S.step timer system.old peers.now.deadline
        (option_map reply_of found) system.new) }
{
    match time_left(system, peers.deadline, timer)? {
        Left::Nothing => Ok(Some(Answer::TimedOut)),
        Left::For(time) => {
            system.pause(Some(time))?;
            Ok(None)
        }
        Left::Endless if is_any_open(peers, rows) => {
            system.pause(None)?;
            Ok(None)
        }
        Left::Endless => Ok(Some(Answer::NoMore)),
    }
}

/// Whether one of the ids of the rows is open.
fn is_any_open<L: Owned>(peers: &Peers<L>, rows: &[Row]) -> bool {
    rows.iter()
        .any(|row| place_of(&peers.list, row.id).is_some())
}

/// Reads for each row once, without waiting. The id that was answered for last has its turn last.
fn look_round<S: System>(
    system: &mut S,
    peers: &mut Peers<S::Link>,
    rows: &[Row],
) -> io::Result<Option<Answer<Global>>>
    ensures of_rows { IfOk result (λ found. IfSome found (λ answer.
        comes rows.now (reply_of answer) ≡ true)) }
    ensures deadline { peers.new.deadline ≡ peers.old.deadline }
    ensures ids { ids_of S.Link.owner peers.new.list.items
        ≡ ids_of S.Link.owner peers.old.list.items }
    ensures sees { IfOk result (λ found. Sees S.step system.old
        (ids_of S.Link.owner peers.old.list.items) rows.now
        (kept_of S.Link.owner peers.old.list.items) (option_map reply_of found)
        (kept_of S.Link.owner peers.new.list.items) system.new) }
    ensures first { IfOk result (λ found. IfSome found (λ answer. IsFirst S.step system.old
        (ids_of S.Link.owner peers.old.list.items) (in_turn rows.now peers.old.last)
        (kept_of S.Link.owner peers.old.list.items) (reply_of answer)
        (kept_of S.Link.owner peers.new.list.items) system.new)) }
    ensures last { IfOk result (λ found.
        peers.new.last ≡ last_of (option_map reply_of found) peers.old.last) }
{
    let (before, behind) = rows.split_at(turn_of(rows, peers.last));
    match look_through(system, peers, behind)? {
        Some(answer) => Ok(Some(answer)),
        None => look_through(system, peers, before),
    }
}

/// Reads for each row once, from the first row on.
fn look_through<S: System>(
    system: &mut S,
    peers: &mut Peers<S::Link>,
    rows: &[Row],
) -> io::Result<Option<Answer<Global>>>
    ensures of_rows { IfOk result (λ found. IfSome found (λ answer.
        comes rows.now (reply_of answer) ≡ true)) }
    ensures deadline { peers.new.deadline ≡ peers.old.deadline }
    ensures ids { ids_of S.Link.owner peers.new.list.items
        ≡ ids_of S.Link.owner peers.old.list.items }
    ensures sees { IfOk result (λ found. Sees S.step system.old
        (ids_of S.Link.owner peers.old.list.items) rows.now
        (kept_of S.Link.owner peers.old.list.items) (option_map reply_of found)
        (kept_of S.Link.owner peers.new.list.items) system.new) }
    ensures first { IfOk result (λ found. IfSome found (λ answer. IsFirst S.step system.old
        (ids_of S.Link.owner peers.old.list.items) rows.now
        (kept_of S.Link.owner peers.old.list.items) (reply_of answer)
        (kept_of S.Link.owner peers.new.list.items) system.new)) }
    ensures last { IfOk result (λ found.
        peers.new.last ≡ last_of (option_map reply_of found) peers.old.last) }
{
    let mut passed = Passed::none();
    for row in rows {
        let place = place_from(&peers.list, row.id, &mut passed);
        match look_at(system, peers, *row, place)? {
            Some(answer) => return Ok(Some(answer)),
            None => {}
        }
    }
    Ok(None)
}

/// Reads for one row once, whose link stands at this place, where there is one. An id that is not
/// open gives nothing. Without any room for what comes
/// all would be silent for ever, which no list with a link is without.
fn look_at<S: System>(
    system: &mut S,
    peers: &mut Peers<S::Link>,
    row: Row,
    place: Option<usize>,
) -> io::Result<Option<Answer<Global>>>
    requires { place ≡ position (λ peer. (S.Link.owner peer.link).0 == row.id.0)
        peers.old.list.items }
    ensures of_row { IfOk result (λ found. IfSome found (λ answer.
        is_of row (reply_of answer) ≡ true)) }
    ensures deadline { peers.new.deadline ≡ peers.old.deadline }
    ensures ids { ids_of S.Link.owner peers.new.list.items
        ≡ ids_of S.Link.owner peers.old.list.items }
    ensures sees { IfOk result (λ found. Sees S.step system.old
        (ids_of S.Link.owner peers.old.list.items) (row ∷ [])
        (kept_of S.Link.owner peers.old.list.items) (option_map reply_of found)
        (kept_of S.Link.owner peers.new.list.items) system.new) }
    ensures last { IfOk result (λ found.
        peers.new.last ≡ last_of (option_map reply_of found) peers.old.last) }
{
    let Some(place) = place else {
        return Ok(None);
    };
    if peers.room.is_empty() {
        return Err(io::Error::from(ErrorKind::OutOfMemory));
    }
    let most = peers.room.len().min(row.want as usize);
    let room = &mut peers.room[..most];
    match look_early(system, &mut peers.list[place], room) {
        Look::Bytes(count) => {
            let bytes = Vec::from_slice(peers.alloc, &room[..count])?;
            peers.last = Some(row.id);
            Ok(Some(Answer::Arrive(row.id, bytes)))
        }
        Look::Silence => Ok(None),
        Look::End => {
            peers.last = Some(row.id);
            Ok(Some(Answer::Ended(row.id)))
        }
    }
}

/// The place of the row that is read first: the row after that of the last id.
fn turn_of(rows: &[Row], last: Option<Id>) -> usize
    ensures turn { result ≡ turns.turn_of rows.now last }
    ensures within { result ≤ length rows.now }
{
    let Some(last) = last else {
        return 0;
    };
    match row_of(rows, last) {
        Some(place) => place + 1,
        None => 0,
    }
}

/// The place of the first row of an id.
fn row_of(rows: &[Row], id: Id) -> Option<usize>
    ensures { result ≡ position (λ row. row.id.0 == id.0) rows.now }
{
    rows.iter().position(|row| row.id == id)
}

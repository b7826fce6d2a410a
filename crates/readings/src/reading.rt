//! Reading the words of an `expect`, part by part.
ghost use Rattle.std.specs.Prelude.{◌≤◌, ◌∷◌, length, Ok, Err, IfOk, IfErr, IfSome};
ghost use Rattle.readings.specs.Drafts.{GoesOn, Fails, wanted_of};
ghost use Rattle.readings.specs.Misreads.{flaw_of};
ghost use Rattle.readings.specs.Parts.{parts, parts_from, AList, ANumber, APattern, ABody};
ghost use Rattle.readings.specs.Reads.{IsRead, place};
ghost use Rattle.readings.specs.Signs.{style_of};

use crate::branch_error::BranchError;
use crate::branches::Branches;
use crate::draft::{Draft, Wanted};
use crate::id_list::open_ids;
use crate::sign::Sign;
use acts::Id;
use choices::Table;
use searches::Style;
use std::alloc::Allocator;
use tcltext::{Value, read_int};

/// The place where words are read: the open ids, the id in force, if it is open, and whether the
/// words are those of `expect_before` or `expect_after`, whose pairs stand.
#[derive(Drop)]
pub(crate) struct Place<'t, A: Allocator> {
    table: &'t Table<A>,
    current: Option<Id>,
    standing: bool,
}

impl<A: Allocator + Copy> Branches<A> {
    /// The branches that the words of `expect` say, or with `standing` those of `expect_before` or
    /// `expect_after` (expect(1), expect). `current` is the id in force, where it is open.
    ///
    /// # Errors
    /// The error that comes first in the words, or `NoMemory`.
    pub fn read<'a>(
        alloc: A,
        words: &'a [Value<A>],
        current: Option<Id>,
        standing: bool,
        table: &Table<A>,
    ) -> Result<Branches<A>, BranchError<'a>>
        ensures branches { IfOk result (λ b.
            IsRead (place table.now.lines current standing) words.now (Ok b)) }
        ensures flaw { IfErr result (λ e. IfSome (flaw_of e) (λ flaw.
            IsRead (place table.now.lines current standing) words.now (Err flaw))) }
    {
        let at = Place {
            table,
            current,
            standing,
        };
        let mut draft = Draft::new(alloc);
        let mut rest = words;
        while let Some((word, behind)) = rest.split_first() {
            rest = read_part(alloc, &at, &mut draft, word.as_slice(), behind)?;
        }
        draft.finish(current)
    }
}

/// Reads one part of the words, and gives the words after it.
fn read_part<'a, A: Allocator + Copy>(
    alloc: A,
    at: &Place<'_, A>,
    draft: &mut Draft<A>,
    word: &'a [u8],
    rest: &'a [Value<A>],
) -> Result<&'a [Value<A>], BranchError<'a>>
    ensures goes_on { let here = place at.now.table.now.lines at.now.current at.now.standing in
        IfOk result (λ behind. GoesOn here draft.old (parts at.now.standing (word.now ∷ rest.now))
        draft.new (parts at.now.standing behind.now)) }
    ensures shorter { IfOk result (λ behind. length behind.now ≤ length rest.now) }
    ensures fails { let here = place at.now.table.now.lines at.now.current at.now.standing in
        IfErr result (λ e. IfSome (flaw_of e)
        (Fails here draft.old (parts at.now.standing (word.now ∷ rest.now)))) }
{
    match Sign::of(at.standing, word) {
        Sign::Mark(mark) => {
            draft.mark(mark);
            Ok(rest)
        }
        Sign::Regex => Err(BranchError::RegexNotHere),
        Sign::Bad => Err(BranchError::BadFlag(word)),
        Sign::Ids => read_ids(alloc, at, draft, rest),
        Sign::Seconds => read_seconds(at, draft, rest),
        Sign::Pattern(style) => read_pattern(alloc, at, draft, style, rest),
        Sign::Keyword(keyword) => read_branch(alloc, at, draft, Wanted::Names(keyword), rest),
        Sign::Plain => read_branch(alloc, at, draft, Wanted::Seeks(Style::Glob, word), rest),
    }
}

/// Reads a list of ids, and gives the words after it.
fn read_ids<'a, A: Allocator + Copy>(
    alloc: A,
    at: &Place<'_, A>,
    draft: &mut Draft<A>,
    rest: &'a [Value<A>],
) -> Result<&'a [Value<A>], BranchError<'a>>
    ensures goes_on { let here = place at.now.table.now.lines at.now.current at.now.standing in
        IfOk result (λ behind. GoesOn here draft.old
        (parts_from at.now.standing AList rest.now)
        draft.new (parts at.now.standing behind.now)) }
    ensures shorter { IfOk result (λ behind. length behind.now ≤ length rest.now) }
    ensures fails { let here = place at.now.table.now.lines at.now.current at.now.standing in
        IfErr result (λ e. IfSome (flaw_of e)
        (Fails here draft.old (parts_from at.now.standing AList rest.now))) }
{
    let Some((list, behind)) = rest.split_first() else {
        return Err(BranchError::NoPattern);
    };
    let ids = open_ids(alloc, at.table, list.as_slice())?;
    draft.add_ids(ids)?;
    Ok(behind)
}

/// Reads seconds after `-timeout`, and gives the words after them.
fn read_seconds<'a, A: Allocator + Copy>(
    at: &Place<'_, A>,
    draft: &mut Draft<A>,
    rest: &'a [Value<A>],
) -> Result<&'a [Value<A>], BranchError<'a>>
    ensures goes_on { let here = place at.now.table.now.lines at.now.current at.now.standing in
        IfOk result (λ behind. GoesOn here draft.old
        (parts_from at.now.standing ANumber rest.now)
        draft.new (parts at.now.standing behind.now)) }
    ensures shorter { IfOk result (λ behind. length behind.now ≤ length rest.now) }
    ensures fails { let here = place at.now.table.now.lines at.now.current at.now.standing in
        IfErr result (λ e. IfSome (flaw_of e)
        (Fails here draft.old (parts_from at.now.standing ANumber rest.now))) }
{
    let Some((number, behind)) = rest.split_first() else {
        return Err(BranchError::NoPattern);
    };
    let Some(seconds) = read_int(number.as_slice()) else {
        return Err(BranchError::BadFlag(b"-timeout"));
    };
    draft.set_timeout(seconds);
    Ok(behind)
}

/// Reads a branch whose pattern stands after its flag, and gives the words after it.
fn read_pattern<'a, A: Allocator + Copy>(
    alloc: A,
    at: &Place<'_, A>,
    draft: &mut Draft<A>,
    style: Style,
    rest: &'a [Value<A>],
) -> Result<&'a [Value<A>], BranchError<'a>>
    ensures goes_on { let here = place at.now.table.now.lines at.now.current at.now.standing in
        IfOk result (λ behind. GoesOn here draft.old
        (parts_from at.now.standing (APattern (style_of style)) rest.now)
        draft.new (parts at.now.standing behind.now)) }
    ensures shorter { IfOk result (λ behind. length behind.now ≤ length rest.now) }
    ensures fails { let here = place at.now.table.now.lines at.now.current at.now.standing in
        IfErr result (λ e. IfSome (flaw_of e)
        (Fails here draft.old
        (parts_from at.now.standing (APattern (style_of style)) rest.now))) }
{
    let Some((text, behind)) = rest.split_first() else {
        return Err(BranchError::NoPattern);
    };
    read_branch(
        alloc,
        at,
        draft,
        Wanted::Seeks(style, text.as_slice()),
        behind,
    )
}

/// Reads the body of a branch, and gives the words after it.
fn read_branch<'a, A: Allocator + Copy>(
    alloc: A,
    at: &Place<'_, A>,
    draft: &mut Draft<A>,
    wanted: Wanted<'a>,
    rest: &'a [Value<A>],
) -> Result<&'a [Value<A>], BranchError<'a>>
    ensures goes_on { let here = place at.now.table.now.lines at.now.current at.now.standing in
        IfOk result (λ behind. GoesOn here draft.old
        (parts_from at.now.standing (ABody (wanted_of wanted.entry)) rest.now)
        draft.new (parts at.now.standing behind.now)) }
    ensures shorter { IfOk result (λ behind. length behind.now ≤ length rest.now) }
    ensures fails { let here = place at.now.table.now.lines at.now.current at.now.standing in
        IfErr result (λ e. IfSome (flaw_of e)
        (Fails here draft.old
        (parts_from at.now.standing (ABody (wanted_of wanted.entry)) rest.now))) }
{
    let Some((body, behind)) = rest.split_first() else {
        draft.add_branch(alloc, at.current, wanted, Value::empty())?;
        return Ok(rest);
    };
    draft.add_branch(alloc, at.current, wanted, body.share()?)?;
    Ok(behind)
}

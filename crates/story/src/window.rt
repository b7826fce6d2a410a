//! The causes that the window shows.

use crate::lens::{Lens, Omitted};
use crate::search::seek;
use crate::shape::{Backslash, Item, Shape, Ties};
use crate::sought::Style;
use crate::vain::{Ending, Vain};
use crate::why::{Difference, Why};
use memchr::memmem;
use memory::NoMemory;
use patterns::Found;
use std::alloc::Allocator;
use tcltext::{ListFault, split_list};

/// How many bytes of a pattern say enough, unless they stand at the end of the window.
const TELLING: usize = 2;

/// How many say enough where blanks are left out, since then the ends of words meet.
const TELLING_WITHOUT_BLANKS: usize = 4;

/// A branch that sought in vain, and the items of its pattern.
#[derive(Drop)]
pub(crate) struct Look<'a, A: Allocator> {
    pub(crate) alloc: A,
    pub(crate) vain: Vain<'a>,
    pub(crate) shape: Shape<'a, A>,
    /// As `expect` looks for it.
    pub(crate) lens: Lens,
}

impl<'a, A: Allocator + Copy> Look<'a, A> {
    /// Reads the pattern of a branch.
    pub(crate) fn new(alloc: A, vain: &Vain<'a>) -> Result<Look<'a, A>, NoMemory> {
        let sought = vain.sought;
        let shape = Shape::read(alloc, sought.style, Backslash::Plain, sought.text)?;
        Ok(Look {
            alloc,
            vain: *vain,
            shape,
            lens: Lens::plain(sought.folds),
        })
    }

    /// The cause that these items stand in the window but for this difference, if they say enough.
    fn stands(
        &self,
        items: &[Item<'_>],
        ties: Ties,
        lens: Lens,
        but: Difference,
    ) -> Result<Option<Why>, NoMemory> {
        let window = self.vain.window;
        match seek(self.alloc, items, ties, lens, window)? {
            Some(Found { start: at, end }) if says_enough(items, lens, end == window.len()) => {
                Ok(Some(Why::Stands { at, end, but }))
            }
            _ => Ok(None),
        }
    }
}

/// Whether a pattern of these items would not be found just anywhere.
fn says_enough(items: &[Item<'_>], lens: Lens, is_at_end: bool) -> bool {
    let mut bytes = 0usize;
    for item in items {
        if let Item::Byte(byte) = item
            && !lens.omits(*byte)
        {
            bytes = bytes.saturating_add(1);
        }
    }
    let least = match lens.omitted {
        _ if is_at_end => 1,
        Omitted::Nothing | Omitted::Returns => TELLING,
        Omitted::Blanks => TELLING_WITHOUT_BLANKS,
    };
    bytes >= least
}

/// The first cause that the window shows.
pub(crate) fn in_window<A: Allocator + Copy>(look: &Look<'_, A>) -> Result<Option<Why>, NoMemory> {
    if let Some(why) = taken(look)? {
        return Ok(Some(why));
    }
    if is_branches(look)? {
        return Ok(Some(Why::Branches));
    }
    if let Some(why) = literal(look)? {
        return Ok(Some(why));
    }
    if let Some(why) = escape(look)? {
        return Ok(Some(why));
    }
    if let Some(why) = case(look)? {
        return Ok(Some(why));
    }
    if let Some(why) = last_blank(look)? {
        return Ok(Some(why));
    }
    if let Some(why) = blanks(look)? {
        return Ok(Some(why));
    }
    if let Some(why) = tied(look)? {
        return Ok(Some(why));
    }
    if let Some(why) = set(look)? {
        return Ok(Some(why));
    }
    several(look)
}

/// An earlier branch took the text first.
fn taken<A: Allocator + Copy>(look: &Look<'_, A>) -> Result<Option<Why>, NoMemory> {
    if look.vain.ending != Ending::Other {
        return Ok(None);
    }
    let Shape { items, ties } = &look.shape;
    match seek(look.alloc, items, *ties, look.lens, look.vain.window)? {
        Some(Found { start: at, end }) => {
            let but = Difference::Taken;
            Ok(Some(Why::Stands { at, end, but }))
        }
        None => Ok(None),
    }
}

/// Whether the only word of the command looks like a list of branches.
fn is_branches<A: Allocator + Copy>(look: &Look<'_, A>) -> Result<bool, NoMemory> {
    let text = look.vain.sought.text;
    if !look.vain.sought.is_lone {
        return Ok(false);
    }
    if matches!(text, [b'\n', ..]) {
        return Ok(true);
    }
    match split_list(look.alloc, text) {
        Ok(words) => Ok(1 < words.len() && text.contains(&b'{')),
        Err(ListFault::NoMemory(refused)) => Err(refused),
        Err(_) => Ok(false),
    }
}

/// The text of a glob stands there as it is written.
fn literal<A: Allocator + Copy>(look: &Look<'_, A>) -> Result<Option<Why>, NoMemory> {
    let text = look.vain.sought.text;
    if look.vain.sought.style == Style::Exact || text.len() < TELLING {
        return Ok(None);
    }
    let view = look.lens.view(look.alloc, look.vain.window)?;
    match memmem::find(view.as_slice(), text) {
        Some(at) => {
            let end = at.saturating_add(text.len());
            let but = Difference::Literal;
            Ok(Some(Why::Stands { at, end, but }))
        }
        None => Ok(None),
    }
}

/// It stands there if its backslashes are read as in double quotes.
fn escape<A: Allocator + Copy>(look: &Look<'_, A>) -> Result<Option<Why>, NoMemory> {
    match escaped(look)? {
        Some(shape) => look.stands(&shape.items, shape.ties, look.lens, Difference::Escape),
        None => Ok(None),
    }
}

/// The pattern with its backslashes read as in double quotes, if it has any.
fn escaped<'a, A: Allocator + Copy>(look: &Look<'a, A>) -> Result<Option<Shape<'a, A>>, NoMemory> {
    let sought = look.vain.sought;
    if !sought.text.contains(&b'\\') {
        return Ok(None);
    }
    let shape = Shape::read(look.alloc, sought.style, Backslash::Escape, sought.text)?;
    Ok(Some(shape))
}

/// Only the case of letters differs.
fn case<A: Allocator + Copy>(look: &Look<'_, A>) -> Result<Option<Why>, NoMemory> {
    let Shape { items, ties } = &look.shape;
    look.stands(items, *ties, look.lens.without_case(), Difference::Case)
}

/// It stands there without the blanks at its end.
fn last_blank<A: Allocator + Copy>(look: &Look<'_, A>) -> Result<Option<Why>, NoMemory> {
    let Shape { items, ties } = &look.shape;
    let front = without_last_blanks(items);
    if front.len() == items.len() {
        return Ok(None);
    }
    look.stands(front, *ties, look.lens, Difference::LastBlank)
}

/// Only carriage returns differ, or only these and blanks.
fn blanks<A: Allocator + Copy>(look: &Look<'_, A>) -> Result<Option<Why>, NoMemory> {
    let Shape { items, ties } = &look.shape;
    let lens = look.lens.without(Omitted::Returns);
    if let Some(why) = look.stands(items, *ties, lens, Difference::Return)? {
        return Ok(Some(why));
    }
    let lens = look.lens.without(Omitted::Blanks);
    look.stands(items, *ties, lens, Difference::Blanks)
}

/// The items without the blanks and tabs at their end; none where nothing else is there.
fn without_last_blanks<'i, 'a>(items: &'i [Item<'a>]) -> &'i [Item<'a>] {
    let mut left = items;
    while let [before @ .., Item::Byte(b' ' | b'\t')] = left {
        left = before;
    }
    left
}

/// A `^` or a `$` ties it to an end of the window.
fn tied<A: Allocator + Copy>(look: &Look<'_, A>) -> Result<Option<Why>, NoMemory> {
    let Shape { items, ties } = &look.shape;
    if *ties == Ties::NONE {
        return Ok(None);
    }
    match look.stands(items, Ties::NONE, look.lens, Difference::TiedToEnd)? {
        Some(Why::Stands { at, end, .. }) if ties.begin && at != 0 => {
            let but = Difference::TiedToBegin;
            Ok(Some(Why::Stands { at, end, but }))
        }
        found => Ok(found),
    }
}

/// A set does not hold the byte that stands in its place.
fn set<A: Allocator + Copy>(look: &Look<'_, A>) -> Result<Option<Why>, NoMemory> {
    let mut items = Vec::with_capacity(look.alloc, look.shape.items.len())?;
    for item in &look.shape.items {
        items.push(any_for_set(*item))?;
    }
    look.stands(&items, look.shape.ties, look.lens, Difference::Set)
}

/// The item, or any byte in the place of a set.
fn any_for_set<'a>(item: Item<'a>) -> Item<'a> {
    match item {
        Item::Set(_) => Item::Any,
        Item::Byte(_) | Item::Any | Item::Run => item,
    }
}

/// Several of the differences above at once.
fn several<A: Allocator + Copy>(look: &Look<'_, A>) -> Result<Option<Why>, NoMemory> {
    let lens = look.lens.without(Omitted::Blanks).without_case();
    let but = Difference::Several;
    match escaped(look)? {
        Some(shape) => look.stands(&shape.items, Ties::NONE, lens, but),
        None => look.stands(&look.shape.items, Ties::NONE, lens, but),
    }
}

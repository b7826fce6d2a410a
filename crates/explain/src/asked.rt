//! What the words of a call ask for.

ghost use Rattle.std.specs.Prelude.{◌≡◌, ◌≢◌, ◌∷◌, ℕ, List, Option, IfNone, IfSome, codes};
ghost use Rattle.std.specs.Option.{option_copied};
ghost use Rattle.arguments.specs.Arguments.{Call, Holds, texts};
ghost use Rattle.explain.specs.Asked.{Asks, AsksOnly, IsFront};
ghost use Rattle.teller.specs.declared.telling.Detail.{Detail as Much};

use arguments::Arguments;
use std::alloc::Global;
use teller::Detail;

/// What a call asks for: how much is told, and to which file, if it is not standard error; and the
/// call of `rx` whose run is told.
#[derive(Drop)]
pub(crate) struct Asked<'a> {
    pub detail: Detail,
    pub file: Option<&'a [u8]>,
    pub call: Arguments<'a, Global>,
}

/// What a call asks for: `--story F` and `--brief`, each at most once and in either order, and then
/// the words of a call of `rx`; `None` where the words are others.
pub(crate) fn asked_by(words: &[Vec<u8, Global>]) -> Option<Asked<'_>>
    ensures asks { IfSome result (λ asked. (call : Call)
        × AsksOnly (texts words.entry.now) (option_copied asked.file) asked.detail call
        × Holds asked.call call) }
    ensures none { IfNone result ((file : Option (List ℕ)) (detail : Much) (call : Call)
        → ¬ Asks (texts words.entry.now) file detail call) }
{
    let (file, detail, rest) = front_of(words);
    let call = Arguments::read(rest)?;
    Some(Asked { detail, file, call })
}

/// What words say of a story before the words of a call of `rx`: its file and its detail; and the
/// words that are left.
fn front_of(words: &[Vec<u8, Global>]) -> (Option<&[u8]>, Detail, &[Vec<u8, Global>])
    ensures { IsFront (texts words.entry.now) (option_copied result.0) result.1
        (texts result.2.now) }
{
    if let Some((file, rest)) = story_at(words) {
        return match brief_at(rest) {
            Some(rest) => (Some(file), Detail::Brief, rest),
            None => (Some(file), Detail::Whole, rest),
        };
    }
    let Some(rest) = brief_at(words) else {
        return (None, Detail::Whole, words);
    };
    match story_at(rest) {
        Some((file, rest)) => (Some(file), Detail::Brief, rest),
        None => (None, Detail::Brief, rest),
    }
}

/// The file that `--story` names at the beginning of the words, and the words after it.
fn story_at<'a>(words: &'a [Vec<u8, Global>]) -> Option<(&'a [u8], &'a [Vec<u8, Global>])>
    ensures found { IfSome result (λ found.
        texts words.entry.now ≡ codes "--story" ∷ found.0.now ∷ texts found.1.now) }
    ensures none { IfNone result ((file : List ℕ) (rest : List (List ℕ))
        → texts words.entry.now ≢ codes "--story" ∷ file ∷ rest) }
{
    let (first, behind) = words.split_first()?;
    let (file, rest) = behind.split_first()?;
    if first.as_slice() == b"--story".as_slice() {
        Some((file, rest))
    } else {
        None
    }
}

/// The words after `--brief`, where they begin with it.
fn brief_at<'a>(words: &'a [Vec<u8, Global>]) -> Option<&'a [Vec<u8, Global>]>
    ensures found { IfSome result (λ rest.
        texts words.entry.now ≡ codes "--brief" ∷ texts rest.now) }
    ensures none { IfNone result ((rest : List (List ℕ))
        → texts words.entry.now ≢ codes "--brief" ∷ rest) }
{
    let (first, rest) = words.split_first()?;
    if first.as_slice() == b"--brief".as_slice() {
        Some(rest)
    } else {
        None
    }
}

//! The arguments of the program.

ghost use Rattle.std.specs.Prelude.{◌≡◌, ◌≢◌, ◌∷◌, ◌++◌, ◌↔◌, [], ℕ, List, Option, IfOk, IfSome, IfNone, IsTrue, flat_map};
ghost use Rattle.std.specs.Option.{option_copied};
ghost use Rattle.arguments.specs.Arguments.{AreScript, AreTicks, Call, Holds, IsCall, IsFile, IsOneCall, Name as SaidName, Setting as Said, lines, name_of, setting_of, spelled, texts, word_of};
ghost use Rattle.arguments.specs.Options.{AreOnce, AreOptions, BeginWith};

use acts::decimal::read_decimal;
use acts::{Limits, NoMemory};
use std::alloc::Allocator;

/// How many ticks a run may take where no argument limits them.
const DEFAULT_TICKS: u64 = 10_000_000;

/// What a call of the program asks for.
#[derive(Clone, Copy, Debug)]
pub struct Arguments<'a, A: Allocator> {
    /// The words of the options.
    pub options: &'a [Vec<u8, A>],
    /// The name of the record whose answers the run gets, if it is no live run.
    pub replay: Option<&'a [u8]>,
    /// The name of the record that is made of the run, if one is.
    pub made: Option<&'a [u8]>,
    /// How long the run may go on.
    pub limits: Limits,
    /// The name of the script's file, `-` for standard input, and then the script's arguments; or
    /// nothing, where the texts of `-c` are the whole script.
    pub script: &'a [Vec<u8, A>],
}

/// An option of a call.
#[derive(Clone, Copy)]
enum Name {
    Command,
    Replay,
    Record,
    Limit,
}

/// An option with the value after it.
#[derive(Clone, Copy)]
struct Setting<'a> {
    name: Name,
    value: &'a [u8],
}

/// The values of the options of a call.
#[derive(Clone, Copy)]
struct Options<'a> {
    has_command: bool,
    replay: Option<&'a [u8]>,
    made: Option<&'a [u8]>,
    limit: Option<&'a [u8]>,
}

impl<'a> Options<'a> {
    /// No option.
    const NONE: Options<'static> = Options {
        has_command: false,
        replay: None,
        made: None,
        limit: None,
    };

    /// These options and one more; `None` where that one is there already and is not `-c`.
    fn with(self, setting: Setting<'a>) -> Option<Options<'a>>
        ensures more { IfSome result (λ more. (settings : List Said)
            → AreOptions self.entry settings
            → AreOptions more (settings ++ setting_of setting.entry ∷ [])) }
        ensures twice { IfNone result ((settings behind : List Said)
            (replay made limit : Option (List ℕ)) → AreOptions self.entry settings
            → ¬ AreOnce (settings ++ setting_of setting.entry ∷ behind) replay made limit) }
    {
        match setting.name {
            Name::Command => Some(Options {
                has_command: true,
                ..self
            }),
            Name::Replay => match self.replay {
                Some(_) => None,
                None => Some(Options {
                    replay: Some(setting.value),
                    ..self
                }),
            },
            Name::Record => match self.made {
                Some(_) => None,
                None => Some(Options {
                    made: Some(setting.value),
                    ..self
                }),
            },
            Name::Limit => match self.limit {
                Some(_) => None,
                None => Some(Options {
                    limit: Some(setting.value),
                    ..self
                }),
            },
        }
    }
}

impl<'a, A: Allocator> Arguments<'a, A> {
    /// Reads the words of a call: `[-c cmds]... [--replay F] [--record G] [--limit N] [[-f] file
    /// [args]]`, the options in any order. It asks for no memory. `None` where the words are not
    /// such a call.
    pub fn read(words: &'a [Vec<u8, A>]) -> Option<Arguments<'a, A>>
        ensures call { IfSome result (λ found. (call : Call)
            × IsOneCall (texts words.entry.now) call × Holds found call) }
        ensures none { IfNone result ((call : Call) → ¬ IsCall (texts words.entry.now) call) }
    {
        let (options, front, behind) = options_of(words)?;
        let limits = limits_of(options.limit)?;
        let script = script_of(behind)?;
        if script.is_empty() && !options.has_command {
            return None;
        }
        Some(Arguments {
            options: front,
            replay: options.replay,
            made: options.made,
            limits,
            script,
        })
    }

    /// What is put before the text of the script's file: each text of `-c`, and a newline after
    /// it.
    pub fn commands<B: Allocator>(&self, alloc: B) -> Result<Vec<u8, B>, NoMemory>
        ensures { IfOk result (λ text. (call : Call)
            → Holds self.now call → text.items ≡ lines call.commands) }
    {
        let mut text = Vec::new(alloc);
        let mut rest = self.options;
        'options: while let Some((setting, behind)) = setting_at(rest) {
            if let Name::Command = setting.name {
                text.extend_from_slice(setting.value)?;
                text.push(b'\n')?;
            }
            rest = behind;
        }
        Ok(text)
    }
}

/// The options that the words begin with, the words of those options, and the words after them;
/// `None` where an option other than `-c` stands there twice.
fn options_of<'a, A: Allocator>(
    words: &'a [Vec<u8, A>],
) -> Option<(Options<'a>, &'a [Vec<u8, A>], &'a [Vec<u8, A>])>
    ensures found { IfSome result (λ found. (settings : List Said)
        × BeginWith (texts words.entry.now) settings (texts found.2.now)
        × (texts found.1.now ≡ flat_map spelled settings) × AreOptions found.0 settings) }
    ensures none { IfNone result ((settings : List Said) (rest : List (List ℕ))
        (replay made limit : Option (List ℕ)) → BeginWith (texts words.entry.now) settings rest
        → ¬ AreOnce settings replay made limit) }
{
    let mut options = Options::NONE;
    let mut rest = words;
    'options: while let Some((setting, behind)) = setting_at(rest) {
        options = options.with(setting)?;
        rest = behind;
    }
    let front = &words[..words.len() - rest.len()];
    Some((options, front, rest))
}

/// The option at the front with its value, and the words after both.
fn setting_at<'a, A: Allocator>(words: &'a [Vec<u8, A>]) -> Option<(Setting<'a>, &'a [Vec<u8, A>])>
    ensures found { IfSome result (λ found. texts words.entry.now
        ≡ spelled (setting_of found.0) ++ texts found.1.now) }
    ensures none { IfNone result ((setting : Said) (behind : List (List ℕ))
        → texts words.entry.now ≢ spelled setting ++ behind) }
{
    let (first, rest) = words.split_first()?;
    let (value, behind) = rest.split_first()?;
    let name = option_of(first)?;
    Some((Setting { name, value }, behind))
}

/// The option that a word names.
fn option_of(word: &[u8]) -> Option<Name>
    ensures named { IfSome result (λ name. word.now ≡ word_of (name_of name)) }
    ensures none { IfNone result ((name : SaidName) → word.now ≢ word_of name) }
{
    if word == b"-c".as_slice() {
        Some(Name::Command)
    } else if word == b"--replay".as_slice() {
        Some(Name::Replay)
    } else if word == b"--record".as_slice() {
        Some(Name::Record)
    } else if word == b"--limit".as_slice() {
        Some(Name::Limit)
    } else {
        None
    }
}

/// The script's file and its arguments, which are the words after the options.
fn script_of<'a, A: Allocator>(words: &'a [Vec<u8, A>]) -> Option<&'a [Vec<u8, A>]>
    ensures script { IfSome result (λ script.
        AreScript (texts words.entry.now) (texts script.now)) }
    ensures only { IfSome result (λ script. (other : List (List ℕ))
        → AreScript (texts words.entry.now) other → other ≡ texts script.now) }
    ensures none { IfNone result ((script : List (List ℕ))
        → ¬ AreScript (texts words.entry.now) script) }
{
    let Some((first, behind)) = words.split_first() else {
        return Some(words);
    };
    if first.as_slice() == b"-f".as_slice() {
        if behind.is_empty() {
            None
        } else {
            Some(behind)
        }
    } else if is_file(first) {
        Some(words)
    } else {
        None
    }
}

/// How long a run may go on, by the value of `--limit`, if it is given; `None` where that is not a
/// limit.
fn limits_of(limit: Option<&[u8]>) -> Option<Limits>
    ensures limits { IfSome result (λ limits. AreTicks (option_copied limit.entry) limits.ticks) }
    ensures none { IfNone result ((ticks : ℕ) → AreTicks (option_copied limit.entry) ticks → ⊥) }
{
    match limit {
        Some(limit) => {
            let ticks = read_decimal(limit)?;
            Limits::new(ticks)
        }
        None => Limits::new(DEFAULT_TICKS),
    }
}

/// Whether a word names a file without `-f`: it begins with `-` only where it is `-`.
fn is_file(word: &[u8]) -> bool
    ensures { IsTrue result ↔ IsFile word.now }
{
    !word.starts_with(b"-") || word.len() == 1
}

//! Laws of the grammar, each the contract of a function that does nothing.

ghost use Rattle.std.specs.Prelude.{◌≡◌, ℕ, List, [], ◌++◌, ◌⊎◌, Bool, false, Option, None, Some, Ok, Err};
ghost use Rattle.tclparse.specs.Fault.{Fault};
ghost use Rattle.tclparse.specs.Context.{Context, whole_script, argument};
ghost use Rattle.tclparse.specs.Tree.{Parts, Words, Commands, no_commands, command};
ghost use Rattle.tclparse.specs.Grammar.{Outcome, IsParts, IsWords, IsCommands, IsScript, IsArgument};
ghost use Rattle.tclparse.specs.Gap.{Gap, skip_white, skip_gap, between};
ghost use Rattle.tclparse.specs.Piece.{Place, next};
ghost use Rattle.tclparse.specs.Spelled.{Joins, Behind, Leaves};
ghost use Rattle.tclparse.specs.Spelling.{IsWhiteText, IsGapText, IsLastComment, Begins, BeginsWhole, SpellsParts, SpellsWords, SpellsCommands};

/// Each text has a tree, as a script and as a braced argument.
#[tactic(auto, using(crate::proofs::Exists::each_script, crate::proofs::Exists::each_argument))]
pub fn each_text_has_a_tree()
    ensures scripts { (text : List ℕ) → (commands : Commands) × (fault : Option Fault)
        × IsScript commands fault text }
    ensures arguments { (text : List ℕ) → (words : Words) × (fault : Option Fault)
        × IsArgument words fault text }
{}

/// No text has two trees, as a script or as a braced argument.
#[tactic(auto, using(crate::proofs::Unique::one_script, crate::proofs::Unique::one_argument))]
pub fn no_text_has_two_trees()
    ensures scripts { (text : List ℕ) (a b : Commands) (f g : Option Fault)
        → IsScript a f text → IsScript b g text → (a ≡ b) × (f ≡ g) }
    ensures arguments { (text : List ℕ) (a b : Words) (f g : Option Fault)
        → IsArgument a f text → IsArgument b g text → (a ≡ b) × (f ≡ g) }
{}

/// The text that is still unread after a piece of a word, after what stands between words and
/// between commands, and so after parts, words and commands, is an end of the text that was read.
/// What the bytes before that end are, `texts_are_spellings` says.
#[tactic(auto, using(crate::proofs::Joined::ends_of_texts))]
pub fn spellings_join()
    ensures pieces { (place : Place) (depth : ℕ) (text : List ℕ)
        → Behind (next place depth text) text }
    ensures white { (context : Context) (hidden : Bool) (text : List ℕ)
        → Joins text (skip_white context hidden text) }
    ensures gaps { (context : Context) (gap : Gap) (text : List ℕ)
        → Joins text (skip_gap context gap text) }
    ensures parts { (place : Place) (depth : ℕ) (parts : Parts) (text : List ℕ) (o : Outcome)
        → IsParts place depth parts text o → Leaves text o }
    ensures words { (context : Context) (depth : ℕ) (words : Words) (text : List ℕ) (o : Outcome)
        → IsWords context depth words text o → Leaves text o }
    ensures commands { (context : Context) (depth : ℕ) (commands : Commands)
        (text : List ℕ) (o : Outcome) → IsCommands context depth commands text o → Leaves text o }
{}

/// A text that is read as a tree is a spelling of that tree, followed by the unread text. A
/// spelling has bytes as themselves or as escapes, variables, elements and scripts in brackets;
/// words in braces, in quotes or bare, with `{*}` before those that are expanded and white space
/// between them; commands, with what ends a command between them. So a whole script is its
/// commands, followed by nothing or by a comment up to the text's end; a script with a fault is its
/// commands, followed by a text that begins with the command that has the fault; and a braced
/// argument is white space and its words. Not every spelling is read as its tree: an escape and a
/// name take all the bytes that they can.
#[tactic(auto, using(crate::proofs::SpelledScripts::spelled))]
pub fn texts_are_spellings()
    ensures white { (context : Context) (text : List ℕ)
        → Begins (λ s. IsWhiteText context s) text (skip_white context false text) }
    ensures gaps { (context : Context) (text : List ℕ)
        → BeginsWhole (λ s. IsGapText context s) text (skip_gap context between text) }
    ensures parts { (place : Place) (depth : ℕ) (parts : Parts) (text rest : List ℕ)
        → IsParts place depth parts text (Ok rest)
        → Begins (λ s. SpellsParts place parts s) text rest }
    ensures words { (context : Context) (depth : ℕ) (words : Words) (text rest : List ℕ)
        → IsWords context depth words text (Ok rest)
        → Begins (λ s. SpellsWords context words s) text rest }
    ensures commands { (context : Context) (depth : ℕ) (commands : Commands) (text rest : List ℕ)
        → IsCommands context depth commands text (Ok rest)
        → BeginsWhole (λ s. SpellsCommands context commands s) text rest }
    ensures scripts { (commands : Commands) (text : List ℕ) → IsScript commands None text
        → (spelling tail : List ℕ) × (text ≡ spelling ++ tail)
        × SpellsCommands whole_script commands spelling × ((tail ≡ []) ⊎ IsLastComment tail) }
    ensures faulty_scripts { (commands : Commands) (fault : Fault) (text : List ℕ)
        → IsScript commands (Some fault) text
        → (spelling rest : List ℕ) × (text ≡ spelling ++ rest)
        × SpellsCommands whole_script commands spelling
        × (last : Words) × IsCommands whole_script 100 (command last no_commands) rest (Err fault) }
    ensures arguments { (words : Words) (text : List ℕ) → IsArgument words None text
        → (white spelling : List ℕ) × (text ≡ white ++ spelling) × IsWhiteText argument white
        × SpellsWords argument words spelling }
{}

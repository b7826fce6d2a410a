//! Laws of the definitions: after a trigger there is exactly one choice among pairs, and open ids
//! stand in rising order.
ghost use Rattle.std.specs.Prelude.{◌≡◌, List, Option};
ghost use Rattle.choices.specs.Branches.{Pair};
ghost use Rattle.choices.specs.Choice.{Chosen, Chooses};
ghost use Rattle.choices.specs.Lines.{Line, Rise};
ghost use Rattle.choices.specs.Peers.{Peer, FitsPeers, numbers_of, opened};
ghost use Rattle.choices.specs.declared.choice.Trigger.{Trigger};

use crate::table::Table;
use std::alloc::Allocator;

/// After a trigger there is exactly one choice among pairs, which may be to choose none.
pub fn one_choice()
    ensures some { (lines : List Line) (t : Trigger) (pairs : List Pair) →
        (o : Option Chosen) × Chooses lines t pairs o }
    ensures alone { (lines : List Line) (t : Trigger) (pairs : List Pair) (a b : Option Chosen) →
        Chooses lines t pairs a → Chooses lines t pairs b → a ≡ b }
{}

/// In each list of ids of the definition that fits a table, the numbers of the open ones rise.
pub fn open_ids_rise<A: Allocator>(table: &Table<A>)
    ensures { (ps : List Peer) → FitsPeers table.now.lines ps → Rise (numbers_of (opened ps)) }
{
    // What holds of every table is known once one of its fields is borrowed.
    let _entries = &table.entries;
}

//! Which links are silent.

ghost use Rattle.std.specs.Prelude.{◌≡◌, ◌<◌, ◌⊎◌, ◌↔◌, true, IsTrue};
ghost use Rattle.acts.specs.declared.id.Id as ids;
ghost use Rattle.live.specs.Silent.{IsSilent, place};

use acts::Id;

/// How many links are known to be silent at most.
const MOST: usize = 64;

/// The ids of links from which a read found nothing, and of which nothing new was told since: each
/// at the place of its number, counted round, so that one may take the place of another.
#[derive(Drop)]
pub struct Silent {
    ids: [Option<Id>; MOST],
}

impl Silent {
    /// No link is known to be silent.
    pub fn none() -> Silent
        ensures { (id : ids.Id) → ¬ IsSilent result.ids id }
    {
        Silent { ids: [None; MOST] }
    }

    /// Whether the link of an id is known to be silent.
    pub fn has(&self, id: Id) -> bool
        ensures { IsTrue result ↔ IsSilent self.now.ids id }
    {
        self.ids[place_of(id)] == Some(id)
    }

    /// Notes that a read from the link of an id found nothing.
    pub fn note(&mut self, id: Id)
        ensures { (other : ids.Id) → IsSilent self.new.ids other ↔
            ((other ≡ id) ⊎ ((¬ (place other ≡ place id)) × IsSilent self.old.ids other)) }
    {
        self.ids[place_of(id)] = Some(id);
    }

    /// Notes that something new was told of the link of an id, or was read from it.
    pub fn wake(&mut self, id: Id)
        ensures { (other : ids.Id) → IsSilent self.new.ids other ↔
            ((¬ (other ≡ id)) × IsSilent self.old.ids other) }
    {
        let place = place_of(id);
        if self.ids[place] == Some(id) {
            self.ids[place] = None;
        }
    }
}

/// The place of an id.
fn place_of(id: Id) -> usize
    ensures place { result ≡ place id }
    ensures below { result < 64 }
{
    (id.0 % MOST as u64) as usize
}

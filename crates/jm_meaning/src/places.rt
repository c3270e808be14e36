// The places of a plan's Interleave Controllers in one thread.

ghost use Rattle.std.specs.Prelude.{◌≡◌, IfOk};
ghost use Rattle.jm_meaning.specs.State.{place_of, with_place};
ghost use Rattle.jm_meaning.specs.Beginning.{first_places};

use element_tree::Plan;
use jm_base::M;
use std::alloc::Global;
use std::marker::Model;

/// The child that each Interleave Controller of a plan runs next in one thread, by its place: a place for each element of
/// the plan, at its number.
#[derive(Drop)]
pub struct Places {
    places: Vec<u16>,
}

impl Model for Places {
    ghost use Rattle.std.specs.Prelude.{List, ℕ};

    ghost Value = { List ℕ };

    ghost view = { λ p. p.places.items };
}

impl Places {
    /// Before the first pass: each Interleave Controller begins at its first child.
    pub fn first(alloc: Global, plan: &Plan) -> M<Places>
        ensures { IfOk result (λ p. p ≡ first_places plan.now.elements) }
    {
        let places = vec![in alloc; 0u16; plan.elements().len()]?;
        Ok(Places { places })
    }

    /// The place of the element of this number.
    pub fn of(&self, number: u16) -> u16
        ensures { result ≡ place_of self.now number }
    {
        self.places.get(usize::from(number)).copied().unwrap_or(0)
    }

    /// Puts the element of this number at this place.
    pub fn set(&mut self, number: u16, place: u16)
        ensures { self.new ≡ with_place self.old number place }
    {
        if let Some(kept) = self.places.get_mut(usize::from(number)) {
            *kept = place;
        }
    }
}

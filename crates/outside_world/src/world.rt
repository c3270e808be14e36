// Where the threads of a run get their outsides.

ghost use Rattle.std.specs.Prelude.{◌≡◌, ◌<◌, ◌++◌, ℕ, Bool, List, [], ◌∷◌, Option, Some, Contains, IfOk, OnOk, OnErr};
ghost use Rattle.jm_base.specs.declared.types.Heard.{Heard};
ghost use Rattle.jm_base.specs.Outside.{Account};
ghost use Rattle.outside_world.specs.Scripted.{told_when};

use element_tree::Plan;
use jm_base::{M, Outside};

/// Opens an outside for each thread of a run, and takes it back when the thread has ended.
pub trait World {
    /// What a thread asks. It is made on one thread and used on another.
    type Out: Outside + Send + Drop;

    // Which world it is. No call changes it.
    ghost identity: { Self → ℕ };

    // Whether its outsides tell. No call changes it.
    ghost tells: { Self → Bool };

    // The numbers opened so far, in order, whether it tells or not.
    ghost opened: { Self → List ℕ };

    // The numbers closed so far, in order, whether it tells or not.
    ghost closed: { Self → List ℕ };

    // What the outside was told that was closed under a number, where it told.
    ghost told: { Self → ℕ → Option (List Heard) };

    /// An outside for the thread `number` of the plan, below 64, for which none was opened before. Its origin is this world
    /// with that number. It was told nothing so far, where it tells.
    fn open(&mut self, number: u16, plan: &Plan) -> M<Self::Out>
        requires few { number < 64 }
        requires new { ¬ Contains (opened self.old) number }
        ensures opened { OnOk result (opened self.new ≡ opened self.old ++ number ∷ []) }
        ensures origin { IfOk result (λ o. (Self.Out.account o).origin ≡ Some (identity self.old, number)) }
        ensures told_nothing { IfOk result (λ o. (Self.Out.account o).told ≡ told_when (tells self.old) []) }

        // Out of memory opens nothing.
        ensures refused { OnErr result (opened self.new ≡ opened self.old) }

        // In both cases.
        ensures same { (identity self.new ≡ identity self.old) × (tells self.new ≡ tells self.old) }
        ensures others { (closed self.new ≡ closed self.old) × ((n : ℕ) → told self.new n ≡ told self.old n) };

    /// Takes back the outside of the thread `number`, which this world opened for it. It takes no memory.
    fn close(&mut self, number: u16, out: Self::Out)
        requires origin { (Self.Out.account out).origin ≡ Some (identity self.old, number) }
        ensures closed { closed self.new ≡ closed self.old ++ number ∷ [] }
        ensures told { told self.new number ≡ (Self.Out.account out).told }
        ensures others { (n : ℕ) → ¬ (n ≡ number) → told self.new n ≡ told self.old n }
        ensures same { (identity self.new ≡ identity self.old) × (tells self.new ≡ tells self.old) × (opened self.new ≡ opened self.old) };
}

// Where conditions over assignments live.
ghost use Rattle.std.specs.Prelude.{◌≡◌, ℕ, Bool, ◌&&◌, ◌||◌, not, IfOk};
ghost use Rattle.smv_conditions.specs.Keep.{KeepsConditions};

use std::alloc::{AllocError, Global};

/// Conditions over assignments, with their connectives and the number of variables that they are over. What was made stays and keeps its meaning.
pub trait Conditions {
    type Condition: Copy;

    ghost IsMade: { Self → Self.Condition → Type 0 };

    ghost holds: { Self → Self.Condition → (ℕ → Bool) → Bool };

    ghost room: { Self → ℕ };

    /// The condition that always or never holds.
    fn constant(&self, value: bool) -> Self::Condition
        ensures made { IsMade self.now result }
        ensures holds { (a : ℕ → Bool) → holds self.now result a ≡ value };

    /// Both hold.
    fn both(
        &mut self,
        alloc: Global,
        c: Self::Condition,
        d: Self::Condition,
    ) -> Result<Self::Condition, AllocError>
        requires c_made { IsMade self.old c }
        requires d_made { IsMade self.old d }
        ensures keeps { KeepsConditions IsMade holds room self.old self.new }
        ensures made { IfOk result (λ r. IsMade self.new r) }
        ensures holds { IfOk result (λ r. (a : ℕ → Bool) → holds self.new r a ≡ (holds self.old c a && holds self.old d a)) };

    /// One of them holds.
    fn either(
        &mut self,
        alloc: Global,
        c: Self::Condition,
        d: Self::Condition,
    ) -> Result<Self::Condition, AllocError>
        requires c_made { IsMade self.old c }
        requires d_made { IsMade self.old d }
        ensures keeps { KeepsConditions IsMade holds room self.old self.new }
        ensures made { IfOk result (λ r. IsMade self.new r) }
        ensures holds { IfOk result (λ r. (a : ℕ → Bool) → holds self.new r a ≡ (holds self.old c a || holds self.old d a)) };

    /// It doesn't hold.
    fn opposite(&mut self, alloc: Global, c: Self::Condition) -> Result<Self::Condition, AllocError>
        requires c_made { IsMade self.old c }
        ensures keeps { KeepsConditions IsMade holds room self.old self.new }
        ensures made { IfOk result (λ r. IsMade self.new r) }
        ensures holds { IfOk result (λ r. (a : ℕ → Bool) → holds self.new r a ≡ not (holds self.old c a)) };
}

//! Laws of contexts, each stated by the contract of a function that does nothing.
ghost use Rattle.std.specs.Prelude.{◌≡◌, ◌<◌, ℕ};
ghost use Rattle.ulfm_base.specs.Context.{child_of, dup_of, nth_dup, nth_shrink, shrink_of};

/// Two children have one context only where they are one child of one communicator.
pub fn children_are_apart()
    ensures { (p q n m : ℕ) → child_of p n ≡ child_of q m → (p ≡ q) × (n ≡ m) }
{}

/// A child's context is greater than its communicator's, so none is the world's.
pub fn children_are_greater()
    ensures { (p n : ℕ) → p < child_of p n }
{}

/// The first duplicate and the first shrink of a communicator 0 to 30 have the numbers that jobs name.
pub fn first_children_have_numbers()
    ensures { (c : ℕ) → c < 31 → (nth_dup 0 c ≡ dup_of c) × (nth_shrink 0 c ≡ shrink_of c) }
{}

// Clones that are the same.
ghost use Rattle.std.specs.Prelude.{◌≡◌};

/// A value whose clone is equal to it.
pub trait Twin: Clone {
    ghost same: { (x y : Self) → Self.is_clone x y → y ≡ x };
}

//! What a sorted list needs of its elements.

ghost use Rattle.std.specs.Prelude.{◌≡◌, ℕ};

/// An element that has a key, by which it is ordered.
pub trait Keyed: Copy {
    ghost rank: { Self → ℕ };

    /// The key.
    fn key(&self) -> u128
        ensures { result ≡ rank self.now };
}

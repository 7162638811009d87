//! What proofs remember of a value, and the program doesn't: a history takes no memory, and its calls do nothing when they run.

ghost use Rattle.std.specs.Prelude.{◌≡◌, List, [], ◌∷◌, ◌++◌, replicate};
ghost use Rattle.std.specs.Borrow.{ftrue};

use std::marker::{Model, PhantomData};

/// Values as they once were, in order. Contracts and proofs alone see them, as `items`, so what is remembered may be gone.
#[derive(Drop)]
pub struct History<T> {
    of: PhantomData<T>,
    pub ghost items: { List T },
}

impl<T> Model for History<T> {
    ghost also_owns = { λ _. ftrue };
}

impl<T> History<T> {
    /// Of nothing.
    pub fn new() -> History<T>
        ensures { result.items ≡ [] }
    {
        History { of: PhantomData }
    }

    /// And of this value, as it is now.
    pub fn and(&self, value: &T) -> History<T>
        ensures { result.items ≡ self.now.items ++ value.now ∷ [] }
    {
        History { of: PhantomData }
    }

    /// This value, as it is now, `count` times.
    pub fn repeated(value: &T, count: usize) -> History<T>
        ensures { result.items ≡ replicate count value.now }
    {
        History { of: PhantomData }
    }

    /// The same once more.
    pub fn again(&self) -> History<T>
        ensures { result.items ≡ self.now.items }
    {
        History { of: PhantomData }
    }
}

ghost use Rattle.std.specs.Prelude.{◌≡◌, List, [], ◌∷◌, ◌++◌};
ghost use Rattle.std.specs.Borrow.{ftrue};

use std::marker::{Model, PhantomData};

/// What was taken so far, in order. It has no bytes, takes no memory, and its methods do nothing at run time.
/// A clause reads the list as `items`.
#[derive(Drop)]
pub struct Past<E> {
    of: PhantomData<E>,
    pub ghost items: { List E },
}

impl<E> Model for Past<E> {
    ghost also_owns = { λ _. ftrue };
}

// It owns nothing.
unsafe impl<E: Send> Send for Past<E> {}

impl<E> Past<E> {
    pub fn new() -> Past<E>
        ensures { result.items ≡ [] }
    {
        Past { of: PhantomData }
    }

    /// The same list with one more at its end.
    pub fn and(&self, item: &E) -> Past<E>
        ensures { result.items ≡ self.now.items ++ item.now ∷ [] }
    {
        Past { of: PhantomData }
    }
}

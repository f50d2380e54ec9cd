//! What every order keeps to. The function does nothing: it is called where its fact is needed.
ghost use Rattle.std.specs.Prelude.{◌≡◌, ℕ, List, Some};
ghost use Rattle.group_words.specs.declared.order.Order.{Order};
ghost use Rattle.group_words.specs.Orders as spec;

/// A group that plays a script, or does measured work, has sizes in the ranges of their options.
pub fn size_laws()
    ensures { (words : List (List ℕ)) (o : Order) → spec.order_of words ≡ Some o → spec.HasSizes o }
{}

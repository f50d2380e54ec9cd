//! What every picture keeps to. The function does nothing: it is called where its fact is needed.
ghost use Rattle.std.specs.Prelude.{ℕ, ◌≤◌};
ghost use Rattle.run_picture.specs.declared.scale.Scale.{Scale as AnyScale};
ghost use Rattle.run_picture.specs.Places.{across_of};

/// No event stands left of one that came before it.
#[tactic(auto, using(crate::proofs::Order::in_order))]
pub fn order_law()
    ensures { (s : AnyScale) (p q : ℕ) → p ≤ q → across_of s p ≤ across_of s q }
{}

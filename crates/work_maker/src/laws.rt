ghost use Rattle.std.specs.Prelude.{ℕ};
ghost use Rattle.ds_model.specs.Scripts.{IsScript};
ghost use Rattle.work_maker.specs.Made.{made};

/// What is made is a script for a group of four members. The function does nothing: it is called where this is needed.
pub fn making_laws()
    ensures { (n : ℕ) → IsScript 4 (made n) }
{}

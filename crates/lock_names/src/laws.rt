//! What the tables keep to. The functions do nothing: each is called where its facts are needed.

ghost use Rattle.std.specs.Prelude.{◌≡◌, ◌↔◌, ◌&&◌, IsTrue, ℕ, true};
ghost use Rattle.ds_model.specs.declared.lock.Name.{Name};
ghost use Rattle.lock_names.specs.Modes.{are_compatible, class_of, is_covering, is_recorded, join_of};
ghost use Rattle.lock_names.specs.Entries.{entry_number};
ghost use Rattle.lock_names.specs.Names.{same_name};
ghost use Rattle.lock_names.specs.declared.mode.Mode.{Mode};
ghost use Rattle.lock_names.specs.declared.mode.Class.TheVariants.{Share, Exclusive};

/// Which of two owners came first makes no difference, and owners that share are never in each other's way.
#[tactic(auto, unfolding(crate::specs::Modes::are_compatible, crate::specs::Modes::class_of))]
pub fn compatibility_laws()
    ensures symmetric { (a b : Mode) → are_compatible a b ≡ are_compatible b a }
    ensures shares { (a b : Mode) → class_of a ≡ Share → class_of b ≡ Share → IsTrue (are_compatible a b) }
{}

/// Modes are joined in any order and any number of times.
#[tactic(auto, unfolding(crate::specs::Modes::join_of))]
pub fn join_laws()
    ensures symmetric { (a b : Mode) → join_of a b ≡ join_of b a }
    ensures associative { (a b c : Mode) → join_of (join_of a b) c ≡ join_of a (join_of b c) }
    ensures idempotent { (a : Mode) → join_of a a ≡ a }
{}

/// Covering is an order of the modes.
#[tactic(auto, unfolding(crate::specs::Modes::join_of, crate::specs::Modes::is_same))]
pub fn covering_laws()
    ensures by_join { (a b : Mode) → IsTrue (is_covering a b) ↔ (join_of a b ≡ a) }
    ensures reflexive { (a : Mode) → IsTrue (is_covering a a) }
    ensures transitive { (a b c : Mode) → IsTrue (is_covering a b) → IsTrue (is_covering b c) → IsTrue (is_covering a c) }
    ensures antisymmetric { (a b : Mode) → IsTrue (is_covering a b) → IsTrue (is_covering b a) → a ≡ b }
{}

/// The join of two modes is the least that covers both.
#[tactic(auto, unfolding(crate::specs::Modes::join_of, crate::specs::Modes::is_same))]
pub fn bound_laws()
    ensures first { (a b : Mode) → IsTrue (is_covering (join_of a b) a) }
    ensures second { (a b : Mode) → IsTrue (is_covering (join_of a b) b) }
    ensures keeps { (a b c : Mode) → IsTrue (is_covering a c) → IsTrue (is_covering (join_of a b) c) }
    ensures least { (a b c : Mode) → IsTrue (is_covering c a) → IsTrue (is_covering c b) → IsTrue (is_covering c (join_of a b)) }
{}

/// A join conflicts with what one of its modes conflicts with, and, where these are compatible, with nothing else.
#[tactic(auto, unfolding(crate::specs::Modes::are_compatible, crate::specs::Modes::join_of))]
pub fn conflict_laws()
    ensures both { (a b c : Mode) → IsTrue (are_compatible (join_of a b) c) → IsTrue (are_compatible a c && are_compatible b c) }
    ensures exactly { (a b c : Mode) → IsTrue (are_compatible a b) → are_compatible (join_of a b) c ≡ (are_compatible a c && are_compatible b c) }
{}

/// A mode conflicts with all that a mode it covers does, needs exclusive interest where that one does, and is recorded
/// where that one is.
#[tactic(auto, unfolding(crate::specs::Modes::are_compatible, crate::specs::Modes::join_of, crate::specs::Modes::is_same, crate::specs::Modes::class_of, crate::specs::Modes::is_recorded))]
pub fn stronger_laws()
    ensures conflicts { (a b c : Mode) → IsTrue (is_covering a b) → IsTrue (are_compatible a c) → IsTrue (are_compatible b c) }
    ensures interest { (a b : Mode) → IsTrue (is_covering a b) → class_of b ≡ Exclusive → class_of a ≡ Exclusive }
    ensures records { (a b : Mode) → IsTrue (is_covering a b) → IsTrue (is_recorded b) → IsTrue (is_recorded a) }
{}

/// Names that are the same are one name, which falls on one entry of the lock table.
#[tactic(auto, using(crate::proofs::Names::same_itself, crate::proofs::Names::same_equal, crate::proofs::Names::same_turn, crate::proofs::Names::same_entry))]
pub fn name_laws()
    ensures reflexive { (a : Name) → same_name a a ≡ true }
    ensures equal { (a b : Name) → same_name a b ≡ true → a ≡ b }
    ensures symmetric { (a b : Name) → same_name a b ≡ same_name b a }
    ensures entry { (a b : Name) (entries : ℕ) → same_name a b ≡ true → entry_number a entries ≡ entry_number b entries }
{}

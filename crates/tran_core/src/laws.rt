//! What holds of a transaction at each of its steps. The functions do nothing: each is called where its facts are needed.
ghost use Rattle.std.specs.Prelude.{◌≡◌, ℕ, List, [], drop};
ghost use Rattle.ds_model.specs.declared.script.Op.{Op};
ghost use Rattle.tran_core.specs.declared.want.Met.{Met};
ghost use Rattle.tran_core.specs.declared.stage.Stage.TheVariants as stage;
ghost use Rattle.tran_core.specs.Wants.{want_undo};
ghost use Rattle.tran_core.specs.States.{State, opened, want_of, newest, after_done};
ghost use Rattle.tran_core.specs.Pages.{after_met, after_page};
ghost use Rattle.tran_core.specs.Runs.{Locks, locks_after, IsLocked, after_dones, all_asked, course_of_reads, IsFitting};

/// No page is read or changed, and no row is locked, before the locks that its operation needs are there.
pub fn lock_laws()
    ensures begins { (ops : List Op) → IsLocked [] (opened ops) }
    ensures keeps { (locks : Locks) (s : State) (answer : Met) → IsLocked locks s → IsLocked (locks_after locks s answer) (after_met s answer) }
{}

/// The changes are undone one by one, the last first, and then the transaction has ended.
pub fn undo_laws()
    ensures { (n : ℕ) (s : State) → s.stage ≡ stage.Undo → want_of (after_dones n s) ≡ want_undo (newest (drop n s.undo)) }
{}

/// What was read stands in the order of the operations: to what was read, what the operation in hand and those behind
/// it will read is the same at each step, but for a refusal.
pub fn read_laws()
    ensures begins { (ops : List Op) → IsFitting (opened ops) × (course_of_reads (opened ops) ≡ all_asked ops) }
    ensures fits { (s : State) (answer : Met) → IsFitting s → IsFitting (after_met s answer) }
    ensures done { (s : State) → IsFitting s → course_of_reads (after_done s) ≡ course_of_reads s }
    ensures page { (s : State) (bytes : List ℕ) → course_of_reads (after_page s bytes) ≡ course_of_reads s }
{}

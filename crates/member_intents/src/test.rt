ghost use Rattle.std.specs.Prelude.{◌≡◌};
ghost use Rattle.member_intents.specs.declared.test.StepFault.TheVariants as faults;

use ds_base::NoMemory;

/// The test that an intent has failed.
#[derive(Clone, Copy, Debug, PartialEq, Eq)]
pub enum Test {
    /// The slot has no transaction.
    NoTransaction,
    /// The slot's transaction doesn't go forward.
    NotForward,
    /// It isn't being taken back.
    NotUndoing,
    /// None of its changes stands.
    NoneStands,
    /// It isn't over.
    NotOver,
    // ---- locks
    /// The transaction of a slot claims table spaces and rows, and nobody else does.
    NotOfSlot,
    /// The member claims pages, in X.
    NotOfMember,
    /// The mode isn't joined with the own claim.
    NotJoined,
    /// No more pages may be claimed.
    PagesFull,
    /// The name is claimed.
    StillClaimed,
    /// The page isn't claimed.
    NotClaimed,
    /// The row isn't claimed in X by the owner.
    NoRow,
    /// The row's table space isn't claimed by the owner for changes.
    NoSpace,
    /// The name's record isn't known as retained.
    NotRetained,
    /// No claim is left that needs a release.
    NoneLeft,
    /// A claim is left that needs a release.
    SomeLeft,
    // ---- frames
    NotPlaced,
    NotRegistered,
    NotFilled,
    StillFilled,
    NotChanged,
    /// A frame is still changed.
    StillChanged,
    StillPinned,
    /// Another changed page of the table is written before it.
    NotFirst,
    /// The number of its last change isn't stable.
    NotStable,
    /// A frame has another page.
    OtherPage,
    // ---- log records
    /// The change isn't needed any more.
    Moot,
    /// The log buffer has no room for the records.
    NoRoom,
    /// A number above the limit isn't stable yet.
    AboveLimit,
    /// Nothing waits in the log buffer.
    NonePending,
    // ---- castout
    /// No page was read to be cast out.
    NotTaken,
    /// The page that was read to be cast out isn't written.
    NotWritten,
}

/// Why an event wasn't done: the intent was against a test, the facility's condition didn't hold, or memory was wanting.
#[derive(Clone, Copy, Debug, PartialEq, Eq)]
pub enum StepFault {
    Unlawful(Test),
    NotExecutable,
    NoMemory,
}

impl From<Test> for StepFault {
    ghost from_gives = { λ test e. e ≡ faults.Unlawful test };

    fn from(test: Test) -> Self {
        StepFault::Unlawful(test)
    }
}

impl From<NoMemory> for StepFault {
    ghost from_gives = { λ _ e. e ≡ faults.NoMemory };

    fn from(_: NoMemory) -> Self {
        StepFault::NoMemory
    }
}

ghost use Rattle.std.specs.Prelude.{◌≡◌};
ghost use Rattle.stood_rows.specs.Found.{is_before, sooner};
ghost use Rattle.stood_rows.specs.Laws.{NoneAreFound, BothAreFound, SameAreFound, FoundAreTold};

use ds_base::PageId;

/// A change that didn't meet its row, or took a slot from its key.
#[derive(Clone, Copy, Debug, PartialEq, Eq)]
pub struct Unstood {
    /// The place of its record among all that were taken, from 0 on.
    pub index: u64,
    /// Its place among the patches of the record; 0 for the change of a row.
    pub patch: u64,
    pub page: PageId,
}

fn is_before(a: Unstood, b: Unstood) -> bool
    ensures { result ≡ is_before a.index a.patch b }
{
    a.index < b.index || (a.index == b.index && a.patch < b.patch)
}

/// The one of both that stands before the other.
pub fn sooner(a: Option<Unstood>, b: Option<Unstood>) -> Option<Unstood>
    ensures { result ≡ sooner a b }
{
    match (a, b) {
        (None, _) => b,
        (Some(_), None) => a,
        (Some(one), Some(other)) => {
            if is_before(other, one) {
                Some(other)
            } else {
                Some(one)
            }
        }
    }
}

/// What was found of some pages, and of others, is what is to be found of both, and of all pages it is the first change that
/// didn't stand. The function does nothing: it is called where these facts are needed.
pub fn unstood_laws()
    ensures none { NoneAreFound }
    ensures both { BothAreFound }
    ensures same { SameAreFound }
    ensures whole { FoundAreTold }
{}

ghost use Rattle.std.specs.Prelude.{◌≡◌};
ghost use Rattle.ds_model.specs.declared.log.Body.TheVariants.{Compensation};
ghost use Rattle.log_record.specs.Changes.{is_drawn, inverse};

use ds_base::Lrsn;
use ds_model::{Body, RowChange};

/// Whether the number (LRSN) of a record with this body was drawn for it alone: the record changes pages or commits.
///
/// The other kinds repeat a number that stands before them.
pub fn is_drawn(body: &Body) -> bool
    ensures { result ≡ is_drawn body.now }
{
    match body {
        Body::RowChange { .. } | Body::Compensation { .. } | Body::System { .. } | Body::Commit => {
            true
        }
        Body::Ended | Body::Checkpoint { .. } | Body::RestartEnd => false,
    }
}

/// The compensation of a row change whose record has this number.
pub fn compensation_of(change: &RowChange, undone: Lrsn) -> Body
    ensures { result ≡ Compensation (inverse change.now) undone }
{
    Body::Compensation {
        change: inverse(change),
        undone,
    }
}

/// The change that takes a row change back: the rows before and after are exchanged.
pub fn inverse(change: &RowChange) -> RowChange
    ensures { result ≡ inverse change.now }
{
    RowChange {
        before: change.after,
        after: change.before,
        ..*change
    }
}

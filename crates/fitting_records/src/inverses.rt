ghost use Rattle.std.specs.Prelude.{◌≡◌};
ghost use Rattle.fitting_records.specs.Standings.{same_row, inverts, inverts_body};

use ds_base::Value;
use log_record::{Body, RowChange};

fn same_row(a: &Option<Value>, b: &Option<Value>) -> bool
    ensures { result ≡ same_row a.now b.now }
{
    match (a, b) {
        (None, None) => true,
        (Some(a), Some(b)) => a.bytes() == b.bytes(),
        _ => false,
    }
}

fn inverts(a: &RowChange, b: &RowChange) -> bool
    ensures { result ≡ inverts a.now b.now }
{
    a.table.number() == b.table.number()
        && a.key == b.key
        && a.place.page == b.place.page
        && a.place.slot == b.place.slot
        && same_row(&a.before, &b.after)
        && same_row(&a.after, &b.before)
}

/// Whether the change takes back that of the record with this body.
pub fn inverts_body(change: &RowChange, body: &Body) -> bool
    ensures { result ≡ inverts_body change.now body.now }
{
    match body {
        Body::RowChange { change: made } => inverts(change, made),
        Body::Compensation { .. }
        | Body::System { .. }
        | Body::Commit
        | Body::Ended
        | Body::Checkpoint { .. }
        | Body::RestartEnd => false,
    }
}

//! The input cut in two: a script, if one stands in front, and a report.

ghost use Rattle.std.specs.Prelude.{◌≡◌, ◌<◌, ◌≤◌, true, [], length, drop, IfSome, IfNone};
ghost use Rattle.picture_call.specs.Inputs as spec;

/// The bytes of the first line of a report.
const FIRST_LINE: usize = 10;

// Whether the first line of a report stands here, where a line begins here or not.
fn begins_report(is_begin: bool, bytes: &[u8]) -> bool
    ensures { result ≡ spec.begins_report is_begin bytes.now }
{
    let front = &bytes[..bytes.len().min(FIRST_LINE)];
    is_begin && front == b"dsgroup 1\n".as_slice()
}

// Where the report begins, if a line is the first one of a report.
fn report_place(bytes: &[u8]) -> Option<usize>
    ensures some { IfSome result (λ at. (at < length bytes.now) × (drop at bytes.now ≡ spec.report_in true bytes.now)) }
    ensures none { IfNone result (spec.report_in true bytes.now ≡ []) }
{
    let mut is_begin = true;
    for at in 0..bytes.len() {
        if begins_report(is_begin, &bytes[at..]) {
            return Some(at);
        }
        is_begin = bytes[at] == b'\n';
    }
    None
}

/// Where the report begins; at the start, where no line is the first one of a report.
#[tactic(auto, using(crate::proofs::Parting::or_all_drop))]
pub fn report_begin(bytes: &[u8]) -> usize
    ensures within { result ≤ length bytes.now }
    ensures there { drop result bytes.now ≡ spec.or_all (spec.report_in true bytes.now) bytes.now }
{
    match report_place(bytes) {
        Some(at) => at,
        None => 0,
    }
}

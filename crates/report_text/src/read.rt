//! The lines of a text, one after the other.

ghost use Rattle.std.specs.Prelude.{◌≡◌, ◌<◌, [], ◌∷◌, length, true, IfOk, MatchOption};
ghost use Rattle.ds_model.specs.declared.report.Report.{Report};
ghost use Rattle.ds_model.specs.ReportText.{report_text};
ghost use Rattle.report_text.specs.Grammar.{is_report};
ghost use Rattle.report_text.specs.Steps.{Gives, finished, lines_in, report_of};

use crate::draft::Draft;
use crate::error::ReportError;
use ds_model::Report;
use report_line::{cut, line_laws};
use std::alloc::Global;

// The first line, without its line feed, and what stands behind that.
fn next_line(rest: &[u8]) -> Option<(&[u8], &[u8])>
    ensures { MatchOption result (lines_in rest.now ≡ rest.now ∷ []) (λ found. (lines_in rest.now ≡ found.0.now ∷ lines_in found.1.now) × (length found.1.now < length rest.now)) }
{
    match cut(rest, b'\n') {
        (text, Some(after)) => Some((text, after)),
        (_, None) => None,
    }
}

// The end of the text, with what stands behind its last line feed.
fn finished(number: u32, draft: Draft, last: &[u8]) -> Result<Report, ReportError>
    ensures { Gives result (finished number draft last.now) }
{
    if last.is_empty() && draft.stage.is_done() {
        Ok(draft.report)
    } else {
        Err(ReportError::Bad { line: number })
    }
}

fn reading(alloc: Global, bytes: &[u8]) -> Result<Report, ReportError>
    ensures { Gives result (report_of bytes.now) }
{
    let mut draft = Draft::new(alloc);
    let mut number: u32 = 1;
    let mut rest = bytes;
    while let Some((text, after)) = next_line(rest) {
        match draft.step_text(alloc, text)? {
            Some(next) => draft = next,
            None => return Err(ReportError::Bad { line: number }),
        }
        rest = after;
        number = number.saturating_add(1);
    }
    finished(number, draft, rest)
}

/// The report that a text spells.
///
/// Refused is the first line that may not stand where it does. Where a count is too great, that is the first line which
/// isn't one of those counted.
pub fn read_report(alloc: Global, bytes: &[u8]) -> Result<Report, ReportError>
    ensures exact { Gives result (report_of bytes.now) }
    ensures found { IfOk result (λ report. (bytes.now ≡ report_text report) × (is_report report ≡ true)) }
    ensures only { (report : Report) → is_report report ≡ true → bytes.now ≡ report_text report → Gives result (Ok report) }
{
    line_laws();
    reading(alloc, bytes)
}

//! What the spelling and the reading of lines keep to. The function does nothing: it is called where its facts are needed.

ghost use Rattle.std.specs.Prelude.{◌≡◌, true, ◌++◌, ◌∷◌, []};
ghost use Rattle.std.specs.List.{list_all};
ghost use Rattle.report_line.specs.declared.line.ReportLine.{ReportLine};
ghost use Rattle.report_line.specs.Lines.{is_line, line_text};
ghost use Rattle.report_line.specs.Bodies.{is_inner_byte, line_body};
ghost use Rattle.report_line.specs.Reading.{line_in};

/// A line that may stand in a report is its words and a line feed, no byte of its words is a line feed, and it is read
/// from its words again.
pub fn line_laws()
    ensures whole { (l : ReportLine) → line_text l ≡ line_body l ++ 10 ∷ [] }
    ensures inner { (l : ReportLine) → is_line l ≡ true → list_all is_inner_byte (line_body l) ≡ true }
    ensures again { (l : ReportLine) → is_line l ≡ true → line_in (line_body l) ≡ Some l }
{}

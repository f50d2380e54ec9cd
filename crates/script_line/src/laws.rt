//! What lines and their canonical texts keep to. The functions do nothing: each is called where its facts are needed.

ghost use Rattle.std.specs.Prelude.{◌≡◌, ◌≤◌, ℕ, List, Ok, Some, false, All};
ghost use Rattle.ds_model.specs.declared.script.Op.{Op};
ghost use Rattle.ds_model.specs.ScriptText as script;
ghost use Rattle.script_line.specs.Canonical.{IsLine, IsPrinted, keyword_for, op_line_text, text_of};
ghost use Rattle.script_line.specs.Lines as spec;
ghost use Rattle.script_line.specs.declared.line.Line.{Line};

/// The canonical text of a line in range is read as that line. It is not skipped, and has no byte that ends a line.
pub fn canonical_text_laws()
    ensures read { (members : ℕ) (l : Line) → members ≤ 32 → IsLine members l → spec.line_in members (text_of l) ≡ Ok l }
    ensures counts { (members : ℕ) (l : Line) → members ≤ 32 → IsLine members l → spec.is_skipped (text_of l) ≡ false }
    ensures keyword { (members : ℕ) (l : Line) → members ≤ 32 → IsLine members l → spec.keyword_in (text_of l) ≡ Some (keyword_for l) }
    ensures printed { (members : ℕ) (l : Line) → members ≤ 32 → IsLine members l → All IsPrinted (text_of l) }
    ensures operations { (o : Op) → script.op_text o ≡ script.line (op_line_text o) }
{}

/// What is read is in range, and is what the first word says.
pub fn reading_laws()
    ensures range { (members : ℕ) (bytes : List ℕ) (l : Line) → spec.line_in members bytes ≡ Ok l → IsLine members l }
    ensures keyword { (members : ℕ) (bytes : List ℕ) (l : Line) → spec.line_in members bytes ≡ Ok l → spec.keyword_in bytes ≡ Some (keyword_for l) }
{}

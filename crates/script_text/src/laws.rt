//! What the reading of scripts keeps to. The functions do nothing: each is called where its facts are needed.

ghost use Rattle.std.specs.Prelude.{◌≡◌, ◌≤◌, ℕ, List, Ok, length};
ghost use Rattle.ds_model.specs.ScriptText.{script_text};
ghost use Rattle.ds_model.specs.Scripts.{IsScript};
ghost use Rattle.ds_model.specs.declared.script.Script.{Script};
ghost use Rattle.script_text.specs.Reading.{script_of};

use script_line::{canonical_text_laws, reading_laws};

/// Each text that is read is a script, with all that holds of one.
pub fn reading_script_laws()
    ensures { (members : ℕ) (bytes : List ℕ) (s : Script) → script_of members bytes ≡ Ok s → IsScript members s }
{
    reading_laws();
}

/// Each text that is read is no longer than a script may be.
pub fn short_script_laws()
    ensures { (members : ℕ) (bytes : List ℕ) (s : Script) → script_of members bytes ≡ Ok s → length bytes ≤ 4194304 }
{}

/// The canonical text of a script is read as that script, where it isn't too long.
pub fn canonical_script_laws()
    ensures { (members : ℕ) (s : Script) → members ≤ 32 → IsScript members s → length (script_text s) ≤ 4194304 → script_of members (script_text s) ≡ Ok s }
{
    canonical_text_laws();
}

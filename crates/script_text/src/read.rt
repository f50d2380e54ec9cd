ghost use Rattle.std.specs.Prelude.{◌≡◌, ◌<◌, ◌≤◌, ◌-◌, ◌^◌, length, IfOk, OnOk};
ghost use Rattle.ds_model.specs.ScriptText.{script_text};
ghost use Rattle.ds_model.specs.Scripts.{IsScript};
ghost use Rattle.ds_model.specs.declared.script.Script.{Script};
ghost use Rattle.script_text.specs.Indexes.{IsIndexed, IsStep};
ghost use Rattle.script_text.specs.Reading.{IsReadAs, Reads, error_at, script_of, step};
ghost use Rattle.script_text.specs.TextLines.{line_of};

use crate::laws::{canonical_script_laws, reading_script_laws, short_script_laws};
use crate::limits::TEXT_LIMIT;
use crate::lines::{cut_line, line_of};
use crate::reader::Reader;
use ds_base::NoMemory;
use ds_model::{FaultKind, Script, ScriptFault};
use script_line::LineError;
use std::alloc::Global;

/// Why a text was not read.
#[derive(Clone, Copy, Debug, PartialEq, Eq)]
pub enum ScriptError {
    /// It is no script.
    Fault(ScriptFault),
    NoMemory,
}

// What went wrong at the line of this number.
fn at_line(number: u32, error: LineError) -> ScriptError
    ensures { result ≡ error_at number error }
{
    match error {
        LineError::Fault(kind) => ScriptError::Fault(ScriptFault { line: number, kind }),
        LineError::NoMemory => ScriptError::NoMemory,
    }
}

// Reads a line, with what ends it. The text has so many bytes up to its end.
fn read_piece(
    alloc: Global,
    reader: &mut Reader,
    piece: &[u8],
    end: usize,
    members: u8,
) -> Result<(), LineError>
    requires members { (1 ≤ members) × (members ≤ 32) }
    requires indexed { IsIndexed reader.old }
    requires groupfails { reader.old.draft.groupfails < 2 ^ 32 - 1 }
    requires count { reader.old.draft.count < 2 ^ 32 - 1 }
    ensures next { IsStep (step members reader.old.draft (record { bytes = line_of piece.now; end = end })) reader.new.draft result }
    ensures indexed { OnOk result (IsIndexed reader.new) }
{
    if end > TEXT_LIMIT {
        return Err(LineError::Fault(FaultKind::TooLong));
    }
    reader.read_line(alloc, line_of(piece), members)
}

// The script of a text, line by line.
fn read_text(alloc: Global, bytes: &[u8], members: u8) -> Result<Script, ScriptError>
    requires { (1 ≤ members) × (members ≤ 32) }
    ensures { Reads (script_of members bytes.now) result }
{
    let mut reader = Reader::new(alloc);
    let mut number: u32 = 1;
    let mut end: usize = 0;
    let mut rest = bytes;
    while !rest.is_empty() {
        let (piece, after) = cut_line(rest);
        end += piece.len();
        match read_piece(alloc, &mut reader, piece, end, members) {
            Ok(()) => {}
            Err(error) => return Err(at_line(number, error)),
        }
        number += 1;
        rest = after;
    }
    match reader.finish() {
        Ok(script) => Ok(script),
        Err(error) => Err(at_line(number, error)),
    }
}

/// The script that a text spells, for a group of 1 to 32 members, or the first line with a fault and what is wrong with it.
///
/// Lines end with a line feed, which the last may lack; a carriage return directly before it is dropped. Words
/// are apart by spaces. Lines without words, and those whose first word begins with `#`, are skipped.
pub fn read_script(alloc: Global, bytes: &[u8], members: u8) -> Result<Script, ScriptError>
    requires { (1 ≤ members) × (members ≤ 32) }
    ensures read { Reads (script_of members bytes.now) result }
    ensures script { IfOk result (IsScript members) }
    ensures short { OnOk result (length bytes.now ≤ 4194304) }
    ensures canonical { (s : Script) → IsScript members s → length (script_text s) ≤ 4194304 → bytes.now ≡ script_text s → IsReadAs s result }
{
    reading_script_laws();
    canonical_script_laws();
    short_script_laws();
    read_text(alloc, bytes, members)
}

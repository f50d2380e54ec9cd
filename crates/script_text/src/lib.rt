//! The text of scripts: reading it, with the first fault of a text that is no script, and writing it.
#![tactic(auto)]

mod draft;
mod laws;
mod limits;
mod lines;
mod marks;
mod names;
mod read;
mod reader;
mod write;

pub use ds_model::{
    FailAt, FaultKind, Op, OpList, Part, PartList, Phase, PhaseList, Script, ScriptFault, Tran,
    TranList,
};
pub use laws::{canonical_script_laws, reading_script_laws};
pub use limits::{OPS_LIMIT, PHASES_LIMIT, TEXT_LIMIT, TRANS_LIMIT};
pub use read::{ScriptError, read_script};
pub use write::script_bytes;

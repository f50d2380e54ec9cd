ghost use Rattle.std.specs.Prelude.{◌≡◌, ◌<◌};
ghost use Rattle.whole_streams.specs.Input.{ReadsAll};
ghost use Rattle.whole_streams.specs.declared.input.ReadError.TheVariants as errors;

use ds_base::{Failed, Source};
use std::alloc::{AllocError, Global};

/// Why a source was not read.
#[derive(Clone, Copy, Debug, PartialEq, Eq)]
pub enum ReadError {
    Failed,
    NoMemory,
}

impl From<AllocError> for ReadError {
    ghost from_gives = { λ _ e. e ≡ errors.NoMemory };

    fn from(_: AllocError) -> Self {
        ReadError::NoMemory
    }
}

impl From<Failed> for ReadError {
    ghost from_gives = { λ _ e. e ≡ errors.Failed };

    fn from(_: Failed) -> Self {
        ReadError::Failed
    }
}

/// The bytes that one read asks for.
const PIECE: usize = 65_536;

/// All that is left of the source or, where that is more than `limit` bytes, one byte more than that.
pub fn read_all<S: Source>(
    alloc: Global,
    source: &mut S,
    limit: usize,
) -> Result<Vec<u8>, ReadError>
    requires { limit < 4294967296 }
    ensures { ReadsAll limit (S.left source.old) (S.left source.new) (S.faults source.old) (S.faults source.new) result }
{
    let mut out = Vec::new(alloc);
    let mut piece = [0u8; PIECE];
    for _ in 0..limit + 2 {
        let room = (limit + 1 - out.len()).min(PIECE);
        let count = source.read(&mut piece[..room])?;
        if count == 0 {
            return Ok(out);
        }
        out.extend_from_slice(&piece[..count])?;
        if out.len() > limit {
            return Ok(out);
        }
    }
    unreachable!()
}

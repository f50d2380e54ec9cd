//! Copies of records.

ghost use Rattle.std.specs.Prelude.{◌≡◌, IfOk};

use ds_base::{Bytes, NoMemory, Sequence};
use ds_model::{Body, LogRecord};
use page_format::{Patch, Patches};
use std::alloc::Global;

fn copy_patch(alloc: Global, patch: &Patch) -> Result<Patch, NoMemory>
    ensures { IfOk result (λ p. p ≡ patch.now) }
{
    let bytes = Bytes::from_vec(Vec::from_slice(alloc, patch.bytes.as_slice())?);
    Ok(Patch {
        page: patch.page,
        offset: patch.offset,
        bytes,
    })
}

fn copy_patches(alloc: Global, patches: &[Patch]) -> Result<Patches, NoMemory>
    ensures { IfOk result (λ ps. ps ≡ patches.now) }
{
    let mut copied = Sequence::new(alloc);
    for patch in patches {
        copied.push(copy_patch(alloc, patch)?)?;
    }
    Ok(copied)
}

fn copy_body(alloc: Global, body: &Body) -> Result<Body, NoMemory>
    ensures { IfOk result (λ b. b ≡ body.now) }
{
    Ok(match body {
        Body::RowChange { change } => Body::RowChange { change: *change },
        Body::Compensation { change, undone } => Body::Compensation {
            change: *change,
            undone: *undone,
        },
        Body::System { patches } => Body::System {
            patches: copy_patches(alloc, patches.as_slice())?,
        },
        Body::Commit => Body::Commit,
        Body::Ended => Body::Ended,
        Body::Checkpoint { offset } => Body::Checkpoint { offset: *offset },
        Body::RestartEnd => Body::RestartEnd,
    })
}

pub fn copy_record(alloc: Global, from: &LogRecord) -> Result<LogRecord, NoMemory>
    ensures { IfOk result (λ r. r ≡ from.now) }
{
    Ok(LogRecord {
        version: from.version,
        lrsn: from.lrsn,
        tran: from.tran,
        body: copy_body(alloc, &from.body)?,
    })
}

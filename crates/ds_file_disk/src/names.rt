//! The names of the files.
ghost use Rattle.std.specs.Prelude.{◌≡◌, IfOk, string_bytes};
ghost use Rattle.std.specs.Path.{path_buf_bytes, path_join};
ghost use Rattle.ds_file_disk.specs.Names.{page_name, log_name};

use ds_base::{MemberId, NoMemory};
use std::path::{Path, PathBuf};

#[tactic(auto, using(crate::proofs::ZeroPadding::three_digits))]
fn page_name<R: Alloc>(rt: &R, set: u16) -> Result<String<R::A>, NoMemory>
    ensures { IfOk result (λ name. string_bytes name ≡ page_name set) }
{
    Ok(format!(in rt.alloc(); "space-{set:03}.pages")?)
}

#[tactic(auto, using(crate::proofs::ZeroPadding::two_digits))]
fn log_name<R: Alloc>(rt: &R, member: u64) -> Result<String<R::A>, NoMemory>
    ensures { IfOk result (λ name. string_bytes name ≡ log_name member) }
{
    Ok(format!(in rt.alloc(); "log-{member:02}.log")?)
}

/// The file of a page set, with page number N at byte 4096 N.
pub fn page_file<R: Alloc>(rt: &R, folder: &str, set: u16) -> Result<PathBuf<R::A>, NoMemory>
    ensures { IfOk result (λ path. path_buf_bytes path ≡ path_join folder.now (page_name set)) }
{
    let name = page_name(rt, set)?;
    Ok(Path::new(folder).join(rt.alloc(), name.as_str())?)
}

/// The file of a member's log.
pub fn log_file<R: Alloc>(rt: &R, folder: &str, member: MemberId) -> Result<PathBuf<R::A>, NoMemory>
    ensures { IfOk result (λ path. path_buf_bytes path ≡ path_join folder.now (log_name member)) }
{
    let name = log_name(rt, member.number())?;
    Ok(Path::new(folder).join(rt.alloc(), name.as_str())?)
}

use ds_disk::DiskFailure;

/// A script, and which call of the disk fails.
#[derive(Clone, Copy, Debug)]
pub struct Setting<'a> {
    pub script: &'a str,
    pub fails: Option<DiskFailure>,
}

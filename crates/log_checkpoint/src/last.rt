use ds_model::LogRecord;

/// What stands at the end of bytes.
#[derive(Debug, Drop)]
pub enum Last {
    /// A record, and its length.
    Record { it: LogRecord, length: usize },
    /// The record at the end begins before the bytes, if there is one.
    Short,
    /// No record ends there.
    Broken,
}

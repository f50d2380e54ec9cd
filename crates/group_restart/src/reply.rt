use log_reader::LogReply;

/// What the disk has answered.
#[derive(Clone, Copy, Debug, PartialEq, Eq)]
pub enum Reply {
    Log(LogReply),
    Done,
}

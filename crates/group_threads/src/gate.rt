use ds_base::MemberId;

/// What a member's thread passes before each of its events, outside its turn. A run by a seed has one thread and passes none.
pub trait Gate {
    /// `command_number` counts the member's events of the phase, from 1. Every gate returns.
    fn pass(&self, member: MemberId, command_number: u64);
}

/// A gate that holds nobody up.
#[derive(Clone, Copy, Debug)]
pub struct OpenGate;

impl Gate for OpenGate {
    fn pass(&self, _member: MemberId, _command_number: u64) {}
}

/// The field that begins at this offset of the page can't stand there.
#[derive(Clone, Copy, Debug, PartialEq, Eq)]
pub struct FieldFault {
    pub at: u16,
}

use ds_base::Sizes;
use run_picture::Cut;

/// What the words order.
#[derive(Clone, Copy, Debug, PartialEq, Eq)]
pub enum Order {
    /// The picture of a run, or of some of its events.
    Draw(Cut),
    /// The story of the transaction whose name is the second word.
    Why(Sizes),
}

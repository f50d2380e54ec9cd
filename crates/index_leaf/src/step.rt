use ds_base::Place;

/// Where the search for a key goes from a page.
#[derive(Clone, Copy, Debug, PartialEq, Eq)]
pub enum Look {
    /// To the page to the right, by its number.
    Right(u32),
    /// To a page below this branch, by its number.
    Down(u32),
    /// The row of the key lies here.
    Found(Place),
    /// The index has no entry of the key.
    Absent,
}

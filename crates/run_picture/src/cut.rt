/// Which events are drawn, by the places of the first and the last; where one isn't given, from the first on, or to the last.
#[derive(Clone, Copy, Debug, PartialEq, Eq)]
pub struct Cut {
    pub from: Option<u64>,
    pub to: Option<u64>,
}

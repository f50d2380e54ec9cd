use crate::{Sequence, TableId, Value};

/// The key of a row. Every `u64` is one.
pub type Key = u64;

/// A row of a table.
#[derive(Clone, Copy, Debug)]
pub struct Row {
    pub table: TableId,
    pub key: Key,
    pub value: Value,
}

/// A list of rows.
pub type RowList = Sequence<Row>;

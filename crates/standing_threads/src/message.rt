//! What a lane holds, and what its ends know.

/// What is handed over.
#[derive(Drop)]
pub enum Message<T> {
    /// A value to work on.
    ToDo(T),
    /// What was left of it.
    Done(T),
}

/// What one end of a lane knows. No value of it is made.
pub enum Side<T> {
    /// Before there are two.
    Both,
    /// The leading thread: what it has sent and hasn't got back.
    Leads(Option<T>),
    /// The standing thread: what it has taken and hasn't sent on.
    Stands(Option<Message<T>>),
}

use std::sync::Wait;

/// A value that any thread may work on.
pub trait Task: Drop {
    /// Whether it may be worked on.
    ghost ready: { Self → Type 0 };

    /// What work may leave of it.
    ghost leaves: { Self → Self → Type 0 };

    fn work<R: Wait>(&mut self, rt: &R)
        requires { ready self.old }
        ensures { leaves self.old self.new };
}

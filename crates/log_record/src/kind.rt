ghost use Rattle.std.specs.Prelude.{◌≡◌};
ghost use Rattle.log_record.specs.Fields.{kind_of_number, has_tran};

/// The kinds of log records.
#[derive(Clone, Copy, Debug, PartialEq, Eq)]
pub enum Kind {
    RowChange,
    Compensation,
    System,
    Commit,
    Ended,
    Checkpoint,
    RestartEnd,
}

impl Kind {
    pub fn of_number(number: u8) -> Option<Kind>
        ensures { result ≡ kind_of_number number }
    {
        match number {
            1 => Some(Kind::RowChange),
            2 => Some(Kind::Compensation),
            3 => Some(Kind::System),
            4 => Some(Kind::Commit),
            5 => Some(Kind::Ended),
            6 => Some(Kind::Checkpoint),
            7 => Some(Kind::RestartEnd),
            _ => None,
        }
    }

    /// Whether a record of the kind belongs to a transaction.
    pub fn has_tran(self) -> bool
        ensures { result ≡ has_tran self }
    {
        match self {
            Kind::RowChange | Kind::Compensation | Kind::Commit | Kind::Ended => true,
            Kind::System | Kind::Checkpoint | Kind::RestartEnd => false,
        }
    }
}

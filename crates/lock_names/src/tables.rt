ghost use Rattle.std.specs.Prelude.{◌≡◌};
ghost use Rattle.lock_names.specs.Modes.{are_compatible, class_of, is_covering, is_recorded, is_same, join_of};

use crate::{Class, Mode};

/// Whether one owner may be given mode `b` of a name while another holds mode `a`.
#[tactic(auto, unfolding(crate::specs::Modes::are_compatible))]
pub fn compatible(a: Mode, b: Mode) -> bool
    ensures table { result ≡ are_compatible a b }
{
    match a {
        Mode::IS => matches!(b, Mode::IS | Mode::IX | Mode::S | Mode::U | Mode::SIX),
        Mode::IX => matches!(b, Mode::IS | Mode::IX),
        Mode::S => matches!(b, Mode::IS | Mode::S | Mode::U),
        Mode::U => matches!(b, Mode::IS | Mode::S),
        Mode::SIX => matches!(b, Mode::IS),
        Mode::X => false,
    }
}

/// The least mode that covers both.
#[tactic(auto, unfolding(crate::specs::Modes::join_of))]
pub fn join(a: Mode, b: Mode) -> Mode
    ensures table { result ≡ join_of a b }
{
    match (a, b) {
        (Mode::IS, other) | (other, Mode::IS) => other,
        (Mode::X, _) | (_, Mode::X) => Mode::X,
        (Mode::IX, Mode::IX) => Mode::IX,
        (Mode::S, Mode::S) => Mode::S,
        (Mode::S | Mode::U, Mode::S | Mode::U) => Mode::U,
        _ => Mode::SIX,
    }
}

/// The interest in an entry of the lock table that a lock in this mode needs.
#[tactic(auto, unfolding(crate::specs::Modes::class_of))]
pub fn class(m: Mode) -> Class
    ensures table { result ≡ class_of m }
{
    match m {
        Mode::IS | Mode::S => Class::Share,
        Mode::IX | Mode::U | Mode::SIX | Mode::X => Class::Exclusive,
    }
}

/// Whether a lock in this mode is recorded in the lock table, where it is kept when its member fails.
#[tactic(auto, unfolding(crate::specs::Modes::is_recorded))]
pub fn recorded(m: Mode) -> bool
    ensures table { result ≡ is_recorded m }
{
    matches!(m, Mode::IX | Mode::SIX | Mode::X)
}

/// Whether both are the same mode.
#[tactic(auto, unfolding(crate::specs::Modes::is_same))]
pub fn is_same_mode(a: Mode, b: Mode) -> bool
    ensures { result ≡ is_same a b }
{
    a == b
}

/// Whether an owner that holds one mode needs nothing more for the other.
pub fn covers(held: Mode, asked: Mode) -> bool
    ensures answer { result ≡ is_covering held asked }
{
    is_same_mode(join(held, asked), held)
}

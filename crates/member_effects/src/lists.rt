//! Replies that change nothing here.

ghost use Rattle.std.specs.Prelude.{◌≡◌};
ghost use Rattle.member_effects.specs.Lists.{status_told, query_told, flag_told, changed_told, cast_told};

use crate::told::Told;
use facility::Reply;

/// The reply to `status`.
pub fn status_told(reply: &Reply) -> Told
    ensures { result ≡ status_told reply.now }
{
    match *reply {
        Reply::Status { status } => Told::Status(status),
        _ => Told::Stepped,
    }
}

/// The reply to `take`.
pub fn query_told(reply: &Reply) -> Told
    ensures { result ≡ query_told reply.now }
{
    match *reply {
        Reply::Query { query } => Told::Query(query),
        _ => Told::NoQuery,
    }
}

/// The reply to `flag`.
pub fn flag_told(reply: &Reply) -> Told
    ensures { result ≡ flag_told reply.now }
{
    match reply {
        Reply::Raised => Told::Raised(true),
        _ => Told::Raised(false),
    }
}

/// The reply to `next-changed`.
pub fn changed_told(reply: &Reply) -> Told
    ensures { result ≡ changed_told reply.now }
{
    match *reply {
        Reply::ChangedPage { page } => Told::ChangedPage(page),
        _ => Told::NoChangedPage,
    }
}

/// The reply to `castout-read`.
pub fn cast_told(reply: &Reply) -> Told
    ensures { result ≡ cast_told reply.now }
{
    match reply {
        Reply::Taken => Told::Taken,
        _ => Told::NotTaken,
    }
}

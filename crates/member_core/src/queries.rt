//! Choice 17: queries of other members.
//!
//! A query is kept until it is answered, or another one is taken past its asker. A page's lock that the member has is never in
//! an answer: the page is put on the list of yields, and the query is met again when it was given up.

use ds_base::{NoMemory, PageId};
use list_structure::Query;
use lock_names::Name;
use member_intents::{Intent, Outcome};
use member_marks::Marks;
use member_state::MemberState;

// The page about which is asked, where the member has its lock.
fn page_held(query: &Query, marks: &Marks) -> Option<PageId> {
    match query.name {
        Name::Page(page) if marks.has_page(page) => Some(page),
        _ => None,
    }
}

/// What the choice wants.
pub fn query_intent(state: &MemberState, marks: &Marks) -> Intent {
    match &state.query {
        Some(query) if page_held(query, marks).is_none() => Intent::Answer {
            asker: query.asker,
            name: query.name,
            mode: query.mode,
        },
        _ => Intent::Take {
            after: state.asked_after,
        },
    }
}

fn note_yield(state: &mut MemberState, page: PageId) -> Result<(), NoMemory> {
    if !state.yields.contains(&page) {
        state.yields.push(page)?;
    }
    Ok(())
}

fn query_taken(state: &mut MemberState, query: &Query, marks: &Marks) -> Result<(), NoMemory> {
    state.query = Some(*query);
    state.asked_after = Some(query.asker);
    match page_held(query, marks) {
        Some(page) => note_yield(state, page),
        None => Ok(()),
    }
}

/// What the outcome of the choice's event makes of it.
pub fn take_for_query(
    state: &mut MemberState,
    outcome: &Outcome<'_>,
    marks: &Marks,
) -> Result<(), NoMemory> {
    match outcome {
        Outcome::Query(query) => query_taken(state, query, marks),
        _ => {
            state.query = None;
            Ok(())
        }
    }
}

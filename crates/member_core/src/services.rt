//! Yields, and the reuse of frames.

use ds_base::PageId;
use member_intents::{Intent, Outcome};
use member_marks::Marks;
use member_state::{MemberState, Resources, Service, write_intent};
use page_plans::table_of;

// The changed frame that is written first, where this page is changed.
fn to_write(page: PageId, marks: &Marks) -> Option<u16> {
    let frame = marks.find(page)?;
    if !marks.frame(frame).changed {
        return None;
    }
    marks.first_to_write(table_of(page.set)?)
}

// The page isn't changed.
fn gives_up(service: Service, marks: &Marks) -> Intent {
    let page = service.page();
    if marks.has_page(page) {
        return Intent::ReleasePage { page };
    }
    match service {
        Service::Reuse { frame, .. } => Intent::Unregister { frame },
        Service::Yield { .. } => Intent::Step,
    }
}

/// What the service wants.
pub fn service_intent(service: Service, resources: &Resources) -> Intent {
    let marks = resources.marks();
    match to_write(service.page(), marks) {
        Some(frame) => write_intent(resources, frame),
        None => gives_up(service, marks),
    }
}

fn drop_yield(state: &mut MemberState, page: PageId) {
    if let Some(at) = state.yields.iter().position(|other| *other == page) {
        let _page = state.yields.remove(at);
    }
}

// The page's lock was given up, with which a yield is over.
fn page_released(state: &mut MemberState, service: Service) {
    drop_yield(state, service.page());
    if let Service::Yield { .. } = service {
        state.service = None;
    }
}

// The frame is free.
fn ends(state: &mut MemberState, service: Service) {
    drop_yield(state, service.page());
    state.service = None;
}

/// The service goes on by what the event came to.
pub fn service_told(state: &mut MemberState, service: Service, outcome: &Outcome<'_>) {
    match outcome {
        Outcome::Released { .. } => page_released(state, service),
        Outcome::Stepped => ends(state, service),
        _ => {}
    }
}

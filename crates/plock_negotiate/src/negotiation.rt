use ds_base::{MemberId, TranId};
use list_structure::MemberStatus;
use lock_names::{Class, Mode, Name, class};
use member_intents::{Event, Intent, Outcome};
use member_trans::Owner;

/// What a negotiation does next.
#[derive(Clone, Copy, Debug, PartialEq, Eq)]
enum Stage {
    Obtain,
    Ask,
    Status,
    Answers,
    Grant,
}

/// How far a negotiation has come in an event.
#[derive(Clone, Copy, Debug, PartialEq, Eq)]
pub enum Progress {
    GoesOn,
    /// The lock is held, and entered as a claim.
    Granted,
    /// This transaction is in the way.
    Conflict { by: TranId },
    /// The lock can't be had; the marks keep why.
    Refused,
}

/// The negotiation of a lock for an owner of the member.
///
/// Members stand in a mask: bit `m - 1` for member m.
#[derive(Clone, Copy, Debug)]
pub struct Negotiation {
    owner: Owner,
    name: Name,
    mode: Mode,
    stage: Stage,
    /// Those that are asked.
    asked: u32,
    /// Those of them whose turn is still to come, the one in hand among them.
    left: u32,
    bell: u64,
}

// The members whose interest in the entry conflicts with a lock in this mode.
fn in_the_way(mode: Mode, share: u32, exclusive: u32) -> u32 {
    match class(mode) {
        Class::Share => exclusive,
        Class::Exclusive => share | exclusive,
    }
}

impl Negotiation {
    pub fn new(owner: &Owner, name: Name, mode: Mode) -> Negotiation {
        Negotiation {
            owner: *owner,
            name,
            mode,
            stage: Stage::Obtain,
            asked: 0,
            left: 0,
            bell: 0,
        }
    }

    pub fn name(&self) -> Name {
        self.name
    }

    pub fn mode(&self) -> Mode {
        self.mode
    }

    /// The member's bell after the obtain that last began it anew: whatever rings later may have freed the lock.
    pub fn bell(&self) -> u64 {
        self.bell
    }

    // The member whose turn it is, in rising order.
    fn turn(&self) -> Option<MemberId> {
        MemberId::new(self.left.trailing_zeros() as u64 + 1)
    }

    /// What is wanted next.
    pub fn intent(&self) -> Intent {
        let owner = self.owner;
        let name = self.name;
        let mode = self.mode;
        match (self.stage, self.turn()) {
            (Stage::Ask, Some(to)) => Intent::Ask {
                owner,
                to,
                name,
                mode,
            },
            (Stage::Status, Some(member)) => Intent::Status { member },
            (Stage::Answers, _) => Intent::Answers {
                owner,
                name,
                mode,
                asked: self.asked,
            },
            (Stage::Grant, _) => Intent::Grant { owner, name, mode },
            _ => Intent::Obtain { owner, name, mode },
        }
    }

    /// Goes on from what the event came to.
    pub fn take(&mut self, outcome: &Outcome<'_>, event: &Event) -> Progress {
        if let Stage::Obtain = self.stage {
            self.bell = event.bell;
        }
        match outcome {
            Outcome::Granted => Progress::Granted,
            Outcome::Conflict { by } => Progress::Conflict { by: *by },
            Outcome::Refused => Progress::Refused,
            _ => {
                self.go_on(outcome);
                Progress::GoesOn
            }
        }
    }

    fn go_on(&mut self, outcome: &Outcome<'_>) {
        match outcome {
            Outcome::Contention { share, exclusive } => {
                self.ask_all(in_the_way(self.mode, *share, *exclusive));
            }
            Outcome::Moved => self.begin_anew(),
            Outcome::Status(status) => self.take_status(*status),
            Outcome::Cells { open, emptied } => self.take_cells(*open, *emptied),
            Outcome::Stepped => self.was_asked(),
            _ => {}
        }
    }

    fn ask_all(&mut self, members: u32) {
        self.stage = Stage::Ask;
        self.asked = members;
        self.left = members;
    }

    fn begin_anew(&mut self) {
        self.stage = Stage::Obtain;
        self.asked = 0;
        self.left = 0;
    }

    // The member in hand was asked.
    fn was_asked(&mut self) {
        if let Stage::Ask = self.stage {
            self.stage = Stage::Status;
        }
    }

    // A member that failed before it was asked never answers. Its interest is gone, so the negotiation begins anew.
    fn take_status(&mut self, status: MemberStatus) {
        match status {
            MemberStatus::Up | MemberStatus::Restarting => self.next_turn(),
            MemberStatus::Down | MemberStatus::Failed => self.begin_anew(),
        }
    }

    fn next_turn(&mut self) {
        self.left &= self.left.wrapping_sub(1);
        self.stage = if self.left == 0 {
            Stage::Answers
        } else {
            Stage::Ask
        };
    }

    // None of the answers is in the way. A cell that was emptied goes before one that isn't answered yet.
    fn take_cells(&mut self, open: bool, emptied: bool) {
        if emptied {
            self.begin_anew();
        } else if !open {
            self.stage = Stage::Grant;
        }
    }
}

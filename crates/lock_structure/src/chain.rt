//! The records of the names that fall on one entry, as a chain of cells that are taken from areas and given back.

ghost use Rattle.std.specs.Prelude.{◌≡◌, ◌∷◌, ◌==◌, ◌&&◌, map, is_some, [], ◌+◌, length, slice_get, IfOk, IfErr, IfSome, Some, None};
ghost use Rattle.ds_base.specs.Ids.{IsMember};
ghost use Rattle.lock_structure.specs.Records.{is_of, record_in, retained_of, retained_by};
ghost use Rattle.lock_structure.specs.Buckets.{put_in, without, is_keeping, lower, lowest_in};

use ds_base::MemberId;
use lock_names::{Mode, Name, compatible, is_same_name};
use record_area::Cell;
use std::marker::Model;
use std::mem;

/// A lock that is recorded, so that it outlives its member.
#[derive(Clone, Copy, Debug, PartialEq, Eq)]
pub struct Record {
    pub mode: Mode,
    /// Its member has failed since it was recorded.
    pub retained: bool,
}

/// A record with its member and name.
#[derive(Clone, Copy, Debug, PartialEq, Eq)]
pub struct Held {
    pub member: MemberId,
    pub name: Name,
    pub lock: Record,
}

/// Records, the newest first.
#[cycle(chain)]
#[derive(Drop)]
pub struct Chain {
    node: Node,
}

#[cycle(chain)]
#[derive(Drop)]
enum Node {
    End,
    Link(Held, Box<Chain>),
}

impl Model for Chain {
    ghost use Rattle.std.specs.Prelude.{List, length};
    ghost use Rattle.lock_structure.specs.declared.chain.Held.{Held};

    ghost Value = { List Held };

    ghost use Rattle.lock_structure.specs.Chains.{held_in};

    ghost view = { λ a. held_in a.node };

    ghost invariant = { λ a. Unit {0} };

    ghost size = { length };

    ghost use Rattle.lock_structure.specs.Depth.{depth_le-length-held_in};

    ghost size_decreases = { λ a h. depth_le-length-held_in a.node };
}

impl Held {
    /// Whether it is this member's, of this name.
    pub(crate) fn is_of(&self, member: MemberId, name: &Name) -> bool
        ensures { result ≡ is_of member name.now self.now }
    {
        self.member.number() == member.number() && is_same_name(&self.name, name)
    }

    /// Whether it is another member's, retained, and in the way of the name and mode.
    fn is_keeping(&self, member: MemberId, name: &Name, mode: Mode) -> bool
        ensures { result ≡ is_keeping member name.now mode self.now }
    {
        self.lock.retained
            && self.member.number() != member.number()
            && is_same_name(&self.name, name)
            && !compatible(self.lock.mode, mode)
    }
}

/// The lower of a member, if there is one, and another.
fn lower(lowest: Option<MemberId>, member: MemberId) -> Option<MemberId>
    requires { IfSome lowest IsMember }
    ensures lower { result ≡ lower lowest member }
    ensures range { IfSome result IsMember }
{
    let number = member.number();
    match lowest {
        Some(other) if other.number() <= number => Some(other),
        _ => Some(member),
    }
}

impl Cell for Chain {
    fn empty() -> Chain {
        Chain::new()
    }
}

impl Chain {
    pub fn new() -> Chain
        ensures { result ≡ [] }
    {
        Chain { node: Node::End }
    }

    /// The newest record.
    pub fn first(&self) -> Option<Held>
        ensures { result ≡ slice_get self.now 0 }
    {
        match &self.node {
            Node::End => None,
            Node::Link(held, _) => Some(*held),
        }
    }

    /// The member's record of the name.
    pub fn find(&self, member: MemberId, name: &Name) -> Option<Record>
        ensures { result ≡ record_in self.now member name.now }
    {
        let mut chain = self;
        while let Node::Link(held, rest) = &chain.node {
            if held.is_of(member, name) {
                return Some(held.lock);
            }
            chain = rest;
        }
        None
    }

    /// The lowest other member with a record that is retained, and in the way of the name and mode.
    pub fn keeper(&self, member: MemberId, name: &Name, mode: Mode) -> Option<MemberId>
        ensures lowest { result ≡ lowest_in member name.now mode self.now None }
        ensures range { IfSome result IsMember }
    {
        let mut lowest = None;
        let mut chain = self;
        while let Node::Link(held, rest) = &chain.node {
            if held.is_keeping(member, name, mode) {
                lowest = lower(lowest, held.member);
            }
            chain = rest;
        }
        lowest
    }

    /// Writes over the member's record of the name.
    pub fn put(&mut self, member: MemberId, name: &Name, lock: Record)
        ensures { self.new ≡ put_in self.old member name.now lock }
    {
        match &mut self.node {
            Node::End => {}
            Node::Link(held, rest) => {
                if held.is_of(member, name) {
                    held.lock = lock;
                } else {
                    rest.put(member, name, lock);
                }
            }
        }
    }

    /// Puts a record into a cell, and that before the others.
    pub fn insert(&mut self, cell: Box<Chain>, held: Held)
        ensures { self.new ≡ held ∷ self.old }
    {
        let mut cell = cell;
        cell.node = mem::replace(&mut self.node, Node::End);
        self.node = Node::Link(held, cell);
    }

    /// Takes out the member's record of the name, and gives its cell.
    pub fn remove(&mut self, member: MemberId, name: &Name) -> Option<Box<Chain>>
        ensures chain { self.new ≡ without self.old member name.now }
        ensures cell { is_some result ≡ is_some (record_in self.old member name.now) }
    {
        match mem::replace(&mut self.node, Node::End) {
            Node::End => None,
            Node::Link(held, rest) => {
                let mut rest = rest;
                if held.is_of(member, name) {
                    self.node = mem::replace(&mut rest.node, Node::End);
                    return Some(rest);
                }
                let cell = rest.remove(member, name);
                self.node = Node::Link(held, rest);
                cell
            }
        }
    }

    /// Makes the member's records retained.
    pub fn retain(&mut self, member: MemberId)
        ensures { self.new ≡ map (retained_by member) self.old }
    {
        match &mut self.node {
            Node::End => {}
            Node::Link(held, rest) => {
                if held.member.number() == member.number() {
                    held.lock.retained = true;
                }
                rest.retain(member);
            }
        }
    }

    /// The member's retained record with so many of its retained records before it, or how many more are to come.
    pub fn retained(&self, member: MemberId, at: u32) -> Result<(Name, Mode), u32>
        ensures found { IfOk result (λ x. slice_get (retained_of member self.now) at ≡ Some x) }
        ensures more { IfErr result (λ left. left + length (retained_of member self.now) ≡ at) }
    {
        match &self.node {
            Node::End => Err(at),
            Node::Link(held, rest) => {
                if held.member.number() != member.number() || !held.lock.retained {
                    rest.retained(member, at)
                } else if at == 0 {
                    Ok((held.name, held.lock.mode))
                } else {
                    rest.retained(member, at - 1)
                }
            }
        }
    }
}

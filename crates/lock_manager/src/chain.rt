//! The claims of one owner, as a chain of cells that are taken from an area and given back.

ghost use Rattle.std.specs.Prelude.{◌≡◌, ◌≢◌, ◌∷◌, [], is_some, None, Some, length, ◌+◌, ◌<◌, ◌≤◌, true, false, drop, MatchOption, IfOk, IfErr, reverse};
ghost use Rattle.lock_manager.specs.Claims.{mode_in, without, with_mode};

use crate::claim::Claim;
use ds_model::Name;
use lock_names::{Mode, is_same_name};
use record_area::Cell;
use std::marker::Model;
use std::mem;

/// Claims of one owner, the newest first.
#[cycle(chain)]
#[derive(Drop)]
pub struct Chain {
    node: Node,
}

#[cycle(chain)]
#[derive(Drop)]
enum Node {
    End,
    Link(Claim, Box<Chain>),
}

impl Model for Chain {
    ghost use Rattle.std.specs.Prelude.{List, length};
    ghost use Rattle.lock_manager.specs.declared.claim.Claim.{Claim};

    ghost Value = { List Claim };

    ghost use Rattle.lock_manager.specs.Chains.{claims_in};

    ghost view = { λ a. claims_in a.node };

    ghost invariant = { λ a. Unit {0} };

    ghost size = { length };

    ghost use Rattle.lock_manager.specs.Depth.{depth_le-length-claims_in};

    ghost size_decreases = { λ a h. depth_le-length-claims_in a.node };
}

impl Cell for Chain {
    fn empty() -> Chain {
        Chain::new()
    }
}

impl Chain {
    pub fn new() -> Chain
        ensures { result ≡ [] }
    {
        Chain { node: Node::End }
    }

    /// The mode in which the name is claimed.
    pub fn find(&self, name: &Name) -> Option<Mode>
        ensures { result ≡ mode_in self.now name.now }
    {
        let mut left = self;
        while let Node::Link(claim, rest) = &left.node {
            if is_same_name(&claim.name, name) {
                return Some(claim.mode);
            }
            left = rest;
        }
        None
    }

    /// Writes another mode into the claim on the name.
    pub fn put(&mut self, name: &Name, mode: Mode)
        requires { is_some (mode_in self.old name.now) ≡ true }
        ensures mode { mode_in self.new name.now ≡ Some mode }
        ensures rest { without self.new name.now ≡ without self.old name.now }
        ensures length { length self.new ≡ length self.old }
        ensures place { self.new ≡ with_mode self.old name.now mode }
    {
        match &mut self.node {
            Node::End => {}
            Node::Link(claim, rest) => {
                if is_same_name(&claim.name, name) {
                    claim.mode = mode;
                } else {
                    rest.put(name, mode);
                }
            }
        }
    }

    /// Puts a claim into a cell, and that before the others.
    pub fn insert(&mut self, cell: Box<Chain>, claim: Claim)
        ensures { self.new ≡ claim ∷ self.old }
    {
        let mut cell = cell;
        cell.node = mem::replace(&mut self.node, Node::End);
        self.node = Node::Link(claim, cell);
    }

    /// Takes out the claim on the name, and gives its cell.
    pub fn remove(&mut self, name: &Name) -> Option<Box<Chain>>
        ensures chain { self.new ≡ without self.old name.now }
        ensures cell { is_some result ≡ is_some (mode_in self.old name.now) }
    {
        match mem::replace(&mut self.node, Node::End) {
            Node::End => None,
            Node::Link(claim, rest) => {
                let mut rest = rest;
                if is_same_name(&claim.name, name) {
                    self.node = mem::replace(&mut rest.node, Node::End);
                    return Some(rest);
                }
                let cell = rest.remove(name);
                self.node = Node::Link(claim, rest);
                cell
            }
        }
    }

    /// Takes out the first claim, and gives its cell too.
    pub fn pop(&mut self) -> Option<(Claim, Box<Chain>)>
        ensures { MatchOption result ((self.old ≡ []) × (self.new ≡ [])) (λ popped. self.old ≡ popped.0 ∷ self.new) }
    {
        match mem::replace(&mut self.node, Node::End) {
            Node::End => None,
            Node::Link(claim, rest) => {
                let mut rest = rest;
                self.node = mem::replace(&mut rest.node, Node::End);
                Some((claim, rest))
            }
        }
    }

    /// The claims the other way round.
    pub fn reversed(self) -> Chain
        ensures { result ≡ reverse self }
    {
        let mut left = self;
        let mut made = Chain::new();
        while let Some((claim, cell)) = left.pop() {
            made.insert(cell, claim);
        }
        made
    }

    /// The claim at this place, or by how much the place lies beyond the last one.
    pub fn nth(&self, place: usize) -> Result<Claim, usize>
        ensures claim { IfOk result (λ claim. drop place self.now ≡ claim ∷ drop (place + 1) self.now) }
        ensures beyond { IfErr result (λ beyond. place ≡ length self.now + beyond) }
    {
        match &self.node {
            Node::End => Err(place),
            Node::Link(claim, rest) => {
                if place == 0 {
                    return Ok(*claim);
                }
                rest.nth(place - 1)
            }
        }
    }

    /// Whether it has no claims.
    pub fn is_empty(&self) -> bool
        ensures some { result ≡ false → self.now ≢ [] }
        ensures none { result ≡ true → self.now ≡ [] }
    {
        match &self.node {
            Node::End => true,
            Node::Link(_, _) => false,
        }
    }
}

ghost use Rattle.std.specs.Prelude.{◌≡◌, IfOk, OnOk, OnErr, false, slice_set, slice_index_or};
ghost use Rattle.member_marks.specs.Names.{no_names, has_name, with_name, without_name, with_spot, with_spots};

use ds_base::{Key, NoMemory, TableId};
use ds_model::Name;
use std::alloc::Global;
use std::collections::BTreeSet;
use std::marker::Model;

/// How many numbers there are for tables: 0 stands for none.
const TABLES: usize = 65;

/// A row, by its table and key.
pub type Spot = (TableId, Key);

/// Names of table spaces and rows. A look-up and a change take time in the logarithm of their number.
#[derive(Drop)]
pub struct KeptNames {
    spaces: [bool; TABLES],
    rows: BTreeSet<Spot>,
}

impl Model for KeptNames {
    ghost use Rattle.member_marks.specs.Names.{NameSet};

    ghost Value = { NameSet };

    ghost view = { λ k. record { spaces = k.spaces; rows = k.rows.keys } };
}

impl KeptNames {
    pub fn new(alloc: Global) -> KeptNames
        ensures { result ≡ no_names }
    {
        KeptNames {
            spaces: [false; TABLES],
            rows: BTreeSet::new(alloc),
        }
    }

    pub fn has(&self, name: &Name) -> bool
        ensures { result ≡ has_name self.now name.now }
    {
        match name {
            Name::Space(table) => self.has_space(*table),
            Name::Row(table, key) => self.rows.contains(&(*table, *key)),
            Name::Page(_) | Name::Set(_) => false,
        }
    }

    fn has_space(&self, table: TableId) -> bool
        ensures { result ≡ slice_index_or self.now.spaces table false }
    {
        match self.spaces.get(table.number() as usize) {
            Some(is_in) => *is_in,
            None => false,
        }
    }

    fn set_space(&mut self, table: TableId, is_in: bool)
        ensures { self.new ≡ record self.old { spaces = slice_set self.old.spaces table is_in } }
    {
        let at = table.number() as usize;
        if at < TABLES {
            self.spaces[at] = is_in;
        }
    }

    /// Adds the name, if it is that of a table space or row.
    pub fn add(&mut self, name: &Name) -> Result<(), NoMemory>
        ensures ok { OnOk result (self.new ≡ with_name self.old name.now) }
        ensures err { OnErr result (self.new ≡ self.old) }
    {
        match name {
            Name::Space(table) => self.set_space(*table, true),
            Name::Row(table, key) => {
                self.rows.insert((*table, *key))?;
            }
            Name::Page(_) | Name::Set(_) => {}
        }
        Ok(())
    }

    /// Takes the name out.
    pub fn forget(&mut self, name: &Name)
        ensures { self.new ≡ without_name self.old name.now }
    {
        match name {
            Name::Space(table) => self.set_space(*table, false),
            Name::Row(table, key) => {
                self.rows.remove(&(*table, *key));
            }
            Name::Page(_) | Name::Set(_) => {}
        }
    }

    fn add_spot(&mut self, table: TableId, key: Key) -> Result<(), NoMemory>
        ensures { OnOk result (self.new ≡ with_spot self.old (table, key)) }
    {
        self.add(&Name::Space(table))?;
        self.add(&Name::Row(table, key))
    }

    #[tactic(auto, using(crate::proofs::Spots::kept_step))]
    fn add_spots(&mut self, spots: &[Spot]) -> Result<(), NoMemory>
        ensures { OnOk result (self.new ≡ with_spots self.old spots.now) }
    {
        for spot in spots {
            self.add_spot(spot.0, spot.1)?;
        }
        Ok(())
    }

    fn copied(&self) -> Result<KeptNames, NoMemory>
        ensures { IfOk result (λ copy. copy ≡ self.now) }
    {
        Ok(KeptNames {
            spaces: self.spaces,
            rows: self.rows.clone()?,
        })
    }

    /// These names, and those of the rows and of their table spaces.
    pub fn joined(&self, spots: &[Spot]) -> Result<KeptNames, NoMemory>
        ensures { IfOk result (λ joined. joined ≡ with_spots self.now spots.now) }
    {
        let mut more = self.copied()?;
        more.add_spots(spots)?;
        Ok(more)
    }

    /// Forgets all names.
    pub fn reset(&mut self)
        ensures { self.new ≡ no_names }
    {
        self.spaces = [false; TABLES];
        self.rows.clear();
    }
}

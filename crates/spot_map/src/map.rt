ghost use Rattle.std.specs.Prelude.{◌≡◌, ◌<◌, ◌^◌, None, OnOk, OnErr, IfOk};
ghost use Rattle.std.specs.FinMap as finite;
ghost use Rattle.ds_model.specs.Rows.{AreSorted, listed, map_of, scanned};

use ds_base::{Key, NoMemory, Row, RowList, TableId, Value};
use std::alloc::Global;
use std::collections::BTreeMap;
use std::marker::Model;

/// A map from a table and a key to a value that is copied, in the order of tables and then of keys.
///
/// A look-up and a change take time in the logarithm of the map's length.
#[derive(Debug, Drop)]
pub struct SpotMap<T> {
    spots: BTreeMap<(TableId, Key), T>,
}

impl<T> Model for SpotMap<T> {
    ghost use Rattle.std.specs.FinMap as finite;
    ghost use Rattle.ds_model.specs.Rows.{spot_cmp};
    ghost use Rattle.std.specs.Coded.{coded×, coded_ℕ};

    ghost Value = { finite.FinMap spot_cmp T };

    ghost coded = { finite.code (coded× coded_ℕ coded_ℕ) T.code };

    ghost view = { λ m. finite.from_entries m.spots.entries };
}

impl<T: Copy> SpotMap<T> {
    pub fn new(alloc: Global) -> SpotMap<T>
        ensures { result ≡ finite.empty }
    {
        SpotMap {
            spots: BTreeMap::new(alloc),
        }
    }

    pub fn get(&self, table: TableId, key: Key) -> Option<T>
        ensures { result ≡ finite.get self.now (table, key) }
    {
        self.spots.get(&(table, key)).copied()
    }

    /// Sets the value of a spot. A spot that has a value takes no memory.
    pub fn insert(&mut self, table: TableId, key: Key, value: T) -> Result<(), NoMemory>
        ensures ok { OnOk result (self.new ≡ finite.insert self.old (table, key) value) }
        ensures err { OnErr result (self.new ≡ self.old) }
        ensures absent { OnErr result (finite.get self.old (table, key) ≡ None) }
    {
        self.spots.insert((table, key), value)?;
        Ok(())
    }

    pub fn remove(&mut self, table: TableId, key: Key)
        ensures { self.new ≡ finite.remove self.old (table, key) }
    {
        self.spots.remove(&(table, key));
    }

    pub fn len(&self) -> usize
        ensures count { result ≡ finite.len self.now }
        ensures small { result < 2 ^ 63 }
    {
        self.spots.len()
    }
}

impl SpotMap<Value> {
    /// The map of a list of rows in order.
    pub fn from_rows(alloc: Global, rows: &RowList) -> Result<SpotMap<Value>, NoMemory>
        requires { AreSorted rows.now }
        ensures { IfOk result (λ map. map ≡ map_of rows.now) }
    {
        let mut map = SpotMap::new(alloc);
        for row in rows.as_slice() {
            map.insert(row.table, row.key, row.value)?;
        }
        Ok(map)
    }

    /// The rows of one table whose keys are `low` to `high`, both included, in order.
    ///
    /// Takes time in the logarithm of the map's length and in the number of these rows.
    pub fn scan(
        &self,
        alloc: Global,
        table: TableId,
        low: Key,
        high: Key,
    ) -> Result<RowList, NoMemory>
        ensures { IfOk result (λ rows. rows ≡ scanned self.now table low high) }
    {
        if low > high {
            return Ok(RowList::new(alloc));
        }
        let rows: Vec<Row> = self
            .spots
            .range((table, low)..=(table, high))
            .map(|(&(table, key), &value)| Row { table, key, value })
            .collect(alloc)?;
        Ok(RowList::from_vec(rows))
    }

    /// The rows in the order of their tables and then of their keys.
    pub fn into_rows(self, alloc: Global) -> Result<RowList, NoMemory>
        ensures rows { IfOk result (λ rows. rows ≡ listed self) }
        ensures in_order { IfOk result AreSorted }
    {
        let SpotMap { spots } = self;
        let rows: Vec<Row> = spots
            .into_iter()
            .map(|((table, key), value)| Row { table, key, value })
            .collect(alloc)?;
        Ok(RowList::from_vec(rows))
    }
}

//! A value that stays where it lies, and the place for one.
ghost use Rattle.std.specs.Prelude.{◌≡◌, true, Some, None, is_some, box_value, IfOk, IfErr};
ghost use Rattle.std.specs.Borrow.{Lends, sem};
ghost use Rattle.std.specs.contracts.option.Option.{the_row as option_row};

use ds_base::NoMemory;
use std::alloc::Global;
use std::marker::Model;

/// A value that stays where it lies in memory while it goes from owner to owner. Contracts see the value itself.
#[derive(Drop)]
pub struct Laid<T> {
    place: Box<Option<T>>,
    ghost full: { is_some (box_value place) ≡ true },
}

impl<T> Model for Laid<T> {
    ghost use Rattle.std.specs.Prelude.{box_value};
    ghost use Rattle.turn_gate.specs.Held.{held};

    ghost Value = { T };

    ghost view = { λ l. held (box_value l.place) l.full };
}

/// A place where a value may be laid down, and where none lies.
#[derive(Drop)]
pub struct Bed<T> {
    place: Box<Option<T>>,
    ghost empty: { box_value place ≡ None },
}

// The value that lies in a place.
fn value_in<T>(place: &mut Option<T>) -> &mut T
    requires { is_some place.old ≡ true }
    ensures* writes_back { sem 𝓛 (Lends (option_row T.row) T.row place.entry result (λ last. Some last)) }
    ensures value { place.old ≡ Some result.now }
{
    match place {
        Some(value) => value,
        None => unreachable!(),
    }
}

impl<T> Bed<T> {
    /// A place for a value.
    pub fn new(alloc: Global) -> Result<Bed<T>, NoMemory> {
        match Box::new(alloc, None) {
            Ok(place) => Ok(Bed { place }),
            Err(refused) => {
                let back = refused.value;
                let None = back else { unreachable!() };
                Err(NoMemory)
            }
        }
    }

    /// Lays a value down. It takes no memory.
    pub fn lay(self, value: T) -> Laid<T>
        ensures { result ≡ value }
    {
        let Bed { mut place } = self;
        let before = Box::replace(&mut place, Some(value));
        let None = before else { unreachable!() };
        Laid { place }
    }
}

impl<T> Laid<T> {
    ghost use Rattle.turn_gate.specs.contracts.laid.Laid.{the_row};

    /// Lays a value down in a place of its own. Want of memory hands it back.
    pub fn new(alloc: Global, value: T) -> Result<Laid<T>, T>
        ensures ok { IfOk result (λ laid. laid ≡ value) }
        ensures err { IfErr result (λ back. back ≡ value) }
    {
        match Bed::new(alloc) {
            Ok(bed) => Ok(bed.lay(value)),
            Err(NoMemory) => Err(value),
        }
    }

    pub fn get(&self) -> &T
        ensures { result.now ≡ self.now }
    {
        match &*self.place {
            Some(value) => value,
            None => unreachable!(),
        }
    }

    pub fn get_mut(&mut self) -> &mut T
        ensures* writes_back { sem 𝓛 (Lends (the_row T.row) T.row self.entry result (λ last. last)) }
        ensures value { result.now ≡ self.old }
    {
        value_in(&mut self.place)
    }

    /// Takes the value up: the value by itself, and the place where it lay.
    pub fn lift(self) -> (T, Bed<T>)
        ensures { result.0 ≡ self }
    {
        let Laid { mut place } = self;
        let before = Box::replace(&mut place, None);
        let Some(value) = before else { unreachable!() };
        (value, Bed { place })
    }

    /// The value by itself.
    pub fn into_inner(self) -> T
        ensures { result ≡ self }
    {
        let Laid { place } = self;
        let inner = Box::into_inner(place);
        let Some(value) = inner else { unreachable!() };
        value
    }
}

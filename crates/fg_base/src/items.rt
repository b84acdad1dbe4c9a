//! A vector that contracts see as the list of its items.

ghost use Rattle.std.specs.Prelude.{◌≡◌, ◌<◌, ◌↔◌, [], ◌∷◌, ◌++◌, IsTrue, OnErr, OnOk, drop, length, take};
ghost use Rattle.std.specs.List.{remove};

use crate::Memory;
use std::alloc::Global;
use std::marker::Model;

/// A vector that contracts see as the list of its items, so that a record with such a field is, in a contract, the
/// record of the definition. It is made from a vector and gives it back without taking memory.
#[derive(Drop)]
pub struct Items<T> {
    vector: Vec<T>,
}

impl<T> Model for Items<T> {
    ghost use Rattle.std.specs.Prelude.{List};
    ghost use Rattle.std.specs.Coded.{coded_list};

    ghost Value = { List T };

    ghost coded = { coded_list T.code };

    ghost view = { λ inside. inside.vector.items };
}

impl<T> Items<T> {
    /// No items. Later growth is taken from the allocator.
    pub fn new(alloc: Global) -> Items<T>
        ensures { result ≡ [] }
    {
        Items {
            vector: Vec::new(alloc),
        }
    }

    /// The items of this vector.
    pub fn from_vec(vector: Vec<T>) -> Items<T>
        ensures { result ≡ vector.items }
    {
        Items { vector }
    }

    /// The vector of these items.
    pub fn into_vec(self) -> Vec<T>
        ensures { result.items ≡ self }
    {
        let Items { vector } = self;
        vector
    }

    /// The items as a slice.
    pub fn as_slice(&self) -> &[T]
        ensures { result.now ≡ self.now }
    {
        self.vector.as_slice()
    }

    /// How many items there are.
    pub fn len(&self) -> usize
        ensures { result ≡ length self.now }
    {
        self.vector.len()
    }

    /// Whether there is no item.
    pub fn is_empty(&self) -> bool
        ensures { IsTrue result ↔ (self.now ≡ []) }
    {
        self.vector.is_empty()
    }
}

impl<T: Drop> Items<T> {
    /// Puts an item behind the others.
    pub fn push(&mut self, item: T) -> Result<(), Memory>
        ensures ok { OnOk result (self.new ≡ self.old ++ item ∷ []) }
        ensures err { OnErr result (self.new ≡ self.old) }
    {
        self.vector.push(item)?;
        Ok(())
    }

    /// Takes the `place`th item out, those behind it move up, and puts it behind the others of `to`.
    pub fn move_to(&mut self, place: usize, to: &mut Items<T>) -> Result<(), Memory>
        requires { place < length self.old }
        ensures from { OnOk result (self.new ≡ remove self.old place) }
        ensures to { OnOk result (to.new ≡ to.old ++ take 1 (drop place self.old)) }
        ensures err { OnErr result (self.new ≡ self.old) }
        ensures err_to { OnErr result (to.new ≡ to.old) }
    {
        to.vector.reserve(1)?;
        let item = self.vector.remove(place);
        to.vector.push(item)?;
        Ok(())
    }
}

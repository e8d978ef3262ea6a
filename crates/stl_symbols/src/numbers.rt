ghost use Rattle.std.specs.Prelude.{◌≡◌, ℕ, List, [], ◌∷◌, ◌++◌, OnOk, OnErr};
ghost use Rattle.stl_symbols.specs.Numbers.{number_place};

use std::alloc::{AllocError, Global};
use std::collections::BTreeMap;
use std::marker::Model;

/// Numbers in the order in which they came, each with its first place. Contracts see the list of
/// the numbers.
#[derive(Drop)]
pub struct NumberIndex {
    list: Vec<u16>,
    places: BTreeMap<u16, usize>,
}

impl Model for NumberIndex {
    ghost use Rattle.std.specs.Prelude.{◌≡◌, ℕ, List};
    ghost use Rattle.std.specs.BTreeMap.{get};
    ghost use Rattle.std.specs.Ordering.{nat_cmp};
    ghost use Rattle.stl_symbols.specs.Numbers.{number_place};

    ghost Value = { List ℕ };

    ghost view = { λ numbers. numbers.list.items };

    ghost invariant = { λ numbers. (q : ℕ)
        → get nat_cmp numbers.places q ≡ number_place q numbers.list.items };
}

impl NumberIndex {
    /// An index without numbers.
    pub fn new(alloc: Global) -> Self
        ensures { result ≡ [] }
    {
        NumberIndex {
            list: Vec::new(alloc),
            places: BTreeMap::new(alloc),
        }
    }

    /// The first place of a number, counted from 0; none where it isn't among the numbers.
    pub fn place(&self, number: u16) -> Option<usize>
        ensures { result ≡ number_place number self.now }
    {
        self.places.get(&number).copied()
    }

    /// Adds a number behind the others.
    ///
    /// # Errors
    ///
    /// Want of memory; the numbers are then as before.
    pub fn add(&mut self, number: u16) -> Result<(), AllocError>
        ensures ok { OnOk result (self.new ≡ self.old ++ number ∷ []) }
        ensures err { OnErr result (self.new ≡ self.old) }
    {
        if self.places.contains_key(&number) {
            self.list.push(number)?;
            return Ok(());
        }
        self.list.reserve(1)?;
        let place = self.list.len();
        self.places.insert(number, place)?;
        self.list.push(number)?;
        Ok(())
    }
}

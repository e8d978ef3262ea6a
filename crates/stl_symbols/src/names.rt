ghost use Rattle.std.specs.Prelude.{◌≡◌, ℕ, List, [], ◌∷◌, ◌++◌, OnOk, OnErr};
ghost use Rattle.stl_symbols.specs.Names.{name_place};

use std::alloc::{AllocError, Global};
use std::collections::BTreeMap;
use std::marker::Model;

/// Names in the order in which they came, each with its first place. Contracts see the list of the
/// names.
#[derive(Drop)]
pub struct NameIndex {
    list: Vec<Vec<u8>>,
    places: BTreeMap<Vec<u8>, usize>,
}

impl Model for NameIndex {
    ghost use Rattle.std.specs.Prelude.{◌≡◌, ℕ, List, map};
    ghost use Rattle.std.specs.BTreeMap.{get_by};
    ghost use Rattle.std.specs.Cmp.Lexicographic.{slice_cmp};
    ghost use Rattle.std.specs.Ordering.{nat_cmp};
    ghost use Rattle.stl_symbols.specs.Names.{name_place};

    ghost Value = { List (List ℕ) };

    ghost view = { λ names. map (λ v. v.items) names.list.items };

    ghost invariant = { λ names. (q : List ℕ)
        → get_by (λ k. slice_cmp nat_cmp q k.items) names.places
        ≡ name_place q (map (λ v. v.items) names.list.items) };
}

impl NameIndex {
    /// An index without names.
    pub fn new(alloc: Global) -> Self
        ensures { result ≡ [] }
    {
        NameIndex {
            list: Vec::new(alloc),
            places: BTreeMap::new(alloc),
        }
    }

    /// The first place of a name, counted from 0; none where it isn't among the names.
    pub fn place(&self, name: &[u8]) -> Option<usize>
        ensures { result ≡ name_place name.now self.now }
    {
        self.places.get(name).copied()
    }

    /// Adds a name behind the others.
    ///
    /// # Errors
    ///
    /// Want of memory; the names are then as before.
    pub fn add(&mut self, alloc: Global, name: &[u8]) -> Result<(), AllocError>
        ensures ok { OnOk result (self.new ≡ self.old ++ name.now ∷ []) }
        ensures err { OnErr result (self.new ≡ self.old) }
    {
        let own = name.to_vec(alloc)?;
        if self.places.contains_key(name) {
            self.list.push(own)?;
            return Ok(());
        }
        let key = name.to_vec(alloc)?;
        self.list.reserve(1)?;
        let place = self.list.len();
        self.places.insert(key, place)?;
        self.list.push(own)?;
        Ok(())
    }
}

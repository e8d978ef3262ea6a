ghost use Rattle.std.specs.Prelude.{◌≡◌, ◌≤◌, length, map, slice_get, All};
ghost use Rattle.std.specs.Option.{option_map};
ghost use Rattle.plc_base.specs.Folding.{upper_case_name};
ghost use Rattle.stl_symbols.specs.Symbol.{symbol_named};

use crate::names::NameIndex;
use crate::targets::Target;
use std::alloc::{AllocError, Global};
use std::marker::Model;

/// The most bytes of a name.
pub(crate) const LONGEST_NAME: usize = 24;

/// A symbol: its name, as the file has it, and what it names.
#[derive(Drop)]
pub struct Symbol {
    pub name: Vec<u8>,
    pub target: Target,
}

impl Model for Symbol {
    ghost use Rattle.stl_symbols.specs.Symbol.{Symbol as SymbolData};

    ghost Value = { SymbolData };

    ghost view = { λ s. record { name = s.name.items; target = s.target } };
}

impl Symbol {
    /// What the symbol names.
    fn target(&self) -> Target
        ensures { result ≡ self.now.target }
    {
        self.target
    }
}

/// What the symbol at a place names.
fn target_at(list: &[Symbol], place: usize) -> Option<Target>
    ensures { result ≡ option_map (λ symbol. symbol.target) (slice_get list.now place) }
{
    list.get(place).map(|symbol| symbol.target())
}

/// What the symbol of a name names, by the names with the letters a to z as A to Z.
#[tactic(auto, using(crate::proofs::SymbolLemmas::symbol_placed, crate::proofs::SymbolLemmas::no_long_name))]
fn target_named(list: &[Symbol], names: &NameIndex, name: &[u8]) -> Option<Target>
    requires names { names.now ≡ map (λ symbol. upper_case_name symbol.name) list.now }
    requires short { All (λ symbol. length symbol.name ≤ 24) list.now }
    ensures { result ≡ option_map (λ symbol. symbol.target) (symbol_named name.now list.now) }
{
    let mut buffer = [0u8; LONGEST_NAME];
    let upper = buffer.get_mut(..name.len())?;
    upper.copy_from_slice(name);
    upper.make_ascii_uppercase();
    let place = names.place(upper)?;
    target_at(list, place)
}

/// The symbols of a file, in the order of its lines. Contracts see their list.
#[derive(Drop)]
pub struct Symbols {
    list: Vec<Symbol>,
    names: NameIndex,
}

impl Model for Symbols {
    ghost use Rattle.std.specs.Prelude.{◌≡◌, ◌≤◌, ℕ, List, map, length, All};
    ghost use Rattle.plc_base.specs.Folding.{upper_case_name};
    ghost use Rattle.stl_symbols.specs.Symbol.{Symbol as SymbolData};

    ghost Value = { List SymbolData };

    ghost view = { λ s. s.list.items };

    ghost invariant = { λ s.
        (s.names ≡ map (λ symbol. upper_case_name symbol.name) s.list.items)
        × All (λ symbol. length symbol.name ≤ 24) s.list.items };
}

impl Symbols {
    ghost use Rattle.std.specs.Prelude.{◌≡◌, ◌≤◌, [], ◌∷◌, ◌++◌, length, IfOk};
    ghost use Rattle.std.specs.Option.{option_map};
    ghost use Rattle.stl_symbols.specs.Symbol.{symbol_named};

    /// A table without symbols.
    pub(crate) fn new(alloc: Global) -> Self
        ensures { result ≡ [] }
    {
        Symbols {
            list: Vec::new(alloc),
            names: NameIndex::new(alloc),
        }
    }

    /// All symbols, in the order of their lines.
    pub fn list(&self) -> &[Symbol]
        ensures { result.now ≡ self.now }
    {
        self.list.as_slice()
    }

    /// What the symbol of this name names, whatever the case of ASCII letters; `None` exactly where
    /// no symbol has the name.
    pub fn lookup(&self, name: &[u8]) -> Option<Target>
        ensures { result
            ≡ option_map (λ symbol. symbol.target) (symbol_named name.now self.now) }
    {
        target_named(self.list.as_slice(), &self.names, name)
    }

    /// Adds a symbol behind the others.
    pub(crate) fn add(&mut self, alloc: Global, symbol: Symbol) -> Result<(), AllocError>
        requires { length symbol.name ≤ 24 }
        ensures { IfOk result (λ _. self.new ≡ self.old ++ symbol ∷ []) }
    {
        let folded = symbol.name.to_ascii_uppercase(alloc)?;
        self.list.reserve(1)?;
        self.names.add(alloc, folded.as_slice())?;
        self.list.push(symbol)?;
        Ok(())
    }
}

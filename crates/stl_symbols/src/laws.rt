//! A law of the definitions that contracts cite: a function with an empty body.

ghost use Rattle.stl_symbols.specs.Laws.{SymbolsAreRight};

/// The symbols of a file have names of one to 24 bytes, none of them twice, and name what an
/// address of either language names.
pub fn law_of_symbols()
    ensures { SymbolsAreRight }
{}

ghost use Rattle.std.specs.Prelude.{◌≡◌, ◌++◌, IfOk};
ghost use Rattle.std.specs.List.{flat_map};
ghost use Rattle.stl_symbols.specs.declared.targets.Target.TheVariants as targets;
ghost use Rattle.stl_codegen.specs.GeneratedProgram.{has_name, name_entry};

use flat_code::NameEntry;
use plc_base::{Area, Place, Width};
use std::alloc::{AllocError, Global};
use stl_symbols::{Symbol, Target};

/// Whether the variables of an area have their names in the program.
fn has_name(area: Area) -> bool
    ensures { result ≡ has_name area }
{
    matches!(area, Area::I | Area::Q | Area::M)
}

fn add_variable(
    alloc: Global,
    names: &mut Vec<NameEntry>,
    name: &[u8],
    place: Place,
    width: Width,
) -> Result<(), AllocError>
    ensures { IfOk result (λ _. names.new.items
        ≡ names.old.items ++ name_entry name.now (targets.Variable place width)) }
{
    if has_name(place.area) {
        names.push(NameEntry {
            name: name.to_ascii_uppercase(alloc)?,
            place,
            width,
        })?;
    }
    Ok(())
}

/// Adds the name of a symbol, if it is that of a variable in I, Q or M.
fn add_name(alloc: Global, names: &mut Vec<NameEntry>, symbol: &Symbol) -> Result<(), AllocError>
    ensures { IfOk result (λ _. names.new.items
        ≡ names.old.items ++ name_entry symbol.now.name symbol.now.target) }
{
    match symbol.target {
        Target::Variable { place, width } => {
            add_variable(alloc, names, symbol.name.as_slice(), place, width)
        }
        _ => Ok(()),
    }
}

/// The names of the variables in I, Q and M, in the order of the symbols.
pub(crate) fn names_of(alloc: Global, symbols: &[Symbol]) -> Result<Vec<NameEntry>, AllocError>
    ensures { IfOk result (λ names. names.items
        ≡ flat_map (λ s. name_entry s.name s.target) symbols.now) }
{
    let mut names = Vec::new(alloc);
    for symbol in symbols {
        add_name(alloc, &mut names, symbol)?;
    }
    Ok(names)
}

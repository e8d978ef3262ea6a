//! Adding to a list of whatever elements.
ghost use Rattle.std.specs.Prelude.{◌≡◌, ◌++◌, [], ◌∷◌, OnOk};

use std::alloc::AllocError;

/// Adds an element to a list. It is generic because no proof is found of std's own call at a
/// type that holds requests.
pub fn add<T: Drop>(list: &mut Vec<T>, element: T) -> Result<(), AllocError>
    ensures { OnOk result (list.new.items ≡ list.old.items ++ element ∷ []) }
{
    list.push(element)?;
    Ok(())
}

ghost use Rattle.std.specs.Prelude.{◌≡◌, false, is_some, map};
ghost use Rattle.std.specs.List.{slice_get};
ghost use Rattle.std.specs.Option.{option_copied};
ghost use Rattle.plc_base.specs.Kinds.{is_data_block};
ghost use Rattle.block_layout.specs.Blocks.{found_block};
ghost use Rattle.block_layout.specs.Members.{component_of_name};
ghost use Rattle.block_layout.specs.NameLists.{HaveParameters};
ghost use Rattle.block_layout.specs.Paths.{
  cells_at,
  elementary_at,
  if_whole,
  path_end_in_data_block,
  path_end_of_local,
  whole_at,
};

use crate::blocks::BlockLayout;
use crate::cells::Cell;
use crate::laying::Layouts;
use crate::path_ends::{ComponentAt, PathEnd, layout_at};
use crate::paths::Path;
use crate::routes::{elementary_at, has_component, if_whole, walk_data, walk_local, whole_at};
use crate::types::named_block;
use plc_base::BlockKind;
use stl_ast::{BlockName, Simple};
use stl_symbols::Symbols;

impl Layouts {
    /// The block at this place, where it breaks no rule as a whole.
    pub fn whole_at(&self, block: usize) -> Option<&BlockLayout>
        ensures { option_copied result ≡ whole_at self.now block }
    {
        whole_at(self.list(), block)
    }

    /// The place of a block in the source, where the block is there and breaks no rule as a whole.
    pub fn if_whole(&self, block: usize) -> Option<usize>
        ensures { result ≡ if_whole self.now block }
    {
        if_whole(self.list(), block)
    }

    /// The place of the data block of the source that a name means.
    pub fn data_block(&self, symbols: &Symbols, name: &BlockName) -> Option<usize>
        ensures { result
            ≡ found_block symbols.now (map (λ b. b.id) self.now) is_data_block name.now }
    {
        let id = named_block(symbols, name)?;
        match id.kind {
            BlockKind::Db => self.place(id),
            _ => None,
        }
    }

    /// The declarations of the block at this place: those of VAR_TEMP, or all others. None where
    /// the source has no such block.
    pub fn cells(&self, block: usize, temporary: bool) -> &[Cell]
        ensures { result.now ≡ cells_at self.now block temporary }
    {
        match layout_at(self.list(), block, temporary) {
            None => &[],
            Some(layout) => layout.cells(),
        }
    }

    /// The first declarations of the block at this place, outside VAR_TEMP: all its parameters are
    /// among them. None where the source has no such block.
    pub fn parameters(&self, block: usize) -> &[Cell]
        ensures { HaveParameters (cells_at self.now block false) result.now }
    {
        match layout_at(self.list(), block, false) {
            None => &[],
            Some(layout) => layout.parameters(),
        }
    }

    /// The declaration of a component.
    pub fn cell_at(&self, component: ComponentAt) -> Option<&Cell>
        ensures { option_copied result
            ≡ slice_get (cells_at self.now component.block component.temporary) component.place }
    {
        let layout = layout_at(self.list(), component.block, component.temporary)?;
        layout.cell_at(component.place)
    }

    /// The elementary type of a component; none of an array or a structure.
    pub fn elementary_at(&self, component: ComponentAt) -> Option<Simple>
        ensures { result ≡ elementary_at self.now component }
    {
        elementary_at(self.list(), component)
    }

    /// Whether a block has a variable of this name, in upper case, outside VAR_TEMP.
    pub fn has_component(&self, block: usize, name: &[u8]) -> bool
        ensures { result
            ≡ is_some (component_of_name 0 0 0 name.now (cells_at self.now block false)) }
    {
        has_component(self.list(), block, name)
    }

    /// Where a path in the body of a block leads, into its own variables: a name in upper case, and
    /// the steps behind it.
    pub fn walk_local(&self, block: usize, name: &[u8], path: &Path) -> PathEnd
        ensures { result ≡ path_end_of_local self.now block name.now path.now }
    {
        walk_local(self.list(), block, name, path.steps())
    }

    /// Where a path into a data block leads.
    pub fn walk_data(&self, block: usize, path: &Path) -> PathEnd
        ensures { result ≡ path_end_in_data_block self.now block path.now }
    {
        walk_data(self.list(), block, path.steps())
    }
}

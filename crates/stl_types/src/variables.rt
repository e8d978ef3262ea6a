ghost use Rattle.std.specs.Prelude.{◌≡◌, length};
ghost use Rattle.std.specs.List.{slice_get};
ghost use Rattle.block_layout.specs.Paths.{cells_at, elementary_at};
ghost use Rattle.stl_types.specs.Variables.{
  behind_others,
  composite_operand,
  data_at,
  data_variable,
  data_at_path_end,
  date_or_composite,
  variable_in_area,
  is_temporary_variable,
  own_at,
  own_elementary,
  own_variable,
  own_at_path_end,
  parameter_at,
  parameter_index,
};

use crate::contexts::Context;
use crate::resolved_operands::{Resolution, ResolvedOperand, Side};
use block_layout::{ComponentAt, Element, Path, PathEnd, elementary_place};
use plc_base::{Area, Place, Width};
use stl_ast::{BlockName, Simple};

/// What isn't elementary.
fn date_or_composite(of: Element) -> ResolvedOperand
    ensures { result ≡ date_or_composite of }
{
    match of {
        Element::DateAndTime => ResolvedOperand::Date,
        _ => ResolvedOperand::Composite,
    }
}

/// A variable of a type in an area.
fn in_area(kind: Simple, found: Option<(Place, Width)>) -> Resolution
    ensures { result ≡ variable_in_area kind found }
{
    match found {
        None => Resolution::Unjudged,
        Some((place, width)) => Resolution::Resolved {
            view: ResolvedOperand::Direct {
                place,
                width,
                side: Side::Both,
                declared: Some(kind),
            },
        },
    }
}

/// The place of a parameter in a call: those declared in their order, and the return value, which
/// is the first of the components, behind them.
fn behind_others(count: usize, place: usize, returned: Option<Simple>) -> usize
    ensures { result ≡ behind_others count place returned }
{
    match returned {
        None => place,
        Some(_) => {
            if place == 0 {
                count.saturating_sub(1)
            } else {
                place - 1
            }
        }
    }
}

impl<'a> Context<'a> {
    /// The structure, the array or the DATE_AND_TIME that a component is.
    fn composite(&self, component: ComponentAt) -> ResolvedOperand
        ensures { result ≡ composite_operand
            (slice_get (cells_at self.now.layouts component.block component.temporary)
            component.place) }
    {
        match self.layouts().cell_at(component) {
            None => ResolvedOperand::Composite,
            Some(cell) => date_or_composite(cell.of),
        }
    }

    /// The place in a call of the parameter of this block that is one of so many components.
    fn parameter_index(&self, count: usize, place: usize) -> usize
        ensures { result
            ≡ parameter_index count place (slice_get self.now.blocks self.now.block) }
    {
        match self.tree().blocks.as_slice().get(self.block()) {
            None => place,
            Some(block) => behind_others(count, place, block.result),
        }
    }

    /// A parameter of the function that has the body.
    fn parameter_at(&self, component: ComponentAt, kind: Simple) -> Resolution
        ensures { result ≡ parameter_at self.now component kind }
    {
        let cells = self.layouts().cells(self.block(), false);
        let index = self.parameter_index(cells.len(), component.place);
        match cells.get(component.place) {
            None => Resolution::Unjudged,
            Some(cell) => Resolution::Resolved {
                view: ResolvedOperand::Parameter {
                    index,
                    section: cell.section,
                    declared: kind,
                },
            },
        }
    }

    /// Whether the first name of a path, in upper case, is that of a temporary variable.
    fn is_temporary_variable(&self, name: &[u8]) -> bool
        ensures { result ≡ is_temporary_variable self.now name.now }
    {
        !self.layouts().has_component(self.block(), name)
    }

    /// An elementary variable of the block: a temporary one lies in the local data, a parameter of
    /// a function is bound at its call, and each variable of a function block lies in the data
    /// block of the DI register.
    fn own_elementary(&self, temporary: bool, component: ComponentAt, kind: Simple) -> Resolution
        ensures { result ≡ own_elementary self.now temporary component kind }
    {
        if temporary {
            return in_area(kind, elementary_place(Area::L, 0, component.offset, kind));
        }
        if self.in_function() {
            return self.parameter_at(component, kind);
        }
        in_area(kind, elementary_place(Area::Di, 0, component.offset, kind))
    }

    fn own_at(&self, temporary: bool, component: ComponentAt) -> Resolution
        ensures { result
            ≡ own_at self.now temporary component (elementary_at self.now.layouts component) }
    {
        match self.layouts().elementary_at(component) {
            None => Resolution::Resolved {
                view: self.composite(component),
            },
            Some(kind) => self.own_elementary(temporary, component, kind),
        }
    }

    fn own_at_path_end(&self, temporary: bool, path_end: PathEnd) -> Resolution
        ensures { result ≡ own_at_path_end self.now temporary path_end }
    {
        match path_end {
            PathEnd::Reaches { component } => self.own_at(temporary, component),
            PathEnd::Unknown => Resolution::Unknown,
            PathEnd::Unjudged => Resolution::Unjudged,
        }
    }

    /// What a path into the block's own variables names: a name in upper case, and the steps behind
    /// it.
    pub(crate) fn own_variable(&self, name: &[u8], path: &Path) -> Resolution
        ensures { result ≡ own_variable self.now name.now path.now }
    {
        let path_end = self.layouts().walk_local(self.block(), name, path);
        self.own_at_path_end(self.is_temporary_variable(name), path_end)
    }

    fn data_at(&self, number: u16, component: ComponentAt) -> Resolution
        ensures { result
            ≡ data_at self.now number component (elementary_at self.now.layouts component) }
    {
        match self.layouts().elementary_at(component) {
            None => Resolution::Resolved {
                view: self.composite(component),
            },
            Some(kind) => in_area(
                kind,
                elementary_place(Area::Db, number, component.offset, kind),
            ),
        }
    }

    fn data_at_path_end(&self, number: u16, path_end: PathEnd) -> Resolution
        ensures { result ≡ data_at_path_end self.now number path_end }
    {
        match path_end {
            PathEnd::Reaches { component } => self.data_at(number, component),
            PathEnd::Unknown => Resolution::Unknown,
            PathEnd::Unjudged => Resolution::Unjudged,
        }
    }

    /// What a path into a data block names.
    pub(crate) fn data_variable(&self, name: &BlockName, path: &Path) -> Resolution
        ensures { result ≡ data_variable self.now name.now path.now }
    {
        let Some(number) = self.data_number(name) else {
            return Resolution::Unjudged;
        };
        let Some(block) = self.data_place(name) else {
            return Resolution::Unjudged;
        };
        self.data_at_path_end(number, self.layouts().walk_data(block, path))
    }
}

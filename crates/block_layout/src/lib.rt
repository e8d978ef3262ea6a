//! Where the declarations of a source lie: sizes, offsets, paths, local data, and the rules on
//! them.
#![tactic(auto)]

mod alone;
mod beyond;
mod blocks;
mod breaches;
mod building;
mod bytes;
mod cells;
mod constants;
mod cycles;
mod declaration_facts;
mod declarations;
mod directory;
mod excess;
mod filling;
mod laws;
mod laying;
mod layouts;
mod lengths;
mod lookups;
mod making;
mod measures;
mod members;
mod offsets;
mod outlines;
mod path_ends;
mod paths;
mod refusals;
mod routes;
mod rules;
mod sections;
mod settings;
mod sizes;
mod starts;
mod types;

pub use blocks::{BlockLayout, Section, Shape};
pub use cells::{Cell, Element, Preset};
pub use constants::{bits_of, fits};
pub use laws::{law_of_listed_parameters, law_of_offsets, law_of_paths, law_of_rebuilt_bytes};
pub use laying::{Layouts, lay_out, lay_out_sound};
pub use layouts::Layout;
pub use members::{Member, NameList};
pub use offsets::{elementary_place, width_of};
pub use path_ends::{ComponentAt, PathEnd};
pub use paths::Path;
pub use rules::rule_52::is_parameter;
pub use sizes::plain_bits;
pub use types::named_block;

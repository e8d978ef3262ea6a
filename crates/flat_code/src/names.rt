ghost use Rattle.std.specs.Prelude.{◌≡◌};
ghost use Rattle.std.specs.Cmp.Lexicographic.{slice_cmp};
ghost use Rattle.std.specs.Ordering.{nat_cmp};
ghost use Rattle.plc_base.specs.Folding.{upper_case_name};
ghost use Rattle.flat_code.specs.Faults.{ends_blank, is_earlier_name, is_upper};
ghost use Rattle.flat_code.specs.Names.{IsNames, find as found_among};

use plc_base::{Place, Width};
use std::cmp::Ordering;
use std::marker::Model;

/// A name of a variable: its bytes, in upper case, and the variable's place and width.
#[derive(Drop)]
pub struct NameEntry {
    pub name: Vec<u8>,
    pub place: Place,
    pub width: Width,
}

impl Model for NameEntry {
    ghost use Rattle.flat_code.specs.Programs.{NameEntry as NameEntryData};

    ghost Value = { NameEntryData };

    ghost view = { λ e. record { name = e.name.items; place = e.place; width = e.width } };
}

impl NameEntry {
    ghost use Rattle.std.specs.Prelude.{◌≡◌, ◌&&◌};
    ghost use Rattle.flat_code.specs.Faults.{is_earlier_name, is_upper};

    /// Whether the name is in upper case and stands after another in the order of bytes.
    fn stands_after(&self, before: &[u8]) -> bool
        ensures { result ≡ (is_earlier_name before.now self.now.name && is_upper self.now.name) }
    {
        let name = self.name.as_slice();
        is_name_before(before, name) && is_upper_case(name)
    }

    /// The place and width of the variable.
    fn variable(&self) -> (Place, Width)
        ensures { result ≡ (self.now.place, self.now.width) }
    {
        (self.place, self.width)
    }
}

/// Whether a name stands before another in the order of their bytes; a name stands before those
/// that it begins.
#[tactic(auto, using(crate::proofs::NameLemmas::before_is_less))]
pub fn is_name_before(before: &[u8], name: &[u8]) -> bool
    ensures { result ≡ is_earlier_name before.now name.now }
{
    before.cmp(name).is_lt()
}

/// Whether no byte of a name is a letter a to z.
pub fn is_upper_case(name: &[u8]) -> bool
    ensures { result ≡ is_upper name.now }
{
    name.iter().all(|byte: &u8| !byte.is_ascii_lowercase())
}

/// Whether the last byte of a name is a blank.
pub fn ends_blank(name: &[u8]) -> bool
    ensures { result ≡ ends_blank name.now }
{
    let mut blank = false;
    for x in name {
        blank = *x == 32;
    }
    blank
}

/// How a name in upper case compares with a name in any case.
pub fn order_of(upper: &[u8], name: &[u8]) -> Ordering
    ensures { result ≡ slice_cmp nat_cmp upper.now (upper_case_name name.now) }
{
    upper
        .iter()
        .copied()
        .cmp(name.iter().map(|byte: &u8| byte.to_ascii_uppercase()))
}

/// The place and width of the variable that has the name.
fn variable_of(list: &[NameEntry], name: &[u8]) -> Option<(Place, Width)>
    requires { IsNames list.now }
    ensures { result ≡ found_among list.now name.now }
{
    let found = list.binary_search_by(|entry: &NameEntry| order_of(entry.name.as_slice(), name));
    match found {
        Ok(at) => Some(list[at].variable()),
        Err(_) => None,
    }
}

/// The names of the variables of a program, in upper case and in the order of their bytes.
#[derive(Drop)]
pub struct Names {
    list: Vec<NameEntry>,
}

impl Model for Names {
    ghost use Rattle.std.specs.Prelude.{List};
    ghost use Rattle.flat_code.specs.Programs.{NameEntry as NameEntryData};
    ghost use Rattle.flat_code.specs.Names.{IsNames};

    ghost Value = { List NameEntryData };

    ghost view = { λ n. n.list.items };

    ghost invariant = { λ n. IsNames n.list.items };
}

impl Names {
    ghost use Rattle.std.specs.Prelude.{◌≡◌, []};
    ghost use Rattle.flat_code.specs.Names.{IsNames, names_rise, find as found_among};

    /// Whether names are in upper case and rise strictly in the order of their bytes, as those of a
    /// program do. None is empty then, and none stands twice.
    pub fn are_in_order(list: &[NameEntry]) -> bool
        ensures { result ≡ names_rise [] list.now }
    {
        let mut before: &[u8] = &[];
        for entry in list {
            if !entry.stands_after(before) {
                return false;
            }
            before = entry.name.as_slice();
        }
        true
    }

    /// Takes the list over.
    pub fn new(list: Vec<NameEntry>) -> Self
        requires { IsNames list.items }
        ensures { result ≡ list.items }
    {
        Names { list }
    }

    /// The names as a slice.
    pub fn as_slice(&self) -> &[NameEntry]
        ensures { result.now ≡ self.now }
    {
        self.list.as_slice()
    }

    /// The place and width of the variable of this name, whatever the case of its letters A to Z;
    /// `None` where no variable has it.
    pub fn find(&self, name: &[u8]) -> Option<(Place, Width)>
        ensures { result ≡ found_among self.now name.now }
    {
        variable_of(self.list.as_slice(), name)
    }
}

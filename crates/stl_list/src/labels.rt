//! The labels of statements.
ghost use Rattle.std.specs.Prelude.{◌≡◌, ◌<◌, ◌∷◌, IfOk};
ghost use Rattle.stl_list.specs.Labels.{base_36_digit, label_of_number, three_digits};

use plc_base::NoMemory;
use std::alloc::Global;
use stl_ast::Name;

/// How many numbers have three digits of base 36.
const NUMBERS: usize = 46_656;

/// A digit of base 36.
fn digit(n: usize) -> u8
    requires { n < 36 }
    ensures { result ≡ base_36_digit n }
{
    if n < 10 {
        b'0' + n as u8
    } else {
        b'A' + (n - 10) as u8
    }
}

/// A letter and three digits.
fn label(alloc: Global, letter: u8, n: usize) -> Result<Name, NoMemory>
    ensures { IfOk result (λ name. name ≡ letter ∷ three_digits n) }
{
    let bytes = [
        letter,
        digit(n / 1_296 % 36),
        digit(n / 36 % 36),
        digit(n % 36),
    ];
    Name::new(alloc, &bytes)
}

/// The label of the statement of a number.
#[tactic(auto, unfolding(crate::specs::Labels::label_of_number))]
pub(crate) fn label_of_number(alloc: Global, n: usize) -> Result<Name, NoMemory>
    ensures { IfOk result (λ name. name ≡ label_of_number n) }
{
    if n < NUMBERS {
        label(alloc, b'_', n)
    } else {
        label(alloc, b'Z', n - NUMBERS)
    }
}

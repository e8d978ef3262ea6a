ghost use Rattle.std.specs.Prelude.{◌≡◌, ◌++◌, ◌≤◌, OnOk};
ghost use Rattle.stl_print.specs.Digits.{digit_character, digits_in_base};

use plc_base::NoMemory;

/// A digit, from ten on a letter in upper case.
fn digit(value: u8) -> u8
    requires { value ≤ 15 }
    ensures { result ≡ digit_character value }
{
    if value < 10 {
        b'0' + value
    } else {
        b'A' + (value - 10)
    }
}

/// Appends the lowest hexadecimal digits of a number, so many, in upper case.
#[tactic(auto, unfolding(crate::specs::Digits::digits_in_base))]
pub(crate) fn append_hex_digits(count: u32, number: u32, out: &mut Vec<u8>) -> Result<(), NoMemory>
    requires { count ≤ 8 }
    ensures { OnOk result (out.new.items ≡ out.old.items ++ digits_in_base 16 count number) }
{
    for place in (0..count).rev() {
        out.push(digit(((number >> (4 * place)) % 16) as u8))?;
    }
    Ok(())
}

/// Appends the lowest binary digits of a number, so many.
#[tactic(auto, unfolding(crate::specs::Digits::digits_in_base))]
pub(crate) fn append_binary_digits(
    count: u32,
    number: u32,
    out: &mut Vec<u8>,
) -> Result<(), NoMemory>
    requires { count ≤ 32 }
    ensures { OnOk result (out.new.items ≡ out.old.items ++ digits_in_base 2 count number) }
{
    for place in (0..count).rev() {
        out.push(digit(((number >> place) % 2) as u8))?;
    }
    Ok(())
}

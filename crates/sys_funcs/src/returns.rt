ghost use Rattle.std.specs.Prelude.{◌≡◌};
ghost use Rattle.sys_funcs.specs.Results.{br_of, with_br};

use frames::Activation;

/// Sets the binary result BR.
pub fn set_br(a: &mut Activation, br: bool)
    ensures { a.new ≡ with_br br a.old }
{
    a.running.regs.status.br = br;
}

/// Sets BR by an INT return value, 0 for an error code 16#8080 to 16#80FF, and hands the value on.
pub fn returned_value(a: &mut Activation, value: u32) -> u32
    ensures value { result ≡ value }
    ensures br { a.new ≡ with_br (br_of value) a.old }
{
    let failed = (0x8080..=0x80FF).contains(&value);
    set_br(a, !failed);
    value
}

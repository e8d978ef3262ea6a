use arrayvec::ArrayVec;
use std::marker::Model;

/// One to four bytes: those of a character literal, or of `B#(..)`. Contracts see them as a list.
#[derive(Drop)]
pub struct Characters {
    bytes: ArrayVec<u8, 4>,
}

impl Model for Characters {
    ghost use Rattle.std.specs.Prelude.{ℕ, List};

    ghost Value = { List ℕ };

    ghost view = { λ c. c.bytes.items };
}

impl Characters {
    ghost use Rattle.std.specs.Prelude.{◌≡◌, ◌≤◌, length};

    /// These bytes.
    pub fn new(bytes: ArrayVec<u8, 4>) -> Self
        ensures { result ≡ bytes.items }
    {
        Characters { bytes }
    }

    /// The bytes, the first one first.
    pub fn as_slice(&self) -> &[u8]
        ensures bytes { result.now ≡ self.now }
        ensures count { length self.now ≤ 4 }
    {
        self.bytes.as_slice()
    }
}

/// A constant of the source. `Number` is a decimal number with its sign, `Binary` is `2#..`,
/// `Byte` is `B#16#..`, `Word` is `W#16#..`, `Dword` is `DW#16#..`, `Long` is `L#..`, `Count` is
/// `C#..`, `Time` is `T#..` in milliseconds, `S5time` is `S5T#..` in milliseconds as it is written,
/// `Characters` is `'..'`, `Bytes` is `B#(a,b)` or `B#(a,b,c,d)`.
#[derive(Drop)]
pub enum Literal {
    Truth { value: bool },
    Number { value: i32 },
    Binary { value: u32 },
    Byte { value: u8 },
    Word { value: u16 },
    Dword { value: u32 },
    Long { value: i32 },
    Count { value: u16 },
    Time { ms: i32 },
    S5time { ms: u32 },
    Characters { bytes: Characters },
    Bytes { bytes: Characters },
}

//! What a locked value stands for.
ghost use Rattle.std.specs.Prelude.{◌≡◌, ℕ, ◌^◌, ◌<◌, List, length};

/// A value with an origin, which stands for a list of entries. Each entry has a maker.
pub trait Storied {
    /// What a value stems from.
    type Origin;

    /// A member of the list.
    type Entry;

    ghost origin: { Self → Self.Origin };

    ghost story: { Self → List Self.Entry };

    ghost maker: { Self.Entry → ℕ };

    /// How many entries the list has.
    fn story_len(&self) -> u64
        requires { length (story self.now) < 2 ^ 64 }
        ensures { result ≡ length (story self.now) };
}

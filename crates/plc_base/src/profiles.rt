ghost use Rattle.std.specs.Prelude.{◌≡◌};
ghost use Rattle.plc_base.specs.Profiles.{bit_memory_size, timer_count, counter_count, most_frames};

/// The sizes that a controller has.
#[derive(Clone, Copy, Debug, PartialEq, Eq)]
pub enum Profile {
    Small,
    Large,
}

impl Profile {
    /// How many bytes bit memory has.
    pub fn bit_memory_size(self) -> usize
        ensures { result ≡ bit_memory_size self }
    {
        match self {
            Profile::Small => 256,
            Profile::Large => 2048,
        }
    }

    /// How many timers there are.
    pub fn timer_count(self) -> usize
        ensures { result ≡ timer_count self }
    {
        match self {
            Profile::Small => 128,
            Profile::Large => 256,
        }
    }

    /// How many counters there are.
    pub fn counter_count(self) -> usize
        ensures { result ≡ counter_count self }
    {
        match self {
            Profile::Small => 64,
            Profile::Large => 256,
        }
    }

    /// How many frames an activation has at most.
    pub fn most_frames(self) -> usize
        ensures { result ≡ most_frames self }
    {
        match self {
            Profile::Small => 16,
            Profile::Large => 24,
        }
    }
}

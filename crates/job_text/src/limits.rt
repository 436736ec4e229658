//! The limits of a format of jobs, and its defaults.

ghost use Rattle.std.specs.Prelude.{◌≡◌};
ghost use Rattle.job_text.specs.Limits.{is_within};

/// Which numbers a field may have: from `least` to `most`, and multiples of `multiple` alone. Of 0 there are none.
#[derive(Clone, Copy)]
pub struct Bounds {
    pub least: u32,
    pub most: u32,
    pub multiple: u32,
}

/// A number that one line of a job may set.
#[derive(Clone, Copy)]
pub struct Setting {
    pub bounds: Bounds,
    /// Its value where no line sets it.
    pub default: u32,
}

/// The limits of a format, and its defaults.
#[derive(Clone, Copy)]
pub struct Limits {
    /// How many bytes the memory has.
    pub memory: Setting,
    /// For how many descriptors there is room.
    pub descriptors: Setting,
    /// How many bytes each stack has.
    pub stack: Setting,
    /// The most steps of the run.
    pub steps: Setting,
    /// Whether the mode is lazy where no line says it.
    pub lazy: bool,
    /// How many addresses a place line has at most. It has at least one.
    pub addresses: u32,
    /// How many place lines there are at most.
    pub places: u32,
    /// The most threads.
    pub threads: u32,
    /// The number of a turn's thread.
    pub thread: Bounds,
    /// The most steps of a turn.
    pub count: Bounds,
    /// How many turn lines there are at most.
    pub turns: u32,
}

/// The limits of `fdpic-job 1`.
pub const FORMAT_1: Limits = Limits {
    memory: Setting {
        bounds: Bounds {
            least: 65_536,
            most: 8_388_608,
            multiple: 4_096,
        },
        default: 1_048_576,
    },
    descriptors: Setting {
        bounds: Bounds {
            least: 1,
            most: 4_096,
            multiple: 1,
        },
        default: 64,
    },
    stack: Setting {
        bounds: Bounds {
            least: 256,
            most: 65_536,
            multiple: 16,
        },
        default: 1_024,
    },
    steps: Setting {
        bounds: Bounds {
            least: 1,
            most: 1_000_000,
            multiple: 1,
        },
        default: 1_000_000,
    },
    lazy: true,
    addresses: 8,
    places: 1_024,
    threads: 8,
    thread: Bounds {
        least: 0,
        most: 7,
        multiple: 1,
    },
    count: Bounds {
        least: 1,
        most: 1_000_000,
        multiple: 1,
    },
    turns: 65_536,
};

impl Bounds {
    /// Whether a field may have this number.
    pub fn contains(&self, n: u32) -> bool
        ensures { result ≡ is_within self.now n }
    {
        self.least <= n && n <= self.most && self.multiple > 0 && n % self.multiple == 0
    }
}

//! The options by their names, the numbers that they take, and those that they have where they are not given.

ghost use Rattle.std.specs.Prelude.{◌≡◌, ◌++◌, codes};
ghost use Rattle.group_words.specs.Options as spec;

/// What an option sets.
#[derive(Clone, Copy, Debug, PartialEq, Eq)]
pub enum Setting {
    Members,
    Agents,
    Locks,
    Records,
    Cache,
    Pool,
    Pages,
    Seed,
    Trace,
}

/// The options that take a number.
const NUMBERED: [Setting; 8] = [
    Setting::Members,
    Setting::Agents,
    Setting::Locks,
    Setting::Records,
    Setting::Cache,
    Setting::Pool,
    Setting::Pages,
    Setting::Seed,
];

impl Setting {
    /// Its name without the hyphens.
    pub fn name(self) -> &'static str
        ensures { result.now ≡ spec.plain_name self }
    {
        match self {
            Setting::Members => "members",
            Setting::Agents => "agents",
            Setting::Locks => "locks",
            Setting::Records => "records",
            Setting::Cache => "cache",
            Setting::Pool => "pool",
            Setting::Pages => "pages",
            Setting::Seed => "seed",
            Setting::Trace => "trace",
        }
    }

    /// The least and the greatest number that it takes.
    pub fn range(self) -> (u64, u64)
        ensures least { result.0 ≡ (spec.rule_of self).least }
        ensures greatest { result.1 ≡ (spec.rule_of self).greatest }
    {
        match self {
            Setting::Members => (1, 32),
            Setting::Agents => (1, 16),
            Setting::Locks => (1, 65_536),
            Setting::Records => (2, 65_536),
            Setting::Cache => (4, 65_536),
            Setting::Pool => (4, 4_096),
            Setting::Pages => (1, 65_536),
            Setting::Seed => (0, u64::MAX),
            Setting::Trace => (1, 1),
        }
    }

    /// The number where the option is not given.
    pub fn usual(self) -> u64
        ensures { result ≡ (spec.rule_of self).usual }
    {
        match self {
            Setting::Members => 4,
            Setting::Agents => 8,
            Setting::Locks => 4_096,
            Setting::Records => 16_384,
            Setting::Cache => 1_024,
            Setting::Pool => 256,
            Setting::Pages => 4_096,
            Setting::Seed | Setting::Trace => 0,
        }
    }
}

/// The option of this name that takes a number.
pub fn setting_named(name: &str) -> Option<Setting>
    ensures { result ≡ spec.setting_of (codes "--" ++ name.now) }
{
    NUMBERED.iter().copied().find(|s| s.name() == name)
}

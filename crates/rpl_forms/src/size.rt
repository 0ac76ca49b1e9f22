// Sizes and depths of cores, and their limits.
ghost use Rattle.std.specs.Prelude.{◌≤◌};

/// The greatest number of nodes that a core may have.
pub const MAX_SIZE: u32 = 65_536;

/// The greatest depth that a core may have.
pub const MAX_DEPTH: u32 = 1_024;

/// The number of the built-in rule `halt`, the second rule of each table.
pub const HALT: u32 = 1;

/// The number of nodes in a core, and how deeply they are nested. Each of the two numbers saturates
/// at one above its limit.
#[derive(Clone, Copy, Debug)]
pub struct Count {
    pub size: u32,
    pub depth: u32,
    ghost few: { size ≤ 65537 },
    ghost flat: { depth ≤ 1025 },
}

/// What is known about a rule's inlined body: the body's count, and the number of the first rule in
/// the rule's chain of calls. That first rule has the same inlined body.
#[derive(Clone, Copy, Debug)]
pub struct Inner {
    pub count: Count,
    pub rule: u32,
}

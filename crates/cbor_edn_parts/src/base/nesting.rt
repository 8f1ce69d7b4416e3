//! How deep items may nest.

/// How many levels deep arrays, maps, tags, `simple(..)` and embedded sequences may nest where no limit is given. By the tests a stack of
/// 1 MB holds them.
pub const NESTING_LIMIT: usize = 512;

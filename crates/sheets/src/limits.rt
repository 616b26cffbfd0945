/// How many bytes a sheet's text may have.
pub const TEXT_LIMIT: usize = 65_536;

/// How many states a sheet may have.
pub const STATE_LIMIT: usize = 128;

/// How many moves a sheet may have.
pub const MOVE_LIMIT: usize = 1024;

/// How many formula lines a sheet may have.
pub const ROW_LIMIT: usize = 64;

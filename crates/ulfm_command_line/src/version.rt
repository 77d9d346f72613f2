//! Which program this is.

/// The version, and the kits by which the program is proved and built.
pub const VERSION: &str = "0.1.0 (rattle-kit-13b or 13f)";

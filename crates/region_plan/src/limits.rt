/// The most requests that a template has.
pub const MOST_REQUESTS: usize = 1000;

/// The most pages of code that a hart has.
pub const MOST_CODE_PAGES: u32 = 256;

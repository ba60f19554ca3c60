// How many bytes a command reads, and the faults of more.
use smv_core::Fault;

/// The most bytes that a text has.
pub const LIMIT: usize = 1_048_576;

/// The most bytes that a document has where it is checked.
pub const CHECK_LIMIT: usize = 67_108_864;

/// The most bytes that an old document and a new design have together.
pub const RESUME_LIMIT: usize = 69_206_016;

/// The fault of a text that has more.
pub const TOO_LONG: Fault = Fault { number: 31, at: 0 };

/// The fault of a document that has more.
pub const DOCUMENT_TOO_LONG: Fault = Fault { number: 33, at: 0 };

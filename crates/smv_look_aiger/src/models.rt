// The answer, as data.

/// The circuit of a case.
#[derive(Drop)]
pub enum Model {
    /// The bytes of its file.
    File { bytes: Vec<u8> },
    /// There is no case of the number that is asked for, but so many.
    NoCase { count: usize },
}

//! Files as they are read.

/// The most files that are taken.
pub const MAX_FILES: usize = 64;

/// The most bytes of all files.
pub const MAX_TEXT: usize = 16_777_216;

/// A file: the bytes by which it is named, and those of its text.
#[derive(Drop)]
pub struct Source {
    pub name: Vec<u8>,
    pub text: Vec<u8>,
}

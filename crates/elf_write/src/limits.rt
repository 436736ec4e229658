//! How large a written file may be.

/// The most bytes of a file.
pub const MAX_FILE_BYTES: u32 = 4_194_304;
/// The most sections of a relocatable file that is written.
pub const MAX_WRITTEN_SECTIONS: u32 = 16_384;

//! The writers of relocatable files and of objects: each writes the very bytes of its definition.
#![tactic(auto)]

mod entries;
mod error;
mod hash_table;
mod header;
mod limits;
mod object_file;
mod object_layout;
mod rel_file;
mod rel_headers;
mod rel_layout;
mod rows;
mod strings;
mod table_layout;
mod tables;
mod writable;

pub use error::WriteErr;
pub use limits::{MAX_FILE_BYTES, MAX_WRITTEN_SECTIONS};
pub use object_file::write_object;
pub use object_layout::table_end;
pub use rel_file::write_rel_object;
pub use writable::is_writable_rel;

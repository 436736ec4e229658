//! Load maps by module number.

use fd_base::Seq;
use load_map::MapEntry;

/// The entries of one load map: where each segment of a module is placed, in the order of its segments.
pub type MapEntries = Seq<MapEntry>;
/// Load maps by the numbers of their modules. That of a number without a module is empty.
pub type Maps = Seq<MapEntries>;

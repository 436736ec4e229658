//! Words one behind the other.

ghost use Rattle.std.specs.Prelude.{◌≡◌, ◌≤◌, ◌+◌, ◌*◌, ◌^◌, ◌++◌, length, OnOk};
ghost use Rattle.link_model.specs.Segments.{words_from};

use fd_base::{Memory, Seq};
use load_model::LinkWord;

/// Puts words behind others that stand one behind the other from a link address on.
pub(crate) fn put_row(words: &mut Seq<LinkWord>, place: u32, values: &[u32]) -> Result<(), Memory>
    requires { place + 4 * length values.now ≤ 2 ^ 32 }
    ensures { OnOk result (words.new ≡ words.old ++ words_from place values.now) }
{
    for (n, value) in values.iter().enumerate() {
        words.push(LinkWord {
            addr: place + 4 * n as u32,
            value: *value,
        })?;
    }
    Ok(())
}

//! Where a program begins.

ghost use Rattle.std.specs.Prelude.{◌≡◌, if◌then◌else◌};
ghost use Rattle.std.specs.Option.{option_map_or};
ghost use Rattle.link_model.specs.Object.{start_target};
ghost use Rattle.link_model.specs.Places.{address_of};
ghost use Rattle.link_model.specs.Refusals.{entry_tests};
ghost use Rattle.link_model.specs.Targets.{is_shared};
ghost use Rattle.link_model.specs.parts.Passes.{Gives};
ghost use Rattle.link_checks.specs.parts.Entry.{entry_of};

use crate::linking::Linking;
use link_model::{LinkErr, LinkRefusal, Mode};

/// The link address where a program begins, and 0 of a shared object. Refuses by `NoEntry` a program without a function
/// `_start`.
pub fn check_entry(linking: &Linking) -> Result<u64, LinkErr>
    ensures { Gives result (entry_tests linking.now.joined.mode linking.now.joined.inputs) (λ entry. entry ≡ entry_of linking.now.joined.mode linking.now.joined.inputs) }
{
    if matches!(linking.joined.mode(), Mode::Shared) {
        return Ok(0);
    }
    match linking.joined.find(b"_start") {
        Some(start) if linking.layout.text.is_function(start.spot) => {
            Ok(linking.layout.address_of(start.spot))
        }
        _ => Err(LinkErr::Refused(LinkRefusal::NoEntry)),
    }
}

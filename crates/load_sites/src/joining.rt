//! New modules by number.

ghost use Rattle.std.specs.Prelude.{◌≡◌};
ghost use Rattle.std.specs.Option.{option_copied};
ghost use Rattle.load_model.specs.Linkage.{joining_at};

use load_model::Joining;

/// The new module of a number.
pub(crate) fn joining_at(joining: &[Joining], m: u32) -> Option<&Joining>
    ensures { option_copied result ≡ joining_at joining.now m }
{
    for new in joining {
        if new.number == m {
            return Some(new);
        }
    }
    None
}

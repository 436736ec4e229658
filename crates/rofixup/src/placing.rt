//! From the link addresses that listed words hold to placed addresses.

ghost use Rattle.std.specs.Prelude.{◌≡◌, ◌^◌, ◌<◌, length, map, None, Some, unwrap_or, MatchResult, OnOk, OnErr};
ghost use Rattle.load_map.specs.Translation.{address_of};
ghost use Rattle.rofixup.specs.Fixups as spec;

use load_map::LoadMap;

/// The number of the first value that has no placed address, counted from 0.
#[derive(Clone, Copy, Debug, PartialEq, Eq)]
pub struct Outside(pub u32);

fn first_unplaced(map: &LoadMap, values: &[u32]) -> Option<usize>
    ensures { result ≡ spec.first_unplaced map.now values.now }
{
    values.iter().position(|v| map.translate(*v).is_none())
}

/// Replaces each value that has a placed address.
fn place_all(by: &LoadMap, values: &mut [u32])
    ensures { values.new ≡ map (λ v. unwrap_or (address_of by.now v) v) values.old }
{
    for value in values.iter_mut() {
        *value = by.translate(*value).unwrap_or(*value);
    }
}

/// Replaces each value by its placed address. Where some value has none it names the first such value, and all stay as
/// they were.
pub fn apply(map: &LoadMap, values: &mut [u32]) -> Result<(), Outside>
    requires { length values.old < 2 ^ 32 }
    ensures outside { MatchResult result (λ _. spec.first_unplaced map.now values.old ≡ None) (λ e. spec.first_unplaced map.now values.old ≡ Some e.0) }
    ensures placed { OnOk result (spec.AreTranslated map.now values.old values.new) }
    ensures stays { OnErr result (values.new ≡ values.old) }
{
    match first_unplaced(map, values) {
        Some(at) => Err(Outside(at as u32)),
        None => {
            place_all(map, values);
            Ok(())
        }
    }
}

//! Distances and sums, which are whole numbers.

ghost use Rattle.std.specs.Prelude.{◌≡◌, ◌+◌, ◌%◌, ◌^◌, ◌<◌, ◌==◌, ◌&&◌, ◌-ℤ◌, ◌≤ℤ◌, pos, negsuc, unsigned_abs, IfSome, IfNone, false};
ghost use Rattle.arm_relocs.specs.Branch as spec;
ghost use Rattle.link_model.specs.Sites.{word_of};
ghost use Rattle.link_model.specs.SiteTests.{lies_between};

use arm_relocs::{MAX_DISTANCE, MIN_DISTANCE, branch_field};

/// How far a branch at a link address has to lead to another. None past the reach of any field.
fn distance(site: u64, goal: i64) -> Option<i32>
    requires site { site < 2 ^ 61 }
    requires low { negsuc 4611686018427387904 ≤ℤ goal }
    requires high { goal ≤ℤ pos 4611686018427387904 }
    ensures near { IfSome result (λ d. d ≡ goal -ℤ pos (site + 8)) }
    ensures far { IfNone result (spec.is_distance (goal -ℤ pos (site + 8)) ≡ false) }
{
    let distance = goal - (site + 8) as i64;
    if distance < i64::from(MIN_DISTANCE) || distance > i64::from(MAX_DISTANCE) {
        return None;
    }
    Some(distance as i32)
}

/// The word of a branch at a link address that leads to another.
pub(crate) fn branch_to(word: u32, site: u64, goal: i64) -> Option<u32>
    requires site { site < 2 ^ 61 }
    requires low { negsuc 4611686018427387904 ≤ℤ goal }
    requires high { goal ≤ℤ pos 4611686018427387904 }
    ensures { result ≡ spec.branch_field word (goal -ℤ pos (site + 8)) }
{
    match distance(site, goal) {
        Some(d) => branch_field(word, d),
        None => None,
    }
}

/// Whether a branch at a link address reaches another, which is a multiple of 4.
pub(crate) fn is_step(site: u64, goal: i64) -> bool
    requires site { site < 2 ^ 61 }
    requires low { negsuc 4611686018427387904 ≤ℤ goal }
    requires high { goal ≤ℤ pos 4611686018427387904 }
    ensures { result ≡ (unsigned_abs goal % 4 == 0 && spec.is_distance (goal -ℤ pos (site + 8))) }
{
    goal.unsigned_abs() % 4 == 0 && branch_to(0, site, goal).is_some()
}

/// How far a whole number lies above a link address.
pub(crate) fn above(base: u64, z: i64) -> i64
    requires base { base < 2 ^ 61 }
    requires low { negsuc 4611686018427387904 ≤ℤ z }
    requires high { z ≤ℤ pos 4611686018427387904 }
    ensures { result ≡ z -ℤ pos base }
{
    z - base as i64
}

/// A whole number modulo 2^32.
pub(crate) fn low_word(z: i64) -> u32
    ensures { result ≡ word_of z }
{
    z.rem_euclid(1 << 32) as u32
}

/// Whether a whole number lies in a segment, or at its end.
pub(crate) fn is_between(low: u64, high: u64, z: i64) -> bool
    requires low { low < 2 ^ 63 }
    requires high { high < 2 ^ 63 }
    ensures { result ≡ lies_between low high z }
{
    low as i64 <= z && z <= high as i64
}

//! The distance of a branch, which stands in the low 24 bits of its instruction word.

ghost use Rattle.std.specs.Prelude.{◌≡◌, ◌/◌, ◌^◌, ◌↔◌, IsSome, IfSome, true};
ghost use Rattle.arm_relocs.specs.Branch as spec;

/// How many values the field of a branch has.
const FIELD_VALUES: u32 = 1 << 24;
/// The least distance that a branch can hold, in bytes.
pub const MIN_DISTANCE: i32 = -33_554_432;
/// The greatest distance that a branch can hold, in bytes.
pub const MAX_DISTANCE: i32 = 33_554_428;

/// The addend of a branch in bytes: the low 24 bits of its word, sign extended, times 4.
pub fn branch_addend(word: u32) -> i32
    ensures { result ≡ spec.branch_addend word }
{
    let field = (word % FIELD_VALUES) as i32;
    let words = if field < 1 << 23 {
        field
    } else {
        field - (1 << 24)
    };
    words * 4
}

/// The word of a branch with the distance `d`, in bytes, in its low 24 bits. None exactly where `d` isn't a
/// multiple of 4 from `MIN_DISTANCE` to `MAX_DISTANCE`.
pub fn branch_field(word: u32, d: i32) -> Option<u32>
    ensures field { result ≡ spec.branch_field word d }
    ensures variant { IsSome result ↔ spec.IsDistance d }
    ensures addend { IfSome result (λ w. spec.branch_addend w ≡ d) }
    ensures rest { IfSome result (λ w. w / 2 ^ 24 ≡ word / 2 ^ 24) }
{
    if d % 4 != 0 || d < MIN_DISTANCE || d > MAX_DISTANCE {
        return None;
    }
    let field = d.cast_unsigned() / 4 % FIELD_VALUES;
    Some(word / FIELD_VALUES * FIELD_VALUES + field)
}

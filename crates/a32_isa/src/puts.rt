//! Small texts put at the end of a list of bytes.

ghost use Rattle.std.specs.Prelude.{◌≡◌, ◌<◌, ◌++◌, [], ◌∷◌, OnOk};
ghost use Rattle.a32_isa.specs.Names as spec;
ghost use Rattle.a32_isa.specs.Text.{after, where_set, immediate, offset, signed};

use crate::names::register_name;
use fd_base::{Bytes, Memory, put_dec};

/// A text as it is.
pub fn put_text(out: &mut Bytes, text: &str) -> Result<(), Memory>
    ensures { OnOk result (out.new ≡ out.old ++ text.now) }
{
    out.extend_from_slice(text.as_bytes())
}

/// A text where a flag is set.
pub fn put_where_set(out: &mut Bytes, set: bool, text: &str) -> Result<(), Memory>
    ensures { OnOk result (out.new ≡ out.old ++ where_set set text.now) }
{
    if set { put_text(out, text) } else { Ok(()) }
}

pub fn put_register(out: &mut Bytes, register: u8) -> Result<(), Memory>
    requires { register < 16 }
    ensures { OnOk result (out.new ≡ out.old ++ spec.register_name register) }
{
    put_text(out, register_name(register))
}

/// A register behind a comma and a space.
pub fn put_next_register(out: &mut Bytes, register: u8) -> Result<(), Memory>
    requires { register < 16 }
    ensures { OnOk result (out.new ≡ out.old ++ after (spec.register_name register ∷ [])) }
{
    put_text(out, ", ")?;
    put_register(out, register)
}

/// A number with its mark.
pub fn put_immediate(out: &mut Bytes, n: u32) -> Result<(), Memory>
    ensures { OnOk result (out.new ≡ out.old ++ immediate n) }
{
    put_text(out, "#")?;
    put_dec(out, n)
}

/// A number that is added, or with a minus sign taken away.
pub fn put_offset(out: &mut Bytes, up: bool, n: u32) -> Result<(), Memory>
    ensures { OnOk result (out.new ≡ out.old ++ offset up n) }
{
    put_text(out, "#")?;
    put_where_set(out, !up, "-")?;
    put_dec(out, n)
}

/// A register that is added, or with a minus sign taken away.
pub fn put_signed_register(out: &mut Bytes, up: bool, register: u8) -> Result<(), Memory>
    requires { register < 16 }
    ensures { OnOk result (out.new ≡ out.old ++ signed up (spec.register_name register)) }
{
    put_where_set(out, !up, "-")?;
    put_register(out, register)
}

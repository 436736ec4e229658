//! Addresses: the form of each, and whether its number fits.

ghost use Rattle.std.specs.Prelude.{◌≡◌, ◌<◌, Some, IfSome};
ghost use Rattle.a32_isa.specs.Fields.{Fit};
ghost use Rattle.a32_isa.specs.Table.{mem_off_fields, half_high, half_low};
ghost use Rattle.a32_text.specs.Taking.{Takes};
ghost use Rattle.a32_text.specs.Address as spec;

use crate::arg::shift;
use crate::fitting::{Address, FitHalfOff, FitMemOff, Off, SignedOff};
use crate::scanner::Scanner;
use crate::taking::{mark, number_taken, register};
use a32_isa::{HalfOff, MemOff};

#[tactic(auto, unfolding(crate::specs::Address::take_number_off))]
fn number_off(up: bool, tokens: &mut Scanner) -> Option<SignedOff>
    ensures value { Takes result tokens.new (spec.take_number_off up tokens.old) }
    ensures fit { IfSome result (λ o. spec.IsOff o.off) }
{
    let n = number_taken(tokens)?;
    Some(SignedOff {
        up,
        off: Off::Number(n),
    })
}

/// The offset by a register, whose shift may follow.
#[tactic(auto, unfolding(crate::specs::Address::take_off_shift))]
fn off_shift(up: bool, m: u8, tokens: &mut Scanner) -> Option<SignedOff>
    requires { m < 16 }
    ensures value { Takes result tokens.new (spec.take_off_shift up m tokens.old) }
    ensures fit { IfSome result (λ o. spec.IsOff o.off) }
{
    if tokens.has_mark(b',') {
        let by = shift(tokens)?;
        Some(SignedOff {
            up,
            off: Off::Shifted { m, by },
        })
    } else {
        Some(SignedOff {
            up,
            off: Off::Register(m),
        })
    }
}

#[tactic(auto, unfolding(crate::specs::Address::take_register_off))]
fn register_off(up: bool, tokens: &mut Scanner) -> Option<SignedOff>
    ensures value { Takes result tokens.new (spec.take_register_off up tokens.old) }
    ensures fit { IfSome result (λ o. spec.IsOff o.off) }
{
    let m = register(tokens)?;
    off_shift(up, m, tokens)
}

#[tactic(auto, unfolding(crate::specs::Address::take_off))]
fn off(tokens: &mut Scanner) -> Option<SignedOff>
    ensures value { Takes result tokens.new (spec.take_off tokens.old) }
    ensures fit { IfSome result (λ o. spec.IsOff o.off) }
{
    if tokens.has_mark(b'#') {
        let up = !tokens.has_mark(b'-');
        number_off(up, tokens)
    } else {
        let up = !tokens.has_mark(b'-');
        register_off(up, tokens)
    }
}

fn address(p: bool, w: bool, n: u8, off: &SignedOff) -> Address
    requires n { n < 16 }
    requires off { spec.IsOff off.now.off }
    ensures value { result ≡ spec.address p w n off.now }
    ensures fit { (result.n < 16) × spec.IsOff result.off }
{
    Address {
        p,
        up: off.up,
        w,
        n,
        off: off.off,
    }
}

fn no_offset() -> SignedOff
    ensures value { result ≡ spec.no_offset }
    ensures fit { spec.IsOff result.off }
{
    SignedOff {
        up: true,
        off: Off::Number(0),
    }
}

/// Whether `!` stands first.
pub(crate) fn writeback(tokens: &mut Scanner) -> bool
    ensures { spec.take_writeback tokens.old ≡ Some (result, tokens.new) }
{
    tokens.has_mark(b'!')
}

#[tactic(auto, unfolding(crate::specs::Address::take_behind_base))]
fn behind_base(n: u8, tokens: &mut Scanner) -> Option<Address>
    requires { n < 16 }
    ensures value { Takes result tokens.new (spec.take_behind_base n tokens.old) }
    ensures fit { IfSome result (λ a. (a.n < 16) × spec.IsOff a.off) }
{
    if tokens.has_mark(b',') {
        let by = off(tokens)?;
        Some(address(false, false, n, &by))
    } else {
        let w = writeback(tokens);
        Some(address(true, w, n, &no_offset()))
    }
}

#[tactic(auto, unfolding(crate::specs::Address::take_inner))]
fn inner(n: u8, tokens: &mut Scanner) -> Option<Address>
    requires { n < 16 }
    ensures value { Takes result tokens.new (spec.take_inner n tokens.old) }
    ensures fit { IfSome result (λ a. (a.n < 16) × spec.IsOff a.off) }
{
    mark(tokens, b',')?;
    let by = off(tokens)?;
    mark(tokens, b']')?;
    let w = writeback(tokens);
    Some(address(true, w, n, &by))
}

#[tactic(auto, unfolding(crate::specs::Address::take_address))]
pub(crate) fn address_taken(tokens: &mut Scanner) -> Option<Address>
    ensures value { Takes result tokens.new (spec.take_address tokens.old) }
    ensures fit { IfSome result (λ a. (a.n < 16) × spec.IsOff a.off) }
{
    mark(tokens, b'[')?;
    let n = register(tokens)?;
    if tokens.has_mark(b']') {
        behind_base(n, tokens)
    } else {
        inner(n, tokens)
    }
}

/// The offset of a load or store of a word or byte.
pub(crate) fn fit_mem_off(off: &Off) -> FitMemOff
    requires { spec.IsOff off.now }
    ensures value { result ≡ spec.fit_mem_off off.now }
    ensures fit { Fit (mem_off_fields result.off) }
{
    match *off {
        Off::Number(n) => {
            let fits = n < 4096;
            FitMemOff {
                off: MemOff::Imm(if fits { n as u16 } else { 0 }),
                fits,
            }
        }
        Off::Register(m) => FitMemOff {
            off: MemOff::Reg { imm: 0, kind: 0, m },
            fits: true,
        },
        Off::Shifted { m, by } => FitMemOff {
            off: MemOff::Reg {
                imm: by.imm,
                kind: by.kind,
                m,
            },
            fits: by.fits,
        },
    }
}

/// The offset of a load or store of a halfword or a signed byte.
pub(crate) fn fit_half_off(off: &Off) -> Option<FitHalfOff>
    requires { spec.IsOff off.now }
    ensures value { result ≡ spec.fit_half_off off.now }
    ensures fit { IfSome result (λ o. (half_high o.off < 16) × (half_low o.off < 16)) }
{
    match *off {
        Off::Number(n) => {
            let fits = n < 256;
            Some(FitHalfOff {
                off: HalfOff::Imm(if fits { n as u8 } else { 0 }),
                fits,
            })
        }
        Off::Register(m) => Some(FitHalfOff {
            off: HalfOff::Reg(m),
            fits: true,
        }),
        Off::Shifted { .. } => None,
    }
}

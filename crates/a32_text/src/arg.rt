//! Shifts, and the last operand of a data operation.

ghost use Rattle.std.specs.Prelude.{◌≡◌, ◌<◌, IfSome, true};
ghost use Rattle.a32_isa.specs.Immediate.{gives as spec_gives};
ghost use Rattle.a32_isa.specs.Fields.{Fit};
ghost use Rattle.a32_isa.specs.Table.{arg_fields};
ghost use Rattle.a32_text.specs.Taking.{Takes};
ghost use Rattle.a32_text.specs.Arg as spec;

use crate::fitting::{FitArg, FitShift};
use crate::scanner::Scanner;
use crate::taking::{gap, immediate, number_taken, register, word};
use crate::words::shift_of;
use a32_isa::{Arg, gives};

#[tactic(auto, unfolding(crate::specs::Arg::shift_field))]
fn shift_field(kind: u8, n: u32) -> Option<u8>
    ensures value { result ≡ spec.shift_field kind n }
    ensures fit { IfSome result (λ imm. imm < 32) }
{
    let fits = match kind {
        0 => n < 32,
        3 => 1 <= n && n < 32,
        _ => 1 <= n && n <= 32,
    };
    if fits { Some((n % 32) as u8) } else { None }
}

fn shift_by(kind: u8, n: u32) -> FitShift
    requires { kind < 4 }
    ensures value { result ≡ spec.shift_by kind n }
    ensures fit { (result.imm < 32) × (result.kind < 4) }
{
    match shift_field(kind, n) {
        Some(imm) => FitShift {
            imm,
            kind,
            fits: true,
        },
        None => FitShift {
            imm: 0,
            kind,
            fits: false,
        },
    }
}

fn rrx() -> FitShift
    ensures value { result ≡ spec.rrx }
    ensures fit { (result.imm < 32) × (result.kind < 4) }
{
    FitShift {
        imm: 0,
        kind: 3,
        fits: true,
    }
}

fn no_shift() -> FitShift
    ensures value { result ≡ spec.no_shift }
    ensures fit { (result.imm < 32) × (result.kind < 4) }
{
    FitShift {
        imm: 0,
        kind: 0,
        fits: true,
    }
}

#[tactic(auto, unfolding(crate::specs::Arg::take_amount))]
fn amount(kind: u8, tokens: &mut Scanner) -> Option<FitShift>
    requires { kind < 4 }
    ensures value { Takes result tokens.new (spec.take_amount kind tokens.old) }
    ensures fit { IfSome result (λ s. (s.imm < 32) × (s.kind < 4)) }
{
    Some(shift_by(kind, immediate(tokens)?))
}

#[tactic(auto, unfolding(crate::specs::Arg::take_shift_by))]
fn shift_behind(word: &[u8], tokens: &mut Scanner) -> Option<FitShift>
    ensures value { Takes result tokens.new (spec.take_shift_by word.now tokens.old) }
    ensures fit { IfSome result (λ s. (s.imm < 32) × (s.kind < 4)) }
{
    if word == b"rrx".as_slice() {
        return Some(rrx());
    }
    let kind = shift_of(word)?;
    gap(tokens)?;
    amount(kind, tokens)
}

/// A shift.
#[tactic(auto, unfolding(crate::specs::Arg::take_shift))]
pub(crate) fn shift(tokens: &mut Scanner) -> Option<FitShift>
    ensures value { Takes result tokens.new (spec.take_shift tokens.old) }
    ensures fit { IfSome result (λ s. (s.imm < 32) × (s.kind < 4)) }
{
    let first = word(tokens)?;
    shift_behind(first, tokens)
}

/// The lowest rotation that gives a number.
#[tactic(auto, unfolding(crate::specs::Arg::rotation_of))]
fn rotation_of(n: u32) -> Option<u8>
    ensures value { result ≡ spec.rotation_of n }
    ensures below { IfSome result (λ rot. rot < 16) }
    ensures gives { IfSome result (λ rot. spec_gives n rot ≡ true) }
{
    (0..16u8).find(|rot| gives(n, *rot))
}

#[tactic(auto, unfolding(crate::specs::Arg::constant_arg, a32_isa::specs::Immediate::gives))]
fn constant_arg(n: u32) -> FitArg
    ensures value { result ≡ spec.constant_arg n }
    ensures fit { Fit (arg_fields result.arg) }
{
    match rotation_of(n) {
        Some(rot) => FitArg {
            arg: Arg::Imm {
                rot,
                imm: n.rotate_left(2 * rot as u32) as u8,
            },
            fits: true,
        },
        None => FitArg {
            arg: Arg::Imm { rot: 0, imm: 0 },
            fits: false,
        },
    }
}

#[tactic(auto, unfolding(crate::specs::Arg::rotated_arg))]
fn rotated_arg(n: u32, turn: u32) -> FitArg
    ensures value { result ≡ spec.rotated_arg n turn }
    ensures fit { Fit (arg_fields result.arg) }
{
    if n < 256 && turn <= 30 && turn % 2 == 0 {
        FitArg {
            arg: Arg::Imm {
                rot: (turn / 2) as u8,
                imm: n as u8,
            },
            fits: true,
        }
    } else {
        FitArg {
            arg: Arg::Imm { rot: 0, imm: 0 },
            fits: false,
        }
    }
}

#[tactic(auto, unfolding(crate::specs::Arg::take_constant))]
fn constant(tokens: &mut Scanner) -> Option<FitArg>
    ensures value { Takes result tokens.new (spec.take_constant tokens.old) }
    ensures fit { IfSome result (λ a. Fit (arg_fields a.arg)) }
{
    let n = number_taken(tokens)?;
    if tokens.has_mark(b',') {
        let turn = number_taken(tokens)?;
        Some(rotated_arg(n, turn))
    } else {
        Some(constant_arg(n))
    }
}

fn arg_by(m: u8, shift: &FitShift) -> FitArg
    requires m { m < 16 }
    requires shift { (shift.now.imm < 32) × (shift.now.kind < 4) }
    ensures value { result ≡ spec.arg_by m shift.now }
    ensures fit { Fit (arg_fields result.arg) }
{
    FitArg {
        arg: Arg::ByImm {
            imm: shift.imm,
            kind: shift.kind,
            m,
        },
        fits: shift.fits,
    }
}

fn arg_by_register(m: u8, kind: u8, s2: u8) -> FitArg
    requires m { m < 16 }
    requires kind { kind < 4 }
    requires s2 { s2 < 16 }
    ensures value { result ≡ spec.arg_by_register m kind s2 }
    ensures fit { Fit (arg_fields result.arg) }
{
    FitArg {
        arg: Arg::ByReg { s2, kind, m },
        fits: true,
    }
}

#[tactic(auto, unfolding(crate::specs::Arg::take_arg_amount))]
fn arg_amount(m: u8, kind: u8, tokens: &mut Scanner) -> Option<FitArg>
    requires m { m < 16 }
    requires kind { kind < 4 }
    ensures value { Takes result tokens.new (spec.take_arg_amount m kind tokens.old) }
    ensures fit { IfSome result (λ a. Fit (arg_fields a.arg)) }
{
    if tokens.has_mark(b'#') {
        let n = number_taken(tokens)?;
        Some(arg_by(m, &shift_by(kind, n)))
    } else {
        let s2 = register(tokens)?;
        Some(arg_by_register(m, kind, s2))
    }
}

#[tactic(auto, unfolding(crate::specs::Arg::take_arg_shift_by))]
fn arg_shift_behind(m: u8, word: &[u8], tokens: &mut Scanner) -> Option<FitArg>
    requires { m < 16 }
    ensures value { Takes result tokens.new (spec.take_arg_shift_by m word.now tokens.old) }
    ensures fit { IfSome result (λ a. Fit (arg_fields a.arg)) }
{
    if word == b"rrx".as_slice() {
        return Some(arg_by(m, &rrx()));
    }
    let kind = shift_of(word)?;
    gap(tokens)?;
    arg_amount(m, kind, tokens)
}

#[tactic(auto, unfolding(crate::specs::Arg::take_arg_shift))]
fn arg_shift(m: u8, tokens: &mut Scanner) -> Option<FitArg>
    requires { m < 16 }
    ensures value { Takes result tokens.new (spec.take_arg_shift m tokens.old) }
    ensures fit { IfSome result (λ a. Fit (arg_fields a.arg)) }
{
    if tokens.has_mark(b',') {
        let first = word(tokens)?;
        arg_shift_behind(m, first, tokens)
    } else {
        Some(arg_by(m, &no_shift()))
    }
}

#[tactic(auto, unfolding(crate::specs::Arg::take_arg))]
pub(crate) fn arg(tokens: &mut Scanner) -> Option<FitArg>
    ensures value { Takes result tokens.new (spec.take_arg tokens.old) }
    ensures fit { IfSome result (λ a. Fit (arg_fields a.arg)) }
{
    if tokens.has_mark(b'#') {
        constant(tokens)
    } else {
        let m = register(tokens)?;
        arg_shift(m, tokens)
    }
}

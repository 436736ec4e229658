//! The operands of each kind of instruction.

ghost use Rattle.std.specs.Prelude.{◌≡◌, ◌<◌, ◌^◌, IfSome};
ghost use Rattle.a32_isa.specs.Fields.{Fit};
ghost use Rattle.a32_isa.specs.Table.{op_fields, arg_fields, mem_off_fields};
ghost use Rattle.a32_text.specs.Word.{IsHead};
ghost use Rattle.a32_text.specs.Taking.{ended, take_number, take_register, take_immediate, take_pair};
ghost use Rattle.a32_text.specs.Arg.{take_arg};
ghost use Rattle.a32_text.specs.Address.{take_address, IsOff};
ghost use Rattle.a32_text.specs.List.{take_list};
ghost use Rattle.a32_text.specs.Operands as spec;

use crate::address::{address_taken, fit_half_off, fit_mem_off, writeback};
use crate::arg::arg;
use crate::fitting::{Address, Draft, FitArg, FitWide};
use crate::head::{Head, is_comparison, is_move};
use crate::list::list;
use crate::scanner::Scanner;
use crate::taking::{ended, immediate, mark, next_register, number_taken, pair, register};
use a32_isa::Op;

/// What was taken, where nothing stands behind it.
fn arg_to_end(tokens: &mut Scanner) -> Option<FitArg>
    ensures value { result ≡ spec.last_behind_comma take_arg tokens.old }
    ensures fit { IfSome result (λ a. Fit (arg_fields a.arg)) }
{
    mark(tokens, b',')?;
    let arg = arg(tokens)?;
    ended(arg, tokens)
}

fn with_arg(op: u8, s: bool, n: u8, d: u8, tokens: &mut Scanner) -> Option<Draft>
    requires op { op < 16 }
    requires n { n < 16 }
    requires d { d < 16 }
    ensures value { result ≡ spec.with_arg op s n d tokens.old }
    ensures fit { IfSome result (λ draft. Fit (op_fields draft.op)) }
{
    let arg = arg_to_end(tokens)?;
    Some(Draft {
        op: Op::Data {
            op,
            s,
            n,
            d,
            arg: arg.arg,
        },
        fits: arg.fits,
    })
}

#[tactic(auto, unfolding(crate::specs::Operands::data_behind))]
fn data_behind(op: u8, s: bool, r: u8, tokens: &mut Scanner) -> Option<Draft>
    requires op { op < 16 }
    requires r { r < 16 }
    ensures value { result ≡ spec.data_behind op s r tokens.old }
    ensures fit { IfSome result (λ draft. Fit (op_fields draft.op)) }
{
    if is_comparison(op) {
        return with_arg(op, true, r, 0, tokens);
    }
    if is_move(op) {
        return with_arg(op, s, 0, r, tokens);
    }
    let n = next_register(tokens)?;
    with_arg(op, s, n, r, tokens)
}

#[tactic(auto, unfolding(crate::specs::Operands::data_operands))]
fn data_operands(op: u8, s: bool, tokens: &mut Scanner) -> Option<Draft>
    requires { op < 16 }
    ensures value { result ≡ spec.data_operands op s tokens.old }
    ensures fit { IfSome result (λ draft. Fit (op_fields draft.op)) }
{
    let r = register(tokens)?;
    data_behind(op, s, r, tokens)
}

fn address_to_end(tokens: &mut Scanner) -> Option<Address>
    ensures value { result ≡ spec.last_behind_comma take_address tokens.old }
    ensures fit { IfSome result (λ a. (a.n < 16) × IsOff a.off) }
{
    mark(tokens, b',')?;
    let at = address_taken(tokens)?;
    ended(at, tokens)
}

fn mem_draft(load: bool, byte: bool, d: u8, at: &Address) -> Draft
    requires d { d < 16 }
    requires at { (at.now.n < 16) × IsOff at.now.off }
    ensures value { result ≡ spec.mem_draft load byte d at.now }
    ensures fit { Fit (op_fields result.op) }
{
    let by = fit_mem_off(&at.off);
    Draft {
        op: Op::Mem {
            load,
            byte,
            p: at.p,
            u: at.up,
            w: at.w,
            n: at.n,
            d,
            off: by.off,
        },
        fits: by.fits,
    }
}

#[tactic(auto, unfolding(crate::specs::Operands::mem_operands))]
fn mem_operands(load: bool, byte: bool, tokens: &mut Scanner) -> Option<Draft>
    ensures value { result ≡ spec.mem_operands load byte tokens.old }
    ensures fit { IfSome result (λ draft. Fit (op_fields draft.op)) }
{
    let d = register(tokens)?;
    let at = address_to_end(tokens)?;
    Some(mem_draft(load, byte, d, &at))
}

fn half_draft(kind: u8, d: u8, at: &Address) -> Option<Draft>
    requires kind { kind < 4 }
    requires d { d < 16 }
    requires at { (at.now.n < 16) × IsOff at.now.off }
    ensures value { result ≡ spec.half_draft kind d at.now }
    ensures fit { IfSome result (λ draft. Fit (op_fields draft.op)) }
{
    let by = fit_half_off(&at.off)?;
    Some(Draft {
        op: Op::Half {
            kind,
            p: at.p,
            u: at.up,
            w: at.w,
            n: at.n,
            d,
            off: by.off,
        },
        fits: by.fits,
    })
}

#[tactic(auto, unfolding(crate::specs::Operands::half_operands))]
fn half_operands(kind: u8, tokens: &mut Scanner) -> Option<Draft>
    requires { kind < 4 }
    ensures value { result ≡ spec.half_operands kind tokens.old }
    ensures fit { IfSome result (λ draft. Fit (op_fields draft.op)) }
{
    let d = register(tokens)?;
    let at = address_to_end(tokens)?;
    half_draft(kind, d, &at)
}

/// A list, and nothing behind it.
fn list_to_end(tokens: &mut Scanner) -> Option<u16>
    ensures { result ≡ ended (take_list tokens.old) }
{
    let list = list(tokens)?;
    ended(list, tokens)
}

#[tactic(auto, unfolding(crate::specs::Operands::multi_operands, crate::specs::Operands::take_base))]
fn multi_operands(load: bool, p: bool, u: bool, tokens: &mut Scanner) -> Option<Draft>
    ensures value { result ≡ spec.multi_operands load p u tokens.old }
    ensures fit { IfSome result (λ draft. Fit (op_fields draft.op)) }
{
    let n = register(tokens)?;
    let w = writeback(tokens);
    mark(tokens, b',')?;
    let list = list_to_end(tokens)?;
    Some(Draft {
        op: Op::Multi {
            load,
            p,
            u,
            w,
            n,
            list,
        },
        fits: true,
    })
}

#[tactic(auto, unfolding(crate::specs::Operands::stack_operands))]
fn stack_operands(load: bool, tokens: &mut Scanner) -> Option<Draft>
    ensures value { result ≡ spec.stack_operands load tokens.old }
    ensures fit { IfSome result (λ draft. Fit (op_fields draft.op)) }
{
    let list = list_to_end(tokens)?;
    Some(Draft {
        op: Op::Multi {
            load,
            p: !load,
            u: load,
            w: true,
            n: 13,
            list,
        },
        fits: true,
    })
}

fn number_to_end(tokens: &mut Scanner) -> Option<u32>
    ensures { result ≡ ended (take_number tokens.old) }
{
    let n = number_taken(tokens)?;
    ended(n, tokens)
}

#[tactic(auto, unfolding(crate::specs::Operands::branch_by))]
fn branch_by(link: bool, back: bool, n: u32) -> Draft
    ensures value { result ≡ spec.branch_by link back n }
    ensures fit { Fit (op_fields result.op) }
{
    let near = if back { n <= 1 << 25 } else { n < 1 << 25 };
    if n % 4 == 0 && near {
        let imm24 = if back {
            ((1 << 24) - n / 4) % (1 << 24)
        } else {
            n / 4
        };
        Draft {
            op: Op::Branch { link, imm24 },
            fits: true,
        }
    } else {
        Draft {
            op: Op::Branch { link, imm24: 0 },
            fits: false,
        }
    }
}

#[tactic(auto, unfolding(crate::specs::Operands::branch_operands))]
fn branch_operands(link: bool, tokens: &mut Scanner) -> Option<Draft>
    ensures value { result ≡ spec.branch_operands link tokens.old }
    ensures fit { IfSome result (λ draft. Fit (op_fields draft.op)) }
{
    mark(tokens, b'#')?;
    let back = tokens.has_mark(b'-');
    let n = number_to_end(tokens)?;
    Some(branch_by(link, back, n))
}

/// A register, and nothing else.
fn register_to_end(tokens: &mut Scanner) -> Option<u8>
    ensures value { result ≡ ended (take_register tokens.old) }
    ensures fit { IfSome result (λ r. r < 16) }
{
    let r = register(tokens)?;
    ended(r, tokens)
}

fn bx_operands(tokens: &mut Scanner) -> Option<Draft>
    ensures value { result ≡ spec.bx_operands tokens.old }
    ensures fit { IfSome result (λ draft. Fit (op_fields draft.op)) }
{
    let m = register_to_end(tokens)?;
    Some(Draft {
        op: Op::Bx { m },
        fits: true,
    })
}

fn blx_operands(tokens: &mut Scanner) -> Option<Draft>
    ensures value { result ≡ spec.blx_operands tokens.old }
    ensures fit { IfSome result (λ draft. Fit (op_fields draft.op)) }
{
    let m = register_to_end(tokens)?;
    Some(Draft {
        op: Op::Blx { m },
        fits: true,
    })
}

/// `#` and a number, and nothing else.
fn immediate_to_end(tokens: &mut Scanner) -> Option<u32>
    ensures { result ≡ ended (take_immediate tokens.old) }
{
    let n = immediate(tokens)?;
    ended(n, tokens)
}

#[tactic(auto, unfolding(crate::specs::Operands::svc_by))]
fn svc_by(n: u32) -> Draft
    ensures value { result ≡ spec.svc_by n }
    ensures fit { Fit (op_fields result.op) }
{
    let fits = n < 1 << 24;
    Draft {
        op: Op::Svc {
            imm24: if fits { n } else { 0 },
        },
        fits,
    }
}

fn svc_operands(tokens: &mut Scanner) -> Option<Draft>
    ensures value { result ≡ spec.svc_operands tokens.old }
    ensures fit { IfSome result (λ draft. Fit (op_fields draft.op)) }
{
    let n = immediate_to_end(tokens)?;
    Some(svc_by(n))
}

fn nop_operands(tokens: &mut Scanner) -> Option<Draft>
    ensures value { result ≡ spec.nop_operands tokens.old }
    ensures fit { IfSome result (λ draft. Fit (op_fields draft.op)) }
{
    match tokens.next() {
        Some(_) => None,
        None => Some(Draft {
            op: Op::Nop,
            fits: true,
        }),
    }
}

/// A register and an immediate of 16 bits.
#[tactic(auto, unfolding(crate::specs::Operands::wide_operands))]
fn wide_operands(tokens: &mut Scanner) -> Option<FitWide>
    ensures value { result ≡ spec.wide_operands tokens.old }
    ensures fit { IfSome result (λ wide. (wide.d < 16) × (wide.imm16 < 2 ^ 16)) }
{
    let d = register(tokens)?;
    mark(tokens, b',')?;
    let n = immediate_to_end(tokens)?;
    let fits = n < 1 << 16;
    Some(FitWide {
        d,
        imm16: if fits { n as u16 } else { 0 },
        fits,
    })
}

fn movw_operands(tokens: &mut Scanner) -> Option<Draft>
    ensures value { result ≡ spec.movw_operands tokens.old }
    ensures fit { IfSome result (λ draft. Fit (op_fields draft.op)) }
{
    let wide = wide_operands(tokens)?;
    Some(Draft {
        op: Op::Movw {
            d: wide.d,
            imm16: wide.imm16,
        },
        fits: wide.fits,
    })
}

fn movt_operands(tokens: &mut Scanner) -> Option<Draft>
    ensures value { result ≡ spec.movt_operands tokens.old }
    ensures fit { IfSome result (λ draft. Fit (op_fields draft.op)) }
{
    let wide = wide_operands(tokens)?;
    Some(Draft {
        op: Op::Movt {
            d: wide.d,
            imm16: wide.imm16,
        },
        fits: wide.fits,
    })
}

/// Two registers, and nothing behind them.
fn pair_to_end(tokens: &mut Scanner) -> Option<(u8, u8)>
    ensures value { result ≡ ended (take_pair tokens.old) }
    ensures fit { IfSome result (λ both. (both.0 < 16) × (both.1 < 16)) }
{
    let both = pair(tokens)?;
    ended(both, tokens)
}

#[tactic(auto, unfolding(crate::specs::Operands::clz_operands))]
fn clz_operands(tokens: &mut Scanner) -> Option<Draft>
    ensures value { result ≡ spec.clz_operands tokens.old }
    ensures fit { IfSome result (λ draft. Fit (op_fields draft.op)) }
{
    let (d, m) = pair_to_end(tokens)?;
    Some(Draft {
        op: Op::Clz { d, m },
        fits: true,
    })
}

#[tactic(auto, unfolding(crate::specs::Operands::mul_operands))]
fn mul_operands(s: bool, tokens: &mut Scanner) -> Option<Draft>
    ensures value { result ≡ spec.mul_operands s tokens.old }
    ensures fit { IfSome result (λ draft. Fit (op_fields draft.op)) }
{
    let (d, m) = pair(tokens)?;
    mark(tokens, b',')?;
    let s2 = register_to_end(tokens)?;
    Some(Draft {
        op: Op::Mul { s, d, s2, m },
        fits: true,
    })
}

/// Four registers, and nothing behind them.
#[tactic(auto, unfolding(crate::specs::Operands::four_operands))]
fn four_operands(tokens: &mut Scanner) -> Option<((u8, u8), (u8, u8))>
    ensures value { result ≡ spec.four_operands tokens.old }
    ensures fit { IfSome result (λ four. ((four.0.0 < 16) × (four.0.1 < 16)) × ((four.1.0 < 16) × (four.1.1 < 16))) }
{
    let first = pair(tokens)?;
    mark(tokens, b',')?;
    let second = pair_to_end(tokens)?;
    Some((first, second))
}

#[tactic(auto, unfolding(crate::specs::Operands::mla_operands))]
fn mla_operands(s: bool, tokens: &mut Scanner) -> Option<Draft>
    ensures value { result ≡ spec.mla_operands s tokens.old }
    ensures fit { IfSome result (λ draft. Fit (op_fields draft.op)) }
{
    let ((d, m), (s2, n)) = four_operands(tokens)?;
    Some(Draft {
        op: Op::Mla { s, d, n, s2, m },
        fits: true,
    })
}

#[tactic(auto, unfolding(crate::specs::Operands::long_operands))]
fn long_operands(kind: u8, s: bool, tokens: &mut Scanner) -> Option<Draft>
    requires { kind < 4 }
    ensures value { result ≡ spec.long_operands kind s tokens.old }
    ensures fit { IfSome result (λ draft. Fit (op_fields draft.op)) }
{
    let ((lo, hi), (m, s2)) = four_operands(tokens)?;
    Some(Draft {
        op: Op::Long {
            kind,
            s,
            hi,
            lo,
            s2,
            m,
        },
        fits: true,
    })
}

/// The operands of a mnemonic.
#[tactic(auto, unfolding(crate::specs::Operands::operands_of))]
pub(crate) fn operands_of(head: Head, tokens: &mut Scanner) -> Option<Draft>
    requires { IsHead head }
    ensures value { result ≡ spec.operands_of head tokens.old }
    ensures fit { IfSome result (λ draft. Fit (op_fields draft.op)) }
{
    match head {
        Head::Data { op, s } => data_operands(op, s, tokens),
        Head::Mul { s } => mul_operands(s, tokens),
        Head::Mla { s } => mla_operands(s, tokens),
        Head::Long { kind, s } => long_operands(kind, s, tokens),
        Head::Clz => clz_operands(tokens),
        Head::Movw => movw_operands(tokens),
        Head::Movt => movt_operands(tokens),
        Head::Nop => nop_operands(tokens),
        Head::Mem { load, byte } => mem_operands(load, byte, tokens),
        Head::Half { kind } => half_operands(kind, tokens),
        Head::Multi { load, p, u } => multi_operands(load, p, u, tokens),
        Head::Stack { load } => stack_operands(load, tokens),
        Head::Branch { link } => branch_operands(link, tokens),
        Head::Bx => bx_operands(tokens),
        Head::Blx => blx_operands(tokens),
        Head::Svc => svc_operands(tokens),
    }
}

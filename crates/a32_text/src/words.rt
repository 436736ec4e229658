//! What words stand for.

ghost use Rattle.std.specs.Prelude.{◌≡◌, ◌<◌, ◌-◌, drop, length, take, IfSome, find, Option, Some, None};
ghost use Rattle.std.specs.Option.{option_copied};
ghost use Rattle.std.specs.List.{list_all, range_with_len};
ghost use Rattle.a32_isa.specs.Names.{register_name, condition_name, data_name, half_name, long_name, shift_name};
ghost use Rattle.a32_text.specs.Token.{is_decimal, is_word};
ghost use Rattle.a32_text.specs.declared.head.Head.TheVariants as heads;
ghost use Rattle.a32_text.specs.Word as spec;
ghost use Rattle.a32_text.specs.Word.{IsHead};

use crate::head::{Head, Mnemonic, is_comparison};
use crate::scanner::is_word;
use a32_isa::{condition_name, data_name, half_name, long_name, register_name, shift_name};

#[tactic(auto, unfolding(crate::specs::Word::other_register))]
fn other_register(word: &[u8]) -> Option<u8>
    ensures value { result ≡ spec.other_register word.now }
    ensures below { IfSome result (λ r. r < 16) }
{
    if word == b"r13".as_slice() {
        return Some(13);
    }
    if word == b"r14".as_slice() {
        return Some(14);
    }
    if word == b"r15".as_slice() {
        return Some(15);
    }
    if word == b"ip".as_slice() {
        return Some(12);
    }
    None
}

/// The register that is printed so.
fn printed_register(word: &[u8]) -> Option<u8>
    ensures value { result ≡ spec.numbered register_name 16 word.now }
    ensures below { IfSome result (λ r. r < 16) }
{
    (0..16u8).find(|r| register_name(*r).as_bytes() == word)
}

/// The register of a name.
#[tactic(auto, unfolding(crate::specs::Word::register_of))]
pub fn register_of(word: &[u8]) -> Option<u8>
    ensures value { result ≡ spec.register_of word.now }
    ensures below { IfSome result (λ r. r < 16) }
{
    match printed_register(word) {
        Some(r) => Some(r),
        None => other_register(word),
    }
}

#[tactic(auto, unfolding(crate::specs::Word::shift_of))]
pub(crate) fn shift_of(word: &[u8]) -> Option<u8>
    ensures value { result ≡ spec.shift_of word.now }
    ensures below { IfSome result (λ kind. kind < 4) }
{
    (0..4u8).find(|kind| shift_name(*kind).as_bytes() == word)
}

#[tactic(auto, unfolding(crate::specs::Word::condition_of))]
fn condition_of(word: &[u8]) -> Option<u8>
    ensures value { result ≡ spec.condition_of word.now }
    ensures below { IfSome result (λ cond. cond < 14) }
{
    (0..14u8).find(|cond| condition_name(*cond).as_bytes() == word)
}

/// The data operation of a name.
fn data_op(word: &[u8]) -> Option<u8>
    ensures value { result ≡ spec.numbered data_name 16 word.now }
    ensures below { IfSome result (λ op. op < 16) }
{
    (0..16u8).find(|op| data_name(*op).as_bytes() == word)
}

/// The name without an `s` behind it.
fn setting_name(word: &[u8]) -> Option<&[u8]>
    ensures { option_copied result ≡ spec.setting_name word.now }
{
    word.strip_suffix(b"s")
}

/// A data operation, and with `s` behind its name one that sets the flags.
#[tactic(auto, unfolding(crate::specs::Word::data_head))]
fn data_head(word: &[u8]) -> Option<Head>
    ensures value { result ≡ spec.data_head word.now }
    ensures fit { IfSome result IsHead }
{
    match data_op(word) {
        Some(op) => Some(Head::Data { op, s: false }),
        None => {
            let op = data_op(setting_name(word)?)?;
            if is_comparison(op) {
                None
            } else {
                Some(Head::Data { op, s: true })
            }
        }
    }
}

fn mem(load: bool, byte: bool) -> Head
    ensures { result ≡ heads.Mem load byte }
{
    Head::Mem { load, byte }
}

fn multi(load: bool, p: bool, u: bool) -> Head
    ensures { result ≡ heads.Multi load p u }
{
    Head::Multi { load, p, u }
}

/// Loads and stores of a word or byte.
#[tactic(auto, unfolding(crate::specs::Word::single_head))]
fn single_head(word: &[u8]) -> Option<Head>
    ensures value { result ≡ spec.single_head word.now }
    ensures fit { IfSome result IsHead }
{
    if word == b"ldr".as_slice() {
        return Some(mem(true, false));
    }
    if word == b"str".as_slice() {
        return Some(mem(false, false));
    }
    if word == b"ldrb".as_slice() {
        return Some(mem(true, true));
    }
    if word == b"strb".as_slice() {
        return Some(mem(false, true));
    }
    None
}

/// Branches and the supervisor's call.
#[tactic(auto, unfolding(crate::specs::Word::branch_head))]
fn branch_head(word: &[u8]) -> Option<Head>
    ensures value { result ≡ spec.branch_head word.now }
    ensures fit { IfSome result IsHead }
{
    if word == b"b".as_slice() {
        return Some(Head::Branch { link: false });
    }
    if word == b"bl".as_slice() {
        return Some(Head::Branch { link: true });
    }
    if word == b"bx".as_slice() {
        return Some(Head::Bx);
    }
    if word == b"blx".as_slice() {
        return Some(Head::Blx);
    }
    if word == b"svc".as_slice() {
        return Some(Head::Svc);
    }
    None
}

/// Multiple loads and stores.
#[tactic(auto, unfolding(crate::specs::Word::multi_head))]
fn multi_head(word: &[u8]) -> Option<Head>
    ensures value { result ≡ spec.multi_head word.now }
    ensures fit { IfSome result IsHead }
{
    if word == b"ldmia".as_slice() {
        return Some(multi(true, false, true));
    }
    if word == b"ldmib".as_slice() {
        return Some(multi(true, true, true));
    }
    if word == b"ldmda".as_slice() {
        return Some(multi(true, false, false));
    }
    if word == b"ldmdb".as_slice() {
        return Some(multi(true, true, false));
    }
    if word == b"stmia".as_slice() {
        return Some(multi(false, false, true));
    }
    if word == b"stmib".as_slice() {
        return Some(multi(false, true, true));
    }
    if word == b"stmda".as_slice() {
        return Some(multi(false, false, false));
    }
    if word == b"stmdb".as_slice() {
        return Some(multi(false, true, false));
    }
    if word == b"push".as_slice() {
        return Some(Head::Stack { load: false });
    }
    if word == b"pop".as_slice() {
        return Some(Head::Stack { load: true });
    }
    None
}

/// Multiplications of words, and what has no kinds.
#[tactic(auto, unfolding(crate::specs::Word::plain_head))]
fn plain_head(word: &[u8]) -> Option<Head>
    ensures value { result ≡ spec.plain_head word.now }
    ensures fit { IfSome result IsHead }
{
    if word == b"mul".as_slice() {
        return Some(Head::Mul { s: false });
    }
    if word == b"muls".as_slice() {
        return Some(Head::Mul { s: true });
    }
    if word == b"mla".as_slice() {
        return Some(Head::Mla { s: false });
    }
    if word == b"mlas".as_slice() {
        return Some(Head::Mla { s: true });
    }
    if word == b"clz".as_slice() {
        return Some(Head::Clz);
    }
    if word == b"movw".as_slice() {
        return Some(Head::Movw);
    }
    if word == b"movt".as_slice() {
        return Some(Head::Movt);
    }
    if word == b"nop".as_slice() {
        return Some(Head::Nop);
    }
    None
}

/// The long multiplication of a name.
fn long_kind(word: &[u8]) -> Option<u8>
    ensures value { result ≡ spec.numbered long_name 4 word.now }
    ensures below { IfSome result (λ kind. kind < 4) }
{
    (0..4u8).find(|kind| long_name(*kind).as_bytes() == word)
}

/// A long multiplication, and with `s` behind its name one that sets the flags.
#[tactic(auto, unfolding(crate::specs::Word::long_head))]
fn long_head(word: &[u8]) -> Option<Head>
    ensures value { result ≡ spec.long_head word.now }
    ensures fit { IfSome result IsHead }
{
    match long_kind(word) {
        Some(kind) => Some(Head::Long { kind, s: false }),
        None => {
            let kind = long_kind(setting_name(word)?)?;
            Some(Head::Long { kind, s: true })
        }
    }
}

/// A load or store of a halfword or a signed byte.
#[tactic(auto, unfolding(crate::specs::Word::half_head))]
fn half_head(word: &[u8]) -> Option<Head>
    ensures value { result ≡ spec.half_head word.now }
    ensures fit { IfSome result IsHead }
{
    let kind = half_kind(word)?;
    Some(Head::Half { kind })
}

/// The kind of such a name.
fn half_kind(word: &[u8]) -> Option<u8>
    ensures value { result ≡ spec.numbered half_name 4 word.now }
    ensures below { IfSome result (λ kind. kind < 4) }
{
    (0..4u8).find(|kind| half_name(*kind).as_bytes() == word)
}

/// What a word says that has no condition.
#[tactic(auto, unfolding(crate::specs::Word::head_of))]
fn head_of(word: &[u8]) -> Option<Head>
    ensures value { result ≡ spec.head_of word.now }
    ensures fit { IfSome result IsHead }
{
    if let Some(head) = data_head(word) {
        return Some(head);
    }
    if let Some(head) = single_head(word) {
        return Some(head);
    }
    if let Some(head) = branch_head(word) {
        return Some(head);
    }
    if let Some(head) = multi_head(word) {
        return Some(head);
    }
    if let Some(head) = plain_head(word) {
        return Some(head);
    }
    if let Some(head) = long_head(word) {
        return Some(head);
    }
    half_head(word)
}

/// A head with a condition behind it.
#[tactic(auto, unfolding(crate::specs::Word::conditional_of))]
fn conditional_of(word: &[u8]) -> Option<Mnemonic>
    ensures value { result ≡ spec.conditional_of word.now }
    ensures fit { IfSome result (λ m. IsHead m.head × (m.cond < 15)) }
{
    let place = word.len().saturating_sub(2);
    let cond = condition_of(&word[place..])?;
    let head = head_of(&word[..place])?;
    Some(Mnemonic { head, cond })
}

/// What a mnemonic says.
#[tactic(auto, unfolding(crate::specs::Word::mnemonic_of))]
pub fn mnemonic_of(word: &[u8]) -> Option<Mnemonic>
    ensures value { result ≡ spec.mnemonic_of word.now }
    ensures fit { IfSome result (λ m. IsHead m.head × (m.cond < 15)) }
{
    match head_of(word) {
        Some(head) => Some(Mnemonic { head, cond: 14 }),
        None => conditional_of(word),
    }
}

/// Whether a byte is a decimal digit.
fn is_decimal(byte: u8) -> bool
    ensures { result ≡ is_decimal byte }
{
    byte.is_ascii_digit()
}

/// Whether all bytes are of words.
fn is_all_word(bytes: &[u8]) -> bool
    ensures { result ≡ list_all is_word bytes.now }
{
    bytes.iter().all(|byte| is_word(*byte))
}

/// Letters, digits, `_`, `.` and `$`, the first of them no digit.
#[tactic(auto, unfolding(crate::specs::Word::is_name))]
pub fn is_name(word: &[u8]) -> bool
    ensures { result ≡ spec.is_name word.now }
{
    match word.first() {
        None => false,
        Some(first) => !is_decimal(*first) && word.len() <= 255 && is_all_word(word),
    }
}

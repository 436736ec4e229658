//! What stands behind a directive.

ghost use Rattle.std.specs.Prelude.{◌≡◌, ◌<◌, ◌≤◌, true, not, IfSome, IfOk, option_map, position, length};
ghost use Rattle.std.specs.Option.{option_copied};
ghost use Rattle.elf_model.specs.declared.constants.TheConstants.{STT_FUNC, STV_PROTECTED};
ghost use Rattle.a32_asm.specs.declared.directive.Directive.TheVariants as directives;
ghost use Rattle.a32_asm.specs.declared.section.TheConstants.{SECTIONS};
ghost use Rattle.a32_text.specs.Word.{is_name};
ghost use Rattle.a32_text.specs.Taking.{Takes, take_by, ended};
ghost use Rattle.a32_text.specs.Statement.{operand_tokens};
ghost use Rattle.a32_asm.specs.Directive as spec;
ghost use Rattle.a32_asm.specs.Shown.{shown_statement, shown_bytes, States};
ghost use Rattle.a32_asm.specs.parts.Fits.{IsDirective, IsStatement};

use crate::bytes::{behind_blanks, behind_byte};
use crate::directive::Directive;
use crate::said::Statement;
use a32_text::{AsmKind, Scanner, gap, is_name, mark, name, number_taken, word};
use elf_model::constants::{
    R_ARM_ABS32, R_ARM_FUNCDESC, R_ARM_GOT_BREL, R_ARM_GOTFUNCDESC, R_ARM_GOTOFF32,
    R_ARM_GOTOFFFUNCDESC, STT_FUNC, STT_OBJECT,
};
use fd_base::number;

/// The alignments that may be asked for.
const ALIGNS: [u32; 13] = [1, 2, 4, 8, 16, 32, 64, 128, 256, 512, 1024, 2048, 4096];

/// Whether no token is left.
fn is_end(tokens: &mut Scanner) -> bool
    ensures { result ≡ spec.is_nothing tokens.old }
{
    tokens.next().is_none()
}

/// A name, and nothing behind it.
fn lone_name<'a>(rest: &'a [u8]) -> Option<&'a [u8]>
    ensures value { shown_bytes result ≡ spec.lone_name (operand_tokens rest.now) }
    ensures fit { IfSome result (λ name. is_name name.now ≡ true) }
{
    let mut tokens = Scanner::new(rest);
    let name = name(&mut tokens)?;
    if is_end(&mut tokens) {
        Some(name)
    } else {
        None
    }
}

/// A number, and nothing behind it.
fn lone_number(rest: &[u8]) -> Option<u32>
    ensures { result ≡ spec.lone_number (operand_tokens rest.now) }
{
    let mut tokens = Scanner::new(rest);
    let n = number_taken(&mut tokens)?;
    if is_end(&mut tokens) { Some(n) } else { None }
}

/// The type of a name.
#[tactic(auto, unfolding(crate::specs::Directive::kind_of))]
fn kind_of(word: &[u8]) -> Option<u8>
    ensures value { result ≡ spec.kind_of word.now }
    ensures fit { IfSome result (λ kind. kind ≤ STT_FUNC) }
{
    if word == b"func".as_slice() {
        return Some(STT_FUNC);
    }
    if word == b"object".as_slice() {
        return Some(STT_OBJECT);
    }
    None
}

/// Takes the type of a name.
fn kind_taken(tokens: &mut Scanner) -> Option<u8>
    ensures value { Takes result tokens.new (take_by spec.kind_of tokens.old) }
    ensures fit { IfSome result (λ kind. kind ≤ STT_FUNC) }
{
    kind_of(word(tokens)?)
}

/// Takes a name, blanks and its type.
#[tactic(auto, unfolding(crate::specs::Directive::take_kind))]
fn kind<'a>(tokens: &mut Scanner<'a>) -> Option<Statement<'a>>
    ensures value { Takes (option_map shown_statement result) tokens.new (spec.take_kind tokens.old) }
    ensures fit { IfSome result (λ s. IsStatement (shown_statement s)) }
{
    let name = name(tokens)?;
    gap(tokens)?;
    let kind = kind_taken(tokens)?;
    Some(Statement::Kind { name, kind })
}

/// The relocation of an operator.
#[tactic(auto, unfolding(crate::specs::Directive::relocation_of))]
fn relocation_of(word: &[u8]) -> Option<u8>
    ensures { result ≡ spec.relocation_of word.now }
{
    if word == b"GOT".as_slice() {
        return Some(R_ARM_GOT_BREL);
    }
    if word == b"GOTOFF".as_slice() {
        return Some(R_ARM_GOTOFF32);
    }
    if word == b"GOTFUNCDESC".as_slice() {
        return Some(R_ARM_GOTFUNCDESC);
    }
    if word == b"GOTOFFFUNCDESC".as_slice() {
        return Some(R_ARM_GOTOFFFUNCDESC);
    }
    if word == b"FUNCDESC".as_slice() {
        return Some(R_ARM_FUNCDESC);
    }
    None
}

/// Takes an operator.
fn relocation_taken(tokens: &mut Scanner) -> Option<u8>
    ensures { Takes result tokens.new (take_by spec.relocation_of tokens.old) }
{
    relocation_of(word(tokens)?)
}

/// Takes what is added to a name.
#[tactic(auto, unfolding(crate::specs::Directive::take_added))]
fn added<'a>(name: &'a [u8], tokens: &mut Scanner) -> Option<Statement<'a>>
    requires { is_name name.now ≡ true }
    ensures value { Takes (option_map shown_statement result) tokens.new (spec.take_added name.now tokens.old) }
    ensures fit { IfSome result (λ s. IsStatement (shown_statement s)) }
{
    let add = number_taken(tokens)?;
    Some(Statement::WordOf {
        name,
        kind: R_ARM_ABS32,
        add,
    })
}

/// Takes an operator and the bracket behind it.
#[tactic(auto, unfolding(crate::specs::Directive::take_operator))]
fn operator<'a>(name: &'a [u8], tokens: &mut Scanner) -> Option<Statement<'a>>
    requires { is_name name.now ≡ true }
    ensures value { Takes (option_map shown_statement result) tokens.new (spec.take_operator name.now tokens.old) }
    ensures fit { IfSome result (λ s. IsStatement (shown_statement s)) }
{
    let kind = relocation_taken(tokens)?;
    mark(tokens, b')')?;
    Some(Statement::WordOf { name, kind, add: 0 })
}

/// Takes what stands behind a name: `+` and a number, an operator in brackets, or nothing.
#[tactic(auto, unfolding(crate::specs::Directive::take_behind_name))]
fn behind_name<'a>(name: &'a [u8], tokens: &mut Scanner) -> Option<Statement<'a>>
    requires { is_name name.now ≡ true }
    ensures value { Takes (option_map shown_statement result) tokens.new (spec.take_behind_name name.now tokens.old) }
    ensures fit { IfSome result (λ s. IsStatement (shown_statement s)) }
{
    if tokens.has_mark(b'+') {
        return added(name, tokens);
    }
    if tokens.has_mark(b'(') {
        return operator(name, tokens);
    }
    Some(Statement::WordOf {
        name,
        kind: R_ARM_ABS32,
        add: 0,
    })
}

/// Takes a number, or something with a name.
#[tactic(auto, unfolding(crate::specs::Directive::take_value))]
fn value<'a>(tokens: &mut Scanner<'a>) -> Option<Statement<'a>>
    ensures value { Takes (option_map shown_statement result) tokens.new (spec.take_value tokens.old) }
    ensures fit { IfSome result (λ s. IsStatement (shown_statement s)) }
{
    let word = word(tokens)?;
    if is_name(word) {
        return behind_name(word, tokens);
    }
    let n = number(word)?;
    Some(Statement::Word(n))
}

/// A byte of a string.
#[tactic(auto, unfolding(crate::specs::Directive::is_of_text))]
fn is_of_text(byte: u8) -> bool
    ensures { result ≡ spec.is_of_text byte }
{
    0x20 <= byte && byte <= 0x7e && byte != b'"'
}

/// The place of the first byte that is of no string.
fn text_end(bytes: &[u8]) -> Option<usize>
    ensures place { result ≡ position (λ byte. not (spec.is_of_text byte)) bytes.now }
    ensures within { IfSome result (λ end. end < length bytes.now) }
{
    bytes.iter().position(|byte| !is_of_text(*byte))
}

/// A string whose first quote is taken, with nothing behind its last one.
#[tactic(auto, unfolding(crate::specs::Directive::closed_text))]
fn closed_text<'a>(bytes: &'a [u8]) -> Option<&'a [u8]>
    ensures { shown_bytes result ≡ spec.closed_text bytes.now }
{
    let end = text_end(bytes)?;
    let rest = behind_byte(&bytes[end..], b'"')?;
    if is_end(&mut Scanner::new(rest)) {
        Some(&bytes[..end])
    } else {
        None
    }
}

/// A string in quotes, behind blanks.
#[tactic(auto, unfolding(crate::specs::Directive::text_of))]
fn text_of<'a>(bytes: &'a [u8]) -> Option<&'a [u8]>
    ensures { shown_bytes result ≡ spec.text_of bytes.now }
{
    closed_text(behind_byte(behind_blanks(bytes), b'"')?)
}

fn byte_of<'a>(n: u32) -> Result<Statement<'a>, AsmKind>
    ensures value { States result (spec.byte_of n) }
    ensures fit { IfOk result (λ s. IsStatement (shown_statement s)) }
{
    if n <= 255 {
        Ok(Statement::Byte(n as u8))
    } else {
        Err(AsmKind::Range)
    }
}

/// Whether a number is a power of two up to 4,096.
#[tactic(auto, using(crate::proofs::Aligns::within))]
fn is_align(n: u32) -> bool
    ensures value { result ≡ spec.is_align n }
    ensures within { result ≡ true → (0 < n) × (n ≤ 4096) }
{
    ALIGNS.iter().any(|align| *align == n)
}

fn align_of<'a>(n: u32) -> Result<Statement<'a>, AsmKind>
    ensures value { States result (spec.align_of n) }
    ensures fit { IfOk result (λ s. IsStatement (shown_statement s)) }
{
    if is_align(n) {
        Ok(Statement::Align(n))
    } else {
        Err(AsmKind::Range)
    }
}

/// A statement that has to be there.
fn formed<'a>(statement: Option<Statement<'a>>) -> Result<Statement<'a>, AsmKind>
    requires { IfSome statement (λ s. IsStatement (shown_statement s)) }
    ensures value { States result (spec.formed (option_map shown_statement statement.entry)) }
    ensures fit { IfOk result (λ s. IsStatement (shown_statement s)) }
{
    match statement {
        Some(statement) => Ok(statement),
        None => Err(AsmKind::Operand),
    }
}

/// `.text` and the like.
#[tactic(auto, unfolding(crate::specs::Directive::operands_of))]
fn section<'a>(number: u8, rest: &[u8]) -> Result<Statement<'a>, AsmKind>
    requires { number < SECTIONS }
    ensures value { States result (spec.operands_of (directives.Section number) rest.now) }
    ensures fit { IfOk result (λ s. IsStatement (shown_statement s)) }
{
    if is_end(&mut Scanner::new(rest)) {
        Ok(Statement::Section(number))
    } else {
        Err(AsmKind::Operand)
    }
}

/// `.global` and `.weak`.
#[tactic(auto, unfolding(crate::specs::Directive::operands_of))]
fn bind<'a>(weak: bool, rest: &'a [u8]) -> Result<Statement<'a>, AsmKind>
    ensures value { States result (spec.operands_of (directives.Bind weak) rest.now) }
    ensures fit { IfOk result (λ s. IsStatement (shown_statement s)) }
{
    match lone_name(rest) {
        Some(name) => Ok(Statement::Bind { name, weak }),
        None => Err(AsmKind::Operand),
    }
}

/// `.hidden` and `.protected`.
#[tactic(auto, unfolding(crate::specs::Directive::operands_of))]
fn show<'a>(visibility: u8, rest: &'a [u8]) -> Result<Statement<'a>, AsmKind>
    requires { visibility ≤ STV_PROTECTED }
    ensures value { States result (spec.operands_of (directives.Show visibility) rest.now) }
    ensures fit { IfOk result (λ s. IsStatement (shown_statement s)) }
{
    match lone_name(rest) {
        Some(name) => Ok(Statement::Show { name, visibility }),
        None => Err(AsmKind::Operand),
    }
}

/// A type, and nothing behind it.
fn lone_kind<'a>(rest: &'a [u8]) -> Option<Statement<'a>>
    ensures value { option_map shown_statement result ≡ ended (spec.take_kind (operand_tokens rest.now)) }
    ensures fit { IfSome result (λ s. IsStatement (shown_statement s)) }
{
    let mut tokens = Scanner::new(rest);
    let statement = kind(&mut tokens)?;
    if is_end(&mut tokens) {
        Some(statement)
    } else {
        None
    }
}

/// A value, and nothing behind it.
fn lone_value<'a>(rest: &'a [u8]) -> Option<Statement<'a>>
    ensures value { option_map shown_statement result ≡ ended (spec.take_value (operand_tokens rest.now)) }
    ensures fit { IfSome result (λ s. IsStatement (shown_statement s)) }
{
    let mut tokens = Scanner::new(rest);
    let statement = value(&mut tokens)?;
    if is_end(&mut tokens) {
        Some(statement)
    } else {
        None
    }
}

/// `.byte`.
#[tactic(auto, unfolding(crate::specs::Directive::operands_of))]
fn byte<'a>(rest: &[u8]) -> Result<Statement<'a>, AsmKind>
    ensures value { States result (spec.operands_of directives.Byte rest.now) }
    ensures fit { IfOk result (λ s. IsStatement (shown_statement s)) }
{
    match lone_number(rest) {
        Some(n) => byte_of(n),
        None => Err(AsmKind::Operand),
    }
}

/// `.asciz`.
#[tactic(auto, unfolding(crate::specs::Directive::operands_of))]
fn asciz<'a>(rest: &'a [u8]) -> Result<Statement<'a>, AsmKind>
    ensures value { States result (spec.operands_of directives.Asciz rest.now) }
    ensures fit { IfOk result (λ s. IsStatement (shown_statement s)) }
{
    match text_of(rest) {
        Some(text) => Ok(Statement::Text(text)),
        None => Err(AsmKind::Operand),
    }
}

/// `.space`.
#[tactic(auto, unfolding(crate::specs::Directive::operands_of))]
fn space<'a>(rest: &[u8]) -> Result<Statement<'a>, AsmKind>
    ensures value { States result (spec.operands_of directives.Space rest.now) }
    ensures fit { IfOk result (λ s. IsStatement (shown_statement s)) }
{
    match lone_number(rest) {
        Some(n) => Ok(Statement::Space(n)),
        None => Err(AsmKind::Operand),
    }
}

/// `.align`.
#[tactic(auto, unfolding(crate::specs::Directive::operands_of))]
fn align<'a>(rest: &[u8]) -> Result<Statement<'a>, AsmKind>
    ensures value { States result (spec.operands_of directives.Align rest.now) }
    ensures fit { IfOk result (λ s. IsStatement (shown_statement s)) }
{
    match lone_number(rest) {
        Some(n) => align_of(n),
        None => Err(AsmKind::Operand),
    }
}

/// What a directive says with what stands behind it.
#[tactic(auto, unfolding(crate::specs::Directive::operands_of))]
pub(crate) fn operands_of<'a>(
    directive: Directive,
    rest: &'a [u8],
) -> Result<Statement<'a>, AsmKind>
    requires { IsDirective directive }
    ensures value { States result (spec.operands_of directive rest.now) }
    ensures fit { IfOk result (λ s. IsStatement (shown_statement s)) }
{
    match directive {
        Directive::Section(number) => section(number, rest),
        Directive::Bind { weak } => bind(weak, rest),
        Directive::Show { visibility } => show(visibility, rest),
        Directive::Kind => formed(lone_kind(rest)),
        Directive::Word => formed(lone_value(rest)),
        Directive::Byte => byte(rest),
        Directive::Asciz => asciz(rest),
        Directive::Space => space(rest),
        Directive::Align => align(rest),
    }
}

//! Lists of registers.

ghost use Rattle.std.specs.Prelude.{◌≡◌, ◌<◌, ◌≤◌, ◌^◌, ◌+◌, Some};
ghost use Rattle.a32_text.specs.Shown.{shown_token};
ghost use Rattle.a32_text.specs.Taking.{Takes};
ghost use Rattle.a32_text.specs.List as spec;

use crate::scanner::{Scanner, Token};
use crate::taking::mark;
use crate::words::register_of;

/// The bits from one place up to another.
#[tactic(auto, unfolding(crate::specs::List::bits_from), using(crate::proofs::Listing::few_bits))]
fn bits_from(first: u8, last: u8) -> u32
    requires order { first ≤ last }
    requires below { last < 16 }
    ensures bits { result ≡ spec.bits_from first last }
{
    (1u32 << (last + 1)) - (1u32 << first)
}

/// A list of registers that is open.
#[derive(Clone, Copy, Debug)]
pub(crate) struct OpenList {
    /// The registers that are in it.
    list: u32,
    /// The least that may follow.
    low: u8,
    /// The first of a range whose last is to come, or else the next register.
    first: Option<u8>,
    /// The register that was read last, where its mark is to come.
    last: Option<u8>,
}

/// What a token does to an open list.
#[derive(Clone, Copy, Debug)]
enum ListStep {
    On(OpenList),
    Closed(u16),
    Wrong,
}

/// A register in an open list.
fn with_register(so_far: &OpenList, r: u8) -> ListStep
    requires is_open { spec.IsOpen so_far.now }
    requires below { r < 16 }
    ensures step { result ≡ spec.with_register so_far.now r }
    ensures stays { spec.StaysOpen result }
{
    let first = match so_far.first {
        Some(first) => first,
        None => r,
    };
    if first < so_far.low || r < first {
        return ListStep::Wrong;
    }
    ListStep::On(OpenList {
        list: so_far.list,
        low: so_far.low,
        first: so_far.first,
        last: Some(r),
    })
}

/// The registers up to the last one.
#[tactic(auto, using(crate::proofs::Listing::more_bits))]
fn listed_to(list: u32, low: u8, first: u8, r: u8) -> u32
    requires list { list < 2 ^ low }
    requires rising { low ≤ first }
    requires order { first ≤ r }
    requires below { r < 16 }
    ensures list { result ≡ list + spec.bits_from first r }
    ensures below { result < 2 ^ (r + 1) }
    ensures short { result < 2 ^ 16 }
{
    list + bits_from(first, r)
}

/// A mark behind a register of an open list.
fn with_mark(so_far: &OpenList, r: u8, mark: u8) -> ListStep
    requires is_open { spec.IsOpen so_far.now }
    requires last { so_far.now.last ≡ Some r }
    ensures step { result ≡ spec.with_mark so_far.now r mark }
    ensures stays { spec.StaysOpen result }
{
    let first = match so_far.first {
        Some(first) => first,
        None => r,
    };
    if mark == b'-' && so_far.first.is_none() {
        return ListStep::On(OpenList {
            list: so_far.list,
            low: so_far.low,
            first: Some(r),
            last: None,
        });
    }
    let list = listed_to(so_far.list, so_far.low, first, r);
    match mark {
        b',' => ListStep::On(OpenList {
            list,
            low: r + 1,
            first: None,
            last: None,
        }),
        b'}' => ListStep::Closed(list as u16),
        _ => ListStep::Wrong,
    }
}

fn list_step(so_far: &OpenList, token: Token) -> ListStep
    requires { spec.IsOpen so_far.now }
    ensures step { result ≡ spec.list_step so_far.now (shown_token token.entry) }
    ensures stays { spec.StaysOpen result }
{
    match (so_far.last, token) {
        (None, Token::Word(word)) => match register_of(word) {
            Some(r) => with_register(so_far, r),
            None => ListStep::Wrong,
        },
        (Some(r), Token::Mark(mark)) => with_mark(so_far, r, mark),
        _ => ListStep::Wrong,
    }
}

/// The registers of a list whose brace is open.
fn items(tokens: &mut Scanner) -> Option<u16>
    ensures { Takes result tokens.new (spec.listing spec.opened tokens.old) }
{
    let mut so_far = OpenList {
        list: 0,
        low: 0,
        first: None,
        last: None,
    };
    while let Some(token) = tokens.next() {
        match list_step(&so_far, token) {
            ListStep::On(next) => so_far = next,
            ListStep::Closed(list) => return Some(list),
            ListStep::Wrong => return None,
        }
    }
    None
}

#[tactic(auto, unfolding(crate::specs::List::take_list))]
pub(crate) fn list(tokens: &mut Scanner) -> Option<u16>
    ensures { Takes result tokens.new (spec.take_list tokens.old) }
{
    mark(tokens, b'{')?;
    items(tokens)
}

//! The words that loading writes.

ghost use Rattle.std.specs.Prelude.{ℕ, ◌≡◌, ◌+◌, ◌^◌, ◌<◌, IfOk, OnOk, ◌++◌, ◌∷◌, [], Some, All, unwrap_or};
ghost use Rattle.arm_relocs.specs.Value as arm;
ghost use Rattle.elf_model.specs.Sound.{IsSound};
ghost use Rattle.load_model.specs.Definition.{Linkage};
ghost use Rattle.load_model.specs.Image.{got_words, value_words, pair_at, pair_words, descriptor_word, words_of, number_of_value, got_of};
ghost use Rattle.load_map.specs.Maps.{map_at};
ghost use Rattle.load_map.specs.Translation.{placed};
ghost use Rattle.load_model.specs.Sites.{addend_of};
ghost use Rattle.load_model.specs.Unbound as unbound_slots;
ghost use Rattle.load_image.specs.Places.{PlaceTables, placing_in};
ghost use Rattle.load_map.specs.Maps.{map_at};
ghost use Rattle.load_image.specs.parts.Words.{HasValues, words_by, words_with};

use crate::places::Places;
use arm_relocs::apply_value;
use elf_model::{FilledSite, Func, Object, Rel, file_word};
use fd_base::Memory;
use load_map::placed;
use load_model::{LinkWord, MAX_MODULES, RESOLVER, SiteValue, Value, is_set, load_map_at};
use std::alloc::Global;

/// The header of the GOT.
fn got_words(number: u32, got: u32) -> [LinkWord; 3]
    requires number { number < MAX_MODULES }
    requires got { got + 12 < 2 ^ 32 }
    ensures { (t : PlaceTables) → result ≡ got_words (placing_in t) number got }
{
    [
        LinkWord {
            addr: got,
            value: RESOLVER,
        },
        LinkWord {
            addr: got + 4,
            value: number,
        },
        LinkWord {
            addr: got + 8,
            value: load_map_at(number),
        },
    ]
}

/// What the formula of a relocation gives.
fn formula(places: &Places, m: u32, object: &Object, rel: &Rel, value: &Value) -> u32
    requires { rel.now.site + 4 < 2 ^ 32 }
    ensures { result ≡ unwrap_or (arm.apply_value rel.now.kind (number_of_value (placing_in places.now) value.now) (addend_of object.entry.now rel.now) (placed (map_at places.now.maps m) rel.now.site) (got_of (placing_in places.now) m)) 0 }
{
    let addend = file_word(object.segments.as_slice(), rel.site);
    let site = placed(places.map(m), rel.site);
    apply_value(
        rel.kind,
        places.number_of(value),
        addend,
        site,
        places.got_of(m),
    )
    .unwrap_or(0)
}

fn push_word(words: &mut Vec<LinkWord>, addr: u32, value: u32) -> Result<(), Memory>
    ensures { OnOk result (words.new.items ≡ words.old.items ++ record { addr = addr; value = value } ∷ []) }
{
    words.push(LinkWord { addr, value })?;
    Ok(())
}

/// The two words of a slot.
fn push_pair(words: &mut Vec<LinkWord>, site: u32, code: u32, got: u32) -> Result<(), Memory>
    requires { site + 4 < 2 ^ 32 }
    ensures { OnOk result (words.new.items ≡ words.old.items ++ pair_at site code got) }
{
    words.extend_from_slice(&[
        LinkWord {
            addr: site,
            value: code,
        },
        LinkWord {
            addr: site + 4,
            value: got,
        },
    ])
}

/// The entry point of a function and its GOT, or two zeros.
fn push_function(
    words: &mut Vec<LinkWord>,
    places: &Places,
    site: u32,
    f: &Option<Func>,
) -> Result<(), Memory>
    requires { site + 4 < 2 ^ 32 }
    ensures { OnOk result (words.new.items ≡ words.old.items ++ pair_words (placing_in places.now) site f.now) }
{
    match f {
        Some(f) => push_pair(words, site, places.place_of(f), places.got_of(f.module)),
        None => push_pair(words, site, 0, 0),
    }
}

/// The address of a function's descriptor, or zero.
fn descriptor_addr(places: &Places, f: &Option<Func>) -> u32
    ensures { (site : ℕ) → record { addr = site; value = result } ∷ [] ≡ descriptor_word (placing_in places.now) site f.now }
{
    match f {
        Some(f) => places.descriptor_of(f).unwrap_or(0),
        None => 0,
    }
}

/// What a site of module `m` holds.
fn push_value(
    words: &mut Vec<LinkWord>,
    places: &Places,
    m: u32,
    object: &Object,
    rel: &Rel,
    value: &SiteValue,
) -> Result<(), Memory>
    requires { rel.now.site + 4 < 2 ^ 32 }
    ensures { OnOk result (words.new.items ≡ words.old.items ++ value_words (placing_in places.now) m object.entry.now rel.now value.now) }
{
    match value {
        SiteValue::Place(f) => push_word(words, rel.site, places.place_of(f)),
        SiteValue::Formula(v) => push_word(words, rel.site, formula(places, m, object, rel, v)),
        SiteValue::Pair(f) => push_function(words, places, rel.site, f),
        SiteValue::Stub(z) => {
            push_pair(words, rel.site, placed(places.map(m), *z), places.got_of(m))
        }
        SiteValue::Descriptor(f) => push_word(words, rel.site, descriptor_addr(places, f)),
    }
}

/// Whether a site is that of an unbound slot.
fn waits(unbound: &[bool], site: &FilledSite) -> bool
    ensures { result ≡ unbound_slots.waits unbound.now site.now }
{
    match site.slot {
        Some(k) => is_set(unbound, k),
        None => false,
    }
}

/// The value at a site for now: an unbound slot leads where the file's word at it says.
fn standing(object: &Object, unbound: &[bool], site: &FilledSite, value: &SiteValue) -> SiteValue
    requires { site.now.rel.site + 4 < 2 ^ 32 }
    ensures { result ≡ unbound_slots.stub_or (unbound_slots.waits unbound.now site.now) object.entry.now site.now.rel value.now }
{
    if waits(unbound, site) {
        SiteValue::Stub(file_word(object.segments.as_slice(), site.rel.site))
    } else {
        *value
    }
}

/// What a site of module `m` with this value holds for now.
fn push_site(
    words: &mut Vec<LinkWord>,
    places: &Places,
    m: u32,
    object: &Object,
    unbound: &[bool],
    site: &FilledSite,
    value: &SiteValue,
) -> Result<(), Memory>
    requires { site.now.rel.site + 4 < 2 ^ 32 }
    ensures { OnOk result (words.new.items ≡ words.old.items ++ value_words (placing_in places.now) m object.entry.now site.now.rel
        (unbound_slots.stub_or (unbound_slots.waits unbound.now site.now) object.entry.now site.now.rel value.now)) }
{
    let value = standing(object, unbound, site, value);
    push_value(words, places, m, object, &site.rel, &value)
}

/// The words of these sites with their values, behind others.
fn push_values(
    words: &mut Vec<LinkWord>,
    places: &Places,
    m: u32,
    object: &Object,
    unbound: &[bool],
    sites: &[FilledSite],
    values: &[SiteValue],
) -> Result<(), Memory>
    requires { All (λ s. s.rel.site + 4 < 2 ^ 32) sites.now }
    ensures { OnOk result (words.new.items ≡ words.old.items ++ words_by (placing_in places.now) m object.entry.now unbound.now sites.now values.now) }
{
    for (site, value) in sites.iter().zip(values) {
        push_site(words, places, m, object, unbound, site, value)?;
    }
    Ok(())
}

/// All words that loading writes into module `m`, whose sites have these values, while slots with these flags are
/// unbound: the header of its GOT, and then those of its sites in order.
pub fn words(
    alloc: Global,
    places: &Places,
    m: u32,
    object: &Object,
    unbound: &[bool],
    values: &[SiteValue],
) -> Result<Vec<LinkWord>, Memory>
    requires number { m < MAX_MODULES }
    requires sound { IsSound object.now }
    ensures values { IfOk result (λ words. words.items ≡ words_with (placing_in places.now) m object.entry.now unbound.now values.now) }
    ensures known { IfOk result (λ words. (l : Linkage) → HasValues l m object.entry.now values.now
        → words.items ≡ words_of l (placing_in places.now) m object.entry.now unbound.now) }
{
    let mut words = Vec::from_slice(alloc, &got_words(m, object.got))?;
    let sites = object.sites(alloc)?;
    push_values(
        &mut words,
        places,
        m,
        object,
        unbound,
        sites.as_slice(),
        values,
    )?;
    Ok(words)
}

//! What relocations want to have in the GOT.

ghost use Rattle.std.specs.Prelude.{◌≡◌, ◌≤◌, [], ◌∷◌, ◌++◌, length, option_to_list, position, unwrap_or, nat_lt, IfOk, OnOk};
ghost use Rattle.std.specs.Map.{values_of};
ghost use Rattle.symbol_scope.specs.Closure.{with_one};
ghost use Rattle.std.specs.List.{filter_map};
ghost use Rattle.link_model.specs.Needs.{is_same_need, offset_of, got_size, slot_key};
ghost use Rattle.link_model.specs.Targets.{refuses, is_same_key};
ghost use Rattle.link_model.specs.declared.error.LinkRefusal.TheVariants.{TooLarge};
ghost use Rattle.link_model.specs.parts.Passes.{Gives};
ghost use Rattle.link_places.specs.parts.Got.{AreOffsets, kinds_of, next_behind};
ghost use Rattle.link_places.specs.parts.NeedList.{code_with, code_of, entries_of};

use crate::got::GotOffsets;
use fd_base::{Memory, Seq};
use indexmap::IndexMap;
use link_model::{Key, LinkErr, LinkRefusal, MAX_NEEDS, Need};
use std::alloc::Global;

/// What tells needs apart: which kind of need and of key, and the numbers of the key, or a link address.
type NeedCode = (u8, u64, u32);

/// Needs by first use, each once.
#[derive(Drop)]
pub(crate) struct NeedSet {
    map: IndexMap<NeedCode, Need>,
    ghost coded: { map.entries ≡ entries_of (values_of map.entries) },
}

/// What relocations want to have in the GOT, each once, and where each stands there.
#[derive(Drop)]
pub struct NeedTable {
    set: NeedSet,
    /// Those of the set, in order.
    list: Seq<Need>,
    got: GotOffsets,
    /// What has slots, by number of the slot.
    slots: Seq<Key>,
    pub ghost listed: { list ≡ values_of set.map.entries },
    pub ghost offsets: { AreOffsets (values_of set.map.entries) got.offsets },
    pub ghost first: { got.first ≡ next_behind (kinds_of (values_of set.map.entries)) 0 },
    pub ghost size: { got.size ≡ got_size (values_of set.map.entries) },
    pub ghost slotted: { slots ≡ filter_map slot_key (values_of set.map.entries) },
}

fn code_with(named: u8, key: Key) -> NeedCode
    requires { named ≤ 7 }
    ensures { result ≡ code_with named key }
{
    match key {
        Key::Name(k) => (named, u64::from(k), 0),
        Key::Own(input, number) => (named + 1, u64::from(input), number),
    }
}

fn code(need: Need) -> NeedCode
    ensures { result ≡ code_of need }
{
    match need {
        Need::Word(key) => code_with(0, key),
        Need::FuncWord(key) => code_with(2, key),
        Need::NoFunction(key) => code_with(4, key),
        Need::Slot(key) => code_with(6, key),
        Need::Descriptor(function) => (8, function, 0),
    }
}

impl NeedSet {
    ghost use Rattle.link_places.specs.parts.NeedTable.{needs_in};

    /// No needs. Takes no memory.
    pub(crate) fn new(alloc: Global) -> NeedSet
        ensures { needs_in result ≡ [] }
    {
        NeedSet {
            map: IndexMap::new(alloc),
        }
    }

    /// Adds a need, unless it is there.
    pub(crate) fn add(&mut self, need: Need) -> Result<(), Memory>
        ensures { OnOk result (needs_in self.new ≡ with_one is_same_need (needs_in self.old) need) }
    {
        let code = code(need);
        if self.map.contains_key(&code) {
            return Ok(());
        }
        self.map.insert(code, need)?;
        Ok(())
    }

    /// The place of a need.
    fn place(&self, need: Need) -> Option<usize>
        ensures { result ≡ position (is_same_need need) (needs_in self.now) }
    {
        self.map.get_index_of(&code(need))
    }
}

/// Puts what has a slot behind others, where a need is a slot.
fn put_slot(keys: &mut Seq<Key>, need: &Need) -> Result<(), Memory>
    ensures { OnOk result (keys.new ≡ keys.old ++ option_to_list (slot_key need.now)) }
{
    match need {
        Need::Slot(key) => keys.push(*key),
        _ => Ok(()),
    }
}

/// What has slots.
fn slot_keys(alloc: Global, needs: &[Need]) -> Result<Seq<Key>, Memory>
    ensures { IfOk result (λ keys. keys ≡ filter_map slot_key needs.now) }
{
    let mut keys = Seq::new(alloc);
    for need in needs {
        put_slot(&mut keys, need)?;
    }
    Ok(keys)
}

impl NeedTable {
    ghost use Rattle.link_places.specs.parts.NeedTable.{needs_in, needs_of};

    /// Places the needs in the GOT.
    pub(crate) fn new(alloc: Global, set: NeedSet) -> Result<NeedTable, LinkErr>
        ensures { Gives result (refuses TooLarge (nat_lt MAX_NEEDS (length (needs_in set))) ∷ []) (λ table. needs_of table ≡ needs_in set) }
    {
        if set.map.len() > MAX_NEEDS as usize {
            return Err(LinkErr::Refused(LinkRefusal::TooLarge));
        }
        let list = Seq::from_vec(set.map.values().copied().collect(alloc)?);
        let got = GotOffsets::new(alloc, list.as_slice())?;
        let slots = slot_keys(alloc, list.as_slice())?;
        Ok(NeedTable {
            set,
            list,
            got,
            slots,
        })
    }

    /// The needs, by first use.
    pub fn list(&self) -> &[Need]
        ensures { result.now ≡ needs_of self.now }
    {
        self.list.as_slice()
    }

    /// The offset of a need from the GOT, in bytes.
    pub fn offset(&self, need: Need) -> u32
        ensures { result ≡ offset_of (needs_of self.now) need }
    {
        match self.set.place(need) {
            Some(place) => self.got.offsets.as_slice()[place],
            None => self.got.first.place(&need),
        }
    }

    /// The size of the GOT, in bytes.
    pub fn got_size(&self) -> u32
        ensures { result ≡ got_size (needs_of self.now) }
    {
        self.got.size
    }

    /// How many slots there are.
    pub fn slot_count(&self) -> u32
        ensures count { result ≡ length (filter_map slot_key (needs_of self.now)) }
    {
        (self.got.size - self.got.first.slot) / 8
    }
    /// What has slots, by number of the slot.
    pub fn slot_keys(&self) -> &[Key]
        ensures { result.now ≡ filter_map slot_key (needs_of self.now) }
    {
        self.slots.as_slice()
    }

    /// The number of a symbol's slot, and 0 where it has none.
    pub fn slot_number(&self, key: Key) -> u32
        ensures { result ≡ unwrap_or (position (is_same_key key) (filter_map slot_key (needs_of self.now))) 0 }
    {
        (self.offset(Need::Slot(key)) - self.got.first.slot) / 8
    }
}

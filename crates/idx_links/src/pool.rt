//! Nodes by number in one order, with a chain for each owner.

use crate::chains::Chains;
use fd_base::Memory;
use std::alloc::Global;
use std::marker::Model;

/// The list of the nodes in order.
const ORDER: u32 = 0;
/// The list of the free nodes.
const FREE: u32 = 1;

/// What a node holds.
#[derive(Clone, Copy)]
struct Entry<T: Copy> {
    owner: u32,
    value: T,
}

/// Nodes in one order, each with an owner and a value. An owner's nodes form a chain, the newest first. A node is known by
/// its id, which a later node may get once it is removed. Only `new` and `reserve` take memory.
#[derive(Drop)]
pub struct Pool<T: Copy> {
    places: Chains,
    owners: Chains,
    entries: Vec<Option<Entry<T>>>,
    spare: u32,
}

impl<T: Copy> Model for Pool<T> {
    ghost use Rattle.idx_links.specs.parts.Nodes.{Nodes, nodes_code};
    ghost use Rattle.idx_links.specs.parts.Lists.{list_at};

    ghost Value = { Nodes T };

    ghost coded = { nodes_code T.code };

    ghost use Rattle.idx_links.specs.parts.Inside.{nodes_of, IsKept};

    ghost view = { λ p. record {
      order = nodes_of p.entries.items (list_at p.places.lists 0);
      chains = p.owners.lists;
      spare = p.spare;
    } };

    ghost invariant = { λ p. IsKept p.places p.owners p.entries.items p.spare };
}

impl<T: Copy> Pool<T> {
    ghost use Rattle.std.specs.Prelude.{◌≡◌, ℕ, ◌+◌, ◌^◌, ◌<◌, ◌≤◌, [], Some, IfOk, IfSome, OnOk, OnErr, length, option_map, replicate, slice_get};
    ghost use Rattle.idx_links.specs.parts.Nodes.{AreTied, IsLive, chain_of, id_behind, ids, node_at, with_node, without_node, without_owner};

    /// A pool without nodes. Its owners are the numbers below `owners`.
    pub fn new(alloc: Global, owners: u32) -> Result<Pool<T>, Memory>
        ensures { IfOk result (λ p. p ≡ record { order = []; chains = replicate owners []; spare = 0 }) }
    {
        Ok(Pool {
            places: Chains::new(alloc, 2)?,
            owners: Chains::new(alloc, owners)?,
            entries: Vec::new(alloc),
            spare: 0,
        })
    }

    /// Makes room for `n` more nodes at least. The room never shrinks, whatever the answer, and all else stays.
    pub fn reserve(&mut self, n: u32) -> Result<(), Memory>
        requires { length self.old.order + n < 2 ^ 32 }
        ensures room { OnOk result (n ≤ self.new.spare) }
        ensures grows { self.old.spare ≤ self.new.spare }
        ensures stays { self.new ≡ record self.old { spare = self.new.spare } }
    {
        for _ in self.spare..n {
            self.add()?;
        }
        Ok(())
    }

    /// One more free node.
    fn add(&mut self) -> Result<(), Memory>
        requires { length self.old.order + self.old.spare + 1 < 2 ^ 32 }
        ensures added { OnOk result (self.new ≡ record self.old { spare = self.old.spare + 1 }) }
        ensures stays { OnErr result (self.new ≡ self.old) }
    {
        let number = self.entries.len() as u32;
        self.places.hold(number)?;
        self.owners.hold(number)?;
        self.entries.push(None)?;
        self.places.insert(FREE, None, number);
        self.spare += 1;
        Ok(())
    }

    /// How many nodes there are.
    pub fn len(&self) -> u32
        ensures { result ≡ length self.now.order }
    {
        self.entries.len() as u32 - self.spare
    }

    /// Puts a new node right behind a live one, or at the front, and answers its id. It becomes its owner's newest.
    pub fn insert_after(&mut self, at: Option<u32>, owner: u32, value: T) -> u32
        requires room { 0 < self.old.spare }
        requires at { IfSome at (IsLive self.old) }
        requires owner { owner < length self.old.chains }
        ensures fresh { ¬ IsLive self.old result }
        ensures live { IsLive self.new result }
        ensures stays { (other : ℕ) → IsLive self.old other → IsLive self.new other }
        ensures inserted { self.new ≡ with_node at (record { id = result; owner = owner; value = value }) self.old }
    {
        let id = match self.places.first(FREE) {
            Some(id) => id,
            None => unreachable!(),
        };
        self.places.remove(FREE, id);
        self.places.insert(ORDER, at, id);
        self.owners.insert(owner, None, id);
        self.entries[id as usize] = Some(Entry { owner, value });
        self.spare -= 1;
        id
    }

    /// The first node in the order.
    pub fn first(&self) -> Option<u32>
        ensures first { result ≡ slice_get (ids self.now.order) 0 }
        ensures live { IfSome result (IsLive self.now) }
        ensures tied { AreTied self.now }
    {
        self.places.first(ORDER)
    }

    /// The node behind a live one in the order.
    pub fn next(&self, id: u32) -> Option<u32>
        requires { IsLive self.now id }
        ensures next { result ≡ id_behind id (ids self.now.order) }
        ensures live { IfSome result (IsLive self.now) }
    {
        self.places.next(id)
    }

    /// The value of a live node.
    pub fn value(&self, id: u32) -> T
        requires { IsLive self.now id }
        ensures { option_map (λ node. node.value) (node_at self.now id) ≡ Some result }
    {
        match &self.entries[id as usize] {
            Some(entry) => entry.value,
            None => unreachable!(),
        }
    }

    /// The owner of a live node.
    pub fn owner(&self, id: u32) -> u32
        requires { IsLive self.now id }
        ensures { option_map (λ node. node.owner) (node_at self.now id) ≡ Some result }
    {
        match &self.entries[id as usize] {
            Some(entry) => entry.owner,
            None => unreachable!(),
        }
    }

    /// The newest node of an owner.
    pub fn first_of(&self, owner: u32) -> Option<u32>
        requires { owner < length self.now.chains }
        ensures first { result ≡ slice_get (chain_of self.now owner) 0 }
        ensures live { IfSome result (IsLive self.now) }
        ensures tied { AreTied self.now }
    {
        self.owners.first(owner)
    }

    /// The node of the same owner that is the next older one.
    pub fn next_of(&self, id: u32) -> Option<u32>
        requires { IsLive self.now id }
        ensures next { IfSome (node_at self.now id) (λ node. result ≡ id_behind id (chain_of self.now node.owner)) }
        ensures live { IfSome result (IsLive self.now) }
    {
        self.owners.next(id)
    }

    /// Removes a live node, and answers its value.
    pub fn remove(&mut self, id: u32) -> T
        requires { IsLive self.old id }
        ensures value { option_map (λ node. node.value) (node_at self.old id) ≡ Some result }
        ensures removed { self.new ≡ without_node id self.old }
    {
        let entry = match self.entries[id as usize] {
            Some(entry) => entry,
            None => unreachable!(),
        };
        self.places.remove(ORDER, id);
        self.places.insert(FREE, None, id);
        self.owners.remove(entry.owner, id);
        self.spare += 1;
        entry.value
    }

    /// Removes all nodes of an owner, and answers how many there were.
    pub fn remove_owner(&mut self, owner: u32) -> u32
        requires { owner < length self.old.chains }
        ensures count { result ≡ length (chain_of self.old owner) }
        ensures removed { self.new ≡ without_owner owner self.old }
        ensures total { length self.new.order + self.new.spare ≡ length self.old.order + self.old.spare }
    {
        let mut count = 0;
        while let Some(id) = self.first_of(owner) {
            self.remove(id);
            count += 1;
        }
        count
    }
}

//! Lists of nodes by number. A node is in one list at most.

ghost use Rattle.std.specs.Prelude.{◌≡◌};
ghost use Rattle.idx_links.specs.parts.Links.{node_of};

use crate::links::{Link, NONE, link_behind, link_first, unlink};
use fd_base::Memory;
use std::alloc::Global;
use std::marker::Model;

/// Lists of nodes. Only `new` and `hold` take memory.
#[derive(Drop)]
pub(crate) struct Chains {
    heads: Vec<u32>,
    links: Vec<Link>,
}

impl Model for Chains {
    ghost use Rattle.std.specs.Prelude.{length};
    ghost use Rattle.idx_links.specs.parts.Lists.{Lists};
    ghost use Rattle.idx_links.specs.parts.Links.{lists_of, IsLinked};

    ghost Value = { Lists };

    ghost view = { λ c. record {
      lists = lists_of c.heads.items c.links.items;
      nodes = length c.links.items;
    } };

    ghost invariant = { λ c. IsLinked c.heads.items c.links.items (lists_of c.heads.items c.links.items) };
}

fn node(number: u32) -> Option<u32>
    ensures { result ≡ node_of number }
{
    if number == NONE { None } else { Some(number) }
}

impl Chains {
    ghost use Rattle.std.specs.Prelude.{◌≡◌, ◌<◌, ◌≤◌, ℕ, [], Contains, IfOk, IfSome, OnOk, length, map, replicate, slice_get, slice_set};
    ghost use Rattle.idx_links.specs.parts.Nodes.{inserted_after, id_behind, without};
    ghost use Rattle.idx_links.specs.parts.Lists.{list_at, AreApart};

    /// So many empty lists, and no nodes.
    pub(crate) fn new(alloc: Global, lists: u32) -> Result<Chains, Memory>
        ensures { IfOk result (λ c. c ≡ record { lists = replicate lists []; nodes = 0 }) }
    {
        Ok(Chains {
            heads: vec![in alloc; NONE; lists as usize]?,
            links: Vec::new(alloc),
        })
    }

    /// Makes room for the node of this number.
    pub(crate) fn hold(&mut self, id: u32) -> Result<(), Memory>
        requires next { id ≤ self.old.nodes }
        requires number { id < NONE }
        ensures holds { OnOk result (id < self.new.nodes) }
        ensures grows { self.old.nodes ≤ self.new.nodes }
        ensures stays { self.new ≡ record self.old { nodes = self.new.nodes } }
    {
        if self.links.len() == id as usize {
            self.links.push(Link {
                next: NONE,
                prev: NONE,
            })?;
        }
        Ok(())
    }

    /// The first node of a list.
    pub(crate) fn first(&self, list: u32) -> Option<u32>
        requires { list < length self.now.lists }
        ensures { result ≡ slice_get (list_at self.now.lists list) 0 }
    {
        node(self.heads[list as usize])
    }

    /// The node behind this one in its list.
    pub(crate) fn next(&self, id: u32) -> Option<u32>
        requires { (list : ℕ) × Contains (list_at self.now.lists list) id }
        ensures { (list : ℕ) → Contains (list_at self.now.lists list) id → result ≡ id_behind id (list_at self.now.lists list) }
    {
        node(self.links[id as usize].next)
    }

    /// Puts a node that is in no list behind one of a list, or at the list's front.
    pub(crate) fn insert(&mut self, list: u32, at: Option<u32>, id: u32)
        requires list { list < length self.old.lists }
        requires at { IfSome at (Contains (list_at self.old.lists list)) }
        requires room { id < self.old.nodes }
        requires unlisted { (other : ℕ) → ¬ Contains (list_at self.old.lists other) id }
        ensures lists { self.new ≡ record self.old { lists = slice_set self.old.lists list (inserted_after (λ x. x) at id (list_at self.old.lists list)) } }
        ensures apart { AreApart self.new.lists }
    {
        match at {
            Some(at) => link_behind(self.links.as_mut_slice(), at, id),
            None => {
                let list = list as usize;
                self.heads[list] = link_first(self.links.as_mut_slice(), self.heads[list], id);
            }
        }
    }

    /// Takes a node out of its list.
    pub(crate) fn remove(&mut self, list: u32, id: u32)
        requires { Contains (list_at self.old.lists list) id }
        ensures lists { self.new ≡ record self.old { lists = map (without (λ x. x) id) self.old.lists } }
        ensures apart { AreApart self.new.lists }
    {
        let list = list as usize;
        self.heads[list] = unlink(self.links.as_mut_slice(), self.heads[list], id);
    }
}

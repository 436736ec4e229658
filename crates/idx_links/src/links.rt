//! Links between nodes: each names the node behind it and the one before it.

ghost use Rattle.std.specs.Prelude.{◌≡◌, ◌<◌, length};
ghost use Rattle.idx_links.specs.parts.Links.{link_at, with_prev, with_next, between, links_without, first_without};

/// The number of no node. It stands where a list begins or ends.
pub(crate) const NONE: u32 = u32::MAX;

/// A node's neighbours in its list.
#[derive(Clone, Copy)]
pub(crate) struct Link {
    /// The node behind it.
    pub(crate) next: u32,
    /// The node before it.
    pub(crate) prev: u32,
}

fn set_prev(links: &mut [Link], at: u32, prev: u32)
    ensures { links.new ≡ with_prev at prev links.old }
{
    let at = at as usize;
    if at < links.len() {
        links[at] = Link {
            next: links[at].next,
            prev,
        };
    }
}

fn set_next(links: &mut [Link], at: u32, next: u32)
    ensures { links.new ≡ with_next at next links.old }
{
    let at = at as usize;
    if at < links.len() {
        links[at] = Link {
            next,
            prev: links[at].prev,
        };
    }
}

fn put_between(links: &mut [Link], id: u32, prev: u32, next: u32)
    requires { id < length links.old }
    ensures { links.new ≡ between id prev next links.old }
{
    links[id as usize] = Link { next, prev };
    set_prev(links, next, id);
}

/// Links a node in before the first of a list, and answers the list's first node from then on.
pub(crate) fn link_first(links: &mut [Link], first: u32, id: u32) -> u32
    requires { id < length links.old }
    ensures links { links.new ≡ between id NONE first links.old }
    ensures first { result ≡ id }
{
    put_between(links, id, NONE, first);
    id
}

/// Links a node in behind another.
pub(crate) fn link_behind(links: &mut [Link], at: u32, id: u32)
    requires at { at < length links.old }
    requires id { id < length links.old }
    ensures { links.new ≡ with_next at id (between id at (link_at links.old at).next links.old) }
{
    let next = links[at as usize].next;
    put_between(links, id, at, next);
    set_next(links, at, id);
}

/// Takes a node out of its list, and answers the list's first node from then on.
pub(crate) fn unlink(links: &mut [Link], first: u32, id: u32) -> u32
    requires { id < length links.old }
    ensures links { links.new ≡ links_without id links.old }
    ensures first { result ≡ first_without id links.old first }
{
    let Link { next, prev } = links[id as usize];
    set_prev(links, next, prev);
    if prev == NONE {
        return next;
    }
    set_next(links, prev, next);
    first
}

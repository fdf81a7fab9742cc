// The links between the cores.

ghost use Rattle.std.specs.Prelude.{◌≡◌, ◌<◌, ◌++◌, [], ◌∷◌, length, replicate, true, IfOk, MatchOption};
ghost use Rattle.xs_instr.specs.Machine.{link_of, no_links as no_links_of};
ghost use Rattle.xs_fabric.specs.EndWord.{links_empty, no_items, no_items_out};
ghost use Rattle.xs_fabric.specs.Lockstep.{due_of, is_due};
ghost use Rattle.xs_fabric.specs.OnLinks.{IsTaken, IsTakenFrom, items_at, none_to, put_on};

use circular_buffer::HeapCircularBuffer;
use std::alloc::Global;
use std::marker::Model;
use xs_instr::{Item, Sent};
use xw_words::Memory;

/// How many items a link holds: for each of a core's 32 ends 8 tokens and 8 credits.
const PLACES: usize = 512;

/// How many ticks an item is on its way.
const TICKS: u64 = 8;

/// What is on its way from a core to another, which contracts see as the list of the items, first sent first.
#[derive(Drop)]
pub struct Link {
    items: HeapCircularBuffer<Item>,
}

impl Model for Link {
    ghost use Rattle.std.specs.Prelude.{◌≡◌, List};
    ghost use Rattle.xs_instr.specs.declared.state.Item.{Item};

    ghost Value = { List Item };

    ghost view = { λ link. link.items.items };

    ghost invariant = { λ link. link.items.capacity ≡ 512 };
}

impl Link {
    /// A link with nothing on it and all its places. The one error is want of memory.
    pub fn new(alloc: Global) -> Result<Link, Memory>
        ensures { IfOk result (λ link. link ≡ []) }
    {
        let items = HeapCircularBuffer::with_capacity(alloc, PLACES)?;
        Ok(Link { items })
    }

    /// Puts an item last.
    pub fn push(&mut self, item: Item)
        requires { length self.old < 512 }
        ensures { self.new ≡ self.old ++ item ∷ [] }
    {
        let _ = self.items.push_back(item);
    }

    /// Takes the first item. `None` exactly where there is none.
    pub fn take(&mut self) -> Option<Item>
        ensures { MatchOption result ((self.old ≡ []) × (self.new ≡ []))
            (λ item. self.old ≡ item ∷ self.new) }
    {
        self.items.pop_front()
    }

    /// Takes the first item, where it is due at that tick of the receiver's clock. `None` exactly where nothing is.
    #[tactic(auto, using(crate::proofs::Dues::dues))]
    pub fn take_due(&mut self, clock: u32) -> Option<Item>
        ensures { MatchOption result ((due_of clock self.old ≡ []) × (self.new ≡ self.old))
            (λ item. (self.old ≡ item ∷ self.new) × (is_due clock item ≡ true)) }
    {
        match self.items.front() {
            None => None,
            Some(first) => {
                if first.tick as u64 + TICKS <= clock as u64 {
                    self.items.pop_front()
                } else {
                    None
                }
            }
        }
    }

    /// Whether nothing is on its way.
    pub fn is_empty(&self) -> bool
        ensures { result ≡ no_items self.now }
    {
        self.items.is_empty()
    }
}

/// The links between the four cores: by the sender, and then by the receiver.
pub type Links = [[Link; 4]; 4];

/// Links with nothing on them, each with all its places. The one error is want of memory.
pub fn no_links(alloc: Global) -> Result<Links, Memory>
    ensures { IfOk result (λ links. links ≡ no_links_of) }
{
    Ok([
        links_out(alloc)?,
        links_out(alloc)?,
        links_out(alloc)?,
        links_out(alloc)?,
    ])
}

/// The links out of one core.
fn links_out(alloc: Global) -> Result<[Link; 4], Memory>
    ensures { IfOk result (λ links. links ≡ replicate 4 []) }
{
    Ok([
        Link::new(alloc)?,
        Link::new(alloc)?,
        Link::new(alloc)?,
        Link::new(alloc)?,
    ])
}

/// What a core sends goes last onto its link.
pub fn put(links: &mut Links, from: u8, sent: Sent)
    requires from { from < 4 }
    requires to { sent.to < 4 }
    requires place { length (link_of links.old from sent.to) < 512 }
    ensures { links.new ≡ put_on links.old from sent }
{
    let item = Item {
        tick: sent.tick,
        moved: sent.moved,
    };
    links[from as usize][sent.to as usize].push(item);
}

/// Takes the first item of a link. `None` exactly where there is none.
pub fn take(links: &mut Links, from: u8, to: u8) -> Option<Item>
    requires from { from < 4 }
    requires to { to < 4 }
    ensures { MatchOption result ((link_of links.old from to ≡ []) × (links.new ≡ links.old))
        (λ item. IsTaken links.old from to item links.new) }
{
    let out = &mut links[from as usize];
    take_from(out, to)
}

/// Takes the first item of one of the links out of a core.
fn take_from(out: &mut [Link; 4], to: u8) -> Option<Item>
    requires { to < 4 }
    ensures { MatchOption result ((items_at out.old to ≡ []) × (out.new ≡ out.old))
        (λ item. IsTakenFrom out.old to item out.new) }
{
    let link = &mut out[to as usize];
    link.take()
}

/// Whether nothing is on its way to a core.
pub fn are_empty_to(links: &Links, to: u8) -> bool
    requires { to < 4 }
    ensures { result ≡ none_to links.now to }
{
    is_empty_at(&links[0], to)
        && is_empty_at(&links[1], to)
        && is_empty_at(&links[2], to)
        && is_empty_at(&links[3], to)
}

fn is_empty_at(out: &[Link; 4], to: u8) -> bool
    requires { to < 4 }
    ensures { result ≡ no_items (items_at out.now to) }
{
    let link = &out[to as usize];
    link.is_empty()
}

/// Whether nothing is on its way on any link.
pub fn are_empty(links: &Links) -> bool
    ensures { result ≡ links_empty links.now }
{
    for out in links {
        if !are_empty_out(out) {
            return false;
        }
    }
    true
}

fn are_empty_out(out: &[Link; 4]) -> bool
    ensures { result ≡ no_items_out out.now }
{
    for link in out {
        if !link.is_empty() {
            return false;
        }
    }
    true
}

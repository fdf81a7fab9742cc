ghost use Rattle.std.specs.Option.{option_copied};
ghost use Rattle.std.specs.Prelude.{◌≡◌, ◌<◌, slice_get, Some, IfOk, OnOk};
ghost use Rattle.indexmap.specs.IndexMap.{index_map_len};
ghost use Rattle.xc_disjoint.specs.UseTables.{found, or_one, shares_in, updated, updated_by, uses_in, with_entry, with_ones};
ghost use Rattle.xc_disjoint.specs.Uses.{all_after, all_with, no_shares, no_uses, only, some_after, uses_of};

use crate::uses::{Share, Use, after, use_of, with_branch};
use indexmap::IndexMap;
use std::alloc::Global;
use std::mem;
use xw_words::{Memory, Pos};

/// How some code uses channels. A channel that isn't there isn't used.
#[derive(Drop)]
pub struct UseTable {
    pub entries: IndexMap<usize, Use>,
}

impl UseTable {
    /// No channel is used.
    pub fn new(alloc: Global) -> UseTable
        ensures { uses_in result ≡ no_uses }
    {
        UseTable {
            entries: IndexMap::new(alloc),
        }
    }

    /// How the code uses a channel.
    pub fn channel_use(&self, channel: usize) -> Option<Use>
        ensures { result ≡ uses_in self.now channel }
    {
        match self.entries.get(&channel) {
            None => None,
            Some(u) => Some(*u),
        }
    }

    /// Goes on behind code that uses one channel like this.
    pub fn follow(&mut self, channel: usize, next: Use) -> Result<(), Memory>
        ensures { OnOk result
            (uses_in self.new ≡ all_after (uses_in self.old) (only channel next)) }
    {
        let joined = joined(self.entries.get(&channel), next);
        put(&mut self.entries, channel, joined)
    }

    /// Goes on behind a `par`. It goes through what its branches share, and through the smaller of two tables, this one and that
    /// of the largest branch; the table of the `par` is of no use then.
    pub fn follow_par(&mut self, par: &mut ParTable) -> Result<(), Memory>
        ensures { OnOk result
            (uses_in self.new ≡ all_after (uses_in self.old) (uses_of (shares_in par.old))) }
    {
        par.settle()?;
        larger_first(self, &mut par.largest);
        self.follow_each(&par.largest)
    }

    fn follow_each(&mut self, next: &UseTable) -> Result<(), Memory>
        ensures { OnOk result (uses_in self.new ≡ all_after (uses_in self.old) (uses_in next.now)) }
    {
        for at in 0..next.entries.len() {
            let (channel, u) = entry_at(&next.entries, at);
            self.follow(channel, u)?;
        }
        Ok(())
    }
}

/// How the first branches of a `par` use channels: the largest of their tables, and beside it what is shared. A channel that
/// isn't among these is used by the branch of that table alone.
#[derive(Drop)]
pub struct ParTable {
    pub largest: UseTable,
    pub shared: IndexMap<usize, Share>,
}

impl ParTable {
    /// No branch.
    pub fn new(alloc: Global) -> ParTable
        ensures { shares_in result ≡ no_shares }
    {
        ParTable {
            largest: UseTable::new(alloc),
            shared: IndexMap::new(alloc),
        }
    }

    /// How the branches use a channel.
    pub fn share(&self, channel: usize) -> Option<Share>
        ensures { result ≡ shares_in self.now channel }
    {
        share_of(&self.shared, &self.largest, channel)
    }

    /// Goes on to one more branch, through the whole of its table.
    pub fn add_all(&mut self, branch: &UseTable, pos: Pos) -> Result<(), Memory>
        ensures { OnOk result
            (shares_in self.new ≡ all_with pos (shares_in self.old) (uses_in branch.now)) }
    {
        add_each(&mut self.shared, &self.largest, branch, pos)
    }

    /// Goes on to one more branch. It goes through this branch's table only where that isn't far larger than the others; the
    /// branch's table is of no use then.
    pub fn add(&mut self, alloc: Global, branch: &mut UseTable, pos: Pos) -> Result<(), Memory>
        ensures { OnOk result
            (shares_in self.new ≡ all_with pos (shares_in self.old) (uses_in branch.old)) }
    {
        if branch.entries.len() / 2 <= self.largest.entries.len() {
            self.add_all(branch, pos)
        } else {
            self.add_larger(alloc, branch, pos)
        }
    }

    /// Goes on to one more branch, whose table takes the place of the largest.
    fn add_larger(&mut self, alloc: Global, branch: &mut UseTable, pos: Pos) -> Result<(), Memory>
        ensures { OnOk result
            (shares_in self.new ≡ all_with pos (shares_in self.old) (uses_in branch.old)) }
    {
        spell_out(&mut self.shared, &self.largest)?;
        self.shared = with_larger(alloc, &self.shared, branch, pos)?;
        mem::swap(&mut self.largest, branch);
        Ok(())
    }

    /// Has the uses in the whole `par` in the largest of the tables. It goes through what is shared, which is of no use then.
    pub fn settle(&mut self) -> Result<(), Memory>
        ensures { OnOk result (uses_in self.new.largest ≡ uses_of (shares_in self.old)) }
    {
        settle(&mut self.largest, &self.shared)
    }
}

/// Takes the uses in one branch of a `par` for those in the whole.
fn settle(largest: &mut UseTable, shared: &IndexMap<usize, Share>) -> Result<(), Memory>
    ensures { OnOk result (uses_in largest.new
        ≡ uses_of (with_ones (found shared.now.entries) (uses_in largest.old))) }
{
    for at in 0..shared.len() {
        let (channel, share) = entry_at(shared, at);
        put(&mut largest.entries, channel, use_of(share))?;
    }
    Ok(())
}

/// What is shared, with one more branch as far as it uses the same channels.
fn with_larger(
    alloc: Global,
    shared: &IndexMap<usize, Share>,
    branch: &UseTable,
    pos: Pos,
) -> Result<IndexMap<usize, Share>, Memory>
    ensures { IfOk result
        (λ all. found all.entries ≡ updated pos (found shared.now.entries) (uses_in branch.now)) }
{
    let mut all = IndexMap::new(alloc);
    for at in 0..shared.len() {
        let (channel, share) = entry_at(shared, at);
        let joined = with_any(share, branch.entries.get(&channel), pos);
        put(&mut all, channel, joined)?;
    }
    Ok(all)
}

fn with_any(share: Share, next: Option<&Use>, pos: Pos) -> Share
    ensures { result ≡ updated_by pos share (option_copied next.entry) }
{
    match next {
        None => share,
        Some(u) => with_branch(Some(share), *u, pos),
    }
}

/// What is shared, and with it the uses of one more branch.
fn add_each(
    shared: &mut IndexMap<usize, Share>,
    largest: &UseTable,
    branch: &UseTable,
    pos: Pos,
) -> Result<(), Memory>
    ensures { OnOk result (with_ones (found shared.new.entries) (uses_in largest.now) ≡ all_with pos
        (with_ones (found shared.old.entries) (uses_in largest.now)) (uses_in branch.now)) }
{
    for at in 0..branch.entries.len() {
        let (channel, u) = entry_at(&branch.entries, at);
        let share = with_branch(share_of(shared, largest, channel), u, pos);
        put(shared, channel, share)?;
    }
    Ok(())
}

/// How branches use a channel, by what is shared and the largest of their tables.
fn share_of(shared: &IndexMap<usize, Share>, largest: &UseTable, channel: usize) -> Option<Share>
    ensures { result ≡ with_ones (found shared.now.entries) (uses_in largest.now) channel }
{
    share_by(shared.get(&channel), largest.entries.get(&channel))
}

fn share_by(share: Option<&Share>, one: Option<&Use>) -> Option<Share>
    ensures { result ≡ or_one (option_copied share.entry) (option_copied one.entry) }
{
    match (share, one) {
        (Some(share), _) => Some(*share),
        (None, Some(u)) => Some(Share::One(*u)),
        (None, None) => None,
    }
}

/// What the largest table says stands among what is shared too.
fn spell_out(shared: &mut IndexMap<usize, Share>, largest: &UseTable) -> Result<(), Memory>
    ensures { OnOk result
        (found shared.new.entries ≡ with_ones (found shared.old.entries) (uses_in largest.now)) }
{
    for at in 0..largest.entries.len() {
        let (channel, u) = entry_at(&largest.entries, at);
        let share = share_or(shared.get(&channel), u);
        put(shared, channel, share)?;
    }
    Ok(())
}

fn share_or(share: Option<&Share>, u: Use) -> Share
    ensures { Some result ≡ or_one (option_copied share.entry) (Some u) }
{
    match share {
        Some(share) => *share,
        None => Share::One(u),
    }
}

fn joined(first: Option<&Use>, next: Use) -> Use
    ensures { Some result ≡ some_after (option_copied first.entry) (Some next) }
{
    match first {
        None => next,
        Some(first) => after(*first, next),
    }
}

/// Has two tables so that the first has no fewer entries than the second.
fn larger_first(first: &mut UseTable, second: &mut UseTable)
    ensures { all_after (uses_in first.new) (uses_in second.new)
        ≡ all_after (uses_in first.old) (uses_in second.old) }
{
    if first.entries.len() < second.entries.len() {
        mem::swap(first, second);
    }
}

fn put<V: Copy>(entries: &mut IndexMap<usize, V>, key: usize, value: V) -> Result<(), Memory>
    ensures { OnOk result
        (found entries.new.entries ≡ with_entry (found entries.old.entries) key value) }
{
    match entries.insert(key, value) {
        Ok(_) => Ok(()),
        Err(_) => Err(Memory),
    }
}

/// The entry at a place.
pub fn entry_at<V: Copy>(entries: &IndexMap<usize, V>, at: usize) -> (usize, V)
    requires { at < index_map_len entries.now }
    ensures { slice_get entries.now.entries at ≡ Some result }
{
    match entries.get_index(at) {
        Some((key, value)) => (*key, *value),
        None => unreachable!(),
    }
}

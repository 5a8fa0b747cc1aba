//! Disjoint circular lists over a fixed number of names, doubly linked by index, each with a head
//! of its own.

ghost use Rattle.std.specs.Prelude.{◌≡◌, ℕ, ◌+◌, ◌-◌, ◌<◌, ◌≤◌, ◌^◌, true, false, IfOk, length};
ghost use Rattle.std.specs.Prelude.{slice_get, slice_index, Some, IfSome};
ghost use Rattle.l4_model.specs.World.{is_in};
ghost use Rattle.tcb_arena.specs.Inner.Rings.{Lists, list_at, head_count, is_linked, put_last};
ghost use Rattle.tcb_arena.specs.Inner.Rings.{put_before, taken_out};
ghost use Rattle.tcb_arena.specs.Inner.Rings.{no_names, without_first, AreSound};

use l4_types::errors::NoMemory;
use std::alloc::Global;
use std::marker::Model;

/// Names stand in lists, each name in at most one. A list is a ring through the links of its names
/// and of its head. A name that stands in no list is linked to itself.
#[derive(Drop)]
pub struct Rings {
    names: usize,
    // Node i is name i below `names`, and after these come the nodes of the heads.
    next: Vec<usize>,
    prev: Vec<usize>,
}

impl Model for Rings {
    ghost use Rattle.tcb_arena.specs.Inner.Rings.{Lists, lists_code, rings, AreRings};

    ghost Value = { Lists };

    ghost coded = { lists_code };

    ghost view = { λ r. record { names = r.names; lists = rings r.names r.next.items } };

    ghost invariant = { λ r. AreRings r.names r.next.items r.prev.items };
}

// The numbers below `count`, in order.
fn identity(alloc: Global, count: usize) -> Result<Vec<usize>, NoMemory>
    ensures len { IfOk result (λ v. length v.items ≡ count) }
    ensures each { IfOk result (λ v. (k : ℕ) → k < count → slice_index v.items k ≡ k) }
{
    let mut all = Vec::with_capacity(alloc, count)?;
    for i in 0..count {
        all.push(i)?;
    }
    Ok(all)
}

impl Rings {
    /// Empty lists, one for each head, in which names below `names` can stand.
    pub fn new(alloc: Global, names: usize, heads: usize) -> Result<Rings, NoMemory>
        requires { names + heads < 2 ^ 64 }
        ensures { IfOk result (λ r. r ≡ no_names names heads) }
    {
        let count = names + heads;
        let next = identity(alloc, count)?;
        let prev = identity(alloc, count)?;
        Ok(Rings { names, next, prev })
    }

    /// A copy.
    pub fn try_clone(&self) -> Result<Rings, NoMemory>
        ensures { IfOk result (λ copy. copy ≡ self.now) }
    {
        Ok(Rings {
            names: self.names,
            next: self.next.clone()?,
            prev: self.prev.clone()?,
        })
    }

    /// How many names there are.
    pub fn names(&self) -> usize
        ensures value { result ≡ self.now.names }
        ensures sound { AreSound self.now }
    {
        self.names
    }

    /// Whether a name stands in a list.
    pub fn is_linked(&self, name: usize) -> bool
        requires { name < self.now.names }
        ensures linked { result ≡ is_linked self.now name }
        ensures sound { AreSound self.now }
    {
        self.next[name] != name
    }

    /// The first name of a list.
    pub fn first(&self, head: usize) -> Option<usize>
        requires { head < head_count self.now }
        ensures first { result ≡ slice_get (list_at self.now head) 0 }
        ensures sound { AreSound self.now }
    {
        let at = self.next[self.names + head];
        if at < self.names { Some(at) } else { None }
    }

    /// The name that comes after this one in its list.
    pub fn after(&self, name: usize) -> Option<usize>
        requires { name < self.now.names }
        ensures after { (head k : ℕ) → slice_get (list_at self.now head) k ≡ Some name →
            result ≡ slice_get (list_at self.now head) (k + 1) }
        ensures sound { AreSound self.now }
    {
        let at = self.next[name];
        if at < self.names { Some(at) } else { None }
    }

    /// Puts a name that stands in no list at the end of one.
    pub fn push_last(&mut self, head: usize, name: usize)
        requires head_in { head < head_count self.old }
        requires name_in { name < self.old.names }
        requires free { is_linked self.old name ≡ false }
        ensures { self.new ≡ put_last self.old head name }
    {
        let node = self.names + head;
        let last = self.prev[node];
        self.next[last] = name;
        self.next[name] = node;
        self.prev[name] = last;
        self.prev[node] = name;
    }

    /// Puts a name that stands in no list before another one, which stands in one.
    pub fn put_before(&mut self, other: usize, name: usize)
        requires other { other < self.old.names }
        requires there { is_linked self.old other ≡ true }
        requires name_in { name < self.old.names }
        requires free { is_linked self.old name ≡ false }
        ensures { self.new ≡ put_before self.old other name }
    {
        let last = self.prev[other];
        self.next[last] = name;
        self.next[name] = other;
        self.prev[name] = last;
        self.prev[other] = name;
    }

    /// Removes a name from its list, if it stands in one.
    pub fn take_out(&mut self, name: usize)
        requires { name < self.old.names }
        ensures { self.new ≡ taken_out self.old name }
    {
        let before = self.prev[name];
        let after = self.next[name];
        self.next[before] = after;
        self.prev[after] = before;
        self.next[name] = name;
        self.prev[name] = name;
    }

    /// Removes the first name of a list.
    pub fn pop_first(&mut self, head: usize) -> Option<usize>
        requires { head < head_count self.old }
        ensures first { result ≡ slice_get (list_at self.old head) 0 }
        ensures rest { self.new ≡ without_first self.old head }
        ensures gone { IfSome result (λ name. is_in name (list_at self.new head) ≡ false) }
    {
        let first = self.first(head)?;
        self.take_out(first);
        Some(first)
    }
}

ghost use Rattle.std.specs.Prelude.{◌≡◌, ℕ, ◌+◌, ◌<◌, ◌≤◌, length, slice_index, slice_index_or, slice_set};
ghost use Rattle.timer_rows.specs.Buckets.{buckets, chains};
ghost use Rattle.timer_rows.specs.Links.{ons, backs};
ghost use Rattle.timer_rows.specs.Rows.{contents};

use crate::ends::Ends;
use crate::row::Row;

/// The nodes beside a node of a slot.
#[derive(Clone, Copy)]
pub struct Neighbours {
    /// The node after it.
    pub next: u16,
    /// The node before it.
    pub prev: u16,
}

/// The sentinels of `N` slots; with n rows, the rows are the nodes from 0, and node n + s is the sentinel of slot s.
#[derive(Clone, Copy, Drop)]
pub struct Sentinels<const N: usize> {
    /// The sentinel of each slot.
    pub ends: [Ends; N],
}

impl<const N: usize> Sentinels<N> {
    /// The sentinels of empty slots beside so many rows: each leads to itself.
    pub fn empty(rows: usize) -> Self
        requires { rows + N ≤ 65535 }
        ensures ends { (s : ℕ) → s < N → slice_index_or result.ends s (record { head = 0; tail = 0 }) ≡ record { head = rows + s; tail = rows + s } }
        ensures number { length result.ends ≡ N }
    {
        let mut ends = [Ends { head: 0, tail: 0 }; N];
        for (s, end) in ends.iter_mut().enumerate() {
            let sentinel = (rows + s) as u16;
            *end = Ends {
                head: sentinel,
                tail: sentinel,
            };
        }
        Sentinels { ends }
    }

    /// The nodes before and after a node.
    pub fn neighbours<P: Copy>(&self, rows: &[Row<P>], node: u16) -> Neighbours
        requires { node < length rows.now + N }
        ensures next { result.next ≡ slice_index (ons rows.now self.now.ends) node }
        ensures prev { result.prev ≡ slice_index (backs rows.now self.now.ends) node }
    {
        let i = node as usize;
        if i < rows.len() {
            Neighbours {
                next: rows[i].next,
                prev: rows[i].prev,
            }
        } else {
            let sentinel = self.ends[i - rows.len()];
            Neighbours {
                next: sentinel.head,
                prev: sentinel.tail,
            }
        }
    }

    /// The first row of a slot, or its sentinel.
    pub fn first<P: Copy>(&self, rows: &[Row<P>], slot: usize) -> u16
        requires { slot < N }
        ensures { result ≡ slice_index (ons rows.now self.now.ends) (length rows.now + slot) }
    {
        self.ends[slot].head
    }

    fn set_next<P: Copy>(&mut self, rows: &mut [Row<P>], node: u16, to: u16)
        requires { node < length rows.old + N }
        ensures ons { ons rows.new self.new.ends ≡ slice_set (ons rows.old self.old.ends) node to }
        ensures backs { backs rows.new self.new.ends ≡ backs rows.old self.old.ends }
        ensures contents { contents rows.new ≡ contents rows.old }
        ensures chains { (buckets rows.new ≡ buckets rows.old) × (chains rows.new ≡ chains rows.old) }
    {
        let i = node as usize;
        if i < rows.len() {
            rows[i].next = to;
        } else {
            self.ends[i - rows.len()].head = to;
        }
    }

    fn set_prev<P: Copy>(&mut self, rows: &mut [Row<P>], node: u16, to: u16)
        requires { node < length rows.old + N }
        ensures ons { ons rows.new self.new.ends ≡ ons rows.old self.old.ends }
        ensures backs { backs rows.new self.new.ends ≡ slice_set (backs rows.old self.old.ends) node to }
        ensures contents { contents rows.new ≡ contents rows.old }
        ensures chains { (buckets rows.new ≡ buckets rows.old) × (chains rows.new ≡ chains rows.old) }
    {
        let i = node as usize;
        if i < rows.len() {
            rows[i].prev = to;
        } else {
            self.ends[i - rows.len()].tail = to;
        }
    }

    /// Takes a row out of its slot: its neighbours are linked to each other.
    pub fn unlink<P: Copy>(&mut self, rows: &mut [Row<P>], x: u16)
        requires node { x < length rows.old + N }
        requires after { slice_index (ons rows.old self.old.ends) x < length rows.old + N }
        requires before { slice_index (backs rows.old self.old.ends) x < length rows.old + N }
        ensures ons { ons rows.new self.new.ends ≡ slice_set (ons rows.old self.old.ends) (slice_index (backs rows.old self.old.ends) x) (slice_index (ons rows.old self.old.ends) x) }
        ensures backs { backs rows.new self.new.ends ≡ slice_set (backs rows.old self.old.ends) (slice_index (ons rows.old self.old.ends) x) (slice_index (backs rows.old self.old.ends) x) }
        ensures contents { contents rows.new ≡ contents rows.old }
        ensures chains { (buckets rows.new ≡ buckets rows.old) × (chains rows.new ≡ chains rows.old) }
    {
        let Neighbours { next, prev } = self.neighbours(rows, x);
        self.set_next(rows, prev, next);
        self.set_prev(rows, next, prev);
    }

    /// Puts a row that is in no slot before a node.
    pub fn link<P: Copy>(&mut self, rows: &mut [Row<P>], x: u16, node: u16)
        requires nodes { (x < length rows.old + N) × (node < length rows.old + N) }
        requires before { slice_index (backs rows.old self.old.ends) node < length rows.old + N }
        ensures ons { ons rows.new self.new.ends ≡ slice_set (slice_set (ons rows.old self.old.ends) (slice_index (backs rows.old self.old.ends) node) x) x node }
        ensures backs { backs rows.new self.new.ends ≡ slice_set (slice_set (backs rows.old self.old.ends) node x) x (slice_index (backs rows.old self.old.ends) node) }
        ensures contents { contents rows.new ≡ contents rows.old }
        ensures chains { (buckets rows.new ≡ buckets rows.old) × (chains rows.new ≡ chains rows.old) }
    {
        let before = self.neighbours(rows, node).prev;
        self.set_next(rows, before, x);
        self.set_next(rows, x, node);
        self.set_prev(rows, node, x);
        self.set_prev(rows, x, before);
    }

    /// The last row of a slot, or its sentinel.
    pub fn last<P: Copy>(&self, rows: &[Row<P>], slot: usize) -> u16
        requires { slot < N }
        ensures { result ≡ slice_index (backs rows.now self.now.ends) (length rows.now + slot) }
    {
        self.ends[slot].tail
    }

    fn set_last<P: Copy>(&mut self, rows: &[Row<P>], slot: usize, to: u16)
        requires { slot < N }
        ensures ons { ons rows.now self.new.ends ≡ ons rows.now self.old.ends }
        ensures backs { backs rows.now self.new.ends ≡ slice_set (backs rows.now self.old.ends) (length rows.now + slot) to }
    {
        self.ends[slot].tail = to;
    }

    /// Puts a row that is in no slot at the end of a slot.
    ///
    /// It does what `link` does before the slot's sentinel, without asking of which kind that node is.
    pub(crate) fn push<P: Copy>(&mut self, rows: &mut [Row<P>], x: u16, slot: usize)
        requires few { length rows.old + N ≤ 65535 }
        requires slot { slot < N }
        requires row { x < length rows.old }
        requires last { slice_index (backs rows.old self.old.ends) (length rows.old + slot) < length rows.old + N }
        ensures ons { ons rows.new self.new.ends ≡ slice_set (slice_set (ons rows.old self.old.ends) (slice_index (backs rows.old self.old.ends) (length rows.old + slot)) x) x (length rows.old + slot) }
        ensures backs { backs rows.new self.new.ends ≡ slice_set (slice_set (backs rows.old self.old.ends) (length rows.old + slot) x) x (slice_index (backs rows.old self.old.ends) (length rows.old + slot)) }
        ensures contents { contents rows.new ≡ contents rows.old }
        ensures chains { (buckets rows.new ≡ buckets rows.old) × (chains rows.new ≡ chains rows.old) }
    {
        let sentinel = (rows.len() + slot) as u16;
        let last = self.last(rows, slot);
        self.set_next(rows, last, x);
        self.set_last(rows, slot, x);
        self.set_next(rows, x, sentinel);
        self.set_prev(rows, x, last);
    }
}

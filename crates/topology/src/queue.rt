// The queue of Kahn's order: the column ORDER_AT of the lent tables, filled up to `end`.
#![tactic(auto)]

ghost use Rattle.std.specs.Prelude.{◌≡◌, [], ◌+◌, ◌^◌, ◌<◌};
ghost use Rattle.memory.specs.Seen.{state};
ghost use Rattle.memory.specs.Fields.{waiting, order_at, seen, to_field};
ghost use Rattle.network.specs.Array.{Filled, Progress};
ghost use Rattle.topology.specs.Links.{links_of, Ends};
ghost use Rattle.topology.specs.Frame.{Frame};
ghost use Rattle.topology.specs.Order.{ChainsOut, Draining};

use crate::count_incoming;
use memory::{Tables, fields};

#[derive(Drop)]
pub(crate) struct Queue<'a, 'b> {
    pub(crate) tables: &'a mut Tables<'b>,
    pub(crate) end: usize,
    // Each slice is so short, which the check does not know behind two references.
    pub(crate) ghost short: { tables.now.activities < 2 ^ 63 },
}

impl<'a, 'b> Queue<'a, 'b> {
    ghost use Rattle.topology.specs.Steps.{queue_in, readied, met, SameTables};

    // Puts activity `j` at the end if it waits for none.
    fn ready_one(&mut self, j: usize)
        requires { (j < self.old.tables.now.activities) × (self.old.end < self.old.tables.now.activities) }
        ensures { (queue_in self.new ≡ readied (queue_in self.old) j) × SameTables self.old.tables self.new.tables }
    {
        if self.tables.act(j, fields::WAITING) > 0 {
            return;
        }
        self.tables.put_act(self.end, fields::ORDER_AT, j as u64);
        self.end += 1;
    }

    // Puts the activities that wait for none into the empty queue.
    fn first_ready(&mut self)
        requires { self.old.end ≡ 0 }
        ensures { Filled ((state self.new.tables.now).act waiting) ((state self.new.tables.now).act order_at) self.old.tables.now.activities self.new.end × Frame order_at seen 0 0 (state self.old.tables.now) (state self.new.tables.now) × SameTables self.old.tables self.new.tables }
    {
        for m in 0..self.tables.activities {
            self.ready_one(m);
        }
    }

    // Counts the links into each activity, and puts those that wait for none into the empty queue.
    pub(crate) fn start(&mut self)
        requires { (self.old.end ≡ 0) × Ends self.old.tables.now.activities self.old.tables.now.kept (state self.old.tables.now) }
        ensures { Draining self.old.tables.now.activities self.old.tables.now.kept (state self.old.tables.now) (state self.new.tables.now) 0 self.new.end × SameTables self.old.tables self.new.tables }
    {
        count_incoming(self.tables);
        self.first_ready();
    }

    // Meets link `k`: the activity that it leads to waits for one less, and joins the queue if that was the last.
    fn meet_link(&mut self, k: usize)
        requires { (k < self.old.tables.now.links) × (self.old.end < self.old.tables.now.activities) × ((state self.old.tables.now).link to_field k < self.old.tables.now.activities) × (0 < (state self.old.tables.now).act waiting ((state self.old.tables.now).link to_field k)) }
        ensures { (queue_in self.new ≡ met (queue_in self.old) k) × SameTables self.old.tables self.new.tables }
    {
        let j = self.tables.link(k, fields::TO) as usize;
        let w = self.tables.act(j, fields::WAITING);
        self.tables.put_act(j, fields::WAITING, w - 1);
        self.ready_one(j);
    }

    // The activity at `h` comes out: its outgoing links are met, in rising order.
    fn release(&mut self, h: usize)
        requires { (h < self.old.end) × ChainsOut self.old.tables.now.activities self.old.tables.now.kept (state self.old.tables.now) × Progress (links_of (state self.old.tables.now) self.old.tables.now.kept) self.old.tables.now.activities ((state self.old.tables.now).act order_at) ((state self.old.tables.now).act waiting) h self.old.end [] }
        ensures { Draining self.old.tables.now.activities self.old.tables.now.kept (state self.old.tables.now) (state self.new.tables.now) (h + 1) self.new.end × SameTables self.old.tables self.new.tables }
    {
        let v = self.tables.act(h, fields::ORDER_AT) as usize;
        let mut k = self.tables.act(v, fields::FIRST_OUT) as usize;
        // A `while`: the body writes the tables that the next link is read from, so no iterator may hold them.
        while k < self.tables.kept {
            self.meet_link(k);
            k = self.tables.link(k, fields::NEXT_OUT) as usize;
        }
    }

    // The activities come out, first in first out. Answers how many.
    pub(crate) fn drain(&mut self) -> usize
        requires { ChainsOut self.old.tables.now.activities self.old.tables.now.kept (state self.old.tables.now) × Progress (links_of (state self.old.tables.now) self.old.tables.now.kept) self.old.tables.now.activities ((state self.old.tables.now).act order_at) ((state self.old.tables.now).act waiting) 0 self.old.end [] }
        ensures { Draining self.old.tables.now.activities self.old.tables.now.kept (state self.old.tables.now) (state self.new.tables.now) result result × SameTables self.old.tables self.new.tables }
    {
        let mut h: usize = 0;
        // The queue grows as it is read, so no range counts `h`.
        while h < self.end {
            self.release(h);
            h += 1;
        }
        h
    }
}

// The order of the activities by Kahn's algorithm over the lent memory, and the loop that is named where it stops early.
#![tactic(auto)]

ghost use Rattle.std.specs.Prelude.{◌≡◌, List, [], ℕ, ◌+◌, ◌-◌, ◌≤◌, ◌<◌, length, unwrap_or, IfSome};
ghost use Rattle.memory.specs.Seen.{state, SameSlice};
ghost use Rattle.memory.specs.Fields.{first_in, waiting, order_at, seen, path_at, to_field, next_into};
ghost use Rattle.network.specs.Links.{Link};
ghost use Rattle.network.specs.Kahn.{into, first_waiting, waiting_before};
ghost use Rattle.network.specs.Array.{Filled, Progress};
ghost use Rattle.topology.specs.Links.{links_of, Ends};
ghost use Rattle.topology.specs.Frame.{Frame};
ghost use Rattle.topology.specs.Steps.{counted};
ghost use Rattle.topology.specs.Order.{ChainsIn, ChainsOut, Draining, Topological};
ghost use Rattle.topology.specs.Loop.{Stuck, loop_at, NamedLoop, passed, WalkedBack};

mod queue;

use crate::queue::Queue;
use memory::{Tables, fields};
use std::ops::Range;

// Counts link `k` for the activity that it leads to.
fn count_link(tables: &mut Tables, k: usize)
    requires { (k < tables.old.links) × ((state tables.old).link to_field k < tables.old.activities) × ((state tables.old).act waiting ((state tables.old).link to_field k) < tables.old.links) }
    ensures { (state tables.new ≡ counted (state tables.old) k) × SameSlice tables.old tables.new }
{
    let i = tables.link(k, fields::TO) as usize;
    let n = tables.act(i, fields::WAITING);
    tables.put_act(i, fields::WAITING, n + 1);
}

// Counts the kept links where none is counted yet.
fn count_links(tables: &mut Tables)
    requires { Ends tables.old.activities tables.old.kept (state tables.old) × ((i : ℕ) → (state tables.old).act waiting i ≡ 0) }
    ensures { ((i : ℕ) → (state tables.new).act waiting i ≡ into (links_of (state tables.old) tables.old.kept) i) × Frame waiting order_at 0 0 (state tables.old) (state tables.new) × SameSlice tables.old tables.new }
{
    for k in 0..tables.kept {
        count_link(tables, k);
    }
}

// Counts the links into each activity.
// `tie_list::count_incoming` counts the same over a slice of links; this one counts where the tables hold them, so each reads and writes by its own functions.
fn count_incoming(tables: &mut Tables)
    requires { Ends tables.old.activities tables.old.kept (state tables.old) }
    ensures { ((i : ℕ) → (state tables.new).act waiting i ≡ into (links_of (state tables.old) tables.old.kept) i) × Frame waiting order_at 0 0 (state tables.old) (state tables.new) × SameSlice tables.old tables.new }
{
    tables.fill_act(fields::WAITING, 0);
    count_links(tables);
}

// Chains the kept links by the activities that they enter, and by those that they leave.
fn chain_both(tables: &mut Tables)
    requires { Ends tables.old.activities tables.old.kept (state tables.old) }
    ensures { ChainsIn tables.old.activities tables.old.kept (state tables.new) × ChainsOut tables.old.activities tables.old.kept (state tables.new) × Frame first_in waiting next_into 7 (state tables.old) (state tables.new) × SameSlice tables.old tables.new }
{
    tables.chain(fields::TO, fields::FIRST_IN, fields::NEXT_INTO);
    tables.chain(fields::FROM, fields::FIRST_OUT, fields::NEXT_OUT);
}

// Puts the activities in Kahn's order by the kept links, as far as it comes; answers how far. Leaves the counts and the chains of the links.
pub fn order_activities(tables: &mut Tables) -> usize
    requires { Ends tables.old.activities tables.old.kept (state tables.old) }
    ensures { Topological tables.old.activities tables.old.kept (state tables.old) (state tables.new) result × SameSlice tables.old tables.new }
{
    chain_both(tables);
    // A literal and no constructor: what becomes of tables that a call's result borrows, the check does not know.
    let mut queue = Queue { tables, end: 0 };
    queue.start();
    queue.drain()
}

// The first activity that still waits.
fn first_waiting(tables: &Tables) -> Option<usize>
    ensures { ((links : List Link) → unwrap_or result tables.now.activities ≡ first_waiting links ((state tables.now).act waiting) tables.now.activities 0) × IfSome result (λ i. i < tables.now.activities) }
{
    (0..tables.activities).find(|i| tables.act(*i, fields::WAITING) > 0)
}

// The first predecessor of activity `x` in link order that still waits.
fn waiting_before(tables: &Tables, x: usize) -> Option<usize>
    requires { (x < tables.now.activities) × Ends tables.now.activities tables.now.kept (state tables.now) × ChainsIn tables.now.activities tables.now.kept (state tables.now) }
    ensures { unwrap_or result x ≡ waiting_before (links_of (state tables.now) tables.now.kept) ((state tables.now).act waiting) (links_of (state tables.now) tables.now.kept) x }
{
    for k in tables.links_into(x) {
        let y = tables.link(k, fields::FROM) as usize;
        if tables.act(y, fields::WAITING) > 0 {
            return Some(y);
        }
    }
    None
}

// Passes activity `x` as the one at place `m` of the way back; answers the next.
fn step_back(tables: &mut Tables, m: usize, x: usize) -> usize
    requires { (m < tables.old.activities) × (x < tables.old.activities) × Ends tables.old.activities tables.old.kept (state tables.old) × ChainsIn tables.old.activities tables.old.kept (state tables.old) }
    ensures { (state tables.new ≡ passed (state tables.old) m x) × (result ≡ waiting_before (links_of (state tables.old) tables.old.kept) ((state tables.old).act waiting) (links_of (state tables.old) tables.old.kept) x) × SameSlice tables.old tables.new }
{
    tables.put_act(x, fields::SEEN, (m + 1) as u64);
    tables.put_act(m, fields::PATH_AT, x as u64);
    waiting_before(tables, x).unwrap_or(x)
}

// Goes back from activity `start` along each one's first waiting predecessor until one repeats; answers where the loop stands in the path.
fn walk_back(tables: &mut Tables, start: usize) -> Range<usize>
    requires { Stuck tables.old.activities tables.old.kept (state tables.old) × ((i : ℕ) → (state tables.old).act seen i ≡ 0) × (start ≡ first_waiting (links_of (state tables.old) tables.old.kept) ((state tables.old).act waiting) tables.old.activities 0) }
    ensures { WalkedBack tables.old.activities tables.old.kept (state tables.old) (state tables.new) start result.start result.end × SameSlice tables.old tables.new }
{
    let mut x = start;
    let mut m: usize = 0;
    // How many steps there are is known only at the first mark that repeats, so no range counts `m`.
    loop {
        let mark = tables.act(x, fields::SEEN) as usize;
        if mark > 0 {
            return mark - 1..m;
        }
        x = step_back(tables, m, x);
        m += 1;
    }
}

// Puts what stands in the path at `places`, from the last to the first, where the marks stood; answers how many they are.
fn copy_loop(tables: &mut Tables, places: Range<usize>) -> usize
    requires { (places.start < places.end) × (places.end ≤ tables.old.activities) }
    ensures { (result ≡ places.end - places.start) × ((k : ℕ) → k < result → (state tables.new).act loop_at k ≡ (state tables.old).act path_at (places.end - 1 - k)) × Frame seen path_at 0 0 (state tables.old) (state tables.new) × SameSlice tables.old tables.new }
{
    let n = places.len();
    for (k, p) in places.rev().enumerate() {
        let x = tables.act(p, fields::PATH_AT);
        tables.put_act(k, fields::SEEN, x);
    }
    n
}

// Names a loop after an order that stopped early: back from the first activity that still waits along each one's first waiting
// predecessor until one repeats, and that loop in the links' direction. Answers how many activities it has.
pub fn name_loop(tables: &mut Tables) -> usize
    requires { Stuck tables.old.activities tables.old.kept (state tables.old) }
    ensures { NamedLoop tables.old.activities tables.old.kept (state tables.old) (state tables.new) result × SameSlice tables.old tables.new }
{
    tables.fill_act(fields::SEEN, 0);
    let start = first_waiting(tables).unwrap();
    let way = walk_back(tables, start);
    copy_loop(tables, way)
}

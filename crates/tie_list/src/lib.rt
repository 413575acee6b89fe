// Links as a caller holds them: a lent slice of structs. Only `count_incoming` takes it; the counting itself is on numbers.
#![tactic(auto)]

ghost use Rattle.std.specs.Prelude.{◌≡◌, ℕ, ◌+◌, ◌<◌, ◌^◌, length, get_or};
ghost use Rattle.network.specs.Kahn.{into};
ghost use Rattle.tie_list.specs.Tied.{one_more};

use network::Link;

// Counts one more for `to`, where it has a count: tested and written by its place, as `one_more` says it.
pub fn count_one(counts: &mut [u64], to: usize)
    requires { get_or counts.old to 0 + 1 < 2 ^ 64 }
    ensures { counts.new ≡ one_more counts.old to }
{
    if to < counts.len() {
        counts[to] += 1;
    }
}

// How many of the links lead to each activity that has a count. A link that leads elsewhere is passed over.
pub fn count_incoming(links: &[Link], counts: &mut [u64])
    ensures { (length counts.new ≡ length counts.old) × ((i : ℕ) → i < length counts.old → get_or counts.new i 0 ≡ into links.now i) }
{
    counts.fill(0);
    for link in links {
        count_one(counts, link.to);
    }
}

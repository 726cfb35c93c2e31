// The numbers of all nodes of a table, in two passes: the weights added up, and then the nodes one after the other. Each is looked for among
// the earlier ones of its bucket only, so that, unless hashes are made to meet, few pairs are looked at. Two nodes get one number when they
// were compared and are equal: a hash only says where to look.
ghost use Rattle.std.specs.Prelude.{◌≡◌, ◌+◌, ◌*◌, ◌-◌, ◌<◌, ◌≤◌, max, length, eqb};
ghost use Rattle.meaning.specs.Basics.{choose};
ghost use Rattle.tokens.specs.Key.{at, key_of, keys, Inside};
ghost use Rattle.numbers.specs.Alike.{keys_at, level_of_key, level_of_keys, level_at, mixed, spread, weight_of_key, sum_of_keys, label_at, alike};
ghost use Rattle.numbers.specs.Numbering.{Summed, Lasts, Known, Numerable, Rooms, Linked, Points, bucket_at, label_in, Sought, Passed, Numbered};

use tokens::same::{key_of, reaches, same};
use tokens::token::{depth, payload, size};

// Hashes are below this, and the upper part of one is its bucket.
const HASHES: u64 = 4294967296;

const BUCKETS: usize = 256;

const IN_BUCKET: u64 = HASHES / BUCKETS as u64;

// A token has 8 bits for the depth.
const DEPTHS: usize = 256;

// The weight of a bound variable: as much as that of 32768 nodes of any other kind.
const HEAVY: u64 = 281474976710656;

// Of a node: the level of the innermost binder outside that it uses, or 0, the binder itself (counted from 1, or 0), and a hash of its
// subterm and of that binder.
#[derive(Clone, Copy)]
pub struct Node {
    pub level: u64,
    pub binder: u64,
    pub hash: u64,
}

// Two numbers in one hash.
#[tactic(auto, unfolding(crate::specs::Alike::mixed))]
fn mix(m: u64, n: u64) -> u64
    ensures { result ≡ mixed m n }
{
    (m % HASHES + m / HASHES + n % HASHES + n / HASHES) * 506952121 % HASHES
}

// A number with the product of its halves.
#[tactic(auto, using(crate::proofs::Sums::halves_small), unfolding(crate::specs::Alike::spread))]
fn spread(m: u64) -> u64
    requires { m < 4294967296 }
    ensures { result ≡ spread m }
{
    m + m / 65536 * (m % 65536)
}

// What a key adds to the sums: a bound variable the same wherever it is bound, since that differs with where it is seen from.
fn weight(key: u64) -> u64
    ensures { result ≡ weight_of_key key }
{
    match key % 1024 {
        258 | 514 => HEAVY,
        _ => spread(mix(key, 0)),
    }
}

// The sums of the first nodes, for each number of them.
fn add_up(t: &[u64], sums: &mut [u64])
    requires { (length t.now < 65536) × (length t.now < length sums.old) }
    ensures { Summed t.now 0 sums.new }
{
    sums[0] = 0;
    let mut sum = 0;
    for (k, x) in t.iter().enumerate() {
        sum += weight(key_of(0, *x));
        sums[k + 1] = sum;
    }
}

// The level of a variable that is bound outside a root at depth d, 0 for any other token.
fn level_in(d: u64, x: u64) -> u64
    ensures { result ≡ level_of_key (key_of d x) }
{
    if reaches(0, d, x) {
        payload(x) / 65536
    } else {
        0
    }
}

// The level of the innermost binder outside a subterm at depth d that its nodes use. None is above d, so that d ends the search.
fn innermost(xs: &[u64], d: u64) -> u64
    ensures { result ≡ level_of_keys (keys d xs.now) }
{
    let mut level = 0;
    for x in xs {
        if level == d {
            return d;
        }
        level = level.max(level_in(d, *x));
    }
    level
}

// The same of the subterm at node k, whose sum is known: where no variable is bound there is nothing to look for.
fn level_at(t: &[u64], k: usize, sum: u64) -> u64
    requires inside { Inside t.now k }
    requires summed { sum ≡ sum_of_keys (keys_at t.now k) }
    ensures { result ≡ level_at t.now k }
{
    if sum < HEAVY {
        0
    } else {
        let x = t[k];
        let end = k + size(x) as usize;
        innermost(&t[k..end], depth(x))
    }
}

// The binder at a level above the node that comes next, by the last node of each depth before it.
fn binder_at(last: &[u64], level: u64) -> u64
    requires { level ≤ length last.now }
    ensures { result ≡ choose (eqb level 0) 0 (at last.now (level - 1)) }
{
    if level == 0 {
        0
    } else {
        last[(level - 1) as usize]
    }
}

// What is known of node k before it is looked for.
fn node_at(t: &[u64], k: usize, last: &[u64], sums: &[u64]) -> Node
    requires inside { Inside t.now k }
    requires lasts { Lasts t.now k last.now }
    requires summed { Summed t.now k sums.now }
    ensures { Known t.now k result }
{
    let end = k + size(t[k]) as usize;
    let sum = sums[end] - sums[k];
    let level = level_at(t, k, sum);
    let binder = binder_at(last, level);
    Node {
        level,
        binder,
        hash: mix(sum, binder),
    }
}

// Whether nodes i and k are alike, by what is stored with node i and the label of k.
fn is_alike(t: &[u64], i: usize, k: usize, link: u64, label: u64) -> bool
    requires { Inside t.now i × Inside t.now k × (label_in link ≡ label_at t.now i) × (label ≡ label_at t.now k) }
    ensures { result ≡ alike t.now i k }
{
    link / 65536 == label && size(t[i]) == size(t[k]) && same(t, i, k)
}

// The latest node before k that is alike, if there is one: along the links of the bucket, each of which leads to an earlier node.
fn find(t: &[u64], k: usize, links: &[u64], from: u64, label: u64) -> Option<usize>
    requires node { Numerable t.now × (k < length t.now) × (k ≤ length links.now) }
    requires bucket { Linked t.now k links.now × Points t.now (bucket_at t.now k) k from × (label ≡ label_at t.now k) }
    ensures { Sought t.now k result }
{
    let mut at = from;
    // A while: from one node to the next it follows a link.
    while 0 < at {
        let i = (at - 1) as usize;
        let link = links[i];
        if is_alike(t, i, k, link, label) {
            return Some(i);
        }
        at = link % 65536;
    }
    None
}

// One node more: its number is that of the earlier node that is alike, or its own.
fn number_next(
    t: &[u64],
    k: usize,
    node: Node,
    heads: &mut [u64],
    links: &mut [u64],
    ns: &mut [u64],
)
    requires node { Numerable t.now × (k < length t.now) × Known t.now k node }
    requires passed { Passed t.now k heads.old links.old ns.old }
    ensures { Passed t.now (k + 1) heads.new links.new ns.new }
{
    let label = node.binder + 65536 * node.hash;
    let bucket = (node.hash / IN_BUCKET) as usize;
    let head = heads[bucket];
    let earlier = find(t, k, links, head, label);
    links[k] = head + 65536 * label;
    heads[bucket] = k as u64 + 1;
    ns[k] = match earlier {
        Some(i) => ns[i],
        None => k as u64 + 65536 * node.level,
    };
}

// The numbers of all nodes. Until a node has its number there stands the sum of the nodes before it. `links` is written over.
pub fn number(t: &[u64], ns: &mut [u64], links: &mut [u64])
    requires { Numerable t.now × Rooms t.now ns.old links.old }
    ensures { Numbered t.now ns.new }
{
    let mut last = [0u64; DEPTHS];
    let mut heads = [0u64; BUCKETS];
    add_up(t, ns);
    for (k, x) in t.iter().enumerate() {
        let node = node_at(t, k, &last, ns);
        number_next(t, k, node, &mut heads, links, ns);
        let d = depth(*x) as usize;
        last[d] = k as u64 + 1;
    }
}

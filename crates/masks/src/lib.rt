// Sets of the nodes of a face: "node set as a 64-bit mask: ones counted for holes, leading zeros for the lowest node", and since T-10 four such
// words, node 0 at the highest bit of the first. What a set is, as marks and as one number, is defined in specs/.
#![tactic(auto)]

ghost use Rattle.std.specs.Prelude.{◌≡◌, false, ◌<◌, eqb, get_or, set};
ghost use Rattle.masks.specs.Mask.{marks, value, trues, first, join, leave, only};
ghost use Rattle.masks.specs.Sets.{word_count, word_nodes, words, mask, nodes};

// How many nodes a word has.
const WORD: usize = 64;

// Node 0 of a word stands so many bits above the lowest.
const LAST: usize = WORD - 1;

// The word of node k alone.
fn bit(k: usize) -> u64
    requires { k < word_nodes }
    ensures { result ≡ value (only word_nodes k) }
{
    1u64 << (LAST - k)
}

// Whether node k is in the word.
fn in_word(w: u64, k: usize) -> bool
    requires { k < word_nodes }
    ensures { result ≡ get_or (marks word_nodes w) k false }
{
    (w >> (LAST - k)) % 2 == 1
}

// The word with node k as well.
fn word_with(w: u64, k: usize) -> u64
    requires { k < word_nodes }
    ensures { marks word_nodes result ≡ join (marks word_nodes w) k }
{
    w | bit(k)
}

// The word without node k.
fn word_without(w: u64, k: usize) -> u64
    requires { k < word_nodes }
    ensures { marks word_nodes result ≡ leave (marks word_nodes w) k }
{
    if in_word(w, k) { w - bit(k) } else { w }
}

// How many nodes are in the word.
fn ones(w: u64) -> usize
    ensures { result ≡ trues (marks word_nodes w) }
{
    w.count_ones() as usize
}

// The lowest node of the word, or how many nodes it has where none is in it.
fn leading(w: u64) -> usize
    ensures { result ≡ first (marks word_nodes w) }
{
    w.leading_zeros() as usize
}

#[derive(Clone, Copy, PartialEq, Eq)]
pub struct NodeSet {
    pub words: [u64; NodeSet::WORDS],
}

impl NodeSet {
    // How many words a set has, and how many nodes it has room for.
    pub const WORDS: usize = 4;

    pub const ROOM: usize = NodeSet::WORDS * WORD;

    // The set without a node.
    pub fn none() -> NodeSet
        ensures { mask result ≡ 0 }
    {
        NodeSet {
            words: [0; NodeSet::WORDS],
        }
    }

    // Word i. By cases and not as `self.words[i]`, and so in `put`: an index that only running tells keeps the set in memory, and a step of
    // a row then takes a fifth more instructions (measured).
    fn word(self, i: usize) -> u64
        requires { i < word_count }
        ensures { result ≡ get_or (words self) i 0 }
    {
        match i {
            0 => self.words[0],
            1 => self.words[1],
            2 => self.words[2],
            _ => self.words[3],
        }
    }

    // The set with w as its word i.
    fn put(self, i: usize, w: u64) -> NodeSet
        requires { i < word_count }
        ensures { words result ≡ set (words self) i w }
    {
        let mut r = self;
        match i {
            0 => r.words[0] = w,
            1 => r.words[1] = w,
            2 => r.words[2] = w,
            _ => r.words[3] = w,
        }
        r
    }

    // Whether node k is in the set.
    pub fn has(self, k: usize) -> bool
        ensures { result ≡ get_or (nodes self) k false }
    {
        // Asked of every node of a face in every row, and most faces have no more nodes than a word.
        if k < WORD {
            return in_word(self.words[0], k);
        }
        k < NodeSet::ROOM && in_word(self.word(k / WORD), k % WORD)
    }

    // The set with node k as well. A node that there is no room for is not added.
    pub fn with(self, k: usize) -> NodeSet
        ensures { nodes result ≡ join (nodes self) k }
    {
        // As in `has`.
        if k < WORD {
            return self.put(0, word_with(self.words[0], k));
        }
        if k < NodeSet::ROOM {
            let i = k / WORD;
            self.put(i, word_with(self.word(i), k % WORD))
        } else {
            self
        }
    }

    // The set without node k.
    pub fn without(self, k: usize) -> NodeSet
        ensures { nodes result ≡ leave (nodes self) k }
    {
        if k < NodeSet::ROOM {
            let i = k / WORD;
            self.put(i, word_without(self.word(i), k % WORD))
        } else {
            self
        }
    }

    // How many nodes are in the set: the number of holes of a body. Ones are counted over all words.
    pub fn holes(self) -> usize
        ensures { result ≡ trues (nodes self) }
    {
        let mut n = 0;
        for w in &self.words {
            n += ones(*w);
        }
        n
    }

    // The lowest node of the set, or ROOM where it has none: the leading zeros of the first word that is not 0, after the words before it.
    pub fn lowest(self) -> usize
        ensures { result ≡ first (nodes self) }
    {
        for (i, w) in self.words.iter().enumerate() {
            if *w != 0 {
                return i * WORD + leading(*w);
            }
        }
        NodeSet::ROOM
    }

    // Whether no node is in the set. Asked of every function at every step of a row: the lowest node is found with fewer instructions than the ones are counted.
    pub fn is_empty(self) -> bool
        ensures { result ≡ eqb (mask self) 0 }
    {
        self.lowest() == NodeSet::ROOM
    }
}

// What the search asks of the nodes of a table, answered by their numbers.
ghost use Rattle.std.specs.Prelude.{◌≡◌, ◌<◌, length};
ghost use Rattle.numbers.specs.Tests.{told, closed_by};

// Whether the subterms at two nodes are equal.
pub fn same(ns: &[u64], a: usize, b: usize) -> bool
    requires { (a < length ns.now) × (b < length ns.now) }
    ensures { result ≡ (told ns.now).same a b }
{
    ns[a] == ns[b]
}

// Whether the subterm at a node uses a variable that is bound above it inside the face, whose root has binder depth d.
pub fn uses(ns: &[u64], a: usize, d: u64) -> bool
    requires { a < length ns.now }
    ensures { result ≡ (told ns.now).uses a d }
{
    d < ns[a] / 65536
}

// Whether no variable of the subterm at a node is bound outside it.
pub fn closed(ns: &[u64], a: usize) -> bool
    requires { a < length ns.now }
    ensures { result ≡ closed_by (told ns.now) a }
{
    !uses(ns, a, 0)
}

// The nodes of a table: a token and a number for each.
#[derive(Clone, Copy)]
pub struct Nodes<'a> {
    pub tokens: &'a [u64],
    pub numbers: &'a [u64],
    ghost one_each: { length numbers.now ≡ length tokens.now },
}

// The same of these nodes, by their numbers.
impl Nodes<'_> {
    pub fn same(self, a: usize, b: usize) -> bool
        requires { (a < length self.tokens.now) × (b < length self.tokens.now) }
        ensures { result ≡ (told self.entry.numbers.now).same a b }
    {
        same(self.numbers, a, b)
    }

    pub fn uses(self, a: usize, d: u64) -> bool
        requires { a < length self.tokens.now }
        ensures { result ≡ (told self.entry.numbers.now).uses a d }
    {
        uses(self.numbers, a, d)
    }

    pub fn closed(self, a: usize) -> bool
        requires { a < length self.tokens.now }
        ensures { result ≡ closed_by (told self.entry.numbers.now) a }
    {
        closed(self.numbers, a)
    }
}

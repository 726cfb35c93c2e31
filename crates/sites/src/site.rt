// Where a term stands: the names that binders around it give, its context, and how many levels may still be opened.
ghost use Rattle.std.specs.Prelude.{◌≡◌, ◌+◌, ◌≤◌, ◌<◌, length};
ghost use Rattle.meaning.specs.Field.{tag_of};
ghost use Rattle.meaning.specs.Read.{context_below};
ghost use Rattle.tokens.specs.Token.{token_of, level_of, payload_of};
ghost use Rattle.fields.specs.Heads.{context_from, label_of};
ghost use Rattle.sites.specs.Site.{scope_of, site_scope, With, Entered, Good, Top, Below};

use fields::field::Context;
use fields::limit::MAX_DEPTH;
use fields::node::Node;
use fields::number::Variable;
use tokens::token::{pair, token};

// The bound names of the binders around a place, outermost first; the entries past `depth` are not used. No `ArrayVec`: below a binder a scope is
// copied and gets one name more, and the copy of an `ArrayVec` may fail.
#[derive(Clone, Copy)]
pub struct Scope {
    pub names: [u16; MAX_DEPTH],
    pub depth: usize,
}

impl Scope {
    pub fn empty() -> Self
        ensures { (result.depth ≡ 0) × (length result.names ≡ 32) }
    {
        Self {
            names: [0; MAX_DEPTH],
            depth: 0,
        }
    }

    // One more than the number of binders above the nearest one of the name x, or 0.
    #[tactic(auto, using(crate::proofs::SiteLaws::level_step, crate::proofs::SiteLaws::level_here, crate::proofs::SiteLaws::level_none))]
    pub fn level(self, x: Variable) -> usize
        requires { self.depth ≤ 32 }
        ensures { (result ≡ level_of (scope_of self) x.0) × (result ≤ 32) }
    {
        for k in (0..self.depth).rev() {
            if self.names[k] == x.0 {
                return k + 1;
            }
        }
        0
    }

    pub fn with(self, x: Variable) -> Self
        requires { (self.depth < 32) × (length self.names ≡ 32) }
        ensures { With self x.0 result }
    {
        let mut next = self;
        next.names[self.depth] = x.0;
        next.depth += 1;
        next
    }

    // What the node says, where it stands in this scope and has so many children.
    #[tactic(auto, unfolding(tokens::specs::Token::payload_of))]
    pub fn payload(self, node: Node, count: usize) -> u64
        requires { (self.depth ≤ 32) × (count < 65536) }
        ensures { (result ≡ payload_of (scope_of self) (label_of node count)) × (result < 4294967296) }
    {
        match node {
            Node::Symbol(x) => u64::from(x.0),
            Node::Variable(x) => pair(x.0, self.level(x) as u16),
            Node::Application => count as u64,
            Node::Binder(b, x) => pair(b.0, x.0),
            Node::Metavariable(m) | Node::Function(m) => u64::from(m.0),
            Node::Hole => 0,
        }
    }
}

#[derive(Clone, Copy)]
pub struct Site {
    pub context: Context,
    pub levels: usize,
    pub scope: Scope,
}

impl Site {
    // A term that no other term encloses.
    #[tactic(auto, using(crate::proofs::SiteLaws::names_none), unfolding(meaning::specs::Limits::max_depth))]
    pub fn top(context: Context) -> Self
        ensures { Top (context_from context) result }
    {
        Self {
            context,
            levels: MAX_DEPTH,
            scope: Scope::empty(),
        }
    }

    // Where the inner terms of a node stand.
    pub fn below(self, node: Node) -> Self
        requires { (1 ≤ self.levels) × Good self }
        ensures { Below self (label_of node 0) result }
    {
        Self {
            context: context_below(node, self.context),
            levels: self.levels - 1,
            scope: scope_below(node, self.scope),
        }
    }

    // The token of a node that stands here, with so many nodes in all and so many children.
    #[tactic(auto, using(crate::proofs::SiteLaws::label_tag))]
    pub fn token(self, node: Node, size: usize, count: usize) -> u64
        requires { (self.scope.depth ≤ 32) × (size < 65536) × (count < 65536) }
        ensures { result
            ≡ token_of (tag_of (label_of node count)) self.scope.depth size (payload_of (site_scope self) (label_of node count)) }
    {
        token(
            node.tag(),
            self.scope.depth,
            size,
            self.scope.payload(node, count),
        )
    }
}

// Below a function stands an argument.
#[tactic(auto, unfolding(meaning::specs::Read::context_below))]
fn context_below(node: Node, context: Context) -> Context
    ensures { context_from result ≡ context_below (label_of node 0) (context_from context) }
{
    match node {
        Node::Symbol(_) | Node::Variable(_) | Node::Application | Node::Binder(_, _) => context,
        Node::Metavariable(_) | Node::Function(_) | Node::Hole => Context::Argument,
    }
}

// Only a binder adds a name.
fn scope_below(node: Node, scope: Scope) -> Scope
    requires { (scope.depth < 32) × (length scope.names ≡ 32) }
    ensures { Entered scope (label_of node 0) result }
{
    match node {
        Node::Binder(_, x) => scope.with(x),
        Node::Symbol(_)
        | Node::Variable(_)
        | Node::Application
        | Node::Metavariable(_)
        | Node::Function(_)
        | Node::Hole => scope,
    }
}

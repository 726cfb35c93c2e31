// What the fixed part of a content says of a node, before its inner fields are read.
#![tactic(auto, using(meaning::proofs::ByteLaws::narrow_two, meaning::proofs::ByteLaws::wide_four), unfolding(meaning::specs::Read::content_of, meaning::specs::Limits::first_wide, meaning::specs::Limits::metavariable_count, crate::specs::Heads::content_with))]

ghost use Rattle.std.specs.Prelude.{◌≡◌, ◌<◌, ◌≤◌, MatchResult};
ghost use Rattle.meaning.specs.Limits.{metavariable_count};
ghost use Rattle.refusal.specs.declared.Refusal.TheVariants.{MetavariableOver31};
ghost use Rattle.meaning.specs.Field.{tag_of};
ghost use Rattle.meaning.specs.Read.{symbol_kind, variable_kind, application_kind, binder_kind, metavariable_kind, function_kind, hole_kind};
ghost use Rattle.fields.specs.Heads.{context_from, kind_from, label_of, fixed_of, due_of, ContentDone, OpenDone};

use crate::field::{Context, Kind, head_of, long, word};
use crate::limit::{FIRST_WIDE, METAVARIABLES};
use crate::number::{Binder, Metavariable, Symbol, Variable};
use refusal::Refusal;

#[derive(Clone, Copy)]
pub enum Node {
    Symbol(Symbol),
    Variable(Variable),
    Application,
    Binder(Binder, Variable),
    Metavariable(Metavariable),
    Function(Metavariable),
    Hole,
}

// How many inner fields a node must have. An enum of its own and no `Option`, since neither is an absence.
#[derive(Clone, Copy)]
pub enum Due {
    // As many as fill the content.
    All,
    Exactly(usize),
}

impl Node {
    pub fn tag(self) -> u64
        ensures { (result ≡ tag_of (label_of self 0)) × (result < 256) }
    {
        match self {
            Node::Symbol(_) => 1,
            Node::Variable(_) => 2,
            Node::Application => 3,
            Node::Binder(_, _) => 4,
            Node::Metavariable(_) => 5,
            Node::Function(_) => 6,
            Node::Hole => 10,
        }
    }

    // The bytes of the fixed part.
    pub fn fixed(self) -> usize
        ensures { result ≡ fixed_of self }
    {
        match self {
            Node::Symbol(x) => x.width(),
            Node::Variable(_) => 2,
            Node::Application => 0,
            Node::Binder(_, _) => 4,
            Node::Metavariable(_) | Node::Function(_) => 1,
            Node::Hole => 0,
        }
    }

    pub fn due(self) -> Due
        ensures { result ≡ due_of self }
    {
        match self {
            Node::Application => Due::All,
            Node::Binder(_, _) | Node::Function(_) => Due::Exactly(1),
            Node::Symbol(_) | Node::Variable(_) | Node::Metavariable(_) | Node::Hole => {
                Due::Exactly(0)
            }
        }
    }
}

// The content rules, one for each tag: 6, then 25 or 10.
fn symbol_in(c: &[u8]) -> Result<Node, Refusal>
    ensures { ContentDone symbol_kind c.now result }
{
    if c.len() == 2 {
        return Ok(Node::Symbol(Symbol(u32::from(word(c, 0)))));
    }
    if c.len() != 4 {
        return Err(Refusal::FixedPart);
    }
    let n = long(c, 0);
    if n < FIRST_WIDE {
        Err(Refusal::SymbolTooWide)
    } else {
        Ok(Node::Symbol(Symbol(n)))
    }
}

fn variable_in(c: &[u8]) -> Result<Node, Refusal>
    ensures { ContentDone variable_kind c.now result }
{
    if c.len() == 2 {
        Ok(Node::Variable(Variable(word(c, 0))))
    } else {
        Err(Refusal::FixedPart)
    }
}

fn application_in(c: &[u8]) -> Result<Node, Refusal>
    ensures { ContentDone application_kind c.now result }
{
    if c.is_empty() {
        Err(Refusal::FixedPart)
    } else {
        Ok(Node::Application)
    }
}

fn binder_in(c: &[u8]) -> Result<Node, Refusal>
    ensures { ContentDone binder_kind c.now result }
{
    if c.len() < 4 {
        Err(Refusal::FixedPart)
    } else {
        Ok(Node::Binder(Binder(word(c, 0)), Variable(word(c, 2))))
    }
}

// "10 metavariable over 31".
fn numbered(m: u8) -> Result<Metavariable, Refusal>
    ensures { MatchResult result (λ x. (x.0 ≡ m) × (m < metavariable_count)) (λ r. (r ≡ MetavariableOver31) × (metavariable_count ≤ m)) }
{
    if m < METAVARIABLES {
        Ok(Metavariable(m))
    } else {
        Err(Refusal::MetavariableOver31)
    }
}

fn metavariable_in(c: &[u8]) -> Result<Node, Refusal>
    ensures { ContentDone metavariable_kind c.now result }
{
    if c.len() == 1 {
        Ok(Node::Metavariable(numbered(c[0])?))
    } else {
        Err(Refusal::FixedPart)
    }
}

fn function_in(c: &[u8]) -> Result<Node, Refusal>
    ensures { ContentDone (function_kind 1) c.now result }
{
    if c.is_empty() {
        Err(Refusal::FixedPart)
    } else {
        Ok(Node::Function(numbered(c[0])?))
    }
}

fn hole_in(c: &[u8]) -> Result<Node, Refusal>
    ensures { ContentDone (hole_kind 0) c.now result }
{
    if c.is_empty() {
        Ok(Node::Hole)
    } else {
        Err(Refusal::FixedPart)
    }
}

fn content_of(kind: Kind, c: &[u8]) -> Result<Node, Refusal>
    ensures { ContentDone (kind_from kind) c.now result }
{
    match kind {
        Kind::Symbol => symbol_in(c),
        Kind::Variable => variable_in(c),
        Kind::Application => application_in(c),
        Kind::Binder => binder_in(c),
        Kind::Metavariable => metavariable_in(c),
        Kind::Function => function_in(c),
        Kind::Hole => hole_in(c),
    }
}

// A term before its inner fields: its node, and where its field ends.
#[derive(Clone, Copy)]
pub struct Opened {
    pub node: Node,
    pub end: usize,
}

// The head, "5 depth over 32", the fixed part.
#[tactic(auto, using(crate::proofs::HeadLaws::open_refused, crate::proofs::HeadLaws::open_deep, crate::proofs::HeadLaws::open_broken, crate::proofs::HeadLaws::open_node_lem))]
pub fn open_term(s: &[u8], context: Context, levels: usize) -> Result<Opened, Refusal>
    ensures { OpenDone levels (context_from context) s.now result }
{
    let head = head_of(s, context)?;
    if levels == 0 {
        return Err(Refusal::TooDeep);
    }
    let end = 3 + head.length;
    let node = content_of(head.kind, &s[3..end])?;
    Ok(Opened { node, end })
}

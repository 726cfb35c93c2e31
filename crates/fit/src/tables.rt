// What the test of a row looks at.
ghost use Rattle.tokens.specs.Token.{Table};
ghost use Rattle.bodies.specs.Suits.{Nested};

use faces::first::Firsts;
use numbers::ask::Nodes;

// The tables of an accepted problem: the tokens of its patterns, the nodes of its expressions, and the recorded faces; and its functions, as a
// set, with the nodes of their first faces.
#[derive(Clone, Copy)]
pub struct Tables<'a> {
    pub patterns: &'a [u64],
    pub nodes: Nodes<'a>,
    pub faces: &'a [u64],
    pub functions: u32,
    pub firsts: Firsts,
    ghost pattern_table: { Table patterns.now },
    ghost node_table: { Table nodes.tokens.now },
    ghost nested: { Nested nodes.tokens.now },
}

// What the functions of a problem choose from.
ghost use Rattle.rows.specs.Rows.{Faced};

use faces::first::Firsts;
use numbers::ask::Nodes;

// The functions of a problem that has rows: the nodes of its expressions, and where the first face of each function stands.
#[derive(Clone, Copy)]
pub struct Functions<'a> {
    pub nodes: Nodes<'a>,
    pub firsts: Firsts,
    ghost faced: { Faced nodes.tokens.now nodes.numbers.now firsts },
}

// What happens once a call, whatever is asked: the problem is read and checked, the nodes of its expressions are numbered, and where it has
// rows the nodes of its functions' faces are looked up. The start, searching and writing begin with it.
#![tactic(auto)]

ghost use Rattle.std.specs.Prelude.{◌<◌, ◌≤◌, length};
ghost use Rattle.meaning.specs.Accept.{accept};
ghost use Rattle.numbers.specs.Numbering.{Numbered, Numerable};
ghost use Rattle.table.specs.Whole.{table_room};
ghost use Rattle.accept.specs.Acceptance.{Rooms};
ghost use Rattle.prepare.specs.Prepared.{NoFaces, Ground, Tabling, Prepares, SomeFronts, Made, PreparesLent};

use accept::{Filled, accept};
use faces::first::{Firsts, first_faces};
use fit::Tables;
use metavariables::{MAX_FUNCTIONS, Occurring};
use numbers::ask::Nodes;
use numbers::make::number;
use refusal::Refusal;
use rows::Functions;
use table::TABLE_ROOM;

// An accepted problem in tables that are lent: how many entries stand at the front of each, and the nodes of its functions' faces. Of a problem
// that has no rows there are none.
#[derive(Clone, Copy)]
pub struct Fronts {
    pub filled: Filled,
    pub firsts: Firsts,
}

// The same as it is lent: its tables, with the nodes of its functions' faces, the sets of its metavariables, and its functions. None where it
// has no rows: then the tables have no faces.
#[derive(Clone, Copy)]
pub struct Prepared<'a> {
    pub tables: Tables<'a>,
    pub occurring: Occurring,
    pub functions: Option<Functions<'a>>,
}

fn no_faces() -> Firsts
    ensures { NoFaces result }
{
    Firsts {
        nodes: [0; MAX_FUNCTIONS],
        count: 0,
    }
}

// The numbers of all nodes of the expressions.
fn number_nodes(es: &[u64], ns: &mut [u64])
    requires { Numerable es.now × (length es.now < table_room) × (length es.now < length ns.old) }
    ensures { Numbered es.now ns.new }
{
    let mut links = [0u64; TABLE_ROOM];
    number(es, ns, &mut links);
}

// An accepted problem: its numbers, and the nodes of its functions' faces, where it has rows.
fn with_numbers(a: Filled, ps: &[u64], es: &[u64], ns: &mut [u64], fs: &[u64]) -> Fronts
    requires ground { Ground ps.now es.now fs.now a }
    requires room { table_room ≤ length ns.old }
    ensures { Tabling ps.now es.now ns.new fs.now a result }
{
    let functions = a.occurring.functions;
    let firsts = match a.faces {
        Some(n) => first_faces(&ps[..a.patterns], &fs[..n], functions),
        None => no_faces(),
    };
    number_nodes(&es[..a.expressions], ns);
    Fronts { filled: a, firsts }
}

// Any bytes: document 01's refusal, or all that later steps need of the problem, in the tables and in the answer. After a refusal the
// tables may hold anything.
pub fn prepare(
    problem: &[u8],
    ps: &mut [u64],
    es: &mut [u64],
    ns: &mut [u64],
    fs: &mut [u64],
) -> Result<Fronts, Refusal>
    requires rooms { Rooms ps.old es.old fs.old }
    requires room { table_room ≤ length ns.old }
    ensures { Prepares (accept problem.now) ps.new es.new ns.new fs.new result }
{
    let filled = accept(problem, ps, es, fs)?;
    Ok(with_numbers(filled, ps, es, ns, fs))
}

// The fronts of the tables, with the nodes of the expressions.
fn lent<'a>(a: Fronts, ps: &'a [u64], nodes: Nodes<'a>, fs: &'a [u64]) -> Prepared<'a>
    requires { SomeFronts ps.now nodes fs.now a }
    ensures { Made ps.now nodes.entry fs.now a result }
{
    let Fronts { filled, firsts } = a;
    let (faces, functions) = match filled.faces {
        Some(n) => {
            let functions = Functions { nodes, firsts };
            (&fs[..n], Some(functions))
        }
        None => (&fs[..0], None),
    };
    let tables = Tables {
        patterns: &ps[..filled.patterns],
        nodes,
        faces,
        functions: filled.occurring.functions,
        firsts,
    };
    Prepared {
        tables,
        occurring: filled.occurring,
        functions,
    }
}

// The same, where the problem alone is asked for: document 01's refusal, or all that later steps need, in slices of the tables. While these are
// lent no clause can say what the tables hold, as that of `prepare` does.
pub fn prepare_lent<'a>(
    problem: &[u8],
    ps: &'a mut [u64],
    es: &'a mut [u64],
    ns: &'a mut [u64],
    fs: &'a mut [u64],
) -> Result<Prepared<'a>, Refusal>
    requires rooms { Rooms ps.old es.old fs.old }
    requires room { table_room ≤ length ns.old }
    ensures { PreparesLent (accept problem.now) result }
{
    let fronts = prepare(problem, ps, es, ns, fs)?;
    let expressions = fronts.filled.expressions;
    let nodes = Nodes {
        tokens: &es[..expressions],
        numbers: &ns[..expressions],
    };
    Ok(lent(fronts, ps, nodes, fs))
}

// Reads a term: "each inner field is again a term". The same recursion fills the table, children before their head.
ghost use Rattle.std.specs.Prelude.{◌≡◌, length, []};
ghost use Rattle.meaning.specs.Limits.{max_depth};
ghost use Rattle.meaning.specs.Read.{read_term, in_pattern, in_expression, in_body};
ghost use Rattle.fields.specs.Heads.{context_from, read_fields};
ghost use Rattle.sites.specs.Site.{site_scope, site_context};
ghost use Rattle.terms.specs.Reading.{Space, Room, Inner, TermDone, FieldsDone, next_of};

use fields::field::Context;
use fields::node::{Due, open_term};
use refusal::Refusal;
use sites::site::Site;

// What reading a term answers: the bytes that the term takes, and its nodes, which stand in the table.
#[derive(Clone, Copy)]
pub struct Took {
    pub bytes: usize,
    pub nodes: usize,
}

// The nodes of all the inner fields, and how many fields.
#[derive(Clone, Copy)]
struct Fields {
    nodes: usize,
    count: usize,
}

// What is due after the next field where so many bytes are left, or none where all fields are read.
fn next_due(due: Due, left: usize) -> Result<Option<Due>, Refusal>
    ensures { result ≡ next_of due left }
{
    match due {
        Due::All if left == 0 => Ok(None),
        Due::All => Ok(Some(Due::All)),
        Due::Exactly(0) if left == 0 => Ok(None),
        Due::Exactly(0) => Err(Refusal::InnerFields),
        Due::Exactly(n) => Ok(Some(Due::Exactly(n - 1))),
    }
}

// The inner fields, and then the head, which goes before them.
#[cycle(read_fields_read_term)]
pub fn read_term(s: &[u8], site: Site, out: &mut [u64]) -> Result<Took, Refusal>
    requires { Room site (length s.now) (length out.old) }
    ensures { TermDone (site_scope site) s.now (read_term site.levels (site_context site) s.now)
        out.old out.new result }
{
    let opened = open_term(s, site.context, site.levels)?;
    let node = opened.node;
    let at = 3 + node.fixed();
    let inner = read_fields(
        &s[at..opened.end],
        node.due(),
        site.below(node),
        &mut out[1..],
    )?;
    let nodes = inner.nodes + 1;
    out[0] = site.token(node, nodes, inner.count);
    Ok(Took {
        bytes: opened.end,
        nodes,
    })
}

// The inner fields of a node, each into the part of the table after those before it. A loop, so that the stack grows with the depth of a
// term and not with the number of its children; a `while`, since a field takes as many bytes as it says.
#[cycle(read_fields_read_term)]
fn read_fields(s: &[u8], due: Due, site: Site, out: &mut [u64]) -> Result<Fields, Refusal>
    requires { Inner site (length s.now) (length out.old) }
    ensures { FieldsDone (site_scope site) (read_fields due (read_term site.levels (site_context site)) s.now)
        out.old out.new result }
{
    // What is still due, the nodes and the fields that are read, and the bytes that they take.
    let mut left = due;
    let mut nodes = 0;
    let mut count = 0;
    let mut at = 0;
    while let Some(later) = next_due(left, s.len() - at)? {
        let took = read_term(&s[at..], site, &mut out[nodes..])?;
        left = later;
        nodes += took.nodes;
        count += 1;
        at += took.bytes;
    }
    Ok(Fields { nodes, count })
}

// A term that no other term encloses.
fn read_top(s: &[u8], context: Context, out: &mut [u64]) -> Result<Took, Refusal>
    requires { Space (length s.now) (length out.old) }
    ensures { TermDone [] s.now (read_term max_depth (context_from context) s.now) out.old
        out.new result }
{
    read_term(s, Site::top(context), out)
}

// A pattern, an expression and a text's body, each by itself.
pub fn read_pattern(s: &[u8], out: &mut [u64]) -> Result<Took, Refusal>
    requires { Space (length s.now) (length out.old) }
    ensures { TermDone [] s.now (read_term max_depth in_pattern s.now) out.old out.new result }
{
    read_top(s, Context::Pattern, out)
}

pub fn read_expression(s: &[u8], out: &mut [u64]) -> Result<Took, Refusal>
    requires { Space (length s.now) (length out.old) }
    ensures { TermDone [] s.now (read_term max_depth in_expression s.now) out.old
        out.new result }
{
    read_top(s, Context::Expression, out)
}

pub fn read_body(s: &[u8], out: &mut [u64]) -> Result<Took, Refusal>
    requires { Space (length s.now) (length out.old) }
    ensures { TermDone [] s.now (read_term max_depth in_body s.now) out.old out.new result }
{
    read_top(s, Context::Body, out)
}

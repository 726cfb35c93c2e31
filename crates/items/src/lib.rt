// Reads a solution text: 19, then its fields to the end, "8 (value), 9 (body), 11 (open)", with 20 for whatever is not as document 01 says,
// and then 27 if their numbers do not rise (T-07). Their terms go into one table, one after the other, and what the text says of each
// metavariable stands beside it.
#![tactic(auto)]

ghost use Rattle.std.specs.Prelude.{◌≡◌, ◌<◌, ◌≤◌, length};
ghost use Rattle.meaning.specs.Limits.{metavariable_count};
ghost use Rattle.meaning.specs.Text.{read_items, read_text};
ghost use Rattle.terms.specs.Reading.{Space};
ghost use Rattle.items.specs.Fields.{RuleOf, ended_of, FieldInside, content_read, read_field, FieldDone};
ghost use Rattle.items.specs.Noted.{field_with, NoteRoom, noted_of};
ghost use Rattle.items.specs.Order.{followed_by};
ghost use Rattle.items.specs.Texts.{text_room, TextSpace, FieldsDone, TextDone};

use fields::field::parts_of;
use fields::number::Metavariable;
use metavariables::METAVARIABLES;
use refusal::Refusal;
use said::{Field, Said};
use terms::term::{Took, read_body, read_expression};

pub const LARGEST_TEXT: usize = 8192;

// The entries of a table with room for the terms of every text: a node takes three bytes or more.
pub const TEXT_ROOM: usize = 2731;

// What a text says, and how many entries at the front of the table hold its terms.
#[derive(Clone, Copy)]
pub struct Text {
    pub used: usize,
    pub said: Said,
}

// The content rules. After the number comes an expression, "an expression in which 10 may stand for a term", or nothing.
#[derive(Clone, Copy)]
enum Rule {
    Value,
    Body,
    Open,
}

impl Rule {
    // "8 (value), 9 (body), 11 (open)", and no other tag.
    fn of(tag: u8) -> Option<Rule>
        ensures { RuleOf tag result }
    {
        match tag {
            8 => Some(Rule::Value),
            9 => Some(Rule::Body),
            11 => Some(Rule::Open),
            0..=7 | 10 | 12..=255 => None,
        }
    }

    // What a field with this content says, its term at a node.
    fn field(self, node: usize) -> Field
        ensures { result ≡ field_with self node }
    {
        match self {
            Rule::Value => Field::Value(node),
            Rule::Body => Field::Body(node),
            Rule::Open => Field::Open,
        }
    }
}

// One field of a text: the bytes that it takes, its metavariable, its content rule, and the nodes of its term.
#[derive(Clone, Copy)]
struct Item {
    bytes: usize,
    m: Metavariable,
    rule: Rule,
    nodes: usize,
}

// The order of the fields so far.
#[derive(Clone, Copy)]
struct Order {
    // Whether each number is above the one before it.
    rising: bool,
    // The lowest number that the next field may have.
    next: u8,
}

// The fields of a text, each of which can be read.
#[derive(Clone, Copy)]
struct Fields {
    // Whether their numbers rise; if not, what they say means nothing.
    rising: bool,
    text: Text,
}

// A field up to its end, once the term is read that stands from byte 4 on: the term must take all that is left.
fn ended(rule: Rule, m: Metavariable, end: usize, term: Result<Took, Refusal>) -> Option<Item>
    requires { 4 ≤ end }
    ensures { result ≡ ended_of rule m end term }
{
    let Ok(took) = term else {
        return None;
    };
    if took.bytes == end - 4 {
        Some(Item {
            bytes: end,
            m,
            rule,
            nodes: took.nodes,
        })
    } else {
        None
    }
}

// The content of a field, from byte 3 to its end: "number, 1 byte", and then what the rule of its tag says.
fn read_content(s: &[u8], tag: u8, end: usize, table: &mut [u64]) -> Option<Item>
    requires { FieldInside s.now end × Space (length s.now) (length table.old) }
    ensures { FieldDone s.now (content_read tag end s.now) table.old table.new result }
{
    if end == 3 {
        return None;
    }
    let number = s[3];
    if METAVARIABLES <= u32::from(number) {
        return None;
    }
    let m = Metavariable(number);
    let rule = Rule::of(tag)?;
    match rule {
        Rule::Value => ended(rule, m, end, read_expression(&s[4..end], table)),
        Rule::Body => ended(rule, m, end, read_body(&s[4..end], table)),
        Rule::Open => ended(rule, m, end, Ok(Took { bytes: 0, nodes: 0 })),
    }
}

// The field at the front of the bytes, its term at the front of the table.
fn read_field(s: &[u8], table: &mut [u64]) -> Option<Item>
    requires { Space (length s.now) (length table.old) }
    ensures { FieldDone s.now (read_field s.now) table.old table.new result }
{
    let Ok(parts) = parts_of(s) else {
        return None;
    };
    read_content(s, parts.tag, 3 + parts.length, table)
}

// What a field says of its metavariable, noted in place.
fn noted(said: &mut Said, m: Metavariable, field: Field)
    requires { NoteRoom said.old m.0 }
    ensures { said.new ≡ noted_of said.old m.0 field }
{
    said.fields[usize::from(m.0)] = Some(field);
}

// The order of the fields with one more at their end.
fn followed(order: Order, m: Metavariable) -> Order
    requires { m.0 < metavariable_count }
    ensures { result ≡ followed_by order m.0 }
{
    let next = m.0 + 1;
    if m.0 < order.next {
        return Order {
            rising: false,
            next,
        };
    }
    Order {
        rising: order.rising,
        next,
    }
}

// The fields of a text to its end, or 20 at the first that is not as document 01 says.
fn read_fields(text: &[u8], table: &mut [u64]) -> Result<Fields, Refusal>
    requires { TextSpace text.now table.old }
    ensures { FieldsDone (read_items (length text.now) text.now) table.new result }
{
    let mut said = Said::nothing();
    let mut order = Order {
        rising: true,
        next: 0,
    };
    let mut used = 0;
    let mut at = 0;
    // A `while`: a step is a field's length.
    while at < text.len() {
        let Some(item) = read_field(&text[at..], &mut table[used..]) else {
            return Err(Refusal::TextMalformed);
        };
        noted(&mut said, item.m, item.rule.field(used));
        order = followed(order, item.m);
        used += item.nodes;
        at += item.bytes;
    }
    Ok(Fields {
        rising: order.rising,
        text: Text { used, said },
    })
}

// Any bytes: document 01's refusal, or the text's terms at the front of the table and what it says of each metavariable. 27 is "checked
// after 20 over the whole text".
pub fn read_text(text: &[u8], table: &mut [u64]) -> Result<Text, Refusal>
    requires { text_room ≤ length table.old }
    ensures { TextDone (read_text text.now) table.new result }
{
    if LARGEST_TEXT < text.len() {
        return Err(Refusal::TextTooLong);
    }
    let found = read_fields(text, table)?;
    if !found.rising {
        return Err(Refusal::TextOutOfOrder);
    }
    Ok(found.text)
}

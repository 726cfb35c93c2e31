// A field's head: what its tag allows where it stands, and how long its content is.
ghost use Rattle.std.specs.Prelude.{◌≡◌, ◌+◌, ◌≤◌, length};
ghost use Rattle.meaning.specs.Read.{kind_of, long_at, word_at};
ghost use Rattle.fields.specs.Heads.{context_from, ruled_from, PartsDone, HeadDone};

use refusal::Refusal;

// Where a term stands, which decides what its tag may be.
#[derive(Clone, Copy)]
pub enum Context {
    Pattern,
    Argument,
    Expression,
    Body,
}

// The content rules, one for each tag.
#[derive(Clone, Copy)]
pub enum Kind {
    Symbol,
    Variable,
    Application,
    Binder,
    Metavariable,
    Function,
    Hole,
}

// "Each tag has its own content rule, and tags 8 to 255 are refused"; 10 has its place in a text's body.
#[tactic(auto, unfolding(meaning::specs::Read::kind_of, meaning::specs::Read::metavariable_in, meaning::specs::Read::function_in, meaning::specs::Read::hole_in))]
pub fn rule_of(tag: u8, context: Context) -> Result<Kind, Refusal>
    ensures { ruled_from result ≡ kind_of (context_from context) tag }
{
    match tag {
        1 => Ok(Kind::Symbol),
        2 => Ok(Kind::Variable),
        3 => Ok(Kind::Application),
        4 => Ok(Kind::Binder),
        5 => match context {
            Context::Pattern | Context::Argument => Ok(Kind::Metavariable),
            Context::Expression | Context::Body => Err(Refusal::PatternInExpression),
        },
        6 => match context {
            Context::Pattern => Ok(Kind::Function),
            Context::Argument => Err(Refusal::FunctionInArgument),
            Context::Expression | Context::Body => Err(Refusal::PatternInExpression),
        },
        10 => match context {
            Context::Pattern | Context::Argument | Context::Expression => {
                Err(Refusal::TagOutOfPlace)
            }
            Context::Body => Ok(Kind::Hole),
        },
        0 | 7..=9 | 11..=255 => Err(Refusal::TagOutOfPlace),
    }
}

// The number in two bytes, high byte first.
pub fn word(s: &[u8], at: usize) -> u16
    requires { at + 2 ≤ length s.now }
    ensures { result ≡ word_at s.now at }
{
    u16::from_be_bytes([s[at], s[at + 1]])
}

// The number in four bytes, high byte first.
pub fn long(s: &[u8], at: usize) -> u32
    requires { at + 4 ≤ length s.now }
    ensures { result ≡ long_at s.now at }
{
    u32::from_be_bytes([s[at], s[at + 1], s[at + 2], s[at + 3]])
}

// A field's tag and the length of its content.
#[derive(Clone, Copy)]
pub struct Parts {
    pub tag: u8,
    pub length: usize,
}

#[tactic(auto, unfolding(meaning::specs::Read::parts_of))]
pub fn parts_of(s: &[u8]) -> Result<Parts, Refusal>
    ensures { PartsDone s.now result }
{
    if s.len() < 3 {
        return Err(Refusal::HeadCutOff);
    }
    let length = usize::from(word(s, 1));
    if s.len() - 3 < length {
        return Err(Refusal::LengthPastEnd);
    }
    Ok(Parts { tag: s[0], length })
}

// The content rule of a term's field, and the length of its content.
#[derive(Clone, Copy)]
pub struct Head {
    pub kind: Kind,
    pub length: usize,
}

#[tactic(auto, unfolding(meaning::specs::Read::head_of))]
pub fn head_of(s: &[u8], context: Context) -> Result<Head, Refusal>
    ensures { HeadDone (context_from context) s.now result }
{
    if s.is_empty() {
        return Err(Refusal::InnerFields);
    }
    let parts = parts_of(s)?;
    let kind = rule_of(parts.tag, context)?;
    Ok(Head {
        kind,
        length: parts.length,
    })
}

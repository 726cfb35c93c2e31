// The refusals of document 01 and of its change requests. Each function that refuses answers one of them as its error, so that `?` hands it on; a
// host that wants the number asks for it.
#![tactic(auto)]

ghost use Rattle.std.specs.Prelude.{◌≡◌};
ghost use Rattle.refusal.specs.Number.{number};

#[derive(Clone, Copy, Debug, PartialEq, Eq)]
pub enum Refusal {
    // The problem has over 4,096 bytes.
    ProblemTooLong = 1,
    // Only 1 or 2 bytes are left where a field begins.
    HeadCutOff = 2,
    // A field's length goes past the enclosing end.
    LengthPastEnd = 3,
    // A tag has no place where it stands.
    TagOutOfPlace = 4,
    // A term stands deeper than 32.
    TooDeep = 5,
    // A field's fixed part has a length that its tag does not allow, or an application is empty.
    FixedPart = 6,
    // No inner field is left where one is due, or bytes are left after the last.
    InnerFields = 7,
    // A metavariable or function application stands in an expression.
    PatternInExpression = 8,
    // A function application stands in an argument.
    FunctionInArgument = 9,
    // A metavariable's number is over 31.
    MetavariableOver31 = 10,
    // There is a 17th constraint.
    TooManyConstraints = 11,
    // There are over 8 functions.
    TooManyFunctions = 13,
    // A function's first application faces over 256 nodes.
    FaceTooLarge = 14,
    // The allowance is 0.
    NoAllowance = 15,
    // There is no such place or row in this problem.
    NoSuchPlace = 16,
    // The row is not a solution row.
    NotASolution = 17,
    // The buffer is too short.
    BufferTooShort = 18,
    // The text has over 8,192 bytes.
    TextTooLong = 19,
    // The text is not values, bodies and open metavariables with their contents, at most 32 deep and numbered at most 31.
    TextMalformed = 20,
    // A symbol's number below 65,536 has four bytes.
    SymbolTooWide = 25,
    // A metavariable's number in the text is not above the one before it.
    TextOutOfOrder = 27,
    // The number of nodes is not from 1 to 256.
    NodesOutOfRange = 28,
    // The buffer is shorter than the problem.
    ProblemBufferTooShort = 29,
}

impl Refusal {
    // Document 01's number.
    pub fn number(self) -> u8
        ensures { result ≡ number self }
    {
        self as u8
    }
}

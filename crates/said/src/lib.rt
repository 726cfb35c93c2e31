// What a text says of each metavariable, as the checker holds it: the one field that the text has for it, if there is one.
#![tactic(auto)]

ghost use Rattle.std.specs.Prelude.{[]};
ghost use Rattle.said.specs.Said.{SaidBy};

use metavariables::METAVARIABLES;

// A field of a text, "8 (value), 9 (body), 11 (open)", with the node of the text's table where its term stands.
#[derive(Clone, Copy)]
pub enum Field {
    Value(usize),
    Body(usize),
    Open,
}

// 768 bytes, so that it is written in place and lent.
#[derive(Clone, Copy)]
pub struct Said {
    pub fields: [Option<Field>; METAVARIABLES as usize],
}

impl Said {
    // An empty text.
    pub fn nothing() -> Said
        ensures { SaidBy [] [] result }
    {
        Said {
            fields: [None; METAVARIABLES as usize],
        }
    }
}

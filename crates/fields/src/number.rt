// The kinds of numbers. A metavariable's number and a variable's number have nothing in common, so each kind is a type.
ghost use Rattle.std.specs.Prelude.{◌≡◌, length};
ghost use Rattle.meaning.specs.Field.{symbol_bytes};

use crate::limit::FIRST_WIDE;

#[derive(Clone, Copy)]
pub struct Symbol(pub u32);

impl Symbol {
    // The bytes that the number has: two, or four where two cannot say it.
    #[tactic(auto, using(meaning::proofs::ByteLaws::narrow_two, meaning::proofs::ByteLaws::wide_four), unfolding(meaning::specs::Limits::first_wide))]
    pub fn width(self) -> usize
        ensures { result ≡ length (symbol_bytes self.0) }
    {
        if self.0 < FIRST_WIDE { 2 } else { 4 }
    }
}

#[derive(Clone, Copy)]
pub struct Variable(pub u16);

#[derive(Clone, Copy)]
pub struct Binder(pub u16);

#[derive(Clone, Copy)]
pub struct Metavariable(pub u8);

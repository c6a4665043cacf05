// Fixities of infix names: sml-fixity's lib.rs, with the table in force in a module of its own.
#![tactic(auto)]

ghost use Rattle.std.specs.Prelude.{◌≡◌};
ghost use Rattle.grammar.specs.Env.{left, right};
ghost use Rattle.sml_fixity.specs.Fix.{infix_of};

pub mod table;

// The associativity of an infix name.
#[derive(Clone, Copy, PartialEq, Eq)]
pub enum Assoc {
    Left,
    Right,
}

// The precedence and the associativity of an infix name.
#[derive(Clone, Copy, PartialEq, Eq)]
pub struct Infix {
    pub prec: u16,
    pub assoc: Assoc,
}

// Two functions and not one: document 01 asks for `left` and `right`.
impl Infix {
    pub fn left(prec: u16) -> Infix
        ensures { infix_of result ≡ left prec }
    {
        Infix {
            prec,
            assoc: Assoc::Left,
        }
    }

    pub fn right(prec: u16) -> Infix
        ensures { infix_of result ≡ right prec }
    {
        Infix {
            prec,
            assoc: Assoc::Right,
        }
    }
}

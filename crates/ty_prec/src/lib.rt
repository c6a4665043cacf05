// The precedences of types: ty.rs, `TyPrec`.
#![tactic(auto)]

ghost use Rattle.std.specs.Prelude.{◌≡◌, ltb};
ghost use Rattle.ty_prec.specs.Prec.{place_of};

// From the loosest to the tightest.
#[derive(Clone, Copy, PartialEq, Eq, PartialOrd, Ord)]
pub enum TyPrec {
    Arrow,
    Star,
    App,
}

impl TyPrec {
    // Its place in that order, by which a type is read.
    pub fn place(self) -> u8
        ensures { result ≡ place_of self }
    {
        self as u8
    }
}

// Whether an arrow or a star, `what`, ends a type that is read from the precedence of the place `min` on.
pub fn ends(what: TyPrec, min: u8) -> bool
    ensures { result ≡ ltb (place_of what) min }
{
    what.place() < min
}

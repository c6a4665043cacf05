// Whether an infix name ends a climb: util.rs, `should_break`.
#![tactic(auto)]

ghost use Rattle.std.specs.Prelude.{◌≡◌, Bool};
ghost use Rattle.grammar.specs.Util as util;
ghost use Rattle.sml_fixity.specs.Fix.{infix_of};
ghost use Rattle.parser.specs.View.{Sound, mem_of, out_state, out_val};
ghost use Rattle.parser.specs.Runs.{Always};

use parser::finding::ErrorKind;
use parser::{Found, Lent, State, report_error};
use sml_fixity::{Assoc, Infix};

// Equal precedence with unlike association.
fn tie(op: Infix, min: Infix) -> bool
    ensures { result ≡ util.tie (infix_of op) (infix_of min) }
{
    op.prec == min.prec && op.assoc != min.assoc
}

// Whether the next name binds weaker than `min`, or as strong where `min` associates to the left.
fn weaker(op: Infix, min: Infix) -> bool
    ensures { result ≡ util.weaker (infix_of op) (infix_of min) }
{
    match min.assoc {
        Assoc::Left => op.prec <= min.prec,
        Assoc::Right => op.prec < min.prec,
    }
}

// Whether the infix name `op`, which is next, ends the climb in which the right side of `min` is open.
pub fn should_break(
    lent: Lent,
    table: &[u8],
    scratch: &mut [u8],
    finds: &mut [u8],
    op: Infix,
    min: Infix,
    s: State,
) -> Found
    requires { Sound (mem_of lent table.now scratch.old finds.old s) }
    ensures { (g : Bool) → Always (util.should_break {g = g} (infix_of op) (infix_of min)) (mem_of lent.entry table.now scratch.old finds.old s) (mem_of lent.entry table.now scratch.new finds.new (out_state result)) (out_val result) }
{
    if tie(op, min) {
        return Err(report_error(finds, ErrorKind::SameFixityDiffAssoc, s));
    }
    if weaker(op, min) { Ok(s) } else { Err(s) }
}

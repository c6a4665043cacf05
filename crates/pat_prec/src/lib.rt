// What may stand in a pattern, and the tests by which pat.rs tells its cases apart.
#![tactic(auto)]

ghost use Rattle.std.specs.Prelude.{◌≡◌, Bool, suc};
ghost use Rattle.grammar.specs.Rule as rule;
ghost use Rattle.grammar.specs.Pat as pat;
ghost use Rattle.sml_fixity.specs.Fix.{infix_of};
ghost use Rattle.parser.specs.View.{Sound, mem_of, err_of, out_state, out_val};
ghost use Rattle.parser.specs.Runs.{Always};
ghost use Rattle.pat_prec.specs.Prec.{prec_of};

use breaks::should_break;
use parser::{Found, InfixErr, Lent, State, kind};
use sml_fixity::Infix;

// What may stand in a pattern: all, all but `|`, or what binds more than an infix name to its left.
#[derive(Clone, Copy)]
pub enum PatPrec {
    Min,
    Or,
    Infix(Infix),
}

// The kinds of literals.
pub fn s_con(k: u8) -> bool
    ensures { result ≡ pat.is_s_con (suc k) }
{
    matches!(
        k,
        kind::INT_LIT | kind::REAL_LIT | kind::WORD_LIT | kind::CHAR_LIT | kind::STRING_LIT
    )
}

// The kinds that a constructor's argument starts with, names left aside.
pub fn arg(k: u8) -> bool
    ensures { result ≡ pat.is_arg (suc k) }
{
    s_con(k)
        || matches!(
            k,
            kind::UNDERSCORE
                | kind::OP_KW
                | kind::LCURLY
                | kind::LROUND
                | kind::LSQUARE
                | kind::HASH
        )
}

// Whether infix names without `op` are reported.
pub fn reports(e: InfixErr) -> bool
    ensures { result ≡ rule.reports (err_of e) }
{
    matches!(e, InfixErr::Yes)
}

// Whether `|` may stand here: one test, under grammar's name for it.
pub fn is_min(min: PatPrec) -> bool
    ensures { result ≡ pat.is_min (prec_of min) }
{
    matches!(min, PatPrec::Min)
}

// Whether `:` and `as` end the climb: one test, under grammar's name for it.
pub fn is_infix(min: PatPrec) -> bool
    ensures { result ≡ pat.is_infix (prec_of min) }
{
    matches!(min, PatPrec::Infix(_))
}

// Whether an infix name ends the climb.
pub fn should_break_pat(
    lent: Lent,
    table: &[u8],
    scratch: &mut [u8],
    finds: &mut [u8],
    op: Infix,
    min: PatPrec,
    s: State,
) -> Found
    requires { Sound (mem_of lent table.now scratch.old finds.old s) }
    ensures { (g : Bool) → Always (pat.should_break_pat {g = g} (infix_of op) (prec_of min)) (mem_of lent.entry table.now scratch.old finds.old s) (mem_of lent.entry table.now scratch.new finds.new (out_state result)) (out_val result) }
{
    match min {
        PatPrec::Min => Err(s),
        PatPrec::Or => Err(s),
        PatPrec::Infix(over) => should_break(lent, table, scratch, finds, op, over, s),
    }
}

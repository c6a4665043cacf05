// Precedences of exp.rs, and when a climb ends.
#![tactic(auto)]

ghost use Rattle.std.specs.Prelude.{◌≡◌, false};
ghost use Rattle.grammar.specs.Exp as expr;
ghost use Rattle.parser.specs.Nodes.{node_number};
ghost use Rattle.parser.specs.View.{Sound, mem_of, out_state, out_val};
ghost use Rattle.parser.specs.Runs.{Always};
ghost use Rattle.exp_prec.specs.Prec.{prec_of, verdict_of};

use breaks::should_break;
use parser::node::Node;
use parser::refusal::Refusal;
use parser::{Found, Lent, State};
use sml_fixity::Infix;

// What may stand in an expression: all, or what binds more than an operator to its left.
#[derive(Clone, Copy)]
pub enum ExpPrec {
    Min,
    Handle,
    Orelse,
    Andalso,
    Ascription,
    Infix(Infix),
}

// Whether an operator ends a climb: a case that cannot happen, no, yes, or as two infix names decide.
#[derive(Clone, Copy)]
pub enum Verdict {
    Unreachable,
    GoesOn,
    Ends,
    Infixes(Infix, Infix),
}

// Whether it is `handle`: one test, under grammar's name for it.
pub fn is_handle(op: ExpPrec) -> bool
    ensures { result ≡ expr.is_handle (prec_of op) }
{
    matches!(op, ExpPrec::Handle)
}

// Whether it is `:` or `:>`: one test, under grammar's name for it.
pub fn is_ascribed(op: ExpPrec) -> bool
    ensures { result ≡ expr.is_ascribed (prec_of op) }
{
    matches!(op, ExpPrec::Ascription)
}

// The node of an operator whose right side is an expression; the others are never asked for.
pub fn node_of(op: ExpPrec) -> Node
    ensures { node_number result ≡ expr.node_of (prec_of op) }
{
    match op {
        ExpPrec::Orelse => Node::OrelseExp,
        ExpPrec::Andalso => Node::AndalsoExp,
        _ => Node::InfixExp,
    }
}

// Whether it is an infix name: one test, under grammar's name for it.
pub fn is_infix(op: ExpPrec) -> bool
    ensures { result ≡ expr.is_infix (prec_of op) }
{
    matches!(op, ExpPrec::Infix(_))
}

// `should_break_exp`: the cases of its `match`.
fn judge(op: ExpPrec, min: ExpPrec) -> Verdict
    ensures { verdict_of result ≡ expr.verdict (prec_of op) (prec_of min) }
{
    match (min, op) {
        (ExpPrec::Handle | ExpPrec::Ascription, _) | (_, ExpPrec::Min) => Verdict::Unreachable,
        (ExpPrec::Min, _) => Verdict::GoesOn,
        (ExpPrec::Orelse, ExpPrec::Handle | ExpPrec::Orelse) => Verdict::Ends,
        (ExpPrec::Orelse, _) => Verdict::GoesOn,
        (ExpPrec::Andalso, ExpPrec::Ascription | ExpPrec::Infix(_)) => Verdict::GoesOn,
        (ExpPrec::Andalso, _) => Verdict::Ends,
        (ExpPrec::Infix(min), ExpPrec::Infix(op)) => Verdict::Infixes(op, min),
        (ExpPrec::Infix(_), _) => Verdict::Ends,
    }
}

// `should_break_exp`: whether an operator ends the climb. What cannot happen refuses.
// unfolds: expr.decide
// rewrites: judge
pub fn should_break_exp(
    lent: Lent,
    table: &[u8],
    scratch: &mut [u8],
    finds: &mut [u8],
    op: ExpPrec,
    min: ExpPrec,
    s: State,
) -> Found
    requires { Sound (mem_of lent table.now scratch.old finds.old s) }
    ensures { Always (expr.should_break_exp {g = false} (prec_of op) (prec_of min)) (mem_of lent.entry table.now scratch.old finds.old s) (mem_of lent.entry table.now scratch.new finds.new (out_state result)) (out_val result) }
{
    let what = judge(op, min);
    match what {
        Verdict::Unreachable => Err(s.refuse_for(Refusal::Impossible)),
        Verdict::GoesOn => Err(s),
        Verdict::Ends => Ok(s),
        Verdict::Infixes(i, j) => should_break(lent, table, scratch, finds, i, j, s),
    }
}

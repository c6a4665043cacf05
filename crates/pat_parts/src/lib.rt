// What pat.rs does outside of its cycle of calls: the names of constructors, the end of a constructor pattern, a type behind a pattern.
#![tactic(auto)]

ghost use Rattle.std.specs.Prelude.{true, ◌<◌};
ghost use Rattle.grammar.specs.Pat as pat;
ghost use Rattle.sml_fixity.specs.Fix.{infix_of};
ghost use Rattle.parser.specs.View.{Sound, mem_of, err_of, out_state, out_val};
ghost use Rattle.parser.specs.Runs.{Runs, RunsIn};
ghost use Rattle.pat_prec.specs.Prec.{prec_of};
ghost use Rattle.pat_parts.specs.Head.{head_state, head_val};

use parser::node::Node;
use parser::refusal::Refusal;
use parser::{Found, InfixErr, Lent, State, at, bump, close_node, kind};
use pat_prec::{PatPrec, is_infix, reports, should_break_pat};
use sml_fixity::Infix;
use ty::ty_must;
use ty_prec::TyPrec;
use util::{path, path_infix, path_no_infix};

// How the head of a constructor pattern was left: it was too deep; the pattern goes on; it goes on at an infix name that was tested; it ends.
#[derive(Clone, Copy)]
pub enum Head {
    Missing(State),
    GoOn(State),
    AtOp(State),
    Stop(State),
}

// The path of a constructor without `op`.
pub fn con_path(
    lent: Lent,
    table: &[u8],
    scratch: &mut [u8],
    finds: &mut [u8],
    left: usize,
    e: InfixErr,
    s: State,
) -> Found
    requires { Sound (mem_of lent table.now scratch.old finds.old s) }
    ensures { Runs left (pat.con_path {g = true} (err_of e)) (mem_of lent.entry table.now scratch.old finds.old s) (mem_of lent.entry table.now scratch.new finds.new (out_state result)) (out_val result) }
{
    if reports(e) {
        path_no_infix(lent, table, scratch, finds, left, s)
    } else {
        path(lent, table, scratch, finds, left, s)
    }
}

// The path of a constructor.
pub fn con_name(
    lent: Lent,
    table: &[u8],
    scratch: &mut [u8],
    finds: &mut [u8],
    left: usize,
    e: InfixErr,
    s: State,
) -> Found
    requires { Sound (mem_of lent table.now scratch.old finds.old s) }
    ensures { Runs left (pat.con_name {g = true} (err_of e)) (mem_of lent.entry table.now scratch.old finds.old s) (mem_of lent.entry table.now scratch.new finds.new (out_state result)) (out_val result) }
{
    if at(lent.toks, kind::OP_KW, s) {
        path_infix(lent, table, scratch, finds, left, s)
    } else {
        con_path(lent, table, scratch, finds, left, e, s)
    }
}

// The end of a constructor pattern that started at `b`, at an infix name.
pub fn con_op(
    lent: Lent,
    table: &[u8],
    scratch: &mut [u8],
    finds: &mut [u8],
    left: usize,
    op: Infix,
    min: PatPrec,
    b: usize,
    s: State,
) -> Head
    requires { Sound (mem_of lent table.now scratch.old finds.old s) × (b < 4294967296) }
    ensures { RunsIn left b (pat.con_op (infix_of op) (prec_of min)) (mem_of lent.entry table.now scratch.old finds.old s) (mem_of lent.entry table.now scratch.new finds.new (head_state result)) (head_val result) }
{
    let ends = should_break_pat(lent, table, scratch, finds, op, min, s);
    match ends {
        Ok(s1) => Head::Stop(close_node(scratch, Node::ConPat, b, s1)),
        Err(s1) => Head::AtOp(close_node(scratch, Node::ConPat, b, s1)),
    }
}

// `:` or `:>`, and the type behind it, where they may stand.
pub fn typed_step(
    lent: Lent,
    table: &[u8],
    scratch: &mut [u8],
    finds: &mut [u8],
    left: usize,
    min: PatPrec,
    b: usize,
    s: State,
) -> Found
    requires { Sound (mem_of lent table.now scratch.old finds.old s) × (b < 4294967296) }
    ensures { RunsIn left b (pat.typed_step (prec_of min)) (mem_of lent.entry table.now scratch.old finds.old s) (mem_of lent.entry table.now scratch.new finds.new (out_state result)) (out_val result) }
{
    if is_infix(min) {
        return Err(s);
    }
    if left == 0 {
        return Ok(s.refuse_for(Refusal::TooDeep));
    }
    let s1 = bump(lent.toks, scratch, s.mark());
    let s2 = ty_must(lent, table, scratch, finds, left - 1, TyPrec::Arrow, s1);
    Ok(close_node(scratch, Node::TypedPat, b, s2))
}

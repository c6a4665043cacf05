// Type variables in a row: the part of ty.rs that calls no other rule.
// Its loops over turns are the source's closures over the parser: one small loop per use (document 01).
#![tactic(auto)]

ghost use Rattle.std.specs.Prelude.{◌≡◌, true, ◌<◌};
ghost use Rattle.grammar.specs.Prog.{Prog};
ghost use Rattle.grammar.specs.Util as util;
ghost use Rattle.grammar.specs.Ty as types;
ghost use Rattle.grammar.specs.SyntaxKind as SK;
ghost use Rattle.parser.specs.View.{Sound, mem_of, out_state, out_val};
ghost use Rattle.parser.specs.Runs.{Runs, RunsIn};

use parser::node::Node;
use parser::refusal::Refusal;
use parser::{Found, Lent, State, at, at_n, bump, close_node, either, kind, peek};
use util::eat;

// The type variables of a sequence, to its `)`.
// advances: end_turn_advances true _ _ _ _
fn var_args(
    lent: Lent,
    table: &[u8],
    scratch: &mut [u8],
    finds: &mut [u8],
    left: usize,
    b: usize,
    s: State,
) -> State
    requires { Sound (mem_of lent table.now scratch.old finds.old s) × (b < 4294967296) }
    ensures { RunsIn left b (Prog.loop (util.end_turn {g = true} SK.TyVarArg SK.Comma SK.RRound (util.eat SK.TyVar))) (mem_of lent.entry table.now scratch.old finds.old s) (mem_of lent.entry table.now scratch.new finds.new result) 0 }
{
    let mut s1 = s;
    loop {
        let turn = var_turn(lent, table, scratch, finds, left, s1);
        match turn {
            Ok(s2) => s1 = s2,
            Err(s2) => return s2,
        }
    }
}

// One of them, or the `)`.
fn var_turn(
    lent: Lent,
    table: &[u8],
    scratch: &mut [u8],
    finds: &mut [u8],
    left: usize,
    s: State,
) -> Found
    requires { Sound (mem_of lent table.now scratch.old finds.old s) }
    ensures { Runs left (util.end_turn {g = true} SK.TyVarArg SK.Comma SK.RRound (util.eat SK.TyVar)) (mem_of lent.entry table.now scratch.old finds.old s) (mem_of lent.entry table.now scratch.new finds.new (out_state result)) (out_val result) }
{
    if at(lent.toks, kind::RROUND, s) {
        return Err(bump(lent.toks, scratch, s));
    }
    let item = var_item(lent, table, scratch, finds, left, s);
    match item {
        Ok(s1) => Ok(s1),
        Err(s1) => {
            let got = eat(lent.toks, scratch, finds, kind::RROUND, s1);
            let s2 = either(got);
            Err(s2)
        }
    }
}

// One of them, with its comma where there is one.
fn var_item(
    lent: Lent,
    table: &[u8],
    scratch: &mut [u8],
    finds: &mut [u8],
    left: usize,
    s: State,
) -> Found
    requires { Sound (mem_of lent table.now scratch.old finds.old s) }
    ensures { Runs left (util.end_item {g = true} SK.TyVarArg SK.Comma (util.eat SK.TyVar)) (mem_of lent.entry table.now scratch.old finds.old s) (mem_of lent.entry table.now scratch.new finds.new (out_state result)) (out_val result) }
{
    if left == 0 {
        return Err(s.refuse_for(Refusal::TooDeep));
    }
    let s1 = s.mark();
    let b = s1.len;
    let got = eat(lent.toks, scratch, finds, kind::TY_VAR, s1);
    let s2 = either(got);
    if at(lent.toks, kind::COMMA, s2) {
        let s3 = bump(lent.toks, scratch, s2);
        Ok(close_node(scratch, Node::TyVarArg, b, s3))
    } else {
        Err(close_node(scratch, Node::TyVarArg, b, s2))
    }
}

// One type variable that stands alone, in the node that started at `b`.
fn var_one(
    lent: Lent,
    table: &[u8],
    scratch: &mut [u8],
    finds: &mut [u8],
    left: usize,
    b: usize,
    s: State,
) -> Found
    requires { Sound (mem_of lent table.now scratch.old finds.old s) × (b < 4294967296) }
    ensures { RunsIn left b (types.ty_var_one) (mem_of lent.entry table.now scratch.old finds.old s) (mem_of lent.entry table.now scratch.new finds.new (out_state result)) (out_val result) }
{
    if left == 0 {
        let s1 = s.refuse_for(Refusal::TooDeep);
        return Ok(close_node(scratch, Node::TyVarSeq, b, s1));
    }
    let s1 = s.mark();
    let b1 = s1.len;
    let s2 = bump(lent.toks, scratch, s1);
    let s3 = close_node(scratch, Node::TyVarArg, b1, s2);
    Ok(close_node(scratch, Node::TyVarSeq, b, s3))
}

// Several in parentheses, in the node that started at `b`.
// unfolds: util.end_sep
fn var_many(
    lent: Lent,
    table: &[u8],
    scratch: &mut [u8],
    finds: &mut [u8],
    left: usize,
    b: usize,
    s: State,
) -> Found
    requires { Sound (mem_of lent table.now scratch.old finds.old s) × (b < 4294967296) }
    ensures { RunsIn left b (types.ty_var_many) (mem_of lent.entry table.now scratch.old finds.old s) (mem_of lent.entry table.now scratch.new finds.new (out_state result)) (out_val result) }
{
    if at_n(lent.toks, 1, kind::TY_VAR, s) {
        let s1 = bump(lent.toks, scratch, s);
        let s2 = var_args(lent, table, scratch, finds, left, b, s1);
        return Ok(close_node(scratch, Node::TyVarSeq, b, s2));
    }
    Err(s)
}

// The one or the other.
fn ty_vars(
    lent: Lent,
    table: &[u8],
    scratch: &mut [u8],
    finds: &mut [u8],
    left: usize,
    b: usize,
    s: State,
) -> Found
    requires { Sound (mem_of lent table.now scratch.old finds.old s) × (b < 4294967296) }
    ensures { RunsIn left b (types.ty_vars) (mem_of lent.entry table.now scratch.old finds.old s) (mem_of lent.entry table.now scratch.new finds.new (out_state result)) (out_val result) }
{
    let Some(k) = peek(lent.toks, s) else {
        return Err(s);
    };
    if k == kind::TY_VAR {
        return var_one(lent, table, scratch, finds, left, b, s);
    }
    if k == kind::LROUND {
        return var_many(lent, table, scratch, finds, left, b, s);
    }
    Err(s)
}

// Type variables, where there are any.
pub fn ty_var_seq(
    lent: Lent,
    table: &[u8],
    scratch: &mut [u8],
    finds: &mut [u8],
    left: usize,
    s: State,
) -> Found
    requires { Sound (mem_of lent table.now scratch.old finds.old s) }
    ensures { Runs left (types.ty_var_seq {g = true}) (mem_of lent.entry table.now scratch.old finds.old s) (mem_of lent.entry table.now scratch.new finds.new (out_state result)) (out_val result) }
{
    if left == 0 {
        return Err(s.refuse_for(Refusal::TooDeep));
    }
    let s1 = s.mark();
    let b = s1.len;
    ty_vars(lent, table, scratch, finds, left - 1, b, s1)
}

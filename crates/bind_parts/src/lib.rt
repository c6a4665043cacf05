// What types and datatypes are bound to: dec.rs.
// Its loops over turns are the source's closures over the parser: one small loop per use (document 01).
#![tactic(auto)]

ghost use Rattle.std.specs.Prelude.{true};
ghost use Rattle.grammar.specs.Prog.{Prog};
ghost use Rattle.grammar.specs.Util as util;
ghost use Rattle.grammar.specs.Dec as decl;
ghost use Rattle.grammar.specs.SyntaxKind as SK;
ghost use Rattle.parser.specs.View.{Sound, mem_of, out_state, out_val};
ghost use Rattle.parser.specs.Runs.{Always, Runs, RunsIn};

use parser::finding::ErrorKind;
use parser::node::Node;
use parser::refusal::Refusal;
use parser::{Found, Lent, State, at, bump, close_node, either, kind, report_error};
use ty::{of_ty, ty_must};
use ty_parts::ty_var_seq;
use ty_prec::TyPrec;
use util::{bump_if, eat, eat_name_star};

// The type variables and the name of a type that is bound.
fn ty_name(
    lent: Lent,
    table: &[u8],
    scratch: &mut [u8],
    finds: &mut [u8],
    left: usize,
    s: State,
) -> Found
    requires { Sound (mem_of lent table.now scratch.old finds.old s) }
    ensures { Runs left decl.ty_name (mem_of lent.entry table.now scratch.old finds.old s) (mem_of lent.entry table.now scratch.new finds.new (out_state result)) (out_val result) }
{
    let vars = ty_var_seq(lent, table, scratch, finds, left, s);
    match vars {
        Err(s1) => eat(lent.toks, scratch, finds, kind::NAME, s1),
        Ok(s1) => {
            let got = eat(lent.toks, scratch, finds, kind::NAME, s1);
            let s2 = either(got);
            Ok(s2)
        }
    }
}

// `=` and a type, where they are next.
fn eq_ty(
    lent: Lent,
    table: &[u8],
    scratch: &mut [u8],
    finds: &mut [u8],
    left: usize,
    s: State,
) -> State
    requires { Sound (mem_of lent table.now scratch.old finds.old s) }
    ensures { Runs left decl.eq_ty (mem_of lent.entry table.now scratch.old finds.old s) (mem_of lent.entry table.now scratch.new finds.new result) 0 }
{
    if at(lent.toks, kind::EQ, s) {
        if left == 0 {
            return s.refuse_for(Refusal::TooDeep);
        }
        let s1 = s.mark();
        let b = s1.len;
        let s2 = bump(lent.toks, scratch, s1);
        let s3 = ty_must(lent, table, scratch, finds, left - 1, TyPrec::Arrow, s2);
        return close_node(scratch, Node::EqTy, b, s3);
    }
    s
}

// A type that is bound.
fn ty_bind(
    lent: Lent,
    table: &[u8],
    scratch: &mut [u8],
    finds: &mut [u8],
    left: usize,
    s: State,
) -> Found
    requires { Sound (mem_of lent table.now scratch.old finds.old s) }
    ensures { Runs left decl.ty_bind (mem_of lent.entry table.now scratch.old finds.old s) (mem_of lent.entry table.now scratch.new finds.new (out_state result)) (out_val result) }
{
    let name = ty_name(lent, table, scratch, finds, left, s);
    match name {
        Err(s1) => Err(s1),
        Ok(s1) => {
            let s2 = eq_ty(lent, table, scratch, finds, left, s1);
            Ok(s2)
        }
    }
}

// `ty_binds`: types that are bound, between `and`.
// unfolds: util.many_turn
// advances: many_turn_advances true SK.AndKw SK.TyBind decl.ty_bind
pub fn ty_binds(
    lent: Lent,
    table: &[u8],
    scratch: &mut [u8],
    finds: &mut [u8],
    left: usize,
    b: usize,
    s: State,
) -> State
    requires { Sound (mem_of lent table.now scratch.old finds.old s) }
    ensures { RunsIn left b (Prog.loop (util.many_turn {g = true} SK.AndKw SK.TyBind decl.ty_bind)) (mem_of lent.entry table.now scratch.old finds.old s) (mem_of lent.entry table.now scratch.new finds.new result) 0 }
{
    let mut s1 = s;
    loop {
        if left == 0 {
            return s1.refuse_for(Refusal::TooDeep);
        }
        let s2 = s1.mark();
        let c = s2.len;
        let item = ty_bind(lent, table, scratch, finds, left - 1, s2);
        match item {
            Err(s3) => return s3,
            Ok(s3) => {
                if at(lent.toks, kind::AND_KW, s3) {
                    let s4 = bump(lent.toks, scratch, s3);
                    s1 = close_node(scratch, Node::TyBind, c, s4);
                    continue;
                }
                return close_node(scratch, Node::TyBind, c, s3);
            }
        }
    }
}

// A name that may stand behind an unnecessary `op`.
pub fn op_name(lent: Lent, table: &[u8], scratch: &mut [u8], finds: &mut [u8], s: State) -> Found
    requires { Sound (mem_of lent table.now scratch.old finds.old s) }
    ensures { Always (decl.op_name {g = true}) (mem_of lent.entry table.now scratch.old finds.old s) (mem_of lent.entry table.now scratch.new finds.new (out_state result)) (out_val result) }
{
    if at(lent.toks, kind::OP_KW, s) {
        let s1 = report_error(finds, ErrorKind::UnnecessaryOp, s);
        let s2 = bump(lent.toks, scratch, s1);
        let got = eat_name_star(lent.toks, scratch, finds, s2);
        let s3 = either(got);
        return Ok(s3);
    }
    eat_name_star(lent.toks, scratch, finds, s)
}

// A constructor.
fn con_bind(
    lent: Lent,
    table: &[u8],
    scratch: &mut [u8],
    finds: &mut [u8],
    left: usize,
    s: State,
) -> Found
    requires { Sound (mem_of lent table.now scratch.old finds.old s) }
    ensures { Runs left decl.con_bind (mem_of lent.entry table.now scratch.old finds.old s) (mem_of lent.entry table.now scratch.new finds.new (out_state result)) (out_val result) }
{
    let name = op_name(lent, table, scratch, finds, s);
    match name {
        Err(s1) => Err(s1),
        Ok(s1) => {
            let got = of_ty(lent, table, scratch, finds, left, s1);
            let s2 = either(got);
            Ok(s2)
        }
    }
}

// Constructors, between `|`.
// unfolds: util.many_turn
// advances: many_turn_advances true SK.Bar SK.ConBind decl.con_bind
fn con_binds(
    lent: Lent,
    table: &[u8],
    scratch: &mut [u8],
    finds: &mut [u8],
    left: usize,
    b: usize,
    s: State,
) -> State
    requires { Sound (mem_of lent table.now scratch.old finds.old s) }
    ensures { RunsIn left b (Prog.loop (util.many_turn {g = true} SK.Bar SK.ConBind decl.con_bind)) (mem_of lent.entry table.now scratch.old finds.old s) (mem_of lent.entry table.now scratch.new finds.new result) 0 }
{
    let mut s1 = s;
    loop {
        if left == 0 {
            return s1.refuse_for(Refusal::TooDeep);
        }
        let s2 = s1.mark();
        let c = s2.len;
        let item = con_bind(lent, table, scratch, finds, left - 1, s2);
        match item {
            Err(s3) => return s3,
            Ok(s3) => {
                if at(lent.toks, kind::BAR, s3) {
                    let s4 = bump(lent.toks, scratch, s3);
                    s1 = close_node(scratch, Node::ConBind, c, s4);
                    continue;
                }
                return close_node(scratch, Node::ConBind, c, s3);
            }
        }
    }
}

// `=` and constructors, where they are next.
// unfolds: util.many_sep
fn eq_con_binds(
    lent: Lent,
    table: &[u8],
    scratch: &mut [u8],
    finds: &mut [u8],
    left: usize,
    s: State,
) -> State
    requires { Sound (mem_of lent table.now scratch.old finds.old s) }
    ensures { Runs left decl.eq_con_binds (mem_of lent.entry table.now scratch.old finds.old s) (mem_of lent.entry table.now scratch.new finds.new result) 0 }
{
    if at(lent.toks, kind::EQ, s) {
        if left == 0 {
            return s.refuse_for(Refusal::TooDeep);
        }
        let s1 = s.mark();
        let b = s1.len;
        let s2 = bump(lent.toks, scratch, s1);
        let s3 = bump_if(lent.toks, scratch, kind::BAR, s2);
        let s4 = con_binds(lent, table, scratch, finds, left - 1, b, s3);
        return close_node(scratch, Node::EqConBinds, b, s4);
    }
    s
}

// A datatype.
fn dat_bind(
    lent: Lent,
    table: &[u8],
    scratch: &mut [u8],
    finds: &mut [u8],
    left: usize,
    s: State,
) -> Found
    requires { Sound (mem_of lent table.now scratch.old finds.old s) }
    ensures { Runs left decl.dat_bind (mem_of lent.entry table.now scratch.old finds.old s) (mem_of lent.entry table.now scratch.new finds.new (out_state result)) (out_val result) }
{
    let name = ty_name(lent, table, scratch, finds, left, s);
    match name {
        Err(s1) => Err(s1),
        Ok(s1) => {
            let s2 = eq_con_binds(lent, table, scratch, finds, left, s1);
            Ok(s2)
        }
    }
}

// Datatypes, between `and`.
// unfolds: util.many_turn
// advances: many_turn_advances true SK.AndKw SK.DatBind decl.dat_bind
fn dat_list(
    lent: Lent,
    table: &[u8],
    scratch: &mut [u8],
    finds: &mut [u8],
    left: usize,
    b: usize,
    s: State,
) -> State
    requires { Sound (mem_of lent table.now scratch.old finds.old s) }
    ensures { RunsIn left b (Prog.loop (util.many_turn {g = true} SK.AndKw SK.DatBind decl.dat_bind)) (mem_of lent.entry table.now scratch.old finds.old s) (mem_of lent.entry table.now scratch.new finds.new result) 0 }
{
    let mut s1 = s;
    loop {
        if left == 0 {
            return s1.refuse_for(Refusal::TooDeep);
        }
        let s2 = s1.mark();
        let c = s2.len;
        let item = dat_bind(lent, table, scratch, finds, left - 1, s2);
        match item {
            Err(s3) => return s3,
            Ok(s3) => {
                if at(lent.toks, kind::AND_KW, s3) {
                    let s4 = bump(lent.toks, scratch, s3);
                    s1 = close_node(scratch, Node::DatBind, c, s4);
                    continue;
                }
                return close_node(scratch, Node::DatBind, c, s3);
            }
        }
    }
}

// `withtype` and types, where they are next.
// unfolds: util.many_sep
fn with_type(
    lent: Lent,
    table: &[u8],
    scratch: &mut [u8],
    finds: &mut [u8],
    left: usize,
    s: State,
) -> State
    requires { Sound (mem_of lent table.now scratch.old finds.old s) }
    ensures { Runs left decl.with_type (mem_of lent.entry table.now scratch.old finds.old s) (mem_of lent.entry table.now scratch.new finds.new result) 0 }
{
    if at(lent.toks, kind::WITHTYPE_KW, s) {
        if left == 0 {
            return s.refuse_for(Refusal::TooDeep);
        }
        let s1 = s.mark();
        let b = s1.len;
        let s2 = bump(lent.toks, scratch, s1);
        let s3 = ty_binds(lent, table, scratch, finds, left - 1, b, s2);
        return close_node(scratch, Node::WithType, b, s3);
    }
    s
}

// `dat_binds`.
// unfolds: util.many_sep
pub fn dat_binds(
    lent: Lent,
    table: &[u8],
    scratch: &mut [u8],
    finds: &mut [u8],
    left: usize,
    b: usize,
    s: State,
) -> State
    requires { Sound (mem_of lent table.now scratch.old finds.old s) }
    ensures { RunsIn left b decl.dat_binds (mem_of lent.entry table.now scratch.old finds.old s) (mem_of lent.entry table.now scratch.new finds.new result) 0 }
{
    let s1 = dat_list(lent, table, scratch, finds, left, b, s);
    with_type(lent, table, scratch, finds, left, s1)
}

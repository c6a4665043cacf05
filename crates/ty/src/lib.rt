// Types: ty.rs, but for type variables in a row, which are in ty_parts.
// Its loops over turns are the source's closures over the parser: one small loop per use (document 01).
#![tactic(auto)]

ghost use Rattle.std.specs.Prelude.{◌≡◌, true, false, ℕ, suc, ◌+◌, ◌-◌, ◌*◌, ◌<◌};
ghost use Rattle.grammar.specs.Prog.{Prog};
ghost use Rattle.grammar.specs.Rule.{Rule};
ghost use Rattle.grammar.specs.Util as util;
ghost use Rattle.grammar.specs.Ty as types;
ghost use Rattle.grammar.specs.SyntaxKind as SK;
ghost use Rattle.parser.specs.View.{Sound, mem_of, out_state, out_val};
ghost use Rattle.ty_prec.specs.Prec.{place_of};
ghost use Rattle.parser.specs.Runs.{Always, Runs, RunsIn};

use parser::finding::{ErrorKind, Expected};
use parser::node::Node;
use parser::refusal::Refusal;
use parser::{Found, Lent, State, at, bump, close_node, either, kind, peek, report_error};
use ty_prec::{TyPrec, ends};
use util::{ascription, bump_ascription, eat, lab, path_must};

// `ty_prec`, or the finding that there is no type.
// measure: 32 * left + 4
// restates: place ty_prec
#[cycle(ty)]
pub fn ty_must(
    lent: Lent,
    table: &[u8],
    scratch: &mut [u8],
    finds: &mut [u8],
    left: usize,
    min: TyPrec,
    s: State,
) -> State
    requires { Sound (mem_of lent table.now scratch.old finds.old s) }
    ensures { Runs left (types.ty_must (place_of min)) (mem_of lent.entry table.now scratch.old finds.old s) (mem_of lent.entry table.now scratch.new finds.new result) 0 }
{
    let got = ty_prec(lent, table, scratch, finds, left, min.place(), s);
    match got {
        Ok(s1) => s1,
        Err(s1) => report_error(finds, ErrorKind::Expected(Expected::Ty), s1),
    }
}

// `ty_prec`: a type, its arrows and stars where `min` lets them stand.
// measure: 32 * left + 3
// unfolds: root.body types.ty_scope
#[cycle(ty)]
pub fn ty_prec(
    lent: Lent,
    table: &[u8],
    scratch: &mut [u8],
    finds: &mut [u8],
    left: usize,
    min: u8,
    s: State,
) -> Found
    requires { Sound (mem_of lent table.now scratch.old finds.old s) }
    ensures { Runs left (Prog.call (Rule.ty_prec min)) (mem_of lent.entry table.now scratch.old finds.old s) (mem_of lent.entry table.now scratch.new finds.new (out_state result)) (out_val result) }
{
    let Some(k) = peek(lent.toks, s) else {
        return Err(s);
    };
    if left == 0 {
        return Err(s.refuse_for(Refusal::TooDeep));
    }
    let b = s.len;
    let head = ty_head(lent, table, scratch, finds, left - 1, k, b, s.mark());
    match head {
        Err(s2) => Err(s2),
        Ok(s2) => Ok(ty_tail(lent, table, scratch, finds, left, min, b, s2)),
    }
}

// What a type starts with, the kind k being next.
// measure: 32 * left + 12
#[cycle(ty)]
fn ty_head(
    lent: Lent,
    table: &[u8],
    scratch: &mut [u8],
    finds: &mut [u8],
    left: usize,
    k: u8,
    b: usize,
    s: State,
) -> Found
    requires { Sound (mem_of lent table.now scratch.old finds.old s) × (b < 4294967296) }
    ensures { RunsIn left b (types.ty_head (suc k)) (mem_of lent.entry table.now scratch.old finds.old s) (mem_of lent.entry table.now scratch.new finds.new (out_state result)) (out_val result) }
{
    if k == kind::DOT_DOT_DOT {
        let s1 = bump(lent.toks, scratch, s);
        return Ok(close_node(scratch, Node::HoleTy, b, s1));
    }
    if k == kind::UNDERSCORE {
        let s1 = bump(lent.toks, scratch, s);
        return Ok(close_node(scratch, Node::WildcardTy, b, s1));
    }
    if k == kind::TY_VAR {
        let s1 = bump(lent.toks, scratch, s);
        return Ok(close_node(scratch, Node::TyVarTy, b, s1));
    }
    ty_inner(lent, table, scratch, finds, left, k, b, s)
}

// The starts of a type that hold others.
// measure: 32 * left + 11
// unfolds: util.end_sep
#[cycle(ty)]
fn ty_inner(
    lent: Lent,
    table: &[u8],
    scratch: &mut [u8],
    finds: &mut [u8],
    left: usize,
    k: u8,
    b: usize,
    s: State,
) -> Found
    requires { Sound (mem_of lent table.now scratch.old finds.old s) × (b < 4294967296) }
    ensures { RunsIn left b (types.ty_inner (suc k)) (mem_of lent.entry table.now scratch.old finds.old s) (mem_of lent.entry table.now scratch.new finds.new (out_state result)) (out_val result) }
{
    if k == kind::LCURLY {
        let s1 = bump(lent.toks, scratch, s);
        let s2 = ty_rows(lent, table, scratch, finds, left, b, s1);
        return Ok(close_node(scratch, Node::RecordTy, b, s2));
    }
    if k == kind::LROUND {
        return ty_round(lent, table, scratch, finds, left, b, s);
    }
    if k == kind::NAME {
        let got = path_must(lent, table, scratch, finds, left, s);
        let s1 = either(got);
        return Ok(close_node(scratch, Node::ConTy, b, s1));
    }
    Err(s)
}

// A type that starts with `(`.
// measure: 32 * left + 10
#[cycle(ty)]
fn ty_round(
    lent: Lent,
    table: &[u8],
    scratch: &mut [u8],
    finds: &mut [u8],
    left: usize,
    b: usize,
    s: State,
) -> Found
    requires { Sound (mem_of lent table.now scratch.old finds.old s) × (b < 4294967296) }
    ensures { RunsIn left b types.ty_round (mem_of lent.entry table.now scratch.old finds.old s) (mem_of lent.entry table.now scratch.new finds.new (out_state result)) (out_val result) }
{
    let seq = ty_seq(lent, table, scratch, finds, left, s);
    match seq {
        Err(s1) => {
            let got = path_must(lent, table, scratch, finds, left, s1);
            let s2 = either(got);
            Ok(close_node(scratch, Node::ConTy, b, s2))
        }
        Ok(s1) => {
            let s2 = bump(lent.toks, scratch, s1);
            Ok(close_node(scratch, Node::ParenTy, b, s2))
        }
    }
}

// `(` and a type; where more follow, the whole sequence.
// measure: 32 * left + 9
// unfolds: util.end_sep
#[cycle(ty)]
fn ty_seq(
    lent: Lent,
    table: &[u8],
    scratch: &mut [u8],
    finds: &mut [u8],
    left: usize,
    s: State,
) -> Found
    requires { Sound (mem_of lent table.now scratch.old finds.old s) }
    ensures { Runs left types.ty_seq (mem_of lent.entry table.now scratch.old finds.old s) (mem_of lent.entry table.now scratch.new finds.new (out_state result)) (out_val result) }
{
    if left == 0 {
        return Err(s.refuse_for(Refusal::TooDeep));
    }
    let s1 = s.mark();
    let b = s1.len;
    let s2 = bump(lent.toks, scratch, s1);
    let arg = ty_arg(lent, table, scratch, finds, left - 1, s2);
    match arg {
        Err(s3) => {
            let s4 = ty_args(lent, table, scratch, finds, left - 1, b, s3);
            Err(close_node(scratch, Node::TySeq, b, s4))
        }
        Ok(s3) => Ok(s3),
    }
}

// The type behind `(`.
// measure: 32 * left + 8
#[cycle(ty)]
fn ty_arg(
    lent: Lent,
    table: &[u8],
    scratch: &mut [u8],
    finds: &mut [u8],
    left: usize,
    s: State,
) -> Found
    requires { Sound (mem_of lent table.now scratch.old finds.old s) }
    ensures { Runs left types.ty_arg (mem_of lent.entry table.now scratch.old finds.old s) (mem_of lent.entry table.now scratch.new finds.new (out_state result)) (out_val result) }
{
    if left == 0 {
        return Err(s.refuse_for(Refusal::TooDeep));
    }
    let s1 = s.mark();
    let b = s1.len;
    let s2 = ty_must(lent, table, scratch, finds, left - 1, TyPrec::Arrow, s1);
    if at(lent.toks, kind::RROUND, s2) {
        return Ok(s2);
    }
    let got = eat(lent.toks, scratch, finds, kind::COMMA, s2);
    let s3 = either(got);
    Err(close_node(scratch, Node::TyArg, b, s3))
}

// The arrows, stars and constructors behind a type that started at `b`.
// measure: 32 * left + 2
// advances: ty_step_advances _
#[cycle(ty)]
fn ty_tail(
    lent: Lent,
    table: &[u8],
    scratch: &mut [u8],
    finds: &mut [u8],
    left: usize,
    min: u8,
    b: usize,
    s: State,
) -> State
    requires { Sound (mem_of lent table.now scratch.old finds.old s) × (b < 4294967296) }
    ensures { RunsIn left b (Prog.loop (types.ty_step min)) (mem_of lent.entry table.now scratch.old finds.old s) (mem_of lent.entry table.now scratch.new finds.new result) 0 }
{
    let mut s1 = s;
    loop {
        let step = ty_step(lent, table, scratch, finds, left, min, b, s1);
        match step {
            Ok(s2) => s1 = s2,
            Err(s2) => return s2,
        }
    }
}

// One of them.
// measure: 32 * left + 1
#[cycle(ty)]
fn ty_step(
    lent: Lent,
    table: &[u8],
    scratch: &mut [u8],
    finds: &mut [u8],
    left: usize,
    min: u8,
    b: usize,
    s: State,
) -> Found
    requires { Sound (mem_of lent table.now scratch.old finds.old s) × (b < 4294967296) }
    ensures { RunsIn left b (types.ty_step min) (mem_of lent.entry table.now scratch.old finds.old s) (mem_of lent.entry table.now scratch.new finds.new (out_state result)) (out_val result) }
{
    let Some(k) = peek(lent.toks, s) else {
        return Err(s);
    };
    if k == kind::MINUS_GT {
        if ends(TyPrec::Arrow, min) {
            return Err(s);
        }
        return Ok(ty_arrow(lent, table, scratch, finds, left, b, s));
    }
    if k == kind::STAR {
        if ends(TyPrec::Star, min) {
            return Err(s);
        }
        return Ok(ty_tuple(lent, table, scratch, finds, left, b, s));
    }
    if k == kind::NAME {
        return Ok(ty_con(lent, table, scratch, finds, left, b, s));
    }
    Err(s)
}

// An arrow and the type behind it.
// measure: 32 * left
#[cycle(ty)]
fn ty_arrow(
    lent: Lent,
    table: &[u8],
    scratch: &mut [u8],
    finds: &mut [u8],
    left: usize,
    b: usize,
    s: State,
) -> State
    requires { Sound (mem_of lent table.now scratch.old finds.old s) × (b < 4294967296) }
    ensures { RunsIn left b (types.ty_arrow {g = false}) (mem_of lent.entry table.now scratch.old finds.old s) (mem_of lent.entry table.now scratch.new finds.new result) 0 }
{
    if left == 0 {
        return s.refuse_for(Refusal::TooDeep);
    }
    let s1 = bump(lent.toks, scratch, s.mark());
    let s2 = ty_must(lent, table, scratch, finds, left - 1, TyPrec::Arrow, s1);
    close_node(scratch, Node::FnTy, b, s2)
}

// The factors of a tuple type behind the first.
// measure: 32 * left
#[cycle(ty)]
fn ty_tuple(
    lent: Lent,
    table: &[u8],
    scratch: &mut [u8],
    finds: &mut [u8],
    left: usize,
    b: usize,
    s: State,
) -> State
    requires { Sound (mem_of lent table.now scratch.old finds.old s) × (b < 4294967296) }
    ensures { RunsIn left b (types.ty_tuple {g = false}) (mem_of lent.entry table.now scratch.old finds.old s) (mem_of lent.entry table.now scratch.new finds.new result) 0 }
{
    if left == 0 {
        return s.refuse_for(Refusal::TooDeep);
    }
    let s1 = star_tail(lent, table, scratch, finds, left - 1, b, s.mark());
    close_node(scratch, Node::TupleTy, b, s1)
}

// A constructor behind its argument.
fn ty_con(
    lent: Lent,
    table: &[u8],
    scratch: &mut [u8],
    finds: &mut [u8],
    left: usize,
    b: usize,
    s: State,
) -> State
    requires { Sound (mem_of lent table.now scratch.old finds.old s) × (b < 4294967296) }
    ensures { RunsIn left b (types.ty_con {g = false}) (mem_of lent.entry table.now scratch.old finds.old s) (mem_of lent.entry table.now scratch.new finds.new result) 0 }
{
    if left == 0 {
        return s.refuse_for(Refusal::TooDeep);
    }
    let got = path_must(lent, table, scratch, finds, left - 1, s.mark());
    let s1 = either(got);
    close_node(scratch, Node::OneArgConTy, b, s1)
}

// The factors of a tuple type.
// measure: 32 * left + 6
// advances: star_advances
#[cycle(ty)]
fn star_tail(
    lent: Lent,
    table: &[u8],
    scratch: &mut [u8],
    finds: &mut [u8],
    left: usize,
    b: usize,
    s: State,
) -> State
    requires { Sound (mem_of lent table.now scratch.old finds.old s) }
    ensures { RunsIn left b (Prog.loop types.star_turn) (mem_of lent.entry table.now scratch.old finds.old s) (mem_of lent.entry table.now scratch.new finds.new result) 0 }
{
    let mut s1 = s;
    loop {
        let turn = star_turn(lent, table, scratch, finds, left, s1);
        match turn {
            Ok(s2) => s1 = s2,
            Err(s2) => return s2,
        }
    }
}

// One factor, where there is one.
// measure: 32 * left + 5
#[cycle(ty)]
fn star_turn(
    lent: Lent,
    table: &[u8],
    scratch: &mut [u8],
    finds: &mut [u8],
    left: usize,
    s: State,
) -> Found
    requires { Sound (mem_of lent table.now scratch.old finds.old s) }
    ensures { Runs left types.star_turn (mem_of lent.entry table.now scratch.old finds.old s) (mem_of lent.entry table.now scratch.new finds.new (out_state result)) (out_val result) }
{
    if at(lent.toks, kind::STAR, s) {
        Ok(star_factor(lent, table, scratch, finds, left, s))
    } else {
        Err(s)
    }
}

// `*` and the type behind it.
// measure: 32 * left + 4
#[cycle(ty)]
fn star_factor(
    lent: Lent,
    table: &[u8],
    scratch: &mut [u8],
    finds: &mut [u8],
    left: usize,
    s: State,
) -> State
    requires { Sound (mem_of lent table.now scratch.old finds.old s) }
    ensures { Runs left types.star_factor (mem_of lent.entry table.now scratch.old finds.old s) (mem_of lent.entry table.now scratch.new finds.new result) 0 }
{
    if left == 0 {
        return s.refuse_for(Refusal::TooDeep);
    }
    let s1 = s.mark();
    let b = s1.len;
    let s2 = bump(lent.toks, scratch, s1);
    let s3 = ty_must(lent, table, scratch, finds, left - 1, TyPrec::App, s2);
    close_node(scratch, Node::StarTy, b, s3)
}

// The rows of a record type, up to `}`.
// measure: 32 * left + 7
// advances: end_turn_advances true _ _ _ _
#[cycle(ty)]
fn ty_rows(
    lent: Lent,
    table: &[u8],
    scratch: &mut [u8],
    finds: &mut [u8],
    left: usize,
    b: usize,
    s: State,
) -> State
    requires { Sound (mem_of lent table.now scratch.old finds.old s) }
    ensures { RunsIn left b (Prog.loop (util.end_turn {g = true} SK.TyRow SK.Comma SK.RCurly types.ty_row)) (mem_of lent.entry table.now scratch.old finds.old s) (mem_of lent.entry table.now scratch.new finds.new result) 0 }
{
    let mut s1 = s;
    loop {
        let turn = row_turn(lent, table, scratch, finds, left, s1);
        match turn {
            Ok(s2) => s1 = s2,
            Err(s2) => return s2,
        }
    }
}

// `}`, or one row.
// measure: 32 * left + 6
#[cycle(ty)]
fn row_turn(
    lent: Lent,
    table: &[u8],
    scratch: &mut [u8],
    finds: &mut [u8],
    left: usize,
    s: State,
) -> Found
    requires { Sound (mem_of lent table.now scratch.old finds.old s) }
    ensures { Runs left (util.end_turn {g = true} SK.TyRow SK.Comma SK.RCurly types.ty_row) (mem_of lent.entry table.now scratch.old finds.old s) (mem_of lent.entry table.now scratch.new finds.new (out_state result)) (out_val result) }
{
    if at(lent.toks, kind::RCURLY, s) {
        return Err(bump(lent.toks, scratch, s));
    }
    let item = row_item(lent, table, scratch, finds, left, s);
    match item {
        Ok(s1) => Ok(s1),
        Err(s1) => {
            let got = eat(lent.toks, scratch, finds, kind::RCURLY, s1);
            let s2 = either(got);
            Err(s2)
        }
    }
}

// One row and its comma.
// measure: 32 * left + 5
#[cycle(ty)]
fn row_item(
    lent: Lent,
    table: &[u8],
    scratch: &mut [u8],
    finds: &mut [u8],
    left: usize,
    s: State,
) -> Found
    requires { Sound (mem_of lent table.now scratch.old finds.old s) }
    ensures { Runs left (util.end_item {g = true} SK.TyRow SK.Comma types.ty_row) (mem_of lent.entry table.now scratch.old finds.old s) (mem_of lent.entry table.now scratch.new finds.new (out_state result)) (out_val result) }
{
    if left == 0 {
        return Err(s.refuse_for(Refusal::TooDeep));
    }
    let s1 = s.mark();
    let b = s1.len;
    let s2 = ty_row(lent, table, scratch, finds, left - 1, s1);
    if at(lent.toks, kind::COMMA, s2) {
        let s3 = bump(lent.toks, scratch, s2);
        return Ok(close_node(scratch, Node::TyRow, b, s3));
    }
    Err(close_node(scratch, Node::TyRow, b, s2))
}

// A label and its type.
// measure: 32 * left + 5
#[cycle(ty)]
fn ty_row(
    lent: Lent,
    table: &[u8],
    scratch: &mut [u8],
    finds: &mut [u8],
    left: usize,
    s: State,
) -> State
    requires { Sound (mem_of lent table.now scratch.old finds.old s) }
    ensures { Runs left types.ty_row (mem_of lent.entry table.now scratch.old finds.old s) (mem_of lent.entry table.now scratch.new finds.new result) 0 }
{
    let s1 = lab(lent.toks, scratch, finds, s);
    let s2 = bump_ascription(lent.toks, scratch, s1);
    ty_must(lent, table, scratch, finds, left, TyPrec::Arrow, s2)
}

// The further types of a sequence, up to `)`.
// measure: 32 * left + 7
// advances: end_turn_advances true _ _ _ _
#[cycle(ty)]
fn ty_args(
    lent: Lent,
    table: &[u8],
    scratch: &mut [u8],
    finds: &mut [u8],
    left: usize,
    b: usize,
    s: State,
) -> State
    requires { Sound (mem_of lent table.now scratch.old finds.old s) }
    ensures { RunsIn left b (Prog.loop (util.end_turn {g = true} SK.TyArg SK.Comma SK.RRound (types.ty_must 0))) (mem_of lent.entry table.now scratch.old finds.old s) (mem_of lent.entry table.now scratch.new finds.new result) 0 }
{
    let mut s1 = s;
    loop {
        let turn = arg_turn(lent, table, scratch, finds, left, s1);
        match turn {
            Ok(s2) => s1 = s2,
            Err(s2) => return s2,
        }
    }
}

// `)`, or one type.
// measure: 32 * left + 6
#[cycle(ty)]
fn arg_turn(
    lent: Lent,
    table: &[u8],
    scratch: &mut [u8],
    finds: &mut [u8],
    left: usize,
    s: State,
) -> Found
    requires { Sound (mem_of lent table.now scratch.old finds.old s) }
    ensures { Runs left (util.end_turn {g = true} SK.TyArg SK.Comma SK.RRound (types.ty_must 0)) (mem_of lent.entry table.now scratch.old finds.old s) (mem_of lent.entry table.now scratch.new finds.new (out_state result)) (out_val result) }
{
    if at(lent.toks, kind::RROUND, s) {
        return Err(bump(lent.toks, scratch, s));
    }
    let item = arg_item(lent, table, scratch, finds, left, s);
    match item {
        Ok(s1) => Ok(s1),
        Err(s1) => {
            let got = eat(lent.toks, scratch, finds, kind::RROUND, s1);
            let s2 = either(got);
            Err(s2)
        }
    }
}

// One type and its comma.
// measure: 32 * left + 5
#[cycle(ty)]
fn arg_item(
    lent: Lent,
    table: &[u8],
    scratch: &mut [u8],
    finds: &mut [u8],
    left: usize,
    s: State,
) -> Found
    requires { Sound (mem_of lent table.now scratch.old finds.old s) }
    ensures { Runs left (util.end_item {g = true} SK.TyArg SK.Comma (types.ty_must 0)) (mem_of lent.entry table.now scratch.old finds.old s) (mem_of lent.entry table.now scratch.new finds.new (out_state result)) (out_val result) }
{
    if left == 0 {
        return Err(s.refuse_for(Refusal::TooDeep));
    }
    let s1 = s.mark();
    let b = s1.len;
    let s2 = ty_must(lent, table, scratch, finds, left - 1, TyPrec::Arrow, s1);
    if at(lent.toks, kind::COMMA, s2) {
        let s3 = bump(lent.toks, scratch, s2);
        return Ok(close_node(scratch, Node::TyArg, b, s3));
    }
    Err(close_node(scratch, Node::TyArg, b, s2))
}

// `of` and a type, where they are next.
pub fn of_ty(
    lent: Lent,
    table: &[u8],
    scratch: &mut [u8],
    finds: &mut [u8],
    left: usize,
    s: State,
) -> Found
    requires { Sound (mem_of lent table.now scratch.old finds.old s) }
    ensures { Runs left (types.of_ty {g = true}) (mem_of lent.entry table.now scratch.old finds.old s) (mem_of lent.entry table.now scratch.new finds.new (out_state result)) (out_val result) }
{
    if at(lent.toks, kind::OF_KW, s) {
        if left == 0 {
            return Err(s.refuse_for(Refusal::TooDeep));
        }
        let s1 = s.mark();
        let b = s1.len;
        let s2 = bump(lent.toks, scratch, s1);
        let s3 = ty_must(lent, table, scratch, finds, left - 1, TyPrec::Arrow, s2);
        return Ok(close_node(scratch, Node::OfTy, b, s3));
    }
    Err(s)
}

// `:` or `:>` and a type, where they are next.
pub fn ty_annotation(
    lent: Lent,
    table: &[u8],
    scratch: &mut [u8],
    finds: &mut [u8],
    left: usize,
    s: State,
) -> Found
    requires { Sound (mem_of lent table.now scratch.old finds.old s) }
    ensures { Runs left (types.ty_annotation {g = true}) (mem_of lent.entry table.now scratch.old finds.old s) (mem_of lent.entry table.now scratch.new finds.new (out_state result)) (out_val result) }
{
    let Some(k) = peek(lent.toks, s) else {
        return Err(s);
    };
    if ascription(k) {
        if left == 0 {
            return Err(s.refuse_for(Refusal::TooDeep));
        }
        let s1 = s.mark();
        let b = s1.len;
        let s2 = bump(lent.toks, scratch, s1);
        let s3 = ty_must(lent, table, scratch, finds, left - 1, TyPrec::Arrow, s2);
        return Ok(close_node(scratch, Node::TyAnnotation, b, s3));
    }
    Err(s)
}

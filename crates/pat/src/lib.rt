// Patterns: pat.rs.
// Its loops over turns are the source's closures over the parser: one small loop per use (document 01).
#![tactic(auto)]

ghost use Rattle.std.specs.Prelude.{◌≡◌, Bool, true, false, ℕ, suc, ◌+◌, ◌-◌, ◌*◌, ◌<◌};
ghost use Rattle.grammar.specs.Prog.{Prog};
ghost use Rattle.grammar.specs.Rule.{Rule, PatPrec as Prec};
ghost use Rattle.grammar.specs.Util as util;
ghost use Rattle.grammar.specs.Pat as pat;
ghost use Rattle.grammar.specs.SyntaxKind as SK;
ghost use Rattle.sml_fixity.specs.Fix.{infix_of};
ghost use Rattle.parser.specs.View.{Sound, mem_of, err_of, out_state, out_val};
ghost use Rattle.parser.specs.Runs.{Always, Runs, RunsIn};
ghost use Rattle.pat_prec.specs.Prec.{prec_of};
ghost use Rattle.pat_parts.specs.Head.{head_state, head_val};

use parser::finding::{ErrorKind, Expected};
use parser::node::Node;
use parser::refusal::Refusal;
use parser::{
    Found, InfixErr, Lent, State, at, at_n, bump, close_node, either, index, kind, peek, peek_n,
    report_error,
};
use pat_parts::{Head, con_name, con_op, con_path, typed_step};
use pat_prec::{PatPrec, arg, is_infix, is_min, s_con, should_break_pat};
use sml_fixity::Infix;
use texts::fixity_at;
use ty::ty_annotation;
use util::{ascription, eat, eat_name_star, lab, name_star, path_infix};

// `pat_prec`, or the finding that there is no pattern.
// measure: 64 * left + 6
#[cycle(pat)]
pub fn pat_must(
    lent: Lent,
    table: &[u8],
    scratch: &mut [u8],
    finds: &mut [u8],
    left: usize,
    min: PatPrec,
    e: InfixErr,
    s: State,
) -> State
    requires { Sound (mem_of lent table.now scratch.old finds.old s) }
    ensures { Runs left (pat.pat_must (prec_of min) (err_of e)) (mem_of lent.entry table.now scratch.old finds.old s) (mem_of lent.entry table.now scratch.new finds.new result) 0 }
{
    let got = pat_prec(lent, table, scratch, finds, left, min, e, s);
    match got {
        Ok(s1) => s1,
        Err(s1) => report_error(finds, ErrorKind::Expected(Expected::Pat), s1),
    }
}

// `pat_prec`: a pattern, with what `min` lets stand.
// measure: 64 * left + 5
// unfolds: root.body pat.pat_scope
#[cycle(pat)]
pub fn pat_prec(
    lent: Lent,
    table: &[u8],
    scratch: &mut [u8],
    finds: &mut [u8],
    left: usize,
    min: PatPrec,
    e: InfixErr,
    s: State,
) -> Found
    requires { Sound (mem_of lent table.now scratch.old finds.old s) }
    ensures { Runs left (Prog.call (Rule.pat_prec (prec_of min) (err_of e))) (mem_of lent.entry table.now scratch.old finds.old s) (mem_of lent.entry table.now scratch.new finds.new (out_state result)) (out_val result) }
{
    let b = s.len;
    let Some(k) = peek(lent.toks, s) else {
        return atom(lent, table, scratch, finds, left, min, e, b, s);
    };
    if name_star(k) {
        return con(lent, table, scratch, finds, left, min, e, b, s);
    }
    if k == kind::OP_KW {
        let Some(k1) = peek_n(lent.toks, 1, s) else {
            return atom(lent, table, scratch, finds, left, min, e, b, s);
        };
        if name_star(k1) {
            return con(lent, table, scratch, finds, left, min, e, b, s);
        }
        return atom(lent, table, scratch, finds, left, min, e, b, s);
    }
    atom(lent, table, scratch, finds, left, min, e, b, s)
}

// A pattern that starts with a constructor.
// measure: 64 * left + 4
// unfolds: pat.pat_tail
#[cycle(pat)]
fn con(
    lent: Lent,
    table: &[u8],
    scratch: &mut [u8],
    finds: &mut [u8],
    left: usize,
    min: PatPrec,
    e: InfixErr,
    b: usize,
    s: State,
) -> Found
    requires { Sound (mem_of lent table.now scratch.old finds.old s) × (b < 4294967296) }
    ensures { RunsIn left b (pat.con_pat (prec_of min) (err_of e)) (mem_of lent.entry table.now scratch.old finds.old s) (mem_of lent.entry table.now scratch.new finds.new (out_state result)) (out_val result) }
{
    let head = con_head(lent, table, scratch, finds, left, min, e, b, s);
    match head {
        Head::Missing(s1) => Err(s1),
        Head::GoOn(s1) => {
            let s2 = tail(lent, table, scratch, finds, left, min, e, b, s1);
            Ok(s2)
        }
        Head::AtOp(s1) => {
            let s2 = op_tail(lent, table, scratch, finds, left, e, b, s1);
            let s3 = tail(lent, table, scratch, finds, left, min, e, b, s2);
            Ok(s3)
        }
        Head::Stop(s1) => Ok(s1),
    }
}

// A constructor and its argument.
// measure: 64 * left
#[cycle(pat)]
fn con_head(
    lent: Lent,
    table: &[u8],
    scratch: &mut [u8],
    finds: &mut [u8],
    left: usize,
    min: PatPrec,
    e: InfixErr,
    b: usize,
    s: State,
) -> Head
    requires { Sound (mem_of lent table.now scratch.old finds.old s) × (b < 4294967296) }
    ensures { RunsIn left b (pat.con_head {g = false} (prec_of min) (err_of e)) (mem_of lent.entry table.now scratch.old finds.old s) (mem_of lent.entry table.now scratch.new finds.new (head_state result)) (head_val result) }
{
    if left == 0 {
        return Head::Missing(s.refuse_for(Refusal::TooDeep));
    }
    let s1 = s.mark();
    let got = con_name(lent, table, scratch, finds, left - 1, e, s1);
    let s2 = either(got);
    con_turn(lent, table, scratch, finds, left - 1, min, e, b, s2)
}

// The argument of a constructor, where there is one, and the end of the node that started at `b`.
// measure: 64 * left + 2
#[cycle(pat)]
fn con_turn(
    lent: Lent,
    table: &[u8],
    scratch: &mut [u8],
    finds: &mut [u8],
    left: usize,
    min: PatPrec,
    e: InfixErr,
    b: usize,
    s: State,
) -> Head
    requires { Sound (mem_of lent table.now scratch.old finds.old s) × (b < 4294967296) }
    ensures { RunsIn left b (pat.con_turn (prec_of min) (err_of e)) (mem_of lent.entry table.now scratch.old finds.old s) (mem_of lent.entry table.now scratch.new finds.new (head_state result)) (head_val result) }
{
    let Some(k) = peek(lent.toks, s) else {
        return Head::GoOn(close_node(scratch, Node::ConPat, b, s));
    };
    if name_star(k) {
        let fix = fixity_at(lent, table, 0, s);
        match fix {
            None => {
                let s1 = at_must(lent, table, scratch, finds, left, e, s);
                return Head::GoOn(close_node(scratch, Node::ConPat, b, s1));
            }
            Some(op) => {
                return con_op(lent, table, scratch, finds, left, op, min, b, s);
            }
        }
    }
    if arg(k) {
        let s1 = at_must(lent, table, scratch, finds, left, e, s);
        return Head::GoOn(close_node(scratch, Node::ConPat, b, s1));
    }
    Head::GoOn(close_node(scratch, Node::ConPat, b, s))
}

// An infix name that was tested, and the pattern behind it.
// measure: 64 * left + 1
#[cycle(pat)]
fn op_tail(
    lent: Lent,
    table: &[u8],
    scratch: &mut [u8],
    finds: &mut [u8],
    left: usize,
    e: InfixErr,
    b: usize,
    s: State,
) -> State
    requires { Sound (mem_of lent table.now scratch.old finds.old s) × (b < 4294967296) }
    ensures { RunsIn left b (pat.op_tail (err_of e)) (mem_of lent.entry table.now scratch.old finds.old s) (mem_of lent.entry table.now scratch.new finds.new result) 0 }
{
    let fix = fixity_at(lent, table, 0, s);
    match fix {
        None => s,
        Some(op) => inf_pat(lent, table, scratch, finds, left, op, e, b, s),
    }
}

// A pattern that starts with no constructor.
// measure: 64 * left + 4
#[cycle(pat)]
fn atom(
    lent: Lent,
    table: &[u8],
    scratch: &mut [u8],
    finds: &mut [u8],
    left: usize,
    min: PatPrec,
    e: InfixErr,
    b: usize,
    s: State,
) -> Found
    requires { Sound (mem_of lent table.now scratch.old finds.old s) × (b < 4294967296) }
    ensures { RunsIn left b (pat.atom_pat (prec_of min) (err_of e)) (mem_of lent.entry table.now scratch.old finds.old s) (mem_of lent.entry table.now scratch.new finds.new (out_state result)) (out_val result) }
{
    let got = at_pat(lent, table, scratch, finds, left, e, s);
    match got {
        Err(s1) => Err(s1),
        Ok(s1) => {
            let s2 = tail(lent, table, scratch, finds, left, min, e, b, s1);
            Ok(s2)
        }
    }
}

// What follows a pattern that started at `b`.
// measure: 64 * left + 3
// advances: pat_step_advances _ _
#[cycle(pat)]
fn tail(
    lent: Lent,
    table: &[u8],
    scratch: &mut [u8],
    finds: &mut [u8],
    left: usize,
    min: PatPrec,
    e: InfixErr,
    b: usize,
    s: State,
) -> State
    requires { Sound (mem_of lent table.now scratch.old finds.old s) × (b < 4294967296) }
    ensures { RunsIn left b (Prog.loop (pat.pat_step (prec_of min) (err_of e))) (mem_of lent.entry table.now scratch.old finds.old s) (mem_of lent.entry table.now scratch.new finds.new result) 0 }
{
    let mut s1 = s;
    loop {
        let turn = step(lent, table, scratch, finds, left, min, e, b, s1);
        match turn {
            Ok(s2) => s1 = s2,
            Err(s2) => return s2,
        }
    }
}

// One of it: an infix pattern, `|`, a type or `as`.
// measure: 64 * left + 2
#[cycle(pat)]
fn step(
    lent: Lent,
    table: &[u8],
    scratch: &mut [u8],
    finds: &mut [u8],
    left: usize,
    min: PatPrec,
    e: InfixErr,
    b: usize,
    s: State,
) -> Found
    requires { Sound (mem_of lent table.now scratch.old finds.old s) × (b < 4294967296) }
    ensures { RunsIn left b (pat.pat_step (prec_of min) (err_of e)) (mem_of lent.entry table.now scratch.old finds.old s) (mem_of lent.entry table.now scratch.new finds.new (out_state result)) (out_val result) }
{
    let Some(k) = peek(lent.toks, s) else {
        return Err(s);
    };
    if name_star(k) {
        return op_step(lent, table, scratch, finds, left, min, e, b, s);
    }
    if k == kind::BAR {
        return or_step(lent, table, scratch, finds, left, min, e, b, s);
    }
    if ascription(k) {
        return typed_step(lent, table, scratch, finds, left, min, b, s);
    }
    if k == kind::AS_KW {
        return as_step(lent, table, scratch, finds, left, min, e, b, s);
    }
    Err(s)
}

// At a name: an infix pattern, unless the name ends the climb.
// measure: 64 * left + 1
#[cycle(pat)]
fn op_step(
    lent: Lent,
    table: &[u8],
    scratch: &mut [u8],
    finds: &mut [u8],
    left: usize,
    min: PatPrec,
    e: InfixErr,
    b: usize,
    s: State,
) -> Found
    requires { Sound (mem_of lent table.now scratch.old finds.old s) × (b < 4294967296) }
    ensures { RunsIn left b (pat.op_step (prec_of min) (err_of e)) (mem_of lent.entry table.now scratch.old finds.old s) (mem_of lent.entry table.now scratch.new finds.new (out_state result)) (out_val result) }
{
    let fix = fixity_at(lent, table, 0, s);
    match fix {
        None => {
            let name = index(s);
            Err(report_error(finds, ErrorKind::NotInfix(name), s))
        }
        Some(op) => {
            let ends = should_break_pat(lent, table, scratch, finds, op, min, s);
            match ends {
                Ok(s1) => Err(s1),
                Err(s1) => {
                    let s2 = inf_pat(lent, table, scratch, finds, left, op, e, b, s1);
                    Ok(s2)
                }
            }
        }
    }
}

// An infix name and the pattern behind it.
// measure: 64 * left
#[cycle(pat)]
fn inf_pat(
    lent: Lent,
    table: &[u8],
    scratch: &mut [u8],
    finds: &mut [u8],
    left: usize,
    op: Infix,
    e: InfixErr,
    b: usize,
    s: State,
) -> State
    requires { Sound (mem_of lent table.now scratch.old finds.old s) × (b < 4294967296) }
    ensures { RunsIn left b (pat.infix_pat {g = false} (infix_of op) (err_of e)) (mem_of lent.entry table.now scratch.old finds.old s) (mem_of lent.entry table.now scratch.new finds.new result) 0 }
{
    if left == 0 {
        return s.refuse_for(Refusal::TooDeep);
    }
    let s1 = bump(lent.toks, scratch, s.mark());
    let min = PatPrec::Infix(op);
    let s2 = pat_must(lent, table, scratch, finds, left - 1, min, e, s1);
    close_node(scratch, Node::InfixPat, b, s2)
}

// `|` and the pattern behind it, where it may stand.
// measure: 64 * left
#[cycle(pat)]
fn or_step(
    lent: Lent,
    table: &[u8],
    scratch: &mut [u8],
    finds: &mut [u8],
    left: usize,
    min: PatPrec,
    e: InfixErr,
    b: usize,
    s: State,
) -> Found
    requires { Sound (mem_of lent table.now scratch.old finds.old s) × (b < 4294967296) }
    ensures { RunsIn left b (pat.or_step (prec_of min) (err_of e)) (mem_of lent.entry table.now scratch.old finds.old s) (mem_of lent.entry table.now scratch.new finds.new (out_state result)) (out_val result) }
{
    if is_min(min) {
        if left == 0 {
            return Ok(s.refuse_for(Refusal::TooDeep));
        }
        let s1 = bump(lent.toks, scratch, s.mark());
        let or = PatPrec::Or;
        let s2 = pat_must(lent, table, scratch, finds, left - 1, or, e, s1);
        return Ok(close_node(scratch, Node::OrPat, b, s2));
    }
    Err(s)
}

// `as` and the pattern behind it, where it may stand.
// measure: 64 * left
#[cycle(pat)]
fn as_step(
    lent: Lent,
    table: &[u8],
    scratch: &mut [u8],
    finds: &mut [u8],
    left: usize,
    min: PatPrec,
    e: InfixErr,
    b: usize,
    s: State,
) -> Found
    requires { Sound (mem_of lent table.now scratch.old finds.old s) × (b < 4294967296) }
    ensures { RunsIn left b (pat.as_step (prec_of min) (err_of e)) (mem_of lent.entry table.now scratch.old finds.old s) (mem_of lent.entry table.now scratch.new finds.new (out_state result)) (out_val result) }
{
    if is_infix(min) {
        return Err(s);
    }
    if left == 0 {
        return Ok(s.refuse_for(Refusal::TooDeep));
    }
    let s1 = s.mark();
    let got = as_pat_tl(lent, table, scratch, finds, left - 1, e, s1);
    match got {
        Ok(s2) => Ok(close_node(scratch, Node::AsPat, b, s2)),
        Err(s2) => {
            let s3 = report_error(finds, ErrorKind::Expected(Expected::Pat), s2);
            Ok(close_node(scratch, Node::AsPat, b, s3))
        }
    }
}

// `as` and the pattern behind it.
// measure: 64 * left
#[cycle(pat)]
pub fn as_pat_tl(
    lent: Lent,
    table: &[u8],
    scratch: &mut [u8],
    finds: &mut [u8],
    left: usize,
    e: InfixErr,
    s: State,
) -> Found
    requires { Sound (mem_of lent table.now scratch.old finds.old s) }
    ensures { Runs left (pat.as_pat_tl {g = true} (err_of e)) (mem_of lent.entry table.now scratch.old finds.old s) (mem_of lent.entry table.now scratch.new finds.new (out_state result)) (out_val result) }
{
    if at(lent.toks, kind::AS_KW, s) {
        if left == 0 {
            return Err(s.refuse_for(Refusal::TooDeep));
        }
        let s1 = s.mark();
        let b = s1.len;
        let s2 = bump(lent.toks, scratch, s1);
        let min = PatPrec::Min;
        let s3 = pat_must(lent, table, scratch, finds, left - 1, min, e, s2);
        return Ok(close_node(scratch, Node::AsPatTail, b, s3));
    }
    Err(s)
}

// `at_pat`, or the finding that there is no pattern.
// measure: 64 * left + 1
#[cycle(pat)]
pub fn at_must(
    lent: Lent,
    table: &[u8],
    scratch: &mut [u8],
    finds: &mut [u8],
    left: usize,
    e: InfixErr,
    s: State,
) -> State
    requires { Sound (mem_of lent table.now scratch.old finds.old s) }
    ensures { Runs left (pat.at_pat_must {g = true} (err_of e)) (mem_of lent.entry table.now scratch.old finds.old s) (mem_of lent.entry table.now scratch.new finds.new result) 0 }
{
    let got = at_pat(lent, table, scratch, finds, left, e, s);
    match got {
        Ok(s1) => s1,
        Err(s1) => report_error(finds, ErrorKind::Expected(Expected::Pat), s1),
    }
}

// `at_pat`: an atomic pattern.
// measure: 64 * left
#[cycle(pat)]
pub fn at_pat(
    lent: Lent,
    table: &[u8],
    scratch: &mut [u8],
    finds: &mut [u8],
    left: usize,
    e: InfixErr,
    s: State,
) -> Found
    requires { Sound (mem_of lent table.now scratch.old finds.old s) }
    ensures { (g : Bool) → Runs left (pat.at_pat {g = g} (err_of e)) (mem_of lent.entry table.now scratch.old finds.old s) (mem_of lent.entry table.now scratch.new finds.new (out_state result)) (out_val result) }
{
    let Some(k) = peek(lent.toks, s) else {
        return Err(s);
    };
    if left == 0 {
        return Err(s.refuse_for(Refusal::TooDeep));
    }
    let s1 = s.mark();
    let b = s1.len;
    at_head(lent, table, scratch, finds, left - 1, k, e, b, s1)
}

// What an atomic pattern starts with, the kind k being next.
// measure: 64 * left + 5
#[cycle(pat)]
fn at_head(
    lent: Lent,
    table: &[u8],
    scratch: &mut [u8],
    finds: &mut [u8],
    left: usize,
    k: u8,
    e: InfixErr,
    b: usize,
    s: State,
) -> Found
    requires { Sound (mem_of lent table.now scratch.old finds.old s) × (b < 4294967296) }
    ensures { RunsIn left b (pat.at_pat_head (suc k) (err_of e)) (mem_of lent.entry table.now scratch.old finds.old s) (mem_of lent.entry table.now scratch.new finds.new (out_state result)) (out_val result) }
{
    if s_con(k) {
        let s1 = bump(lent.toks, scratch, s);
        return Ok(close_node(scratch, Node::SConPat, b, s1));
    }
    if k == kind::UNDERSCORE {
        let s1 = bump(lent.toks, scratch, s);
        return Ok(close_node(scratch, Node::WildcardPat, b, s1));
    }
    if k == kind::OP_KW {
        let got = path_infix(lent, table, scratch, finds, left, s);
        let s1 = either(got);
        return Ok(close_node(scratch, Node::ConPat, b, s1));
    }
    if name_star(k) {
        let got = con_path(lent, table, scratch, finds, left, e, s);
        let s1 = either(got);
        return Ok(close_node(scratch, Node::ConPat, b, s1));
    }
    rest(lent, table, scratch, finds, left, k, e, b, s)
}

// The starts of an atomic pattern that hold others.
// measure: 64 * left + 4
// unfolds: util.end_sep
#[cycle(pat)]
fn rest(
    lent: Lent,
    table: &[u8],
    scratch: &mut [u8],
    finds: &mut [u8],
    left: usize,
    k: u8,
    e: InfixErr,
    b: usize,
    s: State,
) -> Found
    requires { Sound (mem_of lent table.now scratch.old finds.old s) × (b < 4294967296) }
    ensures { RunsIn left b (pat.at_pat_rest (suc k) (err_of e)) (mem_of lent.entry table.now scratch.old finds.old s) (mem_of lent.entry table.now scratch.new finds.new (out_state result)) (out_val result) }
{
    if k == kind::LCURLY {
        let s1 = bump(lent.toks, scratch, s);
        let s2 = rows(lent, table, scratch, finds, left, e, b, s1);
        return Ok(close_node(scratch, Node::RecordPat, b, s2));
    }
    if k == kind::LROUND {
        let s1 = bump(lent.toks, scratch, s);
        return at_round(lent, table, scratch, finds, left, e, b, s1);
    }
    if k == kind::LSQUARE {
        let s1 = bump(lent.toks, scratch, s);
        let end = kind::RSQUARE;
        let s2 = args(lent, table, scratch, finds, left, end, e, b, s1);
        return Ok(close_node(scratch, Node::ListPat, b, s2));
    }
    if k == kind::HASH {
        let s1 = bump(lent.toks, scratch, s);
        let s2 = vector(lent, table, scratch, finds, left, e, s1);
        return Ok(close_node(scratch, Node::VectorPat, b, s2));
    }
    Err(s)
}

// The list of a vector pattern.
// measure: 64 * left
// unfolds: util.end_sep
#[cycle(pat)]
fn vector(
    lent: Lent,
    table: &[u8],
    scratch: &mut [u8],
    finds: &mut [u8],
    left: usize,
    e: InfixErr,
    s: State,
) -> State
    requires { Sound (mem_of lent table.now scratch.old finds.old s) }
    ensures { Runs left (pat.vector (err_of e)) (mem_of lent.entry table.now scratch.old finds.old s) (mem_of lent.entry table.now scratch.new finds.new result) 0 }
{
    if left == 0 {
        return s.refuse_for(Refusal::TooDeep);
    }
    let s1 = s.mark();
    let b = s1.len;
    let got = eat(lent.toks, scratch, finds, kind::LSQUARE, s1);
    let s2 = either(got);
    let end = kind::RSQUARE;
    let s3 = args(lent, table, scratch, finds, left - 1, end, e, b, s2);
    close_node(scratch, Node::ListPat, b, s3)
}

// A pattern that starts with `(`, from behind it on.
// measure: 64 * left + 3
// unfolds: util.end_sep
#[cycle(pat)]
fn at_round(
    lent: Lent,
    table: &[u8],
    scratch: &mut [u8],
    finds: &mut [u8],
    left: usize,
    e: InfixErr,
    b: usize,
    s: State,
) -> Found
    requires { Sound (mem_of lent table.now scratch.old finds.old s) × (b < 4294967296) }
    ensures { RunsIn left b (pat.at_pat_l_round (err_of e)) (mem_of lent.entry table.now scratch.old finds.old s) (mem_of lent.entry table.now scratch.new finds.new (out_state result)) (out_val result) }
{
    if at(lent.toks, kind::RROUND, s) {
        let s1 = bump(lent.toks, scratch, s);
        return Ok(close_node(scratch, Node::TuplePat, b, s1));
    }
    let first = pat_arg(lent, table, scratch, finds, left, e, s);
    match first {
        Err(s1) => {
            let end = kind::RROUND;
            let s2 = args(lent, table, scratch, finds, left, end, e, b, s1);
            Ok(close_node(scratch, Node::TuplePat, b, s2))
        }
        Ok(s1) => {
            let s2 = bump(lent.toks, scratch, s1);
            Ok(close_node(scratch, Node::ParenPat, b, s2))
        }
    }
}

// The pattern behind `(`.
// measure: 64 * left
#[cycle(pat)]
fn pat_arg(
    lent: Lent,
    table: &[u8],
    scratch: &mut [u8],
    finds: &mut [u8],
    left: usize,
    e: InfixErr,
    s: State,
) -> Found
    requires { Sound (mem_of lent table.now scratch.old finds.old s) }
    ensures { Runs left (pat.pat_arg (err_of e)) (mem_of lent.entry table.now scratch.old finds.old s) (mem_of lent.entry table.now scratch.new finds.new (out_state result)) (out_val result) }
{
    if left == 0 {
        return Err(s.refuse_for(Refusal::TooDeep));
    }
    let s1 = s.mark();
    let b = s1.len;
    let min = PatPrec::Min;
    let s2 = pat_must(lent, table, scratch, finds, left - 1, min, e, s1);
    if at(lent.toks, kind::RROUND, s2) {
        return Ok(s2);
    }
    let got = eat(lent.toks, scratch, finds, kind::COMMA, s2);
    let s3 = either(got);
    Err(close_node(scratch, Node::PatArg, b, s3))
}

// Patterns with commas, up to `end`.
// measure: 64 * left + 2
// advances: end_turn_advances true _ _ _ _
#[cycle(pat)]
fn args(
    lent: Lent,
    table: &[u8],
    scratch: &mut [u8],
    finds: &mut [u8],
    left: usize,
    end: u8,
    e: InfixErr,
    b: usize,
    s: State,
) -> State
    requires { Sound (mem_of lent table.now scratch.old finds.old s) × (end < 128) }
    ensures { RunsIn left b (Prog.loop (util.end_turn {g = true} SK.PatArg SK.Comma end (pat.pat_must Prec.Min (err_of e)))) (mem_of lent.entry table.now scratch.old finds.old s) (mem_of lent.entry table.now scratch.new finds.new result) 0 }
{
    let mut s1 = s;
    loop {
        let turn = arg_turn(lent, table, scratch, finds, left, end, e, s1);
        match turn {
            Ok(s2) => s1 = s2,
            Err(s2) => return s2,
        }
    }
}

// `end`, or one pattern.
// measure: 64 * left + 1
#[cycle(pat)]
fn arg_turn(
    lent: Lent,
    table: &[u8],
    scratch: &mut [u8],
    finds: &mut [u8],
    left: usize,
    end: u8,
    e: InfixErr,
    s: State,
) -> Found
    requires { Sound (mem_of lent table.now scratch.old finds.old s) × (end < 128) }
    ensures { Runs left (util.end_turn {g = true} SK.PatArg SK.Comma end (pat.pat_must Prec.Min (err_of e))) (mem_of lent.entry table.now scratch.old finds.old s) (mem_of lent.entry table.now scratch.new finds.new (out_state result)) (out_val result) }
{
    if at(lent.toks, end, s) {
        return Err(bump(lent.toks, scratch, s));
    }
    let item = arg_item(lent, table, scratch, finds, left, e, s);
    match item {
        Ok(s1) => Ok(s1),
        Err(s1) => {
            let got = eat(lent.toks, scratch, finds, end, s1);
            let s2 = either(got);
            Err(s2)
        }
    }
}

// One pattern and its comma.
// measure: 64 * left
#[cycle(pat)]
fn arg_item(
    lent: Lent,
    table: &[u8],
    scratch: &mut [u8],
    finds: &mut [u8],
    left: usize,
    e: InfixErr,
    s: State,
) -> Found
    requires { Sound (mem_of lent table.now scratch.old finds.old s) }
    ensures { Runs left (util.end_item {g = true} SK.PatArg SK.Comma (pat.pat_must Prec.Min (err_of e))) (mem_of lent.entry table.now scratch.old finds.old s) (mem_of lent.entry table.now scratch.new finds.new (out_state result)) (out_val result) }
{
    if left == 0 {
        return Err(s.refuse_for(Refusal::TooDeep));
    }
    let s1 = s.mark();
    let b = s1.len;
    let min = PatPrec::Min;
    let s2 = pat_must(lent, table, scratch, finds, left - 1, min, e, s1);
    if at(lent.toks, kind::COMMA, s2) {
        let s3 = bump(lent.toks, scratch, s2);
        return Ok(close_node(scratch, Node::PatArg, b, s3));
    }
    Err(close_node(scratch, Node::PatArg, b, s2))
}

// The rows of a record pattern, up to `}`.
// measure: 64 * left + 2
// advances: end_turn_advances true _ _ _ _
#[cycle(pat)]
fn rows(
    lent: Lent,
    table: &[u8],
    scratch: &mut [u8],
    finds: &mut [u8],
    left: usize,
    e: InfixErr,
    b: usize,
    s: State,
) -> State
    requires { Sound (mem_of lent table.now scratch.old finds.old s) }
    ensures { RunsIn left b (Prog.loop (util.end_turn {g = true} SK.PatRow SK.Comma SK.RCurly (pat.pat_row (err_of e)))) (mem_of lent.entry table.now scratch.old finds.old s) (mem_of lent.entry table.now scratch.new finds.new result) 0 }
{
    let mut s1 = s;
    loop {
        let turn = row_turn(lent, table, scratch, finds, left, e, s1);
        match turn {
            Ok(s2) => s1 = s2,
            Err(s2) => return s2,
        }
    }
}

// `}`, or one row.
// measure: 64 * left + 1
#[cycle(pat)]
fn row_turn(
    lent: Lent,
    table: &[u8],
    scratch: &mut [u8],
    finds: &mut [u8],
    left: usize,
    e: InfixErr,
    s: State,
) -> Found
    requires { Sound (mem_of lent table.now scratch.old finds.old s) }
    ensures { Runs left (util.end_turn {g = true} SK.PatRow SK.Comma SK.RCurly (pat.pat_row (err_of e))) (mem_of lent.entry table.now scratch.old finds.old s) (mem_of lent.entry table.now scratch.new finds.new (out_state result)) (out_val result) }
{
    if at(lent.toks, kind::RCURLY, s) {
        return Err(bump(lent.toks, scratch, s));
    }
    let item = row_item(lent, table, scratch, finds, left, e, s);
    match item {
        Ok(s1) => Ok(s1),
        Err(s1) => {
            let got = eat(lent.toks, scratch, finds, kind::RCURLY, s1);
            let s2 = either(got);
            Err(s2)
        }
    }
}

// One row and its comma.
// measure: 64 * left
#[cycle(pat)]
fn row_item(
    lent: Lent,
    table: &[u8],
    scratch: &mut [u8],
    finds: &mut [u8],
    left: usize,
    e: InfixErr,
    s: State,
) -> Found
    requires { Sound (mem_of lent table.now scratch.old finds.old s) }
    ensures { Runs left (util.end_item {g = true} SK.PatRow SK.Comma (pat.pat_row (err_of e))) (mem_of lent.entry table.now scratch.old finds.old s) (mem_of lent.entry table.now scratch.new finds.new (out_state result)) (out_val result) }
{
    if left == 0 {
        return Err(s.refuse_for(Refusal::TooDeep));
    }
    let s1 = s.mark();
    let b = s1.len;
    let s2 = row(lent, table, scratch, finds, left - 1, e, s1);
    if at(lent.toks, kind::COMMA, s2) {
        let s3 = bump(lent.toks, scratch, s2);
        return Ok(close_node(scratch, Node::PatRow, b, s3));
    }
    Err(close_node(scratch, Node::PatRow, b, s2))
}

// A row: `...`, a label and its pattern, or a name with what may follow it.
// measure: 64 * left
#[cycle(pat)]
fn row(
    lent: Lent,
    table: &[u8],
    scratch: &mut [u8],
    finds: &mut [u8],
    left: usize,
    e: InfixErr,
    s: State,
) -> State
    requires { Sound (mem_of lent table.now scratch.old finds.old s) }
    ensures { Runs left (pat.pat_row (err_of e)) (mem_of lent.entry table.now scratch.old finds.old s) (mem_of lent.entry table.now scratch.new finds.new result) 0 }
{
    if left == 0 {
        return s.refuse_for(Refusal::TooDeep);
    }
    let s1 = s.mark();
    let b = s1.len;
    if at(lent.toks, kind::DOT_DOT_DOT, s1) {
        let s2 = bump(lent.toks, scratch, s1);
        return close_node(scratch, Node::RestPatRow, b, s2);
    }
    if at_n(lent.toks, 1, kind::EQ, s1) {
        let s2 = lab(lent.toks, scratch, finds, s1);
        let got = eat(lent.toks, scratch, finds, kind::EQ, s2);
        let s3 = either(got);
        let min = PatPrec::Min;
        let s4 = pat_must(lent, table, scratch, finds, left - 1, min, e, s3);
        return close_node(scratch, Node::LabAndPatPatRow, b, s4);
    }
    let name = eat_name_star(lent.toks, scratch, finds, s1);
    let s2 = either(name);
    let ty = ty_annotation(lent, table, scratch, finds, left - 1, s2);
    let s3 = either(ty);
    let more = as_pat_tl(lent, table, scratch, finds, left - 1, e, s3);
    let s4 = either(more);
    close_node(scratch, Node::LabPatRow, b, s4)
}

// The parts of dec.rs about imports: es_import.
// Its loops over turns are the source's closures over the parser: one small loop per use (document 01).
#![tactic(auto)]

ghost use Rattle.std.specs.Prelude.{◌≡◌, true, suc};
ghost use Rattle.grammar.specs.Prog.{Prog};
ghost use Rattle.grammar.specs.Util as util;
ghost use Rattle.grammar.specs.Dec as decl;
ghost use Rattle.grammar.specs.SyntaxKind as SK;
ghost use Rattle.parser.specs.View.{Sound, mem_of};
ghost use Rattle.parser.specs.Runs.{Always, Runs, RunsIn};

use parser::finding::{ErrorKind, Expected};
use parser::node::Node;
use parser::refusal::Refusal;
use parser::{InfixErr, Lent, State, at, at_n, bump, close_node, either, kind, peek, report_error};
use pat::as_pat_tl;
use texts::says;
use ty::ty_annotation;
use util::{eat, want};

// The kinds of an import's name.
fn name_or_string(k: u8) -> bool
    ensures { result ≡ decl.is_name_or_string (suc k) }
{
    matches!(k, kind::NAME | kind::STRING_LIT)
}

// The name of an import.
fn es_name(lent: Lent, table: &[u8], scratch: &mut [u8], finds: &mut [u8], s: State) -> State
    requires { Sound (mem_of lent table.now scratch.old finds.old s) }
    ensures { Always decl.es_import_name (mem_of lent.entry table.now scratch.old finds.old s) (mem_of lent.entry table.now scratch.new finds.new result) 0 }
{
    let Some(k) = peek(lent.toks, s) else {
        return report_error(finds, ErrorKind::Expected(Expected::NameOrString), s);
    };
    if name_or_string(k) {
        return bump(lent.toks, scratch, s);
    }
    report_error(finds, ErrorKind::Expected(Expected::NameOrString), s)
}

// `es_import_spec`.
fn es_spec(
    lent: Lent,
    table: &[u8],
    scratch: &mut [u8],
    finds: &mut [u8],
    left: usize,
    s: State,
) -> State
    requires { Sound (mem_of lent table.now scratch.old finds.old s) }
    ensures { Runs left decl.es_import_spec (mem_of lent.entry table.now scratch.old finds.old s) (mem_of lent.entry table.now scratch.new finds.new result) 0 }
{
    if left == 0 {
        return s.refuse_for(Refusal::TooDeep);
    }
    let s1 = s.mark();
    let b = s1.len;
    let s2 = es_name(lent, table, scratch, finds, s1);
    let e = InfixErr::Yes;
    let got = as_pat_tl(lent, table, scratch, finds, left - 1, e, s2);
    let s3 = either(got);
    let typed = ty_annotation(lent, table, scratch, finds, left - 1, s3);
    let s4 = either(typed);
    close_node(scratch, Node::EsImportSpec, b, s4)
}

// Named imports, up to `}`.
// unfolds: util.end_turn util.end_item
// advances: end_turn_advances true SK.EsImportSpecArg SK.Comma SK.RCurly decl.es_import_spec
fn es_list(
    lent: Lent,
    table: &[u8],
    scratch: &mut [u8],
    finds: &mut [u8],
    left: usize,
    b: usize,
    s: State,
) -> State
    requires { Sound (mem_of lent table.now scratch.old finds.old s) }
    ensures { RunsIn left b (Prog.loop (util.end_turn {g = true} SK.EsImportSpecArg SK.Comma SK.RCurly decl.es_import_spec)) (mem_of lent.entry table.now scratch.old finds.old s) (mem_of lent.entry table.now scratch.new finds.new result) 0 }
{
    let mut s1 = s;
    loop {
        if at(lent.toks, kind::RCURLY, s1) {
            return bump(lent.toks, scratch, s1);
        }
        if left == 0 {
            let s2 = s1.refuse_for(Refusal::TooDeep);
            let got = eat(lent.toks, scratch, finds, kind::RCURLY, s2);
            return either(got);
        }
        let s2 = s1.mark();
        let c = s2.len;
        let s3 = es_spec(lent, table, scratch, finds, left - 1, s2);
        if at(lent.toks, kind::COMMA, s3) {
            let s4 = bump(lent.toks, scratch, s3);
            s1 = close_node(scratch, Node::EsImportSpecArg, c, s4);
            continue;
        }
        let s4 = close_node(scratch, Node::EsImportSpecArg, c, s3);
        let got = eat(lent.toks, scratch, finds, kind::RCURLY, s4);
        return either(got);
    }
}

// The named imports, where they are next.
// unfolds: util.end_sep
fn es_specs(
    lent: Lent,
    table: &[u8],
    scratch: &mut [u8],
    finds: &mut [u8],
    left: usize,
    s: State,
) -> State
    requires { Sound (mem_of lent table.now scratch.old finds.old s) }
    ensures { Runs left decl.es_import_specs (mem_of lent.entry table.now scratch.old finds.old s) (mem_of lent.entry table.now scratch.new finds.new result) 0 }
{
    if at(lent.toks, kind::LCURLY, s) {
        if left == 0 {
            return s.refuse_for(Refusal::TooDeep);
        }
        let s1 = s.mark();
        let b = s1.len;
        let s2 = bump(lent.toks, scratch, s1);
        let s3 = es_list(lent, table, scratch, finds, left - 1, b, s2);
        return close_node(scratch, Node::EsImportSpecs, b, s3);
    }
    s
}

// The names among the attributes.
// unfolds: decl.attr_turn
// advances: attr_turn_advances
fn attrs(
    lent: Lent,
    table: &[u8],
    scratch: &mut [u8],
    finds: &[u8],
    left: usize,
    b: usize,
    s: State,
) -> State
    requires { Sound (mem_of lent table.now scratch.old finds.now s) }
    ensures { RunsIn left b (Prog.loop decl.attr_turn) (mem_of lent.entry table.now scratch.old finds.now s) (mem_of lent.entry table.now scratch.new finds.now result) 0 }
{
    let mut s1 = s;
    loop {
        if at(lent.toks, kind::NAME, s1) {
            s1 = bump(lent.toks, scratch, s1);
            continue;
        }
        return s1;
    }
}

// The attributes, where they are next.
fn es_attrs(
    lent: Lent,
    table: &[u8],
    scratch: &mut [u8],
    finds: &mut [u8],
    left: usize,
    s: State,
) -> State
    requires { Sound (mem_of lent table.now scratch.old finds.old s) }
    ensures { Runs left decl.es_import_attrs (mem_of lent.entry table.now scratch.old finds.old s) (mem_of lent.entry table.now scratch.new finds.new result) 0 }
{
    if at(lent.toks, kind::LSQUARE, s) {
        if left == 0 {
            return s.refuse_for(Refusal::TooDeep);
        }
        let s1 = s.mark();
        let b = s1.len;
        let s2 = bump(lent.toks, scratch, s1);
        let s3 = attrs(lent, table, scratch, finds, left - 1, b, s2);
        let s4 = want(lent.toks, scratch, finds, kind::RSQUARE, s3);
        return close_node(scratch, Node::EsImportAttrs, b, s4);
    }
    s
}

// The default import, and the comma between it and the named ones.
fn es_default(lent: Lent, table: &[u8], scratch: &mut [u8], finds: &mut [u8], s: State) -> State
    requires { Sound (mem_of lent table.now scratch.old finds.old s) }
    ensures { Always decl.es_import_default (mem_of lent.entry table.now scratch.old finds.old s) (mem_of lent.entry table.now scratch.new finds.new result) 0 }
{
    if at(lent.toks, kind::NAME, s) {
        let s1 = bump(lent.toks, scratch, s);
        if at(lent.toks, kind::COMMA, s1) {
            if at_n(lent.toks, 1, kind::LCURLY, s1) {
                return bump(lent.toks, scratch, s1);
            }
            return s1;
        }
        return s1;
    }
    s
}

// The name `from`.
// unfolds: ascii
fn es_from(lent: Lent, table: &[u8], scratch: &mut [u8], finds: &mut [u8], s: State) -> State
    requires { Sound (mem_of lent table.now scratch.old finds.old s) }
    ensures { Always decl.es_import_from (mem_of lent.entry table.now scratch.old finds.old s) (mem_of lent.entry table.now scratch.new finds.new result) 0 }
{
    if at(lent.toks, kind::NAME, s) {
        if says(lent.text, lent.toks, b"from", s) {
            return bump(lent.toks, scratch, s);
        }
        let s1 = bump(lent.toks, scratch, s);
        return report_error(finds, ErrorKind::Expected(Expected::From), s1);
    }
    report_error(finds, ErrorKind::Expected(Expected::Kind(kind::NAME)), s)
}

// `es_import`, at its keyword.
pub fn es_import(
    lent: Lent,
    table: &[u8],
    scratch: &mut [u8],
    finds: &mut [u8],
    left: usize,
    s: State,
) -> State
    requires { Sound (mem_of lent table.now scratch.old finds.old s) }
    ensures { Runs left decl.es_import (mem_of lent.entry table.now scratch.old finds.old s) (mem_of lent.entry table.now scratch.new finds.new result) 0 }
{
    let s1 = bump(lent.toks, scratch, s);
    let s2 = es_attrs(lent, table, scratch, finds, left, s1);
    if at(lent.toks, kind::STRING_LIT, s2) {
        return bump(lent.toks, scratch, s2);
    }
    let s3 = es_default(lent, table, scratch, finds, s2);
    let s4 = es_specs(lent, table, scratch, finds, left, s3);
    let s5 = es_from(lent, table, scratch, finds, s4);
    want(lent.toks, scratch, finds, kind::STRING_LIT, s5)
}

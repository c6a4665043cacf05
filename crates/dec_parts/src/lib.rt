// The parts of dec.rs that start and end a declaration, and hold no expression, structure or signature.
#![tactic(auto)]

ghost use Rattle.std.specs.Prelude.{◌<◌};
ghost use Rattle.grammar.specs.Dec as decl;
ghost use Rattle.parser.specs.View.{Sound, mem_of, err_of, out_state, out_val};
ghost use Rattle.parser.specs.Runs.{Runs, RunsIn};

use parser::finding::{ErrorKind, Expected};
use parser::node::Node;
use parser::{
    Found, InfixErr, Lent, State, at, bump, close, close_node, either, kind, report_error,
};
use pat::{pat_must, pat_prec};
use pat_prec::PatPrec;
use ty_parts::ty_var_seq;
use util::{path_must, want};

// The least pattern: `pat` of pat.rs.
const ANY: PatPrec = PatPrec::Min;

// `val` or `fun`, and the type variables behind it.
pub fn bump_vars(
    lent: Lent,
    table: &[u8],
    scratch: &mut [u8],
    finds: &mut [u8],
    left: usize,
    s: State,
) -> State
    requires { Sound (mem_of lent table.now scratch.old finds.old s) }
    ensures { Runs left decl.bump_vars (mem_of lent.entry table.now scratch.old finds.old s) (mem_of lent.entry table.now scratch.new finds.new result) 0 }
{
    let s1 = bump(lent.toks, scratch, s);
    let vars = ty_var_seq(lent, table, scratch, finds, left, s1);
    either(vars)
}

// The start of a functor application.
pub fn app_start(
    lent: Lent,
    table: &[u8],
    scratch: &mut [u8],
    finds: &mut [u8],
    left: usize,
    s: State,
) -> State
    requires { Sound (mem_of lent table.now scratch.old finds.old s) }
    ensures { Runs left decl.app_start (mem_of lent.entry table.now scratch.old finds.old s) (mem_of lent.entry table.now scratch.new finds.new result) 0 }
{
    let s1 = bump(lent.toks, scratch, s);
    want(lent.toks, scratch, finds, kind::LROUND, s1)
}

// Where something ends: the numbers of the token's kind and of the node's.
#[derive(Clone, Copy)]
pub struct Ending {
    pub end: u8,
    pub node: u8,
}

// The end of what ends at a token, and its node.
pub fn end_node(
    lent: Lent,
    table: &[u8],
    scratch: &mut [u8],
    finds: &mut [u8],
    left: usize,
    q: Ending,
    b: usize,
    s: State,
) -> State
    requires { Sound (mem_of lent table.now scratch.old finds.old s) × (b < 4294967296) × (q.end < 128) }
    ensures { RunsIn left b (decl.ended q.end q.node) (mem_of lent.entry table.now scratch.old finds.old s) (mem_of lent.entry table.now scratch.new finds.new result) 1 }
{
    let s1 = want(lent.toks, scratch, finds, q.end, s);
    close(scratch, q.node, b, s1)
}

// A structure that is a path.
pub fn str_path(
    lent: Lent,
    table: &[u8],
    scratch: &mut [u8],
    finds: &mut [u8],
    left: usize,
    b: usize,
    s: State,
) -> Found
    requires { Sound (mem_of lent table.now scratch.old finds.old s) × (b < 4294967296) }
    ensures { RunsIn left b decl.str_path (mem_of lent.entry table.now scratch.old finds.old s) (mem_of lent.entry table.now scratch.new finds.new (out_state result)) (out_val result) }
{
    let got = path_must(lent, table, scratch, finds, left, s);
    let s1 = either(got);
    Ok(close_node(scratch, Node::PathStrExp, b, s1))
}

// Behind `val`: a pattern, or `rec` and a pattern.
pub fn rec_pat(
    lent: Lent,
    table: &[u8],
    scratch: &mut [u8],
    finds: &mut [u8],
    left: usize,
    e: InfixErr,
    s: State,
) -> Found
    requires { Sound (mem_of lent table.now scratch.old finds.old s) }
    ensures { Runs left (decl.rec_pat (err_of e)) (mem_of lent.entry table.now scratch.old finds.old s) (mem_of lent.entry table.now scratch.new finds.new (out_state result)) (out_val result) }
{
    if at(lent.toks, kind::REC_KW, s) {
        let s1 = bump(lent.toks, scratch, s);
        let s2 = pat_must(lent, table, scratch, finds, left, ANY, e, s1);
        return Ok(s2);
    }
    let got = pat_prec(lent, table, scratch, finds, left, ANY, e, s);
    match got {
        Ok(s1) => Ok(s1),
        Err(s1) => Err(report_error(finds, ErrorKind::Expected(Expected::Pat), s1)),
    }
}

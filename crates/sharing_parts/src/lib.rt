// The tails of declarations: sharing, and the node that stands also where there are none. dec.rs.
// Its loops over turns are the source's closures over the parser: one small loop per use (document 01).
#![tactic(auto)]

ghost use Rattle.std.specs.Prelude.{true, ◌<◌};
ghost use Rattle.grammar.specs.Prog.{Prog};
ghost use Rattle.grammar.specs.Util as util;
ghost use Rattle.grammar.specs.Dec as decl;
ghost use Rattle.grammar.specs.SyntaxKind as SK;
ghost use Rattle.parser.specs.View.{Sound, mem_of, out_state, out_val};
ghost use Rattle.parser.specs.Runs.{Runs, RunsIn};

use parser::node::Node;
use parser::refusal::Refusal;
use parser::{Found, Lent, State, at, bump, close_node, either, kind};
use util::{bump_if, path_must};

// Paths, between `=`.
// unfolds: util.many_turn
// advances: many_turn_advances true SK.Eq SK.PathEq util.path_must
fn path_eqs(
    lent: Lent,
    table: &[u8],
    scratch: &mut [u8],
    finds: &mut [u8],
    left: usize,
    b: usize,
    s: State,
) -> State
    requires { Sound (mem_of lent table.now scratch.old finds.old s) }
    ensures { RunsIn left b (Prog.loop (util.many_turn {g = true} SK.Eq SK.PathEq (util.path_must {g = true}))) (mem_of lent.entry table.now scratch.old finds.old s) (mem_of lent.entry table.now scratch.new finds.new result) 0 }
{
    let mut s1 = s;
    loop {
        if left == 0 {
            return s1.refuse_for(Refusal::TooDeep);
        }
        let s2 = s1.mark();
        let c = s2.len;
        let item = path_must(lent, table, scratch, finds, left - 1, s2);
        match item {
            Err(s3) => return s3,
            Ok(s3) => {
                if at(lent.toks, kind::EQ, s3) {
                    let s4 = bump(lent.toks, scratch, s3);
                    s1 = close_node(scratch, Node::PathEq, c, s4);
                    continue;
                }
                return close_node(scratch, Node::PathEq, c, s3);
            }
        }
    }
}

// A sharing tail, where one is next.
// unfolds: util.many_sep
fn sharing_turn(
    lent: Lent,
    table: &[u8],
    scratch: &mut [u8],
    finds: &mut [u8],
    left: usize,
    s: State,
) -> Found
    requires { Sound (mem_of lent table.now scratch.old finds.old s) }
    ensures { Runs left (decl.sharing_turn {g = true}) (mem_of lent.entry table.now scratch.old finds.old s) (mem_of lent.entry table.now scratch.new finds.new (out_state result)) (out_val result) }
{
    if at(lent.toks, kind::SHARING_KW, s) {
        if left == 0 {
            return Ok(s.refuse_for(Refusal::TooDeep));
        }
        let s1 = s.mark();
        let b = s1.len;
        let s2 = bump(lent.toks, scratch, s1);
        let s3 = bump_if(lent.toks, scratch, kind::TYPE_KW, s2);
        let s4 = path_eqs(lent, table, scratch, finds, left - 1, b, s3);
        return Ok(close_node(scratch, Node::SharingTail, b, s4));
    }
    Err(s)
}

// Sharing tails.
// advances: sharing_advances true
fn sharing_tails(
    lent: Lent,
    table: &[u8],
    scratch: &mut [u8],
    finds: &mut [u8],
    left: usize,
    b: usize,
    s: State,
) -> State
    requires { Sound (mem_of lent table.now scratch.old finds.old s) }
    ensures { RunsIn left b (Prog.loop (decl.sharing_turn {g = true})) (mem_of lent.entry table.now scratch.old finds.old s) (mem_of lent.entry table.now scratch.new finds.new result) 0 }
{
    let mut s1 = s;
    loop {
        let turn = sharing_turn(lent, table, scratch, finds, left, s1);
        match turn {
            Ok(s2) => s1 = s2,
            Err(s2) => return s2,
        }
    }
}

// The sharing tails, where one is next.
fn sharings(
    lent: Lent,
    table: &[u8],
    scratch: &mut [u8],
    finds: &mut [u8],
    left: usize,
    b: usize,
    s: State,
) -> Found
    requires { Sound (mem_of lent table.now scratch.old finds.old s) }
    ensures { RunsIn left b (decl.sharings {g = true}) (mem_of lent.entry table.now scratch.old finds.old s) (mem_of lent.entry table.now scratch.new finds.new (out_state result)) (out_val result) }
{
    if at(lent.toks, kind::SHARING_KW, s) {
        let s1 = sharing_tails(lent, table, scratch, finds, left, b, s);
        return Ok(s1);
    }
    Err(s)
}

// The end of declarations where none came. Their node stands also where it is empty.
pub fn bare_tail(
    lent: Lent,
    table: &[u8],
    scratch: &mut [u8],
    finds: &mut [u8],
    left: usize,
    b: usize,
    s: State,
) -> Found
    requires { Sound (mem_of lent table.now scratch.old finds.old s) × (b < 4294967296) }
    ensures { RunsIn left b (decl.bare_tail {g = true}) (mem_of lent.entry table.now scratch.old finds.old s) (mem_of lent.entry table.now scratch.new finds.new (out_state result)) (out_val result) }
{
    let more = sharings(lent, table, scratch, finds, left, b, s);
    match more {
        Ok(s1) => Ok(close_node(scratch, Node::DecWithTail, b, s1)),
        Err(s1) => Err(close_node(scratch, Node::DecWithTail, b, s1)),
    }
}

// The end of `dec_with_tail` behind declarations.
pub fn full_tail(
    lent: Lent,
    table: &[u8],
    scratch: &mut [u8],
    finds: &mut [u8],
    left: usize,
    b: usize,
    s: State,
) -> State
    requires { Sound (mem_of lent table.now scratch.old finds.old s) × (b < 4294967296) }
    ensures { RunsIn left b (decl.full_tail {g = true}) (mem_of lent.entry table.now scratch.old finds.old s) (mem_of lent.entry table.now scratch.new finds.new result) 1 }
{
    let more = sharings(lent, table, scratch, finds, left, b, s);
    let s1 = either(more);
    close_node(scratch, Node::DecWithTail, b, s1)
}

// The left side of a function's case: dec.rs.
// Its loops over turns are the source's closures over the parser: one small loop per use (document 01).
#![tactic(auto)]

ghost use Rattle.std.specs.Prelude.{true, ◌<◌};
ghost use Rattle.grammar.specs.Prog.{Prog};
ghost use Rattle.grammar.specs.Pat as pats;
ghost use Rattle.grammar.specs.Dec as decl;
ghost use Rattle.parser.specs.View.{Sound, mem_of, err_of, out_state, out_val};
ghost use Rattle.parser.specs.Runs.{Runs, RunsIn};

use head_parts::{infix_name, prefix_name, prefix_op};
use parser::node::Node;
use parser::refusal::Refusal;
use parser::{Found, InfixErr, Lent, State, bump, close_node, kind, peek};
use pat::{at_must, at_pat};
use util::want;

// `infix_fun_bind_case_head_inner`: a pattern, a name and a pattern.
fn infix_head(
    lent: Lent,
    table: &[u8],
    scratch: &mut [u8],
    finds: &mut [u8],
    left: usize,
    e: InfixErr,
    s: State,
) -> State
    requires { Sound (mem_of lent table.now scratch.old finds.old s) }
    ensures { Runs left (decl.infix_head {g = true} (err_of e)) (mem_of lent.entry table.now scratch.old finds.old s) (mem_of lent.entry table.now scratch.new finds.new result) 0 }
{
    let s1 = at_must(lent, table, scratch, finds, left, e, s);
    let s2 = infix_name(lent, table, scratch, finds, s1);
    at_must(lent, table, scratch, finds, left, e, s2)
}

// A head that is not infix without parentheses, to the end of its node.
fn other_head(
    lent: Lent,
    table: &[u8],
    scratch: &mut [u8],
    finds: &mut [u8],
    left: usize,
    e: InfixErr,
    b: usize,
    s: State,
) -> State
    requires { Sound (mem_of lent table.now scratch.old finds.old s) × (b < 4294967296) }
    ensures { RunsIn left b (decl.other_head {g = true} (err_of e)) (mem_of lent.entry table.now scratch.old finds.old s) (mem_of lent.entry table.now scratch.new finds.new result) 0 }
{
    let Some(k) = peek(lent.toks, s) else {
        let s1 = prefix_name(lent, table, scratch, finds, s);
        return close_node(scratch, Node::PrefixFunBindCaseHead, b, s1);
    };
    if k == kind::LROUND {
        let s1 = bump(lent.toks, scratch, s);
        let s2 = infix_head(lent, table, scratch, finds, left, e, s1);
        let s3 = want(lent.toks, scratch, finds, kind::RROUND, s2);
        return close_node(scratch, Node::InfixFunBindCaseHead, b, s3);
    }
    if k == kind::OP_KW {
        let s1 = prefix_op(lent, table, scratch, finds, s);
        return close_node(scratch, Node::PrefixFunBindCaseHead, b, s1);
    }
    let s1 = prefix_name(lent, table, scratch, finds, s);
    close_node(scratch, Node::PrefixFunBindCaseHead, b, s1)
}

// The head of a case of a function: infix, unless that gave a finding and is taken back.
fn fun_head(
    lent: Lent,
    table: &[u8],
    scratch: &mut [u8],
    finds: &mut [u8],
    left: usize,
    e: InfixErr,
    b: usize,
    s: State,
) -> Found
    requires { Sound (mem_of lent table.now scratch.old finds.old s) × (b < 4294967296) }
    ensures { RunsIn left b (decl.fun_head {g = true} (err_of e)) (mem_of lent.entry table.now scratch.old finds.old s) (mem_of lent.entry table.now scratch.new finds.new (out_state result)) (out_val result) }
{
    let s1 = infix_head(lent, table, scratch, finds, left, e, s);
    let kept = s.ok_since(s1);
    match kept {
        Err(s2) => {
            let s3 = other_head(lent, table, scratch, finds, left, e, b, s2);
            Err(s3)
        }
        Ok(s2) => Ok(close_node(scratch, Node::InfixFunBindCaseHead, b, s2)),
    }
}

// The patterns behind a head.
// advances: at_pat_advances true _
fn at_pats(
    lent: Lent,
    table: &[u8],
    scratch: &mut [u8],
    finds: &mut [u8],
    left: usize,
    e: InfixErr,
    b: usize,
    s: State,
) -> State
    requires { Sound (mem_of lent table.now scratch.old finds.old s) }
    ensures { RunsIn left b (Prog.loop (pats.at_pat {g = true} (err_of e))) (mem_of lent.entry table.now scratch.old finds.old s) (mem_of lent.entry table.now scratch.new finds.new result) 0 }
{
    let mut s1 = s;
    loop {
        let turn = at_pat(lent, table, scratch, finds, left, e, s1);
        match turn {
            Ok(s2) => s1 = s2,
            Err(s2) => return s2,
        }
    }
}

// The left side of a case of a function.
pub fn fun_left(
    lent: Lent,
    table: &[u8],
    scratch: &mut [u8],
    finds: &mut [u8],
    left: usize,
    e: InfixErr,
    s: State,
) -> State
    requires { Sound (mem_of lent table.now scratch.old finds.old s) }
    ensures { Runs left (decl.fun_left (err_of e)) (mem_of lent.entry table.now scratch.old finds.old s) (mem_of lent.entry table.now scratch.new finds.new result) 0 }
{
    let b = s.len;
    if left == 0 {
        let s1 = s.refuse_for(Refusal::TooDeep);
        return at_pats(lent, table, scratch, finds, left, e, b, s1);
    }
    let s1 = s.mark();
    let c = s1.len;
    let head = fun_head(lent, table, scratch, finds, left - 1, e, c, s1);
    match head {
        Err(s2) => at_pats(lent, table, scratch, finds, left, e, b, s2),
        Ok(s2) => s2,
    }
}

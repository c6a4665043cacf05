// The part of dec.rs behind a signature: `where`.
// Its loops over turns are the source's closures over the parser: one small loop per use (document 01).
#![tactic(auto)]

ghost use Rattle.std.specs.Prelude.{◌≡◌, true, suc, ◌<◌};
ghost use Rattle.grammar.specs.Prog.{Prog};
ghost use Rattle.grammar.specs.Dec as decl;
ghost use Rattle.parser.specs.View.{Sound, mem_of};
ghost use Rattle.parser.specs.Runs.{RunsIn};

use parser::node::Node;
use parser::refusal::Refusal;
use parser::{Lent, State, at, bump, close_node, either, kind, peek};
use ty::ty_must;
use ty_parts::ty_var_seq;
use ty_prec::TyPrec;
use util::{path_must, want};

// What is behind `where`, to the end of its node.
fn where_tail(
    lent: Lent,
    table: &[u8],
    scratch: &mut [u8],
    finds: &mut [u8],
    left: usize,
    b: usize,
    s: State,
) -> State
    requires { Sound (mem_of lent table.now scratch.old finds.old s) × (b < 4294967296) }
    ensures { RunsIn left b decl.where_tail (mem_of lent.entry table.now scratch.old finds.old s) (mem_of lent.entry table.now scratch.new finds.new result) 0 }
{
    if at(lent.toks, kind::TYPE_KW, s) {
        let s1 = bump(lent.toks, scratch, s);
        let vars = ty_var_seq(lent, table, scratch, finds, left, s1);
        let s2 = either(vars);
        let name = path_must(lent, table, scratch, finds, left, s2);
        let s3 = either(name);
        let s4 = want(lent.toks, scratch, finds, kind::EQ, s3);
        let s5 = ty_must(lent, table, scratch, finds, left, TyPrec::Arrow, s4);
        return close_node(scratch, Node::WhereTypeSigExp, b, s5);
    }
    let name = path_must(lent, table, scratch, finds, left, s);
    let s1 = either(name);
    let s2 = want(lent.toks, scratch, finds, kind::EQ, s1);
    let same = path_must(lent, table, scratch, finds, left, s2);
    let s3 = either(same);
    close_node(scratch, Node::WhereSigExp, b, s3)
}

// The kinds that `where` goes on at.
fn where_and(k: u8) -> bool
    ensures { result ≡ decl.is_where_and (suc k) }
{
    matches!(k, kind::WHERE_KW | kind::AND_KW)
}

// What is behind a signature that started at `b`, between `where` and `and`.
// unfolds: decl.sig_step
// advances: sig_step_advances
fn where_tails(
    lent: Lent,
    table: &[u8],
    scratch: &mut [u8],
    finds: &mut [u8],
    left: usize,
    b: usize,
    s: State,
) -> State
    requires { Sound (mem_of lent table.now scratch.old finds.old s) × (b < 4294967296) }
    ensures { RunsIn left b (Prog.loop decl.sig_step) (mem_of lent.entry table.now scratch.old finds.old s) (mem_of lent.entry table.now scratch.new finds.new result) 0 }
{
    let mut s1 = s;
    loop {
        let Some(k) = peek(lent.toks, s1) else {
            return s1;
        };
        if where_and(k) {
            if left == 0 {
                s1 = s1.refuse_for(Refusal::TooDeep);
                continue;
            }
            let s2 = s1.mark();
            let s3 = bump(lent.toks, scratch, s2);
            s1 = where_tail(lent, table, scratch, finds, left - 1, b, s3);
            continue;
        }
        return s1;
    }
}

// The same, where `where` is next.
pub fn wheres(
    lent: Lent,
    table: &[u8],
    scratch: &mut [u8],
    finds: &mut [u8],
    left: usize,
    b: usize,
    s: State,
) -> State
    requires { Sound (mem_of lent table.now scratch.old finds.old s) × (b < 4294967296) }
    ensures { RunsIn left b decl.wheres (mem_of lent.entry table.now scratch.old finds.old s) (mem_of lent.entry table.now scratch.new finds.new result) 0 }
{
    if at(lent.toks, kind::WHERE_KW, s) {
        return where_tails(lent, table, scratch, finds, left, b, s);
    }
    s
}

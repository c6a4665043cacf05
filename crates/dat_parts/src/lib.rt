// `datatype`, and the head of `abstype`: dec.rs.
#![tactic(auto)]

ghost use Rattle.std.specs.Prelude.{◌<◌};
ghost use Rattle.grammar.specs.Dec as decl;
ghost use Rattle.parser.specs.View.{Sound, mem_of, out_state, out_val};
ghost use Rattle.parser.specs.Runs.{RunsIn};

use bind_parts::dat_binds;
use parser::node::Node;
use parser::{Found, Lent, State, at_n, bump, close_node, either, kind};
use util::{path_must, want};

// `abstype`, up to its declarations.
pub fn abs_head(
    lent: Lent,
    table: &[u8],
    scratch: &mut [u8],
    finds: &mut [u8],
    left: usize,
    b: usize,
    s: State,
) -> State
    requires { Sound (mem_of lent table.now scratch.old finds.old s) }
    ensures { RunsIn left b decl.abstype_head (mem_of lent.entry table.now scratch.old finds.old s) (mem_of lent.entry table.now scratch.new finds.new result) 0 }
{
    let s1 = bump(lent.toks, scratch, s);
    let s2 = dat_binds(lent, table, scratch, finds, left, b, s1);
    want(lent.toks, scratch, finds, kind::WITH_KW, s2)
}

// `datatype`: a copy of one, or datatypes.
pub fn datatype(
    lent: Lent,
    table: &[u8],
    scratch: &mut [u8],
    finds: &mut [u8],
    left: usize,
    b: usize,
    s: State,
) -> Found
    requires { Sound (mem_of lent table.now scratch.old finds.old s) × (b < 4294967296) }
    ensures { RunsIn left b decl.datatype (mem_of lent.entry table.now scratch.old finds.old s) (mem_of lent.entry table.now scratch.new finds.new (out_state result)) (out_val result) }
{
    let s1 = bump(lent.toks, scratch, s);
    if at_n(lent.toks, 2, kind::DATATYPE_KW, s1) {
        let s2 = want(lent.toks, scratch, finds, kind::NAME, s1);
        let s3 = want(lent.toks, scratch, finds, kind::EQ, s2);
        let s4 = want(lent.toks, scratch, finds, kind::DATATYPE_KW, s3);
        let got = path_must(lent, table, scratch, finds, left, s4);
        let s5 = either(got);
        return Ok(close_node(scratch, Node::DatCopyDec, b, s5));
    }
    let s2 = dat_binds(lent, table, scratch, finds, left, b, s1);
    Ok(close_node(scratch, Node::DatDec, b, s2))
}

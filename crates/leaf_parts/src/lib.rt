// The declarations that hold no expression, structure or signature: dec.rs.
// Its loops over turns are the source's closures over the parser: one small loop per use (document 01).
#![tactic(auto)]

ghost use Rattle.std.specs.Prelude.{◌≡◌, true, suc, ◌<◌};
ghost use Rattle.grammar.specs.Prog.{Prog};
ghost use Rattle.grammar.specs.Util as util;
ghost use Rattle.grammar.specs.Dec as decl;
ghost use Rattle.parser.specs.View.{Sound, mem_of, out_state, out_val};
ghost use Rattle.parser.specs.Runs.{RunsIn};

use bind_parts::ty_binds;
use dat_parts::datatype;
use fix_parts::{infix_dec, infixr_dec, nonfix_dec};
use import_parts::es_import;
use parser::node::Node;
use parser::{Found, Lent, State, bump, close_node, kind};
use util::path;

// The paths behind `open`.
// advances: path_advances true
fn opens(
    lent: Lent,
    table: &[u8],
    scratch: &mut [u8],
    finds: &mut [u8],
    left: usize,
    b: usize,
    s: State,
) -> State
    requires { Sound (mem_of lent table.now scratch.old finds.old s) }
    ensures { RunsIn left b (Prog.loop (util.path {g = true})) (mem_of lent.entry table.now scratch.old finds.old s) (mem_of lent.entry table.now scratch.new finds.new result) 0 }
{
    let mut s1 = s;
    loop {
        let turn = path(lent, table, scratch, finds, left, s1);
        match turn {
            Ok(s2) => s1 = s2,
            Err(s2) => return s2,
        }
    }
}

// The keywords of types.
fn type_kw(k: u8) -> bool
    ensures { result ≡ decl.is_type_kw (suc k) }
{
    matches!(k, kind::TYPE_KW | kind::EQTYPE_KW)
}

// The declarations that change fixities, and imports.
fn fix_dec(
    lent: Lent,
    table: &mut [u8; 8192],
    scratch: &mut [u8],
    finds: &mut [u8],
    left: usize,
    k: u8,
    b: usize,
    s: State,
) -> Found
    requires { Sound (mem_of lent table.old scratch.old finds.old s) × (b < 4294967296) }
    ensures { RunsIn left b (decl.fix_dec (suc k)) (mem_of lent.entry table.old scratch.old finds.old s) (mem_of lent.entry table.new scratch.new finds.new (out_state result)) (out_val result) }
{
    if k == kind::INFIX_KW {
        return infix_dec(lent, table, scratch, finds, left, b, s);
    }
    if k == kind::INFIXR_KW {
        return infixr_dec(lent, table, scratch, finds, left, b, s);
    }
    if k == kind::NONFIX_KW {
        return nonfix_dec(lent, table, scratch, finds, left, b, s);
    }
    if k == kind::ESIMPORT_KW {
        let s1 = es_import(lent, table, scratch, finds, left, s);
        return Ok(close_node(scratch, Node::EsImportDec, b, s1));
    }
    Err(s)
}

// The declarations that hold no expression, structure or signature, the kind k being next.
// unfolds: util.many_sep
pub fn leaf_dec(
    lent: Lent,
    table: &mut [u8; 8192],
    scratch: &mut [u8],
    finds: &mut [u8],
    left: usize,
    k: u8,
    b: usize,
    s: State,
) -> Found
    requires { Sound (mem_of lent table.old scratch.old finds.old s) × (b < 4294967296) }
    ensures { RunsIn left b (decl.leaf_dec (suc k)) (mem_of lent.entry table.old scratch.old finds.old s) (mem_of lent.entry table.new scratch.new finds.new (out_state result)) (out_val result) }
{
    if k == kind::DOT_DOT_DOT {
        let s1 = bump(lent.toks, scratch, s);
        return Ok(close_node(scratch, Node::HoleDec, b, s1));
    }
    if type_kw(k) {
        let s1 = bump(lent.toks, scratch, s);
        let s2 = ty_binds(lent, table, scratch, finds, left, b, s1);
        return Ok(close_node(scratch, Node::TyDec, b, s2));
    }
    if k == kind::DATATYPE_KW {
        return datatype(lent, table, scratch, finds, left, b, s);
    }
    if k == kind::OPEN_KW {
        let s1 = bump(lent.toks, scratch, s);
        let s2 = opens(lent, table, scratch, finds, left, b, s1);
        return Ok(close_node(scratch, Node::OpenDec, b, s2));
    }
    fix_dec(lent, table, scratch, finds, left, k, b, s)
}

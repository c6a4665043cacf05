// A whole file: root.rs. Its loop over turns is its own: one small loop per use (document 01).
ghost use Rattle.std.specs.Prelude.{◌≡◌, ℕ, suc};
ghost use Rattle.grammar.specs.Prog.{Prog};
ghost use Rattle.grammar.specs.Root as root_def;
ghost use Rattle.parser.specs.View.{Sound, mem_of, out_state, out_val};
ghost use Rattle.parser.specs.Runs.{Runs, RunsIn};

use exp_dec::dec;
use parser::finding::{ErrorKind, Expected};
use parser::node::Node;
use parser::refusal::Refusal;
use parser::{Found, InfixErr, Lent, State, bump, close_node, kind, peek, report_error};

// The kinds of closing delimiters.
fn is_closer(k: u8) -> bool
    ensures { result ≡ root_def.is_closer (suc k) }
{
    matches!(
        k,
        kind::RROUND | kind::RCURLY | kind::RSQUARE | kind::END_KW
    )
}

// Declarations, or one token that starts none.
fn root_turn(
    lent: Lent,
    table: &mut [u8; 8192],
    scratch: &mut [u8],
    finds: &mut [u8],
    left: usize,
    s: State,
) -> Found
    requires { Sound (mem_of lent table.old scratch.old finds.old s) }
    ensures { Runs left root_def.root_turn (mem_of lent.entry table.old scratch.old finds.old s) (mem_of lent.entry table.new scratch.new finds.new (out_state result)) (out_val result) }
{
    let Some(k) = peek(lent.toks, s) else {
        return Err(s);
    };
    let got = dec(lent, table, scratch, finds, left, InfixErr::Yes, s);
    match got {
        Ok(s1) => Ok(s1),
        Err(s1) => {
            if is_closer(k) {
                let s2 = report_error(finds, ErrorKind::UnmatchedClosingDelimiter, s1);
                return Ok(bump(lent.toks, scratch, s2));
            }
            let s2 = report_error(finds, ErrorKind::Expected(Expected::Item), s1);
            Ok(bump(lent.toks, scratch, s2))
        }
    }
}

// All that the file holds.
// advances: root_turn_advances
fn root_turns(
    lent: Lent,
    table: &mut [u8; 8192],
    scratch: &mut [u8],
    finds: &mut [u8],
    left: usize,
    b: usize,
    s: State,
) -> State
    requires { Sound (mem_of lent table.old scratch.old finds.old s) }
    ensures { RunsIn left b (Prog.loop root_def.root_turn) (mem_of lent.entry table.old scratch.old finds.old s) (mem_of lent.entry table.new scratch.new finds.new result) 0 }
{
    let mut s1 = s;
    loop {
        let turn = root_turn(lent, table, scratch, finds, left, s1);
        match turn {
            Ok(s2) => s1 = s2,
            Err(s2) => return s2,
        }
    }
}

// A whole file, as one node.
pub fn root(
    lent: Lent,
    table: &mut [u8; 8192],
    scratch: &mut [u8],
    finds: &mut [u8],
    left: usize,
    s: State,
) -> State
    requires { Sound (mem_of lent table.old scratch.old finds.old s) }
    ensures { Runs left root_def.root (mem_of lent.entry table.old scratch.old finds.old s) (mem_of lent.entry table.new scratch.new finds.new result) 0 }
{
    if left == 0 {
        return s.refuse_for(Refusal::TooDeep);
    }
    let s1 = s.mark();
    let b = s1.len;
    let s2 = root_turns(lent, table, scratch, finds, left - 1, b, s1);
    close_node(scratch, Node::Root, b, s2)
}

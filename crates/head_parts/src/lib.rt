// The names in the head of a function: dec.rs.
#![tactic(auto)]

ghost use Rattle.std.specs.Prelude.{true};
ghost use Rattle.grammar.specs.Dec as decl;
ghost use Rattle.parser.specs.View.{Sound, mem_of};
ghost use Rattle.parser.specs.Runs.{Always};

use parser::finding::{ErrorKind, Expected};
use parser::{Lent, State, bump, index, kind, peek, peek_n, report_error};
use texts::fixity_at;
use util::name_star;

// The name of an infix head.
pub fn infix_name(lent: Lent, table: &[u8], scratch: &mut [u8], finds: &mut [u8], s: State) -> State
    requires { Sound (mem_of lent table.now scratch.old finds.old s) }
    ensures { Always (decl.infix_name {g = true}) (mem_of lent.entry table.now scratch.old finds.old s) (mem_of lent.entry table.now scratch.new finds.new result) 0 }
{
    let Some(k) = peek(lent.toks, s) else {
        return report_error(finds, ErrorKind::Expected(Expected::Kind(kind::NAME)), s);
    };
    if name_star(k) {
        let fix = fixity_at(lent, table, 0, s);
        match fix {
            None => {
                let i = index(s);
                let s1 = bump(lent.toks, scratch, s);
                return report_error(finds, ErrorKind::NotInfix(i), s1);
            }
            Some(_) => return bump(lent.toks, scratch, s),
        }
    }
    report_error(finds, ErrorKind::Expected(Expected::Kind(kind::NAME)), s)
}

// `op` and the name of a prefix head.
pub fn prefix_op(lent: Lent, table: &[u8], scratch: &mut [u8], finds: &mut [u8], s: State) -> State
    requires { Sound (mem_of lent table.now scratch.old finds.old s) }
    ensures { Always (decl.prefix_op {g = true}) (mem_of lent.entry table.now scratch.old finds.old s) (mem_of lent.entry table.now scratch.new finds.new result) 0 }
{
    let Some(k) = peek_n(lent.toks, 1, s) else {
        let s1 = bump(lent.toks, scratch, s);
        return report_error(finds, ErrorKind::Expected(Expected::Kind(kind::NAME)), s1);
    };
    if name_star(k) {
        let fix = fixity_at(lent, table, 1, s);
        match fix {
            None => {
                let s1 = report_error(finds, ErrorKind::UnnecessaryOp, s);
                let s2 = bump(lent.toks, scratch, s1);
                return bump(lent.toks, scratch, s2);
            }
            Some(_) => {
                let s1 = bump(lent.toks, scratch, s);
                return bump(lent.toks, scratch, s1);
            }
        }
    }
    let s1 = bump(lent.toks, scratch, s);
    report_error(finds, ErrorKind::Expected(Expected::Kind(kind::NAME)), s1)
}

// The name of a prefix head without `op`.
pub fn prefix_name(
    lent: Lent,
    table: &[u8],
    scratch: &mut [u8],
    finds: &mut [u8],
    s: State,
) -> State
    requires { Sound (mem_of lent table.now scratch.old finds.old s) }
    ensures { Always (decl.prefix_name {g = true}) (mem_of lent.entry table.now scratch.old finds.old s) (mem_of lent.entry table.now scratch.new finds.new result) 0 }
{
    let Some(k) = peek(lent.toks, s) else {
        return report_error(finds, ErrorKind::Expected(Expected::Kind(kind::NAME)), s);
    };
    if name_star(k) {
        let fix = fixity_at(lent, table, 0, s);
        match fix {
            None => return bump(lent.toks, scratch, s),
            Some(_) => {
                let i = index(s);
                let s1 = report_error(finds, ErrorKind::InfixWithoutOp(i), s);
                return bump(lent.toks, scratch, s1);
            }
        }
    }
    report_error(finds, ErrorKind::Expected(Expected::Kind(kind::NAME)), s)
}

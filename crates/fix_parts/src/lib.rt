// The parts of dec.rs about fixities: infix, infixr and nonfix, and their number.
// Its loops over turns are the source's closures over the parser: one small loop per use (document 01).
#![tactic(auto)]

ghost use Rattle.std.specs.Prelude.{◌≡◌, ◌<◌};
ghost use Rattle.grammar.specs.Prog.{Prog};
ghost use Rattle.grammar.specs.Dec as decl;
ghost use Rattle.sml_fixity.specs.Fix.{fixity_of};
ghost use Rattle.parser.specs.View.{Sound, mem_of, out_state, out_val};
ghost use Rattle.parser.specs.Runs.{Always, RunsIn};

use parser::finding::{ErrorKind, Expected};
use parser::node::Node;
use parser::{Found, Lent, State, bump, close_node, kind, mode, peek, report_error};
use sml_fixity::{Assoc, Infix};
use texts::{NumberErr, number_at, take_as};
use util::name_star_eq;

// The mode in which a large fixity number is reported, and the largest that is not.
const STRICT: usize = 2;

const LARGEST: u16 = 9;

// The number of a fixity declaration, and the state behind it.
#[derive(Clone, Copy)]
pub struct Numbered {
    pub num: u16,
    pub state: State,
}

// Whether strict mode reports a number.
fn is_large(m: usize, n: u16) -> bool
    ensures { result ≡ decl.is_large m n }
{
    m == STRICT && LARGEST < n
}

// Strict mode's finding at a large number.
fn large_fixity(
    lent: Lent,
    table: &[u8],
    scratch: &mut [u8],
    finds: &mut [u8],
    n: u16,
    s: State,
) -> State
    requires { Sound (mem_of lent table.now scratch.old finds.old s) }
    ensures { Always (decl.large_fixity n) (mem_of lent.entry table.now scratch.old finds.old s) (mem_of lent.entry table.now scratch.new finds.new result) 0 }
{
    let m = mode(lent.toks, s);
    if is_large(m, n) {
        return report_error(finds, ErrorKind::LargeFixity, s);
    }
    s
}

// The number of a fixity declaration, where one is there.
fn fixity_number(
    lent: Lent,
    table: &[u8],
    scratch: &mut [u8],
    finds: &mut [u8],
    s: State,
) -> Numbered
    requires { Sound (mem_of lent table.now scratch.old finds.old s) }
    ensures { Always decl.fixity_number (mem_of lent.entry table.now scratch.old finds.old s) (mem_of lent.entry table.now scratch.new finds.new result.state) result.num }
{
    match number_at(lent.text, lent.toks, s) {
        Err(NumberErr::Negative) => {
            let s1 = report_error(finds, ErrorKind::NegativeFixity, s);
            let s2 = bump(lent.toks, scratch, s1);
            Numbered { num: 0, state: s2 }
        }
        Err(NumberErr::Invalid) => {
            let s1 = report_error(finds, ErrorKind::InvalidFixity, s);
            let s2 = bump(lent.toks, scratch, s1);
            Numbered { num: 0, state: s2 }
        }
        Ok(n) => {
            let s1 = large_fixity(lent, table, scratch, finds, n, s);
            let s2 = bump(lent.toks, scratch, s1);
            Numbered { num: n, state: s2 }
        }
    }
}

// `fixity`: the number of a fixity declaration, or 0.
fn fixity(lent: Lent, table: &[u8], scratch: &mut [u8], finds: &mut [u8], s: State) -> Numbered
    requires { Sound (mem_of lent table.now scratch.old finds.old s) }
    ensures { Always decl.fixity (mem_of lent.entry table.now scratch.old finds.old s) (mem_of lent.entry table.now scratch.new finds.new result.state) result.num }
{
    let Some(k) = peek(lent.toks, s) else {
        let s1 = report_error(finds, ErrorKind::Expected(Expected::NameOrInt), s);
        return Numbered { num: 0, state: s1 };
    };
    if k == kind::INT_LIT {
        return fixity_number(lent, table, scratch, finds, s);
    }
    if name_star_eq(k) {
        return Numbered { num: 0, state: s };
    }
    let s1 = report_error(finds, ErrorKind::Expected(Expected::NameOrInt), s);
    Numbered { num: 0, state: s1 }
}

// `names_star_eq`: names that get a fixity, or lose it.
// unfolds: decl.names_turn
// advances: names_turn_advances _
fn names(
    lent: Lent,
    table: &mut [u8; 8192],
    scratch: &mut [u8],
    finds: &[u8],
    left: usize,
    f: Option<Infix>,
    b: usize,
    s: State,
) -> State
    requires { Sound (mem_of lent table.old scratch.old finds.now s) }
    ensures { RunsIn left b (Prog.loop (decl.names_turn (fixity_of f))) (mem_of lent.entry table.old scratch.old finds.now s) (mem_of lent.entry table.new scratch.new finds.now result) 0 }
{
    let mut s1 = s;
    loop {
        let Some(k) = peek(lent.toks, s1) else {
            return s1;
        };
        if name_star_eq(k) {
            s1 = take_as(lent, table, scratch, finds, f, s1);
            continue;
        }
        return s1;
    }
}

// `infix`, its number and its names. It and `infixr` are a program each in grammar; what they share is `fixity` and `names`.
pub fn infix_dec(
    lent: Lent,
    table: &mut [u8; 8192],
    scratch: &mut [u8],
    finds: &mut [u8],
    left: usize,
    b: usize,
    s: State,
) -> Found
    requires { Sound (mem_of lent table.old scratch.old finds.old s) × (b < 4294967296) }
    ensures { RunsIn left b decl.infix_dec (mem_of lent.entry table.old scratch.old finds.old s) (mem_of lent.entry table.new scratch.new finds.new (out_state result)) (out_val result) }
{
    let s1 = bump(lent.toks, scratch, s);
    let got = fixity(lent, table, scratch, finds, s1);
    let s2 = got.state;
    let f = Some(Infix {
        prec: got.num,
        assoc: Assoc::Left,
    });
    let s3 = names(lent, table, scratch, finds, left, f, b, s2);
    Ok(close_node(scratch, Node::InfixDec, b, s3))
}

// `infixr`, its number and its names.
pub fn infixr_dec(
    lent: Lent,
    table: &mut [u8; 8192],
    scratch: &mut [u8],
    finds: &mut [u8],
    left: usize,
    b: usize,
    s: State,
) -> Found
    requires { Sound (mem_of lent table.old scratch.old finds.old s) × (b < 4294967296) }
    ensures { RunsIn left b decl.infixr_dec (mem_of lent.entry table.old scratch.old finds.old s) (mem_of lent.entry table.new scratch.new finds.new (out_state result)) (out_val result) }
{
    let s1 = bump(lent.toks, scratch, s);
    let got = fixity(lent, table, scratch, finds, s1);
    let s2 = got.state;
    let f = Some(Infix {
        prec: got.num,
        assoc: Assoc::Right,
    });
    let s3 = names(lent, table, scratch, finds, left, f, b, s2);
    Ok(close_node(scratch, Node::InfixrDec, b, s3))
}

// `nonfix` and its names.
pub fn nonfix_dec(
    lent: Lent,
    table: &mut [u8; 8192],
    scratch: &mut [u8],
    finds: &mut [u8],
    left: usize,
    b: usize,
    s: State,
) -> Found
    requires { Sound (mem_of lent table.old scratch.old finds.old s) × (b < 4294967296) }
    ensures { RunsIn left b decl.nonfix_dec (mem_of lent.entry table.old scratch.old finds.old s) (mem_of lent.entry table.new scratch.new finds.new (out_state result)) (out_val result) }
{
    let s1 = bump(lent.toks, scratch, s);
    let f = None;
    let s2 = names(lent, table, scratch, finds, left, f, b, s1);
    Ok(close_node(scratch, Node::NonfixDec, b, s2))
}

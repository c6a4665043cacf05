// The parts of exp.rs that hold no expression: keywords, paths, the ends of parentheses.
#![tactic(auto)]

ghost use Rattle.std.specs.Prelude.{◌≡◌, suc, ◌<◌};
ghost use Rattle.grammar.specs.Exp as expr;
ghost use Rattle.parser.specs.View.{Sound, mem_of, out_state, out_val};
ghost use Rattle.parser.specs.Runs.{Always, Runs, RunsIn};
ghost use Rattle.exp_prec.specs.Prec.{prec_of};

use exp_prec::{ExpPrec, is_infix};
use parser::finding::{ErrorKind, Expected, ParensExpFlavor};
use parser::node::Node;
use parser::refusal::Refusal;
use parser::{Found, Lent, State, at, at_n, bump, close_node, either, kind, peek_n, report_error};
use pat_prec::s_con;
use util::{name_star_eq, path_infix, path_no_infix};

// The keywords that start an expression.
pub fn starts(k: u8) -> bool
    ensures { result ≡ expr.is_keyword (suc k) }
{
    matches!(
        k,
        kind::RAISE_KW | kind::IF_KW | kind::WHILE_KW | kind::CASE_KW | kind::FN_KW
    )
}

// The kinds that start an argument, names left aside.
pub fn starts_arg(k: u8) -> bool
    ensures { result ≡ expr.is_arg (suc k) }
{
    s_con(k)
        || matches!(
            k,
            kind::DOT_DOT_DOT
                | kind::UNDERSCORE
                | kind::OP_KW
                | kind::LCURLY
                | kind::HASH
                | kind::LROUND
                | kind::LSQUARE
                | kind::LET_KW
        )
}

// The finding that a keyword wants parentheses.
fn need_parens(
    lent: Lent,
    table: &[u8],
    scratch: &mut [u8],
    finds: &mut [u8],
    k: u8,
    s: State,
) -> State
    requires { Sound (mem_of lent table.now scratch.old finds.old s) }
    ensures { Always (expr.need_parens (suc k)) (mem_of lent.entry table.now scratch.old finds.old s) (mem_of lent.entry table.now scratch.new finds.new result) 0 }
{
    if k == kind::RAISE_KW {
        return report_error(
            finds,
            ErrorKind::NeedParensAroundExpHere(ParensExpFlavor::Raise),
            s,
        );
    }
    if k == kind::IF_KW {
        return report_error(
            finds,
            ErrorKind::NeedParensAroundExpHere(ParensExpFlavor::If),
            s,
        );
    }
    if k == kind::WHILE_KW {
        return report_error(
            finds,
            ErrorKind::NeedParensAroundExpHere(ParensExpFlavor::While),
            s,
        );
    }
    if k == kind::CASE_KW {
        return report_error(
            finds,
            ErrorKind::NeedParensAroundExpHere(ParensExpFlavor::Case),
            s,
        );
    }
    report_error(
        finds,
        ErrorKind::NeedParensAroundExpHere(ParensExpFlavor::Fn),
        s,
    )
}

// A keyword that starts an expression.
pub fn keyword(
    lent: Lent,
    table: &[u8],
    scratch: &mut [u8],
    finds: &mut [u8],
    k: u8,
    min: ExpPrec,
    s: State,
) -> State
    requires { Sound (mem_of lent table.now scratch.old finds.old s) }
    ensures { Always (expr.keyword (suc k) (prec_of min)) (mem_of lent.entry table.now scratch.old finds.old s) (mem_of lent.entry table.now scratch.new finds.new result) 0 }
{
    if is_infix(min) {
        let s1 = need_parens(lent, table, scratch, finds, k, s);
        return bump(lent.toks, scratch, s1);
    }
    bump(lent.toks, scratch, s)
}

// The end of parentheses around one expression.
pub fn paren_end(
    lent: Lent,
    table: &[u8],
    scratch: &mut [u8],
    finds: &mut [u8],
    left: usize,
    b: usize,
    s: State,
) -> Found
    requires { Sound (mem_of lent table.now scratch.old finds.old s) × (b < 4294967296) }
    ensures { RunsIn left b expr.paren_end (mem_of lent.entry table.now scratch.old finds.old s) (mem_of lent.entry table.now scratch.new finds.new (out_state result)) (out_val result) }
{
    if at(lent.toks, kind::RROUND, s) {
        let s1 = bump(lent.toks, scratch, s);
        return Ok(close_node(scratch, Node::ParenExp, b, s1));
    }
    let s1 = report_error(finds, ErrorKind::Expected(Expected::LRoundExpTail), s);
    Ok(close_node(scratch, Node::ParenExp, b, s1))
}

// The name in a record update.
fn update_path(
    lent: Lent,
    table: &[u8],
    scratch: &mut [u8],
    finds: &mut [u8],
    left: usize,
    s: State,
) -> State
    requires { Sound (mem_of lent table.now scratch.old finds.old s) }
    ensures { Runs left expr.update_path (mem_of lent.entry table.now scratch.old finds.old s) (mem_of lent.entry table.now scratch.new finds.new result) 0 }
{
    if left == 0 {
        return s.refuse_for(Refusal::TooDeep);
    }
    let s1 = s.mark();
    let b = s1.len;
    let got = path_no_infix(lent, table, scratch, finds, left - 1, s1);
    let s2 = either(got);
    close_node(scratch, Node::PathExp, b, s2)
}

// The start of a record update, where one is next.
fn record_update(
    lent: Lent,
    table: &[u8],
    scratch: &mut [u8],
    finds: &mut [u8],
    left: usize,
    s: State,
) -> State
    requires { Sound (mem_of lent table.now scratch.old finds.old s) }
    ensures { Runs left expr.record_update (mem_of lent.entry table.now scratch.old finds.old s) (mem_of lent.entry table.now scratch.new finds.new result) 0 }
{
    if at(lent.toks, kind::NAME, s) {
        if at_n(lent.toks, 1, kind::WHERE_KW, s) {
            if left == 0 {
                return s.refuse_for(Refusal::TooDeep);
            }
            let s1 = s.mark();
            let b = s1.len;
            let s2 = update_path(lent, table, scratch, finds, left - 1, s1);
            let s3 = bump(lent.toks, scratch, s2);
            return close_node(scratch, Node::RecordUpdate, b, s3);
        }
        return s;
    }
    s
}

// The start of a record, up to its rows.
pub fn record_start(
    lent: Lent,
    table: &[u8],
    scratch: &mut [u8],
    finds: &mut [u8],
    left: usize,
    s: State,
) -> State
    requires { Sound (mem_of lent table.now scratch.old finds.old s) }
    ensures { Runs left expr.record_start (mem_of lent.entry table.now scratch.old finds.old s) (mem_of lent.entry table.now scratch.new finds.new result) 0 }
{
    let s1 = bump(lent.toks, scratch, s);
    record_update(lent, table, scratch, finds, left, s1)
}

// An expression that starts with `op`.
fn op_exp(
    lent: Lent,
    table: &[u8],
    scratch: &mut [u8],
    finds: &mut [u8],
    left: usize,
    b: usize,
    s: State,
) -> Found
    requires { Sound (mem_of lent table.now scratch.old finds.old s) × (b < 4294967296) }
    ensures { RunsIn left b expr.op_exp (mem_of lent.entry table.now scratch.old finds.old s) (mem_of lent.entry table.now scratch.new finds.new (out_state result)) (out_val result) }
{
    let Some(k) = peek_n(lent.toks, 1, s) else {
        let got = path_infix(lent, table, scratch, finds, left, s);
        let s1 = either(got);
        return Ok(close_node(scratch, Node::PathExp, b, s1));
    };
    if k == kind::ANDALSO_KW {
        let s1 = bump(lent.toks, scratch, s);
        let s2 = bump(lent.toks, scratch, s1);
        return Ok(close_node(scratch, Node::OpAndalsoExp, b, s2));
    }
    if k == kind::ORELSE_KW {
        let s1 = bump(lent.toks, scratch, s);
        let s2 = bump(lent.toks, scratch, s1);
        return Ok(close_node(scratch, Node::OpOrelseExp, b, s2));
    }
    let got = path_infix(lent, table, scratch, finds, left, s);
    let s1 = either(got);
    Ok(close_node(scratch, Node::PathExp, b, s1))
}

// The atomic expressions that hold no others, the kind k being next.
pub fn leaf(
    lent: Lent,
    table: &[u8],
    scratch: &mut [u8],
    finds: &mut [u8],
    left: usize,
    k: u8,
    b: usize,
    s: State,
) -> Found
    requires { Sound (mem_of lent table.now scratch.old finds.old s) × (b < 4294967296) }
    ensures { RunsIn left b (expr.at_exp_leaf (suc k)) (mem_of lent.entry table.now scratch.old finds.old s) (mem_of lent.entry table.now scratch.new finds.new (out_state result)) (out_val result) }
{
    if k == kind::DOT_DOT_DOT {
        let s1 = bump(lent.toks, scratch, s);
        return Ok(close_node(scratch, Node::HoleExp, b, s1));
    }
    if k == kind::UNDERSCORE {
        let s1 = bump(lent.toks, scratch, s);
        return Ok(close_node(scratch, Node::WildcardExp, b, s1));
    }
    if s_con(k) {
        let s1 = bump(lent.toks, scratch, s);
        return Ok(close_node(scratch, Node::SConExp, b, s1));
    }
    if k == kind::OP_KW {
        return op_exp(lent, table, scratch, finds, left, b, s);
    }
    if name_star_eq(k) {
        let got = path_no_infix(lent, table, scratch, finds, left, s);
        let s1 = either(got);
        return Ok(close_node(scratch, Node::PathExp, b, s1));
    }
    Err(s)
}

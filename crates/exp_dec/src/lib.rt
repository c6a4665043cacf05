// Expressions and declarations: exp.rs and dec.rs, the functions that call one another.
// Its loops over turns are the source's closures over the parser: one small loop per use (document 01).
#![tactic(auto)]

ghost use Rattle.std.specs.Prelude.{◌≡◌, Bool, true, false, ℕ, suc, ◌+◌, ◌-◌, ◌*◌, ◌<◌};
ghost use Rattle.grammar.specs.Prog.{Prog};
ghost use Rattle.grammar.specs.Rule.{Rule};
ghost use Rattle.grammar.specs.Util as util;
ghost use Rattle.grammar.specs.Exp as expr;
ghost use Rattle.grammar.specs.Dec as decl;
ghost use Rattle.parser.specs.Nodes.{node_number};
ghost use Rattle.parser.specs.View.{Sound, mem_of, err_of, out_state, out_val};
ghost use Rattle.parser.specs.Runs.{Always, Runs, RunsIn};
ghost use Rattle.exp_prec.specs.Prec.{prec_of};

use bind_parts::op_name;
use dat_parts::abs_head;
use dec_parts::{Ending, app_start, bump_vars, end_node, rec_pat, str_path};
use exp_parts::{keyword, leaf, paren_end, record_start, starts, starts_arg};
use exp_prec::{ExpPrec, is_ascribed, is_handle, node_of, should_break_exp};
use fun_parts::fun_left;
use leaf_parts::leaf_dec;
use parser::finding::{ErrorKind, Expected};
use parser::node::Node;
use parser::refusal::Refusal;
use parser::{
    Found, InfixErr, Lent, State, at, at_n, bump, close_node, either, kind, peek, report_error,
};
use pat::pat_prec;
use pat_prec::PatPrec;
use scopes::leave_node;
use sharing_parts::{bare_tail, full_tail};
use texts::fixity_at;
use ty::{of_ty, ty_annotation, ty_must};
use ty_prec::TyPrec;
use util::{ascription, bump_ascription, bump_if, eat, lab, name_star_eq, want};
use where_parts::wheres;

// The names of the functions are short: the kit that they were written for named the folder of a cycle of calls by all its members.

// The least precedences: with them `pat_prec` and `exp_prec` of the source are its `pat` and `exp_opt`. And the operators that are no names.
const ANY: PatPrec = PatPrec::Min;

const MIN: ExpPrec = ExpPrec::Min;

const HDL: ExpPrec = ExpPrec::Handle;

const OR: ExpPrec = ExpPrec::Orelse;

const AND: ExpPrec = ExpPrec::Andalso;

const TYP: ExpPrec = ExpPrec::Ascription;

// Whether a pattern reports an infix name without `op`.
const NO: InfixErr = InfixErr::No;

const YES: InfixErr = InfixErr::Yes;

// The arguments of `end_sep`, and the node around it. The kind of what it wraps names the closure (document 01).
#[derive(Clone, Copy)]
pub struct EndSep {
    pub wrap: Node,
    pub sep: u8,
    pub end: u8,
    pub node: Node,
}

// Rows of a record, the elements of a list, expressions in parentheses, and those of a `let`.
const ROWS: EndSep = EndSep {
    wrap: Node::ExpRow,
    sep: kind::COMMA,
    end: kind::RCURLY,
    node: Node::RecordExp,
};

const LST: EndSep = EndSep {
    wrap: Node::ExpArg,
    sep: kind::COMMA,
    end: kind::RSQUARE,
    node: Node::ListExp,
};

const SEQS: EndSep = EndSep {
    wrap: Node::ExpInSeq,
    sep: kind::SEMICOLON,
    end: kind::RROUND,
    node: Node::SeqExp,
};

const TUPS: EndSep = EndSep {
    wrap: Node::ExpArg,
    sep: kind::COMMA,
    end: kind::RROUND,
    node: Node::TupleExp,
};

const INS: EndSep = EndSep {
    wrap: Node::ExpInSeq,
    sep: kind::SEMICOLON,
    end: kind::END_KW,
    node: Node::LetExp,
};

// The arguments of `many_sep`, and the node around it. The kind of what it wraps names the closure (document 01).
#[derive(Clone, Copy)]
pub struct ManySep {
    pub sep: u8,
    pub wrap: Node,
    pub node: Node,
}

const MATCH: ManySep = ManySep {
    sep: kind::BAR,
    wrap: Node::Arm,
    node: Node::Matcher,
};

const VALS: ManySep = ManySep {
    sep: kind::AND_KW,
    wrap: Node::ValBind,
    node: Node::ValDec,
};

const FUNS: ManySep = ManySep {
    sep: kind::AND_KW,
    wrap: Node::FunBind,
    node: Node::FunDec,
};

const CASES: ManySep = ManySep {
    sep: kind::BAR,
    wrap: Node::FunBindCase,
    node: Node::FunBind,
};

const EXNS: ManySep = ManySep {
    sep: kind::AND_KW,
    wrap: Node::ExBind,
    node: Node::ExDec,
};

const STRS: ManySep = ManySep {
    sep: kind::AND_KW,
    wrap: Node::StrBind,
    node: Node::StructureDec,
};

const SIGS: ManySep = ManySep {
    sep: kind::AND_KW,
    wrap: Node::SigBind,
    node: Node::SignatureDec,
};

const FCTS: ManySep = ManySep {
    sep: kind::AND_KW,
    wrap: Node::FunctorBind,
    node: Node::FunctorDec,
};

// Where structures, signatures and declarations end.
const STRUCT: Ending = Ending {
    end: kind::END_KW,
    node: Node::StructStrExp as u8,
};

const STR_LET: Ending = Ending {
    end: kind::END_KW,
    node: Node::LetStrExp as u8,
};

const APPLIED: Ending = Ending {
    end: kind::RROUND,
    node: Node::AppStrExp as u8,
};

const SIG: Ending = Ending {
    end: kind::END_KW,
    node: Node::SigSigExp as u8,
};

const ABSTYPE: Ending = Ending {
    end: kind::END_KW,
    node: Node::AbstypeDec as u8,
};

const LOCAL: Ending = Ending {
    end: kind::END_KW,
    node: Node::LocalDec as u8,
};

// The tokens before an expression.
const THEN: u8 = kind::THEN_KW;

const ELSE: u8 = kind::ELSE_KW;

const DO: u8 = kind::DO_KW;

const EQ_GT: u8 = kind::EQ_GT;

// The node of `maybe_semi_sep`, which names the closure: declarations with their tails, or single ones.
const DECS: Node = Node::Dec;

const INSEQ: Node = Node::DecInSeq;

// `exp_prec`, or the finding that there is no expression.
// measure: 64 * left + 6
#[cycle(exp_dec)]
fn exp(
    lent: Lent,
    table: &mut [u8; 8192],
    scratch: &mut [u8],
    finds: &mut [u8],
    left: usize,
    min: ExpPrec,
    s: State,
) -> State
    requires { Sound (mem_of lent table.old scratch.old finds.old s) }
    ensures { Runs left (expr.exp_must (prec_of min)) (mem_of lent.entry table.old scratch.old finds.old s) (mem_of lent.entry table.new scratch.new finds.new result) 0 }
{
    let got = pre(lent, table, scratch, finds, left, min, s);
    match got {
        Ok(s1) => s1,
        Err(s1) => report_error(finds, ErrorKind::Expected(Expected::Exp), s1),
    }
}

// `exp_prec`: an expression, with the operators that `min` lets stand.
// measure: 64 * left + 5
// unfolds: root.body expr.exp_scope expr.exp_head
// shuts: expr.exp_rest expr.at_exp
#[cycle(exp_dec)]
fn pre(
    lent: Lent,
    table: &mut [u8; 8192],
    scratch: &mut [u8],
    finds: &mut [u8],
    left: usize,
    min: ExpPrec,
    s: State,
) -> Found
    requires { Sound (mem_of lent table.old scratch.old finds.old s) }
    ensures { Runs left (Prog.call (Rule.exp_prec (prec_of min))) (mem_of lent.entry table.old scratch.old finds.old s) (mem_of lent.entry table.new scratch.new finds.new (out_state result)) (out_val result) }
{
    let Some(k) = peek(lent.toks, s) else {
        return Err(s);
    };
    if left == 0 {
        return Err(s.refuse_for(Refusal::TooDeep));
    }
    let b = s.len;
    let s1 = s.mark();
    if starts(k) {
        let s2 = keyword(lent, table, scratch, finds, k, min, s1);
        let s3 = kw(lent, table, scratch, finds, left - 1, k, b, s2);
        return Ok(s3);
    }
    rst(lent, table, scratch, finds, left, min, b, s1)
}

// What is behind a keyword that starts an expression, to the end of its node.
// measure: 64 * left + 8
#[cycle(exp_dec)]
fn kw(
    lent: Lent,
    table: &mut [u8; 8192],
    scratch: &mut [u8],
    finds: &mut [u8],
    left: usize,
    k: u8,
    b: usize,
    s: State,
) -> State
    requires { Sound (mem_of lent table.old scratch.old finds.old s) × (b < 4294967296) }
    ensures { RunsIn left b (expr.keyed (suc k)) (mem_of lent.entry table.old scratch.old finds.old s) (mem_of lent.entry table.new scratch.new finds.new result) 0 }
{
    if k == kind::FN_KW {
        let s1 = mat(lent, table, scratch, finds, left, s);
        return close_node(scratch, Node::FnExp, b, s1);
    }
    let s1 = exp(lent, table, scratch, finds, left, MIN, s);
    if k == kind::RAISE_KW {
        return close_node(scratch, Node::RaiseExp, b, s1);
    }
    if k == kind::IF_KW {
        let s2 = we(lent, table, scratch, finds, left, THEN, s1);
        let s3 = we(lent, table, scratch, finds, left, ELSE, s2);
        return close_node(scratch, Node::IfExp, b, s3);
    }
    if k == kind::WHILE_KW {
        let s2 = we(lent, table, scratch, finds, left, DO, s1);
        return close_node(scratch, Node::WhileExp, b, s2);
    }
    let s2 = want(lent.toks, scratch, finds, kind::OF_KW, s1);
    let s3 = mat(lent, table, scratch, finds, left, s2);
    close_node(scratch, Node::CaseExp, b, s3)
}

// A token of the kind `k`, and an expression.
// measure: 64 * left + 7
#[cycle(exp_dec)]
fn we(
    lent: Lent,
    table: &mut [u8; 8192],
    scratch: &mut [u8],
    finds: &mut [u8],
    left: usize,
    k: u8,
    s: State,
) -> State
    requires { Sound (mem_of lent table.old scratch.old finds.old s) × (k < 128) }
    ensures { Runs left (expr.want_exp k) (mem_of lent.entry table.old scratch.old finds.old s) (mem_of lent.entry table.new scratch.new finds.new result) 0 }
{
    let s1 = want(lent.toks, scratch, finds, k, s);
    exp(lent, table, scratch, finds, left, MIN, s1)
}

// An atomic expression, and the arguments and operators behind it.
// measure: 64 * left + 4
// unfolds: expr.at_exp
#[cycle(exp_dec)]
fn rst(
    lent: Lent,
    table: &mut [u8; 8192],
    scratch: &mut [u8],
    finds: &mut [u8],
    left: usize,
    min: ExpPrec,
    b: usize,
    s: State,
) -> Found
    requires { Sound (mem_of lent table.old scratch.old finds.old s) × (b < 4294967296) }
    ensures { RunsIn left b (expr.exp_rest (prec_of min)) (mem_of lent.entry table.old scratch.old finds.old s) (mem_of lent.entry table.new scratch.new finds.new (out_state result)) (out_val result) }
{
    let Some(k) = peek(lent.toks, s) else {
        return Err(s);
    };
    if left == 0 {
        return Err(s.refuse_for(Refusal::TooDeep));
    }
    let s1 = s.mark();
    let c = s1.len;
    let head = atm(lent, table, scratch, finds, left - 1, k, c, s1);
    match head {
        Err(s2) => Err(s2),
        Ok(s2) => {
            let s3 = ops(lent, table, scratch, finds, left, min, b, s2);
            Ok(s3)
        }
    }
}

// `exp_prec_loop`: arguments and operators behind an expression that started at `b`.
// measure: 64 * left + 3
// advances: exp_step_advances _
#[cycle(exp_dec)]
fn ops(
    lent: Lent,
    table: &mut [u8; 8192],
    scratch: &mut [u8],
    finds: &mut [u8],
    left: usize,
    min: ExpPrec,
    b: usize,
    s: State,
) -> State
    requires { Sound (mem_of lent table.old scratch.old finds.old s) × (b < 4294967296) }
    ensures { RunsIn left b (Prog.loop (expr.exp_step (prec_of min))) (mem_of lent.entry table.old scratch.old finds.old s) (mem_of lent.entry table.new scratch.new finds.new result) 0 }
{
    let mut s1 = s;
    loop {
        let turn = stp(lent, table, scratch, finds, left, min, b, s1);
        match turn {
            Ok(s2) => s1 = s2,
            Err(s2) => return s2,
        }
    }
}

// One of them.
// measure: 64 * left + 2
#[cycle(exp_dec)]
fn stp(
    lent: Lent,
    table: &mut [u8; 8192],
    scratch: &mut [u8],
    finds: &mut [u8],
    left: usize,
    min: ExpPrec,
    b: usize,
    s: State,
) -> Found
    requires { Sound (mem_of lent table.old scratch.old finds.old s) × (b < 4294967296) }
    ensures { RunsIn left b (expr.exp_step (prec_of min)) (mem_of lent.entry table.old scratch.old finds.old s) (mem_of lent.entry table.new scratch.new finds.new (out_state result)) (out_val result) }
{
    let Some(k) = peek(lent.toks, s) else {
        return Err(s);
    };
    if name_star_eq(k) {
        return id(lent, table, scratch, finds, left, min, b, s);
    }
    if ascription(k) {
        return opr(lent, table, scratch, finds, left, TYP, min, b, s);
    }
    if k == kind::ANDALSO_KW {
        return opr(lent, table, scratch, finds, left, AND, min, b, s);
    }
    if k == kind::ORELSE_KW {
        return opr(lent, table, scratch, finds, left, OR, min, b, s);
    }
    if k == kind::HANDLE_KW {
        return opr(lent, table, scratch, finds, left, HDL, min, b, s);
    }
    if starts_arg(k) {
        return Ok(app(lent, table, scratch, finds, left, b, s));
    }
    Err(s)
}

// A name: an argument, or an infix operator.
// measure: 64 * left + 1
#[cycle(exp_dec)]
fn id(
    lent: Lent,
    table: &mut [u8; 8192],
    scratch: &mut [u8],
    finds: &mut [u8],
    left: usize,
    min: ExpPrec,
    b: usize,
    s: State,
) -> Found
    requires { Sound (mem_of lent table.old scratch.old finds.old s) × (b < 4294967296) }
    ensures { RunsIn left b (expr.name_step (prec_of min)) (mem_of lent.entry table.old scratch.old finds.old s) (mem_of lent.entry table.new scratch.new finds.new (out_state result)) (out_val result) }
{
    let fix = fixity_at(lent, table, 0, s);
    match fix {
        None => {
            let s1 = app(lent, table, scratch, finds, left, b, s);
            Ok(s1)
        }
        Some(i) => {
            let op = ExpPrec::Infix(i);
            opr(lent, table, scratch, finds, left, op, min, b, s)
        }
    }
}

// An operator and its right side, unless it ends the climb.
// measure: 64 * left
#[cycle(exp_dec)]
fn opr(
    lent: Lent,
    table: &mut [u8; 8192],
    scratch: &mut [u8],
    finds: &mut [u8],
    left: usize,
    op: ExpPrec,
    min: ExpPrec,
    b: usize,
    s: State,
) -> Found
    requires { Sound (mem_of lent table.old scratch.old finds.old s) × (b < 4294967296) }
    ensures { RunsIn left b (expr.climb (prec_of op) (prec_of min)) (mem_of lent.entry table.old scratch.old finds.old s) (mem_of lent.entry table.new scratch.new finds.new (out_state result)) (out_val result) }
{
    let ends = should_break_exp(lent, table, scratch, finds, op, min, s);
    match ends {
        Ok(s1) => Err(s1),
        Err(s1) => {
            if left == 0 {
                return Ok(s1.refuse_for(Refusal::TooDeep));
            }
            let s2 = s1.mark();
            let s3 = bump(lent.toks, scratch, s2);
            let s4 = rhs(lent, table, scratch, finds, left - 1, op, b, s3);
            Ok(s4)
        }
    }
}

// The right side of an operator, to the end of its node.
// measure: 64 * left + 7
// rewrites: node_of
#[cycle(exp_dec)]
fn rhs(
    lent: Lent,
    table: &mut [u8; 8192],
    scratch: &mut [u8],
    finds: &mut [u8],
    left: usize,
    op: ExpPrec,
    b: usize,
    s: State,
) -> State
    requires { Sound (mem_of lent table.old scratch.old finds.old s) × (b < 4294967296) }
    ensures { RunsIn left b (expr.right_side (prec_of op)) (mem_of lent.entry table.old scratch.old finds.old s) (mem_of lent.entry table.new scratch.new finds.new result) 0 }
{
    if is_ascribed(op) {
        let s1 = ty_must(lent, table, scratch, finds, left, TyPrec::Arrow, s);
        return close_node(scratch, Node::TypedExp, b, s1);
    }
    if is_handle(op) {
        let s1 = mat(lent, table, scratch, finds, left, s);
        return close_node(scratch, Node::HandleExp, b, s1);
    }
    let s1 = exp(lent, table, scratch, finds, left, op, s);
    let node = node_of(op);
    close_node(scratch, node, b, s1)
}

// `app_exp`: an argument of the expression that started at `b`.
// measure: 64 * left
#[cycle(exp_dec)]
fn app(
    lent: Lent,
    table: &mut [u8; 8192],
    scratch: &mut [u8],
    finds: &mut [u8],
    left: usize,
    b: usize,
    s: State,
) -> State
    requires { Sound (mem_of lent table.old scratch.old finds.old s) × (b < 4294967296) }
    ensures { RunsIn left b (expr.app_exp {g = false}) (mem_of lent.entry table.old scratch.old finds.old s) (mem_of lent.entry table.new scratch.new finds.new result) 0 }
{
    if left == 0 {
        return s.refuse_for(Refusal::TooDeep);
    }
    let s1 = s.mark();
    let s2 = arg(lent, table, scratch, finds, left - 1, s1);
    close_node(scratch, Node::AppExp, b, s2)
}

// `at_exp`, or the finding that there is no expression.
// measure: 64 * left
// unfolds: expr.at_exp
#[cycle(exp_dec)]
fn arg(
    lent: Lent,
    table: &mut [u8; 8192],
    scratch: &mut [u8],
    finds: &mut [u8],
    left: usize,
    s: State,
) -> State
    requires { Sound (mem_of lent table.old scratch.old finds.old s) }
    ensures { Runs left expr.at_exp_must (mem_of lent.entry table.old scratch.old finds.old s) (mem_of lent.entry table.new scratch.new finds.new result) 0 }
{
    let Some(k) = peek(lent.toks, s) else {
        return report_error(finds, ErrorKind::Expected(Expected::Exp), s);
    };
    if left == 0 {
        return s.refuse_for(Refusal::TooDeep);
    }
    let s1 = s.mark();
    let b = s1.len;
    let got = atm(lent, table, scratch, finds, left - 1, k, b, s1);
    match got {
        Ok(s2) => s2,
        Err(s2) => report_error(finds, ErrorKind::Expected(Expected::Exp), s2),
    }
}

// `at_exp`: an atomic expression, the kind k being next.
// measure: 64 * left + 5
// unfolds: expr.end_closure util.choose
#[cycle(exp_dec)]
fn atm(
    lent: Lent,
    table: &mut [u8; 8192],
    scratch: &mut [u8],
    finds: &mut [u8],
    left: usize,
    k: u8,
    b: usize,
    s: State,
) -> Found
    requires { Sound (mem_of lent table.old scratch.old finds.old s) × (b < 4294967296) }
    ensures { RunsIn left b (expr.at_exp_head (suc k)) (mem_of lent.entry table.old scratch.old finds.old s) (mem_of lent.entry table.new scratch.new finds.new (out_state result)) (out_val result) }
{
    if k == kind::LCURLY {
        let s1 = record_start(lent, table, scratch, finds, left, s);
        let s2 = cl(lent, table, scratch, finds, left, ROWS, b, s1);
        return Ok(s2);
    }
    if k == kind::HASH {
        return hs(lent, table, scratch, finds, left, b, s);
    }
    if k == kind::LROUND {
        let s1 = bump(lent.toks, scratch, s);
        return rnd(lent, table, scratch, finds, left, b, s1);
    }
    if k == kind::LSQUARE {
        let s1 = bump(lent.toks, scratch, s);
        let s2 = cl(lent, table, scratch, finds, left, LST, b, s1);
        return Ok(s2);
    }
    if k == kind::LET_KW {
        return lex(lent, table, scratch, finds, left, b, s);
    }
    leaf(lent, table, scratch, finds, left, k, b, s)
}

// `#`: a vector, or a selector.
// measure: 64 * left
// unfolds: expr.end_closure util.choose
#[cycle(exp_dec)]
fn hs(
    lent: Lent,
    table: &mut [u8; 8192],
    scratch: &mut [u8],
    finds: &mut [u8],
    left: usize,
    b: usize,
    s: State,
) -> Found
    requires { Sound (mem_of lent table.old scratch.old finds.old s) × (b < 4294967296) }
    ensures { RunsIn left b expr.hash_exp (mem_of lent.entry table.old scratch.old finds.old s) (mem_of lent.entry table.new scratch.new finds.new (out_state result)) (out_val result) }
{
    let s1 = bump(lent.toks, scratch, s);
    if at(lent.toks, kind::LSQUARE, s1) {
        if left == 0 {
            return Ok(s1.refuse_for(Refusal::TooDeep));
        }
        let s2 = s1.mark();
        let c = s2.len;
        let s3 = bump(lent.toks, scratch, s2);
        let s4 = cl(lent, table, scratch, finds, left - 1, LST, c, s3);
        return Ok(close_node(scratch, Node::VectorExp, b, s4));
    }
    let s2 = lab(lent.toks, scratch, finds, s1);
    Ok(close_node(scratch, Node::SelectorExp, b, s2))
}

// `at_exp_l_round`: what is behind `(`.
// measure: 64 * left + 2
// unfolds: expr.end_closure util.choose
// shuts: expr.paren_end
#[cycle(exp_dec)]
fn rnd(
    lent: Lent,
    table: &mut [u8; 8192],
    scratch: &mut [u8],
    finds: &mut [u8],
    left: usize,
    b: usize,
    s: State,
) -> Found
    requires { Sound (mem_of lent table.old scratch.old finds.old s) × (b < 4294967296) }
    ensures { RunsIn left b expr.at_exp_l_round (mem_of lent.entry table.old scratch.old finds.old s) (mem_of lent.entry table.new scratch.new finds.new (out_state result)) (out_val result) }
{
    if at(lent.toks, kind::RROUND, s) {
        let s1 = bump(lent.toks, scratch, s);
        return Ok(close_node(scratch, Node::TupleExp, b, s1));
    }
    if left == 0 {
        return Ok(s.refuse_for(Refusal::TooDeep));
    }
    let s1 = s.mark();
    let c = s1.len;
    let s2 = exp(lent, table, scratch, finds, left - 1, MIN, s1);
    let Some(k) = peek(lent.toks, s2) else {
        return paren_end(lent, table, scratch, finds, left, b, s2);
    };
    if k == kind::SEMICOLON {
        let s3 = bump(lent.toks, scratch, s2);
        let s4 = close_node(scratch, Node::ExpInSeq, c, s3);
        let s5 = cl(lent, table, scratch, finds, left, SEQS, b, s4);
        return Ok(s5);
    }
    if k == kind::COMMA {
        let s3 = bump(lent.toks, scratch, s2);
        let s4 = close_node(scratch, Node::ExpArg, c, s3);
        let s5 = cl(lent, table, scratch, finds, left, TUPS, b, s4);
        return Ok(s5);
    }
    paren_end(lent, table, scratch, finds, left, b, s2)
}

// `let`, whose fixities end with it.
// measure: 64 * left + 4
#[cycle(exp_dec)]
fn lex(
    lent: Lent,
    table: &mut [u8; 8192],
    scratch: &mut [u8],
    finds: &mut [u8],
    left: usize,
    b: usize,
    s: State,
) -> Found
    requires { Sound (mem_of lent table.old scratch.old finds.old s) × (b < 4294967296) }
    ensures { RunsIn left b expr.let_exp (mem_of lent.entry table.old scratch.old finds.old s) (mem_of lent.entry table.new scratch.new finds.new (out_state result)) (out_val result) }
{
    let s1 = bump(lent.toks, scratch, s);
    let s2 = bdy(lent, table, scratch, finds, left, b, s1);
    Ok(leave_node(scratch, Node::LetExp, b, s1, s2))
}

// What stands between `let` and `end`.
// measure: 64 * left + 3
// unfolds: util.end_sep expr.end_closure util.choose
#[cycle(exp_dec)]
fn bdy(
    lent: Lent,
    table: &mut [u8; 8192],
    scratch: &mut [u8],
    finds: &mut [u8],
    left: usize,
    b: usize,
    s: State,
) -> State
    requires { Sound (mem_of lent table.old scratch.old finds.old s) }
    ensures { RunsIn left b expr.let_body (mem_of lent.entry table.old scratch.old finds.old s) (mem_of lent.entry table.new scratch.new finds.new result) 0 }
{
    let got = dec(lent, table, scratch, finds, left, YES, s);
    let s1 = either(got);
    let s2 = want(lent.toks, scratch, finds, kind::IN_KW, s1);
    sep(lent, table, scratch, finds, left, INS, b, s2)
}

// `end_sep`, to the end of the node around it.
// measure: 64 * left + 1
// unfolds: util.end_sep
#[cycle(exp_dec)]
fn cl(
    lent: Lent,
    table: &mut [u8; 8192],
    scratch: &mut [u8],
    finds: &mut [u8],
    left: usize,
    q: EndSep,
    b: usize,
    s: State,
) -> State
    requires { Sound (mem_of lent table.old scratch.old finds.old s) × (b < 4294967296) × (q.end < 128) }
    ensures { RunsIn left b (util.end_sep_node {g = true} (node_number q.wrap) q.sep q.end (node_number q.node) (expr.end_closure (node_number q.wrap))) (mem_of lent.entry table.old scratch.old finds.old s) (mem_of lent.entry table.new scratch.new finds.new result) 0 }
{
    let s1 = sep(lent, table, scratch, finds, left, q, b, s);
    close_node(scratch, q.node, b, s1)
}

// `end_sep`: items up to the token that ends them.
// measure: 64 * left
// unfolds: util.end_item
// advances: end_turn_advances true _ _ _ _
#[cycle(exp_dec)]
fn sep(
    lent: Lent,
    table: &mut [u8; 8192],
    scratch: &mut [u8],
    finds: &mut [u8],
    left: usize,
    q: EndSep,
    b: usize,
    s: State,
) -> State
    requires { Sound (mem_of lent table.old scratch.old finds.old s) × (q.end < 128) }
    ensures { RunsIn left b (Prog.loop (util.end_turn {g = true} (node_number q.wrap) q.sep q.end (expr.end_closure (node_number q.wrap)))) (mem_of lent.entry table.old scratch.old finds.old s) (mem_of lent.entry table.new scratch.new finds.new result) 0 }
{
    let mut s1 = s;
    loop {
        if at(lent.toks, q.end, s1) {
            return bump(lent.toks, scratch, s1);
        }
        if left == 0 {
            let s2 = s1.refuse_for(Refusal::TooDeep);
            let got = eat(lent.toks, scratch, finds, q.end, s2);
            return either(got);
        }
        let s2 = s1.mark();
        let c = s2.len;
        let s3 = cel(lent, table, scratch, finds, left - 1, q, s2);
        if at(lent.toks, q.sep, s3) {
            let s4 = bump(lent.toks, scratch, s3);
            s1 = close_node(scratch, q.wrap, c, s4);
            continue;
        }
        let s4 = close_node(scratch, q.wrap, c, s3);
        let got = eat(lent.toks, scratch, finds, q.end, s4);
        return either(got);
    }
}

// One of them: a row of a record, or an expression.
// measure: 64 * left + 7
// chooses: q.wrap
// unfolds: expr.exp_row
#[cycle(exp_dec)]
fn cel(
    lent: Lent,
    table: &mut [u8; 8192],
    scratch: &mut [u8],
    finds: &mut [u8],
    left: usize,
    q: EndSep,
    s: State,
) -> State
    requires { Sound (mem_of lent table.old scratch.old finds.old s) }
    ensures { Runs left (expr.end_closure (node_number q.wrap)) (mem_of lent.entry table.old scratch.old finds.old s) (mem_of lent.entry table.new scratch.new finds.new result) 0 }
{
    match q.wrap {
        Node::ExpRow => {
            let s1 = lab(lent.toks, scratch, finds, s);
            eq(lent, table, scratch, finds, left, s1)
        }
        _ => exp(lent, table, scratch, finds, left, MIN, s),
    }
}

// `eq_exp`: `=` and an expression, where they are next.
// measure: 64 * left
#[cycle(exp_dec)]
fn eq(
    lent: Lent,
    table: &mut [u8; 8192],
    scratch: &mut [u8],
    finds: &mut [u8],
    left: usize,
    s: State,
) -> State
    requires { Sound (mem_of lent table.old scratch.old finds.old s) }
    ensures { Runs left (expr.eq_exp {g = true}) (mem_of lent.entry table.old scratch.old finds.old s) (mem_of lent.entry table.new scratch.new finds.new result) 0 }
{
    if at(lent.toks, kind::EQ, s) {
        if left == 0 {
            return s.refuse_for(Refusal::TooDeep);
        }
        let s1 = s.mark();
        let b = s1.len;
        let s2 = bump(lent.toks, scratch, s1);
        let s3 = exp(lent, table, scratch, finds, left - 1, MIN, s2);
        return close_node(scratch, Node::EqExp, b, s3);
    }
    s
}

// `matcher`.
// measure: 64 * left
// unfolds: decl.many_closure util.choose
#[cycle(exp_dec)]
fn mat(
    lent: Lent,
    table: &mut [u8; 8192],
    scratch: &mut [u8],
    finds: &mut [u8],
    left: usize,
    s: State,
) -> State
    requires { Sound (mem_of lent table.old scratch.old finds.old s) }
    ensures { Runs left (expr.matcher {g = true}) (mem_of lent.entry table.old scratch.old finds.old s) (mem_of lent.entry table.new scratch.new finds.new result) 0 }
{
    if left == 0 {
        return s.refuse_for(Refusal::TooDeep);
    }
    let s1 = s.mark();
    let b = s1.len;
    let s2 = bump_if(lent.toks, scratch, kind::BAR, s1);
    bd(lent, table, scratch, finds, left - 1, MATCH, YES, b, s2)
}

// `many_sep`, to the end of the node around it.
// measure: 64 * left + 1
// unfolds: util.many_sep
#[cycle(exp_dec)]
fn bd(
    lent: Lent,
    table: &mut [u8; 8192],
    scratch: &mut [u8],
    finds: &mut [u8],
    left: usize,
    q: ManySep,
    e: InfixErr,
    b: usize,
    s: State,
) -> State
    requires { Sound (mem_of lent table.old scratch.old finds.old s) × (b < 4294967296) }
    ensures { RunsIn left b (util.many_sep_node {g = true} q.sep (node_number q.wrap) (node_number q.node) (decl.many_closure (node_number q.wrap) (err_of e))) (mem_of lent.entry table.old scratch.old finds.old s) (mem_of lent.entry table.new scratch.new finds.new result) 0 }
{
    let s1 = mny(lent, table, scratch, finds, left, q, e, b, s);
    close_node(scratch, q.node, b, s1)
}

// `many_sep`: items between separators.
// measure: 64 * left
// advances: many_turn_advances true _ _ _
#[cycle(exp_dec)]
fn mny(
    lent: Lent,
    table: &mut [u8; 8192],
    scratch: &mut [u8],
    finds: &mut [u8],
    left: usize,
    q: ManySep,
    e: InfixErr,
    b: usize,
    s: State,
) -> State
    requires { Sound (mem_of lent table.old scratch.old finds.old s) }
    ensures { RunsIn left b (Prog.loop (util.many_turn {g = true} q.sep (node_number q.wrap) (decl.many_closure (node_number q.wrap) (err_of e)))) (mem_of lent.entry table.old scratch.old finds.old s) (mem_of lent.entry table.new scratch.new finds.new result) 0 }
{
    let mut s1 = s;
    loop {
        if left == 0 {
            return s1.refuse_for(Refusal::TooDeep);
        }
        let s2 = s1.mark();
        let c = s2.len;
        let got = itm(lent, table, scratch, finds, left - 1, q, e, s2);
        match got {
            Err(s3) => return s3,
            Ok(s3) => {
                if at(lent.toks, q.sep, s3) {
                    let s4 = bump(lent.toks, scratch, s3);
                    s1 = close_node(scratch, q.wrap, c, s4);
                    continue;
                }
                return close_node(scratch, q.wrap, c, s3);
            }
        }
    }
}

// One of them.
// measure: 64 * left + 9
// chooses: q.wrap
#[cycle(exp_dec)]
fn itm(
    lent: Lent,
    table: &mut [u8; 8192],
    scratch: &mut [u8],
    finds: &mut [u8],
    left: usize,
    q: ManySep,
    e: InfixErr,
    s: State,
) -> Found
    requires { Sound (mem_of lent table.old scratch.old finds.old s) }
    ensures { Runs left (decl.many_closure (node_number q.wrap) (err_of e)) (mem_of lent.entry table.old scratch.old finds.old s) (mem_of lent.entry table.new scratch.new finds.new (out_state result)) (out_val result) }
{
    match q.wrap {
        Node::Arm => arm(lent, table, scratch, finds, left, s),
        Node::ValBind => vl(lent, table, scratch, finds, left, e, s),
        Node::FunBind => fun(lent, table, scratch, finds, left, e, s),
        Node::FunBindCase => cs(lent, table, scratch, finds, left, e, s),
        Node::ExBind => ex(lent, table, scratch, finds, left, s),
        Node::StrBind => stb(lent, table, scratch, finds, left, s),
        Node::SigBind => sgb(lent, table, scratch, finds, left, s),
        _ => fct(lent, table, scratch, finds, left, s),
    }
}

// An arm: a pattern and an expression.
// measure: 64 * left + 8
#[cycle(exp_dec)]
fn arm(
    lent: Lent,
    table: &mut [u8; 8192],
    scratch: &mut [u8],
    finds: &mut [u8],
    left: usize,
    s: State,
) -> Found
    requires { Sound (mem_of lent table.old scratch.old finds.old s) }
    ensures { Runs left expr.arm (mem_of lent.entry table.old scratch.old finds.old s) (mem_of lent.entry table.new scratch.new finds.new (out_state result)) (out_val result) }
{
    let got = pat_prec(lent, table, scratch, finds, left, ANY, YES, s);
    match got {
        Err(s1) => {
            let s2 = report_error(finds, ErrorKind::Expected(Expected::Pat), s1);
            Err(s2)
        }
        Ok(s1) => {
            let s2 = we(lent, table, scratch, finds, left, EQ_GT, s1);
            Ok(s2)
        }
    }
}

// A value that is bound.
// measure: 64 * left + 1
#[cycle(exp_dec)]
fn vl(
    lent: Lent,
    table: &mut [u8; 8192],
    scratch: &mut [u8],
    finds: &mut [u8],
    left: usize,
    e: InfixErr,
    s: State,
) -> Found
    requires { Sound (mem_of lent table.old scratch.old finds.old s) }
    ensures { Runs left (decl.val_bind (err_of e)) (mem_of lent.entry table.old scratch.old finds.old s) (mem_of lent.entry table.new scratch.new finds.new (out_state result)) (out_val result) }
{
    let got = rec_pat(lent, table, scratch, finds, left, e, s);
    match got {
        Err(s1) => Err(s1),
        Ok(s1) => {
            let s2 = eq(lent, table, scratch, finds, left, s1);
            Ok(s2)
        }
    }
}

// A function: its cases, between `|`.
// measure: 64 * left + 1
// unfolds: util.many_sep decl.many_closure util.choose
#[cycle(exp_dec)]
fn fun(
    lent: Lent,
    table: &mut [u8; 8192],
    scratch: &mut [u8],
    finds: &mut [u8],
    left: usize,
    e: InfixErr,
    s: State,
) -> Found
    requires { Sound (mem_of lent table.old scratch.old finds.old s) }
    ensures { Runs left (decl.fun_bind (err_of e)) (mem_of lent.entry table.old scratch.old finds.old s) (mem_of lent.entry table.new scratch.new finds.new (out_state result)) (out_val result) }
{
    let b = s.len;
    let s1 = bump_if(lent.toks, scratch, kind::BAR, s);
    let s2 = mny(lent, table, scratch, finds, left, CASES, e, b, s1);
    Ok(s2)
}

// A case of a function.
// measure: 64 * left + 1
#[cycle(exp_dec)]
fn cs(
    lent: Lent,
    table: &mut [u8; 8192],
    scratch: &mut [u8],
    finds: &mut [u8],
    left: usize,
    e: InfixErr,
    s: State,
) -> Found
    requires { Sound (mem_of lent table.old scratch.old finds.old s) }
    ensures { Runs left (decl.fun_case (err_of e)) (mem_of lent.entry table.old scratch.old finds.old s) (mem_of lent.entry table.new scratch.new finds.new (out_state result)) (out_val result) }
{
    let s1 = fun_left(lent, table, scratch, finds, left, e, s);
    let got = ty_annotation(lent, table, scratch, finds, left, s1);
    let s2 = either(got);
    let s3 = eq(lent, table, scratch, finds, left, s2);
    Ok(s3)
}

// An exception.
// measure: 64 * left + 1
#[cycle(exp_dec)]
fn ex(
    lent: Lent,
    table: &mut [u8; 8192],
    scratch: &mut [u8],
    finds: &mut [u8],
    left: usize,
    s: State,
) -> Found
    requires { Sound (mem_of lent table.old scratch.old finds.old s) }
    ensures { Runs left decl.ex_bind (mem_of lent.entry table.old scratch.old finds.old s) (mem_of lent.entry table.new scratch.new finds.new (out_state result)) (out_val result) }
{
    let name = op_name(lent, table, scratch, finds, s);
    match name {
        Err(s1) => Err(s1),
        Ok(s1) => {
            let typed = of_ty(lent, table, scratch, finds, left, s1);
            match typed {
                Err(s2) => {
                    let s3 = eq(lent, table, scratch, finds, left, s2);
                    Ok(s3)
                }
                Ok(s2) => Ok(s2),
            }
        }
    }
}

// A structure that is bound.
// measure: 64 * left + 2
#[cycle(exp_dec)]
fn stb(
    lent: Lent,
    table: &mut [u8; 8192],
    scratch: &mut [u8],
    finds: &mut [u8],
    left: usize,
    s: State,
) -> Found
    requires { Sound (mem_of lent table.old scratch.old finds.old s) }
    ensures { Runs left decl.str_bind (mem_of lent.entry table.old scratch.old finds.old s) (mem_of lent.entry table.new scratch.new finds.new (out_state result)) (out_val result) }
{
    let name = eat(lent.toks, scratch, finds, kind::NAME, s);
    match name {
        Err(s1) => Err(s1),
        Ok(s1) => {
            let s2 = aso(lent, table, scratch, finds, left, s1);
            if at(lent.toks, kind::EQ, s2) {
                if left == 0 {
                    return Ok(s2.refuse_for(Refusal::TooDeep));
                }
                let s3 = s2.mark();
                let b = s3.len;
                let s4 = bump(lent.toks, scratch, s3);
                let s5 = stm(lent, table, scratch, finds, left - 1, s4);
                return Ok(close_node(scratch, Node::EqStrExp, b, s5));
            }
            Ok(s2)
        }
    }
}

// A signature that is bound.
// measure: 64 * left + 2
#[cycle(exp_dec)]
fn sgb(
    lent: Lent,
    table: &mut [u8; 8192],
    scratch: &mut [u8],
    finds: &mut [u8],
    left: usize,
    s: State,
) -> Found
    requires { Sound (mem_of lent table.old scratch.old finds.old s) }
    ensures { Runs left decl.sig_bind (mem_of lent.entry table.old scratch.old finds.old s) (mem_of lent.entry table.new scratch.new finds.new (out_state result)) (out_val result) }
{
    let name = eat(lent.toks, scratch, finds, kind::NAME, s);
    match name {
        Err(s1) => Err(s1),
        Ok(s1) => {
            let s2 = want(lent.toks, scratch, finds, kind::EQ, s1);
            let s3 = sgm(lent, table, scratch, finds, left, s2);
            Ok(s3)
        }
    }
}

// A functor that is bound.
// measure: 64 * left + 4
#[cycle(exp_dec)]
fn fct(
    lent: Lent,
    table: &mut [u8; 8192],
    scratch: &mut [u8],
    finds: &mut [u8],
    left: usize,
    s: State,
) -> Found
    requires { Sound (mem_of lent table.old scratch.old finds.old s) }
    ensures { Runs left decl.functor_bind (mem_of lent.entry table.old scratch.old finds.old s) (mem_of lent.entry table.new scratch.new finds.new (out_state result)) (out_val result) }
{
    let name = eat(lent.toks, scratch, finds, kind::NAME, s);
    match name {
        Err(s1) => Err(s1),
        Ok(s1) => {
            let s2 = want(lent.toks, scratch, finds, kind::LROUND, s1);
            let s3 = pa(lent, table, scratch, finds, left, s2);
            let s4 = want(lent.toks, scratch, finds, kind::RROUND, s3);
            let s5 = aso(lent, table, scratch, finds, left, s4);
            let s6 = want(lent.toks, scratch, finds, kind::EQ, s5);
            let s7 = stm(lent, table, scratch, finds, left, s6);
            Ok(s7)
        }
    }
}

// The parameter of a functor: a name and its signature, or declarations, whose fixities reach what follows.
// measure: 64 * left + 3
#[cycle(exp_dec)]
fn pa(
    lent: Lent,
    table: &mut [u8; 8192],
    scratch: &mut [u8],
    finds: &mut [u8],
    left: usize,
    s: State,
) -> State
    requires { Sound (mem_of lent table.old scratch.old finds.old s) }
    ensures { Runs left decl.functor_arg (mem_of lent.entry table.old scratch.old finds.old s) (mem_of lent.entry table.new scratch.new finds.new result) 0 }
{
    if at(lent.toks, kind::NAME, s) {
        if left == 0 {
            return s.refuse_for(Refusal::TooDeep);
        }
        let s1 = s.mark();
        let b = s1.len;
        let s2 = bump(lent.toks, scratch, s1);
        let s3 = bump_ascription(lent.toks, scratch, s2);
        let s4 = sgm(lent, table, scratch, finds, left - 1, s3);
        return close_node(scratch, Node::FunctorArgNameSigExp, b, s4);
    }
    let got = dec(lent, table, scratch, finds, left, NO, s);
    either(got)
}

// `dec`: declarations.
// measure: 64 * left + 2
// unfolds: root.body decl.decs util.maybe_semi_sep decl.semi_closure util.choose
#[cycle(exp_dec)]
pub fn dec(
    lent: Lent,
    table: &mut [u8; 8192],
    scratch: &mut [u8],
    finds: &mut [u8],
    left: usize,
    e: InfixErr,
    s: State,
) -> Found
    requires { Sound (mem_of lent table.old scratch.old finds.old s) }
    ensures { Runs left (Prog.call (Rule.dec (err_of e))) (mem_of lent.entry table.old scratch.old finds.old s) (mem_of lent.entry table.new scratch.new finds.new (out_state result)) (out_val result) }
{
    let b = s.len;
    let turn = sem(lent, table, scratch, finds, left, DECS, e, s);
    match turn {
        Err(s1) => Err(s1),
        Ok(s1) => {
            let s2 = seq(lent, table, scratch, finds, left, DECS, e, b, s1);
            Ok(s2)
        }
    }
}

// `maybe_semi_sep`: further items, each with its `;` where there is one.
// measure: 64 * left + 1
// advances: semi_turn_advances g _ _
#[cycle(exp_dec)]
fn seq(
    lent: Lent,
    table: &mut [u8; 8192],
    scratch: &mut [u8],
    finds: &mut [u8],
    left: usize,
    w: Node,
    e: InfixErr,
    b: usize,
    s: State,
) -> State
    requires { Sound (mem_of lent table.old scratch.old finds.old s) }
    ensures { (g : Bool) → RunsIn left b (Prog.loop (util.semi_turn {g = g} (node_number w) (decl.semi_closure (node_number w) (err_of e)))) (mem_of lent.entry table.old scratch.old finds.old s) (mem_of lent.entry table.new scratch.new finds.new result) 0 }
{
    let mut s1 = s;
    loop {
        let turn = sem(lent, table, scratch, finds, left, w, e, s1);
        match turn {
            Ok(s2) => s1 = s2,
            Err(s2) => return s2,
        }
    }
}

// One of them.
// measure: 64 * left
#[cycle(exp_dec)]
fn sem(
    lent: Lent,
    table: &mut [u8; 8192],
    scratch: &mut [u8],
    finds: &mut [u8],
    left: usize,
    w: Node,
    e: InfixErr,
    s: State,
) -> Found
    requires { Sound (mem_of lent table.old scratch.old finds.old s) }
    ensures { (g : Bool) → Runs left (util.semi_turn {g = g} (node_number w) (decl.semi_closure (node_number w) (err_of e))) (mem_of lent.entry table.old scratch.old finds.old s) (mem_of lent.entry table.new scratch.new finds.new (out_state result)) (out_val result) }
{
    if left == 0 {
        return Err(s.refuse_for(Refusal::TooDeep));
    }
    let s1 = s.mark();
    let b = s1.len;
    let got = pt(lent, table, scratch, finds, left - 1, w, e, s1);
    match got {
        Err(s2) => Err(s2),
        Ok(s2) => {
            let s3 = bump_if(lent.toks, scratch, kind::SEMICOLON, s2);
            Ok(close_node(scratch, w, b, s3))
        }
    }
}

// Declarations with their tails, or a single one.
// measure: 64 * left + 1
// chooses: w
#[cycle(exp_dec)]
fn pt(
    lent: Lent,
    table: &mut [u8; 8192],
    scratch: &mut [u8],
    finds: &mut [u8],
    left: usize,
    w: Node,
    e: InfixErr,
    s: State,
) -> Found
    requires { Sound (mem_of lent table.old scratch.old finds.old s) }
    ensures { Runs left (decl.semi_closure (node_number w) (err_of e)) (mem_of lent.entry table.old scratch.old finds.old s) (mem_of lent.entry table.new scratch.new finds.new (out_state result)) (out_val result) }
{
    match w {
        Node::Dec => tl(lent, table, scratch, finds, left, e, s),
        _ => one(lent, table, scratch, finds, left, e, s),
    }
}

// `dec_with_tail`: its node stands also where it is empty.
// measure: 64 * left
// unfolds: util.maybe_semi_sep decl.semi_closure util.choose
#[cycle(exp_dec)]
fn tl(
    lent: Lent,
    table: &mut [u8; 8192],
    scratch: &mut [u8],
    finds: &mut [u8],
    left: usize,
    e: InfixErr,
    s: State,
) -> Found
    requires { Sound (mem_of lent table.old scratch.old finds.old s) }
    ensures { Runs left (decl.dec_with_tail {g = true} (err_of e)) (mem_of lent.entry table.old scratch.old finds.old s) (mem_of lent.entry table.new scratch.new finds.new (out_state result)) (out_val result) }
{
    if left == 0 {
        return Err(s.refuse_for(Refusal::TooDeep));
    }
    let n = left - 1;
    let s1 = s.mark();
    let b = s1.len;
    let turn = sem(lent, table, scratch, finds, n, INSEQ, e, s1);
    match turn {
        Err(s2) => bare_tail(lent, table, scratch, finds, n, b, s2),
        Ok(s2) => {
            let s3 = seq(lent, table, scratch, finds, n, INSEQ, e, b, s2);
            let s4 = full_tail(lent, table, scratch, finds, n, b, s3);
            Ok(s4)
        }
    }
}

// `dec_one`: one declaration.
// measure: 64 * left
// unfolds: decl.dec_head
#[cycle(exp_dec)]
fn one(
    lent: Lent,
    table: &mut [u8; 8192],
    scratch: &mut [u8],
    finds: &mut [u8],
    left: usize,
    e: InfixErr,
    s: State,
) -> Found
    requires { Sound (mem_of lent table.old scratch.old finds.old s) }
    ensures { Runs left (decl.dec_one {g = true} (err_of e)) (mem_of lent.entry table.old scratch.old finds.old s) (mem_of lent.entry table.new scratch.new finds.new (out_state result)) (out_val result) }
{
    let Some(k) = peek(lent.toks, s) else {
        return Err(s);
    };
    if left == 0 {
        return Err(s.refuse_for(Refusal::TooDeep));
    }
    let n = left - 1;
    let s1 = s.mark();
    let b = s1.len;
    let got = leaf_dec(lent, table, scratch, finds, n, k, b, s1);
    match got {
        Ok(s2) => Ok(s2),
        Err(s2) => cor(lent, table, scratch, finds, n, k, e, b, s2),
    }
}

// The declarations that `leaf_dec` leaves, the kind k being next: those of values, functions and exceptions, `do`, and what `mds` reads.
// measure: 64 * left + 8
// unfolds: decl.many_closure util.choose
#[cycle(exp_dec)]
fn cor(
    lent: Lent,
    table: &mut [u8; 8192],
    scratch: &mut [u8],
    finds: &mut [u8],
    left: usize,
    k: u8,
    e: InfixErr,
    b: usize,
    s: State,
) -> Found
    requires { Sound (mem_of lent table.old scratch.old finds.old s) × (b < 4294967296) }
    ensures { RunsIn left b (decl.core_dec (suc k) (err_of e)) (mem_of lent.entry table.old scratch.old finds.old s) (mem_of lent.entry table.new scratch.new finds.new (out_state result)) (out_val result) }
{
    if k == kind::VAL_KW {
        let s1 = bump_vars(lent, table, scratch, finds, left, s);
        let s2 = bd(lent, table, scratch, finds, left, VALS, e, b, s1);
        return Ok(s2);
    }
    if k == kind::FUN_KW {
        let s1 = bump_vars(lent, table, scratch, finds, left, s);
        let s2 = bd(lent, table, scratch, finds, left, FUNS, e, b, s1);
        return Ok(s2);
    }
    if k == kind::EXCEPTION_KW {
        let s1 = bump(lent.toks, scratch, s);
        let s2 = bd(lent, table, scratch, finds, left, EXNS, e, b, s1);
        return Ok(s2);
    }
    if k == kind::DO_KW {
        let s1 = bump(lent.toks, scratch, s);
        let s2 = exp(lent, table, scratch, finds, left, MIN, s1);
        return Ok(close_node(scratch, Node::DoDec, b, s2));
    }
    mds(lent, table, scratch, finds, left, k, e, b, s)
}

// Those of structures, signatures and functors, `include`, and what `oth` reads.
// measure: 64 * left + 7
// unfolds: decl.many_closure util.choose
#[cycle(exp_dec)]
fn mds(
    lent: Lent,
    table: &mut [u8; 8192],
    scratch: &mut [u8],
    finds: &mut [u8],
    left: usize,
    k: u8,
    e: InfixErr,
    b: usize,
    s: State,
) -> Found
    requires { Sound (mem_of lent table.old scratch.old finds.old s) × (b < 4294967296) }
    ensures { RunsIn left b (decl.module_dec (suc k) (err_of e)) (mem_of lent.entry table.old scratch.old finds.old s) (mem_of lent.entry table.new scratch.new finds.new (out_state result)) (out_val result) }
{
    if k == kind::STRUCTURE_KW {
        let s1 = bump(lent.toks, scratch, s);
        let s2 = bd(lent, table, scratch, finds, left, STRS, e, b, s1);
        return Ok(s2);
    }
    if k == kind::SIGNATURE_KW {
        let s1 = bump(lent.toks, scratch, s);
        let s2 = bd(lent, table, scratch, finds, left, SIGS, e, b, s1);
        return Ok(s2);
    }
    if k == kind::FUNCTOR_KW {
        let s1 = bump(lent.toks, scratch, s);
        let s2 = bd(lent, table, scratch, finds, left, FCTS, e, b, s1);
        return Ok(s2);
    }
    if k == kind::INCLUDE_KW {
        let s1 = bump(lent.toks, scratch, s);
        let s2 = ic(lent, table, scratch, finds, left, b, s1);
        return Ok(close_node(scratch, Node::IncludeDec, b, s2));
    }
    oth(lent, table, scratch, finds, left, k, e, b, s)
}

// `abstype`, whose fixities reach what follows, `local`, and an expression.
// measure: 64 * left + 6
#[cycle(exp_dec)]
fn oth(
    lent: Lent,
    table: &mut [u8; 8192],
    scratch: &mut [u8],
    finds: &mut [u8],
    left: usize,
    k: u8,
    e: InfixErr,
    b: usize,
    s: State,
) -> Found
    requires { Sound (mem_of lent table.old scratch.old finds.old s) × (b < 4294967296) }
    ensures { RunsIn left b (decl.other_dec (suc k) (err_of e)) (mem_of lent.entry table.old scratch.old finds.old s) (mem_of lent.entry table.new scratch.new finds.new (out_state result)) (out_val result) }
{
    if k == kind::ABSTYPE_KW {
        let s1 = abs_head(lent, table, scratch, finds, left, b, s);
        let got = dec(lent, table, scratch, finds, left, e, s1);
        let s2 = either(got);
        let end = end_node(lent, table, scratch, finds, left, ABSTYPE, b, s2);
        return Ok(end);
    }
    if k == kind::LOCAL_KW {
        return lo(lent, table, scratch, finds, left, e, b, s);
    }
    let got = pre(lent, table, scratch, finds, left, MIN, s);
    match got {
        Err(s1) => Err(s1),
        Ok(s1) => Ok(close_node(scratch, Node::ExpDec, b, s1)),
    }
}

// `local`, whose fixities reach what follows.
// measure: 64 * left + 1
#[cycle(exp_dec)]
fn lo(
    lent: Lent,
    table: &mut [u8; 8192],
    scratch: &mut [u8],
    finds: &mut [u8],
    left: usize,
    e: InfixErr,
    b: usize,
    s: State,
) -> Found
    requires { Sound (mem_of lent table.old scratch.old finds.old s) × (b < 4294967296) }
    ensures { RunsIn left b (decl.local_dec (err_of e)) (mem_of lent.entry table.old scratch.old finds.old s) (mem_of lent.entry table.new scratch.new finds.new (out_state result)) (out_val result) }
{
    if left == 0 {
        let s1 = s.refuse_for(Refusal::TooDeep);
        return end(lent, table, scratch, finds, left, e, b, s1);
    }
    let s1 = s.mark();
    let c = s1.len;
    let s2 = bump(lent.toks, scratch, s1);
    let got = dec(lent, table, scratch, finds, left - 1, e, s2);
    let s3 = either(got);
    let s4 = leave_node(scratch, Node::LocalDecHd, c, s2, s3);
    end(lent, table, scratch, finds, left, e, b, s4)
}

// Its second part, from `in` to `end`.
// measure: 64 * left
// shuts: decl.ended util.want util.eat
#[cycle(exp_dec)]
fn end(
    lent: Lent,
    table: &mut [u8; 8192],
    scratch: &mut [u8],
    finds: &mut [u8],
    left: usize,
    e: InfixErr,
    b: usize,
    s: State,
) -> Found
    requires { Sound (mem_of lent table.old scratch.old finds.old s) × (b < 4294967296) }
    ensures { RunsIn left b (decl.local_tail (err_of e)) (mem_of lent.entry table.old scratch.old finds.old s) (mem_of lent.entry table.new scratch.new finds.new (out_state result)) (out_val result) }
{
    if left == 0 {
        return Ok(s.refuse_for(Refusal::TooDeep));
    }
    let s1 = s.mark();
    let c = s1.len;
    let s2 = want(lent.toks, scratch, finds, kind::IN_KW, s1);
    let got = dec(lent, table, scratch, finds, left - 1, e, s2);
    let s3 = either(got);
    let s4 = close_node(scratch, Node::LocalDecTl, c, s3);
    let end = end_node(lent, table, scratch, finds, left, LOCAL, b, s4);
    Ok(end)
}

// `str_exp`, or the finding that there is no structure.
// measure: 64 * left + 2
#[cycle(exp_dec)]
fn stm(
    lent: Lent,
    table: &mut [u8; 8192],
    scratch: &mut [u8],
    finds: &mut [u8],
    left: usize,
    s: State,
) -> State
    requires { Sound (mem_of lent table.old scratch.old finds.old s) }
    ensures { Runs left decl.str_must (mem_of lent.entry table.old scratch.old finds.old s) (mem_of lent.entry table.new scratch.new finds.new result) 0 }
{
    let got = stx(lent, table, scratch, finds, left, s);
    match got {
        Ok(s1) => s1,
        Err(s1) => report_error(finds, ErrorKind::Expected(Expected::StrExp), s1),
    }
}

// `sig_exp`, or the finding that there is no signature.
// measure: 64 * left + 1
#[cycle(exp_dec)]
fn sgm(
    lent: Lent,
    table: &mut [u8; 8192],
    scratch: &mut [u8],
    finds: &mut [u8],
    left: usize,
    s: State,
) -> State
    requires { Sound (mem_of lent table.old scratch.old finds.old s) }
    ensures { Runs left decl.sig_must (mem_of lent.entry table.old scratch.old finds.old s) (mem_of lent.entry table.new scratch.new finds.new result) 0 }
{
    let got = sgx(lent, table, scratch, finds, left, s);
    match got {
        Ok(s1) => s1,
        Err(s1) => report_error(finds, ErrorKind::Expected(Expected::SigExp), s1),
    }
}

// `ascription_tail`: `:` or `:>`, and a signature.
// measure: 64 * left
#[cycle(exp_dec)]
fn asc(
    lent: Lent,
    table: &mut [u8; 8192],
    scratch: &mut [u8],
    finds: &mut [u8],
    left: usize,
    s: State,
) -> State
    requires { Sound (mem_of lent table.old scratch.old finds.old s) }
    ensures { Runs left (decl.ascription_tail {g = true}) (mem_of lent.entry table.old scratch.old finds.old s) (mem_of lent.entry table.new scratch.new finds.new result) 0 }
{
    if left == 0 {
        return s.refuse_for(Refusal::TooDeep);
    }
    let s1 = s.mark();
    let b = s1.len;
    let s2 = bump(lent.toks, scratch, s1);
    let s3 = sgm(lent, table, scratch, finds, left - 1, s2);
    close_node(scratch, Node::AscriptionTail, b, s3)
}

// The same, where an ascription is next.
// measure: 64 * left + 1
#[cycle(exp_dec)]
fn aso(
    lent: Lent,
    table: &mut [u8; 8192],
    scratch: &mut [u8],
    finds: &mut [u8],
    left: usize,
    s: State,
) -> State
    requires { Sound (mem_of lent table.old scratch.old finds.old s) }
    ensures { Runs left (decl.ascription_opt {g = true}) (mem_of lent.entry table.old scratch.old finds.old s) (mem_of lent.entry table.new scratch.new finds.new result) 0 }
{
    let Some(k) = peek(lent.toks, s) else {
        return s;
    };
    if ascription(k) {
        return asc(lent, table, scratch, finds, left, s);
    }
    s
}

// `str_exp`: a structure.
// measure: 64 * left + 1
// unfolds: root.body decl.str_scope
#[cycle(exp_dec)]
fn stx(
    lent: Lent,
    table: &mut [u8; 8192],
    scratch: &mut [u8],
    finds: &mut [u8],
    left: usize,
    s: State,
) -> Found
    requires { Sound (mem_of lent table.old scratch.old finds.old s) }
    ensures { Runs left (Prog.call Rule.str_exp) (mem_of lent.entry table.old scratch.old finds.old s) (mem_of lent.entry table.new scratch.new finds.new (out_state result)) (out_val result) }
{
    let Some(k) = peek(lent.toks, s) else {
        return Err(s);
    };
    if left == 0 {
        return Err(s.refuse_for(Refusal::TooDeep));
    }
    let b = s.len;
    let s1 = s.mark();
    let head = sth(lent, table, scratch, finds, left - 1, k, b, s1);
    match head {
        Err(s2) => Err(s2),
        Ok(s2) => {
            let s3 = stt(lent, table, scratch, finds, left, b, s2);
            Ok(s3)
        }
    }
}

// What a structure starts with, the kind k being next. The fixities of `struct` and `let` end with them.
// measure: 64 * left + 4
#[cycle(exp_dec)]
fn sth(
    lent: Lent,
    table: &mut [u8; 8192],
    scratch: &mut [u8],
    finds: &mut [u8],
    left: usize,
    k: u8,
    b: usize,
    s: State,
) -> Found
    requires { Sound (mem_of lent table.old scratch.old finds.old s) × (b < 4294967296) }
    ensures { RunsIn left b (decl.str_head (suc k)) (mem_of lent.entry table.old scratch.old finds.old s) (mem_of lent.entry table.new scratch.new finds.new (out_state result)) (out_val result) }
{
    if k == kind::STRUCT_KW {
        let s1 = bump(lent.toks, scratch, s);
        let got = dec(lent, table, scratch, finds, left, YES, s1);
        let s2 = either(got);
        let s3 = s1.give_back(s2);
        let end = end_node(lent, table, scratch, finds, left, STRUCT, b, s3);
        return Ok(end);
    }
    if k == kind::LET_KW {
        let s1 = bump(lent.toks, scratch, s);
        let s2 = slt(lent, table, scratch, finds, left, s1);
        let s3 = s1.give_back(s2);
        let end = end_node(lent, table, scratch, finds, left, STR_LET, b, s3);
        return Ok(end);
    }
    if k == kind::NAME {
        if at_n(lent.toks, 1, kind::LROUND, s) {
            return fap(lent, table, scratch, finds, left, b, s);
        }
        return str_path(lent, table, scratch, finds, left, b, s);
    }
    Err(s)
}

// A functor application. The fixities of declarations as its argument end with it.
// measure: 64 * left + 3
// shuts: decl.ended util.want util.eat
#[cycle(exp_dec)]
fn fap(
    lent: Lent,
    table: &mut [u8; 8192],
    scratch: &mut [u8],
    finds: &mut [u8],
    left: usize,
    b: usize,
    s: State,
) -> Found
    requires { Sound (mem_of lent table.old scratch.old finds.old s) × (b < 4294967296) }
    ensures { RunsIn left b decl.str_app (mem_of lent.entry table.old scratch.old finds.old s) (mem_of lent.entry table.new scratch.new finds.new (out_state result)) (out_val result) }
{
    let s1 = app_start(lent, table, scratch, finds, left, s);
    if left == 0 {
        return Ok(s1.refuse_for(Refusal::TooDeep));
    }
    let s2 = s1.mark();
    let c = s2.len;
    let found = stx(lent, table, scratch, finds, left - 1, s2);
    match found {
        Ok(s3) => {
            let s4 = close_node(scratch, Node::AppStrExpArgStrExp, c, s3);
            let end = end_node(lent, table, scratch, finds, left, APPLIED, b, s4);
            Ok(end)
        }
        Err(s3) => {
            let got = dec(lent, table, scratch, finds, left, YES, s3);
            let s4 = either(got);
            let s5 = s3.give_back(s4);
            let end = end_node(lent, table, scratch, finds, left, APPLIED, b, s5);
            Ok(end)
        }
    }
}

// What stands between `let` and `end` in a structure.
// measure: 64 * left + 3
#[cycle(exp_dec)]
fn slt(
    lent: Lent,
    table: &mut [u8; 8192],
    scratch: &mut [u8],
    finds: &mut [u8],
    left: usize,
    s: State,
) -> State
    requires { Sound (mem_of lent table.old scratch.old finds.old s) }
    ensures { Runs left decl.str_let (mem_of lent.entry table.old scratch.old finds.old s) (mem_of lent.entry table.new scratch.new finds.new result) 0 }
{
    let got = dec(lent, table, scratch, finds, left, YES, s);
    let s1 = either(got);
    let s2 = want(lent.toks, scratch, finds, kind::IN_KW, s1);
    stm(lent, table, scratch, finds, left, s2)
}

// The ascriptions behind a structure that started at `b`.
// measure: 64 * left
// advances: str_step_advances
#[cycle(exp_dec)]
fn stt(
    lent: Lent,
    table: &mut [u8; 8192],
    scratch: &mut [u8],
    finds: &mut [u8],
    left: usize,
    b: usize,
    s: State,
) -> State
    requires { Sound (mem_of lent table.old scratch.old finds.old s) × (b < 4294967296) }
    ensures { RunsIn left b (Prog.loop decl.str_step) (mem_of lent.entry table.old scratch.old finds.old s) (mem_of lent.entry table.new scratch.new finds.new result) 0 }
{
    let mut s1 = s;
    loop {
        let Some(k) = peek(lent.toks, s1) else {
            return s1;
        };
        if ascription(k) {
            if left == 0 {
                s1 = s1.refuse_for(Refusal::TooDeep);
                continue;
            }
            let s2 = s1.mark();
            let s3 = asc(lent, table, scratch, finds, left - 1, s2);
            s1 = close_node(scratch, Node::AscriptionStrExp, b, s3);
            continue;
        }
        return s1;
    }
}

// `sig_exp`: a signature. The fixities of `sig` end with it.
// measure: 64 * left
// unfolds: root.body decl.sig_scope decl.sig_head
#[cycle(exp_dec)]
fn sgx(
    lent: Lent,
    table: &mut [u8; 8192],
    scratch: &mut [u8],
    finds: &mut [u8],
    left: usize,
    s: State,
) -> Found
    requires { Sound (mem_of lent table.old scratch.old finds.old s) }
    ensures { Runs left (Prog.call Rule.sig_exp) (mem_of lent.entry table.old scratch.old finds.old s) (mem_of lent.entry table.new scratch.new finds.new (out_state result)) (out_val result) }
{
    let Some(k) = peek(lent.toks, s) else {
        return Err(s);
    };
    if left == 0 {
        return Err(s.refuse_for(Refusal::TooDeep));
    }
    let n = left - 1;
    let b = s.len;
    let s1 = s.mark();
    if k == kind::SIG_KW {
        let s2 = bump(lent.toks, scratch, s1);
        let got = dec(lent, table, scratch, finds, n, NO, s2);
        let s3 = either(got);
        let s4 = s2.give_back(s3);
        let s5 = end_node(lent, table, scratch, finds, n, SIG, b, s4);
        return Ok(wheres(lent, table, scratch, finds, left, b, s5));
    }
    if k == kind::NAME {
        let s2 = bump(lent.toks, scratch, s1);
        let s3 = close_node(scratch, Node::NameSigExp, b, s2);
        return Ok(wheres(lent, table, scratch, finds, left, b, s3));
    }
    Err(s1)
}

// The signatures behind `include`.
// measure: 64 * left + 1
// advances: sig_exp_advances
#[cycle(exp_dec)]
fn ic(
    lent: Lent,
    table: &mut [u8; 8192],
    scratch: &mut [u8],
    finds: &mut [u8],
    left: usize,
    b: usize,
    s: State,
) -> State
    requires { Sound (mem_of lent table.old scratch.old finds.old s) }
    ensures { RunsIn left b (Prog.loop (Prog.call Rule.sig_exp)) (mem_of lent.entry table.old scratch.old finds.old s) (mem_of lent.entry table.new scratch.new finds.new result) 0 }
{
    let mut s1 = s;
    loop {
        let turn = sgx(lent, table, scratch, finds, left, s1);
        match turn {
            Ok(s2) => s1 = s2,
            Err(s2) => return s2,
        }
    }
}

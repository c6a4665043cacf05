// Parse utilities: util.rs, and `eat` of event_parse.
// Its loops over turns are the source's closures over the parser: one small loop per use (document 01).
#![tactic(auto)]

ghost use Rattle.std.specs.Prelude.{◌≡◌, suc, ◌+◌, ◌-◌, ◌*◌, ◌<◌, true, not};
ghost use Rattle.grammar.specs.Prog.{Prog};
ghost use Rattle.grammar.specs.Util as util;
ghost use Rattle.parser.specs.View.{Reads, Logs, Holds, Sound, mem_of, out_state, out_val};
ghost use Rattle.parser.specs.Runs.{Eats, Takes, Always, Runs, RunsIn};

use parser::finding::{ErrorKind, Expected};
use parser::node::Node;
use parser::refusal::Refusal;
use parser::{
    Found, Lent, State, at, at_n, bump, close_node, either, index, kind, peek, peek_n, report_error,
};
use texts::fixity_at;

// The kinds of `name_star`.
pub fn name_star(k: u8) -> bool
    ensures { result ≡ util.is_name_star (suc k) }
{
    matches!(k, kind::NAME | kind::STAR)
}

// The kinds of `name_star_eq`.
pub fn name_star_eq(k: u8) -> bool
    ensures { result ≡ util.is_name_star_eq (suc k) }
{
    matches!(k, kind::NAME | kind::STAR | kind::EQ)
}

// The kinds of `lab`.
fn label(k: u8) -> bool
    ensures { result ≡ util.is_label (suc k) }
{
    matches!(k, kind::NAME | kind::STAR | kind::INT_LIT)
}

// The kinds of `ascription`.
pub fn ascription(k: u8) -> bool
    ensures { result ≡ util.is_ascription (suc k) }
{
    matches!(k, kind::COLON | kind::COLON_GT)
}

// Takes a token of a kind, or reports that it was expected.
pub fn eat(toks: &[u8], scratch: &mut [u8], finds: &mut [u8], want: u8, s: State) -> Found
    requires { Reads toks.now s.at s.count × Logs scratch.old s.len s.used s.room × Holds finds.old s.found s.kept × (want < 128) }
    ensures { Eats (util.eat {g = true} want) toks.now scratch.old finds.old s scratch.new finds.new (out_state result) (out_val result) }
{
    if at(toks, want, s) {
        Ok(bump(toks, scratch, s))
    } else {
        Err(report_error(finds, ErrorKind::Expected(Expected::Kind(want)), s))
    }
}

// The same, where it does not matter which.
pub fn want(toks: &[u8], scratch: &mut [u8], finds: &mut [u8], k: u8, s: State) -> State
    requires { Reads toks.now s.at s.count × Logs scratch.old s.len s.used s.room × Holds finds.old s.found s.kept × (k < 128) }
    ensures { Eats (util.want {g = true} k) toks.now scratch.old finds.old s scratch.new finds.new result 0 }
{
    let got = eat(toks, scratch, finds, k, s);
    either(got)
}

// Takes a token of a kind, where it is next.
pub fn bump_if(toks: &[u8], scratch: &mut [u8], want: u8, s: State) -> State
    requires { Reads toks.now s.at s.count × Logs scratch.old s.len s.used s.room }
    ensures { Takes (util.bump_if {g = true} want) toks.now scratch.old s scratch.new result 0 }
{
    if at(toks, want, s) {
        bump(toks, scratch, s)
    } else {
        s
    }
}

// `:` or `:>`, where it is next.
pub fn bump_ascription(toks: &[u8], scratch: &mut [u8], s: State) -> State
    requires { Reads toks.now s.at s.count × Logs scratch.old s.len s.used s.room }
    ensures { Takes (util.bump_ascription {g = true}) toks.now scratch.old s scratch.new result 0 }
{
    let Some(k) = peek(toks, s) else {
        return s;
    };
    if ascription(k) {
        bump(toks, scratch, s)
    } else {
        s
    }
}

// A name or `*`.
pub fn eat_name_star(toks: &[u8], scratch: &mut [u8], finds: &mut [u8], s: State) -> Found
    requires { Reads toks.now s.at s.count × Logs scratch.old s.len s.used s.room × Holds finds.old s.found s.kept }
    ensures { Eats (util.eat_name_star {g = true}) toks.now scratch.old finds.old s scratch.new finds.new (out_state result) (out_val result) }
{
    let Some(k) = peek(toks, s) else {
        return Err(report_error(finds, ErrorKind::Expected(Expected::Kind(kind::NAME)), s));
    };
    if name_star(k) {
        Ok(bump(toks, scratch, s))
    } else {
        Err(report_error(finds, ErrorKind::Expected(Expected::Kind(kind::NAME)), s))
    }
}

// A label.
pub fn lab(toks: &[u8], scratch: &mut [u8], finds: &mut [u8], s: State) -> State
    requires { Reads toks.now s.at s.count × Logs scratch.old s.len s.used s.room × Holds finds.old s.found s.kept }
    ensures { Eats (util.lab {g = true}) toks.now scratch.old finds.old s scratch.new finds.new result 0 }
{
    let Some(k) = peek(toks, s) else {
        return report_error(finds, ErrorKind::Expected(Expected::Lab), s);
    };
    if label(k) {
        bump(toks, scratch, s)
    } else {
        report_error(finds, ErrorKind::Expected(Expected::Lab), s)
    }
}

// The end of a part of a path that started at `b`, with its dot where there is one.
// unfolds: util.part_end
fn part_end(
    lent: Lent,
    table: &[u8],
    scratch: &mut [u8],
    finds: &mut [u8],
    left: usize,
    b: usize,
    s: State,
) -> Found
    requires { Sound (mem_of lent table.now scratch.old finds.old s) × (b < 4294967296) }
    ensures { RunsIn left b (util.part_end {g = true}) (mem_of lent.entry table.now scratch.old finds.old s) (mem_of lent.entry table.now scratch.new finds.new (out_state result)) (out_val result) }
{
    if at(lent.toks, kind::DOT, s) {
        let s1 = bump(lent.toks, scratch, s);
        Ok(close_node(scratch, Node::NameStarEqDot, b, s1))
    } else {
        Err(close_node(scratch, Node::NameStarEqDot, b, s))
    }
}

// The first part of a path.
fn path_start(
    lent: Lent,
    table: &[u8],
    scratch: &mut [u8],
    finds: &mut [u8],
    left: usize,
    s: State,
) -> Found
    requires { Sound (mem_of lent table.now scratch.old finds.old s) }
    ensures { Runs left (util.path_start {g = true}) (mem_of lent.entry table.now scratch.old finds.old s) (mem_of lent.entry table.now scratch.new finds.new (out_state result)) (out_val result) }
{
    if left == 0 {
        return Err(s.refuse_for(Refusal::TooDeep));
    }
    let s1 = s.mark();
    let b = s1.len;
    let s2 = bump(lent.toks, scratch, s1);
    part_end(lent, table, scratch, finds, left - 1, b, s2)
}

// A further part of a path.
fn path_part(
    lent: Lent,
    table: &[u8],
    scratch: &mut [u8],
    finds: &mut [u8],
    left: usize,
    s: State,
) -> Found
    requires { Sound (mem_of lent table.now scratch.old finds.old s) }
    ensures { Runs left (util.path_part {g = true}) (mem_of lent.entry table.now scratch.old finds.old s) (mem_of lent.entry table.now scratch.new finds.new (out_state result)) (out_val result) }
{
    if left == 0 {
        return Err(s.refuse_for(Refusal::TooDeep));
    }
    let s1 = s.mark();
    let b = s1.len;
    let got = eat_name_star(lent.toks, scratch, finds, s1);
    let s2 = either(got);
    part_end(lent, table, scratch, finds, left - 1, b, s2)
}

// The further parts of a path.
// advances: path_part_advances true
fn path_parts(
    lent: Lent,
    table: &[u8],
    scratch: &mut [u8],
    finds: &mut [u8],
    left: usize,
    b: usize,
    s: State,
) -> State
    requires { Sound (mem_of lent table.now scratch.old finds.old s) }
    ensures { RunsIn left b (Prog.loop (util.path_part {g = true})) (mem_of lent.entry table.now scratch.old finds.old s) (mem_of lent.entry table.now scratch.new finds.new result) 0 }
{
    let mut s1 = s;
    loop {
        let turn = path_part(lent, table, scratch, finds, left, s1);
        match turn {
            Ok(s2) => s1 = s2,
            Err(s2) => return s2,
        }
    }
}

// A path that starts here.
fn path_here(
    lent: Lent,
    table: &[u8],
    scratch: &mut [u8],
    finds: &mut [u8],
    left: usize,
    s: State,
) -> Found
    requires { Sound (mem_of lent table.now scratch.old finds.old s) }
    ensures { Runs left (util.path_here {g = true}) (mem_of lent.entry table.now scratch.old finds.old s) (mem_of lent.entry table.now scratch.new finds.new (out_state result)) (out_val result) }
{
    if left == 0 {
        return Err(s.refuse_for(Refusal::TooDeep));
    }
    let s1 = s.mark();
    let b = s1.len;
    let start = path_start(lent, table, scratch, finds, left - 1, s1);
    match start {
        Ok(s2) => {
            let s3 = path_parts(lent, table, scratch, finds, left - 1, b, s2);
            Ok(close_node(scratch, Node::Path, b, s3))
        }
        Err(s2) => Ok(close_node(scratch, Node::Path, b, s2)),
    }
}

// A path, where one starts.
pub fn path(
    lent: Lent,
    table: &[u8],
    scratch: &mut [u8],
    finds: &mut [u8],
    left: usize,
    s: State,
) -> Found
    requires { Sound (mem_of lent table.now scratch.old finds.old s) }
    ensures { Runs left (util.path {g = true}) (mem_of lent.entry table.now scratch.old finds.old s) (mem_of lent.entry table.now scratch.new finds.new (out_state result)) (out_val result) }
{
    let Some(k) = peek(lent.toks, s) else {
        return Err(s);
    };
    if name_star_eq(k) {
        path_here(lent, table, scratch, finds, left, s)
    } else {
        Err(s)
    }
}

// A path, or the finding that there is none.
pub fn path_must(
    lent: Lent,
    table: &[u8],
    scratch: &mut [u8],
    finds: &mut [u8],
    left: usize,
    s: State,
) -> Found
    requires { Sound (mem_of lent table.now scratch.old finds.old s) }
    ensures { Runs left (util.path_must {g = true}) (mem_of lent.entry table.now scratch.old finds.old s) (mem_of lent.entry table.now scratch.new finds.new (out_state result)) (out_val result) }
{
    let got = path(lent, table, scratch, finds, left, s);
    match got {
        Ok(s1) => Ok(s1),
        Err(s1) => Err(report_error(finds, ErrorKind::Expected(Expected::Path), s1)),
    }
}

// The finding that an `op` stands before a name that is not infix.
fn unnecessary_op(lent: Lent, table: &[u8], scratch: &mut [u8], finds: &mut [u8], s: State) -> State
    requires { Sound (mem_of lent table.now scratch.old finds.old s) }
    ensures { Always (util.unnecessary_op {g = true}) (mem_of lent.entry table.now scratch.old finds.old s) (mem_of lent.entry table.now scratch.new finds.new result) 0 }
{
    if at_n(lent.toks, 2, kind::DOT, s) {
        return s;
    }
    let Some(k) = peek_n(lent.toks, 1, s) else {
        return s;
    };
    if name_star_eq(k) {
        match fixity_at(lent, table, 1, s) {
            None => report_error(finds, ErrorKind::UnnecessaryOp, s),
            Some(_) => s,
        }
    } else {
        s
    }
}

// A path behind `op`.
pub fn path_infix(
    lent: Lent,
    table: &[u8],
    scratch: &mut [u8],
    finds: &mut [u8],
    left: usize,
    s: State,
) -> Found
    requires { Sound (mem_of lent table.now scratch.old finds.old s) }
    ensures { Runs left (util.path_infix {g = true}) (mem_of lent.entry table.now scratch.old finds.old s) (mem_of lent.entry table.now scratch.new finds.new (out_state result)) (out_val result) }
{
    let s1 = unnecessary_op(lent, table, scratch, finds, s);
    let got = eat(lent.toks, scratch, finds, kind::OP_KW, s1);
    let s2 = either(got);
    path_must(lent, table, scratch, finds, left, s2)
}

// The finding that an infix name stands without `op`.
fn without_op(lent: Lent, table: &[u8], scratch: &mut [u8], finds: &mut [u8], s: State) -> State
    requires { Sound (mem_of lent table.now scratch.old finds.old s) }
    ensures { Always (util.without_op {g = true}) (mem_of lent.entry table.now scratch.old finds.old s) (mem_of lent.entry table.now scratch.new finds.new result) 0 }
{
    if at_n(lent.toks, 1, kind::DOT, s) {
        return s;
    }
    let Some(k) = peek(lent.toks, s) else {
        return s;
    };
    if name_star_eq(k) {
        match fixity_at(lent, table, 0, s) {
            None => s,
            Some(_) => report_error(finds, ErrorKind::InfixWithoutOp(index(s)), s),
        }
    } else {
        s
    }
}

// A path that stands without `op`.
pub fn path_no_infix(
    lent: Lent,
    table: &[u8],
    scratch: &mut [u8],
    finds: &mut [u8],
    left: usize,
    s: State,
) -> Found
    requires { Sound (mem_of lent table.now scratch.old finds.old s) }
    ensures { Runs left (util.path_no_infix {g = true}) (mem_of lent.entry table.now scratch.old finds.old s) (mem_of lent.entry table.now scratch.new finds.new (out_state result)) (out_val result) }
{
    let s1 = without_op(lent, table, scratch, finds, s);
    path_must(lent, table, scratch, finds, left, s1)
}

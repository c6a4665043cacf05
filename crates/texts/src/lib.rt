// What needs a token's text: the fixity of a name and its change, a word, a fixity number.
#![tactic(auto)]

ghost use Rattle.std.specs.Prelude.{◌≡◌, ◌+◌, ◌*◌, ◌≤◌, ◌<◌, length, MatchOption};
ghost use Rattle.grammar.specs.Tokens.{start_at, length_at};
ghost use Rattle.grammar.specs.World.{number_of, some_digits};
ghost use Rattle.grammar.specs.Prog.{Look as Ask, Act, does};
ghost use Rattle.sml_fixity.specs.Fix.{fixity_of};
ghost use Rattle.sml_fixity.specs.Table.{Stands, part};
ghost use Rattle.parser.specs.View.{mem_of, Reads, Names, Sound, Did, Says, Fixed, table_in};
ghost use Rattle.texts.specs.Texts.{Absent, Present, bit, number_val, value_of};

use parser::refusal::Refusal;
use parser::{Lent, State, bump, live_at};
use sml_fixity::Infix;
use sml_fixity::table::{Full, change, find_name, pair, same};

// Why a text is no fixity number.
#[derive(Clone, Copy)]
pub enum NumberErr {
    Negative,
    Invalid,
}

// Where the text of the token `i` starts.
fn start_of(toks: &[u8], i: usize) -> usize
    requires { 5 * i + 5 ≤ length toks.now }
    ensures { result ≡ start_at toks.now i }
{
    pair(toks, 5 * i + 1) as usize
}

// How many bytes it has.
fn length_of(toks: &[u8], i: usize) -> usize
    requires { 5 * i + 5 ≤ length toks.now }
    ensures { result ≡ length_at toks.now i }
{
    pair(toks, 5 * i + 3) as usize
}

// The text of the token `n` ahead, if there is one.
fn text_ahead<'a>(text: &'a [u8], toks: &[u8], n: usize, s: State) -> Option<&'a [u8]>
    requires { Reads toks.now s.at s.count × Names text.now toks.now s.count }
    ensures { MatchOption result (Absent n text.now toks.now s) (λ x. Present n text.now toks.now s x.now) }
{
    let i = live_at(toks, n, s)?;
    let start = start_of(toks, i);
    Some(&text[start..start + length_of(toks, i)])
}

// The fixity of the text of the token `n` ahead.
pub fn fixity_at(lent: Lent, table: &[u8], n: usize, s: State) -> Option<Infix>
    requires { Reads lent.toks.now s.at s.count × Names lent.text.now lent.toks.now s.count × Stands lent.text.now lent.env.now table.now (table_in s) }
    ensures { Fixed n lent.entry.text.now lent.entry.toks.now lent.entry.env.now table.now s result }
{
    find_name(
        lent.text,
        lent.env,
        table,
        s.fixes,
        text_ahead(lent.text, lent.toks, n, s)?,
    )
}

// Whether the next token's text is this word.
pub fn says(text: &[u8], toks: &[u8], word: &[u8], s: State) -> bool
    requires { Reads toks.now s.at s.count × Names text.now toks.now s.count }
    ensures { Says (Ask.says word.now) text.now toks.now s (bit result) }
{
    match text_ahead(text, toks, 0, s) {
        Some(x) => same(x, word),
        None => false,
    }
}

// The number of so many digits, at least one. Once it is too large it stays so, whatever follows.
// A loop, and not `parse`: it ends at the first byte that is no digit, or once the number is too large.
#[tactic(auto, using(crate::proofs::Texts::digits_large))]
fn digits_in(text: &[u8], start: usize, len: usize) -> Result<u16, NumberErr>
    requires { start + len ≤ length text.now }
    ensures { number_val result ≡ value_of (some_digits (part text.now start len)) }
{
    if len == 0 {
        return Err(NumberErr::Invalid);
    }
    let mut v: usize = 0;
    for k in 0..len {
        let d = text[start + k];
        if d < b'0' || b'9' < d {
            return Err(NumberErr::Invalid);
        }
        v = 10 * v + (d - b'0') as usize;
        if 65535 < v {
            return Err(NumberErr::Invalid);
        }
    }
    Ok(v as u16)
}

// The fixity number in a text: as of `parse::<u16>`, but for a leading `~`.
fn number_in(text: &[u8]) -> Result<u16, NumberErr>
    ensures { number_val result ≡ number_of text.now }
{
    let [first, ..] = text else {
        return Err(NumberErr::Invalid);
    };
    match first {
        b'~' => Err(NumberErr::Negative),
        b'+' => digits_in(text, 1, text.len() - 1),
        _ => digits_in(text, 0, text.len()),
    }
}

// The fixity number that is the next token.
pub fn number_at(text: &[u8], toks: &[u8], s: State) -> Result<u16, NumberErr>
    requires { Reads toks.now s.at s.count × Names text.now toks.now s.count }
    ensures { Says Ask.number text.now toks.now s (number_val result) }
{
    match text_ahead(text, toks, 0, s) {
        Some(x) => number_in(x),
        None => Err(NumberErr::Invalid),
    }
}

// Takes the next token, whose text gets the fixity from here on.
pub fn take_as(
    lent: Lent,
    table: &mut [u8],
    scratch: &mut [u8],
    finds: &[u8],
    f: Option<Infix>,
    s: State,
) -> State
    requires { Sound (mem_of lent table.old scratch.old finds.now s) }
    ensures { Did (does (Act.take_as (fixity_of f))) (mem_of lent.entry table.old scratch.old finds.now s) (mem_of lent.entry table.new scratch.new finds.now result) }
{
    if s.is_refused() || s.count <= s.at {
        return s;
    }
    let r = bump(lent.toks, scratch, s);
    if r.is_refused() {
        return r;
    }
    let start = start_of(lent.toks, s.at);
    let len = length_of(lent.toks, s.at);
    match change(lent.text, lent.env, table, r.fixes, start, len, f) {
        Ok(t) => State { fixes: t, ..r },
        Err(Full) => r.refuse_for(Refusal::NoFixity),
    }
}

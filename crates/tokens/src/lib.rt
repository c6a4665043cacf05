// The lent text and token records: the tests behind the answers 1 and 2, and the text of a token.
#![tactic(auto)]

ghost use Rattle.std.specs.Prelude.{◌≡◌, ◌+◌, ◌*◌, ◌≤◌, ◌&&◌, length};
ghost use Rattle.grammar.specs.Tokens.{end_at, end_before, record_count, lists_fit, record_fits, records_fit, token_part, token_text};
ghost use Rattle.grammar.specs.Read.{settings_fit};
ghost use Rattle.tokens.specs.Checks.{settings, stands_at, Lies};

use sml_fixity::table::pair;

// Answer 1's test of the text and the records.
#[tactic(auto, unfolding(grammar::specs::Tokens::lists_fit))]
pub fn lists_fit(text: &[u8], toks: &[u8]) -> bool
    ensures { result ≡ lists_fit text.now toks.now }
{
    text.len() <= 65535 && toks.len() <= 5 * 13107 && toks.len() % 5 == 0
}

// Answer 1's whole test. The settings are wider than their ranges, so that no caller's number is cut into one.
#[tactic(auto, unfolding(grammar::specs::Read::settings_fit))]
pub fn settings_fit(text: &[u8], toks: &[u8], depth: u64, mode: u64) -> bool
    ensures { result ≡ settings_fit (settings text.now toks.now depth mode) }
{
    (1..=1000).contains(&depth) && mode <= 2 && lists_fit(text, toks)
}

// Where the record `i` ends in the text, in a type that its start and its length cannot wrap.
// By index, here and below: the definitions and the public `record_fits` go by index.
fn end_at(toks: &[u8], i: usize) -> usize
    requires { 5 * i + 5 ≤ length toks.now }
    ensures { result ≡ end_at toks.now i }
{
    let start = pair(toks, 5 * i + 1) as usize;
    start + pair(toks, 5 * i + 3) as usize
}

// Where the record before `i` claims to end, be it good or not.
fn end_before(toks: &[u8], i: usize) -> usize
    requires { 5 * i ≤ length toks.now }
    ensures { result ≡ end_before toks.now i }
{
    if i == 0 { 0 } else { end_at(toks, i - 1) }
}

// Answer 2's test of a record that is there.
#[tactic(auto, unfolding(grammar::specs::Tokens::record_fits))]
fn fits_at(n: usize, toks: &[u8], i: usize) -> bool
    requires { 5 * i + 5 ≤ length toks.now }
    ensures { result ≡ record_fits n toks.now i }
{
    toks[5 * i] <= 69
        && 1 <= pair(toks, 5 * i + 3)
        && end_before(toks, i) <= pair(toks, 5 * i + 1) as usize
        && end_at(toks, i) <= n
}

// Whether there is a record `i`, and it fits a text of `n` bytes.
pub fn record_fits(n: usize, toks: &[u8], i: usize) -> bool
    ensures { result ≡ stands_at n toks.now i }
{
    i < toks.len() / 5 && fits_at(n, toks, i)
}

// Answer 2's test of all records.
pub fn records_fit(n: usize, toks: &[u8]) -> bool
    ensures { result ≡ records_fit n toks.now (record_count toks.now) }
{
    (0..toks.len() / 5).all(|i| fits_at(n, toks, i))
}

// Whether the token `i` has a text to report.
fn has_text(text: &[u8], toks: &[u8], i: usize) -> bool
    ensures { result ≡ (lists_fit text.now toks.now && stands_at (length text.now) toks.now i) }
{
    lists_fit(text, toks) && record_fits(text.len(), toks, i)
}

// The text of the token `i`, for reports: a part of the lent text, the empty one at its start where there is none.
pub fn token_text<'a>(text: &'a [u8], toks: &[u8], i: usize) -> &'a [u8]
    ensures { (result.now ≡ token_text text.now toks.now i) × Lies text.entry result (token_part text.now toks.now i) }
{
    if !has_text(text, toks, i) {
        return &text[0..0];
    }
    let start = pair(toks, 5 * i + 1) as usize;
    let end = end_at(toks, i);
    &text[start..end]
}

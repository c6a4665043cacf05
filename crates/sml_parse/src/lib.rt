// The parser as it is called: sml-parse's lib.rs, with the tests of what is lent.
#![tactic(auto)]

ghost use Rattle.std.specs.Prelude.{◌≡◌, ◌≤◌, length};
ghost use Rattle.grammar.specs.Read.{reading, finish, read};
ghost use Rattle.sml_fixity.specs.Table.{entries_in};
ghost use Rattle.answers.specs.Entry.{call_of, result_of, with_scratch, cleared_to, served, Tested};

use answers::Answer;
use answers::hand::hand_out;
use answers::refusal::refuse_all;
use answers::start::start_state;
use clearing::clear;
use env_bytes::form::form_of;
use parser::Lent;
use parser::refusal::Refusal;
use tokens::{records_fit, settings_fit};

pub mod export;
pub mod root;

// The most bytes of scratch whose records' numbers fit four bytes.
const MOST_SCRATCH: usize = 2147483640;

// The reading, with a journal of fixity changes that is lent.
fn read_into(
    lent: Lent,
    table: &mut [u8; 8192],
    depth: usize,
    mode: usize,
    scratch: &mut [u8],
    nodes: &mut [u8],
    finds: &mut [u8],
    last: &mut [u8],
    entries: usize,
) -> Answer
    requires { Tested lent.text.now lent.toks.now lent.env.now entries × (8192 ≤ length table.old) × (length scratch.old ≤ 2147483640) }
    ensures { result_of result scratch.new nodes.new finds.new last.new ≡ finish (call_of lent.entry.text.now lent.entry.toks.now lent.entry.env.now depth mode scratch.old nodes.old finds.old last.old) (reading (call_of lent.entry.text.now lent.entry.toks.now lent.entry.env.now depth mode scratch.old nodes.old finds.old last.old) (entries_in lent.entry.env.now)) }
{
    let s = start_state(lent, table, scratch, finds, entries, mode);
    let end = root::root(lent, table, scratch, finds, depth, s);
    match end.refusal() {
        Some(why) => refuse_all(scratch, nodes, finds, last, why),
        None => hand_out(lent, table, scratch, nodes, finds, last, end),
    }
}

// The same with an array for the 1,024 changes that one call may make.
fn read_with(
    lent: Lent,
    depth: usize,
    mode: usize,
    scratch: &mut [u8],
    nodes: &mut [u8],
    finds: &mut [u8],
    last: &mut [u8],
    entries: usize,
) -> Answer
    requires { Tested lent.text.now lent.toks.now lent.env.now entries × (length scratch.old ≤ 2147483640) }
    ensures { result_of result scratch.new nodes.new finds.new last.new ≡ finish (call_of lent.entry.text.now lent.entry.toks.now lent.entry.env.now depth mode scratch.old nodes.old finds.old last.old) (reading (call_of lent.entry.text.now lent.entry.toks.now lent.entry.env.now depth mode scratch.old nodes.old finds.old last.old) (entries_in lent.entry.env.now)) }
{
    let mut table = [0u8; 8192];
    read_into(
        lent, &mut table, depth, mode, scratch, nodes, finds, last, entries,
    )
}

// The call, with the tests of the answers 1, 2 and 3 in that order.
fn read_short(
    lent: Lent,
    depth: u64,
    mode: u64,
    scratch: &mut [u8],
    nodes: &mut [u8],
    finds: &mut [u8],
    last: &mut [u8],
) -> Answer
    requires { length scratch.old ≤ 2147483640 }
    ensures { result_of result scratch.new nodes.new finds.new last.new ≡ read (call_of lent.entry.text.now lent.entry.toks.now lent.entry.env.now depth mode scratch.old nodes.old finds.old last.old) }
{
    if !settings_fit(lent.text, lent.toks, depth, mode) {
        return refuse_all(scratch, nodes, finds, last, Refusal::BadSettings);
    }
    if !records_fit(lent.text.len(), lent.toks) {
        return refuse_all(scratch, nodes, finds, last, Refusal::BadRecords);
    }
    let Some(entries) = form_of(lent.env) else {
        return refuse_all(scratch, nodes, finds, last, Refusal::BadEnv);
    };
    read_with(
        lent,
        depth as usize,
        mode as usize,
        scratch,
        nodes,
        finds,
        last,
        entries,
    )
}

// The call over the first `n` bytes of scratch: the rest is cleared.
fn read_part(
    lent: Lent,
    depth: u64,
    mode: u64,
    scratch: &mut [u8],
    nodes: &mut [u8],
    finds: &mut [u8],
    last: &mut [u8],
    n: usize,
) -> Answer
    requires { (n ≤ length scratch.old) × (n ≤ 2147483640) }
    ensures { result_of result scratch.new nodes.new finds.new last.new ≡ cleared_to (read (with_scratch (call_of lent.entry.text.now lent.entry.toks.now lent.entry.env.now depth mode scratch.old nodes.old finds.old last.old) n)) (length scratch.old) }
{
    clear(scratch, 0);
    read_short(lent, depth, mode, &mut scratch[..n], nodes, finds, last)
}

// Reads the tokens of a text, for all that can be lent and set. The settings are wider than their ranges, so that no caller's number is cut into one.
pub fn read(
    text: &[u8],
    toks: &[u8],
    env: &[u8],
    depth: u64,
    mode: u64,
    scratch: &mut [u8],
    nodes: &mut [u8],
    finds: &mut [u8],
    last: &mut [u8],
) -> Answer
    ensures { result_of result scratch.new nodes.new finds.new last.new ≡ served (call_of text.now toks.now env.now depth mode scratch.old nodes.old finds.old last.old) }
{
    let lent = Lent { text, toks, env };
    if scratch.len() <= MOST_SCRATCH {
        return read_short(lent, depth, mode, scratch, nodes, finds, last);
    }
    read_part(lent, depth, mode, scratch, nodes, finds, last, MOST_SCRATCH)
}

// Changes, looks and a scope's end on a full table of 256 entries and 1,024 changes.
// What it finds is held to `stdout`; what it costs is measured from outside, by tools/measure.
#![tactic(auto)]

ghost use Rattle.std.specs.Prelude.{◌≡◌, ◌≤◌, length};
ghost use Rattle.sml_fixity.specs.Table.{Stands};
ghost use Rattle.fixity_bench.specs.Bench.{Grown};

use env_bytes::{basis, form};
use input::read_full;
use sml_fixity::Infix;
use sml_fixity::table::{self, Table};
use std::io;

// The names of the text: the first have entries, all but the last are changed.
const NAMES: usize = 1025;

const ENTRIES: usize = 256;

// Writes the names, in order. They differ in the last two of their eight bytes only, so that no comparison ends early.
fn fill_text(text: &mut [u8])
    requires { length text.old ≡ 8200 }
{
    for k in 0..NAMES {
        text[8 * k + 6] = (48 + k / 64) as u8;
        text[8 * k + 7] = (48 + k % 64) as u8;
    }
}

// Writes the entries.
fn fill_env(text: &[u8], env: &mut [u8])
    requires { (length text.now ≡ 8200) × (length env.old ≡ 3072) }
{
    for k in 0..ENTRIES {
        let name = &text[8 * k..8 * k + 8];
        basis::put_entry(env, 12 * k, name, Infix::left((k % 7) as u16));
    }
}

// What the change k makes of its name: an entry gets another fixity, any other name stays without one.
fn change_of(k: usize) -> Option<Infix> {
    (k < ENTRIES).then(|| Infix::right((k % 10) as u16))
}

// Changes one name after the other until the table is full. None was changed before, so each look goes through the whole journal.
fn change_all(text: &[u8], env: &[u8], journal: &mut [u8], t: Table) -> Table
    requires { Stands text.now env.now journal.old t × (length text.now ≡ 8200) }
    ensures { Grown text.now env.now journal.old t journal.new result }
{
    let mut full = t;
    for k in 0..NAMES {
        let f = change_of(k);
        let Ok(next) = table::change(text, env, journal, full, 8 * k, 8, f) else {
            return full;
        };
        full = next;
    }
    full
}

// A number for what was found.
fn worth(f: Option<Infix>) -> u64
    ensures { result ≤ 65536 }
{
    match f {
        None => 0,
        Some(i) => i.prec as u64 + 1,
    }
}

// Looks for each name once, and adds up what was found. A loop and no `sum`, of which the check does not find that it fits.
fn find_all(text: &[u8], env: &[u8], journal: &[u8], t: Table) -> u64
    requires { Stands text.now env.now journal.now t × (length text.now ≡ 8200) }
{
    let mut sum = 0;
    for k in 0..NAMES {
        sum += worth(table::find(text, env, journal, t, 8 * k, 8));
    }
    sum
}

// Writes a line.
fn say(rt: &impl Print, what: &[u8], n: u64) -> io::Result<()> {
    rt.write_all(what)?;
    println!(rt; "{n}")
}

// The first `parts` of three: the changes, the looks in the full table, and the scope's end with the looks behind it.
fn run(rt: &impl Print, text: &[u8], env: &[u8], journal: &mut [u8], parts: usize) -> io::Result<()>
    requires { (length text.now ≡ 8200) × (length journal.old ≡ 8192) }
{
    let Some(n) = form::form_of(env) else {
        return Ok(());
    };
    let start = Table::begin(n);
    if parts < 1 {
        return Ok(());
    }
    let full = change_all(text, env, journal, start);
    say(rt, b"entries ", full.entries as u64)?;
    say(rt, b"changes ", full.changes as u64)?;
    if parts < 2 {
        return Ok(());
    }
    say(
        rt,
        b"found in the full table ",
        find_all(text, env, journal, full),
    )?;
    if parts < 3 {
        return Ok(());
    }
    let left = start.leave(full);
    say(
        rt,
        b"found behind the scope ",
        find_all(text, env, journal, left),
    )
}

// The input has a byte for each part that is to be run, so that their costs can be told apart.
fn main(rt: HostRuntime) -> io::Result<()> {
    let mut input = [0u8; 4096];
    let parts = read_full(&mut rt.stdin(), &mut input)?;
    let mut text = [b'f'; 8200];
    let mut env = [0u8; 3072];
    let mut journal = [0u8; 8192];
    fill_text(&mut text);
    fill_env(&text, &mut env);
    run(&rt, &text, &env, &mut journal, parts)
}

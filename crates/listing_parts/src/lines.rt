// The lines of a listing.

use crate::names::{node_name, token_name};
use std::io;

// The first byte of a node record that opens a node, and of one that is a token: numbers, since a record with any other is listed as a close.
const OPENS: u8 = 1;

const TOKEN: u8 = 2;

// A finding's code is its number and this.
const CODES: u16 = 3000;

// The name index of a finding that has none: document 01's number for none.
const NO_NAME: u16 = 65535;

// Writes a node record: what happens, a kind, and a token's index.
fn write_record(rt: &impl Print, record: [u8; 4]) -> io::Result<()> {
    let [what, kind, low, high] = record;
    match what {
        OPENS => println!(rt; "open {}", node_name(kind)),
        TOKEN => println!(rt;
            "token {} {}",
            u16::from_le_bytes([low, high]),
            token_name(kind)
        ),
        _ => println!(rt; "close {}", node_name(kind)),
    }
}

// Lists node records.
pub fn list_nodes(rt: &impl Print, nodes: &[u8]) -> io::Result<()> {
    let (records, _) = nodes.as_chunks::<4>();
    for record in records {
        write_record(rt, *record)?;
    }
    Ok(())
}

// Writes a finding: its number and detail, the token where it is, and the index of its name.
fn write_finding(rt: &impl Print, finding: [u8; 8]) -> io::Result<()> {
    let [
        number,
        detail,
        place_low,
        place_high,
        name_low,
        name_high,
        _,
        _,
    ] = finding;
    let code = CODES + u16::from(number);
    let place = u16::from_le_bytes([place_low, place_high]);
    print!(rt; "error {code} {detail} {place} ")?;
    match u16::from_le_bytes([name_low, name_high]) {
        NO_NAME => println!(rt; "-"),
        name => println!(rt; "{name}"),
    }
}

// Lists findings.
pub fn list_finds(rt: &impl Print, finds: &[u8]) -> io::Result<()> {
    let (findings, _) = finds.as_chunks::<8>();
    for finding in findings {
        write_finding(rt, *finding)?;
    }
    Ok(())
}

// How many entries the bytes of an environment have: each is a length, a name so long, and three bytes.
// It goes by no index: each entry's length stands in it.
fn entry_count(env: &[u8]) -> usize {
    let mut n = 0;
    let mut rest = env;
    while let [name_len, behind @ ..] = rest {
        n += 1;
        rest = behind.get(usize::from(*name_len) + 3..).unwrap_or(&[]);
    }
    n
}

// Lists an environment, by the number of its entries.
pub fn list_env(rt: &impl Print, env: &[u8]) -> io::Result<()> {
    println!(rt; "environment {}", entry_count(env))
}

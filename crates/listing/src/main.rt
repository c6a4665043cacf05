// The listing program: one token file on standard input, its reading as lines on standard output (document 01).
#![tactic(auto)]

use answers::numbers;
use env_bytes::basis;
use input::read_full;
use listing_parts::list_answer;
use std::io;
use token_file::TokenFile;

// Reads the tokens of a file from the standard environment, and lists what came of it.
fn list(rt: &impl Print, file: TokenFile) -> io::Result<()> {
    let mut env = [0; 104];
    let mut scratch = [0; 65536];
    let mut nodes = [0; 65536];
    let mut finds = [0; 65536];
    let mut last = [0; 65536];
    basis::std_basis(&mut env);
    let answer = sml_parse::read(
        file.text,
        file.toks,
        &env,
        u64::from(file.depth),
        u64::from(file.mode),
        &mut scratch,
        &mut nodes,
        &mut finds,
        &mut last,
    );
    let (number, used) = numbers(answer);
    list_answer(rt, number, used, &nodes, &finds, &last)
}

// One byte more than a token file may have is asked for, so that a longer input is seen.
fn main(rt: HostRuntime) -> io::Result<()> {
    let mut input = [0; 65537];
    let n = read_full(&mut rt.stdin(), &mut input)?;
    match token_file::parse(&input[..n]) {
        Some(file) => list(&rt, file),
        None => println!(rt; "bad file"),
    }
}

// The replay program: a list of cases with the Rust's answers on standard input, how many answers differ on standard output.
#![tactic(auto)]

ghost use Rattle.std.specs.Prelude.{◌≡◌, true};
ghost use Rattle.replay_parts.specs.Form.{is_list, case_count, first_case};
ghost use Rattle.replay_parts.specs.Agree.{differing};

use input::read_full;
use replay_parts::form::{FIRST, is_list, number, split_case};
use run::case_agrees;
use std::io;

mod run;

// How many cases of a list are answered otherwise than it says. All of them are run, whatever the others came to.
fn count_differing(list: &[u8]) -> usize
    requires { is_list list.now ≡ true }
    ensures { result ≡ differing (case_count list.now) list.now first_case }
{
    let count = number(list, 0);
    let mut rest = &list[FIRST..];
    let mut n = 0;
    for _ in 0..count {
        let (case, behind) = split_case(rest).unwrap();
        if !case_agrees(&case) {
            n += 1;
        }
        rest = behind;
    }
    n
}

// Replays a list, and writes what came of it as a line: the number of cases before any of them is run.
fn replay(rt: &impl Print, list: &[u8]) -> io::Result<()>
    requires { is_list list.now ≡ true }
{
    print!(rt; "{} answers, ", number(list, 0))?;
    println!(rt; "{} differ", count_differing(list))
}

// One byte more than a list may have is asked for, so that a longer input is seen.
fn main(rt: HostRuntime) -> io::Result<()> {
    let mut input = [0; 131073];
    let n = read_full(&mut rt.stdin(), &mut input)?;
    let list = &input[..n];
    if is_list(list) {
        replay(&rt, list)
    } else {
        println!(rt; "bad list")
    }
}

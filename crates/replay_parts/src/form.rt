// The form of a list: how many cases there are, and behind it the cases, each a head of numbers and the bytes that they count.
ghost use Rattle.std.specs.Prelude.{◌≡◌, ◌+◌, ◌≤◌, ◌<◌, false, length, take, drop, MatchOption};
ghost use Rattle.grammar.specs.Bytes.{pair_at};
ghost use Rattle.replay_parts.specs.Form.{max_list, head_size, long_at, env_end, case_end, fits_at, ends_at, is_list};
ghost use Rattle.replay_parts.specs.Case.{Splits};

use crate::Case;

// The most bytes of a list.
const MOST: usize = 131072;

// Where the first case stands.
pub const FIRST: usize = 2;

// The bytes of a case's head.
pub const HEAD: usize = 37;

// Where the numbers stand in a head: the lengths of what is lent to read, of which the text's stands in front;
pub const TOKS: usize = 2;

const ENV: usize = 4;

// the used lengths that must be answered;
pub const NODES_USED: usize = 6;

pub const FINDS_USED: usize = 8;

pub const LAST_USED: usize = 10;

// the lengths of what is lent to write;
pub const SCRATCH_ROOM: usize = 12;

pub const NODES_ROOM: usize = 14;

pub const FINDS_ROOM: usize = 16;

pub const LAST_ROOM: usize = 18;

// the settings, and the answer.
pub const DEPTH: usize = 20;

pub const MODE: usize = 28;

pub const ANSWER: usize = 36;

// A byte as a number.
pub fn wide(x: u8) -> usize
    ensures { result ≡ x }
{
    usize::from(x)
}

// `N` bytes from `at` on.
fn bytes_at<const N: usize>(list: &[u8], at: usize) -> [u8; N]
    requires { at + N ≤ length list.now }
    ensures { result ≡ take N (drop at list.now) }
{
    *list[at..].first_chunk().unwrap()
}

// The number in two bytes.
pub fn number(list: &[u8], at: usize) -> u16
    requires { at + 2 ≤ length list.now }
    ensures { result ≡ pair_at list.now at }
{
    u16::from_le_bytes(bytes_at(list, at))
}

// The number in eight bytes.
pub fn long(list: &[u8], at: usize) -> u64
    requires { at + 8 ≤ length list.now }
    ensures { result ≡ long_at list.now at }
{
    u64::from_le_bytes(bytes_at(list, at))
}

// Where what a case lends to read ends: behind text, records and environment.
pub fn env_end(list: &[u8], at: usize) -> usize
    requires { (at + head_size ≤ length list.now) × (length list.now ≤ max_list) }
    ensures { (result ≡ env_end list.now at) × (result ≤ 400000) }
{
    at + HEAD
        + usize::from(number(list, at))
        + usize::from(number(list, at + TOKS))
        + usize::from(number(list, at + ENV))
}

// Where a case ends, whole or cut: behind the bytes that must be handed out.
pub fn case_end(list: &[u8], at: usize) -> usize
    requires { (at + head_size ≤ length list.now) × (length list.now ≤ max_list) }
    ensures { result ≡ case_end list.now at }
{
    env_end(list, at)
        + usize::from(number(list, at + NODES_USED))
        + usize::from(number(list, at + FINDS_USED))
        + usize::from(number(list, at + LAST_USED))
}

// The first `len` bytes, and those behind them; none where there are fewer.
fn split(rest: &[u8], len: u16) -> Option<(&[u8], &[u8])>
    ensures { MatchOption result (length rest.now < len) (λ p. (p.0.now ≡ take len rest.now) × (p.1.now ≡ drop len rest.now) × (length p.0.now ≡ len) × (length p.1.now + len ≡ length rest.now)) }
{
    rest.split_at_checked(usize::from(len))
}

// The case in front of these bytes, and what stands behind it; none where no whole case stands there.
pub fn split_case(list: &[u8]) -> Option<(Case<'_>, &[u8])>
    ensures { MatchOption result (fits_at list.now 0 ≡ false) (λ p. Splits list.now p.0 p.1.now) }
{
    let rest = list.get(HEAD..)?;
    let (text, rest) = split(rest, number(list, 0))?;
    let (toks, rest) = split(rest, number(list, TOKS))?;
    let (env, rest) = split(rest, number(list, ENV))?;
    let (nodes, rest) = split(rest, number(list, NODES_USED))?;
    let (finds, rest) = split(rest, number(list, FINDS_USED))?;
    let (last, rest) = split(rest, number(list, LAST_USED))?;
    let case = Case {
        text,
        toks,
        env,
        depth: long(list, DEPTH),
        mode: long(list, MODE),
        scratch_room: number(list, SCRATCH_ROOM),
        nodes_room: number(list, NODES_ROOM),
        finds_room: number(list, FINDS_ROOM),
        last_room: number(list, LAST_ROOM),
        answer: list[ANSWER],
        nodes,
        finds,
        last,
    };
    if !case.has_room() {
        return None;
    }
    Some((case, rest))
}

// Whether so many cases stand in front of these bytes, and nothing behind them.
fn cases_end(list: &[u8], count: u16) -> bool
    ensures { result ≡ ends_at count list.now 0 }
{
    let mut rest = list;
    for _ in 0..count {
        let Some((_, behind)) = split_case(rest) else {
            return false;
        };
        rest = behind;
    }
    rest.is_empty()
}

// Whether these bytes are a list.
pub fn is_list(list: &[u8]) -> bool
    ensures { result ≡ is_list list.now }
{
    if MOST < list.len() || list.len() < FIRST {
        return false;
    }
    cases_end(&list[FIRST..], number(list, 0))
}

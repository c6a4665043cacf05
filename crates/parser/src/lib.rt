// The parser's state and its operations: event_parse by document 01's rules.
#![tactic(auto)]

ghost use Rattle.std.specs.Prelude.{◌≡◌, ℕ, suc, ◌+◌, ◌-◌, ◌*◌, ◌/◌, ◌%◌, ◌≤◌, ◌<◌, List, [], ◌∷◌, ◌++◌, true, false, length, MatchOption};
ghost use Rattle.grammar.specs.World.{World, end, report as reports};
ghost use Rattle.grammar.specs.Prog.{Look as Ask};
ghost use Rattle.parser.specs.Findings.{code_of, detail_of, name_of, spelled};
ghost use Rattle.parser.specs.Nodes.{node_number};
ghost use Rattle.parser.specs.Refusals.{refusal_number, number_of};
ghost use Rattle.parser.specs.View.{Reads, Logs, Holds, Next, NoneAhead, Stood, Saw, Is, Marks, Bumps, Adds, Tells, Spells, put_at, is_off, refused_by, kind_of, out_state, since_of, back_of};

use finding::ErrorKind;
use node::Node;
use refusal::Refusal;
use sml_fixity::table::Table;

pub mod finding;
pub mod kind;
pub mod node;
pub mod refusal;

// The name of a finding that carries none.
pub const NO_NAME: usize = 65535;

// The tags of the log's records: a token that was read, a node that ended. They are numbers, since the log is read back as bytes.
pub const TOOK: u8 = 1;

const ENDED: u8 = 2;

// What a reading is lent to read: the text, the token records, the starting environment. The slices that are written (the journal, the log, the
// findings) stay parameters of their own, since their types say which of them a function may change.
#[derive(Clone, Copy)]
pub struct Lent<'a> {
    pub text: &'a [u8],
    pub toks: &'a [u8],
    pub env: &'a [u8],
}

// Where a reading stands: the next token that is no trivia and the count of records, the log's records, the scratch records used of the
// room, the findings held of those that fit, the fixities in force, the mode, and the number by which it was refused, or 0. A value beside the
// lent buffers (document 01), so what holds of both, `Sound`, stands in each contract. All fields are of one width: with an `Option<Refusal>` here the whole
// parser takes a fifth more instructions, since a copy of the state is no more made of whole words.
#[derive(Clone, Copy)]
pub struct State {
    pub at: usize,
    pub count: usize,
    pub len: usize,
    pub used: usize,
    pub room: usize,
    pub found: usize,
    pub kept: usize,
    pub fixes: Table,
    pub mode: usize,
    pub stop: usize,
}

// Whether to report infix names that stand without `op`.
#[derive(Clone, Copy)]
pub enum InfixErr {
    No,
    Yes,
}

// The state behind a rule: it found what it reads, or did not.
pub type Found = Result<State, State>;

// The state, found or not.
pub fn either(found: Found) -> State
    ensures { result ≡ out_state found }
{
    match found {
        Ok(s) | Err(s) => s,
    }
}

impl State {
    // Whether the reading was refused.
    pub fn is_refused(self) -> bool
        ensures { result ≡ is_off self }
    {
        self.stop != 0
    }

    // Refused by number, unless it was before.
    pub fn refuse(self, n: usize) -> State
        ensures { result ≡ refused_by n self }
    {
        if self.is_refused() {
            return self;
        }
        State { stop: n, ..self }
    }

    // Refused for a reason, unless it was before.
    pub fn refuse_for(self, why: Refusal) -> State
        ensures { result ≡ refused_by (refusal_number why) self }
    {
        self.refuse(why.number())
    }

    // Why it was refused, if it was.
    pub fn refusal(self) -> Option<Refusal>
        ensures { self.stop ≤ 10 → number_of result ≡ self.stop }
    {
        Refusal::of(self.stop)
    }

    // A mark: one record of the room.
    pub fn mark(self) -> State
        ensures { Marks self result }
    {
        if self.is_refused() {
            return self;
        }
        if self.room <= self.used {
            return self.refuse_for(Refusal::NoScratch);
        }
        State {
            used: self.used + 1,
            ..self
        }
    }

    // `ok_since`, where `self` was saved: `now` stays where no finding came since, or it was refused; otherwise `self` is back.
    pub fn ok_since(self, now: State) -> Found
        ensures { result ≡ since_of self now }
    {
        if now.is_refused() {
            return Err(now);
        }
        if now.found == self.found {
            return Ok(now);
        }
        Err(self)
    }

    // The end of a scope that began at `self`: `now` with the fixities that were in force then.
    pub fn give_back(self, now: State) -> State
        ensures { result ≡ back_of self now }
    {
        State {
            fixes: Table {
                changes: now.fixes.changes,
                ..self.fixes
            },
            ..now
        }
    }
}

// The index of the first token from `from` on that is no trivia, or the count.
pub fn next_live(toks: &[u8], count: usize, from: usize) -> usize
    requires { (length toks.now ≡ 5 * count) × (count ≤ 13107) × (from ≤ count) }
    ensures { Next toks.now count from result }
{
    for i in from..count {
        if toks[5 * i] != kind::TRIVIA {
            return i;
        }
    }
    count
}

// The index of the token `n` ahead, if there is one.
pub fn live_at(toks: &[u8], n: usize, s: State) -> Option<usize>
    requires { Reads toks.now s.at s.count }
    ensures { MatchOption result (NoneAhead n toks.now s) (Stood n toks.now s) }
{
    if s.is_refused() {
        return None;
    }
    let mut i = s.at;
    for _ in 0..n {
        if s.count <= i {
            return None;
        }
        i = next_live(toks, s.count, i + 1);
    }
    (i < s.count).then_some(i)
}

// The kind of the token `n` ahead.
pub fn peek_n(toks: &[u8], n: usize, s: State) -> Option<u8>
    requires { Reads toks.now s.at s.count }
    ensures { Saw (Ask.kind n) toks.now s (kind_of result) }
{
    let i = live_at(toks, n, s)?;
    Some(toks[5 * i])
}

// Whether the token `n` ahead is of a kind.
pub fn at_n(toks: &[u8], n: usize, want: u8, s: State) -> bool
    requires { Reads toks.now s.at s.count }
    ensures { Is n toks.now s want result }
{
    peek_n(toks, n, s) == Some(want)
}

// The kind of the next token.
pub fn peek(toks: &[u8], s: State) -> Option<u8>
    requires { Reads toks.now s.at s.count }
    ensures { Saw (Ask.kind 0) toks.now s (kind_of result) }
{
    peek_n(toks, 0, s)
}

// Whether the next token is of a kind.
pub fn at(toks: &[u8], want: u8, s: State) -> bool
    requires { Reads toks.now s.at s.count }
    ensures { Is 0 toks.now s want result }
{
    at_n(toks, 0, want, s)
}

// Writes a record of the log or a finding: its tag, a kind and a number.
pub fn put(buffer: &mut [u8], i: usize, tag: u8, kind: u8, v: usize)
    requires { (8 * i + 8 ≤ length buffer.old) × (v < 4294967296) }
    ensures { buffer.new ≡ put_at buffer.old i tag kind v }
{
    let [v0, v1, v2, v3] = (v as u32).to_le_bytes();
    buffer[8 * i..8 * i + 8].copy_from_slice(&[tag, kind, v0, v1, v2, v3, 0, 0]);
}

// Takes the next token into the log.
pub fn bump(toks: &[u8], scratch: &mut [u8], s: State) -> State
    requires { Reads toks.now s.at s.count × Logs scratch.old s.len s.used s.room }
    ensures { Bumps toks.now scratch.old s scratch.new result }
{
    let at = s.at;
    if s.is_refused() {
        return s;
    }
    if s.count <= at {
        return s;
    }
    if s.room <= s.used {
        return s.refuse_for(Refusal::NoScratch);
    }
    put(scratch, s.len, TOOK, toks[5 * at], at);
    State {
        at: next_live(toks, s.count, at + 1),
        len: s.len + 1,
        used: s.used + 1,
        ..s
    }
}

// Ends a node of a kind, which started at `b` in the log.
pub fn close(scratch: &mut [u8], kind: u8, b: usize, s: State) -> State
    requires { Logs scratch.old s.len s.used s.room × (b < 4294967296) }
    ensures { Adds (end kind b) scratch.old s scratch.new result }
{
    if s.is_refused() {
        return s;
    }
    if s.room <= s.used {
        return s.refuse_for(Refusal::NoScratch);
    }
    put(scratch, s.len, ENDED, kind, b);
    State {
        len: s.len + 1,
        used: s.used + 1,
        ..s
    }
}

// The same of a `Node`.
pub fn close_node(scratch: &mut [u8], kind: Node, b: usize, s: State) -> State
    requires { Logs scratch.old s.len s.used s.room × (b < 4294967296) }
    ensures { Adds (end (node_number kind) b) scratch.old s scratch.new result }
{
    close(scratch, kind.number(), b, s)
}

// Holds a finding at the next token, with the name of the token of that index.
pub fn report(finds: &mut [u8], number: u8, detail: u8, name: usize, s: State) -> State
    requires { Holds finds.old s.found s.kept × (s.at ≤ 65535) × (name ≤ 65535) }
    ensures { Tells (reports number detail name) finds.old s finds.new result }
{
    if s.is_refused() {
        return s;
    }
    if s.kept <= s.found {
        return s.refuse_for(Refusal::NoFindings);
    }
    put(finds, s.found, number, detail, s.at + 65536 * name);
    State {
        found: s.found + 1,
        ..s
    }
}

// The same of an `ErrorKind`, which carries its name.
pub fn report_error(finds: &mut [u8], what: ErrorKind, s: State) -> State
    requires { Holds finds.old s.found s.kept × (s.at ≤ 65535) × (name_of what ≤ 65535) }
    ensures { Tells (reports (code_of what) (detail_of what) (name_of what)) finds.old s finds.new result }
{
    report(finds, what.code(), what.detail(), what.name(), s)
}

// The index of the next token, by which a finding spells its name, if there is one.
pub fn index(s: State) -> Option<usize>
    ensures { Spells s (spelled result) }
{
    if s.is_refused() {
        return None;
    }
    (s.at < s.count).then_some(s.at)
}

// The mode of the call, a number, since the programs' look `mode` answers with it.
pub fn mode(toks: &[u8], s: State) -> usize
    ensures { Saw Ask.mode toks.now s result }
{
    if s.is_refused() {
        return 0;
    }
    s.mode
}

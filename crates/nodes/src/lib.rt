// The nodes, written from the log of a reading.
#![tactic(auto)]

ghost use Rattle.std.specs.Prelude.{◌≡◌, ◌+◌, ◌*◌, ◌/◌, ◌≤◌, length, [], ◌∷◌};
ghost use Rattle.grammar.specs.Bytes.{low, high};
ghost use Rattle.grammar.specs.Read.{pad};
ghost use Rattle.node_count.specs.Log.{number_at, nodes_in};
ghost use Rattle.nodes.specs.Grown.{Ready};
ghost use Rattle.nodes.specs.Walk.{Walking, Steps, starts_at, put_node, tag_of};

use clearing::clear;
use parser::TOOK;

// What a node record says, by its first byte.
#[derive(Clone, Copy)]
enum Tag {
    Opens = 1,
    Token = 2,
    Closes = 3,
}

// Where the walk over the log stands: so many of its records are left to be read, and the stack begins at the record `top`.
#[derive(Clone, Copy)]
struct Walk {
    left: usize,
    top: usize,
}

// The number in the record `i` of the log or the stack.
fn number(log: &[u8], i: usize) -> usize
    requires { 8 * i + 8 ≤ length log.now }
    ensures { result ≡ number_at log.now i }
{
    let b = 8 * i;
    u32::from_le_bytes([log[b + 2], log[b + 3], log[b + 4], log[b + 5]]) as usize
}

// Writes the node record `i`.
fn put_node(nodes: &mut [u8], i: usize, tag: Tag, kind: u8, v: usize)
    requires { 4 * i + 4 ≤ length nodes.old }
    ensures { nodes.new ≡ put_node nodes.old i (tag_of tag ∷ kind ∷ low v ∷ high v ∷ []) }
{
    let [low, high, ..] = v.to_le_bytes();
    nodes[4 * i..4 * i + 4].copy_from_slice(&[tag as u8, kind, low, high]);
}

impl Walk {
    // Whether the innermost node that the walk is inside of starts here in the log.
    fn starts_here(self, log: &[u8]) -> bool
        ensures { result ≡ starts_at log.now (length log.now / 8) self.top self.left }
    {
        self.top < log.len() / 8 && number(log, self.top) == self.left
    }

    // Writes the node record `at`, the last that is to be written: the innermost node opens where it starts here, otherwise the log's last record
    // to be read tells. A node that closes goes on the stack, in place of records of the log that were read.
    fn step(self, log: &mut [u8], nodes: &mut [u8], at: usize) -> Walk
        requires { Walking log.old (length log.old / 8) nodes.old (at + 1) self.left self.top }
        ensures { Steps log.old (length log.old / 8) nodes.old at self.left self.top log.new nodes.new result.left result.top }
    {
        let Walk { left, top } = self;
        if self.starts_here(log) {
            put_node(nodes, at, Tag::Opens, log[8 * top + 1], 0);
            return Walk { left, top: top + 1 };
        }
        let left = left - 1;
        let kind = log[8 * left + 1];
        if log[8 * left] == TOOK {
            put_node(nodes, at, Tag::Token, kind, number(log, left));
            return Walk { left, top };
        }
        put_node(nodes, at, Tag::Closes, kind, 0);
        let top = top - 1;
        log.copy_within(8 * left..8 * left + 8, 8 * top);
        Walk { left, top }
    }
}

// Writes the log's nodes, `count` records, from the last to the first, and zeroes behind them. The log is written over by the stack.
pub fn write_nodes(log: &mut [u8], nodes: &mut [u8], count: usize)
    requires { Ready log.old nodes.old count }
    ensures { nodes.new ≡ pad (length nodes.old) (nodes_in log.old (length log.old / 8)) }
{
    clear(nodes, 4 * count);
    let len = log.len() / 8;
    let mut walk = Walk {
        left: len,
        top: len,
    };
    for at in (0..count).rev() {
        walk = walk.step(log, nodes, at);
    }
}

// Where fixities end: those of a let with it, while those of a local's first part reach what follows.
#![tactic(auto)]

ghost use Rattle.std.specs.Prelude.{◌<◌};
ghost use Rattle.grammar.specs.World.{end};
ghost use Rattle.parser.specs.Nodes.{node_number};
ghost use Rattle.parser.specs.View.{Logs, Adds};
ghost use Rattle.scopes.specs.Scopes.{left_by};

use parser::node::Node;
use parser::{State, close};

// The kind of the node of a let expression.
const LET_EXP: u8 = Node::LetExp as u8;

// Ends the node of a let expression or of a local's first part, of the kind k, that started at `b`, with the fixities that are in force behind it;
// `before` is the state at which its own began.
pub fn leave(scratch: &mut [u8], k: u8, b: usize, before: State, s: State) -> State
    requires { Logs scratch.old s.len s.used s.room × (b < 4294967296) }
    ensures { Adds (end k b) scratch.old (left_by k before s) scratch.new result }
{
    if k == LET_EXP {
        return close(scratch, k, b, before.give_back(s));
    }
    close(scratch, k, b, s)
}

// The same of a `Node`.
pub fn leave_node(scratch: &mut [u8], k: Node, b: usize, before: State, s: State) -> State
    requires { Logs scratch.old s.len s.used s.room × (b < 4294967296) }
    ensures { Adds (end (node_number k) b) scratch.old (left_by (node_number k) before s) scratch.new result }
{
    leave(scratch, k.number(), b, before, s)
}

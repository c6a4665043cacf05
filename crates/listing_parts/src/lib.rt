// The listing program but for the reading: an answer as lines.
#![tactic(auto)]

ghost use Rattle.listing_parts.specs.Used.{Within};

use answers::Used;
use lines::{list_env, list_finds, list_nodes};
use std::io;

pub mod lines;
pub mod names;

// Lists an answer by its number, and what was handed out where that is 0.
pub fn list_answer(
    rt: &impl Print,
    number: usize,
    used: Used,
    nodes: &[u8],
    finds: &[u8],
    last: &[u8],
) -> io::Result<()>
    requires { Within used nodes.now finds.now last.now }
{
    println!(rt; "answer {number}")?;
    if number != 0 {
        return Ok(());
    }
    list_nodes(rt, &nodes[..used.nodes])?;
    list_finds(rt, &finds[..used.finds])?;
    list_env(rt, &last[..used.last])
}

// What a call hands out: the nodes, the findings and the final environment, with every other byte cleared.
ghost use Rattle.std.specs.Prelude.{◌≡◌, ◌*◌, ◌≤◌, length};
ghost use Rattle.grammar.specs.Env.{env_bytes};
ghost use Rattle.grammar.specs.World.World.{on};
ghost use Rattle.grammar.specs.Nodes.{find_bytes};
ghost use Rattle.grammar.specs.Read.{finish, pad};
ghost use Rattle.sml_fixity.specs.Table.{Stands, table_of};
ghost use Rattle.parser.specs.View.{Sound, mem_of, now_of, table_in, chunks, find_of};
ghost use Rattle.node_count.specs.Log.{log_in};
ghost use Rattle.nodes.specs.Grown.{Grown};
ghost use Rattle.answers.specs.Entry.{room_of, result_of, Holds};

use crate::refusal::refuse_all;
use crate::{Answer, Used};
use clearing::clear;
use env_bytes::out;
use env_bytes::out::TooLong;
use node_count::node_count;
use nodes::write_nodes;
use parser::refusal::Refusal;
use parser::{Lent, State};
use sml_fixity::table::Table;

// The findings as they are handed out: the two bytes behind each one's fields are 0, and so is the rest.
fn finish_finds(finds: &mut [u8], found: usize)
    requires { 8 * found ≤ length finds.old }
    ensures { finds.new ≡ pad (length finds.old) (find_bytes (chunks find_of finds.old found)) }
{
    // By index: a proof knows nothing of what was written through `chunks_exact_mut`.
    for i in 0..found {
        finds[8 * i + 6..8 * i + 8].fill(0);
    }
    clear(finds, 8 * found);
}

// The final environment as it is handed out, if it fits.
fn finish_env(
    text: &[u8],
    env: &[u8],
    table: &[u8],
    last: &mut [u8],
    t: Table,
) -> Result<usize, TooLong>
    requires { Stands text.now env.now table.now t }
    ensures { Holds (env_bytes (table_of text.now env.now table.now t)) last.old last.new result }
{
    let used = out::copy_out(text, env, table, t, last)?;
    clear(last, used);
    Ok(used)
}

// All that a reading which was not refused hands out, or the answer that it does not fit: the nodes first, then the environment. The buffers stay four:
// with them in one struct, each contract would say besides that they are still those that were lent.
pub fn hand_out(
    lent: Lent,
    table: &[u8],
    scratch: &mut [u8],
    nodes: &mut [u8],
    finds: &mut [u8],
    last: &mut [u8],
    s: State,
) -> Answer
    requires { Sound (mem_of lent table.now scratch.old finds.old s) × Grown (log_in scratch.old s.len) }
    ensures { result_of result scratch.new nodes.new finds.new last.new ≡ finish (room_of scratch.old nodes.old finds.old last.old) (on (now_of (mem_of lent.entry table.now scratch.old finds.old s))) }
{
    let log = 8 * s.len;
    let count = node_count(&scratch[..log]);
    if nodes.len() < 4 * count {
        return refuse_all(scratch, nodes, finds, last, Refusal::NoNodes);
    }
    let Ok(last_used) = finish_env(lent.text, lent.env, table, last, s.fixes) else {
        return refuse_all(scratch, nodes, finds, last, Refusal::NoFinal);
    };
    write_nodes(&mut scratch[..log], nodes, count);
    finish_finds(finds, s.found);
    clear(scratch, 0);
    Ok(Used {
        nodes: 4 * count,
        finds: 8 * s.found,
        last: last_used,
    })
}

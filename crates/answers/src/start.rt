// The start of a reading.
ghost use Rattle.std.specs.Prelude.{◌≡◌, [], ◌≤◌, length};
ghost use Rattle.grammar.specs.World.World.{on};
ghost use Rattle.grammar.specs.Read.{start};
ghost use Rattle.sml_fixity.specs.Table.{entries_in};
ghost use Rattle.parser.specs.View.{Sound, mem_of, seen_in};
ghost use Rattle.answers.specs.Entry.{call_of, Tested};

use parser::{Lent, State, next_live};
use sml_fixity::table::Table;

// The parser as it is made: every token that is no trivia is left.
pub fn start_state(
    lent: Lent,
    table: &[u8],
    scratch: &[u8],
    finds: &[u8],
    entries: usize,
    mode: usize,
) -> State
    requires { Tested lent.text.now lent.toks.now lent.env.now entries × (8192 ≤ length table.now) × (length scratch.now ≤ 2147483640) }
    ensures { Sound (mem_of lent.entry table.now scratch.now finds.now result) × (seen_in (mem_of lent.entry table.now scratch.now finds.now result) ≡ on (start (call_of lent.entry.text.now lent.entry.toks.now lent.entry.env.now 0 mode scratch.now [] finds.now []) (entries_in lent.entry.env.now))) }
{
    let count = lent.toks.len() / 5;
    State {
        at: next_live(lent.toks, count, 0),
        count,
        len: 0,
        used: 0,
        room: scratch.len() / 8,
        found: 0,
        kept: finds.len() / 8,
        fixes: Table {
            len: 0,
            entries,
            changes: 0,
        },
        mode,
        stop: 0,
    }
}

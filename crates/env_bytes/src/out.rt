// Copying the table out: the entries in force, in the order of their names, as an environment's bytes.
ghost use Rattle.std.specs.Prelude.{◌≤◌, length};
ghost use Rattle.grammar.specs.Env.{env_bytes};
ghost use Rattle.sml_fixity.specs.Fix.{fixity_of};
ghost use Rattle.sml_fixity.specs.Table.{Short, table_of, Stands};
ghost use Rattle.env_bytes.specs.Out.{here, Puts, Copies};

use crate::basis;
use crate::names::next_name;
use sml_fixity::Infix;
use sml_fixity::table::{self, Table};

// The bytes do not fit what was lent for them.
#[derive(Clone, Copy)]
pub struct TooLong;

// Writes the entry of a name that has a fixity, and says where what follows starts.
fn put(out: &mut [u8], at: usize, x: &[u8], f: Option<Infix>) -> Result<usize, TooLong>
    requires { (at ≤ length out.old) × Short x.now (fixity_of f) }
    ensures { Puts at (env_bytes (here x.now (fixity_of f))) out.old out.new result }
{
    let Some(i) = f else {
        return Ok(at);
    };
    if out.len() - at < x.len() + 4 {
        return Err(TooLong);
    }
    basis::put_entry(out, at, x, i);
    Ok(at + x.len() + 4)
}

// Writes the table's bytes.
// The names of entries and changes are taken in their order, from the empty one on, which comes before all others, and each is looked for once.
// It goes by no index: each name is found from the last.
// An entry that does not fit ends it, since those before it are the first of all; what `out` then holds is left open, as the public entry clears it.
pub fn copy_out(
    text: &[u8],
    env: &[u8],
    journal: &[u8],
    t: Table,
    out: &mut [u8],
) -> Result<usize, TooLong>
    requires { Stands text.now env.now journal.now t }
    ensures { Copies (env_bytes (table_of text.now env.now journal.now t)) out.old out.new result }
{
    let mut at = 0;
    let mut name: Option<&[u8]> = Some(&[]);
    while let Some(x) = name {
        let f = table::find_name(text, env, journal, t, x);
        at = put(out, at, x, f)?;
        name = next_name(text, env, journal, t.len, x);
    }
    Ok(at)
}

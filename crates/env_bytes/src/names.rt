// The names of an environment's entries and of a journal's changes: which of them comes next after another.
ghost use Rattle.std.specs.Prelude.{◌≡◌, ◌+◌, ◌*◌, ◌≤◌, ◌++◌, length};
ghost use Rattle.std.specs.Iterator.{YieldsFirstRef, item_count};
ghost use Rattle.std.proofs.Math.Option.{some};
ghost use Rattle.grammar.specs.Env.{env_of};
ghost use Rattle.sml_fixity.specs.Table.{Journal, start_at, length_at, name_at, entries_in};
ghost use Rattle.env_bytes.specs.Names.{names_in, changed_names, NextName};

use crate::form::{before, split_entry};
use sml_fixity::table::pair;

// The names of an environment's entries, in their order. What is no whole entry ends them.
#[derive(Drop)]
pub(crate) struct Names<'a> {
    pub(crate) left: &'a [u8],
}

impl<'a> Iterator for Names<'a> {
    type Item = &'a [u8];

    ghost next_gives = { YieldsFirstRef (λ s. names_in s.left.now) };

    ghost remaining = { item_count (λ s. names_in s.left.now) };

    // The name of the entry that is next.
    fn next(&mut self) -> Option<&'a [u8]> {
        let (name, _, behind) = split_entry(self.left)?;
        self.left = behind;
        Some(name)
    }
}

// The name of the change `i`.
fn changed_name<'a>(text: &'a [u8], journal: &[u8], i: usize) -> &'a [u8]
    requires { (8 * i + 4 ≤ length journal.now) × (start_at journal.now i + length_at journal.now i ≤ length text.now) }
    ensures { result.now ≡ name_at text.now journal.now i }
{
    let start = pair(journal, 8 * i) as usize;
    let end = start + pair(journal, 8 * i + 2) as usize;
    &text[start..end]
}

// The name that comes next after `last`, of the entries and the first `n` changes.
// The entries' names are in order, so the first of them that comes after it is the least that does.
// The least is picked by `before` and not by `min()`, whose order of slices takes longer at short names.
pub(crate) fn next_name<'a>(
    text: &'a [u8],
    env: &'a [u8],
    journal: &[u8],
    n: usize,
    last: &[u8],
) -> Option<&'a [u8]>
    requires form { env_of env.now ≡ some (entries_in env.now) }
    requires records { Journal text.now journal.now n }
    ensures { NextName (names_in env.now ++ changed_names text.now journal.now n) last.now result }
{
    let entry = Names { left: env }.find(|x| before(last, x));
    let changes = (0..n).map(|i| changed_name(text, journal, i));
    let later = changes.filter(|x| before(last, x));
    entry
        .into_iter()
        .chain(later)
        .reduce(|b, x| if before(x, b) { x } else { b })
}

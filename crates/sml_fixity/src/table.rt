// The table of fixities in force: a look for a name, and a change of one.
// It is the starting environment's bytes and a journal of the changes made since, so that leaving a scope only goes back to the old `len`.
ghost use Rattle.std.specs.Prelude.{◌≡◌, ◌+◌, ◌*◌, ◌≤◌, ◌<◌, length, get_or};
ghost use Rattle.std.proofs.Math.Option.{some};
ghost use Rattle.grammar.specs.Bytes as bytes;
ghost use Rattle.grammar.specs.Env as env_laws;
ghost use Rattle.sml_fixity.specs.Entries.{count};
ghost use Rattle.sml_fixity.specs.Fix.{fixity_of};
ghost use Rattle.sml_fixity.specs.Table.{part, fix_in, entries_in, table_of, Stands, fits_in, what_of, prec_of, put_at, Changes, Begins, Leaves};

use crate::Infix;

// How much of the journal is in force, how many entries are, and how many changes were ever made.
#[derive(Clone, Copy)]
pub struct Table {
    pub len: usize,
    pub entries: usize,
    pub changes: usize,
}

// There is no room for a change.
#[derive(Clone, Copy)]
pub struct Full;

impl Table {
    // The table with nothing changed, over an environment of so many entries.
    pub fn begin(entries: usize) -> Table
        ensures { Begins entries result }
    {
        Table {
            len: 0,
            entries,
            changes: 0,
        }
    }

    // The table as a scope is left that was entered with this one: what was in force then, with all changes counted.
    pub fn leave(self, now: Table) -> Table
        ensures { Leaves self now result }
    {
        Table {
            changes: now.changes,
            ..self
        }
    }
}

// Whether two names are the same: `==`, in the words of the grammar.
pub fn same(a: &[u8], b: &[u8]) -> bool
    ensures { result ≡ bytes.same a.now b.now }
{
    a == b
}

// The number in two bytes.
pub fn pair(b: &[u8], i: usize) -> u16
    requires { i + 2 ≤ length b.now }
    ensures { result ≡ bytes.pair_at b.now i }
{
    u16::from_le_bytes([b[i], b[i + 1]])
}

// The fixity in three bytes. The last is a number: the form of an entry and of a record says which.
fn read(b: &[u8], i: usize) -> Option<Infix>
    requires { (i + 3 ≤ length b.now) × (get_or b.now (i + 2) 0 ≤ 2) }
    ensures { fixity_of result ≡ fix_in b.now i }
{
    let prec = pair(b, i);
    match b[i + 2] {
        0 => Some(Infix::left(prec)),
        1 => Some(Infix::right(prec)),
        _ => None,
    }
}

// What the starting environment says of a name, entry by entry. An entry's length stands in it, so the walk goes by position.
fn look(name: &[u8], env: &[u8]) -> Option<Infix>
    requires { env_laws.env_of env.now ≡ some (entries_in env.now) }
    ensures { fixity_of result ≡ env_laws.find name.now (entries_in env.now) }
{
    let mut at = 0;
    while at < env.len() {
        let end = at + 1 + env[at] as usize;
        if same(name, &env[at + 1..end]) {
            return read(env, end);
        }
        at = end + 3;
    }
    None
}

// What the table says of a name of any text.
// Its text, environment and journal are passed beside it and are no fields of a struct with it: `change` writes the journal that a look reads,
// and the callers hold each alone.
// From the last change back, since a later change of a name hides the earlier ones; then the starting environment.
pub fn find_name(text: &[u8], env: &[u8], journal: &[u8], t: Table, name: &[u8]) -> Option<Infix>
    requires { Stands text.now env.now journal.now t }
    ensures { fixity_of result ≡ env_laws.find name.now (table_of text.now env.now journal.now t) }
{
    for i in (0..t.len).rev() {
        let start = pair(journal, 8 * i) as usize;
        let len = pair(journal, 8 * i + 2) as usize;
        if same(name, &text[start..start + len]) {
            return read(journal, 8 * i + 4);
        }
    }
    look(name, env)
}

// What the table says of a name of the text, given by its place as in `change`, whose journal keeps the place; `find_name` takes a slice.
pub fn find(
    text: &[u8],
    env: &[u8],
    journal: &[u8],
    t: Table,
    start: usize,
    len: usize,
) -> Option<Infix>
    requires { Stands text.now env.now journal.now t × (start + len ≤ length text.now) }
    ensures { fixity_of result ≡ env_laws.find (part text.now start len) (table_of text.now env.now journal.now t) }
{
    find_name(text, env, journal, t, &text[start..start + len])
}

// How many entries a fixity takes.
fn holds(f: Option<Infix>) -> usize
    ensures { result ≡ count (fixity_of f) }
{
    f.is_some() as usize
}

// Whether a name of `len` bytes may have a fixity, where there are then so many entries.
fn fits(f: Option<Infix>, len: usize, entries: usize) -> bool
    ensures { result ≡ fits_in (fixity_of f) len entries }
{
    f.is_none() || (len <= 255 && entries <= 256)
}

// What a fixity is in the journal.
fn what(f: Option<Infix>) -> u8
    ensures { result ≡ what_of (fixity_of f) }
{
    f.map_or(2, |i| i.assoc as u8)
}

// Its precedence there.
fn prec(f: Option<Infix>) -> u16
    ensures { result ≡ prec_of (fixity_of f) }
{
    f.map_or(0, |i| i.prec)
}

// Writes the record `i` of the journal. That the precedence is a u16, and so is what can be read back, is ensured here, where it is seen.
fn put(journal: &mut [u8], i: usize, start: u16, len: u16, f: Option<Infix>)
    requires { 8 * i + 8 ≤ length journal.old }
    ensures { (journal.new ≡ put_at journal.old i start len (fixity_of f)) × (prec_of (fixity_of f) ≤ 65535) }
{
    let [s0, s1] = start.to_le_bytes();
    let [l0, l1] = len.to_le_bytes();
    let [p0, p1] = prec(f).to_le_bytes();
    journal[8 * i..8 * i + 8].copy_from_slice(&[s0, s1, l0, l1, p0, p1, what(f), 0]);
}

// Changes a name's fixity by one record more, or says that there is no room for it.
// The entries are counted by what the name had and what it gets, so nothing is looked through twice.
pub fn change(
    text: &[u8],
    env: &[u8],
    journal: &mut [u8],
    t: Table,
    start: usize,
    len: usize,
    f: Option<Infix>,
) -> Result<Table, Full>
    requires { Stands text.now env.now journal.old t × (start + len ≤ length text.now) }
    ensures { Changes text.now env.now journal.old t (part text.now start len) (fixity_of f) journal.new result }
{
    if 1024 <= t.changes {
        return Err(Full);
    }
    let was = find(text, env, journal, t, start, len);
    let entries = t.entries + holds(f) - holds(was);
    if !fits(f, len, entries) {
        return Err(Full);
    }
    put(journal, t.len, start as u16, len as u16, f);
    Ok(Table {
        len: t.len + 1,
        entries,
        changes: t.changes + 1,
    })
}

// The test of an environment's byte form: whether bytes are entries in the order of their names, and how many.
ghost use Rattle.std.specs.Prelude.{◌≡◌};
ghost use Rattle.grammar.specs.Bytes.{before};
ghost use Rattle.grammar.specs.Env.{env_of};
ghost use Rattle.env_bytes.specs.Form.{count_of, form_of, Splits};

// Whether a name comes before another, by bytes; a prefix comes first.
// It is no `a < b`, with which a copy of a full table took 1.3 to 1.6 times the instructions.
pub fn before(a: &[u8], b: &[u8]) -> bool
    ensures { result ≡ before a.now b.now }
{
    for i in 0..a.len().min(b.len()) {
        if a[i] != b[i] {
            return a[i] < b[i];
        }
    }
    a.len() < b.len()
}

// The entry that bytes start with, if it is whole: its name, its fixity's bytes, and the bytes behind it.
pub(crate) fn split_entry(bytes: &[u8]) -> Option<(&[u8], &[u8; 3], &[u8])>
    ensures { Splits bytes.now result }
{
    let (n, behind) = bytes.split_first()?;
    let (name, behind) = behind.split_at_checked(*n as usize)?;
    let (fixity, behind) = behind.split_first_chunk::<3>()?;
    Some((name, fixity, behind))
}

// Answer 3's test: how many entries the bytes are, if they have the form. The bytes `left` are to have theirs after `last`.
// It goes by no index: each entry's length stands in it.
pub fn form_of(env: &[u8]) -> Option<usize>
    ensures { count_of (env_of env.now) ≡ form_of result }
{
    let mut last: &[u8] = &[];
    let mut left = env;
    let mut count = 0;
    while !left.is_empty() {
        let (name, fixity, behind) = split_entry(left)?;
        if count == 256 || !before(last, name) || 1 < fixity[2] {
            return None;
        }
        last = name;
        left = behind;
        count += 1;
    }
    Some(count)
}

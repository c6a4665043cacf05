// The standard environment: a table of names and ranks, and the bytes that are written from it.
ghost use Rattle.std.specs.Prelude.{◌≡◌, ◌+◌, ◌<◌, ◌≤◌, length};
ghost use Rattle.std.specs.List.{All};
ghost use Rattle.std.proofs.lemmas.List.Edits.{sets};
ghost use Rattle.grammar.specs.Env.{std, env_bytes};
ghost use Rattle.sml_fixity.specs.Fix.{infix_of};
ghost use Rattle.env_bytes.specs.Basis.{entry_bytes, rank_of, entries_of};

use sml_fixity::{Assoc, Infix};

// The names in the order of their bytes, each with its rank: a number, and the side to which it associates.
const STD_BASIS: [(&[u8], u16, Assoc); 18] = [
    (b"*", 7, Assoc::Left),
    (b"+", 6, Assoc::Left),
    (b"-", 6, Assoc::Left),
    (b"/", 7, Assoc::Left),
    (b"::", 5, Assoc::Right),
    (b":=", 3, Assoc::Left),
    (b"<", 4, Assoc::Left),
    (b"<=", 4, Assoc::Left),
    (b"<>", 4, Assoc::Left),
    (b"=", 4, Assoc::Left),
    (b">", 4, Assoc::Left),
    (b">=", 4, Assoc::Left),
    (b"@", 5, Assoc::Right),
    (b"^", 6, Assoc::Left),
    (b"before", 0, Assoc::Left),
    (b"div", 7, Assoc::Left),
    (b"mod", 7, Assoc::Left),
    (b"o", 3, Assoc::Left),
];

// The fixity of a rank.
fn rank(number: u16, side: Assoc) -> Infix
    ensures { infix_of result ≡ rank_of number side }
{
    match side {
        Assoc::Left => Infix::left(number),
        Assoc::Right => Infix::right(number),
    }
}

// Copies a name to `at`. It is no `copy_from_slice`: of a length that isn't known, that would call `memmove`, which the archive for C is to do without.
fn copy(out: &mut [u8], at: usize, name: &[u8])
    requires { at + length name.now ≤ length out.old }
    ensures { out.new ≡ sets out.old at name.now }
{
    for i in 0..name.len() {
        out[at + i] = name[i];
    }
}

// Writes the byte form of an entry.
pub fn put_entry(out: &mut [u8], at: usize, name: &[u8], i: Infix)
    requires { (length name.now < 256) × (at + length name.now + 4 ≤ length out.old) }
    ensures { out.new ≡ sets out.old at (entry_bytes name.now (infix_of i)) }
{
    let end = at + 1 + name.len();
    out[at] = name.len() as u8;
    copy(out, at + 1, name);
    out[end..end + 2].copy_from_slice(&i.prec.to_le_bytes());
    out[end + 2] = i.assoc as u8;
}

// Writes the entries of a table, one behind the other.
fn put_all(out: &mut [u8], entries: &[(&[u8], u16, Assoc)])
    requires short { All (λ e. length e.0.now < 256) entries.now }
    requires room { length (env_bytes (entries_of entries.now)) ≡ length out.old }
    ensures { out.new ≡ env_bytes (entries_of entries.now) }
{
    let mut at = 0;
    for (name, number, side) in entries {
        put_entry(out, at, name, rank(*number, *side));
        at += name.len() + 4;
    }
}

// The standard environment, which takes 104 bytes.
pub fn std_basis(out: &mut [u8; 104])
    ensures { out.new ≡ env_bytes std }
{
    put_all(out, &STD_BASIS);
}

// The entry for other languages, which crate sml_parse_c exports: numbers and byte slices.
ghost use Rattle.std.specs.Prelude.{◌≡◌, [], ◌∷◌, length};
ghost use Rattle.answers.specs.Entry.{call_of, result_from, served};

use crate::read;
use answers::numbers;

// `read`. The answer is document 01's number; the three used lengths, of the nodes, the findings and the final environment, are left in `used`,
// in that order.
pub fn sml_parse_read(
    text: &[u8],
    toks: &[u8],
    env: &[u8],
    depth: u64,
    mode: u64,
    scratch: &mut [u8],
    nodes: &mut [u8],
    finds: &mut [u8],
    last: &mut [u8],
    used: &mut [u64; 3],
) -> usize
    ensures { (result_from result used.new scratch.new nodes.new finds.new last.new ≡ served (call_of text.now toks.now env.now depth mode scratch.old nodes.old finds.old last.old)) × (length used.new ≡ 3) }
{
    let answer = read(text, toks, env, depth, mode, scratch, nodes, finds, last);
    let (number, u) = numbers(answer);
    *used = [u.nodes as u64, u.finds as u64, u.last as u64];
    number
}

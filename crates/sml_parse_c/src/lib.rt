// The entry as it is exported, in a static library: numbers and byte slices, each slice a pointer and a length.
#![tactic(auto)]

ghost use Rattle.std.specs.Prelude.{◌≡◌, length};
ghost use Rattle.answers.specs.Entry.{call_of, result_from, served};

use sml_parse::export;

// `sml_parse::export::sml_parse_read`, for C: `size_t sml_parse_read(const uint8_t *text, size_t text_len, .. toks, .. env, uint64_t depth,
// uint64_t mode, uint8_t *scratch, size_t scratch_len, .. nodes, .. finds, .. last, uint64_t used[3])` (host/include/sml_parse.h).
#[unsafe(no_mangle)]
pub extern "C" fn sml_parse_read(
    text: &[u8],
    toks: &[u8],
    env: &[u8],
    depth: u64,
    mode: u64,
    scratch: &mut [u8],
    nodes: &mut [u8],
    finds: &mut [u8],
    last: &mut [u8],
    used: &mut [u64; 3],
) -> usize
    ensures { (result_from result used.new scratch.new nodes.new finds.new last.new ≡ served (call_of text.now toks.now env.now depth mode scratch.old nodes.old finds.old last.old)) × (length used.new ≡ 3) }
{
    export::sml_parse_read(
        text, toks, env, depth, mode, scratch, nodes, finds, last, used,
    )
}

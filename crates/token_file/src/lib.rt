// A token file (document 01), read from its bytes.
#![tactic(auto)]

ghost use Rattle.std.specs.Prelude.{◌≡◌, false, MatchOption};
ghost use Rattle.token_file.specs.File.{is_file};
ghost use Rattle.token_file.specs.Files.{Holds};

// The most bytes of a token file.
const MOST: usize = 65536;

// The bytes behind text and records, and the last of them.
pub const TRAILER: usize = 8;

const MARK: u8 = 77;

// The parts of a token file: the text, the records of its tokens, and how they are to be read.
#[derive(Clone, Copy)]
pub struct TokenFile<'a> {
    pub text: &'a [u8],
    pub toks: &'a [u8],
    pub depth: u16,
    pub mode: u8,
}

// The token file in these bytes, where they are one.
pub fn parse(file: &[u8]) -> Option<TokenFile<'_>>
    ensures { MatchOption result (is_file file.now ≡ false) (λ f. Holds file.now f) }
{
    if MOST < file.len() {
        return None;
    }
    let (body, trailer) = file.split_last_chunk::<TRAILER>()?;
    let [
        text_low,
        text_high,
        count_low,
        count_high,
        depth_low,
        depth_high,
        mode,
        mark,
    ] = *trailer;
    let text_len = usize::from(u16::from_le_bytes([text_low, text_high]));
    let count = usize::from(u16::from_le_bytes([count_low, count_high]));
    if mark != MARK || text_len + 5 * count != body.len() {
        return None;
    }
    let (text, toks) = body.split_at(text_len);
    let depth = u16::from_le_bytes([depth_low, depth_high]);
    Some(TokenFile {
        text,
        toks,
        depth,
        mode,
    })
}

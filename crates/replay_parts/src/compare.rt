// What a call left, held to what a case says: the numbers, and every lent byte.
ghost use Rattle.std.specs.Prelude.{◌≡◌};
ghost use Rattle.answers.specs.Entry.{result_in};
ghost use Rattle.replay_parts.specs.Agree.{is_zero};
ghost use Rattle.replay_parts.specs.Case.{padded, numbers_said, bytes_said, says};

use crate::Case;
use crate::form::wide;
use answers::Used;

// Whether every byte is 0.
fn is_zero(bytes: &[u8]) -> bool
    ensures { result ≡ is_zero bytes.now }
{
    bytes.iter().all(|x| *x == 0)
}

// Whether a buffer has these bytes in front, and zeroes behind them.
fn is_padded(buffer: &[u8], said: &[u8]) -> bool
    ensures { result ≡ padded buffer.now said.now }
{
    match buffer.split_at_checked(said.len()) {
        Some((front, rest)) => front == said && is_zero(rest),
        None => false,
    }
}

impl Case<'_> {
    // Whether the answer and the three used lengths are those of the case.
    fn says_numbers(&self, number: usize, used: Used) -> bool
        ensures { result ≡ numbers_said self.now number used.nodes used.finds used.last }
    {
        number == wide(self.answer)
            && used.nodes == self.nodes.len()
            && used.finds == self.finds.len()
            && used.last == self.last.len()
    }

    // Whether the lent bytes are those of the case.
    fn says_bytes(&self, scratch: &[u8], nodes: &[u8], finds: &[u8], last: &[u8]) -> bool
        ensures { result ≡ bytes_said self.now scratch.now nodes.now finds.now last.now }
    {
        is_zero(scratch)
            && is_padded(nodes, self.nodes)
            && is_padded(finds, self.finds)
            && is_padded(last, self.last)
    }

    // Whether an answer by its number and the used lengths, with what was lent as the call left it, is the one of the case.
    pub fn says(
        &self,
        number: usize,
        used: Used,
        scratch: &[u8],
        nodes: &[u8],
        finds: &[u8],
        last: &[u8],
    ) -> bool
        ensures { result ≡ says self.now (result_in number used scratch.now nodes.now finds.now last.now) }
    {
        self.says_numbers(number, used) && self.says_bytes(scratch, nodes, finds, last)
    }
}

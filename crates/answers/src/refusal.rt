// The refusal of a call.
ghost use Rattle.std.specs.Prelude.{◌≡◌};
ghost use Rattle.grammar.specs.Read.{refusal};
ghost use Rattle.parser.specs.Refusals.{refusal_number};
ghost use Rattle.answers.specs.Entry.{room_of, result_of};

use crate::Answer;
use clearing::clear;
use parser::refusal::Refusal;

// Nothing is handed out, and everything is cleared.
pub fn refuse_all(
    scratch: &mut [u8],
    nodes: &mut [u8],
    finds: &mut [u8],
    last: &mut [u8],
    why: Refusal,
) -> Answer
    ensures { result_of result scratch.new nodes.new finds.new last.new ≡ refusal (room_of scratch.old nodes.old finds.old last.old) (refusal_number why) }
{
    clear(scratch, 0);
    clear(nodes, 0);
    clear(finds, 0);
    clear(last, 0);
    Err(why)
}

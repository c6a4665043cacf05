// One case of a list, run.
ghost use Rattle.std.specs.Prelude.{◌≡◌, ◌≤◌, length};
ghost use Rattle.answers.specs.Entry.{call_of, served};
ghost use Rattle.replay_parts.specs.Case.{call_in, says};

use answers::numbers;
use replay_parts::Case;

// What stands in the buffers before a call, so that a byte left as it was is no zero.
const BEFORE: u8 = 165;

// Whether the call of a case over these buffers comes to what the case says.
fn call_agrees(
    case: &Case,
    scratch: &mut [u8],
    nodes: &mut [u8],
    finds: &mut [u8],
    last: &mut [u8],
) -> bool
    ensures { result ≡ says case.now (served (call_of case.now.text.now case.now.toks.now case.now.env.now case.now.depth case.now.mode scratch.old nodes.old finds.old last.old)) }
{
    let answer = sml_parse::read(
        case.text, case.toks, case.env, case.depth, case.mode, scratch, nodes, finds, last,
    );
    let (number, used) = numbers(answer);
    case.says(number, used, scratch, nodes, finds, last)
}

// Whether a case is answered as it says.
pub fn case_agrees(case: &Case) -> bool
    ensures { result ≡ says case.now (served (call_in case.now)) }
{
    let mut scratch = [BEFORE; 65536];
    let mut nodes = [BEFORE; 65536];
    let mut finds = [BEFORE; 65536];
    let mut last = [BEFORE; 65536];
    call_agrees(
        case,
        &mut scratch[..usize::from(case.scratch_room)],
        &mut nodes[..usize::from(case.nodes_room)],
        &mut finds[..usize::from(case.finds_room)],
        &mut last[..usize::from(case.last_room)],
    )
}

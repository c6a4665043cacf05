// What a call answers, but for the reading itself: the state that a reading starts with, what is handed out, and a refusal.
#![tactic(auto)]

ghost use Rattle.std.specs.Prelude.{◌≡◌};
ghost use Rattle.answers.specs.Entry.{answer_number, used_of};

use parser::refusal::Refusal;

pub mod hand;
pub mod refusal;
pub mod start;

// How many bytes of each lent buffer are handed out.
#[derive(Clone, Copy)]
pub struct Used {
    pub nodes: usize,
    pub finds: usize,
    pub last: usize,
}

// Document 01's answer 0, with the three used lengths, or why the call is refused.
pub type Answer = Result<Used, Refusal>;

// Its number, and what was used: nothing where it is a refusal.
pub fn numbers(answer: Answer) -> (usize, Used)
    ensures { (result.0 ≡ answer_number answer) × (result.1 ≡ used_of answer) }
{
    match answer {
        Ok(used) => (0, used),
        Err(why) => (
            why.number(),
            Used {
                nodes: 0,
                finds: 0,
                last: 0,
            },
        ),
    }
}

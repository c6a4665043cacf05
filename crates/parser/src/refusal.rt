// Why a call is refused: document 01's answers but 0.
ghost use Rattle.std.specs.Prelude.{◌≡◌, ◌≤◌};
ghost use Rattle.parser.specs.Refusals.{refusal_number, number_of};

#[derive(Clone, Copy)]
pub enum Refusal {
    BadSettings = 1,
    BadRecords,
    BadEnv,
    TooDeep,
    NoScratch,
    NoNodes,
    NoFindings,
    NoFixity,
    NoFinal,
    Impossible, // one of the cases of `should_break_exp` that cannot happen
}

impl Refusal {
    // The number of the answer.
    pub fn number(self) -> usize
        ensures { result ≡ refusal_number self }
    {
        self as usize
    }

    // The refusal of this number, if there is one.
    pub fn of(n: usize) -> Option<Refusal>
        ensures { n ≤ 10 → number_of result ≡ n }
    {
        match n {
            1 => Some(Refusal::BadSettings),
            2 => Some(Refusal::BadRecords),
            3 => Some(Refusal::BadEnv),
            4 => Some(Refusal::TooDeep),
            5 => Some(Refusal::NoScratch),
            6 => Some(Refusal::NoNodes),
            7 => Some(Refusal::NoFindings),
            8 => Some(Refusal::NoFixity),
            9 => Some(Refusal::NoFinal),
            10 => Some(Refusal::Impossible),
            _ => None,
        }
    }
}

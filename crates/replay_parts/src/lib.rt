// The replay program but for the reading: the form of a list of answers, and a result held to it.
#![tactic(auto)]

ghost use Rattle.std.specs.Prelude.{◌≡◌, ◌&&◌, leb, length};

pub mod compare;
pub mod form;

// A case of a list: what is lent to read, the settings, the lengths of what is lent to write, and what must be answered and handed out.
#[derive(Clone, Copy)]
pub struct Case<'a> {
    pub text: &'a [u8],
    pub toks: &'a [u8],
    pub env: &'a [u8],
    pub depth: u64,
    pub mode: u64,
    pub scratch_room: u16,
    pub nodes_room: u16,
    pub finds_room: u16,
    pub last_room: u16,
    pub answer: u8,
    pub nodes: &'a [u8],
    pub finds: &'a [u8],
    pub last: &'a [u8],
}

impl Case<'_> {
    // Whether what must be handed out has the room that is lent.
    fn has_room(&self) -> bool
        ensures { result ≡ (leb (length self.now.nodes.now) self.now.nodes_room && leb (length self.now.finds.now) self.now.finds_room && leb (length self.now.last.now) self.now.last_room) }
    {
        self.nodes.len() <= usize::from(self.nodes_room)
            && self.finds.len() <= usize::from(self.finds_room)
            && self.last.len() <= usize::from(self.last_room)
    }
}

// The clearing of a lent buffer.
#![tactic(auto)]

ghost use Rattle.std.specs.Prelude.{◌≡◌, ◌++◌, length, take, drop};
ghost use Rattle.grammar.specs.Read.{zeroes};

// Makes every byte 0 but the first `kept`.
pub fn clear(b: &mut [u8], kept: usize)
    ensures { b.new ≡ take kept b.old ++ zeroes (length (drop kept b.old)) }
{
    // A loop and no `fill`: so a body that keeps every other byte is refused for what it writes, not for its form.
    for at in kept..b.len() {
        b[at] = 0;
    }
}

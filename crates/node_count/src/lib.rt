// How many node records the log of a reading comes to.
#![tactic(auto)]

ghost use Rattle.std.specs.Prelude.{◌/◌, length};
ghost use Rattle.node_count.specs.Log.{Counted};

use parser::TOOK;

// A token comes to one, a node that ended to two.
pub fn node_count(log: &[u8]) -> usize
    ensures { Counted log.now (length log.now / 8) result }
{
    let ends = log
        .chunks_exact(8)
        .filter(|record| record[0] != TOOK)
        .count();
    log.len() / 8 + ends
}

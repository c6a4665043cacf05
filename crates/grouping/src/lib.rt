// One lawful grouping of a line, proved of `read`: see specs/Grouping.antt.
#![tactic(auto)]

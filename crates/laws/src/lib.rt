// Laws of the grammar's programs, proved: see specs/ and proofs/.
#![tactic(auto)]

// What rules mean: the definitions and laws that the contracts of the other crates cite.
#![tactic(auto)]

// Worked examples of the definitions, computed (specs/): document 01's table of M cases.
#![tactic(auto)]

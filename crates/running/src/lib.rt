// No code: what the specification's run over a file says of a position in it and of the fields that
// a line was read as (specs/, proofs/).
#![tactic(auto)]

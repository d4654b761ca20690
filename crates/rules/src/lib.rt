// What the functions of all rules share: the outcome, its making, the search for a term that a rule
// would add. A rule's function, in a crate over this one, takes the literals at its places and its
// terms, and looks up what it needs. Rules with like rows stay functions of their own: each unpacks
// its premises itself, a rule of the project, and a helper for what is left would be no plainer.
#![tactic(auto)]

pub mod outcome;
pub mod searches;

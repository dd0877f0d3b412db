// The Boolean ring: polynomials in n letters, their values, and tables of bytes that hold them.
// `specs/` has the definitions that everything else cites, `proofs/` their laws, over every n.
// The code of the calls stands in `tables` and above; only the two types of a point's parts are declared here.

#![tactic(auto)]

// A state: bit i is the value of given i. It says nothing about unknowns.
#[derive(Clone, Copy, Debug, PartialEq, Eq)]
pub struct State(pub usize);

// A choice: bit j is the value of unknown j. It says nothing about givens.
#[derive(Clone, Copy, Debug, PartialEq, Eq)]
pub struct Choice(pub usize);

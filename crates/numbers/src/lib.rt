// The leaf functions on signed numbers. Each contract is one equation with a definition of semantics/specs.
#![tactic(auto)]

// Numbers that may be missing: operators, the load table and relations.
pub mod number;

// The plain run that conformance_run holds the call run against. Nothing of the engine is in it.
#![tactic(auto)]

// The plain run of document 01, on an array of counts.
pub mod plain;

// What a C program links: each call of gimletlemon under its own name, by the C calling convention. host/gimletlemon.h declares them.
#![tactic(auto)]

// Check and split.
mod nets;
// Test.
mod test;
// Menu.
mod menu;
// Fire.
mod fire;
// Run.
mod runs;

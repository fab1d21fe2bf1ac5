// The tries of solves: an equation of the guard gives a variable its value.
#![tactic(auto)]

// A solve try: a variable takes the value of the other side of an equation.
pub mod solve;

//! The rows of the machine's table, shown: for each instruction and each of its ways out an example whose result was worked
//! out by hand from the table. They stand in proofs/, by family, and the check computes them by the definitions of the machine.
//! The crate has nothing for others to use.
#![tactic(auto)]

// The static library for callers in C: each function of `mlat_solver` under its C name, with the same clauses. A module
// a subject, as there and in include/mlat_solver.h.
#![tactic(auto)]

mod algebra;
mod archives;
mod claims;
mod displays;
mod geodesy;
mod nearby;
mod numbers;
mod planning;
mod positions;
mod records;
mod solve;
mod states;
mod streams;
mod version;

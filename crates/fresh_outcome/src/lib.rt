// No function: this crate holds theorems about the definition, under a host whose replies come from one solver. They stand in specs/Solver.antt.
#![tactic(auto)]

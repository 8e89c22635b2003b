//! What a load of definitions makes of worlds and of what servers hold: laws, and no code.
//!
//! `specs/worlds` has what each server gets, and that each world on the way of a load is sound; `rules`,
//! that definitions which were accepted keep the rules; `stored`, what a server then holds;
//! `planned`, what the plan of a load (`load_plan`) says of a world; `texts`, what a text has that
//! is accepted. `specs/known` says which definitions are known in a world. `load_defs` carries
//! loads out.
#![tactic(auto)]

mod worlds;

pub use worlds::worked_load;

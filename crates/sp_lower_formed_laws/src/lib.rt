//! Lowerings are formed: a law that only proofs use.
//!
//! Where a linked program is well typed (`IsTypedProgram` of `sp_check_typing`), its lowering, if it is
//! within the limits (`Fits` of `sp_lower`), is formed, with the start values of its objects (`StartsStand` of `sp_lower_starts_laws`), in all that later layers
//! ask (`IsFormed` of `sp_ir`): each expression, command and edge, each object with its
//! owner and its start, each function with its one entry and exit, each call with its return, and
//! each site with its node.
#![tactic(auto)]

mod laws;

pub use laws::lowerings_are_formed;

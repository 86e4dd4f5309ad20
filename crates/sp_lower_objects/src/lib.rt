//! The objects of a lowered program and what belongs to each: its name, its start values, its
//! regions; and the code of each function.
//!
//! The objects of the units come first, in their order; then the functions; then, for each defined
//! function, its *temporaries* and its *result*; then the *sites*, where the library or an unknown
//! function gives an object. A report names what is local behind its function, as `f.x`, and the
//! first temporary of `f` is `f.%1`.
//!
//! So for `char *p = "a"; int main(void) { return f(); }` the objects are `p`, `%str.1`, `main`,
//! `f`, `main.%1` and `main.%ret`.
//!
//! Each function here makes one list of them; the definitions stand in `specs`. The layer above
//! puts the lists together: its contract is the one that is used above.
#![tactic(auto)]

mod codes;
mod initials;
mod making;
mod naming;
mod objects;
mod owners;
mod regions;
mod routines;

pub use codes::codes_from;
pub use initials::initials_of;
pub use making::{add_locals, add_sites, start_site, takes_pointer};
pub use objects::{add_functions, add_program_objects, function_names};
pub use owners::{codes_of, defined, mark_at, owners_of};
pub use regions::{MAX_REGIONS, regions_fit, regions_of};
pub use routines::routines_of;

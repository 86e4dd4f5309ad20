//! The scene of a program: what the effects of its commands rest on.
//!
//! An [`Analysis`] is a formed program with what is known of it before any effect: its *locations*,
//! where each cell may point, which functions are recursive, and the *ladder* of its constants. The
//! locations are the cells in the order of regions. A cell is a *summary* where it stands for more
//! than one place of the machine: by its shape (kept as bytes, an element of several, under a site),
//! or since it is local to a recursive function.
//!
//! ```text
//! int x, a[3];                              locations  x, a[], f.n, f.%ret, main.p, main.%ret
//! int f(int n){ return n ? f(n-1) : x; }    summaries  a[] (an element of several),
//! int main(void){ int *p; p = &a[1];                   f.n and f.%ret (f is recursive)
//!   return f(3); }                          p points to a[]
//! ```
//!
//! Contracts see an analysis as an `Analysed` of `specs.Analysed` (by `analysed_of`), and its scene
//! as `scene_of`. So [`Analysis`] is a `Scenery` of `sp_effect_assign`, on which assignments and conditions
//! work. The layers above use what every analysis is (`IsAnalysed` of `specs.Whole`), and that each
//! command of its program then is as its effect asks (`SceneLaws` of `specs.Laws`, which
//! [`scenes_are_lawful`] ensures).
#![tactic(auto)]

mod analysis;
mod cells;
mod laws;
mod summaries;

pub use analysis::Analysis;
pub use laws::scenes_are_lawful;
pub use summaries::owner_of;

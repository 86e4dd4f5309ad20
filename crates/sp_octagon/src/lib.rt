//! Octagons: what the analyser knows of sums and differences of a few members (Miné 2006).
//!
//! An [`Octagon`] has *n* members, 2 to 8, and bounds their values and the differences and sums
//! of two of them. It is a *matrix* of 2n rows and columns: row and column 2i stand for member i,
//! 2i+1 for its *negative*, and *entry* (r, c) bounds what column c stands for minus what row r
//! stands for, or has no bound. An entry is *unary* where c is r's negative: it bounds twice a
//! member. Three facts hold of every octagon: the diagonal is 0, (r, c) equals the entry from c's
//! negative to r's negative, and each bound lies from -2^100 to 2^100. A *point* gives each
//! member a whole number of halves, and is *held* when each bound is met. Octagons of one size
//! are ordered entry by entry. `close` gives the *closure*, defined by least walks of entries, or
//! tells that no point is held. The layers above use that each call makes an octagon of another
//! by a function of `specs.Functions`, and the laws of these functions (`OctagonLaws` of
//! `specs.Laws`, the contract of [`octagons_are_lawful`]): what each makes of the entries, the
//! order, that each is monotone, the points that are held, and the rank on the ladder.
//!
//! An [`Octagon`] has room for eight members, whatever its size, so that no call of it takes memory. Where
//! one is kept, [`Kept`] has the room of its size: 2n(n+1) bounds.
//!
//! # Notation
//!
//! `m`, `d`: entries, by row and column; `d` those of least walks. `r`, `c` (or `i`, `j`): a row
//! and a column. `x`, `y`: members. `k`, `v`: numbers. `p`: a point, in halves. `count`: how many
//! rows are looked at, which is 2n.
//!
//! # Example
//!
//! ```text
//! i = 0;             // i in [0,0]:             (1,0) <= 0, (0,1) <= 0
//! j = i;             // j - i in [0,0]:         (0,2) <= 0, (2,0) <= 0, and the entries that equal them
//! while (i < 10) {   // i in [0,9]:             (1,0) <= 18; closed, j is at most 9 too: (3,2) <= 18
//!     i = i + 1;     // j - i in [-1,-1]:       (0,2) <= -1, (2,0) <= 1
//!     j = j + 1; }   // j - i in [0,0] again:   so after the loop j is 10, as i is
//! ```
#![tactic(auto)]

mod changes;
mod closing;
mod kept;
mod lawful;
mod octagon;
mod passes;
mod relating;

pub use kept::Kept;
pub use lawful::octagons_are_lawful;
pub use octagon::Octagon;

//! Laws of the regions of formed programs (`sp_ir`).
//!
//! A *part* of an object is an element of an array or a member of a struct. Every object and every
//! part of it has a region, but a member of floating type, and a region that is kept as bytes stands
//! for all parts of its union. So whatever an lvalue of a formed program names is there: no step
//! of points-to or of evaluation falls back on another region.
//!
//! For `struct s { double d; int a[3]; } x;` the regions are those of `x`, of `x.a` and of its
//! elements; `x.d` has none. `extern double b[2];` has those of `b` and of its elements, and none of
//! them is a cell.
//!
//! The layers above use [`regions_are_there`]: `RegionLaws` of `specs.Laws`.
#![tactic(auto)]

mod laws;

pub use laws::regions_are_there;

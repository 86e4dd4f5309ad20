//! Declarations of objects (C90 6.1.2.2, 6.1.2.4, 6.5, 6.7.2): linkage, storage, and one entry in
//! the tables of the unit for each object.
//!
//! A name with *linkage* has one entry, whichever declarations speak of it: their types are
//! compatible, and the object has the composite of them. One without linkage has an entry of its
//! own. The entry is *reserved* before the type is read, so that entries come in the order of the
//! names. A *tentative definition* of external linkage may be of an incomplete type until its unit
//! ends.
//!
//! So `extern int a[]; int a[3]; int a[];` is one object of type `int[3]`, whose place is the
//! second `a`. `static int a[];` is the fault IncompleteType at its declarator, and `int a; char a;` RedeclaredName at the
//! second `a`.
//!
//! The checks of declarations use the calls. Each answers exactly what the definition of its name
//! in `specs/Objects.antt` gives for the environment before it, with the environment behind it, or
//! its fault.
#![tactic(auto)]

mod copies;
mod declarations;
mod linkage;

pub use declarations::{object_declared, object_reserved, object_unvalued};
pub use linkage::{entry_for, has_linkage, is_outside, linkage_for, storage_for};

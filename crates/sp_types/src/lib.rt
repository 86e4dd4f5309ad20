//! The types of C90 and the typed trees of programs, as the checks make them and the lowering reads them.
//!
//! A *type* is one of C90 6.1.2.5 with qualifiers left aside; an enumeration is `int`. Structs and unions stand in a *table*
//! and are named by their number there; each entry keeps what its members give it, so that no call goes down through members.
//! An *extent* is a size and an alignment in bytes. A *typed tree* is an expression or a statement in which every conversion
//! that C90 makes is written out: it has no parentheses, names, string literals or `sizeof`. A *program* is what a list of
//! units is once it is checked and linked.
//!
//! So for `int a[3];` the condition `a[1]<2u` is, without places, `typed (binary Less (typed (convert (index (decay a) 1))
//! unsigned) 2) int`: the array decays to a pointer, and its element converts to `unsigned int`.
//!
//! Contracts see types and trees without their pointers (`specs/Types.antt`, `specs/Typed.antt`, by `type_of` and its like in
//! `specs/View.antt` and `specs/TypedView.antt`). The layers above read and build them by the accessors and makers here, each
//! of which says exactly what it reads or makes, and use `layout`, `compatible`, `convertible`, `promote` and `common`, which
//! equal the definitions of C90 in `specs/`.
#![tactic(auto)]

mod compatibility;
mod ctype;
mod expressions;
mod extents;
mod makers;
mod program;
mod statement;
mod statements;
mod structs;
mod typed;
mod wide;

pub use compatibility::{compatible, convertible, same};
pub use ctype::{ArrayType, CType, FloatKind, IntKind, Signature, common, promote};
pub use extents::{Extent, MAX_SIZE, layout};
pub use program::{FunctionDef, Linkage, ObjectDef, Program, Storage};
pub use statement::{TypedStatement, TypedStatementForm};
pub use structs::{StructType, cells, height, leaves};
pub use typed::{TypedExpr, TypedForm};
pub use wide::WideInt;

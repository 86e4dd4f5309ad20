//! The rules of C90 on statements: what each form asks of its parts and of what stands around it
//! (C90 6.6).
//!
//! What stands *around* a statement ([`Around`]) is the type that its function returns, the type of
//! the innermost switch, and whether there is a loop. A rule takes parts that are checked, and
//! answers the part of the typed statement that it makes, or a fault. Nothing here walks over a
//! tree of the parser, and nothing knows of scopes.
//!
//! So `case 4294967297:` in a switch on a `char` takes the value 1: the switch is on the promoted
//! type `int` (6.2.1.1), and the constant converts to it (6.6.4.2). Outside of a switch it is the
//! fault MisplacedJump at the `case`.
//!
//! Labels and cases are constraints on a whole function and a whole switch (6.6.1, 6.6.4.2,
//! 6.6.6.1). The *cases* of a switch are those of its body that stand in no switch inside. No two of
//! them have one value, and there is one default at most. The *labels* of a function are all in one
//! space of names, whatever blocks they stand in: each is given once, and a `goto` names one of
//! them, before it or behind it. So in `switch (x) { case 1: switch (y) { case 1:; } case 2:;
//! case 1:; }` the cases of the outer switch are 1, 2 and 1, and the last of them is the fault
//! `RepeatedCase` at its `case`.
//!
//! The checks of statements use the calls. Each answers exactly what the definition of its name in
//! `specs/` gives, or its fault. Those of labels and cases go over the statement once or twice,
//! whatever the count of cases.
#![tactic(auto)]

mod around;
mod blocks;
mod cases;
mod labels;
mod repeats;
mod rules;
mod values;

pub use around::Around;
pub use blocks::add_locals;
pub use labels::labelled;
pub use rules::{
    broken, case_value, condition, continued, returned, switch_around, switch_made, switch_value,
};

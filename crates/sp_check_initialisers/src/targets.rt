//! What an initialiser is for.

use sp_tree::Place;

/// The declaration of an object that an initialiser stands in.
#[derive(Clone, Copy, Debug, PartialEq, Eq)]
pub struct Target {
    /// Whether the object lives as long as the program does (C90 6.1.2.4): its values are
    /// constants.
    pub fixed: bool,
    /// The place of the name.
    pub name: Place,
    /// The place of the declarator.
    pub declarator: Place,
}

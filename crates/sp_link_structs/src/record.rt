//! Matchings.

/// The structs of a program, as structs of its units.
#[derive(Drop)]
pub struct Matching {
    /// The unit and the number there of each struct of the program, in the program's order.
    pub structs: Vec<(u32, u32)>,
    /// For each unit the number in the program of each of its structs.
    pub numbers: Vec<Vec<u32>>,
}

//! What lowering knows of the function whose statements it lowers.
use sp_lower_draft::Scope;
use sp_types::CType;

/// Where the start values of an object go.
#[derive(Drop)]
pub struct Initial {
    /// The cell of each start value, in their order.
    pub cells: Vec<u32>,
    /// The cells with a leaf that has no value.
    pub zero: Vec<u32>,
}

/// The program, and the function at hand.
pub struct Frame<'a> {
    pub scope: Scope<'a>,
    /// Of each object of the program.
    pub initials: &'a [Initial],
    /// The number of the object of the function's result.
    pub result: u32,
    pub result_type: &'a CType,
}

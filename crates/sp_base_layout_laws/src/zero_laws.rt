//! The law of cells without a start value.
ghost use Rattle.sp_base_layout_laws.specs.Zeros.{ZerosHold};

/// The cells that are left are those with a leaf that has no value. The call does nothing.
pub fn zeros_are_left()
    ensures { ZerosHold }
{}

//! Integers of 128 bits in two words.
ghost use Rattle.std.specs.Prelude.{◌≡◌};
ghost use Rattle.sp_types.specs.Wide.{wide_of};

/// An integer of 128 bits in two words. It is aligned as a word is, where an `i128` would have each
/// typed expression aligned to 16 bytes.
#[derive(Clone, Copy, Debug, PartialEq, Eq)]
pub struct WideInt {
    high: i64,
    low: u64,
}

/// What one of `high` stands for.
const STEP: i128 = 1 << 64;

impl WideInt {
    /// The words of a value.
    #[tactic(auto, using(crate::proofs::Words::words))]
    pub fn new(value: i128) -> WideInt
        ensures { wide_of result ≡ value }
    {
        WideInt {
            high: value.div_euclid(STEP) as i64,
            low: value.rem_euclid(STEP) as u64,
        }
    }

    /// Its value.
    pub fn get(self) -> i128
        ensures { result ≡ wide_of self }
    {
        self.high as i128 * STEP + self.low as i128
    }
}

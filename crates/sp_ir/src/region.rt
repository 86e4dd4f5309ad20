//! Regions, the steps of their paths, and how they are looked up.
ghost use Rattle.std.specs.Prelude.{◌≡◌, ◌<◌, ◌^◌, nat_eq, ◌&&◌, map, length, IfOk};
ghost use Rattle.std.specs.Option.{option_eq};
ghost use Rattle.sp_ir.specs.Paths.{same_step, same_path, whole_path, step_input, place_input};
ghost use Rattle.sp_ir.specs.Regions.{region_of, is_cell, is_under, numbers_of};
ghost use Rattle.sp_ir.specs.PathLaws.{step_equivalence, step_partial, steps_fed, places_equivalence, places_partial, places_fed, ends_equivalence, ends_partial, ends_fed, look-up, look-up_fed};

use indexmap::Equivalent;
use sp_types::CType;
use std::alloc::{AllocError, Global};
use std::hash::{Hash, Hasher};

/// A step from a region to one under it.
#[derive(Debug, Clone, Copy)]
pub enum Step {
    /// To the member of a struct, by its number there.
    Field(u32),
    /// To the elements of an array, which are one region.
    Element,
}

impl PartialEq for Step {
    ghost eq = { same_step };

    ghost laws = { step_partial };

    fn eq(&self, other: &Step) -> bool {
        match (self, other) {
            (Step::Field(member), Step::Field(other)) => member == other,
            (Step::Element, Step::Element) => true,
            (Step::Field(_), Step::Element) | (Step::Element, Step::Field(_)) => false,
        }
    }
}

impl Eq for Step {
    ghost laws = { step_equivalence };
}

impl Hash for Step {
    ghost hash_input = { step_input };

    ghost respects_eq = { steps_fed };

    fn hash<H: Hasher>(&self, state: &mut H) {
        match self {
            Step::Field(member) => {
                state.write_u8(1);
                state.write_u32(*member);
            }
            Step::Element => state.write_u8(0),
        }
    }
}

/// A region of an object. Two are equal where they have one object and one path.
#[derive(Drop)]
pub struct Region {
    pub object: u32,
    /// The steps to it from the object's root.
    pub path: Vec<Step>,
    /// The type of its elements; `None` where it is kept as bytes.
    pub element: Option<CType>,
    /// The size of an element in bytes; 1 where it is kept as bytes, and for a function.
    pub size: u64,
    /// How many elements it has; `None` for a site.
    pub count: Option<u64>,
}

impl Region {
    /// Whether it is a cell: of integer or pointer type, or kept as bytes.
    pub fn is_cell(&self) -> bool
        ensures { result ≡ is_cell (region_of self.now) }
    {
        match &self.element {
            None => true,
            Some(CType::Int(_) | CType::Pointer(_)) => true,
            Some(_) => false,
        }
    }

    /// Whether its path begins with that of another region of its object.
    pub fn is_under(&self, above: &Region) -> bool
        ensures { result ≡ is_under (region_of above.now) (region_of self.now) }
    {
        above.object == self.object && self.path.as_slice().starts_with(above.path.as_slice())
    }

    /// The numbers in a list of the cells under a region.
    pub(crate) fn cells_among(
        alloc: Global,
        regions: &[Region],
        above: &Region,
    ) -> Result<Vec<u32>, AllocError>
        requires { length regions.now < 2 ^ 32 }
        ensures { IfOk result (λ cells. cells.items ≡
            numbers_of (λ r. is_cell r && is_under (region_of above.now) r) 0
            (map region_of regions.now)) }
    {
        let mut cells = Vec::new(alloc);
        'regions: for (i, region) in regions.iter().enumerate() {
            if region.is_cell() && region.is_under(above) {
                cells.push(i as u32)?;
            }
        }
        Ok(cells)
    }
}

impl PartialEq for Region {
    ghost eq = { λ r s. nat_eq r.object s.object && same_path r.path.items s.path.items };

    ghost laws = { places_partial (λ r. r.object) (λ r. r.path.items) };

    fn eq(&self, other: &Region) -> bool {
        self.object == other.object && self.path == other.path
    }
}

impl Eq for Region {
    ghost laws = { places_equivalence (λ r. r.object) (λ r. r.path.items) };
}

impl Hash for Region {
    ghost hash_input = { λ r. place_input r.object r.path.items };

    ghost respects_eq = { places_fed (λ r. r.object) (λ r. r.path.items) };

    fn hash<H: Hasher>(&self, state: &mut H) {
        state.write_u32(self.object);
        Step::hash_slice(self.path.as_slice(), state);
    }
}

/// An object and a path, by which a region is looked up: these steps, and one more.
pub(crate) struct At<'a> {
    pub object: u32,
    pub path: &'a [Step],
    pub step: Option<Step>,
}

impl Clone for At<'_> {
    fn clone(&self) -> Result<Self, AllocError> {
        Ok(*self)
    }
}

impl Copy for At<'_> {}

impl PartialEq for At<'_> {
    ghost eq = { λ a b. nat_eq a.object b.object && (same_path a.path.now b.path.now && option_eq same_step a.step b.step) };

    ghost laws = { ends_partial (λ a. a.object) (λ a. a.path.now) (λ a. a.step) };

    fn eq(&self, other: &Self) -> bool {
        self.object == other.object && (self.path == other.path && self.step == other.step)
    }
}

impl Eq for At<'_> {
    ghost laws = { ends_equivalence (λ a. a.object) (λ a. a.path.now) (λ a. a.step) };
}

impl Hash for At<'_> {
    ghost hash_input = { λ a. place_input a.object (whole_path a.path.now a.step) };

    ghost respects_eq = { ends_fed (λ a. a.object) (λ a. a.path.now) (λ a. a.step) };

    fn hash<H: Hasher>(&self, state: &mut H) {
        state.write_u32(self.object);
        Step::hash_slice(self.path, state);
        if let Some(step) = self.step {
            step.hash(state);
        }
    }
}

impl Equivalent<Region> for At<'_> {
    ghost equivalent = { λ a r. nat_eq a.object r.object && same_path (whole_path a.path.now a.step) r.path.items };

    ghost respects_hash = { λ a r. look-up_fed a.object (whole_path a.path.now a.step) r.object r.path.items };

    ghost respects_eq = { λ a r s. look-up a.object (whole_path a.path.now a.step) r.object r.path.items s.object s.path.items };

    fn equivalent(&self, key: &Region) -> bool {
        self.object == key.object && is_path(self.path, self.step, key.path.as_slice())
    }
}

/// Whether these steps and one more are a path.
fn is_path(steps: &[Step], last: Option<Step>, path: &[Step]) -> bool
    ensures { result ≡ same_path (whole_path steps.now last) path.now }
{
    match last {
        None => steps == path,
        Some(step) => match path.split_last() {
            Some((end, front)) => step == *end && steps == front,
            None => false,
        },
    }
}

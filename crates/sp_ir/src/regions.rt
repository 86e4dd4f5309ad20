//! The regions of a program, each once, by number.
ghost use Rattle.std.specs.Prelude.{◌^◌, ◌<◌, length};

use crate::region::{At, Region, Step};
use indexmap::IndexSet;
use std::alloc::{AllocError, Global};

/// The regions of a program. A region's number is its place in the order in which they were first
/// added, and no two have one object and one path. Contracts see the list of them by
/// `region_list` of `specs.Regions`.
#[derive(Drop)]
pub struct Regions {
    set: IndexSet<Region>,
    ghost few: { length set.keys < 2 ^ 32 },
}

impl Regions {
    ghost use Rattle.std.specs.Prelude.{◌≡◌, ℕ, ◌-◌, ◌^◌, ◌<◌, [], length, slice_get, Some, option_map, IfOk, OnOk, OnErr};
    ghost use Rattle.sp_ir.specs.Regions.{region_of, region_list, number_at, child_at, region_at, with_region, is_cell_at, is_summary_at, cells_under_at, is_many, is_under_many};
    ghost use Rattle.sp_ir.specs.Paths.{whole_path};

    /// No region.
    pub fn new(alloc: Global) -> Regions
        ensures { region_list result ≡ [] }
    {
        Regions {
            set: IndexSet::new(alloc),
        }
    }

    /// How many there are.
    pub fn len(&self) -> usize
        ensures { result ≡ length (region_list self.now) }
    {
        self.set.len()
    }

    /// The region of a number; `None` exactly where there is none.
    pub fn get(&self, region: u32) -> Option<&Region>
        ensures { option_map (λ r. region_of r.now) result ≡ slice_get (region_list self.now) region }
    {
        self.set.get_index(region as usize)
    }

    /// The number of the root of an object; `None` exactly where it has none.
    pub fn root(&self, object: u32) -> Option<u32>
        ensures { result ≡ number_at (region_list self.now) object [] }
    {
        self.find(At {
            object,
            path: &[],
            step: None,
        })
    }

    fn find(&self, at: At<'_>) -> Option<u32>
        ensures { result ≡ number_at (region_list self.now) at.entry.object (whole_path at.entry.path.now at.entry.step) }
    {
        match self.set.get_index_of(at) {
            Some(number) => Some(number as u32),
            None => None,
        }
    }

    /// The number of the region one step under another; `None` exactly where there is none.
    pub fn child(&self, region: u32, step: Step) -> Option<u32>
        ensures { result ≡ child_at (region_list self.now) region step }
    {
        let above = self.get(region)?;
        self.find(At {
            object: above.object,
            path: above.path.as_slice(),
            step: Some(step),
        })
    }

    /// The number of a region: its old one where one of its object and path is held, else the next,
    /// and then it goes last. Wants memory only for a new one; the regions are then unchanged.
    pub fn add(&mut self, region: Region) -> Result<u32, AllocError>
        requires { length (region_list self.old) < 2 ^ 32 - 1 }
        ensures added { OnOk result (region_list self.new ≡ with_region (region_list self.old) (region_of region)) }
        ensures number { IfOk result (λ n. number_at (region_list self.new) region.object region.path.items ≡ Some n) }
        ensures unchanged { OnErr result (region_list self.new ≡ region_list self.old) }
    {
        let (number, _) = self.set.insert_full(region)?;
        Ok(number as u32)
    }

    /// Whether a region is a cell: of integer or pointer type, or kept as bytes.
    pub fn is_cell(&self, region: u32) -> bool
        ensures { result ≡ is_cell_at (region_list self.now) region }
    {
        match self.get(region) {
            Some(found) => found.is_cell(),
            None => false,
        }
    }

    /// Whether a region stands for more than one place of the machine, other than by recursion: it
    /// is under a site, in an element of several, or kept as bytes.
    pub fn is_summary_shape(&self, region: u32) -> bool
        ensures { result ≡ is_summary_at (region_list self.now) region }
    {
        match self.get(region) {
            Some(found) => {
                found.element.is_none()
                    || self.is_many(found.object, found.path.as_slice())
                    || self.is_under_many(found.object, found.path.as_slice())
            }
            None => false,
        }
    }

    /// The cells under a region, itself among them, ascending.
    pub fn cells_under(&self, alloc: Global, region: u32) -> Result<Vec<u32>, AllocError>
        ensures { IfOk result (λ cells. cells.items ≡ cells_under_at (region_list self.now) region) }
    {
        match self.get(region) {
            Some(above) => Region::cells_among(alloc, self.set.as_slice(), above),
            None => Ok(Vec::new(alloc)),
        }
    }

    // Whether the region at a path has other than one element.
    fn is_many(&self, object: u32, path: &[Step]) -> bool
        ensures { result ≡ is_many (region_list self.now) object path.now }
    {
        match self.at(object, path) {
            Some(found) => found.count != Some(1),
            None => false,
        }
    }

    // The region of an object and a path.
    fn at(&self, object: u32, path: &[Step]) -> Option<&Region>
        ensures { option_map (λ r. region_of r.now) result ≡
            region_at (region_list self.now) object path.now }
    {
        let number = self.find(At {
            object,
            path,
            step: None,
        })?;
        self.get(number)
    }

    // Whether the region at a shorter front of a path has other than one element.
    fn is_under_many(&self, object: u32, path: &[Step]) -> bool
        ensures { result ≡ is_under_many (region_list self.now) object path.now (length path.now) }
    {
        for k in 0..path.len() {
            if self.is_many(object, &path[..k]) {
                return true;
            }
        }
        false
    }
}

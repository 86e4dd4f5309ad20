//! The laws of regions as a contract.
ghost use Rattle.sp_base_region_laws.specs.Laws.{RegionLaws};

/// Every region that a formed program's lvalues lead to is there (`RegionLaws` of `specs.Laws`). The
/// call does nothing.
pub fn regions_are_there()
    ensures laws { RegionLaws }
{}

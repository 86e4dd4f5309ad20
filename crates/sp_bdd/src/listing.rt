//! The rows of a set.
ghost use Rattle.std.specs.Prelude.{◌≡◌, ◌≤◌, ◌<◌, ◌+◌, ◌^◌, ◌++◌, filter, OnOk};
ghost use Rattle.sp_bdd.specs.Table.{diagram};
ghost use Rattle.sp_bdd.specs.inner.Combined.{IsUnder};
ghost use Rattle.sp_bdd.specs.Listed.{listed, is_within};

use crate::bits::power;
use crate::manager::{Bdd, Manager};
use std::alloc::AllocError;

/// Rows from one to another, both included.
#[derive(Clone, Copy)]
pub(crate) struct Span {
    pub(crate) first: u64,
    pub(crate) last: u64,
}

/// Adds the rows of a set within a span, each of which is a base and a rest of so many bits,
/// ascending.
pub(crate) fn list(
    manager: &Manager,
    found: &mut Vec<u64>,
    span: Span,
    set: Bdd,
    level: u32,
    base: u64,
) -> Result<(), AllocError>
    requires under { IsUnder manager.now level set }
    requires level { level ≤ 60 }
    requires few { base + 2 ^ level ≤ 2 ^ 60 }
    ensures { OnOk result (found.new.items ≡
        found.old.items ++ filter (is_within span.first span.last) (listed level (diagram manager.now set) base)) }
{
    manager.formed();
    if set == Bdd::NONE || base > span.last || base + power(level) <= span.first {
        return Ok(());
    }
    if level == 0 {
        found.push(base)?;
        return Ok(());
    }
    let bit = level - 1;
    let (low, high) = manager.parts(set, bit);
    list(manager, found, span, low, bit, base)?;
    list(manager, found, span, high, bit, base + power(bit))?;
    Ok(())
}

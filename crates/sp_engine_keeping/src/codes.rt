//! Triples as rows of 60 bits, ascending as the triples do.
ghost use Rattle.std.specs.Prelude.{◌≡◌, ◌≤◌, ◌<◌, ◌+◌, ◌*◌, ◌++◌, map, length, All, IfOk, OnOk};
ghost use Rattle.sp_engine_keeping.specs.Codes.{code, pair, codes_from, AreSmall};

use sp_lattice::rows::Rows;
use std::alloc::{AllocError, Global};

/// The count below which numbers of nodes and locations have 20 bits.
pub(crate) const NUMBERS: u32 = 1 << 20;

/// The row of a triple.
pub(crate) fn code(from: u32, location: u32, to: u32) -> u64
    requires from { from < 1048576 }
    requires location { location < 1048576 }
    requires to { to < 1048576 }
    ensures { result ≡ code from (location, to) }
{
    u64::from(from) * (1 << 40) + (u64::from(location) * (1 << 20) + u64::from(to))
}

/// The first and the last row that a triple which leaves this node may have.
pub(crate) fn span(from: u32) -> (u64, u64)
    requires { from < 1048576 }
    ensures first { result.0 ≡ from * 1099511627776 }
    ensures last { result.1 ≡ from * 1099511627776 + 1099511627775 }
{
    let first = u64::from(from) * (1 << 40);
    (first, first + ((1 << 40) - 1))
}

/// The pairs of location and target of rows.
pub(crate) fn pairs_of(alloc: Global, rows: &[u64]) -> Result<Vec<(u32, u32)>, AllocError>
    ensures { IfOk result (λ pairs. pairs.items ≡ map pair rows.now) }
{
    let mut pairs = Vec::with_capacity(alloc, rows.len())?;
    for row in rows {
        let location = (*row / (1 << 20) % (1 << 20)) as u32;
        let to = (*row % (1 << 20)) as u32;
        pairs.push((location, to))?;
    }
    Ok(pairs)
}

/// The rows of all triples, ascending.
pub(crate) fn codes_of(alloc: Global, rows: &Rows<(u32, u32)>) -> Result<Vec<u64>, AllocError>
    requires nodes { length rows.now ≤ 1048576 }
    requires small { All AreSmall rows.now }
    ensures { IfOk result (λ codes. codes.items ≡ codes_from 0 rows.now) }
{
    let count = rows.len();
    let mut codes = Vec::with_capacity(alloc, rows.first(count))?;
    'nodes: for node in 0..count {
        let row = rows.row(node);
        add_codes(&mut codes, node as u32, row)?;
    }
    Ok(codes)
}

/// Adds the rows of the triples that leave a node.
fn add_codes(codes: &mut Vec<u64>, node: u32, pairs: &[(u32, u32)]) -> Result<(), AllocError>
    requires node { node < 1048576 }
    requires small { AreSmall pairs.now }
    ensures { OnOk result (codes.new.items ≡ codes.old.items ++ map (code node) pairs.now) }
{
    for (location, to) in pairs {
        codes.push(code(node, *location, *to))?;
    }
    Ok(())
}

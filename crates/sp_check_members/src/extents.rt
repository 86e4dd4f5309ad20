//! Where members lie (C90 6.5.2.1).
ghost use Rattle.std.specs.Prelude.{◌≡◌};
ghost use Rattle.sp_types.specs.Structs.{aligned, with_member};
ghost use Rattle.sp_check_members.specs.Members.{fitting, closed};

use sp_types::{Extent, MAX_SIZE};

/// The least multiple of an alignment at or above an offset.
fn aligned(offset: u64, align: u64) -> u128
    ensures { result ≡ aligned offset align }
{
    if align == 0 {
        return 0;
    }
    let align = align as u128;
    (offset as u128 + (align - 1)) / align * align
}

/// An extent, where it has at most 2^40 bytes.
fn fitting(size: u128, align: u64) -> Option<Extent>
    ensures { result ≡ fitting (record { size = size; align = align }) }
{
    if size <= MAX_SIZE as u128 {
        Some(Extent {
            size: size as u64,
            align,
        })
    } else {
        None
    }
}

/// The extent with a member behind the others, or on them in a union.
pub(crate) fn with_member(union: bool, whole: Extent, member: Extent) -> Option<Extent>
    ensures { result ≡ fitting (with_member union whole member) }
{
    let align = whole.align.max(member.align);
    if union {
        fitting(whole.size.max(member.size) as u128, align)
    } else {
        fitting(
            aligned(whole.size, member.align) + member.size as u128,
            align,
        )
    }
}

/// The extent of the whole: it ends where its alignment divides.
pub(crate) fn closed(whole: Extent) -> Option<Extent>
    ensures { result ≡ fitting (closed whole) }
{
    fitting(aligned(whole.size, whole.align), whole.align)
}

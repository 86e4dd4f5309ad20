//! The members of a struct while they are being read.
ghost use Rattle.std.specs.Prelude.{◌≡◌, ◌++◌, ◌∷◌, [], OnOk, OnErr};
ghost use Rattle.sp_check_operands.specs.Balances.{members_seen};
ghost use Rattle.sp_check_members.specs.Members.{has_member};

use indexmap::IndexSet;
use sp_types::CType;
use std::alloc::{AllocError, Global};
use std::marker::Model;

/// How many members are walked through for a name, which the invariant of [`MemberList`] names too.
/// Most structs have no more, and those hash nothing.
const WALKED: usize = 8;

/// Members by their names and types, in the order in which they were read.
///
/// Contracts see them as the list. A name is looked for in the first eight, and behind them in a
/// set: else each new member would walk through all before it.
#[derive(Drop)]
pub struct MemberList {
    members: Vec<(u32, CType)>,
    /// The names of the members behind the first eight, to look them up.
    later: IndexSet<u32>,
}

impl Model for MemberList {
    ghost use Rattle.std.specs.Prelude.{List, ℕ, ◌≡◌, nat_eq, drop};
    ghost use Rattle.indexmap.specs.IndexSet.{contains};
    ghost use Rattle.std.specs.Coded.{coded_list, coded×, coded_ℕ};
    ghost use Rattle.sp_types.specs.contracts.ctype.CType as the_type;
    ghost use Rattle.sp_types.specs.declared.ctype.CType.{CType};
    ghost use Rattle.sp_check_operands.specs.Balances.{members_seen};
    ghost use Rattle.sp_check_members.specs.Members.{has_member};

    ghost Value = { List (ℕ × CType) };

    ghost coded = { coded_list (coded× coded_ℕ the_type.the_row.coded) };

    ghost view = { λ l. l.members.items };

    ghost invariant = { λ l. (n : ℕ) → contains nat_eq l.later n ≡
        has_member (members_seen (drop 8 l.members.items)) n };
}

impl MemberList {
    /// No members.
    pub fn new(alloc: Global) -> MemberList
        ensures { result ≡ [] }
    {
        MemberList {
            members: Vec::new(alloc),
            later: IndexSet::new(alloc),
        }
    }

    /// Whether a member has the name.
    pub fn has(&self, name: u32) -> bool
        ensures { result ≡ has_member (members_seen self.now) name }
    {
        if self.members.len() <= WALKED {
            return has_member(&self.members, name);
        }
        has_member(&self.members[..WALKED], name) || self.later.contains(&name)
    }

    /// Puts a member behind the others. Wants memory; they are then unchanged.
    pub fn push(&mut self, name: u32, of: CType) -> Result<(), AllocError>
        ensures ok { OnOk result (self.new ≡ self.old ++ (name, of) ∷ []) }
        ensures err { OnErr result (self.new ≡ self.old) }
    {
        let is_later = self.members.len() >= WALKED;
        self.members.push((name, of))?;
        if !is_later {
            return Ok(());
        }
        match self.later.insert(name) {
            Ok(_) => Ok(()),
            Err(_) => {
                self.members.pop();
                Err(AllocError)
            }
        }
    }

    /// The members, all of which are read.
    pub fn into_members(self) -> Vec<(u32, CType)>
        ensures { result.items ≡ self }
    {
        self.members
    }
}

/// Whether one of these members has the name.
fn has_member(members: &[(u32, CType)], name: u32) -> bool
    ensures { result ≡ has_member (members_seen members.now) name }
{
    'members: for (i, member) in members.iter().enumerate() {
        if member.0 == name {
            return true;
        }
    }
    false
}

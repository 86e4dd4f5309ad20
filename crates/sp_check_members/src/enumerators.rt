//! The constants of enumerations (C90 6.5.2.2).
ghost use Rattle.sp_base_checked.specs.Answers.{AnswersIn};
ghost use Rattle.sp_check_env.specs.Declaring.{LeadsTo};
ghost use Rattle.sp_check_env.specs.Views.{env_of};
ghost use Rattle.sp_check_members.specs.Enumerators.{with_enum_tag, enumerator};

use sp_base_checked::{CheckError, fault};
use sp_check_env::Env;
use sp_check_scopes::{Meaning, Tag};
use sp_tree::{FaultKind, Place};

const MIN_INT: i128 = -2147483648;

const MAX_INT: i128 = 2147483647;

/// Defines the tag of an enumeration in the innermost scope; OtherTagKind where the scope has it already.
pub fn with_enum_tag(env: &mut Env, tag: Option<u32>, place: Place) -> Result<(), CheckError>
    ensures { LeadsTo (with_enum_tag (env_of env.old) tag place) (env_of env.new) result }
{
    let Some(name) = tag else {
        return Ok(());
    };
    if env.tag_here(name).is_some() {
        return fault(FaultKind::OtherTagKind, place);
    }
    env.add_tag(name, Tag::Enum)?;
    Ok(())
}

/// Declares an enumeration constant, and answers the value that the next one has where none is
/// given. BadOperand stands at its name where its value is no int, RedeclaredName where the scope has the name
/// already.
pub fn enumerator(env: &mut Env, name: u32, place: Place, value: i128) -> Result<i128, CheckError>
    ensures { AnswersIn (λ z. z) (enumerator (env_of env.old) name place value)
        (env_of env.new) result }
{
    if !(MIN_INT <= value && value <= MAX_INT) {
        return fault(FaultKind::BadOperand, place);
    }
    env.add_constant(value)?;
    env.declare(name, Meaning::Constant(value), place)?;
    Ok(value + 1)
}

//! What follows from the definition of a matching, as contracts.
ghost use Rattle.sp_link_structs.specs.Laws.{
  JoinedAreOne,
  MatchingsEqual,
  OneUnitStays,
  StructsAreNumbered,
  StructsAreThere,
};

/// The structs of some units have one matching; in a program of one unit each struct stands for
/// itself and keeps its number; each struct has a number, and the struct there is the first that is
/// joined with it, or agrees with one without members; two with members have one number just where
/// they are joined; and each struct of the program is one of a unit.
///
/// It computes nothing: a layer that rests on a law calls it and has the law from its contract.
pub fn matching_laws()
    ensures equal { MatchingsEqual }
    ensures one { OneUnitStays }
    ensures numbered { StructsAreNumbered }
    ensures joined { JoinedAreOne }
    ensures there { StructsAreThere }
{}

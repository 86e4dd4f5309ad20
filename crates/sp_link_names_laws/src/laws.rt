//! The laws.
ghost use Rattle.sp_link_names_laws.specs.Names.{
  NamesHaveOneObject,
  NamesHaveOneFunction,
  OthersStayApart,
  StaticFunctionsStayApart,
};

/// Where units agree on their names, each external object, and each external function, has the
/// number that the program has for its name. In any units an object or a function whose name isn't
/// external has an entry of its own.
pub fn joining_laws()
    ensures objects { NamesHaveOneObject }
    ensures functions { NamesHaveOneFunction }
    ensures apart { OthersStayApart }
    ensures functions_apart { StaticFunctionsStayApart }
{}

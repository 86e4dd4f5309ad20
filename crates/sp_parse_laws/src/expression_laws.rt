//! The laws that the parsers rest on, as contracts: what the grammar reads is the longest levelled
//! tree, where it fails stands the failing token with its fault, and where it nests the depth is
//! passed. And a levelled tree is the only levelled one that its tokens spell, so for them no other
//! answer is right.
ghost use Rattle.sp_parse_laws.specs.Laws.{ExpressionsAreParsed, TypeNamesAreParsed, SpecifiersAreParsed, DeclaratorsAreParsed};
ghost use Rattle.sp_parse_laws.specs.ReadAgain.{ExpressionsAreReadAgain, TypeNamesAreReadAgain, SpecifiersAreReadAgain, DeclaratorsAreReadAgain};

/// The laws of expressions (C90 6.3), where these are the names of types. The call does nothing.
pub fn expressions_are_parsed(types: &[u32])
    ensures { ExpressionsAreParsed types.now }
{
    let _types = types;
}

/// The laws of type names (C90 6.5.5).
pub fn type_names_are_parsed(types: &[u32])
    ensures { TypeNamesAreParsed types.now }
{
    let _types = types;
}

/// The laws of lists of specifiers (C90 6.5.1 to 6.5.3), the empty list among them.
pub fn specifiers_are_parsed(types: &[u32])
    ensures { SpecifiersAreParsed types.now }
{
    let _types = types;
}

/// The laws of declarators of a name (C90 6.5.4).
pub fn declarators_are_parsed(types: &[u32])
    ensures { DeclaratorsAreParsed types.now }
{
    let _types = types;
}

/// Levelled expressions of the same tokens are the same, and each is read again as itself, where
/// these are the names of types.
pub fn expressions_are_read_again(types: &[u32])
    ensures { ExpressionsAreReadAgain types.now }
{
    let _types = types;
}

/// Levelled type names of the same tokens are the same, and each is read again as itself.
pub fn type_names_are_read_again(types: &[u32])
    ensures { TypeNamesAreReadAgain types.now }
{
    let _types = types;
}

/// Levelled lists of specifiers of the same tokens are the same, and each is read again as itself,
/// the empty list too.
pub fn specifiers_are_read_again(types: &[u32])
    ensures { SpecifiersAreReadAgain types.now }
{
    let _types = types;
}

/// Levelled declarators of a name and of the same tokens are the same, and each is read again as
/// itself.
pub fn declarators_are_read_again(types: &[u32])
    ensures { DeclaratorsAreReadAgain types.now }
{
    let _types = types;
}

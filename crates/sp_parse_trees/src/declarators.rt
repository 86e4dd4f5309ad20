//! Makers of declarators. Each sets the place to that of the first token.
ghost use Rattle.std.specs.Prelude.{◌≡◌, IfOk, map};
ghost use Rattle.sp_parse_trees.specs.Syntax.{declarator, absent, declared, group, pointer, array, function, no_expression, some_expression};
ghost use Rattle.sp_parse_trees.specs.View.{tree_of, declarator_of, param_of, params};
ghost use Rattle.sp_parse_trees.specs.Places.{declarator_place};

use crate::{Declarator, DeclaratorForm, Expr, Param};
use sp_tree::{Keyword, Place};
use std::alloc::{AllocError, Global};

/// Want of memory is the one error of each maker that has one.
impl Declarator {
    /// No declarator, with the place of the token behind it.
    pub fn absent(place: Place) -> Declarator
        ensures { declarator_of result ≡ declarator absent place }
    {
        Declarator {
            form: DeclaratorForm::Absent,
            place,
        }
    }

    /// A name, by its number.
    pub fn name(number: u32, place: Place) -> Declarator
        ensures { declarator_of result ≡ declarator (declared number) place }
    {
        Declarator {
            form: DeclaratorForm::Name(number),
            place,
        }
    }

    /// `(inner)`, with the place of the `(`.
    pub fn paren(alloc: Global, place: Place, inner: Declarator) -> Result<Declarator, AllocError>
        ensures { IfOk result (λ d. declarator_of d ≡ declarator (group (declarator_of inner)) place) }
    {
        Ok(Declarator {
            form: DeclaratorForm::Paren(Box::new(alloc, inner)?),
            place,
        })
    }

    /// `* qualifiers inner`, with the place of the `*`.
    pub fn pointer(
        alloc: Global,
        place: Place,
        qualifiers: Vec<Keyword>,
        inner: Declarator,
    ) -> Result<Declarator, AllocError>
        ensures { IfOk result (λ d. declarator_of d ≡ declarator (pointer qualifiers.items (declarator_of inner)) place) }
    {
        Ok(Declarator {
            form: DeclaratorForm::Pointer(qualifiers, Box::new(alloc, inner)?),
            place,
        })
    }

    /// `inner[length]`.
    pub fn array(alloc: Global, inner: Declarator, length: Expr) -> Result<Declarator, AllocError>
        ensures { IfOk result (λ d. declarator_of d ≡ declarator (array (declarator_of inner) (some_expression (tree_of length))) (declarator_place (declarator_of inner))) }
    {
        let place = inner.place;
        let inner = Box::new(alloc, inner)?;
        let length = Box::new(alloc, length)?;
        Ok(Declarator {
            form: DeclaratorForm::Array(inner, Some(length)),
            place,
        })
    }

    /// `inner[]`.
    pub fn open_array(alloc: Global, inner: Declarator) -> Result<Declarator, AllocError>
        ensures { IfOk result (λ d. declarator_of d ≡ declarator (array (declarator_of inner) no_expression) (declarator_place (declarator_of inner))) }
    {
        let place = inner.place;
        let inner = Box::new(alloc, inner)?;
        Ok(Declarator {
            form: DeclaratorForm::Array(inner, None),
            place,
        })
    }

    /// `inner(parameters)`, with `, ...` behind them where `dots` says so.
    pub fn function(
        alloc: Global,
        inner: Declarator,
        parameters: Vec<Param>,
        dots: bool,
    ) -> Result<Declarator, AllocError>
        ensures { IfOk result (λ d. declarator_of d ≡ declarator (function (declarator_of inner) (params (map param_of parameters.items)) dots) (declarator_place (declarator_of inner))) }
    {
        let place = inner.place;
        Ok(Declarator {
            form: DeclaratorForm::Function(Box::new(alloc, inner)?, parameters, dots),
            place,
        })
    }
}

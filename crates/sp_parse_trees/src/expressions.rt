//! Makers of expressions. Each sets the place to that of the first token, and takes that of the operator where there is one.
ghost use Rattle.std.specs.Prelude.{◌≡◌, IfOk, map};
ghost use Rattle.sp_parse_trees.specs.Syntax.{
  expression,
  name,
  number,
  character,
  text,
  paren,
  index,
  call,
  member,
  arrow,
  after,
  unary,
  sizeof_expr,
  sizeof_type,
  cast,
  binary,
  choice,
  assign,
  comma,
};
ghost use Rattle.sp_parse_trees.specs.View.{tree_of, type_name_of, expressions};
ghost use Rattle.sp_parse_trees.specs.Places.{place_of};

use crate::{Expr, ExprForm, TypeName};
use sp_tree::{Number, Place, Punct};
use std::alloc::{AllocError, Global};

/// Want of memory is the one error of each maker that has one.
impl Expr {
    /// An identifier, by its number.
    pub fn name(number: u32, place: Place) -> Expr
        ensures { tree_of result ≡ expression (name number) place place }
    {
        Expr {
            form: ExprForm::Name(number),
            place,
            mark: place,
        }
    }

    /// An integer constant.
    pub fn number(value: Number, place: Place) -> Expr
        ensures { tree_of result ≡ expression (number value) place place }
    {
        Expr {
            form: ExprForm::Number(value),
            place,
            mark: place,
        }
    }

    /// A character constant.
    pub fn character(value: i64, place: Place) -> Expr
        ensures { tree_of result ≡ expression (character value) place place }
    {
        Expr {
            form: ExprForm::Char(value),
            place,
            mark: place,
        }
    }

    /// Adjacent string literals, by the numbers of their bytes.
    pub fn text(literals: Vec<u32>, place: Place) -> Expr
        ensures { tree_of result ≡ expression (text literals.items) place place }
    {
        Expr {
            form: ExprForm::Text(literals),
            place,
            mark: place,
        }
    }

    /// `(inner)`, with the place of the `(`.
    pub fn paren(alloc: Global, place: Place, inner: Expr) -> Result<Expr, AllocError>
        ensures { IfOk result (λ e. tree_of e ≡ expression (paren (tree_of inner)) place place) }
    {
        Ok(Expr {
            form: ExprForm::Paren(Box::new(alloc, inner)?),
            place,
            mark: place,
        })
    }

    /// `array[position]`, with the place of the `[`.
    pub fn index(
        alloc: Global,
        array: Expr,
        mark: Place,
        position: Expr,
    ) -> Result<Expr, AllocError>
        ensures { IfOk result (λ e. tree_of e ≡ expression (index (tree_of array) (tree_of position)) (place_of (tree_of array)) mark) }
    {
        let place = array.place;
        Ok(Expr {
            form: ExprForm::Index(Box::new(alloc, array)?, Box::new(alloc, position)?),
            place,
            mark,
        })
    }

    /// `callee(arguments)`, with the place of the `(`.
    pub fn call(
        alloc: Global,
        callee: Expr,
        mark: Place,
        arguments: Vec<Expr>,
    ) -> Result<Expr, AllocError>
        ensures { IfOk result (λ e. tree_of e ≡ expression (call (tree_of callee) (expressions (map tree_of arguments.items))) (place_of (tree_of callee)) mark) }
    {
        let place = callee.place;
        Ok(Expr {
            form: ExprForm::Call(Box::new(alloc, callee)?, arguments),
            place,
            mark,
        })
    }

    /// `whole.member`, with the place of the `.`.
    pub fn member(alloc: Global, whole: Expr, mark: Place, number: u32) -> Result<Expr, AllocError>
        ensures { IfOk result (λ e. tree_of e ≡ expression (member (tree_of whole) number) (place_of (tree_of whole)) mark) }
    {
        let place = whole.place;
        Ok(Expr {
            form: ExprForm::Member(Box::new(alloc, whole)?, number),
            place,
            mark,
        })
    }

    /// `pointer->member`, with the place of the `->`.
    pub fn arrow(alloc: Global, pointer: Expr, mark: Place, number: u32) -> Result<Expr, AllocError>
        ensures { IfOk result (λ e. tree_of e ≡ expression (arrow (tree_of pointer) number) (place_of (tree_of pointer)) mark) }
    {
        let place = pointer.place;
        Ok(Expr {
            form: ExprForm::Arrow(Box::new(alloc, pointer)?, number),
            place,
            mark,
        })
    }

    /// `operand++` or `operand--`, with the place of the operator.
    pub fn after(
        alloc: Global,
        operand: Expr,
        mark: Place,
        operator: Punct,
    ) -> Result<Expr, AllocError>
        ensures { IfOk result (λ e. tree_of e ≡ expression (after operator (tree_of operand)) (place_of (tree_of operand)) mark) }
    {
        let place = operand.place;
        Ok(Expr {
            form: ExprForm::After(operator, Box::new(alloc, operand)?),
            place,
            mark,
        })
    }

    /// An operator before its operand, with the place of the operator.
    pub fn unary(
        alloc: Global,
        place: Place,
        operator: Punct,
        operand: Expr,
    ) -> Result<Expr, AllocError>
        ensures { IfOk result (λ e. tree_of e ≡ expression (unary operator (tree_of operand)) place place) }
    {
        Ok(Expr {
            form: ExprForm::Unary(operator, Box::new(alloc, operand)?),
            place,
            mark: place,
        })
    }

    /// `sizeof operand`, with the place of the `sizeof`.
    pub fn sizeof_expr(alloc: Global, place: Place, operand: Expr) -> Result<Expr, AllocError>
        ensures { IfOk result (λ e. tree_of e ≡ expression (sizeof_expr (tree_of operand)) place place) }
    {
        Ok(Expr {
            form: ExprForm::SizeofExpr(Box::new(alloc, operand)?),
            place,
            mark: place,
        })
    }

    /// `sizeof(of)`, with the place of the `sizeof`.
    pub fn sizeof_type(alloc: Global, place: Place, of: TypeName) -> Result<Expr, AllocError>
        ensures { IfOk result (λ e. tree_of e ≡ expression (sizeof_type (type_name_of of)) place place) }
    {
        Ok(Expr {
            form: ExprForm::SizeofType(Box::new(alloc, of)?),
            place,
            mark: place,
        })
    }

    /// `(to)operand`, with the place of the `(`.
    pub fn cast(
        alloc: Global,
        place: Place,
        to: TypeName,
        operand: Expr,
    ) -> Result<Expr, AllocError>
        ensures { IfOk result (λ e. tree_of e ≡ expression (cast (type_name_of to) (tree_of operand)) place place) }
    {
        Ok(Expr {
            form: ExprForm::Cast(Box::new(alloc, to)?, Box::new(alloc, operand)?),
            place,
            mark: place,
        })
    }

    /// An operator between two operands, with the place of the operator.
    pub fn binary(
        alloc: Global,
        left: Expr,
        mark: Place,
        operator: Punct,
        right: Expr,
    ) -> Result<Expr, AllocError>
        ensures { IfOk result (λ e. tree_of e ≡ expression (binary operator (tree_of left) (tree_of right)) (place_of (tree_of left)) mark) }
    {
        let place = left.place;
        Ok(Expr {
            form: ExprForm::Binary(operator, Box::new(alloc, left)?, Box::new(alloc, right)?),
            place,
            mark,
        })
    }

    /// `condition ? when_true : when_false`, with the place of the `?`.
    pub fn choice(
        alloc: Global,
        condition: Expr,
        mark: Place,
        when_true: Expr,
        when_false: Expr,
    ) -> Result<Expr, AllocError>
        ensures { IfOk result (λ e. tree_of e ≡ expression (choice (tree_of condition) (tree_of when_true) (tree_of when_false)) (place_of (tree_of condition)) mark) }
    {
        let place = condition.place;
        let condition = Box::new(alloc, condition)?;
        let when_true = Box::new(alloc, when_true)?;
        Ok(Expr {
            form: ExprForm::Choice(condition, when_true, Box::new(alloc, when_false)?),
            place,
            mark,
        })
    }

    /// An assignment, with the place of its operator.
    pub fn assign(
        alloc: Global,
        left: Expr,
        mark: Place,
        operator: Punct,
        right: Expr,
    ) -> Result<Expr, AllocError>
        ensures { IfOk result (λ e. tree_of e ≡ expression (assign operator (tree_of left) (tree_of right)) (place_of (tree_of left)) mark) }
    {
        let place = left.place;
        Ok(Expr {
            form: ExprForm::Assign(operator, Box::new(alloc, left)?, Box::new(alloc, right)?),
            place,
            mark,
        })
    }

    /// `left, right`, with the place of the comma.
    pub fn comma(alloc: Global, left: Expr, mark: Place, right: Expr) -> Result<Expr, AllocError>
        ensures { IfOk result (λ e. tree_of e ≡ expression (comma (tree_of left) (tree_of right)) (place_of (tree_of left)) mark) }
    {
        let place = left.place;
        Ok(Expr {
            form: ExprForm::Comma(Box::new(alloc, left)?, Box::new(alloc, right)?),
            place,
            mark,
        })
    }
}

//! Makers of expressions and lvalues, and what is read of them.
ghost use Rattle.std.specs.Prelude.{◌≡◌, IfOk};
ghost use Rattle.sp_types.specs.View.{type_of};
ghost use Rattle.sp_ir.specs.Commands as plain;
ghost use Rattle.sp_ir.specs.Commands.{lvalue_type};
ghost use Rattle.sp_ir.specs.View.{expression_of, lvalue_of};

use crate::{Expr, Lvalue};
use sp_tree::{Place, Punct};
use sp_types::{CType, IntKind};
use std::alloc::{AllocError, Global};

impl Expr {
    /// A number of an integer type.
    pub fn number(value: i128, kind: IntKind) -> Expr
        ensures { expression_of result ≡ plain.number value kind }
    {
        Expr::Number(value, kind)
    }

    /// The address of an lvalue.
    pub fn address(of: Lvalue) -> Expr
        ensures { expression_of result ≡ plain.address (lvalue_of of) }
    {
        Expr::Address(of)
    }

    /// The address of an array's first element.
    pub fn decay(of: Lvalue) -> Expr
        ensures { expression_of result ≡ plain.decay (lvalue_of of) }
    {
        Expr::Decay(of)
    }

    /// The value that an lvalue has.
    pub fn read(of: Lvalue) -> Expr
        ensures { expression_of result ≡ plain.read (lvalue_of of) }
    {
        Expr::Read(of)
    }

    /// A value converted to a type.
    pub fn convert(alloc: Global, to: CType, value: Expr) -> Result<Expr, AllocError>
        ensures { IfOk result (λ e. expression_of e ≡
            plain.convert (type_of to) (expression_of value)) }
    {
        Ok(Expr::Convert(to, Box::new(alloc, value)?))
    }

    /// A value with `+`, `-` or `~` before it.
    pub fn unary(
        alloc: Global,
        operator: Punct,
        kind: IntKind,
        value: Expr,
    ) -> Result<Expr, AllocError>
        ensures { IfOk result (λ e. expression_of e ≡
            plain.unary operator kind (expression_of value)) }
    {
        Ok(Expr::Unary(operator, kind, Box::new(alloc, value)?))
    }

    /// Two values joined by an arithmetic operator.
    pub fn binary(
        alloc: Global,
        operator: Punct,
        kind: IntKind,
        first: Expr,
        second: Expr,
        place: Place,
    ) -> Result<Expr, AllocError>
        ensures { IfOk result (λ e. expression_of e ≡
            plain.binary operator kind (expression_of first) (expression_of second) place) }
    {
        Ok(Expr::Binary(
            operator,
            kind,
            Box::new(alloc, first)?,
            Box::new(alloc, second)?,
            place,
        ))
    }

    /// Two values joined by a relation.
    pub fn compare(
        alloc: Global,
        relation: Punct,
        first: Expr,
        second: Expr,
    ) -> Result<Expr, AllocError>
        ensures { IfOk result (λ e. expression_of e ≡
            plain.compare relation (expression_of first) (expression_of second)) }
    {
        Ok(Expr::Compare(relation, Box::new(alloc, first)?, Box::new(alloc, second)?))
    }

    /// A pointer moved by so many elements of a size.
    pub fn moved(
        alloc: Global,
        pointer: Expr,
        by: Expr,
        back: bool,
        size: u64,
    ) -> Result<Expr, AllocError>
        ensures { IfOk result (λ e. expression_of e ≡
            plain.move (expression_of pointer) (expression_of by) back size) }
    {
        Ok(Expr::Move {
            pointer: Box::new(alloc, pointer)?,
            by: Box::new(alloc, by)?,
            back,
            size,
        })
    }

    /// How many elements of a size lie between two pointers.
    pub fn distance(alloc: Global, first: Expr, second: Expr, size: u64) -> Result<Expr, AllocError>
        ensures { IfOk result (λ e. expression_of e ≡
            plain.distance (expression_of first) (expression_of second) size) }
    {
        Ok(Expr::Distance {
            left: Box::new(alloc, first)?,
            right: Box::new(alloc, second)?,
            size,
        })
    }
}

impl Lvalue {
    /// Its type.
    pub fn of(&self) -> &CType
        ensures { type_of result.now ≡ lvalue_type (lvalue_of self.now) }
    {
        match self {
            Lvalue::Direct(_, of) => of,
            Lvalue::Through(_, of, _) => of,
            Lvalue::Field(_, _, of) => of,
        }
    }

    /// An object, with its type.
    pub fn direct(object: u32, of: CType) -> Lvalue
        ensures { lvalue_of result ≡ plain.direct object (type_of of) }
    {
        Lvalue::Direct(object, of)
    }

    /// What a pointer points to.
    pub fn through(
        alloc: Global,
        pointer: Expr,
        of: CType,
        place: Place,
    ) -> Result<Lvalue, AllocError>
        ensures { IfOk result (λ l. lvalue_of l ≡
            plain.through (expression_of pointer) (type_of of) place) }
    {
        Ok(Lvalue::Through(Box::new(alloc, pointer)?, of, place))
    }

    /// A member of a struct or a union.
    pub fn field(alloc: Global, whole: Lvalue, member: u32, of: CType) -> Result<Lvalue, AllocError>
        ensures { IfOk result (λ l. lvalue_of l ≡
            plain.field (lvalue_of whole) member (type_of of)) }
    {
        Ok(Lvalue::Field(Box::new(alloc, whole)?, member, of))
    }
}

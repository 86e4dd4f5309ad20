//! Pure expressions and lvalues.
ghost use Rattle.std.specs.Prelude.{◌≡◌, IfOk};
ghost use Rattle.sp_ir.specs.Commands.{holds_read, lvalue_holds_read};
ghost use Rattle.sp_ir.specs.View.{expression_of, lvalue_of};

use sp_tree::{Place, Punct};
use sp_types::{CType, IntKind};
use std::alloc::{AllocError, Global};

/// A pure expression: its value depends on the store, and it changes nothing.
#[derive(Drop)]
#[cycle(pure)]
pub enum Expr {
    /// A number of an integer type.
    Number(i128, IntKind),
    /// The address of an lvalue (C90 6.3.3.2).
    Address(Lvalue),
    /// The address of an array's first element (C90 6.2.2.1).
    Decay(Lvalue),
    /// The value that an lvalue has.
    Read(Lvalue),
    /// A value converted to an integer or pointer type (C90 6.2.1.2, 6.3.4).
    Convert(CType, Box<Expr>),
    /// `+`, `-` or `~` in an integer type (C90 6.3.3.3).
    Unary(Punct, IntKind, Box<Expr>),
    /// One of the ten arithmetic operators in an integer type, with its place.
    Binary(Punct, IntKind, Box<Expr>, Box<Expr>, Place),
    /// One of the six relations (C90 6.3.8, 6.3.9).
    Compare(Punct, Box<Expr>, Box<Expr>),
    /// A pointer moved by so many elements, forwards or back, of a size in bytes (C90 6.3.6).
    Move {
        pointer: Box<Expr>,
        by: Box<Expr>,
        back: bool,
        size: u64,
    },
    /// How many elements of a size in bytes lie between two pointers (C90 6.3.6).
    Distance {
        left: Box<Expr>,
        right: Box<Expr>,
        size: u64,
    },
}

/// Where a value stands, with its type (C90 6.2.2.1).
#[derive(Drop)]
#[cycle(pure)]
pub enum Lvalue {
    /// An object, by its number.
    Direct(u32, CType),
    /// What a pointer points to, with the place of the access.
    Through(Box<Expr>, CType, Place),
    /// A member of a struct or a union, by its number there.
    Field(Box<Lvalue>, u32, CType),
}

impl Expr {
    /// The same expression once more.
    #[cycle(copies)]
    pub fn copy(&self, alloc: Global) -> Result<Expr, AllocError>
        ensures { IfOk result (λ copy. expression_of copy ≡ expression_of self.now) }
    {
        match self {
            Expr::Number(value, kind) => Ok(Expr::Number(*value, *kind)),
            Expr::Address(lvalue) => Ok(Expr::Address(lvalue.copy(alloc)?)),
            Expr::Decay(lvalue) => Ok(Expr::Decay(lvalue.copy(alloc)?)),
            Expr::Read(lvalue) => Ok(Expr::Read(lvalue.copy(alloc)?)),
            Expr::Convert(of, value) => {
                let of = of.copy(alloc)?;
                let value = value.copy(alloc)?;
                Ok(Expr::Convert(of, Box::new(alloc, value)?))
            }
            Expr::Unary(op, kind, value) => {
                let value = value.copy(alloc)?;
                Ok(Expr::Unary(*op, *kind, Box::new(alloc, value)?))
            }
            Expr::Binary(op, kind, left, right, place) => {
                let left = Box::new(alloc, left.copy(alloc)?)?;
                let right = Box::new(alloc, right.copy(alloc)?)?;
                Ok(Expr::Binary(*op, *kind, left, right, *place))
            }
            Expr::Compare(op, left, right) => {
                let left = Box::new(alloc, left.copy(alloc)?)?;
                let right = Box::new(alloc, right.copy(alloc)?)?;
                Ok(Expr::Compare(*op, left, right))
            }
            Expr::Move {
                pointer,
                by,
                back,
                size,
            } => {
                let pointer = Box::new(alloc, pointer.copy(alloc)?)?;
                let by = Box::new(alloc, by.copy(alloc)?)?;
                Ok(Expr::Move {
                    pointer,
                    by,
                    back: *back,
                    size: *size,
                })
            }
            Expr::Distance { left, right, size } => {
                let left = Box::new(alloc, left.copy(alloc)?)?;
                let right = Box::new(alloc, right.copy(alloc)?)?;
                Ok(Expr::Distance {
                    left,
                    right,
                    size: *size,
                })
            }
        }
    }

    /// Whether a value is read in it.
    #[cycle(reads)]
    pub fn holds_read(&self) -> bool
        ensures { result ≡ holds_read (expression_of self.now) }
    {
        match self {
            Expr::Number(..) => false,
            Expr::Address(lvalue) | Expr::Decay(lvalue) => lvalue.holds_read(),
            Expr::Read(_) => true,
            Expr::Convert(_, value) | Expr::Unary(_, _, value) => value.holds_read(),
            Expr::Binary(_, _, left, right, _)
            | Expr::Compare(_, left, right)
            | Expr::Distance { left, right, .. } => left.holds_read() || right.holds_read(),
            Expr::Move { pointer, by, .. } => pointer.holds_read() || by.holds_read(),
        }
    }
}

impl Lvalue {
    /// The same lvalue once more.
    #[cycle(copies)]
    pub fn copy(&self, alloc: Global) -> Result<Lvalue, AllocError>
        ensures { IfOk result (λ copy. lvalue_of copy ≡ lvalue_of self.now) }
    {
        match self {
            Lvalue::Direct(object, of) => Ok(Lvalue::Direct(*object, of.copy(alloc)?)),
            Lvalue::Through(pointer, of, place) => {
                let pointer = Box::new(alloc, pointer.copy(alloc)?)?;
                Ok(Lvalue::Through(pointer, of.copy(alloc)?, *place))
            }
            Lvalue::Field(of, member, kind) => {
                let of = Box::new(alloc, of.copy(alloc)?)?;
                Ok(Lvalue::Field(of, *member, kind.copy(alloc)?))
            }
        }
    }

    /// Whether a value is read on the way to it.
    #[cycle(reads)]
    pub fn holds_read(&self) -> bool
        ensures { result ≡ lvalue_holds_read (lvalue_of self.now) }
    {
        match self {
            Lvalue::Direct(..) => false,
            Lvalue::Through(pointer, _, _) => pointer.holds_read(),
            Lvalue::Field(of, _, _) => of.holds_read(),
        }
    }
}

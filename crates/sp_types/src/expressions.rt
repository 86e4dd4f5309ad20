//! Makers of typed expressions, and what is read of them.
ghost use Rattle.std.specs.Prelude.{◌≡◌, IfOk, map};
ghost use Rattle.sp_types.specs.Typed as tree;
ghost use Rattle.sp_types.specs.Typed.{typed, of, place_of, mark_of, form_of};
ghost use Rattle.sp_types.specs.View.{type_of};
ghost use Rattle.sp_types.specs.TypedView.{boxed_of, typed_of, typed_form_of, typed_list};

use crate::{CType, TypedExpr, TypedForm};
use sp_tree::{Number, Place, Punct};
use std::alloc::{AllocError, Global};

impl TypedExpr {
    /// Its type.
    pub fn of(&self) -> &CType
        ensures { type_of result.now ≡ of (typed_of self.now) }
    {
        &self.of
    }

    /// The place of its first token.
    pub fn place(&self) -> Place
        ensures { result ≡ place_of (typed_of self.now) }
    {
        self.place
    }

    /// The place of its operator.
    pub fn mark(&self) -> Place
        ensures { result ≡ mark_of (typed_of self.now) }
    {
        self.mark
    }

    /// Its form.
    pub fn form(&self) -> &TypedForm
        ensures { typed_form_of result.now ≡ form_of (typed_of self.now) }
    {
        &self.form
    }

    /// An expression of a form that is made.
    pub fn leaf(form: TypedForm, of: CType, place: Place, mark: Place) -> TypedExpr
        ensures { typed_of result ≡ typed (typed_form_of form) (type_of of) place mark }
    {
        TypedExpr {
            form,
            of,
            place,
            mark,
        }
    }

    /// The same on the heap, as the makers take and give it. Inlined, its parts are written there
    /// at once.
    #[inline(always)]
    pub fn boxed(
        alloc: Global,
        form: TypedForm,
        of: CType,
        place: Place,
        mark: Place,
    ) -> Result<Box<TypedExpr>, AllocError>
        ensures { IfOk result (λ e. boxed_of e ≡
            typed (typed_form_of form) (type_of of) place mark) }
    {
        Ok(Box::new(alloc, TypedExpr::leaf(form, of, place, mark))?)
    }

    /// `a[b]`
    pub fn index(
        alloc: Global,
        a: Box<TypedExpr>,
        b: Box<TypedExpr>,
        of: CType,
        place: Place,
        mark: Place,
    ) -> Result<Box<TypedExpr>, AllocError>
        ensures { IfOk result (λ e. boxed_of e ≡
            typed (tree.index (boxed_of a) (boxed_of b)) (type_of of) place mark) }
    {
        TypedExpr::boxed(alloc, TypedForm::Index(a, b), of, place, mark)
    }

    /// `a` and `b` joined by a binary operator.
    pub fn binary(
        alloc: Global,
        operator: Punct,
        a: Box<TypedExpr>,
        b: Box<TypedExpr>,
        of: CType,
        place: Place,
        mark: Place,
    ) -> Result<Box<TypedExpr>, AllocError>
        ensures { IfOk result (λ e. boxed_of e ≡
            typed (tree.binary operator (boxed_of a) (boxed_of b)) (type_of of) place mark) }
    {
        TypedExpr::boxed(alloc, TypedForm::Binary(operator, a, b), of, place, mark)
    }

    /// The value converted to the type, where C90 converts it without a cast.
    pub fn convert(
        alloc: Global,
        e: Box<TypedExpr>,
        of: CType,
    ) -> Result<Box<TypedExpr>, AllocError>
        ensures { IfOk result (λ r. boxed_of r ≡
            typed (tree.convert (boxed_of e)) (type_of of) (place_of (boxed_of e)) (mark_of (boxed_of e))) }
    {
        let (place, mark) = (e.place, e.mark);
        TypedExpr::boxed(alloc, TypedForm::Convert(e), of, place, mark)
    }

    /// A call.
    pub fn call(
        alloc: Global,
        callee: Box<TypedExpr>,
        arguments: Vec<TypedExpr>,
        of: CType,
        place: Place,
        mark: Place,
    ) -> Result<Box<TypedExpr>, AllocError>
        ensures { IfOk result (λ e. boxed_of e ≡
            typed (tree.call (boxed_of callee) (typed_list (map typed_of arguments.items))) (type_of of) place mark) }
    {
        TypedExpr::boxed(alloc, TypedForm::Call(callee, arguments), of, place, mark)
    }

    /// An operator before its operand.
    pub fn unary(
        alloc: Global,
        operator: Punct,
        e: Box<TypedExpr>,
        of: CType,
        place: Place,
        mark: Place,
    ) -> Result<Box<TypedExpr>, AllocError>
        ensures { IfOk result (λ r. boxed_of r ≡
            typed (tree.unary operator (boxed_of e)) (type_of of) place mark) }
    {
        TypedExpr::boxed(alloc, TypedForm::Unary(operator, e), of, place, mark)
    }

    /// `++` or `--` after its operand.
    pub fn after(
        alloc: Global,
        operator: Punct,
        e: Box<TypedExpr>,
        of: CType,
        place: Place,
        mark: Place,
    ) -> Result<Box<TypedExpr>, AllocError>
        ensures { IfOk result (λ r. boxed_of r ≡
            typed (tree.after operator (boxed_of e)) (type_of of) place mark) }
    {
        TypedExpr::boxed(alloc, TypedForm::After(operator, e), of, place, mark)
    }

    /// A cast to the type.
    pub fn cast(
        alloc: Global,
        e: Box<TypedExpr>,
        of: CType,
        place: Place,
        mark: Place,
    ) -> Result<Box<TypedExpr>, AllocError>
        ensures { IfOk result (λ r. boxed_of r ≡
            typed (tree.cast (boxed_of e)) (type_of of) place mark) }
    {
        TypedExpr::boxed(alloc, TypedForm::Cast(e), of, place, mark)
    }

    /// `e.name`
    pub fn member(
        alloc: Global,
        name: u32,
        e: Box<TypedExpr>,
        of: CType,
        place: Place,
        mark: Place,
    ) -> Result<Box<TypedExpr>, AllocError>
        ensures { IfOk result (λ r. boxed_of r ≡
            typed (tree.member (boxed_of e) name) (type_of of) place mark) }
    {
        TypedExpr::boxed(alloc, TypedForm::Member(e, name), of, place, mark)
    }

    /// `e->name`
    pub fn arrow(
        alloc: Global,
        name: u32,
        e: Box<TypedExpr>,
        of: CType,
        place: Place,
        mark: Place,
    ) -> Result<Box<TypedExpr>, AllocError>
        ensures { IfOk result (λ r. boxed_of r ≡
            typed (tree.arrow (boxed_of e) name) (type_of of) place mark) }
    {
        TypedExpr::boxed(alloc, TypedForm::Arrow(e, name), of, place, mark)
    }

    /// An assignment, plain or compound.
    pub fn assign(
        alloc: Global,
        operator: Punct,
        a: Box<TypedExpr>,
        b: Box<TypedExpr>,
        of: CType,
        place: Place,
        mark: Place,
    ) -> Result<Box<TypedExpr>, AllocError>
        ensures { IfOk result (λ r. boxed_of r ≡
            typed (tree.assign operator (boxed_of a) (boxed_of b)) (type_of of) place mark) }
    {
        TypedExpr::boxed(alloc, TypedForm::Assign(operator, a, b), of, place, mark)
    }

    /// `a,b`
    pub fn comma(
        alloc: Global,
        a: Box<TypedExpr>,
        b: Box<TypedExpr>,
        of: CType,
        place: Place,
        mark: Place,
    ) -> Result<Box<TypedExpr>, AllocError>
        ensures { IfOk result (λ r. boxed_of r ≡
            typed (tree.comma (boxed_of a) (boxed_of b)) (type_of of) place mark) }
    {
        TypedExpr::boxed(alloc, TypedForm::Comma(a, b), of, place, mark)
    }

    /// `c?a:b`
    pub fn choice(
        alloc: Global,
        c: Box<TypedExpr>,
        a: Box<TypedExpr>,
        b: Box<TypedExpr>,
        of: CType,
        place: Place,
        mark: Place,
    ) -> Result<Box<TypedExpr>, AllocError>
        ensures { IfOk result (λ r. boxed_of r ≡
            typed (tree.choice (boxed_of c) (boxed_of a) (boxed_of b)) (type_of of) place mark) }
    {
        TypedExpr::boxed(alloc, TypedForm::Choice(c, a, b), of, place, mark)
    }

    /// An array or a function as a pointer (C90 6.2.2.1).
    pub fn decay(alloc: Global, e: Box<TypedExpr>, of: CType) -> Result<Box<TypedExpr>, AllocError>
        ensures { IfOk result (λ r. boxed_of r ≡
            typed (tree.decay (boxed_of e)) (type_of of) (place_of (boxed_of e)) (mark_of (boxed_of e))) }
    {
        let (place, mark) = (e.place, e.mark);
        TypedExpr::boxed(alloc, TypedForm::Decay(e), of, place, mark)
    }
}

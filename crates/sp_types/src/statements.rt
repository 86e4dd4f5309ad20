//! Makers of typed statements, and what is read of them.
ghost use Rattle.std.specs.Prelude.{◌≡◌, IfOk, map, option_map};
ghost use Rattle.sp_types.specs.Statements as tree;
ghost use Rattle.sp_types.specs.Statements.{typed_statement, form_of, place_of, end_of};
ghost use Rattle.sp_types.specs.TypedView.{boxed_of, statement_of, statement_form_of};

use crate::{TypedExpr, TypedStatement, TypedStatementForm};
use sp_tree::Place;
use std::alloc::{AllocError, Global};

impl TypedStatement {
    /// A statement of a form that is made.
    pub fn new(form: TypedStatementForm, place: Place, end: Place) -> TypedStatement
        ensures { statement_of result ≡ typed_statement (statement_form_of form) place end }
    {
        TypedStatement { form, place, end }
    }

    /// Its form.
    pub fn form(&self) -> &TypedStatementForm
        ensures { statement_form_of result.now ≡ form_of (statement_of self.now) }
    {
        &self.form
    }

    /// The place of its first token.
    pub fn place(&self) -> Place
        ensures { result ≡ place_of (statement_of self.now) }
    {
        self.place
    }

    /// The place of its last token.
    pub fn end(&self) -> Place
        ensures { result ≡ end_of (statement_of self.now) }
    {
        self.end
    }
}

impl TypedStatementForm {
    /// `name: body`
    pub fn label(alloc: Global, name: u32, body: TypedStatement) -> Result<Self, AllocError>
        ensures { IfOk result (λ f. statement_form_of f ≡ tree.label name (statement_of body)) }
    {
        Ok(Self::Label(name, Box::new(alloc, body)?))
    }

    /// `case value: body`
    pub fn case(alloc: Global, value: i128, body: TypedStatement) -> Result<Self, AllocError>
        ensures { IfOk result (λ f. statement_form_of f ≡ tree.case_of value (statement_of body)) }
    {
        Ok(Self::Case(value, Box::new(alloc, body)?))
    }

    /// `default: body`
    pub fn default(alloc: Global, body: TypedStatement) -> Result<Self, AllocError>
        ensures { IfOk result (λ f. statement_form_of f ≡ tree.default_of (statement_of body)) }
    {
        Ok(Self::Default(Box::new(alloc, body)?))
    }

    /// `if (condition) body`
    pub fn if_alone(
        alloc: Global,
        condition: Box<TypedExpr>,
        body: TypedStatement,
    ) -> Result<Self, AllocError>
        ensures { IfOk result (λ f. statement_form_of f ≡
            tree.if_else (boxed_of condition) (statement_of body) tree.no_statement) }
    {
        Ok(Self::If(condition, Box::new(alloc, body)?, None))
    }

    /// `if (condition) body else other`
    pub fn if_else(
        alloc: Global,
        condition: Box<TypedExpr>,
        body: TypedStatement,
        other: TypedStatement,
    ) -> Result<Self, AllocError>
        ensures { IfOk result (λ f. statement_form_of f ≡
            tree.if_else (boxed_of condition) (statement_of body)
            (tree.some_statement (statement_of other))) }
    {
        let body = Box::new(alloc, body)?;
        let other = Box::new(alloc, other)?;
        Ok(Self::If(condition, body, Some(other)))
    }

    /// `switch (value) body`
    pub fn switch_on(
        alloc: Global,
        value: Box<TypedExpr>,
        body: TypedStatement,
    ) -> Result<Self, AllocError>
        ensures { IfOk result (λ f. statement_form_of f ≡
            tree.switch_on (boxed_of value) (statement_of body)) }
    {
        Ok(Self::Switch(value, Box::new(alloc, body)?))
    }

    /// `while (condition) body`
    pub fn while_loop(
        alloc: Global,
        condition: Box<TypedExpr>,
        body: TypedStatement,
    ) -> Result<Self, AllocError>
        ensures { IfOk result (λ f. statement_form_of f ≡
            tree.while_loop (boxed_of condition) (statement_of body)) }
    {
        Ok(Self::While(condition, Box::new(alloc, body)?))
    }

    /// `do body while (condition);`
    pub fn do_loop(
        alloc: Global,
        body: TypedStatement,
        condition: Box<TypedExpr>,
    ) -> Result<Self, AllocError>
        ensures { IfOk result (λ f. statement_form_of f ≡
            tree.do_loop (statement_of body) (boxed_of condition)) }
    {
        Ok(Self::Do(Box::new(alloc, body)?, condition))
    }

    /// `for (start; condition; step) body`
    pub fn for_loop(
        alloc: Global,
        start: Option<Box<TypedExpr>>,
        condition: Option<Box<TypedExpr>>,
        step: Option<Box<TypedExpr>>,
        body: TypedStatement,
    ) -> Result<Self, AllocError>
        ensures { IfOk result (λ f. statement_form_of f ≡
            tree.for_loop (option_map boxed_of start) (option_map boxed_of condition)
            (option_map boxed_of step) (statement_of body)) }
    {
        Ok(Self::For(start, condition, step, Box::new(alloc, body)?))
    }
}

//! The typing of expressions, type names and declarators: one walk from left to right.
ghost use Rattle.std.specs.Prelude.{◌≡◌, [], map, true, pos, unwrap_or};
ghost use Rattle.sp_parse_trees.specs.View.{
  tree_of,
  type_name_of,
  declarator_of,
  param_of,
  specifier_of,
  specifiers_of,
  declaration_of,
  optional,
};
ghost use Rattle.sp_types.specs.Types.{parameters_of};
ghost use Rattle.sp_types.specs.View.{type_of, signature_of};
ghost use Rattle.sp_types.specs.TypedView.{boxed_of, typed_list, typed_of};
ghost use Rattle.sp_base_checked.specs.Answers.{AnswersIn};
ghost use Rattle.sp_check_binary_rules.specs.Rules.{told};
ghost use Rattle.sp_check_env.specs.Declaring.{LeadsTo};
ghost use Rattle.sp_check_env.specs.Views.{env_of};
ghost use Rattle.sp_check_type_names.specs.DerivationView.{derivation_of, parameters_seen};
ghost use Rattle.sp_check_expr_steps.specs.Parameters.{params_of, is_alone_in};
ghost use Rattle.sp_check_expr_steps.specs.SyntaxView.{
  form_of,
  declarator_form_of,
  struct_spec_of,
  enum_spec_of,
  init_declarator_of,
};
ghost use Rattle.sp_check_operands.specs.Balances.{members_seen};
ghost use Rattle.sp_check_expr_steps.specs.Expressions.{
  checked,
  value_checked,
  form_checked,
  arguments_checked,
  type_name_checked,
  declared_type,
  derivations_checked,
  length_checked,
  params_checked,
  param_checked,
  list_checked,
  specifiers_checked,
  specifier_checked,
  struct_checked,
  members_checked,
  declaration_members,
  items_checked,
  item_checked,
  enum_checked,
  constants_checked,
  constant_checked,
  declarations_in,
  constants_in,
  items_in,
  arguments_of,
  is_indexed_or_called,
  is_operation,
  joins_operands,
  one_checked,
};

use sp_base_checked::{CheckError, fault};
use sp_base_kept::{keeping, pushed};
use sp_check_env::Env;
use sp_check_expr_steps::{
    argument_made, array_derived, as_it_stands, as_value, call_made, callee_declared, cast_of,
    chosen, derived, function_derived, is_alone_in, length_told, list_told, made_of, member_added,
    names_type, next_enumerator, operated, paired, param_told, size_of_type, struct_closed,
    struct_opened,
};
use sp_check_members::{
    MemberList, declared_name, enumerator, has_parameter_storage, is_lone_void, reserved,
    with_enum_tag,
};
use sp_check_primaries::{character_checked, name_checked, number_checked, text_checked};
use sp_check_type_names::{Derivation, enum_referred, named_checked, struct_referred, words_type};
use sp_check_unary_rules::{called_signature, takes_object};
use sp_parse_trees::{
    Declaration, Declarator, DeclaratorForm, EnumSpec, Expr, ExprForm, InitDeclarator, Param,
    Specifier, StructSpec, TypeName,
};
use sp_tree::{FaultKind, Names, Place};
use sp_types::{CType, IntKind, Signature, TypedExpr};
use std::alloc::Global;

/// An expression as it stands.
#[cycle(expression)]
fn checked(
    alloc: Global,
    env: &mut Env,
    names: &Names,
    expr: &Expr,
) -> Result<Box<TypedExpr>, CheckError>
    ensures { AnswersIn boxed_of
        (checked names.now (env_of env.old) (tree_of expr.now)) (env_of env.new) result }
{
    let e = form(alloc, env, names, expr.place, expr.mark, &expr.form);
    as_it_stands(expr.place, e)
}

/// An expression as a value (C90 6.2.2.1).
#[cycle(expression)]
pub(crate) fn value_checked(
    alloc: Global,
    env: &mut Env,
    names: &Names,
    expr: &Expr,
) -> Result<Box<TypedExpr>, CheckError>
    ensures { AnswersIn boxed_of
        (value_checked names.now (env_of env.old) (tree_of expr.now)) (env_of env.new) result }
{
    let e = form(alloc, env, names, expr.place, expr.mark, &expr.form);
    as_value(alloc, env, expr.place, e)
}

/// Names, literals and parentheses; the other forms are taken in three groups behind. A function has
/// room for all that any of its arms has at hand, and most expressions are names and literals.
#[tactic(auto, using(crate::proofs::Places::places))]
#[cycle(expression)]
fn form(
    alloc: Global,
    env: &mut Env,
    names: &Names,
    place: Place,
    mark: Place,
    form: &ExprForm,
) -> Result<Box<TypedExpr>, CheckError>
    ensures { AnswersIn boxed_of
        (form_checked names.now (env_of env.old) place mark (form_of form.now))
        (env_of env.new) result }
{
    match form {
        ExprForm::Name(name) => name_checked(alloc, env, names, *name, place),
        ExprForm::Number(number) => number_checked(alloc, env, *number, place, mark),
        ExprForm::Char(value) => character_checked(alloc, env, *value, place, mark),
        ExprForm::Text(parts) => text_checked(alloc, env, names, parts, place, mark),
        ExprForm::Paren(inner) => checked(alloc, env, names, inner),
        ExprForm::Index(_, _) | ExprForm::Call(_, _) => {
            indexed_or_called(alloc, env, names, place, mark, form)
        }
        ExprForm::Binary(_, _, _)
        | ExprForm::Choice(_, _, _)
        | ExprForm::Assign(_, _, _)
        | ExprForm::Comma(_, _) => joined(alloc, env, names, place, mark, form),
        ExprForm::Member(_, _)
        | ExprForm::Arrow(_, _)
        | ExprForm::After(_, _)
        | ExprForm::Unary(_, _)
        | ExprForm::SizeofExpr(_)
        | ExprForm::SizeofType(_)
        | ExprForm::Cast(_, _) => operation(alloc, env, names, place, mark, form),
    }
}

/// Indices and calls.
#[tactic(auto, using(crate::proofs::Places::places))]
#[cycle(expression)]
fn indexed_or_called(
    alloc: Global,
    env: &mut Env,
    names: &Names,
    place: Place,
    mark: Place,
    form: &ExprForm,
) -> Result<Box<TypedExpr>, CheckError>
    requires { is_indexed_or_called (form_of form.now) ≡ true }
    ensures { AnswersIn boxed_of
        (form_checked names.now (env_of env.old) place mark (form_of form.now))
        (env_of env.new) result }
{
    match form {
        ExprForm::Index(a, b) => {
            let a = value_checked(alloc, env, names, a)?;
            let b = value_checked(alloc, env, names, b);
            paired(alloc, env, form, place, mark, a, b)
        }
        ExprForm::Call(callee, _) => {
            callee_declared(alloc, env, names, callee)?;
            let at = callee.place;
            let callee = value_checked(alloc, env, names, callee)?;
            let signature = called_signature(at, callee.of());
            let (signature, callee) = keeping(signature, callee)?;
            let arguments = arguments_checked(alloc, form, env, names, &signature);
            call_made(alloc, env, place, mark, signature, callee, arguments)
        }
        _ => fault(FaultKind::BadOperand, place),
    }
}

/// Operators on one operand.
#[tactic(auto, using(crate::proofs::Places::places))]
#[cycle(expression)]
fn operation(
    alloc: Global,
    env: &mut Env,
    names: &Names,
    place: Place,
    mark: Place,
    form: &ExprForm,
) -> Result<Box<TypedExpr>, CheckError>
    requires { is_operation (form_of form.now) ≡ true }
    ensures { AnswersIn boxed_of
        (form_checked names.now (env_of env.old) place mark (form_of form.now))
        (env_of env.new) result }
{
    match form {
        ExprForm::Member(e, _) => {
            let e = checked(alloc, env, names, e);
            operated(alloc, env, form, place, mark, e)
        }
        ExprForm::Arrow(e, _) => {
            let e = value_checked(alloc, env, names, e);
            operated(alloc, env, form, place, mark, e)
        }
        ExprForm::After(_, e) => {
            let e = checked(alloc, env, names, e);
            operated(alloc, env, form, place, mark, e)
        }
        ExprForm::Unary(operator, e) => {
            if takes_object(*operator) {
                let e = checked(alloc, env, names, e);
                operated(alloc, env, form, place, mark, e)
            } else {
                let e = value_checked(alloc, env, names, e);
                operated(alloc, env, form, place, mark, e)
            }
        }
        ExprForm::SizeofExpr(e) => {
            let e = checked(alloc, env, names, e);
            operated(alloc, env, form, place, mark, e)
        }
        ExprForm::SizeofType(t) => {
            let of = type_name_checked(alloc, env, names, t);
            size_of_type(alloc, env, place, mark, of)
        }
        ExprForm::Cast(t, e) => {
            let to = type_name_checked(alloc, env, names, t)?;
            let at = e.place;
            let e = value_checked(alloc, env, names, e);
            cast_of(alloc, to, place, mark, at, e)
        }
        _ => fault(FaultKind::BadOperand, place),
    }
}

/// Operators between operands, `?:`, assignments and commas.
#[tactic(auto, using(crate::proofs::Places::places))]
#[cycle(expression)]
fn joined(
    alloc: Global,
    env: &mut Env,
    names: &Names,
    place: Place,
    mark: Place,
    form: &ExprForm,
) -> Result<Box<TypedExpr>, CheckError>
    requires { joins_operands (form_of form.now) ≡ true }
    ensures { AnswersIn boxed_of
        (form_checked names.now (env_of env.old) place mark (form_of form.now))
        (env_of env.new) result }
{
    match form {
        ExprForm::Binary(_, a, b) => {
            let a = value_checked(alloc, env, names, a)?;
            let b = value_checked(alloc, env, names, b);
            paired(alloc, env, form, place, mark, a, b)
        }
        ExprForm::Choice(c, a, b) => {
            let c = value_checked(alloc, env, names, c)?;
            let (a, c) = keeping(value_checked(alloc, env, names, a), c)?;
            let b = value_checked(alloc, env, names, b);
            chosen(alloc, place, mark, c, a, b)
        }
        ExprForm::Assign(_, a, b) => {
            let a = checked(alloc, env, names, a)?;
            let b = value_checked(alloc, env, names, b);
            paired(alloc, env, form, place, mark, a, b)
        }
        ExprForm::Comma(a, b) => {
            let a = value_checked(alloc, env, names, a)?;
            let b = value_checked(alloc, env, names, b);
            paired(alloc, env, form, place, mark, a, b)
        }
        _ => fault(FaultKind::BadOperand, place),
    }
}

/// The arguments, each converted to its parameter's type or promoted.
#[cycle(expression)]
fn arguments_checked(
    alloc: Global,
    form: &ExprForm,
    env: &mut Env,
    names: &Names,
    signature: &Signature,
) -> Result<Vec<TypedExpr>, CheckError>
    ensures { AnswersIn (λ es. typed_list (map typed_of es.items))
        (arguments_checked names.now (env_of env.old)
        (told (parameters_of (signature_of signature.now))) (arguments_of (form_of form.now)))
        (env_of env.new) result }
{
    let ExprForm::Call(_, arguments) = form else {
        return Ok(Vec::new(alloc));
    };
    let mut all = Vec::with_capacity(alloc, arguments.len())?;
    'arguments: for (i, e) in arguments.iter().enumerate() {
        let next = argument_checked(alloc, e, env, names, signature, i);
        let (next, before) = keeping(next, all)?;
        let value = Box::into_inner(next);
        all = pushed(before, value)?;
    }
    Ok(all)
}

/// The argument of this number.
#[tactic(auto, using(crate::proofs::Places::places))]
#[cycle(expression)]
fn argument_checked(
    alloc: Global,
    e: &Expr,
    env: &mut Env,
    names: &Names,
    signature: &Signature,
    number: usize,
) -> Result<Box<TypedExpr>, CheckError>
    ensures { AnswersIn boxed_of
        (one_checked names.now (env_of env.old)
        (told (parameters_of (signature_of signature.now))) number (tree_of e.now))
        (env_of env.new) result }
{
    let value = value_checked(alloc, env, names, e);
    argument_made(alloc, signature, number, e.place, value)
}

/// The type that a type name names (C90 6.5.5).
#[cycle(expression)]
fn type_name_checked(
    alloc: Global,
    env: &mut Env,
    names: &Names,
    name: &TypeName,
) -> Result<CType, CheckError>
    ensures { AnswersIn type_of
        (type_name_checked names.now (env_of env.old) (type_name_of name.now))
        (env_of env.new) result }
{
    let base = specifiers_checked(
        alloc,
        &name.specifiers,
        env,
        names,
        false,
        name.declarator.place,
    )?;
    declared_type(alloc, &name.declarator, env, names, base)
}

/// The type of a declarator's name (C90 6.5.4).
#[cycle(expression)]
pub(crate) fn declared_type(
    alloc: Global,
    declarator: &Declarator,
    env: &mut Env,
    names: &Names,
    base: CType,
) -> Result<CType, CheckError>
    ensures { AnswersIn type_of
        (declared_type names.now (env_of env.old) (type_of base) (declarator_of declarator.now))
        (env_of env.new) result }
{
    let steps = derivations(alloc, &declarator.form, env, names, declarator.place);
    made_of(alloc, env, declarator.place, steps, base)
}

/// What the form of a declarator at this place derives, from the name outwards.
#[cycle(expression)]
fn derivations(
    alloc: Global,
    form: &DeclaratorForm,
    env: &mut Env,
    names: &Names,
    place: Place,
) -> Result<Vec<Derivation>, CheckError>
    ensures { AnswersIn (λ steps. map derivation_of steps.items)
        (derivations_checked names.now (env_of env.old) place (declarator_form_of form.now))
        (env_of env.new) result }
{
    match form {
        DeclaratorForm::Absent | DeclaratorForm::Name(_) => Ok(Vec::new(alloc)),
        DeclaratorForm::Paren(inner) => derivations(alloc, &inner.form, env, names, inner.place),
        DeclaratorForm::Pointer(_, inner) => {
            let all = derivations(alloc, &inner.form, env, names, inner.place);
            derived(all, Derivation::Pointer)
        }
        DeclaratorForm::Array(inner, None) => {
            let all = derivations(alloc, &inner.form, env, names, inner.place);
            derived(all, Derivation::Array(None, place))
        }
        DeclaratorForm::Array(inner, Some(length)) => {
            let all = derivations(alloc, &inner.form, env, names, inner.place)?;
            let length = length_checked(alloc, length, env, names);
            array_derived(all, length, place)
        }
        DeclaratorForm::Function(inner, _, variadic) => {
            let all = derivations(alloc, &inner.form, env, names, inner.place)?;
            let params = list_checked(alloc, form, env, names);
            function_derived(all, params, *variadic, place)
        }
    }
}

/// The length of an array (C90 6.5.4.2).
#[tactic(auto, using(crate::proofs::Places::places))]
#[cycle(expression)]
pub(crate) fn length_checked(
    alloc: Global,
    length: &Expr,
    env: &mut Env,
    names: &Names,
) -> Result<u64, CheckError>
    ensures { AnswersIn (λ n. n)
        (length_checked names.now (env_of env.old) (tree_of length.now)) (env_of env.new) result }
{
    let value = value_checked(alloc, env, names, length);
    length_told(env, value, length.place)
}

/// The parameters of a declarator of a function, where it tells them (C90 6.5.4.3): they are read
/// in a scope of their own.
#[tactic(auto, using(crate::proofs::Lists::lists))]
#[cycle(expression)]
pub(crate) fn list_checked(
    alloc: Global,
    form: &DeclaratorForm,
    env: &mut Env,
    names: &Names,
) -> Result<Option<Vec<CType>>, CheckError>
    ensures { AnswersIn parameters_seen
        (list_checked names.now (env_of env.old) (declarator_form_of form.now))
        (env_of env.new) result }
{
    env.enter_list(alloc)?;
    let all = params_checked(alloc, form, env, names);
    list_told(env, form, all)
}

/// The types of the parameters of a declarator of a function, in their scope.
#[cycle(expression)]
fn params_checked(
    alloc: Global,
    form: &DeclaratorForm,
    env: &mut Env,
    names: &Names,
) -> Result<Vec<CType>, CheckError>
    ensures { AnswersIn (λ all. map type_of all.items)
        (params_checked names.now (env_of env.old) (is_alone_in (declarator_form_of form.now)) []
        (params_of (declarator_form_of form.now)))
        (env_of env.new) result }
{
    let mut all = Vec::new(alloc);
    let alone = is_alone_in(form);
    let DeclaratorForm::Function(_, params, _) = form else {
        return Ok(all);
    };
    'params: for (i, param) in params.iter().enumerate() {
        param_checked(alloc, param, env, names, alone, &mut all)?;
    }
    Ok(all)
}

/// A parameter behind those that are read.
#[tactic(auto, using(crate::proofs::Places::places))]
#[cycle(expression)]
fn param_checked(
    alloc: Global,
    param: &Param,
    env: &mut Env,
    names: &Names,
    alone: bool,
    all: &mut Vec<CType>,
) -> Result<(), CheckError>
    ensures { LeadsTo
        (param_checked names.now (env_of env.old) alone (map type_of all.old.items)
        (param_of param.now))
        (map type_of all.new.items, env_of env.new) result }
{
    let at = param.declarator.place;
    if !has_parameter_storage(&param.specifiers) {
        return fault(FaultKind::BadOperand, at);
    }
    let name = declared_name(&param.declarator);
    let number = reserved(alloc, env, name)?;
    let base = specifiers_checked(alloc, &param.specifiers, env, names, false, at)?;
    if alone && is_lone_void(&base, &param.declarator) {
        return Ok(());
    }
    let of = declared_type(alloc, &param.declarator, env, names, base);
    param_told(alloc, env, number, all, of, &param.declarator)
}

/// The type that specifiers name (C90 6.5.2): the first that is no storage class and no qualifier
/// tells it.
#[cycle(expression)]
pub(crate) fn specifiers_checked(
    alloc: Global,
    specifiers: &[Specifier],
    env: &mut Env,
    names: &Names,
    alone: bool,
    at: Place,
) -> Result<CType, CheckError>
    ensures { AnswersIn type_of
        (specifiers_checked names.now (env_of env.old) alone at (specifiers_of specifiers.now))
        (env_of env.new) result }
{
    'specifiers: for (i, specifier) in specifiers.iter().enumerate() {
        if names_type(specifier) {
            return specifier_checked(alloc, specifier, env, names, alone, at, &specifiers[i..]);
        }
    }
    Ok(CType::Int(IntKind::Int))
}

/// The type that a specifier names, where `words` are those from it on.
#[cycle(expression)]
fn specifier_checked(
    alloc: Global,
    specifier: &Specifier,
    env: &mut Env,
    names: &Names,
    alone: bool,
    at: Place,
    words: &[Specifier],
) -> Result<CType, CheckError>
    ensures { AnswersIn type_of
        (specifier_checked names.now (env_of env.old) alone at (specifiers_of words.now)
        (specifier_of specifier.now))
        (env_of env.new) result }
{
    match specifier {
        Specifier::Named(name) => named_checked(alloc, env, *name, at),
        Specifier::Struct(spec) => struct_checked(alloc, spec, env, names, alone),
        Specifier::Enum(spec) => enum_checked(alloc, spec, env, names),
        Specifier::Storage(_) | Specifier::Qualifier(_) | Specifier::Basic(_) => {
            Ok(words_type(words))
        }
    }
}

/// The type of a specifier of a struct or a union (C90 6.5.2.1, 6.5.2.3).
#[cycle(expression)]
fn struct_checked(
    alloc: Global,
    spec: &StructSpec,
    env: &mut Env,
    names: &Names,
    alone: bool,
) -> Result<CType, CheckError>
    ensures { AnswersIn type_of
        (struct_checked names.now (env_of env.old) alone (struct_spec_of spec.now))
        (env_of env.new) result }
{
    if spec.members.is_none() {
        return struct_referred(env, alone, spec.union, spec.tag, spec.place);
    }
    let number = struct_opened(env, spec.union, spec.tag, spec.place)?;
    let members = members_checked(alloc, spec, env, names);
    struct_closed(env, number, spec.union, spec.place, members)
}

/// The members of a struct or a union.
#[cycle(expression)]
fn members_checked(
    alloc: Global,
    spec: &StructSpec,
    env: &mut Env,
    names: &Names,
) -> Result<MemberList, CheckError>
    ensures { AnswersIn members_seen
        (members_checked names.now (env_of env.old) [] (declarations_in (struct_spec_of spec.now)))
        (env_of env.new) result }
{
    let mut all = MemberList::new(alloc);
    let Some(members) = &spec.members else {
        return Ok(all);
    };
    'members: for (i, declaration) in members.iter().enumerate() {
        declaration_members(alloc, declaration, env, names, &mut all)?;
    }
    Ok(all)
}

/// The members of a declaration, behind those that are read.
#[cycle(expression)]
fn declaration_members(
    alloc: Global,
    declaration: &Declaration,
    env: &mut Env,
    names: &Names,
    all: &mut MemberList,
) -> Result<(), CheckError>
    ensures { LeadsTo
        (declaration_members names.now (env_of env.old) (members_seen all.old)
        (declaration_of declaration.now))
        (members_seen all.new, env_of env.new) result }
{
    let at = declaration.place;
    let base = specifiers_checked(alloc, &declaration.specifiers, env, names, false, at)?;
    items_checked(alloc, declaration, env, names, &base, all)
}

#[cycle(expression)]
fn items_checked(
    alloc: Global,
    declaration: &Declaration,
    env: &mut Env,
    names: &Names,
    base: &CType,
    all: &mut MemberList,
) -> Result<(), CheckError>
    ensures { LeadsTo
        (items_checked names.now (env_of env.old) (type_of base.now) (members_seen all.old)
        (items_in (declaration_of declaration.now)))
        (members_seen all.new, env_of env.new) result }
{
    'items: for (i, item) in declaration.items.iter().enumerate() {
        item_checked(alloc, item, env, names, base, all)?;
    }
    Ok(())
}

/// A member, behind those that are read.
#[cycle(expression)]
fn item_checked(
    alloc: Global,
    item: &InitDeclarator,
    env: &mut Env,
    names: &Names,
    base: &CType,
    all: &mut MemberList,
) -> Result<(), CheckError>
    ensures { LeadsTo
        (item_checked names.now (env_of env.old) (type_of base.now) (members_seen all.old)
        (init_declarator_of item.now))
        (members_seen all.new, env_of env.new) result }
{
    let of = declared_type(alloc, &item.declarator, env, names, base.copy(alloc)?);
    member_added(env, all, of, &item.declarator)
}

/// The type of a specifier of an enumeration (C90 6.5.2.2).
#[cycle(expression)]
fn enum_checked(
    alloc: Global,
    spec: &EnumSpec,
    env: &mut Env,
    names: &Names,
) -> Result<CType, CheckError>
    ensures { AnswersIn type_of
        (enum_checked names.now (env_of env.old) (enum_spec_of spec.now)) (env_of env.new) result }
{
    if spec.constants.is_none() {
        return enum_referred(env, spec.tag, spec.place);
    }
    with_enum_tag(env, spec.tag, spec.place)?;
    constants_checked(alloc, spec, env, names)?;
    Ok(CType::Int(IntKind::Int))
}

/// The constants of an enumeration, and the value behind the last: `None` is 0.
#[cycle(expression)]
fn constants_checked(
    alloc: Global,
    spec: &EnumSpec,
    env: &mut Env,
    names: &Names,
) -> Result<Option<i128>, CheckError>
    ensures { AnswersIn (λ z. unwrap_or z (pos 0))
        (constants_checked names.now (env_of env.old) (pos 0)
        (constants_in (enum_spec_of spec.now)))
        (env_of env.new) result }
{
    let mut next = None;
    let Some(constants) = &spec.constants else {
        return Ok(next);
    };
    'constants: for (i, constant) in constants.iter().enumerate() {
        next = constant_checked(alloc, constant, env, names, next)?;
    }
    Ok(next)
}

/// A constant of an enumeration, and the value of the next. Where none is given its own is `next`,
/// where `None` is 0.
#[tactic(auto, using(crate::proofs::Places::places))]
#[cycle(expression)]
fn constant_checked(
    alloc: Global,
    constant: &(u32, Place, Option<Expr>),
    env: &mut Env,
    names: &Names,
    next: Option<i128>,
) -> Result<Option<i128>, CheckError>
    ensures { AnswersIn (λ z. unwrap_or z (pos 0))
        (constant_checked names.now (env_of env.old) (unwrap_or next (pos 0)) constant.now.0
        constant.now.1 (optional constant.now.2))
        (env_of env.new) result }
{
    let (name, place) = (constant.0, constant.1);
    match &constant.2 {
        None => {
            let value = next.unwrap_or(0);
            Ok(Some(enumerator(env, name, place, value)?))
        }
        Some(value) => {
            let at = value.place;
            let value = value_checked(alloc, env, names, value);
            next_enumerator(env, value, at, name, place)
        }
    }
}

//! Scopes, links and tables (C90 6.1.2.1 to 6.1.2.3).
#![tactic(auto, unfolding(crate::specs::Views::env_of), using(crate::proofs::Updates::updates))]

ghost use Rattle.std.specs.Prelude.{
  ◌≡◌,
  map,
  length,
  slice_get,
  slice_set,
  IfOk,
  OnOk,
  OnErr,
  option_map,
};
ghost use Rattle.std.specs.Option.{option_copied};
ghost use Rattle.sp_types.specs.Programs.{object_of, function_of};
ghost use Rattle.sp_types.specs.View.{type_of, shared_signature_of, struct_of};
ghost use Rattle.sp_check_scopes.specs.Meanings.{meaning_of};
ghost use Rattle.sp_check_scopes.specs.Scopes.{entry, visible_meaning, visible_tag, is_file_scope};
ghost use Rattle.sp_check_scopes.specs.Views.{scope_of};
ghost use Rattle.sp_check_env.specs.Env.{
  unit_start,
  entered,
  list_entered,
  left,
  set_aside,
  resumed,
  declared,
  declared_in_block,
  is_same_entity,
  with_tag,
  linked,
  with_link,
  object_type,
  object_linkage,
  function_type,
  function_linkage,
  with_struct,
  set_struct,
  with_object,
  set_object,
  with_function,
  set_function,
  with_function_type,
  with_constant,
  struct_depth,
  with_depth,
  with_typing,
  changed,
  typed_by,
};
ghost use Rattle.sp_check_env.specs.Declaring.{LeadsTo};

use crate::UnitTables;
use indexmap::IndexMap;
use sp_base_checked::{CheckError, Typing, fault};
use sp_check_scopes::{Meaning, Scope, ScopeKind, Scopes, Tag};
use sp_tree::{FaultKind, Place};
use sp_types::{CType, FunctionDef, Linkage, ObjectDef, Signature, StructType};
use std::alloc::{AllocError, Global};
use std::rc::Rc;

/// What a name with linkage stands for in the whole unit (C90 6.1.2.2).
#[derive(Clone, Copy, Debug, PartialEq, Eq)]
pub enum Entity {
    /// An object, by its number.
    Object(u32),
    /// A function, by its number.
    Function(u32),
}

/// The scopes that are open, the links and the tables of a unit.
#[derive(Drop)]
pub struct Env {
    scopes: Scopes,
    links: IndexMap<u32, Entity>,
    depths: IndexMap<u32, u32>,
    tables: UnitTables,
}

/// Whether two meanings are one object or one function, which a scope may declare again (C90 6.5).
fn is_same_entity(old: &Meaning, new: &Meaning) -> bool
    ensures { result ≡ is_same_entity (meaning_of old.now) (meaning_of new.now) }
{
    match (old, new) {
        (Meaning::Object(a), Meaning::Object(b)) => a == b,
        (Meaning::Function(a), Meaning::Function(b)) => a == b,
        _ => false,
    }
}

/// Replaces the item of a number; where there is none, nothing changes.
fn set_item<T: Drop>(items: &mut Vec<T>, number: u32, to: T)
    ensures { items.new.items ≡ slice_set items.old.items number to }
{
    if let Some(old) = items.get_mut(number as usize) {
        *old = to;
    }
}

/// Gives the function of a number another type.
fn set_type(functions: &mut Vec<FunctionDef>, number: u32, of: Rc<Signature>)
    ensures { map function_of functions.new.items ≡
        changed (typed_by (shared_signature_of of)) (map function_of functions.old.items) number }
{
    if let Some(function) = functions.get_mut(number as usize) {
        function.of = of;
    }
}

impl Env {
    ghost use Rattle.sp_check_env.specs.Views.{env_of, tables_of};

    /// The environment before the first declaration of a unit.
    pub fn new(alloc: Global) -> Env
        ensures { env_of result ≡ unit_start }
    {
        Env {
            scopes: Scopes::new(alloc),
            links: IndexMap::new(alloc),
            depths: IndexMap::new(alloc),
            tables: UnitTables {
                structs: Vec::new(alloc),
                objects: Vec::new(alloc),
                functions: Vec::new(alloc),
                constants: Vec::new(alloc),
                typings: Vec::new(alloc),
            },
        }
    }

    /// Opens the scope of a block inside the others.
    pub fn enter(&mut self, alloc: Global) -> Result<(), AllocError>
        ensures ok { OnOk result (env_of self.new ≡ entered (env_of self.old)) }
        ensures err { OnErr result (env_of self.new ≡ env_of self.old) }
    {
        self.scopes.enter(alloc, ScopeKind::Block)
    }

    /// Opens the scope of a list of parameters inside the others.
    pub fn enter_list(&mut self, alloc: Global) -> Result<(), AllocError>
        ensures ok { OnOk result (env_of self.new ≡ list_entered (env_of self.old)) }
        ensures err { OnErr result (env_of self.new ≡ env_of self.old) }
    {
        self.scopes.enter(alloc, ScopeKind::Parameters)
    }

    /// Closes the innermost scope. That of the file stays.
    pub fn leave(&mut self)
        ensures { env_of self.new ≡ left (env_of self.old) }
    {
        self.scopes.leave();
    }

    /// Takes the innermost scope from the others, and answers it. In the place of the file's comes
    /// an empty one.
    pub fn set_aside(&mut self, alloc: Global) -> Scope
        ensures scope { scope_of result ≡ (env_of self.old).scopes.inner }
        ensures others { env_of self.new ≡ set_aside (env_of self.old) }
    {
        self.scopes.set_aside(alloc)
    }

    /// Opens a scope that was set aside inside the others, as a block's: the parameters of a
    /// definition are in the block that is its body (C90 6.1.2.1).
    pub fn resume(&mut self, scope: Scope) -> Result<(), AllocError>
        ensures ok { OnOk result (env_of self.new ≡
            resumed (scope_of scope) (env_of self.old)) }
        ensures err { OnErr result (env_of self.new ≡ env_of self.old) }
    {
        self.scopes.resume(scope)
    }

    /// Whether the innermost scope is that of the file.
    pub fn is_file_scope(&self) -> bool
        ensures { result ≡ is_file_scope (env_of self.now).scopes }
    {
        self.scopes.is_file_scope()
    }

    /// What a name stands for here: its meaning in the innermost scope that has it.
    pub fn find(&self, name: u32) -> Option<&Meaning>
        ensures { option_map meaning_of (option_copied result) ≡
            visible_meaning (env_of self.now).scopes name }
    {
        self.scopes.visible(name)
    }

    /// What a tag stands for here.
    pub fn find_tag(&self, name: u32) -> Option<Tag>
        ensures { result ≡ visible_tag (env_of self.now).scopes name }
    {
        self.scopes.visible_tag(name)
    }

    /// What the innermost scope has for a tag.
    pub fn tag_here(&self, name: u32) -> Option<Tag>
        ensures { result ≡ entry (env_of self.now).scopes.inner.tags name }
    {
        self.scopes.tag_here(name)
    }

    /// Declares a name in the innermost scope; `place` is that of the name in its declarator. It is
    /// RedeclaredName where the scope has the name already, unless as the same object or the same function,
    /// which stays.
    pub fn declare(&mut self, name: u32, meaning: Meaning, place: Place) -> Result<(), CheckError>
        ensures answer { LeadsTo (declared (env_of self.old) name (meaning_of meaning) place)
            (env_of self.new) result }
        ensures err { OnErr result (env_of self.new ≡ env_of self.old) }
    {
        match self.scopes.meaning_here(name) {
            None => Ok(self.scopes.add_name(name, meaning)?),
            Some(old) if is_same_entity(old, &meaning) => Ok(()),
            Some(_) => fault(FaultKind::RedeclaredName, place),
        }
    }

    /// Declares a name in the innermost block, or in the file where no block is open: a list of
    /// parameters is no block. It is RedeclaredName as for [`Env::declare`].
    pub fn declare_in_block(
        &mut self,
        name: u32,
        meaning: Meaning,
        place: Place,
    ) -> Result<(), CheckError>
        ensures answer { LeadsTo
            (declared_in_block (env_of self.old) name (meaning_of meaning) place)
            (env_of self.new) result }
        ensures err { OnErr result (env_of self.new ≡ env_of self.old) }
    {
        match self.scopes.meaning_in_block(name) {
            None => Ok(self.scopes.add_block_name(name, meaning)?),
            Some(old) if is_same_entity(old, &meaning) => Ok(()),
            Some(_) => fault(FaultKind::RedeclaredName, place),
        }
    }

    /// Gives a tag its meaning in the innermost scope.
    pub fn add_tag(&mut self, name: u32, tag: Tag) -> Result<(), AllocError>
        ensures ok { OnOk result (env_of self.new ≡ with_tag (env_of self.old) name tag) }
        ensures err { OnErr result (env_of self.new ≡ env_of self.old) }
    {
        self.scopes.add_tag(name, tag)
    }

    /// The object or the function that a name with linkage stands for in the whole unit, where it
    /// is declared by now.
    pub fn linked(&self, name: u32) -> Option<Entity>
        ensures { result ≡ linked (env_of self.now) name }
    {
        self.links.get(&name).copied()
    }

    /// Links a name to an object or a function of the unit.
    pub fn link(&mut self, name: u32, entity: Entity) -> Result<(), AllocError>
        ensures ok { OnOk result (env_of self.new ≡ with_link (env_of self.old) name entity) }
        ensures err { OnErr result (env_of self.new ≡ env_of self.old) }
    {
        self.links.insert(name, entity)?;
        Ok(())
    }

    /// How many structs, unions and arrays lie inside one another in a struct; 0 where it isn't
    /// complete.
    pub fn struct_depth(&self, number: u32) -> u32
        ensures { result ≡ struct_depth (env_of self.now) number }
    {
        self.depths.get(&number).copied().unwrap_or(0)
    }

    /// Tells how deep a struct is.
    pub fn set_depth(&mut self, number: u32, depth: u32) -> Result<(), AllocError>
        ensures ok { OnOk result (env_of self.new ≡ with_depth (env_of self.old) number depth) }
        ensures err { OnErr result (env_of self.new ≡ env_of self.old) }
    {
        self.depths.insert(number, depth)?;
        Ok(())
    }

    /// The table of structs and unions.
    pub fn structs(&self) -> &[StructType]
        ensures { map struct_of result.now ≡ (env_of self.now).tables.structs }
    {
        &self.tables.structs
    }

    /// The type of an object of the tables.
    pub fn object_type(&self, number: u32) -> Option<&CType>
        ensures { option_map type_of (option_copied result) ≡
            object_type (slice_get (env_of self.now).tables.objects number) }
    {
        match self.tables.objects.get(number as usize) {
            Some(object) => Some(&object.of),
            None => None,
        }
    }

    /// The linkage of an object of the tables.
    pub fn object_linkage(&self, number: u32) -> Option<Linkage>
        ensures { result ≡ object_linkage (slice_get (env_of self.now).tables.objects number) }
    {
        match self.tables.objects.get(number as usize) {
            Some(object) => Some(object.linkage),
            None => None,
        }
    }

    /// The type of a function of the tables.
    pub fn function_type(&self, number: u32) -> Option<&Rc<Signature>>
        ensures { option_map shared_signature_of (option_copied result) ≡
            function_type (slice_get (env_of self.now).tables.functions number) }
    {
        match self.tables.functions.get(number as usize) {
            Some(function) => Some(&function.of),
            None => None,
        }
    }

    /// The linkage of a function of the tables.
    pub fn function_linkage(&self, number: u32) -> Option<Linkage>
        ensures { result ≡
            function_linkage (slice_get (env_of self.now).tables.functions number) }
    {
        match self.tables.functions.get(number as usize) {
            Some(function) => Some(function.linkage),
            None => None,
        }
    }

    /// Puts a struct last in its table, and answers its number. More than 2^32 of them want memory,
    /// here and below.
    pub fn add_struct(&mut self, added: StructType) -> Result<u32, AllocError>
        ensures number { IfOk result (λ k. k ≡ length (env_of self.old).tables.structs) }
        ensures ok { OnOk result (env_of self.new ≡
            with_struct (env_of self.old) (struct_of added)) }
        ensures err { OnErr result (env_of self.new ≡ env_of self.old) }
    {
        let Ok(number) = u32::try_from(self.tables.structs.len()) else {
            return Err(AllocError);
        };
        self.tables.structs.push(added)?;
        Ok(number)
    }

    /// Replaces a struct of the tables.
    pub fn set_struct(&mut self, number: u32, to: StructType)
        ensures { env_of self.new ≡ set_struct (env_of self.old) number (struct_of to) }
    {
        set_item(&mut self.tables.structs, number, to);
    }

    /// Puts an object last in its table, and answers its number.
    pub fn add_object(&mut self, object: ObjectDef) -> Result<u32, AllocError>
        ensures number { IfOk result (λ k. k ≡ length (env_of self.old).tables.objects) }
        ensures ok { OnOk result (env_of self.new ≡
            with_object (env_of self.old) (object_of object)) }
        ensures err { OnErr result (env_of self.new ≡ env_of self.old) }
    {
        let Ok(number) = u32::try_from(self.tables.objects.len()) else {
            return Err(AllocError);
        };
        self.tables.objects.push(object)?;
        Ok(number)
    }

    /// Replaces an object of the tables.
    pub fn set_object(&mut self, number: u32, to: ObjectDef)
        ensures { env_of self.new ≡ set_object (env_of self.old) number (object_of to) }
    {
        set_item(&mut self.tables.objects, number, to);
    }

    /// Puts a function last in its table, and answers its number.
    pub fn add_function(&mut self, function: FunctionDef) -> Result<u32, AllocError>
        ensures number { IfOk result (λ k. k ≡ length (env_of self.old).tables.functions) }
        ensures ok { OnOk result (env_of self.new ≡
            with_function (env_of self.old) (function_of function)) }
        ensures err { OnErr result (env_of self.new ≡ env_of self.old) }
    {
        let Ok(number) = u32::try_from(self.tables.functions.len()) else {
            return Err(AllocError);
        };
        self.tables.functions.push(function)?;
        Ok(number)
    }

    /// Replaces a function of the tables.
    pub fn set_function(&mut self, number: u32, to: FunctionDef)
        ensures { env_of self.new ≡ set_function (env_of self.old) number (function_of to) }
    {
        set_item(&mut self.tables.functions, number, to);
    }

    /// Gives a function of the tables another type.
    pub fn set_function_type(&mut self, number: u32, of: Rc<Signature>)
        ensures { env_of self.new ≡
            with_function_type (env_of self.old) number (shared_signature_of of) }
    {
        set_type(&mut self.tables.functions, number, of);
    }

    /// Puts a constant of the text last.
    pub fn add_constant(&mut self, value: i128) -> Result<(), AllocError>
        ensures ok { OnOk result (env_of self.new ≡ with_constant (env_of self.old) value) }
        ensures err { OnErr result (env_of self.new ≡ env_of self.old) }
    {
        self.tables.constants.push(value)?;
        Ok(())
    }

    /// Tells the type that a name has behind a declarator, where it has external linkage.
    pub fn add_typing(
        &mut self,
        linkage: Linkage,
        name: u32,
        of: CType,
        place: Place,
    ) -> Result<(), AllocError>
        ensures ok { OnOk result (env_of self.new ≡
            with_typing (env_of self.old) linkage name (type_of of) place) }
        ensures err { OnErr result (env_of self.new ≡ env_of self.old) }
    {
        match linkage {
            Linkage::External => {
                self.tables.typings.push(Typing { name, of, place })?;
                Ok(())
            }
            Linkage::Internal | Linkage::Inner => Ok(()),
        }
    }

    /// What is declared by now.
    pub fn tables(&self) -> &UnitTables
        ensures { tables_of result.now ≡ (env_of self.now).tables }
    {
        &self.tables
    }

    /// What the unit has declared.
    pub fn finish(self) -> UnitTables
        ensures { tables_of result ≡ (env_of self).tables }
    {
        self.tables
    }
}

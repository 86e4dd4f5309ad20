//! Makers of types, and what is read of them.
ghost use Rattle.std.specs.Prelude.{◌≡◌, IfOk, option_map};
ghost use Rattle.sp_types.specs.Types.{pointer, array, function, result_of, parameters_of, is_variadic};
ghost use Rattle.sp_types.specs.View.{type_of, signature_of, shared_signature_of, told};

use crate::{ArrayType, CType, Signature};
use std::alloc::{AllocError, Global};
use std::rc::Rc;

impl CType {
    /// The same type again, which shares what it derives from.
    #[inline(always)]
    pub fn copy(&self, _alloc: Global) -> Result<CType, AllocError>
        ensures { IfOk result (λ t. type_of t ≡ type_of self.now) }
    {
        match self {
            CType::Void => Ok(CType::Void),
            CType::Int(kind) => Ok(CType::Int(*kind)),
            CType::Float(kind) => Ok(CType::Float(*kind)),
            CType::Pointer(to) => Ok(CType::Pointer(to.clone()?)),
            CType::Array(of) => Ok(CType::Array(of.clone()?)),
            CType::Struct(number) => Ok(CType::Struct(*number)),
            CType::Function(of) => Ok(CType::Function(of.clone()?)),
        }
    }

    /// A pointer to the type.
    pub fn pointer(alloc: Global, to: CType) -> Result<CType, AllocError>
        ensures { IfOk result (λ t. type_of t ≡ pointer (type_of to)) }
    {
        Ok(CType::Pointer(Rc::new(alloc, to)?))
    }

    /// An array of the type, of so many elements where that is known.
    pub fn array(alloc: Global, element: CType, length: Option<u64>) -> Result<CType, AllocError>
        ensures { IfOk result (λ t. type_of t ≡ array (type_of element) length) }
    {
        CType::shared_array(alloc, Rc::new(alloc, element)?, length)
    }

    /// The same of a type that is shared.
    pub fn shared_array(
        alloc: Global,
        element: Rc<CType>,
        length: Option<u64>,
    ) -> Result<CType, AllocError>
        ensures { IfOk result (λ t. type_of t ≡ array (type_of element.value) length) }
    {
        Ok(CType::Array(Rc::new(alloc, ArrayType { element, length })?))
    }

    /// A function of the signature.
    pub fn function(alloc: Global, of: Signature) -> Result<CType, AllocError>
        ensures { IfOk result (λ t. type_of t ≡ function (signature_of of)) }
    {
        Ok(CType::shared_function(Rc::new(alloc, of)?))
    }

    /// The same of a signature that is shared.
    pub fn shared_function(of: Rc<Signature>) -> CType
        ensures { type_of result ≡ function (shared_signature_of of) }
    {
        CType::Function(of)
    }
}

impl Signature {
    /// The type of its result.
    pub fn result(&self) -> &CType
        ensures { type_of result.now ≡ result_of (signature_of self.now) }
    {
        &self.result
    }

    /// Whether more arguments may follow its parameters.
    pub fn variadic(&self) -> bool
        ensures { result ≡ is_variadic (signature_of self.now) }
    {
        self.variadic
    }

    /// Its parameters, where it has a prototype.
    pub fn params(&self) -> Option<&[CType]>
        ensures { parameters_of (signature_of self.now) ≡ told (option_map (λ ts. ts.now) result) }
    {
        match &self.params {
            None => None,
            Some(params) => Some(params.as_slice()),
        }
    }
}

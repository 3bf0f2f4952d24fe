//! The writer of component types and instance types.

ghost use Rattle.std.specs.Prelude.{◌≡◌, ◌++◌, ◌∷◌, [], OnOk, OnErr, IfOk};
ghost use Rattle.wac_binary.specs.Items.{value_def, component_def, instance_def, decls, core_type_decl, type_decl, alias_decl, export_alias, outer_alias, export_decl};
ghost use Rattle.wac_binary.specs.Indexes.{space, core_types, described_sort, declared};
ghost use Rattle.wac_binary.specs.Fits.{DeclarationsFit, TooLargeUnless};
ghost use Rattle.wac_binary.specs.Views.{func_of, defined_of};
ghost use Rattle.wac_binary.specs.declared.sorts.Sort.TheVariants as s;

use crate::declarations::component_type::ComponentType;
use crate::declarations::decl::{AliasRef, DeclRef, Scope, TypeRef};
use crate::declarations::declarations::Declarations;
use crate::declarations::instance_type::InstanceType;
use crate::declarations::module_type::ModuleType;
use crate::fault::BinaryFault;
use crate::sorts::{Description, IndexSpace, Sort, described_sort, space};
use crate::types::{DefinedType, FuncType};
use std::alloc::{AllocError, Global};
use std::marker::{Model, PhantomData};

/// The kind of a component type.
#[derive(Debug)]
pub struct Component;

/// The kind of an instance type.
#[derive(Debug)]
pub struct Instance;

/// A component type or an instance type that is being written. Contracts see it as the list of its declarations.
///
/// `K` is [`Component`] or [`Instance`].
///
/// Each declaring call appends a declaration, and returns the index that this adds to the index space of its sort.
/// Whether the indexes in a declaration exist is not checked.
///
/// # Errors
/// - [`TooLarge`](BinaryFault::TooLarge) if the declarations would not fit 32-bit sizes.
/// - [`OutOfMemory`](BinaryFault::OutOfMemory).
///
/// On an error the declarations are unchanged.
#[derive(Debug)]
pub struct TypeWriter<K> {
    pub(crate) declarations: Declarations,
    kind: PhantomData<K>,
}

// By hand: a derived `Drop` is proved again wherever one goes out of scope (docs/PROOFS.md, 'Drop').
impl<K> Drop for TypeWriter<K> {
    fn drop(self) {
        let TypeWriter {
            declarations: _,
            kind: _,
        } = self;
    }
}

impl<K> Model for TypeWriter<K> {
    ghost use Rattle.std.specs.Prelude.{List};
    ghost use Rattle.std.specs.Coded.{coded_list};
    ghost use Rattle.wac_binary.specs.Items.{Decl};
    ghost use Rattle.wac_binary.specs.private.Code.{coded_decl};

    ghost Value = { List Decl };

    ghost coded = { coded_list coded_decl };

    ghost view = { λ t. t.declarations };
}

impl<K> TypeWriter<K> {
    /// Creates a type without declarations.
    pub fn new(alloc: Global) -> TypeWriter<K>
        ensures { result ≡ [] }
    {
        TypeWriter {
            declarations: Declarations::new(alloc),
            kind: PhantomData,
        }
    }

    /// Declares a core module type and returns its core type index.
    pub fn core_module_type(&mut self, t: &ModuleType) -> Result<u32, BinaryFault>
        ensures index { IfOk result (λ i. i ≡ declared core_types self.old) }
        ensures appended { OnOk result (self.new ≡ self.old ++ core_type_decl t.now ∷ []) }
        ensures fits { OnOk result (DeclarationsFit self.new) }
        ensures refused { OnErr result (self.new ≡ self.old) }
        ensures too_large { TooLargeUnless result (DeclarationsFit (self.old ++ core_type_decl t.now ∷ [])) }
    {
        self.declarations
            .append(&DeclRef::CoreModule(t), IndexSpace::CoreTypes)
    }

    /// Declares a value type and returns its type index.
    pub fn defined_type(&mut self, t: &DefinedType<'_>) -> Result<u32, BinaryFault>
        ensures index { IfOk result (λ i. i ≡ declared (space s.Type) self.old) }
        ensures appended { OnOk result (self.new ≡ self.old ++ type_decl (value_def (defined_of t.now)) ∷ []) }
        ensures fits { OnOk result (DeclarationsFit self.new) }
        ensures refused { OnErr result (self.new ≡ self.old) }
        ensures too_large { TooLargeUnless result (DeclarationsFit (self.old ++ type_decl (value_def (defined_of t.now)) ∷ [])) }
    {
        self.declarations
            .append(&DeclRef::Type(TypeRef::Defined(t)), IndexSpace::Types)
    }

    /// Declares a function type and returns its type index.
    pub fn func_type(&mut self, f: &FuncType<'_>) -> Result<u32, BinaryFault>
        ensures index { IfOk result (λ i. i ≡ declared (space s.Type) self.old) }
        ensures appended { OnOk result (self.new ≡ self.old ++ type_decl (func_of f.now) ∷ []) }
        ensures fits { OnOk result (DeclarationsFit self.new) }
        ensures refused { OnErr result (self.new ≡ self.old) }
        ensures too_large { TooLargeUnless result (DeclarationsFit (self.old ++ type_decl (func_of f.now) ∷ [])) }
    {
        self.declarations
            .append(&DeclRef::Type(TypeRef::Func(f)), IndexSpace::Types)
    }

    /// Declares a component type and returns its type index. If it is the longer, its shared bytes are not copied.
    pub fn component_type(&mut self, t: &ComponentType) -> Result<u32, BinaryFault>
        ensures index { IfOk result (λ i. i ≡ declared (space s.Type) self.old) }
        ensures appended { OnOk result (self.new ≡ self.old ++ type_decl (component_def (decls t.now)) ∷ []) }
        ensures fits { OnOk result (DeclarationsFit self.new) }
        ensures refused { OnErr result (self.new ≡ self.old) }
        ensures too_large { TooLargeUnless result (DeclarationsFit (self.old ++ type_decl (component_def (decls t.now)) ∷ [])) }
    {
        self.declarations.list(t.declarations(), Scope::Component)
    }

    /// Declares an instance type and returns its type index.
    pub fn instance_type(&mut self, t: &InstanceType) -> Result<u32, BinaryFault>
        ensures index { IfOk result (λ i. i ≡ declared (space s.Type) self.old) }
        ensures appended { OnOk result (self.new ≡ self.old ++ type_decl (instance_def (decls t.now)) ∷ []) }
        ensures fits { OnOk result (DeclarationsFit self.new) }
        ensures refused { OnErr result (self.new ≡ self.old) }
        ensures too_large { TooLargeUnless result (DeclarationsFit (self.old ++ type_decl (instance_def (decls t.now)) ∷ [])) }
    {
        let t = TypeRef::Scope(Scope::Instance, t.declarations());
        self.declarations
            .append(&DeclRef::Type(t), IndexSpace::Types)
    }

    /// Declares an instance type, which is consumed, and returns its type index.
    ///
    /// The longer of the two buffers stays in place, so that nested types are not copied at each level.
    /// On an error `t` is dropped.
    pub fn take_instance_type(&mut self, t: InstanceType) -> Result<u32, BinaryFault>
        ensures index { IfOk result (λ i. i ≡ declared (space s.Type) self.old) }
        ensures appended { OnOk result (self.new ≡ self.old ++ type_decl (instance_def (decls t)) ∷ []) }
        ensures fits { OnOk result (DeclarationsFit self.new) }
        ensures refused { OnErr result (self.new ≡ self.old) }
        ensures too_large { TooLargeUnless result (DeclarationsFit (self.old ++ type_decl (instance_def (decls t)) ∷ [])) }
    {
        self.declarations
            .take(t.into_declarations(), Scope::Instance)
    }

    /// Declares a component type, which is consumed, and returns its type index.
    ///
    /// The longer of the two buffers stays in place, so that nested types are not copied at each level.
    /// On an error `t` is dropped.
    pub fn take_component_type(&mut self, t: ComponentType) -> Result<u32, BinaryFault>
        ensures index { IfOk result (λ i. i ≡ declared (space s.Type) self.old) }
        ensures appended { OnOk result (self.new ≡ self.old ++ type_decl (component_def (decls t)) ∷ []) }
        ensures fits { OnOk result (DeclarationsFit self.new) }
        ensures refused { OnErr result (self.new ≡ self.old) }
        ensures too_large { TooLargeUnless result (DeclarationsFit (self.old ++ type_decl (component_def (decls t)) ∷ [])) }
    {
        self.declarations
            .take(t.into_declarations(), Scope::Component)
    }

    /// Declares an alias of an export of the instance with this index, and returns its index of this sort.
    pub fn alias_export(
        &mut self,
        sort: Sort,
        instance: u32,
        name: &str,
    ) -> Result<u32, BinaryFault>
        ensures index { IfOk result (λ i. i ≡ declared (space sort) self.old) }
        ensures appended { OnOk result (self.new ≡ self.old ++ alias_decl (export_alias sort instance name.now) ∷ []) }
        ensures fits { OnOk result (DeclarationsFit self.new) }
        ensures refused { OnErr result (self.new ≡ self.old) }
        ensures too_large { TooLargeUnless result (DeclarationsFit (self.old ++ alias_decl (export_alias sort instance name.now) ∷ [])) }
    {
        let alias = AliasRef::Export(sort, instance, name);
        self.declarations
            .append(&DeclRef::Alias(alias), space(sort))
    }

    /// Declares an alias of an index of the scope that is `count` scopes out, and returns its index of this sort.
    ///
    /// The scope of the type itself is 0 scopes out.
    pub fn alias_outer(&mut self, sort: Sort, count: u32, index: u32) -> Result<u32, BinaryFault>
        ensures index { IfOk result (λ i. i ≡ declared (space sort) self.old) }
        ensures appended { OnOk result (self.new ≡ self.old ++ alias_decl (outer_alias sort count index) ∷ []) }
        ensures fits { OnOk result (DeclarationsFit self.new) }
        ensures refused { OnErr result (self.new ≡ self.old) }
        ensures too_large { TooLargeUnless result (DeclarationsFit (self.old ++ alias_decl (outer_alias sort count index) ∷ [])) }
    {
        let alias = AliasRef::Outer(sort, count, index);
        self.declarations
            .append(&DeclRef::Alias(alias), space(sort))
    }

    /// Declares an export and returns its index of the described sort.
    pub fn export(&mut self, name: &str, d: Description) -> Result<u32, BinaryFault>
        ensures index { IfOk result (λ i. i ≡ declared (space (described_sort d)) self.old) }
        ensures appended { OnOk result (self.new ≡ self.old ++ export_decl name.now d ∷ []) }
        ensures fits { OnOk result (DeclarationsFit self.new) }
        ensures refused { OnErr result (self.new ≡ self.old) }
        ensures too_large { TooLargeUnless result (DeclarationsFit (self.old ++ export_decl name.now d ∷ [])) }
    {
        self.declarations
            .append(&DeclRef::Export(name, d), space(described_sort(d)))
    }

    /// States that the declarations fit 32-bit sizes. Proof only (docs/PROOFS.md, 'Laws').
    pub fn fit_law(&self)
        ensures { DeclarationsFit self.now }
    {
        self.declarations.fit_law()
    }

    /// The declarations.
    pub fn declarations(&self) -> &Declarations
        ensures { result.now ≡ self.now }
    {
        &self.declarations
    }

    /// Returns the same type. Types that declare it share its bytes from then on.
    ///
    /// # Errors
    /// `AllocError` if out of memory. Then the type is dropped.
    pub fn share(self) -> Result<TypeWriter<K>, AllocError>
        ensures { IfOk result (λ t. t ≡ self) }
    {
        Ok(TypeWriter {
            declarations: self.into_declarations().share()?,
            kind: PhantomData,
        })
    }

    /// Returns the declarations and consumes the type.
    pub(crate) fn into_declarations(self) -> Declarations
        ensures { result ≡ self }
    {
        let TypeWriter {
            declarations,
            kind: _,
        } = self;
        declarations
    }
}

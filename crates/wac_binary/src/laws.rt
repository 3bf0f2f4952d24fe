//! Laws of the definitions, for proofs in other crates. The functions do nothing (docs/PROOFS.md, 'Laws').

ghost use Rattle.std.specs.Prelude.{◌≡◌, List, ℕ, suc, ◌<◌, ◌≤◌, ◌^◌, ◌++◌, ◌∷◌, [], length, slice_get, Bool, Some, None};
ghost use Rattle.std.specs.List.{flat_map};
ghost use Rattle.wac_types_shapes.specs.primitives.Tree.{Tree, imported, exported, position, named, resource, seen_from};
ghost use Rattle.wac_binary.specs.Items.{Item, TypeDef, core_type, instantiate, alias_item, export_alias, outer_alias, type_item, import_item, export_item, func_def, Decl, Decls, decls, core_type_decl, type_decl, alias_decl, import_decl, export_decl, ModuleDecl, module_func};
ghost use Rattle.wac_binary.specs.Bytes.{module_decl_bytes, decls_bytes, bytes_of};
ghost use Rattle.wac_binary.specs.Customs.{of_sort, names_bytes, producers_bytes};
ghost use Rattle.wac_types_shapes.specs.primitives.Name.{Name};
ghost use Rattle.wac_binary.specs.Indexes.{space, core_types, sort_added, indexes, declared, function_types};
ghost use Rattle.wac_binary.specs.Unfold.{Scope, Bound, empty, unbound, type_at, bound_at, scope_at, aliased_type, aliased_instance, tree_of, after, with_decl, module_tree, no_module, module_after, func_at};
ghost use Rattle.wac_binary.specs.Growth.{Grows, AllGrow, TypeReaches, Reach, Reaches, TypeStaysWithin, StayWithin, StaysWithin};
ghost use Rattle.wac_types_shapes.specs.primitives.Core.{CoreItem};
ghost use Rattle.wac_types_shapes.specs.declared.primitives.core_types.CoreType.{CoreType as OfCoreType};
ghost use Rattle.wac_binary.specs.Meaning.{meaning, root_scope, read, read_all, things, stands_for, thing_added};
ghost use Rattle.wac_binary.specs.HasMeaning.{HasMeaning, ItemHasMeaning, DeclsHaveMeaning, DeclHasMeaning, ImportNothing, TypeHasMeaning};
ghost use Rattle.wac_binary.specs.Added.{type_added, instance_added, type_declared, instance_declared, imports_added, exports_added, imports_declared, exports_declared};
ghost use Rattle.wac_binary.specs.Fits.{Fits, DeclarationsFit, ModuleFits};
ghost use Rattle.wac_binary.specs.declared.sorts.Sort.{Sort as OfSort};
ghost use Rattle.wac_binary.specs.declared.sorts.Sort.TheVariants as s;
ghost use Rattle.wac_binary.specs.declared.sorts.Description.TheVariants as e;
ghost use Rattle.wac_binary.specs.declared.types.ComponentValType.{ComponentValType as OfValType};

/// States that different lists of items have different bytes.
#[tactic(auto, using(crate::specs::private::OneText::one_reading))]
pub fn one_reading()
    ensures { (xs ys : List Item) → bytes_of xs ≡ bytes_of ys → xs ≡ ys }
{}

/// States that the contents of a custom section determine the names of each sort, or the processor.
#[tactic(auto, using(crate::proofs::CustomReading::one_names, crate::proofs::CustomReading::one_producer))]
pub fn one_custom_reading()
    ensures names { (xs ys : List (OfSort × ℕ × Name)) → names_bytes xs ≡ names_bytes ys → (t : OfSort) → of_sort t xs ≡ of_sort t ys }
    ensures producers { (name other version another : Name) → producers_bytes name version ≡ producers_bytes other another → (name ≡ other) × (version ≡ another) }
{}

/// States what an item adds to the meaning of the items before it. It changes no earlier index.
pub fn law()
    // The meaning has an entry for each index that the items add.
    ensures counted { (items : List Item) (t : OfSort) → length (things (meaning items) t) ≡ indexes (space t) items }
    ensures types_counted { (items : List Item) → length (meaning items).scope.types ≡ indexes (space s.Type) items }
    ensures instances_counted { (items : List Item) → length (meaning items).scope.instances ≡ indexes (space s.Instance) items }
    ensures core_types_counted { (items : List Item) → length (meaning items).scope.core_types ≡ indexes core_types items }
    // One more item is read after the others. Its index is the next one of its sort.
    ensures one_more { (items : List Item) (x : Item) → meaning (items ++ x ∷ []) ≡ read (meaning items) x }
    ensures new { (items : List Item) (x : Item) (t : OfSort) → sort_added x ≡ Some t
        → stands_for (meaning (items ++ x ∷ [])) t (indexes (space t) items) ≡ thing_added (meaning items) x }
    ensures new_type { (items : List Item) (d : TypeDef)
        → type_at (meaning (items ++ type_item d ∷ [])).scope.types (indexes (space s.Type) items) ≡ tree_of d (meaning items).scope [] }
    ensures new_core_type { (items : List Item) (m : List ModuleDecl) → type_at (meaning (items ++ core_type m ∷ [])).scope.core_types (indexes core_types items) ≡ module_tree m }
    ensures modules_counted { (items : List Item) → (meaning items).scope.modules ≡ indexes (space s.CoreModule) items }
    ensures components_counted { (items : List Item) → (meaning items).scope.components ≡ indexes (space s.Component) items }
    // A list of items is read in two parts.
    ensures in_a_row { (items more : List Item) → meaning (items ++ more) ≡ read_all (meaning items) more }
    // Further items do not change what an earlier index refers to, nor its tree.
    ensures earlier { (items more : List Item) (t : OfSort) (i : ℕ) → i < indexes (space t) items
        → stands_for (meaning (items ++ more)) t i ≡ stands_for (meaning items) t i }
    ensures types_earlier { (items more : List Item) (i : ℕ) → i < indexes (space s.Type) items
        → type_at (meaning (items ++ more)).scope.types i ≡ type_at (meaning items).scope.types i }
    ensures instances_earlier { (items more : List Item) (i : ℕ) → i < indexes (space s.Instance) items
        → bound_at (meaning (items ++ more)).scope.instances i ≡ bound_at (meaning items).scope.instances i }
    ensures core_types_earlier { (items more : List Item) (i : ℕ) → i < indexes core_types items
        → type_at (meaning (items ++ more)).scope.core_types i ≡ type_at (meaning items).scope.core_types i }
{}

/// States what a declaration adds to its scope, for any enclosing scopes. It changes no earlier index.
///
/// If each outer alias refers to an index that exists, growth of the enclosing scopes changes nothing.
pub fn scope_law()
    // A scope has an entry for each index that the declarations add.
    ensures types_counted { (ds : List Decl) (out : List Scope) → length (after (decls ds) empty out).types ≡ declared (space s.Type) ds }
    ensures instances_counted { (ds : List Decl) (out : List Scope) → length (after (decls ds) empty out).instances ≡ declared (space s.Instance) ds }
    ensures core_types_counted { (ds : List Decl) (out : List Scope) → length (after (decls ds) empty out).core_types ≡ declared core_types ds }
    ensures modules_counted { (ds : List Decl) (out : List Scope) → (after (decls ds) empty out).modules ≡ declared (space s.CoreModule) ds }
    ensures components_counted { (ds : List Decl) (out : List Scope) → (after (decls ds) empty out).components ≡ declared (space s.Component) ds }
    // One more declaration is read after the others. A new type has the next index.
    ensures one_more { (ds : List Decl) (d : Decl) (out : List Scope) → after (decls (ds ++ d ∷ [])) empty out ≡ with_decl d (after (decls ds) empty out) out }
    ensures new_type { (ds : List Decl) (t : TypeDef) (out : List Scope)
        → type_at (after (decls (ds ++ type_decl t ∷ [])) empty out).types (declared (space s.Type) ds) ≡ tree_of t (after (decls ds) empty out) out }
    ensures new_core_type { (ds : List Decl) (m : List ModuleDecl) (out : List Scope)
        → type_at (after (decls (ds ++ core_type_decl m ∷ [])) empty out).core_types (declared core_types ds) ≡ module_tree m }
    // Further declarations do not change the tree of an earlier index.
    ensures types_earlier { (ds more : List Decl) (out : List Scope) (i : ℕ) → i < declared (space s.Type) ds
        → type_at (after (decls (ds ++ more)) empty out).types i ≡ type_at (after (decls ds) empty out).types i }
    ensures instances_earlier { (ds more : List Decl) (out : List Scope) (i : ℕ) → i < declared (space s.Instance) ds
        → bound_at (after (decls (ds ++ more)) empty out).instances i ≡ bound_at (after (decls ds) empty out).instances i }
    ensures core_types_earlier { (ds more : List Decl) (out : List Scope) (i : ℕ) → i < declared core_types ds
        → type_at (after (decls (ds ++ more)) empty out).core_types i ≡ type_at (after (decls ds) empty out).core_types i }
    // Items and declarations only let a scope grow. Growth of the enclosing scopes does not change an inner scope.
    ensures root_grows { (items more : List Item) → Grows (meaning items).scope (meaning (items ++ more)).scope }
    ensures grows { (ds more : List Decl) (out : List Scope) → Grows (after (decls ds) empty out) (after (decls (ds ++ more)) empty out) }
    ensures around { (ds : Decls) (out new : List Scope) → AllGrow out new → Reach ds empty out → after ds empty new ≡ after ds empty out }
    ensures type_around { (t : TypeDef) (c : Scope) (out new : List Scope) → AllGrow out new → TypeReaches t c out → tree_of t c new ≡ tree_of t c out }
    // Each outer alias refers to an index that exists, if that holds of the earlier declarations and of the last one.
    ensures reach_one_more { (ds : List Decl) (d : Decl) (out : List Scope) → Reach (decls ds) empty out → Reaches d (after (decls ds) empty out) out → Reach (decls (ds ++ d ∷ [])) empty out }
    // Growth is reflexive and transitive, and keeps the indexes that outer aliases refer to.
    ensures grows_not { (c : Scope) → Grows c c }
    ensures grows_twice { (a b c : Scope) → Grows a b → Grows b c → Grows a c }
    ensures all_grow_not { (out : List Scope) → AllGrow out out }
    ensures all_grow_twice { (xs ys zs : List Scope) → AllGrow xs ys → AllGrow ys zs → AllGrow xs zs }
    ensures reach_kept { (ds : Decls) (out new : List Scope) → AllGrow out new → Reach ds empty out → Reach ds empty new }
{}

/// States what an index within range refers to, and that a scope that grows keeps its indexes.
pub fn kept_law()
    // An index within range refers to its entry in the list.
    ensures type_found { (ts : List Tree) (i : ℕ) (t : Tree) → slice_get ts i ≡ Some t → type_at ts i ≡ t }
    ensures instance_found { (bs : List Bound) (i : ℕ) (b : Bound) → slice_get bs i ≡ Some b → bound_at bs i ≡ b }
    ensures scope_found { (cs : List Scope) (k : ℕ) (c : Scope) → slice_get cs k ≡ Some c → scope_at cs k ≡ c }
    ensures type_there { (ts : List Tree) (i : ℕ) → i < length ts → slice_get ts i ≡ Some (type_at ts i) }
    ensures instance_there { (bs : List Bound) (i : ℕ) → i < length bs → slice_get bs i ≡ Some (bound_at bs i) }
    // A scope that grows keeps its entries.
    ensures types { (c d : Scope) (i : ℕ) (t : Tree) → Grows c d → slice_get c.types i ≡ Some t → slice_get d.types i ≡ Some t }
    ensures instances { (c d : Scope) (i : ℕ) (b : Bound) → Grows c d → slice_get c.instances i ≡ Some b → slice_get d.instances i ≡ Some b }
    ensures core_types { (c d : Scope) (i : ℕ) (t : Tree) → Grows c d → slice_get c.core_types i ≡ Some t → slice_get d.core_types i ≡ Some t }
    ensures modules { (c d : Scope) (i : ℕ) → Grows c d → i < c.modules → i < d.modules }
    ensures components { (c d : Scope) (i : ℕ) → Grows c d → i < c.components → i < d.components }
{}

/// States that a type has one tree in all scopes if it refers to none of them.
pub fn within_law()
    ensures alone { (t : TypeDef) (c d : Scope) (out new : List Scope) → TypeStaysWithin t 0 → tree_of t d new ≡ tree_of t c out }
    // The innermost scopes may be used. Those further out change nothing.
    ensures within { (t : TypeDef) (c : Scope) (own out new : List Scope) → TypeStaysWithin t (suc (length own)) → tree_of t c (own ++ new) ≡ tree_of t c (own ++ out) }
    ensures declared_within { (ds : Decls) (own out new : List Scope) → StayWithin ds (suc (length own)) → after ds empty (own ++ new) ≡ after ds empty (own ++ out) }
    ensures one_more { (ds : List Decl) (d : Decl) (n : ℕ) → StayWithin (decls ds) n → StaysWithin d n → StayWithin (decls (ds ++ d ∷ [])) n }
{}

/// States which imports and exports there are after one more item or declaration.
pub fn listed_law()
    ensures imports { (items : List Item) (x : Item) → (meaning (items ++ x ∷ [])).imports ≡ (meaning items).imports ++ imports_added (meaning items) x }
    ensures exports { (items : List Item) (x : Item) → (meaning (items ++ x ∷ [])).exports ≡ (meaning items).exports ++ exports_added (meaning items) x }
    // Items do not change the imports and exports of the root's scope: the root lists them itself.
    ensures scope_imports { (items more : List Item) → (meaning (items ++ more)).scope.imports ≡ (meaning items).scope.imports }
    ensures scope_exports { (items more : List Item) → (meaning (items ++ more)).scope.exports ≡ (meaning items).scope.exports }
    // The imports and exports of the scope of declarations.
    ensures declared_imports { (ds : List Decl) (d : Decl) (out : List Scope) → (after (decls (ds ++ d ∷ [])) empty out).imports ≡ imports_declared (after (decls ds) empty out) d }
    ensures declared_exports { (ds : List Decl) (d : Decl) (out : List Scope) → (after (decls (ds ++ d ∷ [])) empty out).exports ≡ exports_declared (after (decls ds) empty out) d }
{}

/// States that what has fewer than 2 ^ 32 bytes fits. What does not fit has at least 2 ^ 32 bytes.
pub fn fit_law()
    ensures items_fit { (items : List Item) → length (bytes_of items) < 2 ^ 32 → Fits items }
    ensures declarations_fit { (ds : List Decl) → length (decls_bytes (decls ds)) < 2 ^ 32 → DeclarationsFit ds }
    ensures module_fits { (ds : List ModuleDecl) → length (flat_map module_decl_bytes ds) < 2 ^ 32 → ModuleFits ds }
    ensures items_large { (items : List Item) → ¬ Fits items → 2 ^ 32 ≤ length (bytes_of items) }
    ensures declarations_large { (ds : List Decl) → ¬ DeclarationsFit ds → 2 ^ 32 ≤ length (decls_bytes (decls ds)) }
    ensures module_large { (ds : List ModuleDecl) → ¬ ModuleFits ds → 2 ^ 32 ≤ length (flat_map module_decl_bytes ds) }
{}

/// States what the index of a new alias, import, export or instantiation refers to at the root.
pub fn added_law()
    ensures alias_type { (items : List Item) (i : ℕ) (n : Name) → type_added items (alias_item (export_alias s.Type i n)) ≡ aliased_type (bound_at (meaning items).scope.instances i) n }
    ensures alias_instance { (items : List Item) (i : ℕ) (n : Name) → instance_added items (alias_item (export_alias s.Instance i n)) ≡ aliased_instance (bound_at (meaning items).scope.instances i) n }
    ensures outer_type { (items : List Item) (k i : ℕ) → type_added items (alias_item (outer_alias s.Type k i)) ≡ seen_from k (type_at (root_scope (meaning items) k).types i) }
    ensures import_equal { (items : List Item) (n : Name) (i : ℕ) → type_added items (import_item n (e.Equal i)) ≡ type_at (meaning items).scope.types i }
    ensures import_fresh { (items : List Item) (n : Name) → type_added items (import_item n e.Fresh) ≡ resource (record { out = 0; side = imported; path = position (length (meaning items).imports) ∷ [] }) }
    ensures import_instance { (items : List Item) (n : Name) (i : ℕ)
        → instance_added items (import_item n (e.Instance i)) ≡ record { type = type_at (meaning items).scope.types i; side = imported; path = position (length (meaning items).imports) ∷ [] } }
    ensures export_type { (items : List Item) (n : Name) (i : ℕ) → type_added items (export_item n s.Type i) ≡ type_at (meaning items).scope.types i }
    ensures export_instance { (items : List Item) (n : Name) (i : ℕ) → instance_added items (export_item n s.Instance i) ≡ bound_at (meaning items).scope.instances i }
    ensures instantiation { (items : List Item) (i : ℕ) (args : List (Name × OfSort × ℕ)) → instance_added items (instantiate i args) ≡ unbound }
{}

/// States what the index of a new alias, import or export refers to in a component type or an instance type.
pub fn declared_law()
    ensures alias_type { (ds : List Decl) (i : ℕ) (n : Name) (out : List Scope) → type_declared ds (alias_decl (export_alias s.Type i n)) out ≡ aliased_type (bound_at (after (decls ds) empty out).instances i) n }
    ensures alias_instance { (ds : List Decl) (i : ℕ) (n : Name) (out : List Scope) → instance_declared ds (alias_decl (export_alias s.Instance i n)) out ≡ aliased_instance (bound_at (after (decls ds) empty out).instances i) n }
    ensures outer_type { (ds : List Decl) (k i : ℕ) (out : List Scope) → type_declared ds (alias_decl (outer_alias s.Type k i)) out ≡ seen_from k (type_at (scope_at (after (decls ds) empty out ∷ out) k).types i) }
    ensures import_equal { (ds : List Decl) (n : Name) (i : ℕ) (out : List Scope) → type_declared ds (import_decl n (e.Equal i)) out ≡ type_at (after (decls ds) empty out).types i }
    ensures import_fresh { (ds : List Decl) (n : Name) (out : List Scope) → type_declared ds (import_decl n e.Fresh) out ≡ resource (record { out = 0; side = imported; path = named n ∷ [] }) }
    ensures import_instance { (ds : List Decl) (n : Name) (i : ℕ) (out : List Scope)
        → instance_declared ds (import_decl n (e.Instance i)) out ≡ record { type = type_at (after (decls ds) empty out).types i; side = imported; path = named n ∷ [] } }
    ensures export_equal { (ds : List Decl) (n : Name) (i : ℕ) (out : List Scope) → type_declared ds (export_decl n (e.Equal i)) out ≡ type_at (after (decls ds) empty out).types i }
    ensures export_fresh { (ds : List Decl) (n : Name) (out : List Scope) → type_declared ds (export_decl n e.Fresh) out ≡ resource (record { out = 0; side = exported; path = named n ∷ [] }) }
    ensures export_instance { (ds : List Decl) (n : Name) (i : ℕ) (out : List Scope)
        → instance_declared ds (export_decl n (e.Instance i)) out ≡ record { type = type_at (after (decls ds) empty out).types i; side = exported; path = named n ∷ [] } }
{}

/// States that items or declarations have a meaning if those before the last have one, and the last one has.
///
/// Growth of the scopes keeps the meaning and the trees. A function with a result has no tree of one without.
pub fn has_meaning_law()
    ensures one_more { (items : List Item) (x : Item) → HasMeaning items → ItemHasMeaning (meaning items) x → HasMeaning (items ++ x ∷ []) }
    ensures before { (items : List Item) (x : Item) → HasMeaning (items ++ x ∷ []) → HasMeaning items × ItemHasMeaning (meaning items) x }
    ensures declared_one_more { (ds : List Decl) (d : Decl) (out : List Scope) → DeclsHaveMeaning (decls ds) empty out → DeclHasMeaning d (after (decls ds) empty out) out → DeclsHaveMeaning (decls (ds ++ d ∷ [])) empty out }
    ensures declared_before { (ds : List Decl) (d : Decl) (out : List Scope) → DeclsHaveMeaning (decls (ds ++ d ∷ [])) empty out → DeclsHaveMeaning (decls ds) empty out × DeclHasMeaning d (after (decls ds) empty out) out }
    ensures import_nothing { (ds : List Decl) (d : Decl) → ImportNothing (decls ds) → ImportNothing (decls (d ∷ [])) → ImportNothing (decls (ds ++ d ∷ [])) }
    // Growth of the scopes.
    ensures declared_kept { (ds : Decls) (out new : List Scope) → AllGrow out new → DeclsHaveMeaning ds empty out → DeclsHaveMeaning ds empty new }
    ensures type_kept { (t : TypeDef) (c d : Scope) (out new : List Scope) → Grows c d → AllGrow out new → TypeHasMeaning t c out → TypeHasMeaning t d new }
    ensures tree_kept { (t : TypeDef) (c d : Scope) (out new : List Scope) → Grows c d → AllGrow out new → TypeHasMeaning t c out → tree_of t d new ≡ tree_of t c out }
    // Outer aliases refer to indexes that exist.
    ensures reach { (ds : Decls) (out : List Scope) → DeclsHaveMeaning ds empty out → Reach ds empty out }
    ensures outcomes { (a b : Bool) (ps qs : List (Name × OfValType)) (v : OfValType) (c d : Scope) (out new : List Scope) → TypeHasMeaning (func_def a ps (Some v)) c out
        → tree_of (func_def a ps (Some v)) c out ≡ tree_of (func_def b qs None) d new → ⊥ }
{}

/// States that a new function type of a core module type has the next index, and keeps it.
pub fn module_law()
    ensures new_function { (ds : List ModuleDecl) (params results : List OfCoreType) (make : List OfCoreType → List OfCoreType → CoreItem)
        → func_at (module_after no_module (ds ++ module_func params results ∷ [])).funcs (function_types ds) make ≡ make params results }
    ensures earlier { (ds more : List ModuleDecl) (i : ℕ) (make : List OfCoreType → List OfCoreType → CoreItem) → i < function_types ds
        → func_at (module_after no_module (ds ++ more)).funcs i make ≡ func_at (module_after no_module ds).funcs i make }
{}

// Shapes keep what they are given, and show it.
use crate::constants::primitive_constants;
use crate::types::adding::{BOOL, Refusal, U32};
use crate::types::asserts::{assert_shown, assert_told};
use std::alloc::Global;
use std::process::Abort;
use wac_types_collection::collection::*;

fn names_given_twice_are_refused(alloc: Global) -> Result<bool, Refusal> {
    match Named::from_pairs(alloc, &[("x", BOOL), ("y", U32), ("x", U32)]) {
        Err(ShapeError::NameTwice) => {}
        Err(error) => return Err(error.into()),
        Ok(_) => return Ok(false),
    }
    match Labels::new(alloc, &["b", "a", "b"]) {
        Err(ShapeError::NameTwice) => Ok(true),
        Err(error) => Err(error.into()),
        Ok(_) => Ok(false),
    }
}

// The names `x`, `y` and `z`.
fn are_found(named: &Named<ValueType>) -> bool {
    let found = named.get("z").copied() == Some(BOOL) && named.get("w").is_none();
    found && matches!(named.get_full("y"), Some((1, _))) && named.len() == 3
}

// Whether a name is inserted, once more where memory was refused; the names are as before then.
fn is_inserted(named: &mut Named<ValueType>, alloc: Global, name: &str) -> bool {
    let count = named.len();
    if named.insert(alloc, name, BOOL).is_ok() {
        return true;
    }
    let is_absent = named.get(name).is_none() && named.len() == count;
    is_absent && named.insert(alloc, name, BOOL).is_ok()
}

fn names_are_inserted_once(alloc: Global) -> Result<bool, Refusal> {
    let mut named = Named::from_pairs(alloc, &[("x", BOOL), ("y", U32)])?;
    let twice = named.insert(alloc, "y", BOOL);
    let inserted = is_inserted(&mut named, alloc, "z");
    Ok(inserted && are_found(&named) && twice == Err(ShapeError::NameTwice))
}

const F: ItemKind = ItemKind::Func(FuncTypeId(0));

// An interface that exports one function.
fn exporting(alloc: Global, name: &str) -> Result<Interface, ShapeError> {
    Interface::new(alloc, Some("n:p/i"), &[(name, F)])
}

fn exports_f(interface: &Interface) -> bool {
    for (name, kind) in &interface.exports {
        if name != "f" || *kind != F {
            return false;
        }
    }
    true
}

fn shapes_compare_what_they_hold(alloc: Global) -> Result<bool, Refusal> {
    let one = exporting(alloc, "f")?;
    let same = one == exporting(alloc, "f")?;
    Ok(same && one != exporting(alloc, "g")? && exports_f(&one))
}

fn labels_keep_their_order(alloc: Global) -> Result<bool, Refusal> {
    let labels = Labels::new(alloc, &["b", "a"])?;
    Ok(labels.len() == 2 && labels.name_at(0) == "b")
}

fn sequences_keep_their_order(alloc: Global) -> Result<bool, Refusal> {
    let parts = Sequence::new(alloc, &[U32, BOOL])?;
    let mut last = None;
    for part in &parts {
        last = Some(*part);
    }
    Ok(last == Some(BOOL) && parts.iter().next() == Some(&U32))
}

fn fields_keep_their_order(alloc: Global) -> Result<bool, Refusal> {
    let record = Record::new(alloc, &[("y", U32), ("x", BOOL)])?;
    Ok(matches!(record.fields.get_full("x"), Some((1, _))))
}

fn cases_have_their_types(alloc: Global) -> Result<bool, Refusal> {
    let variant = Variant::new(alloc, &[("n", None), ("s", Some(U32))])?;
    Ok(matches!(variant.cases.get("s"), Some(Some(_))))
}

fn flags_keep_their_order(alloc: Global) -> Result<bool, Refusal> {
    let flags = Flags::new(alloc, &["b", "a"])?;
    Ok(flags.0.len() == 2 && flags.0.name_at(0) == "b")
}

fn texts_are_kept(alloc: Global) -> Result<bool, Refusal> {
    let text = Text::new(alloc, "a")?;
    let copy = text.clone()?;
    Ok(text.as_str() == "a" && copy == text)
}

fn copies_are_alike(alloc: Global) -> Result<bool, Refusal> {
    let mut named: Named<ValueType> = Named::with_capacity(alloc, 2)?;
    named.insert(alloc, "x", BOOL)?;
    let copy = named.copied(alloc)?;
    Ok(copy == named && named.clone()? == copy)
}

// The primitive types.
const PRIMITIVES: [PrimitiveType; 14] = [
    PrimitiveType::Bool,
    PrimitiveType::S8,
    PrimitiveType::U8,
    PrimitiveType::S16,
    PrimitiveType::U16,
    PrimitiveType::S32,
    PrimitiveType::U32,
    PrimitiveType::S64,
    PrimitiveType::U64,
    PrimitiveType::F32,
    PrimitiveType::F64,
    PrimitiveType::Char,
    PrimitiveType::String,
    PrimitiveType::ErrorContext,
];

fn constants_are_primitive_types() -> bool {
    let constants = primitive_constants();
    for i in 0..14 {
        if constants[i] != ValueType::from(PRIMITIVES[i]) {
            return false;
        }
    }
    true
}

// What is told of a shape.
#[derive(Clone, Copy)]
enum Told {
    Twice,
    Inserted,
    Compared,
    Labels,
    Sequences,
    Fields,
    Cases,
    Flags,
    Texts,
    Copies,
    Constants,
}

const TOLD: &[(Told, &str)] = &[
    (Told::Twice, "given twice"),
    (Told::Inserted, "inserted once"),
    (Told::Compared, "compared"),
    (Told::Labels, "labels"),
    (Told::Sequences, "sequences"),
    (Told::Fields, "fields"),
    (Told::Cases, "cases"),
    (Told::Flags, "flags"),
    (Told::Texts, "texts"),
    (Told::Copies, "copies"),
    (Told::Constants, "constants"),
];

fn is_told(alloc: Global, told: Told) -> Result<bool, Refusal> {
    match told {
        Told::Twice => names_given_twice_are_refused(alloc),
        Told::Inserted => names_are_inserted_once(alloc),
        Told::Compared => shapes_compare_what_they_hold(alloc),
        Told::Labels => labels_keep_their_order(alloc),
        Told::Sequences => sequences_keep_their_order(alloc),
        Told::Fields => fields_keep_their_order(alloc),
        Told::Cases => cases_have_their_types(alloc),
        Told::Flags => flags_keep_their_order(alloc),
        Told::Texts => texts_are_kept(alloc),
        Told::Copies => copies_are_alike(alloc),
        Told::Constants => Ok(constants_are_primitive_types()),
    }
}

#[test]
fn shapes_keep_what_they_are_given(rt: HostRuntime) {
    for (told, what) in TOLD {
        let first = is_told(rt.alloc(), *told);
        let second = is_told(rt.alloc(), *told);
        assert_told(&rt, first, second, what);
    }
}

fn names_show_as_a_map(rt: &(impl Abort + AllocGlobal)) {
    let interface = exporting(rt.alloc(), "f").expect(rt, "an interface");
    assert_shown(rt, &interface.exports, "{\"f\": Func(FuncTypeId(0))}");
}

fn labels_show_as_a_list(rt: &(impl Abort + AllocGlobal)) {
    let cases = Enum::new(rt.alloc(), &["a", "b"]).expect(rt, "an enumeration");
    assert_shown(rt, &cases, "Enum([\"a\", \"b\"])");
    assert!(rt; cases.0.iter().count() == 2);
}

fn imports_show_as_a_map(rt: &(impl Abort + AllocGlobal)) {
    let mut imports = CoreImports::new(rt.alloc());
    assert!(rt; imports.is_empty());
    for (name, value) in [("f", true), ("g", false)] {
        imports
            .insert(rt.alloc(), "m", name, value)
            .expect(rt, "an import");
    }
    let want = "{(\"m\", \"f\"): true, (\"m\", \"g\"): false}";
    assert_shown(rt, &imports, want);
}

fn collections_show_their_items(rt: &(impl Abort + AllocGlobal)) {
    let mut types = Types::new(rt.alloc());
    types
        .add_defined_type(DefinedType::List(BOOL))
        .expect(rt, "a list");
    let lists = "resources: [], funcs: [], defined: [List(Primitive(Bool))]";
    let want = format!(in rt.alloc();
        "Types {{ {lists}, interfaces: [], worlds: [], modules: [] }}"
    );
    assert_shown(rt, &types, want.expect(rt, "a text").as_str());
}

#[test]
fn shapes_show_what_they_hold(rt: HostRuntime) {
    names_show_as_a_map(&rt);
    labels_show_as_a_list(&rt);
    imports_show_as_a_map(&rt);
    collections_show_their_items(&rt);
}

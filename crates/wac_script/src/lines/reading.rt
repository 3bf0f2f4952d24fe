//! What the words of a line say.
ghost use Rattle.std.specs.Prelude.{◌≡◌, ◌≢◌, ◌↔◌, ◌∷◌, [], List, MatchOption, IsTrue, codes};
ghost use Rattle.wac_script.specs.lines.Words.{Word, spelled};
ghost use Rattle.wac_script.specs.lines.Says.{SaysShape, SaysCoreItem, SaysCall, SaysChange, SaysMade, SaysLine, SaysNoLine};
ghost use Rattle.wac_script.specs.lines.Called.{shape_calls, type_calls, graph_calls, IsOneOf, IsCall, IsCalled};
ghost use Rattle.wac_script.specs.private.Unsaid.{SaysNoShape, SaysNoCoreItem, SaysNoTypeCall, SaysNoNodeCall, SaysNoCall, SaysNoChange, SaysNothingMade};

use crate::lines::calls::{Call, Change, Line, PackageWords};
use crate::lines::shapes::{CoreItem, Shape};
use crate::lines::words::halves;

impl<'a, 'b> Line<'a, 'b> {
    /// Returns what the words of a line say. `None` if no call takes them.
    pub(crate) fn read(words: &'b [&'a str]) -> Option<Line<'a, 'b>>
        ensures { MatchOption result (SaysNoLine (spelled words.now)) (λ line. SaysLine (spelled words.now) line) }
    {
        match words {
            [] => Some(Line::Nothing),
            [first, rest @ ..] => read_some(first, rest),
        }
    }
}

/// Returns the words after `=`, if the words begin with it.
fn after_equals<'a, 'b>(words: &'b [&'a str]) -> Option<&'b [&'a str]>
    ensures { MatchOption result ((rest : List Word) → spelled words.now ≢ codes "=" ∷ rest) (λ rest. spelled words.now ≡ codes "=" ∷ spelled rest.now) }
{
    match words {
        ["=", rest @ ..] => Some(rest),
        _ => None,
    }
}

/// Reads a line that has words.
fn read_some<'a, 'b>(first: &'a str, rest: &'b [&'a str]) -> Option<Line<'a, 'b>>
    ensures { MatchOption result (SaysNoLine (first.now ∷ spelled rest.now)) (λ line. SaysLine (first.now ∷ spelled rest.now) line) }
{
    if let Some(made) = after_equals(rest) {
        return read_made(first, made);
    }
    match read_change(first, rest) {
        Some(change) => Some(Line::Change(change)),
        None => None,
    }
}

/// Returns the word of a line that names its call. It is empty if the line has no words.
pub(crate) fn called<'a>(words: &[&'a str]) -> &'a str
    ensures { spelled words.now ≢ [] → IsCalled (spelled words.now) result.now }
{
    match words {
        [_, "=", call, ..] => *call,
        [call, ..] => *call,
        [] => "",
    }
}

/// Whether a call that makes a value type has the name.
fn is_shape_call(word: &str) -> bool
    ensures { IsTrue result ↔ IsOneOf shape_calls word.now }
{
    match word {
        "record" | "variant" | "enum" | "flags" | "tuple" | "list" => true,
        "option" | "result" | "type" | "stream" | "future" => true,
        _ => false,
    }
}

/// Whether a call that makes another type, or an import or export of core modules, has the name.
fn is_type_call(word: &str) -> bool
    ensures { IsTrue result ↔ IsOneOf type_calls word.now }
{
    match word {
        "resource" | "func" | "async" | "interface" | "world" | "core" | "module" => true,
        _ => false,
    }
}

/// Whether a call on the graph has the name.
fn is_graph_call(word: &str) -> bool
    ensures { IsTrue result ↔ IsOneOf graph_calls word.now }
{
    match word {
        "package" | "new" | "alias" | "import" | "define" => true,
        "set" | "export" | "name" | "plug" => true,
        _ => false,
    }
}

/// Whether a call has the name.
pub(crate) fn is_call(word: &str) -> bool
    ensures { IsTrue result ↔ IsCall word.now }
{
    if is_shape_call(word) || is_type_call(word) {
        return true;
    }
    is_graph_call(word)
}

/// Returns the word, if there is one alone.
fn one<'a>(words: &[&'a str]) -> Option<&'a str>
    ensures { MatchOption result ((w : Word) → spelled words.now ≢ w ∷ []) (λ w. spelled words.now ≡ w.now ∷ []) }
{
    match words {
        [word] => Some(*word),
        _ => None,
    }
}

/// Returns the two words, if there are two.
fn two<'a>(words: &[&'a str]) -> Option<(&'a str, &'a str)>
    ensures { MatchOption result ((w : Word) (v : Word) → spelled words.now ≢ w ∷ v ∷ []) (λ w. spelled words.now ≡ w.0.now ∷ w.1.now ∷ []) }
{
    match words {
        [first, second] => Some((*first, *second)),
        _ => None,
    }
}

/// Reads a list of any length, or of a fixed one.
fn read_list<'a, 'b>(words: &'b [&'a str]) -> Option<Shape<'a, 'b>>
    ensures { MatchOption result (SaysNoShape (codes "list" ∷ spelled words.now)) (λ shape. SaysShape (codes "list" ∷ spelled words.now) shape) }
{
    match words {
        [element] => Some(Shape::List(*element)),
        [element, length] => Some(Shape::FixedSizeList {
            element: *element,
            length: *length,
        }),
        _ => None,
    }
}

/// Reads a value type, by the name of its call and the other words.
fn read_shape<'a, 'b>(call: &str, words: &'b [&'a str]) -> Option<Shape<'a, 'b>>
    ensures { MatchOption result (SaysNoShape (call.now ∷ spelled words.now)) (λ shape. SaysShape (call.now ∷ spelled words.now) shape) }
{
    match call {
        "record" => Some(Shape::Record(words)),
        "variant" => Some(Shape::Variant(words)),
        "enum" => Some(Shape::Enum(words)),
        "flags" => Some(Shape::Flags(words)),
        "tuple" => Some(Shape::Tuple(words)),
        "list" => read_list(words),
        "option" => Some(Shape::Option(one(words)?)),
        "result" => {
            let (ok, err) = two(words)?;
            Some(Shape::Result { ok, err })
        }
        "type" => Some(Shape::Alias(one(words)?)),
        "stream" => Some(Shape::Stream(one(words)?)),
        "future" => Some(Shape::Future(one(words)?)),
        _ => None,
    }
}

/// Reads a table.
fn read_table<'a, 'b>(words: &'b [&'a str]) -> Option<CoreItem<'a, 'b>>
    ensures { MatchOption result (SaysNoCoreItem (codes "table" ∷ spelled words.now)) (λ item. SaysCoreItem (codes "table" ∷ spelled words.now) item) }
{
    let [element, initial, maximum, marks @ ..] = words else {
        return None;
    };
    Some(CoreItem::Table {
        element: *element,
        initial: *initial,
        maximum: *maximum,
        marks,
    })
}

/// Reads a memory.
fn read_memory<'a, 'b>(words: &'b [&'a str]) -> Option<CoreItem<'a, 'b>>
    ensures { MatchOption result (SaysNoCoreItem (codes "memory" ∷ spelled words.now)) (λ item. SaysCoreItem (codes "memory" ∷ spelled words.now) item) }
{
    let [initial, maximum, marks @ ..] = words else {
        return None;
    };
    Some(CoreItem::Memory {
        initial: *initial,
        maximum: *maximum,
        marks,
    })
}

/// Reads a global.
fn read_global<'a, 'b>(words: &'b [&'a str]) -> Option<CoreItem<'a, 'b>>
    ensures { MatchOption result (SaysNoCoreItem (codes "global" ∷ spelled words.now)) (λ item. SaysCoreItem (codes "global" ∷ spelled words.now) item) }
{
    let [ty, marks @ ..] = words else {
        return None;
    };
    Some(CoreItem::Global { ty: *ty, marks })
}

/// Reads an import or export of a core module, by its sort and the other words.
fn read_core<'a, 'b>(sort: &str, words: &'b [&'a str]) -> Option<CoreItem<'a, 'b>>
    ensures { MatchOption result (SaysNoCoreItem (sort.now ∷ spelled words.now)) (λ item. SaysCoreItem (sort.now ∷ spelled words.now) item) }
{
    match sort {
        "func" => {
            let (params, results) = halves(words, "->");
            Some(CoreItem::Func { params, results })
        }
        "tag" => {
            let (params, results) = halves(words, "->");
            Some(CoreItem::Tag { params, results })
        }
        "table" => read_table(words),
        "memory" => read_memory(words),
        "global" => read_global(words),
        _ => None,
    }
}

/// Reads a resource, or an alias of one.
fn read_resource<'a, 'b>(words: &'b [&'a str]) -> Option<Call<'a, 'b>>
    ensures { MatchOption result (SaysNoCall (codes "resource" ∷ spelled words.now)) (λ call. SaysCall (codes "resource" ∷ spelled words.now) call) }
{
    match words {
        [name] => Some(Call::Resource(*name)),
        [name, source] => Some(Call::ResourceAlias {
            name: *name,
            source: *source,
        }),
        [name, source, owner] => Some(Call::OwnedAlias {
            name: *name,
            source: *source,
            owner: *owner,
        }),
        _ => None,
    }
}

/// Reads an async function.
fn read_async<'a, 'b>(words: &'b [&'a str]) -> Option<Call<'a, 'b>>
    ensures { MatchOption result (SaysNoCall (codes "async" ∷ spelled words.now)) (λ call. SaysCall (codes "async" ∷ spelled words.now) call) }
{
    let ["func", rest @ ..] = words else {
        return None;
    };
    let (params, results) = halves(rest, "->");
    Some(Call::AsyncFunc { params, results })
}

/// Reads an interface.
fn read_interface<'a, 'b>(words: &'b [&'a str]) -> Option<Call<'a, 'b>>
    ensures { MatchOption result (SaysNoCall (codes "interface" ∷ spelled words.now)) (λ call. SaysCall (codes "interface" ∷ spelled words.now) call) }
{
    let [id, items @ ..] = words else {
        return None;
    };
    Some(Call::Interface { id: *id, items })
}

/// Reads a resource, a function, an interface, a world or a core module.
fn read_type<'a, 'b>(call: &str, words: &'b [&'a str]) -> Option<Call<'a, 'b>>
    ensures { MatchOption result (SaysNoTypeCall (call.now ∷ spelled words.now)) (λ c. SaysCall (call.now ∷ spelled words.now) c) }
{
    match call {
        "resource" => read_resource(words),
        "func" => {
            let (params, results) = halves(words, "->");
            Some(Call::Func { params, results })
        }
        "async" => read_async(words),
        "interface" => read_interface(words),
        "world" => {
            let (imports, exports) = halves(words, "exports");
            Some(Call::World { imports, exports })
        }
        "module" => {
            let (imports, exports) = halves(words, "exports");
            Some(Call::Module { imports, exports })
        }
        _ => None,
    }
}

/// Reads a package.
fn read_package<'a, 'b>(words: &'b [&'a str]) -> Option<Call<'a, 'b>>
    ensures { MatchOption result (SaysNoCall (codes "package" ∷ spelled words.now)) (λ call. SaysCall (codes "package" ∷ spelled words.now) call) }
{
    let [name, version, file, world] = words else {
        return None;
    };
    Some(Call::Package(PackageWords {
        name: *name,
        version: *version,
        file: *file,
        world: *world,
    }))
}

/// Reads a package or a node.
fn read_node<'a, 'b>(call: &str, words: &'b [&'a str]) -> Option<Call<'a, 'b>>
    ensures { MatchOption result (SaysNoNodeCall (call.now ∷ spelled words.now)) (λ c. SaysCall (call.now ∷ spelled words.now) c) }
{
    match call {
        "package" => read_package(words),
        "new" => Some(Call::New(one(words)?)),
        "alias" => {
            let (node, export) = two(words)?;
            Some(Call::Alias { node, export })
        }
        "import" => {
            let (name, item) = two(words)?;
            Some(Call::Import { name, item })
        }
        "define" => {
            let (name, item) = two(words)?;
            Some(Call::Define { name, item })
        }
        _ => None,
    }
}

/// Reads a call that makes something, by its name and the other words.
fn read_call<'a, 'b>(call: &str, words: &'b [&'a str]) -> Option<Call<'a, 'b>>
    ensures { MatchOption result (SaysNoCall (call.now ∷ spelled words.now)) (λ c. SaysCall (call.now ∷ spelled words.now) c) }
{
    if let Some(shape) = read_shape(call, words) {
        return Some(Call::Shape(shape));
    }
    match read_type(call, words) {
        Some(call) => Some(call),
        None => read_node(call, words),
    }
}

/// Reads the words after `LABEL =`.
fn read_made<'a, 'b>(label: &'a str, words: &'b [&'a str]) -> Option<Line<'a, 'b>>
    ensures { MatchOption result (SaysNothingMade label.now (spelled words.now)) (λ line. SaysMade label.now (spelled words.now) line) }
{
    match words {
        ["core", sort, rest @ ..] => {
            let item = read_core(sort, rest)?;
            Some(Line::Core { label, item })
        }
        [call, rest @ ..] => {
            let call = read_call(call, rest)?;
            Some(Line::Make { label, call })
        }
        [] => None,
    }
}

/// Reads an argument that is set.
fn read_set<'a, 'b>(words: &'b [&'a str]) -> Option<Change<'a, 'b>>
    ensures { MatchOption result (SaysNoChange (codes "set" ∷ spelled words.now)) (λ change. SaysChange (codes "set" ∷ spelled words.now) change) }
{
    let [node, name, argument] = words else {
        return None;
    };
    Some(Change::Set {
        node: *node,
        name: *name,
        argument: *argument,
    })
}

/// Reads packages that are plugged.
fn read_plug<'a, 'b>(words: &'b [&'a str]) -> Option<Change<'a, 'b>>
    ensures { MatchOption result (SaysNoChange (codes "plug" ∷ spelled words.now)) (λ change. SaysChange (codes "plug" ∷ spelled words.now) change) }
{
    let [socket, plugs @ ..] = words else {
        return None;
    };
    Some(Change::Plug {
        socket: *socket,
        plugs,
    })
}

/// Reads a call without a label, by its name and the other words.
fn read_change<'a, 'b>(call: &str, words: &'b [&'a str]) -> Option<Change<'a, 'b>>
    ensures { MatchOption result (SaysNoChange (call.now ∷ spelled words.now)) (λ change. SaysChange (call.now ∷ spelled words.now) change) }
{
    match call {
        "set" => read_set(words),
        "export" => {
            let (node, name) = two(words)?;
            Some(Change::Export { node, name })
        }
        "name" => {
            let (node, name) = two(words)?;
            Some(Change::Name { node, name })
        }
        "plug" => read_plug(words),
        _ => None,
    }
}

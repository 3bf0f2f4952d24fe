//! What a line says.

use crate::lines::shapes::{CoreItem, Shape};

/// The words of a package.
#[derive(Clone, Copy)]
pub(crate) struct PackageWords<'a> {
    /// The name.
    pub name: &'a str,
    /// The version, or `_`.
    pub version: &'a str,
    /// The file of the component, or `hex:` and its bytes.
    pub file: &'a str,
    /// The label of the component's world.
    pub world: &'a str,
}

/// A call that makes something, by its words.
#[derive(Clone, Copy)]
pub(crate) enum Call<'a, 'b> {
    /// A value type.
    Shape(Shape<'a, 'b>),
    /// `resource NAME`
    Resource(&'a str),
    /// `resource NAME SOURCE`
    ResourceAlias {
        /// The name of the resource.
        name: &'a str,
        /// The label of the resource that is aliased.
        source: &'a str,
    },
    /// `resource NAME SOURCE OWNER`
    OwnedAlias {
        /// The name of the resource.
        name: &'a str,
        /// The label of the resource that is aliased.
        source: &'a str,
        /// The label of the interface that owns it.
        owner: &'a str,
    },
    /// `func NAME=TYPE .. -> TYPE`
    Func {
        /// The parameters `NAME=TYPE`.
        params: &'b [&'a str],
        /// The words after `->`.
        results: &'b [&'a str],
    },
    /// `async func NAME=TYPE .. -> TYPE`
    AsyncFunc {
        /// The parameters `NAME=TYPE`.
        params: &'b [&'a str],
        /// The words after `->`.
        results: &'b [&'a str],
    },
    /// `interface ID ITEM ..`
    Interface {
        /// The id, or `_`.
        id: &'a str,
        /// The used types and the exports.
        items: &'b [&'a str],
    },
    /// `world ITEM .. exports ITEM ..`
    World {
        /// The id and the used types, if there are some, and the imports.
        imports: &'b [&'a str],
        /// The exports.
        exports: &'b [&'a str],
    },
    /// `module from MODULE NAME=CORE .. exports NAME=CORE ..`
    Module {
        /// The imports, with `from` and the module's name before those of a module.
        imports: &'b [&'a str],
        /// The exports.
        exports: &'b [&'a str],
    },
    /// `package NAME VERSION FILE WORLD`
    Package(PackageWords<'a>),
    /// `new PACKAGE`
    New(&'a str),
    /// `alias NODE EXPORT`
    Alias {
        /// The label of the instance.
        node: &'a str,
        /// The name of the export.
        export: &'a str,
    },
    /// `import NAME ITEM`
    Import {
        /// The name of the import.
        name: &'a str,
        /// The item.
        item: &'a str,
    },
    /// `define NAME ITEM`
    Define {
        /// The name of the export.
        name: &'a str,
        /// The item whose type is defined.
        item: &'a str,
    },
}

/// A call that makes nothing which could have a label, by its words.
#[derive(Clone, Copy)]
pub(crate) enum Change<'a, 'b> {
    /// `set NODE NAME ARGUMENT`
    Set {
        /// The label of the instance.
        node: &'a str,
        /// The name of the import.
        name: &'a str,
        /// The label of the argument.
        argument: &'a str,
    },
    /// `export NODE NAME`
    Export {
        /// The label of the node.
        node: &'a str,
        /// The name of the export.
        name: &'a str,
    },
    /// `name NODE TEXT`
    Name {
        /// The label of the node.
        node: &'a str,
        /// The name of the node.
        name: &'a str,
    },
    /// `plug SOCKET PLUG ..`
    Plug {
        /// The label of the package whose imports are filled.
        socket: &'a str,
        /// The labels of the packages that fill them.
        plugs: &'b [&'a str],
    },
}

/// What a line says.
#[derive(Clone, Copy)]
pub(crate) enum Line<'a, 'b> {
    /// An empty line, or a comment.
    Nothing,
    /// `LABEL = CALL ..`
    Make {
        /// The label.
        label: &'a str,
        /// The call that makes what the label stands for.
        call: Call<'a, 'b>,
    },
    /// `LABEL = core ..`
    Core {
        /// The label.
        label: &'a str,
        /// The import or export of a core module that the label stands for.
        item: CoreItem<'a, 'b>,
    },
    /// A call without a label.
    Change(Change<'a, 'b>),
}

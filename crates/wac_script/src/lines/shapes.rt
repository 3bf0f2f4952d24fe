//! What a line says of value types, and of imports and exports of core modules.

/// A value type, by the words that say it.
#[derive(Clone, Copy)]
pub(crate) enum Shape<'a, 'b> {
    /// `record NAME=TYPE ..`
    Record(&'b [&'a str]),
    /// `variant NAME NAME=TYPE ..`
    Variant(&'b [&'a str]),
    /// `enum NAME ..`
    Enum(&'b [&'a str]),
    /// `flags NAME ..`
    Flags(&'b [&'a str]),
    /// `tuple TYPE ..`
    Tuple(&'b [&'a str]),
    /// `list TYPE`
    List(&'a str),
    /// `list TYPE LENGTH`
    FixedSizeList {
        /// The type of the elements.
        element: &'a str,
        /// How many there are.
        length: &'a str,
    },
    /// `option TYPE`
    Option(&'a str),
    /// `result TYPE TYPE`
    Result {
        /// The type of the `ok` payload, or `_`.
        ok: &'a str,
        /// The type of the `error` payload, or `_`.
        err: &'a str,
    },
    /// `type TYPE`
    Alias(&'a str),
    /// `stream TYPE`, or `stream _`
    Stream(&'a str),
    /// `future TYPE`, or `future _`
    Future(&'a str),
}

/// An import or export of a core module, by the words that say it.
#[derive(Clone, Copy)]
pub(crate) enum CoreItem<'a, 'b> {
    /// `func TYPE .. -> TYPE ..`
    Func {
        /// The types of the parameters.
        params: &'b [&'a str],
        /// The types of the results.
        results: &'b [&'a str],
    },
    /// `tag TYPE .. -> TYPE ..`
    Tag {
        /// The types of the parameters.
        params: &'b [&'a str],
        /// The types of the results.
        results: &'b [&'a str],
    },
    /// `table ELEMENT MIN MAX MARK ..`
    Table {
        /// The type of the elements.
        element: &'a str,
        /// The size at first.
        initial: &'a str,
        /// The greatest size, or `_`.
        maximum: &'a str,
        /// `64` and `shared`.
        marks: &'b [&'a str],
    },
    /// `memory MIN MAX MARK ..`
    Memory {
        /// The number of pages at first.
        initial: &'a str,
        /// The greatest number of pages, or `_`.
        maximum: &'a str,
        /// `64`, `shared` and `page=LOG2`.
        marks: &'b [&'a str],
    },
    /// `global TYPE MARK ..`
    Global {
        /// The type of the value.
        ty: &'a str,
        /// `mut` and `shared`.
        marks: &'b [&'a str],
    },
}

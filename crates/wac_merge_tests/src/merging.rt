//! Which imports are one, which do not agree, and where resources are bound.
ghost use Rattle.std.specs.Prelude.{◌≡◌, true, IfOk};
ghost use Rattle.wac_merge_classes.specs.entries.Bindings.{AreHeld};

use crate::merged::Check::{Bound, Canonical, Differ, Imports, Lists, Resource, Unbound};
use crate::merged::{Case, assert_merged};
use crate::rows::Row::{Enumeration, Instance, Plain, Telling, TypeOf};
use crate::rows::{Item, Items, Row, assert_row};
use std::alloc::{AllocError, Global};
use std::process::Abort;
use wac_merge::{MergeFault, TypeAggregator};
use wac_types::{ItemKind, Types};

// An aggregator that is asked for these, or that memory was refused.
fn aggregated(
    alloc: Global,
    rt: &impl Abort,
    types: &Types,
    asked: &[(&str, ItemKind)],
) -> Result<TypeAggregator, AllocError>
    ensures { IfOk result (λ a. AreHeld types.now a.entries) }
{
    let mut aggregator = TypeAggregator::new(alloc);
    for i in 0..asked.len() {
        let (name, kind) = asked[i];
        assert!(rt; types.contains(kind.ty()));
        aggregator = aggregator.aggregate(name, types, kind)?;
    }
    Ok(aggregator)
}

// What `finish` answers where these are asked for, once.
fn finished_once(
    alloc: Global,
    rt: &impl Abort,
    types: &Types,
    asked: &[(&str, ItemKind)],
) -> Result<TypeAggregator, MergeFault>
    ensures { IfOk result (λ merged. merged.is_finished ≡ true) }
{
    match aggregated(alloc, rt, types, asked) {
        Ok(aggregator) => aggregator.finish(types),
        Err(_) => Err(MergeFault::OutOfMemory),
    }
}

// What `finish` answers where these are asked for. If memory is refused, the aggregator is consumed, and another answers the same
// as if memory had not been refused.
pub(crate) fn finished(
    alloc: Global,
    rt: &impl Abort,
    types: &Types,
    asked: &[(&str, ItemKind)],
) -> Result<TypeAggregator, MergeFault>
    ensures { IfOk result (λ merged. merged.is_finished ≡ true) }
{
    match finished_once(alloc, rt, types, asked) {
        Err(MergeFault::OutOfMemory) => finished_once(alloc, rt, types, asked),
        answer => answer,
    }
}

// Types, what is asked for of them, and the fault that is answered.
struct Refusal {
    rows: &'static [Row],
    asked: &'static [Item],
    want: &'static str,
}

const REFUSALS: &[Refusal] = &[
    // Functions of one name are to be equal.
    Refusal {
        rows: &[Plain, Telling],
        asked: &[("x", 0), ("x", 1)],
        want: "0 and 1 differ at ``",
    },
    // The first export that differs is named.
    Refusal {
        rows: &[
            Plain,
            Telling,
            Instance(None, &[], &[("f", 0)]),
            Instance(None, &[], &[("g", 0)]),
            Instance(None, &[], &[("g", 1)]),
        ],
        asked: &[("a:b/c@0.2.0", 2), ("a:b/c@0.2.1", 3), ("a:b/c@0.2.2", 4)],
        want: "1 and 2 differ at `g`",
    },
    // Two instances that export `i`, an instance that exports `f`; the second `f` is another function. The names that lead to
    // what differs are joined.
    Refusal {
        rows: &[
            Plain,
            Telling,
            Instance(None, &[], &[("f", 0)]),
            Instance(None, &[], &[("f", 1)]),
            Instance(None, &[], &[("i", 2)]),
            Instance(None, &[], &[("i", 3)]),
        ],
        asked: &[("x", 4), ("x", 5)],
        want: "0 and 1 differ at `i/f`",
    },
    // Resources of one name that two other imports bind first.
    Refusal {
        rows: &[
            Row::Resource("r"),
            Instance(Some("n:p/a"), &[], &[("r", 0)]),
            Row::Resource("r"),
            Instance(Some("n:p/b"), &[], &[("r", 2)]),
        ],
        asked: &[("n:p/a", 1), ("n:p/b", 3), ("r", 0), ("r", 2)],
        want: "2 and 3 differ at ``",
    },
    // A resource that an import before them binds, and one that no other binds.
    Refusal {
        rows: &[
            Row::Resource("r"),
            Instance(Some("n:p/a"), &[], &[("r", 0)]),
            Row::Resource("r"),
        ],
        asked: &[("n:p/a", 1), ("r", 0), ("r", 2)],
        want: "1 and 2 differ at ``",
    },
    // Imports that use each other.
    Refusal {
        rows: &[
            Enumeration("a"),
            Enumeration("b"),
            Instance(Some("a:b/y@1.0.0"), &[], &[("t", 0)]),
            Instance(Some("a:b/x@1.0.0"), &[("t", 2, None)], &[("t", 0)]),
            Instance(Some("a:b/x@1.1.0"), &[], &[("u", 1)]),
            Instance(Some("a:b/y@1.1.0"), &[("u", 4, None)], &[("u", 1)]),
        ],
        asked: &[
            ("a:b/y@1.0.0", 2),
            ("a:b/x@1.0.0", 3),
            ("a:b/x@1.1.0", 4),
            ("a:b/y@1.1.0", 5),
        ],
        want: "`a:b/y@1.1.0` uses itself",
    },
];

// What a fault names.
fn named(rt: &impl Abort, alloc: Global, fault: MergeFault) -> String {
    let text = match fault {
        MergeFault::Disagree {
            first,
            second,
            export,
        } => format!(in alloc; "{first} and {second} differ at `{export}`"),
        MergeFault::UseEachOther { import } => format!(in alloc; "`{import}` uses itself"),
        MergeFault::OutOfMemory => return String::new(alloc),
    };
    text.expect(rt, "a text")
}

// What the fault names that is answered.
fn refused(rt: &impl Abort, alloc: Global, refusal: &Refusal) -> String {
    let items = Items::new(rt, alloc, refusal.rows);
    let asked = items.asked(rt, refusal.asked);
    match finished(alloc, rt, &items.types, &asked) {
        Ok(_) => panic!(rt; "a merge"),
        Err(fault) => named(rt, alloc, fault),
    }
}

#[test]
fn imports_that_cannot_be_merged_are_refused(rt: HostRuntime) {
    for refusal in REFUSALS {
        let text = refused(&rt, rt.alloc(), refusal);
        assert_row(&rt, text.as_str() == refusal.want, refusal.want);
    }
}

const MERGED: &[Case] = &[
    Case {
        name: "versions on one track are one import",
        rows: &[
            Plain,
            Instance(None, &[], &[("f", 0)]),
            Instance(None, &[], &[("g", 0)]),
        ],
        asked: &[("a:b/c@0.2.0", 1), ("a:b/c@0.2.3", 2), ("a:b/c@0.3.0", 2)],
        checks: &[
            Imports(&["a:b/c@0.2.3", "a:b/c@0.3.0"]),
            Lists(&["a:b/c@0.2.3"], &["f", "g"]),
            Lists(&["a:b/c@0.3.0"], &["g"]),
            Canonical("a:b/c@0.2.0", "a:b/c@0.2.3"),
            Canonical("a:b/c@0.2.1", "a:b/c@0.2.1"),
        ],
    },
    Case {
        name: "one interface under two names is two imports",
        rows: &[Plain, Instance(None, &[], &[("f", 0)])],
        asked: &[("primary", 1), ("secondary", 1)],
        checks: &[
            Imports(&["primary", "secondary"]),
            Lists(&["secondary"], &["f"]),
        ],
    },
    Case {
        name: "what is no instance is joined by its name alone",
        rows: &[Instance(None, &[], &[]), TypeOf(0)],
        asked: &[("a:b/d@0.2.0", 1), ("a:b/d@0.2.9", 0), ("a:b/d@0.2.0", 1)],
        checks: &[Imports(&["a:b/d@0.2.9", "a:b/d@0.2.0"])],
    },
    Case {
        name: "resources of one name keep their interfaces",
        rows: &[
            Row::Resource("r"),
            Instance(Some("n:p/a"), &[], &[("r", 0)]),
            Row::Resource("r"),
            Instance(Some("n:p/b"), &[], &[("r", 2)]),
            Instance(
                Some("n:p/c"),
                &[("r", 1, None), ("s", 3, Some("r"))],
                &[("r", 0), ("s", 2)],
            ),
        ],
        asked: &[("n:p/a", 1), ("n:p/b", 3), ("n:p/c", 4)],
        checks: &[
            Imports(&["n:p/a", "n:p/b", "n:p/c"]),
            Resource("n:p/a", "r", Some(&["n:p/a", "r"])),
            Resource("n:p/b", "r", Some(&["n:p/b", "r"])),
            Differ(&["n:p/a", "r"], &["n:p/b", "r"]),
            Resource("n:p/c", "r", None),
        ],
    },
    // A resource that is imported itself, one that an instance exports, and one that no import binds.
    Case {
        name: "resources are bound where their class is imported",
        rows: &[
            Row::Resource("s"),
            Row::Resource("r"),
            Row::Resource("r"),
            Instance(Some("n:p/i"), &[], &[("r", 1)]),
        ],
        asked: &[("s", 0), ("n:p/i", 3)],
        checks: &[
            Imports(&["n:p/i", "s"]),
            Bound(1, 0, &["r"]),
            Bound(0, 1, &[]),
            Unbound(2),
        ],
    },
];

#[test]
fn imports_are_merged_by_their_classes(rt: HostRuntime) {
    assert_merged(&rt, MERGED);
}

// A fault is displayed so.
fn assert_displayed(rt: &impl Abort, alloc: Global, fault: MergeFault, want: &str) {
    let text = format!(in alloc; "{fault}").expect(rt, "a text");
    assert_eq!(rt; text.as_str(), want);
}

#[test]
fn faults_of_a_merge_display_their_names(rt: HostRuntime) {
    let alloc = rt.alloc();
    let export = String::from_str(alloc, "i/f").expect(&rt, "a text");
    let disagree = MergeFault::Disagree {
        first: 0,
        second: 1,
        export,
    };
    assert_displayed(&rt, alloc, disagree, "Disagree");
    let import = String::from_str(alloc, "x").expect(&rt, "a text");
    let each_other = MergeFault::UseEachOther { import };
    assert_displayed(&rt, alloc, each_other, "UseEachOther");
    assert_displayed(&rt, alloc, MergeFault::OutOfMemory, "OutOfMemory");
}

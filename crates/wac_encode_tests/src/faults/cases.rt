//! Rows of items, and the lowest fault of one of them.

use crate::rows::{Items, Row};
use indexmap::IndexSet;
use std::process::Abort;
use wac_encode_faults::{Role, WriteFault, lowest_fault};
use wac_types_shapes::ResourceId;

/// The lowest fault of the item at a place, where the root binds the resources at these places.
pub struct Case {
    pub name: &'static str,
    pub rows: &'static [Row],
    pub place: usize,
    pub role: Role,
    pub bound: &'static [usize],
    pub want: Option<WriteFault>,
}

// The resources at these places.
fn resources(
    rt: &(impl Abort + AllocGlobal),
    items: &Items,
    places: &[usize],
) -> IndexSet<ResourceId> {
    let mut found = IndexSet::new(rt.alloc());
    for place in places {
        let resource = items.resource(rt, *place);
        found.insert(resource).expect(rt, "room for a resource");
    }
    found
}

/// Each has this lowest fault; asked once more where memory was refused.
pub fn assert_faults(rt: &(impl Abort + AllocGlobal), cases: &[Case]) {
    for case in cases {
        let items = Items::new(rt, rt.alloc(), case.rows);
        let bound = resources(rt, &items, case.bound);
        let item = items.kind(rt, case.place);
        let ty = item.ty();
        assert!(rt; items.types.contains(ty));
        let mut found = lowest_fault(&items.types, &bound, case.role, item);
        if found.is_err() {
            found = lowest_fault(&items.types, &bound, case.role, item);
        }
        assert!(rt; found == Ok(case.want), "{}", case.name);
    }
}

//! Laws of the steps of a type encoder, for proofs. A function here proves its laws and does nothing when it runs
//! (docs/PROOFS.md, 'Laws').

ghost use Rattle.wac_encode_stacks.specs.private.Laws.{DefinesValue, DefinesFunc, DefinesPrimitive, DefinesHandles, Reaches, BringsResource, BringsType, SettlesResource, SettlesValue, RecordsType, GoesOnAround, Follows, StaysIs, IsRecorded, IsExported, StandsRecorded, IsItsTree, IsItsEnd, StaysOnward};
ghost use Rattle.wac_encode_stacks.specs.Listed.{ListsEqual, ListsFresh, ListsOwn, ListsFunc, ListsComponent, ListsModule, ListsInstance, ListsOneMore, ListsInAnyOrder, ListedUnderMore, OpensInterface, CallsOneMore, CallsNoMore, CallsAll, ClosesInstance, HoldsInterface, OpensWorld, BindsMore, ClosesComponent, HoldsWorld, FreshInInterface, CallsOwn};
ghost use Rattle.wac_encode_stacks.specs.Instances.{ShowsWhole, HasOwn, HasExported, ImportsInstance, ImportsType, ImportsFresh, ImportsFunc, ImportsModule, ImportsComponent, ListsImport};
ghost use Rattle.wac_encode_stacks.specs.private.Inside.{ByStep, ByItem, ByBoth, KeepsIs, SettlesThere, HasIndexHere, HasIndexAround, StartsRoot, RootGoesOn};
ghost use Rattle.wac_encode_stacks.specs.private.Brought.{GoodOnce, FindsOrUnbound, KnowsType, KnowsExport, SettlesValueThere, BringsFrom, StillPass};
ghost use Rattle.wac_encode_stacks.specs.private.HeldParts.{HeldCarried, HeldFurtherIn, HeldUnderMore, HoldsValue, HoldsParts, HoldsFuncParts, HoldsItems, HandlesAreBound, ResourceIsBound};
ghost use Rattle.wac_encode_stacks.specs.private.Beside.{GoesOnBeside};
ghost use Rattle.wac_encode_stacks.specs.private.Reads.{Reads};
ghost use Rattle.wac_encode_stacks.specs.private.Modules.{DefinesModule, HoldsModule};
ghost use Rattle.wac_encode_stacks.specs.private.Sizes.{BytesAreLess, SmallFits};
ghost use Rattle.std.specs.Prelude.{◌≤◌, ◌<◌, ◌^◌, length};
ghost use Rattle.wac_binary.specs.Bytes.{described, value};

use wac_binary::laws::{fit_law, has_meaning_law, listed_law, scope_law};
use wac_binary::{ComponentValType, Description};

/// Brings in the laws by which items and declarations are read.
fn binary_laws()
    ensures reads { Reads }
{
    wac_binary::laws::law();
    scope_law();
    has_meaning_law();
    listed_law();
}

/// Brings in the laws of a step that adds a type index to the innermost scope, or records a type in it.
pub fn step_law()
    ensures defines_value { DefinesValue }
    ensures defines_func { DefinesFunc }
    ensures defines_primitive { DefinesPrimitive }
    ensures defines_handles { DefinesHandles }
    ensures reaches { Reaches }
    ensures brings_resource { BringsResource }
    ensures brings_type { BringsType }
    ensures settles_resource { SettlesResource }
    ensures settles_value { SettlesValue }
    ensures records_type { RecordsType }
    ensures goes_on_around { GoesOnAround }
    ensures follows { Follows }
    ensures stays_is { StaysIs }
    ensures is_recorded { IsRecorded }
    ensures is_exported { IsExported }
    ensures stands_recorded { StandsRecorded }
    ensures is_its_tree { IsItsTree }
{
    binary_laws();
}

/// Brings in the laws of a step that adds an import or export to an open type.
pub fn listing_law()
    ensures lists_equal { ListsEqual }
    ensures lists_fresh { ListsFresh }
    ensures lists_own { ListsOwn }
    ensures lists_func { ListsFunc }
    ensures lists_component { ListsComponent }
    ensures lists_module { ListsModule }
    ensures lists_instance { ListsInstance }
    ensures lists_one_more { ListsOneMore }
    ensures lists_in_any_order { ListsInAnyOrder }
    ensures listed_under_more { ListedUnderMore }
{
    binary_laws();
}

/// Brings in the laws of opening and closing the type of an interface or a world.
pub fn closing_law()
    ensures opens_interface { OpensInterface }
    ensures calls_one_more { CallsOneMore }
    ensures calls_no_more { CallsNoMore }
    ensures calls_all { CallsAll }
    ensures closes_instance { ClosesInstance }
    ensures holds_interface { HoldsInterface }
    ensures opens_world { OpensWorld }
    ensures binds_more { BindsMore }
    ensures closes_component { ClosesComponent }
    ensures holds_world { HoldsWorld }
    ensures fresh_in_interface { FreshInInterface }
    ensures calls_own { CallsOwn }
{
    binary_laws();
}

/// Brings in the laws of what an instance in scope exports.
pub fn instance_law()
    ensures shows_whole { ShowsWhole }
    ensures has_own { HasOwn }
    ensures has_exported { HasExported }
{
    binary_laws();
}

/// Brings in the laws of types and resources that an enclosing scope records, and of their outer aliases.
pub fn bringing_law()
    ensures good_once { GoodOnce }
    ensures finds_or_unbound { FindsOrUnbound }
    ensures knows_type { KnowsType }
    ensures knows_export { KnowsExport }
    ensures settles_value_there { SettlesValueThere }
    ensures brings_from { BringsFrom }
    ensures still_pass { StillPass }
{
    binary_laws();
}

/// Brings in the laws of trees under other bindings, and of the parts of a type of the collection.
pub fn part_law()
    ensures held_carried { HeldCarried }
    ensures held_further_in { HeldFurtherIn }
    ensures held_under_more { HeldUnderMore }
    ensures holds_value { HoldsValue }
    ensures holds_parts { HoldsParts }
    ensures holds_func_parts { HoldsFuncParts }
    ensures holds_items { HoldsItems }
    ensures handles_are_bound { HandlesAreBound }
    ensures resource_is_bound { ResourceIsBound }
{}

/// Brings in the laws of adding imports and other items to the root.
pub fn root_law()
    ensures imports_instance { ImportsInstance }
    ensures imports_type { ImportsType }
    ensures imports_fresh { ImportsFresh }
    ensures imports_func { ImportsFunc }
    ensures imports_module { ImportsModule }
    ensures imports_component { ImportsComponent }
    ensures lists_import { ListsImport }
    ensures starts_root { StartsRoot }
    ensures root_goes_on { RootGoesOn }
{
    binary_laws();
}

/// Brings in the laws of several steps in one scope, and of resources that any scope of the stack records.
pub fn inside_law()
    ensures by_step { ByStep }
    ensures by_item { ByItem }
    ensures by_both { ByBoth }
    ensures keeps_is { KeepsIs }
    ensures settles_there { SettlesThere }
    ensures has_index_here { HasIndexHere }
    ensures has_index_around { HasIndexAround }
{
    binary_laws();
}

/// Brings in the laws of core module types.
pub fn module_law()
    ensures defines_module { DefinesModule }
    ensures holds_module { HoldsModule }
{
    binary_laws();
}

/// Brings in the law of two collections whose types are written into the same scopes.
pub fn beside_law()
    ensures goes_on_beside { GoesOnBeside }
{}

/// Brings in the law of aliases of value types.
pub fn alias_law()
    ensures { IsItsEnd }
{}

/// Brings in the law of a step that changes nothing.
pub fn still_law()
    ensures { StaysOnward }
{}

/// Brings in the laws of the sizes of what is written.
pub fn size_law()
    ensures bytes { BytesAreLess }
    ensures fits { SmallFits }
{
    fit_law();
}

/// Brings in that a description has at most 7 bytes, since its index fits in 32 bits.
#[tactic(auto, using(crate::proofs::Sizes::unsigned_short))]
pub fn described_law(d: Description)
    ensures { length (described d) ≤ 7 }
{
    match d {
        Description::CoreModule(index)
        | Description::Func(index)
        | Description::Equal(index)
        | Description::Component(index)
        | Description::Instance(index) => {
            let _index = index;
        }
        Description::Fresh => {}
    }
}

/// Brings in that a value type in use has at most 5 bytes, since its index fits in 32 bits.
#[tactic(auto, using(crate::proofs::Sizes::signed_short))]
pub fn value_law(v: ComponentValType)
    ensures { length (value v) ≤ 5 }
{
    match v {
        ComponentValType::Primitive(_) => {}
        ComponentValType::Index(index) => {
            let _index = index;
        }
    }
}

/// Brings in that an index fits in 32 bits.
pub fn index_law(index: u32)
    ensures { index < 2 ^ 32 }
{
    let _index = index;
}

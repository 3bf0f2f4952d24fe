//! Laws of classes, faults and the order of imports. Each is brought by a call, for proofs only.
ghost use Rattle.wac_merge_classes.specs.entries.Classes.{ClassLaws};
ghost use Rattle.wac_merge_classes.specs.terms.Faults.{OneFault};
ghost use Rattle.wac_merge.specs.ImportFaults.{ImportFaultLaw};
ghost use Rattle.wac_merge.specs.OrderLaws.{ListedLaw, OrderLaw, RestsLaw, UsedLaw};
ghost use Rattle.wac_merge.specs.UsedResources.{UsedResourceLaw};
ghost use Rattle.wac_merge.specs.UsedValues.{UsedValueLaw};

/// Being of one class is an equivalence of names. Entries are of one class if and only if a chain of links joins them.
pub fn class_laws()
    ensures { ClassLaws }
{}

/// Entries have at most one fault.
pub fn fault_law()
    ensures { OneFault }
{}

/// The order of classes is unique and has each class; each once, if no class depends on itself through others.
pub fn order_law()
    ensures { OrderLaw }
{}

/// If a class depends on another one, that one comes first in the order of classes.
pub fn rests_law()
    ensures { RestsLaw }
{}

/// If a class uses another class of the entries, that class is imported first.
pub fn used_law()
    ensures { UsedLaw }
{}

/// Each interface of a merge exports the names of the interfaces that it unites, in order of first appearance.
///
/// This holds for imports, for instances inside them, and for interfaces as type items.
pub fn listed_law()
    ensures { ListedLaw }
{}

/// If two classes export one definition and its merged forms are equal, a use of it between them is of that type.
pub fn used_value_law()
    ensures { UsedValueLaw }
{}

/// If a class exports a resource that another one is the first to bind, a use of it from that one is of that type.
pub fn used_resource_law()
    ensures { UsedResourceLaw }
{}

/// If an import of a merge cannot be written, an entry of its class cannot be written, by the same fault.
pub fn import_fault_law()
    ensures { ImportFaultLaw }
{}

//! The place of each import.
ghost use Rattle.std.specs.Prelude.{◌≡◌, IfOk, length, map, true};
ghost use Rattle.wac_names.specs.private.validation.Views.{texts};
ghost use Rattle.wac_graph_encode.specs.private.places.Places.{IsImportedName, IsPlaceOf};

use std::alloc::{AllocError, Global};
use wac_binary::Sort;
use wac_merge::TypeAggregator;
use wac_types::{ItemKind, Named};

/// The imports of a finished merge, with the sort and index of each.
#[derive(Drop)]
pub struct ImportPlaces {
    /// The merge.
    pub merge: TypeAggregator,
    /// The sort and index of each import, by position.
    pub places: Vec<(Sort, u32)>,
}

impl ImportPlaces {
    /// The sort and index of the import of the name's class.
    pub fn place_of(&self, name: &str) -> (Sort, u32)
        requires finished { self.now.merge.is_finished ≡ true }
        requires counted { length self.now.places.items ≡ length self.now.merge.merge.imports }
        requires imported { IsImportedName self.now.merge name.now }
        ensures { IsPlaceOf self.now.merge self.now.places.items name.now result }
    {
        let imports = self.merge.imports();
        let Some((position, _)) = imports.get_full(self.merge.canonical_import_name(name)) else {
            unreachable!()
        };
        self.places[position]
    }
}

/// Returns the names of the imports, in order.
pub fn import_names(alloc: Global, imports: &Named<ItemKind>) -> Result<Vec<&str>, AllocError>
    ensures { IfOk result (λ v. texts v.items ≡ map (λ e. e.0) imports.now) }
{
    let mut names = Vec::new(alloc);
    for i in 0..imports.len() {
        names.push(imports.name_at(i))?;
    }
    Ok(names)
}

//! A law on the grammar. It has no body: after a call its fact is known.

ghost use Rattle.std.specs.Prelude.{◌≡◌, List, Ok};
ghost use Rattle.wac_binary.specs.Items.{Item};
ghost use Rattle.wac_binary.specs.Bytes.{bytes_of};
ghost use Rattle.wac_binary.specs.Fits.{Fits};
ghost use Rattle.wac_binary.specs.Format.{AreInFormat};
ghost use Rattle.wac_component.specs.Parts.{Part, parts};
ghost use Rattle.wac_component.specs.Reading.{parts_of};
ghost use Rattle.wac_component.specs.Written.{ReadsWithin};

/// States that what `wac_binary` writes is read: the bytes of items are the text of the items' parts.
///
/// The items fit, they are in the format, and nested components are read and types nested within the depth.
#[tactic(auto, using(wac_component::proofs::texts::Law::written_is_read_whole))]
pub fn written_is_read()
    ensures { (items : List Item) (ps : List Part) → Fits items → AreInFormat items → ReadsWithin 99 items ps → parts_of (bytes_of items) ≡ Ok (parts ps) }
{}

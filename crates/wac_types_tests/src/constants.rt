//! The constants of value types.
ghost use Rattle.std.specs.Prelude.{◌≡◌, [], ◌∷◌, map};
ghost use Rattle.wac_types_shapes.specs.declared.primitives.component.PrimitiveType.TheVariants as p;
ghost use Rattle.wac_types_shapes.specs.declared.shapes.component.ValueType.TheVariants.{Primitive};

use wac_types_collection::collection::ValueType;

/// The constants of value types, which are the primitive types in their order.
pub fn primitive_constants() -> [ValueType; 14]
    ensures { result ≡ map Primitive (p.Bool ∷ p.S8 ∷ p.U8 ∷ p.S16 ∷ p.U16 ∷ p.S32 ∷ p.U32 ∷ p.S64 ∷ p.U64 ∷ p.F32 ∷ p.F64 ∷ p.Char ∷ p.String ∷ p.ErrorContext ∷ []) }
{
    [
        ValueType::BOOL,
        ValueType::S8,
        ValueType::U8,
        ValueType::S16,
        ValueType::U16,
        ValueType::S32,
        ValueType::U32,
        ValueType::S64,
        ValueType::U64,
        ValueType::F32,
        ValueType::F64,
        ValueType::CHAR,
        ValueType::STRING,
        ValueType::ERROR_CONTEXT,
    ]
}

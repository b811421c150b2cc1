//! Items of sections: types, type uses of functions, and exports.

ghost use Rattle.std.specs.Prelude.{◌+◌, ℕ, List, Bool, IsTrue};
ghost use Rattle.wasm_ops.specs.Leb128.{unsigned};
ghost use Rattle.wasm_ops.specs.Sinks.{Puts};
ghost use Rattle.wasm_ops.specs.Spelling.{InRangeU32};
ghost use Rattle.wasm_out.specs.Built.{Adds};
ghost use Rattle.wasm_out.specs.Parts.{export_entry, type_entry};
ghost use Rattle.wast_base.specs.Ids.{is_number};
ghost use Rattle.wast_core_conv.specs.Encodable.{is_encodable_type_use};
ghost use Rattle.wast_core_conv.specs.Meaning as meaning;

use crate::conv;
use crate::conv_entities::type_index;
use crate::values::Resolved;
use std::alloc::Global;
use wasm_ops::{Counted, Encode, EncodeWith, Refusal, Sink};
use wasm_out::{Build, ExportSection, FunctionSection, TypeSection};
use wast_base::Error;
use wast_tree_nodes::{CustomPlaceAnchor, Export, FunctionType, Rec, Type, TypeUse};

/// A field of a module that is an item of a section of the binary format.
///
///     let mut section = <I::Section as Build>::new(alloc);
///     item.encode(alloc, &mut section).expect(rt, "memory");
///
/// It is implemented for [`RecOrType`], [`FuncSectionTy`], exports, imports, tables, memories,
/// globals, tags, and element and data segments.
///
/// The item must be resolved and have no unsupported construct. All items have this after a
/// successful `Module::resolve` of `wast_core`, if `uncovered` of `wast_tree` finds nothing. Branch
/// hints and inline types may have any form, because they are not written.
///
/// After an error the section or the sink is unchanged.
pub trait SectionItem {
    /// The section that holds such items.
    type Section: Build;

    /// The anchor of that section, which custom sections use to be before or after it (text format:
    /// custom annotations).
    const ANCHOR: CustomPlaceAnchor;

    /// The bytes of the item.
    ghost spelling: { Self → List ℕ };

    /// Whether the numbers, counts and lengths in its bytes are in range.
    ghost in_range: { Self → Type 0 };

    /// Whether the item is resolved and has no unsupported construct.
    ghost is_encodable: { Self → Bool };

    /// Appends the item to the section, and adds one to the section's item count.
    ///
    /// # Errors
    ///
    /// - E10, only if there would be 2^32 items, or a number, count or length in the item is out of
    ///   range.
    /// - E12: allocation failed.
    fn encode<'e>(&self, alloc: Global, section: &mut Self::Section) -> Result<(), Error<'e>>
        requires { IsTrue (is_encodable self.now) }
        ensures { Adds (InRangeU32 ((Self.Section.built section.old).count + 1) × in_range self.now)
            (Self.Section.built section.old) (Self.Section.built section.new) (spelling self.now) result };

    /// Appends the bytes of the item to a sink.
    ///
    ///     let mut out = Vec::new(alloc);
    ///     item.put(&mut out).expect(rt, "memory");
    ///
    /// # Errors
    ///
    /// - The error of the sink, only if the bytes do not fit in it. For a `Vec` that is E12.
    /// - E10, only if a number, count or length in the item is out of range.
    fn put<'e, S: Sink>(&self, out: &mut S) -> Result<(), Error<'e>>
        requires { IsTrue (is_encodable self.now) }
        ensures { Puts S.rules (in_range self.now) out.old out.new (spelling self.now) result };
}

impl<T: SectionItem> SectionItem for &T {
    type Section = T::Section;

    const ANCHOR: CustomPlaceAnchor = T::ANCHOR;

    ghost spelling = { λ item. T.spelling item.now };

    ghost in_range = { λ item. T.in_range item.now };

    ghost is_encodable = { λ item. T.is_encodable item.now };

    fn encode<'e>(&self, alloc: Global, section: &mut T::Section) -> Result<(), Error<'e>> {
        (**self).encode(alloc, section)
    }

    fn put<'e, S: Sink>(&self, out: &mut S) -> Result<(), Error<'e>> {
        (**self).put(out)
    }
}

/// An entry of the type section: a single type or a recursion group (binary format: type section).
///
///     has_bytes(&rt, alloc, &RecOrType::Ty(&ty), &[1, 0x60, 0, 0]);
#[derive(Clone, Copy, Debug)]
pub enum RecOrType<'b, 'a> {
    /// A single type, such as `(type (func))`.
    Ty(&'b Type<'a>),
    /// A recursion group, such as `(rec (type (func)))`.
    Rec(&'b Rec<'a>),
}

impl Encode for RecOrType<'_, '_> {
    ghost use Rattle.wast_core_conv.specs.Entries.{as_type_entry, is_encodable_entry};

    ghost spelling = { λ item. (type_entry (as_type_entry item)).bytes };

    ghost in_range = { λ item. (type_entry (as_type_entry item)).in_range };

    ghost is_ready = { is_encodable_entry };

    fn encode<S: Sink>(&self, out: &mut S) -> Result<(), Refusal> {
        match self {
            RecOrType::Ty(ty) => Resolved.spell(*ty, out),
            RecOrType::Rec(rec) => (0x4eu8, Counted(rec.types.as_slice(), Resolved)).encode(out),
        }
    }
}

impl SectionItem for RecOrType<'_, '_> {
    type Section = TypeSection;

    const ANCHOR: CustomPlaceAnchor = CustomPlaceAnchor::Ty;

    ghost use Rattle.wast_core_conv.specs.Entries.{as_type_entry, is_encodable_entry};

    ghost spelling = { λ item. (type_entry (as_type_entry item)).bytes };

    ghost in_range = { λ item. (type_entry (as_type_entry item)).in_range };

    ghost is_encodable = { is_encodable_entry };

    fn encode<'e>(&self, alloc: Global, section: &mut TypeSection) -> Result<(), Error<'e>> {
        match self {
            RecOrType::Ty(ty) => section.subtype(&conv::sub_type(alloc, &ty.def)?),
            RecOrType::Rec(rec) => {
                let types = conv::group(alloc, rec.types.as_slice())?;
                section.rec(types.as_slice())
            }
        }
    }

    fn put<'e, S: Sink>(&self, out: &mut S) -> Result<(), Error<'e>> {
        Ok(Encode::encode(self, out)?)
    }
}

/// An entry of the function section: the type use of a function (binary format: function section).
///
///     let item = FuncSectionTy(&used);
///     has_bytes(&rt, alloc, &item, &[1, 3]);
#[derive(Clone, Copy, Debug)]
pub struct FuncSectionTy<'b, 'a>(pub &'b TypeUse<'a, FunctionType<'a>>);

impl SectionItem for FuncSectionTy<'_, '_> {
    type Section = FunctionSection;

    const ANCHOR: CustomPlaceAnchor = CustomPlaceAnchor::Func;

    ghost spelling = { λ item. unsigned (meaning.type_index item.0.now) };

    ghost in_range = { λ item. InRangeU32 (meaning.type_index item.0.now) };

    ghost is_encodable = { λ item. is_encodable_type_use item.0.now };

    fn encode<'e>(&self, _alloc: Global, section: &mut FunctionSection) -> Result<(), Error<'e>> {
        section.function(type_index(self.0))
    }

    fn put<'e, S: Sink>(&self, out: &mut S) -> Result<(), Error<'e>> {
        Ok(Resolved.spell(self.0, out)?)
    }
}

impl SectionItem for Export<'_> {
    type Section = ExportSection;

    const ANCHOR: CustomPlaceAnchor = CustomPlaceAnchor::Export;

    ghost spelling = { λ item. (export_entry (meaning.as_export item)).bytes };

    ghost in_range = { λ item. (export_entry (meaning.as_export item)).in_range };

    ghost is_encodable = { λ item. is_number item.item };

    fn encode<'e>(&self, _alloc: Global, section: &mut ExportSection) -> Result<(), Error<'e>> {
        section.export(
            self.name,
            conv::export_kind(self.kind),
            conv::index(&self.item),
        )
    }

    fn put<'e, S: Sink>(&self, out: &mut S) -> Result<(), Error<'e>> {
        Ok(Resolved.spell(self, out)?)
    }
}

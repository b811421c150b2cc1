//! Custom sections of a module as bytes.

ghost use Rattle.std.specs.Prelude.{true};
ghost use Rattle.wasm_ops.specs.Spelling.{Any};
ghost use Rattle.wasm_out.specs.Parts.{part};
ghost use Rattle.wasm_out.specs.Producers.{producer_field, producer_value};
ghost use Rattle.wast_core_conv.specs.Customs.{as_producer_value, as_producer_field, custom_part, InRangeCustom, is_encodable_subsection, is_encodable_custom, custom_payload, export_flags, import_flags, listed_name, subsection, subsection_content};

use crate::values::Resolved;
use wasm_ops::{Counted, Each, Encode, EncodeWith, Name, Raw, Refusal, Sink, WithLength};
use wast_base::Seq;
use wast_tree_nodes::{Custom, Dylink0Subsection};

/// A name in a list (binary format: names).
impl<'a> EncodeWith<&'a str> for Resolved {
    ghost spelling = { λ _ n. (listed_name n).bytes };

    ghost in_range = { λ _ n. (listed_name n).in_range };

    ghost is_ready = { λ _ _. true };

    fn spell<S: Sink>(&self, text: &&'a str, out: &mut S) -> Result<(), Refusal> {
        Name(text).encode(out)
    }
}

/// A piece of a custom section, as its bytes (binary format: custom section).
impl<'a> EncodeWith<&'a [u8]> for Resolved {
    ghost spelling = { λ _ p. p.now };

    ghost in_range = { λ _ p. Any p };

    ghost is_ready = { λ _ _. true };

    fn spell<S: Sink>(&self, piece: &&'a [u8], out: &mut S) -> Result<(), Refusal> {
        Raw(piece).encode(out)
    }
}

/// A value in a producers section: its name and version (tool conventions: producers section).
impl<'a> EncodeWith<(&'a str, &'a str)> for Resolved {
    ghost spelling = { λ _ v. (producer_value (as_producer_value v)).bytes };

    ghost in_range = { λ _ v. (producer_value (as_producer_value v)).in_range };

    ghost is_ready = { λ _ _. true };

    fn spell<S: Sink>(&self, value: &(&'a str, &'a str), out: &mut S) -> Result<(), Refusal> {
        (Name(value.0), Name(value.1)).encode(out)
    }
}

/// A field of a producers section: its name and values (tool conventions: producers section).
impl<'a> EncodeWith<(&'a str, Seq<(&'a str, &'a str)>)> for Resolved {
    ghost spelling = { λ _ f. (producer_field (as_producer_field f)).bytes };

    ghost in_range = { λ _ f. (producer_field (as_producer_field f)).in_range };

    ghost is_ready = { λ _ _. true };

    fn spell<S: Sink>(
        &self,
        field: &(&'a str, Seq<(&'a str, &'a str)>),
        out: &mut S,
    ) -> Result<(), Refusal> {
        (Name(field.0), Counted(field.1.as_slice(), Resolved)).encode(out)
    }
}

/// An export with its flags (tool conventions: dynamic linking).
impl<'a> EncodeWith<(&'a str, u32)> for Resolved {
    ghost spelling = { λ _ e. (export_flags e).bytes };

    ghost in_range = { λ _ e. (export_flags e).in_range };

    ghost is_ready = { λ _ _. true };

    fn spell<S: Sink>(&self, export: &(&'a str, u32), out: &mut S) -> Result<(), Refusal> {
        (Name(export.0), export.1).encode(out)
    }
}

/// An import with its flags (tool conventions: dynamic linking).
impl<'a> EncodeWith<(&'a str, &'a str, u32)> for Resolved {
    ghost spelling = { λ _ i. (import_flags i).bytes };

    ghost in_range = { λ _ i. (import_flags i).in_range };

    ghost is_ready = { λ _ _. true };

    fn spell<S: Sink>(&self, import: &(&'a str, &'a str, u32), out: &mut S) -> Result<(), Refusal> {
        (Name(import.0), (Name(import.1), import.2)).encode(out)
    }
}

/// The content of a `dylink.0` subsection, without its number and length (tool conventions: dynamic
/// linking). `TargetArch` is an unsupported construct and must not be encoded.
///
/// For example, `(mem-info (memory 1 2))` has the content `01 02 00 00`.
#[derive(Clone, Copy)]
pub struct SubsectionContent<'b, 'a>(pub &'b Dylink0Subsection<'a>);

impl Encode for SubsectionContent<'_, '_> {
    ghost spelling = { λ c. (subsection_content c.0.now).bytes };

    ghost in_range = { λ c. (subsection_content c.0.now).in_range };

    ghost is_ready = { λ c. is_encodable_subsection c.0.now };

    fn encode<S: Sink>(&self, out: &mut S) -> Result<(), Refusal> {
        match self.0 {
            Dylink0Subsection::MemInfo {
                memory_size,
                memory_align,
                table_size,
                table_align,
            } => (*memory_size, (*memory_align, (*table_size, *table_align))).encode(out),
            Dylink0Subsection::Needed(names) => Counted(names.as_slice(), Resolved).encode(out),
            Dylink0Subsection::ExportInfo(flags) => Counted(flags.as_slice(), Resolved).encode(out),
            Dylink0Subsection::ImportInfo(flags) => Counted(flags.as_slice(), Resolved).encode(out),
            Dylink0Subsection::RuntimePath(names) => {
                Counted(names.as_slice(), Resolved).encode(out)
            }
            Dylink0Subsection::TargetArch(_) => unreachable!(),
        }
    }
}

/// A subsection of `dylink.0`, with its number and length (tool conventions: dynamic linking).
impl EncodeWith<Dylink0Subsection<'_>> for Resolved {
    ghost spelling = { λ _ s. (subsection s).bytes };

    ghost in_range = { λ _ s. (subsection s).in_range };

    ghost is_ready = { λ _ s. is_encodable_subsection s };

    fn spell<S: Sink>(&self, subsection: &Dylink0Subsection, out: &mut S) -> Result<(), Refusal> {
        let content = SubsectionContent(subsection);
        (subsection.id(), WithLength(content)).encode(out)
    }
}

/// The payload of a custom section: its name and its bytes (binary format: custom section). No
/// subsection may be a `TargetArch`.
#[derive(Clone, Copy)]
pub(crate) struct CustomPayload<'b, 'a>(pub &'b Custom<'a>);

impl Encode for CustomPayload<'_, '_> {
    ghost spelling = { λ p. (custom_payload p.0.now).bytes };

    ghost in_range = { λ p. (custom_payload p.0.now).in_range };

    ghost is_ready = { λ p. is_encodable_custom p.0.now };

    fn encode<S: Sink>(&self, out: &mut S) -> Result<(), Refusal> {
        let name = Name(self.0.name());
        match self.0 {
            Custom::Raw(section) => { (name, Each(section.bytes.as_slice(), Resolved)).encode(out) }
            Custom::Producers(made) => {
                (name, Counted(made.fields.as_slice(), Resolved)).encode(out)
            }
            Custom::Dylink0(info) => {
                (name, Each(info.subsections.as_slice(), Resolved)).encode(out)
            }
        }
    }
}

/// A custom section (binary format: custom section).
impl EncodeWith<Custom<'_>> for Resolved {
    ghost spelling = { λ _ c. part (custom_part c) };

    ghost in_range = { λ _ c. InRangeCustom c };

    ghost is_ready = { λ _ c. is_encodable_custom c };

    fn spell<S: Sink>(&self, custom: &Custom, out: &mut S) -> Result<(), Refusal> {
        (0u8, WithLength(CustomPayload(custom))).encode(out)
    }
}

//! Parts of a module that have bytes of their own.

ghost use Rattle.std.specs.Prelude.{ℕ, List, Bool, IsTrue};
ghost use Rattle.wasm_out.specs.Built.{Appends};
ghost use Rattle.wast_core_conv.specs.Customs.{is_encodable_subsection, subsection_content};

use wast_base::Error;
use wast_core_conv::SubsectionContent;
use wast_tree_nodes::Dylink0Subsection;

/// A part of a module that can be encoded on its own (binary format).
///
///     let mut out = Vec::new(alloc);
///     subsection.encode(&mut out).expect(rt, "memory");
///
/// It is implemented for the subsections of `dylink.0`.
pub trait Encode {
    /// The bytes of the part.
    ghost spelling: { Self → List ℕ };

    /// Whether its numbers, counts and lengths are in range.
    ghost in_range: { Self → Type 0 };

    /// Whether it has no unsupported construct.
    ghost is_covered: { Self → Bool };

    /// Appends the bytes of the part, which must have no unsupported construct. After an error the
    /// bytes are as they were.
    ///
    /// # Errors
    ///
    /// - E10, only if a number, count or length in the part does not fit in 32 bits.
    /// - E12: allocation failed.
    fn encode<'e>(&self, out: &mut Vec<u8>) -> Result<(), Error<'e>>
        requires { IsTrue (is_covered self.now) }
        ensures { Appends (in_range self.now) out.old.items out.new.items (spelling self.now) result };
}

/// The content of a `dylink.0` subsection, without its number and length (tool conventions: dynamic
/// linking). `TargetArch` is an unsupported construct.
impl Encode for Dylink0Subsection<'_> {
    ghost spelling = { λ x. (subsection_content x).bytes };

    ghost in_range = { λ x. (subsection_content x).in_range };

    ghost is_covered = { is_encodable_subsection };

    fn encode<'e>(&self, out: &mut Vec<u8>) -> Result<(), Error<'e>> {
        Ok(wasm_ops::Encode::encode(&SubsectionContent(self), out)?)
    }
}

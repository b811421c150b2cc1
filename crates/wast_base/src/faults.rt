//! Errors: `Error` is a `Fault`, with its position in the source if it has one.

ghost use Rattle.std.specs.Prelude.{◌≡◌, Some};
ghost use Rattle.wast_base.specs.Faults.{fault_of, span_of, fault_number, is_placed, fault_text, form_text, unknown_text, unnamed_text, clause_text, error_at, error_without_place, out_of_memory};
ghost use Rattle.std.specs.Prelude.{IsTrue, not};

use crate::ids::Span;
use std::alloc::{AllocError, AllocFailed};
use std::fmt;

/// A kind of construct that resolving supports and the encoder does not.
///
/// E11 has a form, and `{}` of the form is part of its message. For example, the message of E11
/// with [`Form::Shared`] is `uncovered form: shared type`.
#[derive(Clone, Copy, Debug, PartialEq, Eq)]
pub enum Form {
    /// A continuation type, or an instruction on continuations.
    StackSwitching,
    /// A shared type, table or global.
    Shared,
    /// A memory ordering.
    Ordering,
    /// An atomic instruction on a global, table, struct or array.
    Atomic,
    /// A descriptor, `describes` or an exact type.
    Descriptor,
    /// A compact group of imports.
    CompactImports,
    /// A memory argument on an array.
    ArrayMemArg,
    /// The target architecture of `dylink.0`.
    TargetArch,
    /// An instruction that is not in the opcode table.
    Beyond,
}

/// The reason for an error, E1 to E13, without its position.
///
/// E1 to E9 are mistakes in the source, and an [`Error`] has a position for each of them (text
/// format: identifiers, indices, type uses, control instructions, modules). E10 to E13 have no
/// position, because they are limits of the encoder or of the machine.
///
/// `{}` prints the same text as for the [`Error`]. For example, `Fault::Unknown("func", "g")` is
/// printed as "unknown func: failed to find name `$g`".
#[derive(Clone, Copy, Debug, PartialEq, Eq)]
pub enum Fault<'a> {
    /// E1: an import comes after a definition of this kind, such as `function` or `memory`.
    ImportAfter(&'a str),
    /// E2: two items of this kind have the same id.
    Duplicate(&'a str),
    /// E3: two items of this kind, such as `field`, have the same id, which has this name.
    DuplicateField(&'a str, &'a str),
    /// E4: no item of this kind has this name.
    Unknown(&'a str, &'a str),
    /// E5: a type use has the index of a type that is not a function type.
    NotFunc,
    /// E6: a type use has an index that is out of bounds.
    OutOfBounds,
    /// E7: the inline type of a type use differs from the type at its index.
    NoMatch,
    /// E8: the label at an `else` or `end` differs from the label of its block.
    Labels,
    /// E9: an access names a field of a struct type without field names; the type's index follows.
    NoNamedFields(&'a str, u32),
    /// E10: a count or a length is 2^32 or more, or the id counter would overflow.
    TooLarge,
    /// E11: the encoder does not support this form.
    Uncovered(Form),
    /// E12: allocation failed.
    Memory,
    /// E13: the module is a component.
    Component,
}

/// An error, E1 to E13: what is wrong, and for E1 to E9 the position in the source.
///
/// Two errors are equal if their faults and their positions are. `?` turns a failed allocation into
/// E12. `{}` prints the message without the position; [`line_and_column`](crate::line_and_column)
/// converts [`Error::span`] for a reader. No call on an error allocates.
///
/// # Example
///
/// A `match` on `error.span()` that prints the error:
///
///     Some(place) => {
///         let (line, column) = line_and_column(TEXT, place);
///         println!(rt; "{line}:{column}: {error}")
///     }
///     None => println!(rt; "{error}"),
#[derive(Clone, Copy, Debug, PartialEq, Eq)]
pub struct Error<'a> {
    pub(crate) span: Option<Span>,
    pub(crate) fault: Fault<'a>,
}

impl<'a> Error<'a> {
    /// Makes an error of E1 to E9, which has a position.
    ///
    ///     assert!(rt; twice == Err(Error::new(at(40), Fault::Duplicate("func"))));
    pub fn new(span: Span, fault: Fault<'a>) -> Self
        requires { IsTrue (is_placed fault) }
        ensures { result ≡ error_at span fault.entry }
    {
        Error {
            span: Some(span),
            fault,
        }
    }

    /// Makes an error of E10 to E13, which has no position.
    ///
    ///     let too_large = Error::refusal(Fault::TooLarge);
    pub fn refusal(fault: Fault<'a>) -> Self
        requires { IsTrue (not (is_placed fault)) }
        ensures { result ≡ error_without_place fault.entry }
    {
        Error { span: None, fault }
    }

    /// Returns what is wrong, without its position.
    pub fn fault(&self) -> Fault<'a>
        ensures { result ≡ fault_of self.now }
    {
        self.fault
    }

    /// Returns the position of the error: `Some` for E1 to E9, and `None` for E10 to E13.
    pub fn span(&self) -> Option<Span>
        ensures { result ≡ span_of self.now }
    {
        self.span
    }

    /// Returns the number of the error: 1 for E1, and so on up to 13 for E13.
    pub fn number(&self) -> u32
        ensures { result ≡ fault_number (fault_of self.now) }
    {
        match self.fault {
            Fault::ImportAfter(_) => 1,
            Fault::Duplicate(_) => 2,
            Fault::DuplicateField(_, _) => 3,
            Fault::Unknown(_, _) => 4,
            Fault::NotFunc => 5,
            Fault::OutOfBounds => 6,
            Fault::NoMatch => 7,
            Fault::Labels => 8,
            Fault::NoNamedFields(_, _) => 9,
            Fault::TooLarge => 10,
            Fault::Uncovered(_) => 11,
            Fault::Memory => 12,
            Fault::Component => 13,
        }
    }
}

impl fmt::Display for Form {
    ghost output = { λ f. Some (form_text f) };

    fn fmt<W: fmt::Write>(&self, f: &mut fmt::Formatter<W>) -> fmt::Result {
        match self {
            Form::StackSwitching => write!(f, "stack switching"),
            Form::Shared => write!(f, "shared type"),
            Form::Ordering => write!(f, "memory ordering"),
            Form::Atomic => write!(f, "atomic of a global, table, struct or array"),
            Form::Descriptor => write!(f, "descriptor or exact type"),
            Form::CompactImports => write!(f, "compact import group"),
            Form::ArrayMemArg => write!(f, "array memory argument"),
            Form::TargetArch => write!(f, "target architecture"),
            Form::Beyond => write!(f, "instruction beyond the table"),
        }
    }
}

/// Returns the message for the rule of well-formedness with this number.
///
/// For example, rule 1 has `alignment must be a power of two`. `ill_formed` of `wast_tree` lists the
/// rules.
pub fn clause_text(clause: u8) -> &'static str
    ensures { result.now ≡ clause_text clause }
{
    match clause {
        1 => "alignment must be a power of two",
        2 => "branch hints must be on instructions, in increasing order, with value 0 or 1",
        3 => "page size must be less than 2^64",
        4 => "element segment without a table must have type funcref",
        5 => "unbalanced blocks in constant expression",
        6 => "generated id does not name an item of its index space",
        _ => "module is not well formed",
    }
}

/// The end of the message of E4.
#[derive(Clone, Copy)]
struct Missing<'a>(&'a str);

impl fmt::Display for Missing<'_> {
    ghost output = { λ m. Some (unknown_text m.0.now) };

    #[tactic(auto, unfolding(crate::specs::Faults::unknown_text))]
    fn fmt<W: fmt::Write>(&self, f: &mut fmt::Formatter<W>) -> fmt::Result {
        let name = self.0;
        write!(f, ": failed to find name `${name}`")
    }
}

/// The end of the message of E9.
#[derive(Clone, Copy)]
struct Unnamed(u32);

impl fmt::Display for Unnamed {
    ghost output = { λ m. Some (unnamed_text m.0) };

    #[tactic(auto, unfolding(crate::specs::Faults::unnamed_text))]
    fn fmt<W: fmt::Write>(&self, f: &mut fmt::Formatter<W>) -> fmt::Result {
        let index = self.0;
        write!(f, "` in a struct without named fields, type index {index}")
    }
}

impl fmt::Display for Fault<'_> {
    ghost output = { λ fault. Some (fault_text fault) };

    fn fmt<W: fmt::Write>(&self, f: &mut fmt::Formatter<W>) -> fmt::Result {
        match *self {
            Fault::ImportAfter(kind) => write!(f, "import after {kind}"),
            Fault::Duplicate(kind) => write!(f, "duplicate {kind} identifier"),
            Fault::DuplicateField(kind, name) => {
                write!(f, "duplicate identifier: duplicate {kind} named `{name}`")
            }
            Fault::Unknown(kind, name) => write!(f, "unknown {kind}{}", Missing(name)),
            Fault::NotFunc => write!(f, "invalid type: not a function type"),
            Fault::OutOfBounds => write!(f, "unknown type: type index out of bounds"),
            Fault::NoMatch => write!(f, "inline function type doesn't match type reference"),
            Fault::Labels => write!(f, "mismatching labels between end and block"),
            Fault::NoNamedFields(name, index) => {
                write!(f, "accessing a named field `{name}{}", Unnamed(index))
            }
            Fault::TooLarge => write!(f, "too large"),
            Fault::Uncovered(form) => write!(f, "uncovered form: {form}"),
            Fault::Memory => write!(f, "out of memory"),
            Fault::Component => write!(f, "components are not encoded"),
        }
    }
}

impl fmt::Display for Error<'_> {
    ghost output = { λ e. Some (fault_text (fault_of e)) };

    fn fmt<W: fmt::Write>(&self, f: &mut fmt::Formatter<W>) -> fmt::Result {
        let fault = self.fault;
        write!(f, "{fault}")
    }
}

impl std::error::Error for Error<'_> {}

impl From<AllocError> for Error<'_> {
    ghost use Rattle.std.specs.Prelude.{◌≡◌};
    ghost use Rattle.wast_base.specs.Faults.{out_of_memory};

    ghost from_gives = { λ _ e. e ≡ out_of_memory };

    fn from(_error: AllocError) -> Self {
        Error::refusal(Fault::Memory)
    }
}

impl<T: Drop> From<AllocFailed<T>> for Error<'_> {
    ghost use Rattle.std.specs.Prelude.{◌≡◌};
    ghost use Rattle.wast_base.specs.Faults.{out_of_memory};

    ghost from_gives = { λ _ e. e ≡ out_of_memory };

    fn from(_error: AllocFailed<T>) -> Self {
        Error::refusal(Fault::Memory)
    }
}

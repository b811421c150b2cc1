//! Immediates of instructions for structs, arrays and references.

use crate::types::RefType;
use wast_base::Index;

/// The struct type and the field of `struct.get $t $x` (text format: aggregate instructions).
#[derive(Clone, Copy, Debug, PartialEq, Eq)]
pub struct StructAccess<'a> {
    /// The type of the struct.
    pub owner: Index<'a>,
    /// The field.
    pub field: Index<'a>,
}

/// `array.new_fixed $t 3` (text format: aggregate instructions)
#[derive(Clone, Copy, Debug, PartialEq, Eq)]
pub struct ArrayNewFixed<'a> {
    /// The type of the array.
    pub array: Index<'a>,
    /// The number of its elements.
    pub length: u32,
}

/// `array.new_data $t $d` (text format: aggregate instructions)
#[derive(Clone, Copy, Debug, PartialEq, Eq)]
pub struct ArrayNewData<'a> {
    /// The type of the array.
    pub array: Index<'a>,
    /// The data segment that its elements come from.
    pub data_idx: Index<'a>,
}

/// `array.new_elem $t $e` (text format: aggregate instructions)
#[derive(Clone, Copy, Debug, PartialEq, Eq)]
pub struct ArrayNewElem<'a> {
    /// The type of the array.
    pub array: Index<'a>,
    /// The element segment that its elements come from.
    pub elem_idx: Index<'a>,
}

/// `array.fill $t` (text format: aggregate instructions)
#[derive(Clone, Copy, Debug, PartialEq, Eq)]
pub struct ArrayFill<'a> {
    /// The type of the array.
    pub array: Index<'a>,
}

/// `array.copy $to $from` (text format: aggregate instructions)
#[derive(Clone, Copy, Debug, PartialEq, Eq)]
pub struct ArrayCopy<'a> {
    /// The type of the array that is written.
    pub dest_array: Index<'a>,
    /// The type of the array that is read.
    pub src_array: Index<'a>,
}

/// `array.init_data $t $d`, `array.init_elem $t $e` (text format: aggregate instructions)
#[derive(Clone, Copy, Debug, PartialEq, Eq)]
pub struct ArrayInit<'a> {
    /// The type of the array.
    pub array: Index<'a>,
    /// The data or element segment that the elements come from.
    pub segment: Index<'a>,
}

/// `ref.test (ref $t)` (text format: reference instructions)
#[derive(Clone, Copy, Debug, PartialEq, Eq)]
pub struct RefTest<'a> {
    /// The type that is tested for.
    pub rt: RefType<'a>,
}

/// `ref.cast (ref $t)` (text format: reference instructions)
#[derive(Clone, Copy, Debug, PartialEq, Eq)]
pub struct RefCast<'a> {
    /// The type that it is cast to.
    pub rt: RefType<'a>,
}

/// `ref.cast_desc_eq (ref $t)` (custom descriptors)
#[derive(Clone, Copy, Debug, PartialEq, Eq)]
pub struct RefCastDescEq<'a> {
    /// The type that it is cast to.
    pub rt: RefType<'a>,
}

/// `br_on_cast $l anyref (ref $t)` (text format: control instructions)
#[derive(Clone, Copy, Debug, PartialEq, Eq)]
pub struct BrOnCast<'a> {
    /// The label.
    pub label: Index<'a>,
    /// The type of the operand.
    pub from_type: RefType<'a>,
    /// The type that it is cast to.
    pub to_type: RefType<'a>,
}

/// `br_on_cast_fail $l anyref (ref $t)` (text format: control instructions)
#[derive(Clone, Copy, Debug, PartialEq, Eq)]
pub struct BrOnCastFail<'a> {
    /// The label.
    pub label: Index<'a>,
    /// The type of the operand.
    pub from_type: RefType<'a>,
    /// The type that it is cast to.
    pub to_type: RefType<'a>,
}

/// `br_on_cast_desc_eq $l anyref (ref $t)` (custom descriptors)
#[derive(Clone, Copy, Debug, PartialEq, Eq)]
pub struct BrOnCastDescEq<'a> {
    /// The label.
    pub label: Index<'a>,
    /// The type of the operand.
    pub from_type: RefType<'a>,
    /// The type that it is cast to.
    pub to_type: RefType<'a>,
}

/// `br_on_cast_desc_eq_fail $l anyref (ref $t)` (custom descriptors)
#[derive(Clone, Copy, Debug, PartialEq, Eq)]
pub struct BrOnCastDescEqFail<'a> {
    /// The label.
    pub label: Index<'a>,
    /// The type of the operand.
    pub from_type: RefType<'a>,
    /// The type that it is cast to.
    pub to_type: RefType<'a>,
}

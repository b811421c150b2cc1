//! Reads types and type uses (text format: types, type uses).

ghost use Rattle.std.specs.Prelude.{◌≡◌, true, false, None, Some, map, option_map};
ghost use Rattle.wat_tokens.specs.declared.words.Key.TheVariants as key;
ghost use Rattle.wat_syntax.specs.Tokens.{keyword, keyword_in, is_form, is_key, key_of, peek};
ghost use Rattle.wat_syntax.specs.Values.{u64};
ghost use Rattle.wat_syntax.specs.Types.{absheaptype, refword, numtype_or_vectype, heaptype_form, heaptype, is_reftype, shared_reftype, reftype};
ghost use Rattle.wat_syntax.specs.Types.{valtype, valtypes, storagetype, fieldtype, unnamed_param, unnamed_params, param, all_params, all_results};
ghost use Rattle.wat_syntax.specs.Types.{functype, unnamed_field, unnamed_fields, struct_fields, struct_field, all_fields, structtype};
ghost use Rattle.wat_syntax.specs.Types.{comptype_form, comptype, related, described, maybe_shared, subtype, typedef, typedef_form, typedefs};
ghost use Rattle.wat_syntax.specs.Types.{rectype, addrtype, limits, tabletype, pagesize, memtype, is_shared_ref, globaltype, type_index, typeuse};
ghost use Rattle.wat_syntax.specs.Types.{result as a_result, indices as all_indices, params as params_of};
ghost use Rattle.wat_text.specs.Readers.{left, Reads, Decides, Expects, Finds, Refuses, ReadsOnto, Pushes, Builds};
ghost use Rattle.wat_syntax.specs.Bare.{bare_composite, bare_field_type, bare_function_type, bare_global_type, bare_heap};
ghost use Rattle.wat_syntax.specs.Bare.{bare_index_option, bare_indices, bare_param, bare_rec, bare_ref, bare_storage, bare_struct_field};
ghost use Rattle.wat_syntax.specs.Bare.{bare_struct_type, bare_table_type, bare_type, bare_type_def, bare_type_use, bare_val, bare_vals};

use crate::reader::{Reader, fitted};
use wast_tree::{
    AbstractHeapType, ArrayType, ContType, FunctionType, GlobalType, HeapType, Id, Index,
    InnerTypeKind, Limits, MemoryType, NameAnnotation, Rec, RefType, Seq, StorageType, StructField,
    StructType, TableType, Type, TypeDef, TypeUse, ValType,
};
use wat_tokens::{Key, TextFault, unsigned64};

/// Returns the abstract heap type that a keyword is, such as `func` (text format: heap types).
fn abstract_heap(key: Key) -> Option<AbstractHeapType>
    ensures { result ≡ absheaptype key }
{
    match key {
        Key::Func => Some(AbstractHeapType::Func),
        Key::Extern => Some(AbstractHeapType::Extern),
        Key::Exn => Some(AbstractHeapType::Exn),
        Key::Noexn => Some(AbstractHeapType::NoExn),
        Key::Any => Some(AbstractHeapType::Any),
        Key::Eq => Some(AbstractHeapType::Eq),
        Key::Struct => Some(AbstractHeapType::Struct),
        Key::Array => Some(AbstractHeapType::Array),
        Key::Nofunc => Some(AbstractHeapType::NoFunc),
        Key::Noextern => Some(AbstractHeapType::NoExtern),
        Key::None => Some(AbstractHeapType::None),
        Key::I31 => Some(AbstractHeapType::I31),
        Key::Cont => Some(AbstractHeapType::Cont),
        Key::Nocont => Some(AbstractHeapType::NoCont),
        _ => None,
    }
}

/// Returns the heap type of a keyword that abbreviates a reference type (text format: reference
/// types, abbreviations). For example, `any` for `anyref`.
fn referred(key: Key) -> Option<AbstractHeapType>
    ensures { result ≡ refword key }
{
    match key {
        Key::Funcref => Some(AbstractHeapType::Func),
        Key::Externref => Some(AbstractHeapType::Extern),
        Key::Exnref => Some(AbstractHeapType::Exn),
        Key::Nullexnref => Some(AbstractHeapType::NoExn),
        Key::Anyref => Some(AbstractHeapType::Any),
        Key::Eqref => Some(AbstractHeapType::Eq),
        Key::Structref => Some(AbstractHeapType::Struct),
        Key::Arrayref => Some(AbstractHeapType::Array),
        Key::Nullfuncref => Some(AbstractHeapType::NoFunc),
        Key::Nullexternref => Some(AbstractHeapType::NoExtern),
        Key::Nullref => Some(AbstractHeapType::None),
        Key::I31ref => Some(AbstractHeapType::I31),
        Key::Contref => Some(AbstractHeapType::Cont),
        Key::Nullcontref => Some(AbstractHeapType::NoCont),
        _ => None,
    }
}

/// Returns the number type or vector type that a keyword is, such as `i32`.
fn plain_value<'a>(key: Key) -> Option<ValType<'a>>
    ensures { option_map bare_val result ≡ numtype_or_vectype key }
{
    match key {
        Key::I32 => Some(ValType::I32),
        Key::I64 => Some(ValType::I64),
        Key::F32 => Some(ValType::F32),
        Key::F64 => Some(ValType::F64),
        Key::V128 => Some(ValType::V128),
        _ => None,
    }
}

impl<'a> Reader<'a> {
    /// Reads an abstract heap type, if one is next.
    fn abstract_heap(&mut self) -> Option<AbstractHeapType>
        ensures { Finds (keyword_in absheaptype) self.old self.new result }
    {
        let ty = abstract_heap(self.key(0)?)?;
        self.skip();
        Some(ty)
    }

    /// Reads a heap type in parentheses: `(shared any)` (shared-everything threads proposal) or
    /// `(exact $t)` (custom descriptors proposal).
    fn heap_form(&mut self) -> HeapType<'a>
        ensures { Decides heaptype_form self.old self.new (bare_heap result) }
    {
        let heap = if self.accept_form(Key::Shared) {
            match self.abstract_heap() {
                Some(ty) => HeapType::Abstract { shared: true, ty },
                None => self.no_heap_type(),
            }
        } else if self.accept_form(Key::Exact) {
            HeapType::Exact(self.index())
        } else {
            self.no_heap_type()
        };
        self.close();
        heap
    }

    /// Fails because no heap type is next. The type that it returns is a dummy.
    fn no_heap_type(&mut self) -> HeapType<'a>
        ensures { Refuses self.old self.new }
    {
        self.expected("a heap type");
        HeapType::of(AbstractHeapType::Any)
    }

    /// Reads a heap type: a keyword, an index, or a form in parentheses (text format: heap types).
    #[tactic(auto, using(crate::proofs::Numbers::no_index))]
    pub(crate) fn heap_type(&mut self) -> HeapType<'a>
        ensures { Decides heaptype self.old self.new (bare_heap result) }
    {
        if let Some(ty) = self.abstract_heap() {
            return HeapType::of(ty);
        }
        if self.is_open(0) {
            return self.heap_form();
        }
        if self.is_index(0) {
            return HeapType::Concrete(self.index());
        }
        self.no_heap_type()
    }

    /// Returns whether a reference type is next: a keyword such as `funcref`, or `(ref` or
    /// `(shared`.
    pub(crate) fn is_ref_type(&self) -> bool
        ensures { result ≡ is_reftype (left self.now) }
    {
        if let Some(key) = self.key(0) {
            return referred(key).is_some();
        }
        self.is_form(Key::Ref) || self.is_form(Key::Shared)
    }

    /// Reads a keyword that abbreviates a reference type, if one is next, and returns its heap
    /// type.
    fn ref_word(&mut self) -> Option<AbstractHeapType>
        ensures { Finds (keyword_in refword) self.old self.new result }
    {
        let ty = referred(self.key(0)?)?;
        self.skip();
        Some(ty)
    }

    /// Reads `funcref)` of `(shared funcref)`, after `(shared` (shared-everything threads
    /// proposal).
    fn shared_ref(&mut self) -> RefType<'a>
        ensures { Decides shared_reftype self.old self.new (bare_ref result) }
    {
        let ty = match self.ref_word() {
            Some(ty) => ty,
            None => {
                self.expected("a reference type");
                AbstractHeapType::Any
            }
        };
        self.close();
        RefType::new(true, HeapType::Abstract { shared: true, ty })
    }

    /// Reads a reference type: `funcref`, `(ref null $t)` or `(shared funcref)` (text format:
    /// reference types).
    pub(crate) fn ref_type(&mut self) -> RefType<'a>
        ensures { Decides reftype self.old self.new (bare_ref result) }
    {
        if let Some(ty) = self.ref_word() {
            return RefType::new(true, HeapType::of(ty));
        }
        if self.accept_form(Key::Shared) {
            return self.shared_ref();
        }
        if !self.accept_form(Key::Ref) {
            self.expected("a reference type");
        }
        let nullable = self.accept(Key::Null);
        let heap = self.heap_type();
        self.close();
        RefType::new(nullable, heap)
    }

    /// Reads a number type or a vector type, if one is next.
    fn value_word(&mut self) -> Option<ValType<'a>>
        ensures { Finds (keyword_in numtype_or_vectype) self.old self.new (option_map bare_val result) }
    {
        let ty = plain_value(self.key(0)?)?;
        self.skip();
        Some(ty)
    }

    /// Reads a value type (text format: value types).
    #[tactic(auto, using(crate::proofs::References::no_reftype))]
    pub(crate) fn value_type(&mut self) -> ValType<'a>
        ensures { Decides valtype self.old self.new (bare_val result) }
    {
        if let Some(ty) = self.value_word() {
            return ty;
        }
        if !self.is_ref_type() {
            self.expected("a value type");
        }
        ValType::Ref(self.ref_type())
    }

    /// Reads the type that a field of a struct or an element of an array has: `i8`, `i16` or a
    /// value type (text format: composite types).
    fn storage_type(&mut self) -> StorageType<'a>
        ensures { Decides storagetype self.old self.new (bare_storage result) }
    {
        if self.accept(Key::I8) {
            return StorageType::I8;
        }
        if self.accept(Key::I16) {
            return StorageType::I16;
        }
        StorageType::Val(self.value_type())
    }

    /// Reads a field type, and whether the field is mutable. For example, `(mut i8)` is a mutable
    /// `i8`.
    fn field_type(&mut self) -> (bool, StorageType<'a>)
        ensures { Decides fieldtype self.old self.new (bare_field_type result) }
    {
        if self.accept_form(Key::Mut) {
            let ty = self.storage_type();
            self.close();
            return (true, ty);
        }
        (false, self.storage_type())
    }

    /// Appends a value type to a list.
    fn push_value(&mut self, values: &mut Seq<ValType<'a>>, ty: ValType<'a>)
        ensures { Pushes self.old self.new ty.entry values.old values.new }
    {
        let pushed = values.push(ty);
        self.took(pushed);
    }

    /// Appends the value types up to the closing `)`.
    #[tactic(auto, using(crate::proofs::Steps::one_bare, crate::proofs::Loops::part_end, crate::proofs::Loops::part_last, crate::proofs::Loops::none_after))]
    pub(crate) fn values(&mut self, values: &mut Seq<ValType<'a>>)
        ensures { ReadsOnto valtypes self.old self.new (bare_vals values.old) (bare_vals values.new) }
    {
        for _ in 0..self.left() {
            if self.is_end() {
                break;
            }
            let ty = self.value_type();
            self.push_value(values, ty);
        }
    }

    /// Appends a parameter to a list.
    fn push_param(
        &mut self,
        params: &mut Seq<(Option<Id<'a>>, Option<NameAnnotation<'a>>, ValType<'a>)>,
        param: (Option<Id<'a>>, Option<NameAnnotation<'a>>, ValType<'a>),
    )
        ensures { Pushes self.old self.new param.entry params.old params.new }
    {
        let pushed = params.push(param);
        self.took(pushed);
    }

    /// Reads the type of a parameter without an id.
    fn unnamed_param(&mut self) -> (Option<Id<'a>>, Option<NameAnnotation<'a>>, ValType<'a>)
        ensures { Decides unnamed_param self.old self.new (bare_param result) }
    {
        (None, None, self.value_type())
    }

    /// Reads the types of parameters without ids, up to the closing `)`, and appends the
    /// parameters.
    #[tactic(auto, using(crate::proofs::Steps::one_bare, crate::proofs::Loops::part_end, crate::proofs::Loops::part_last, crate::proofs::Loops::none_after))]
    fn unnamed_params(
        &mut self,
        params: &mut Seq<(Option<Id<'a>>, Option<NameAnnotation<'a>>, ValType<'a>)>,
    )
        ensures { ReadsOnto unnamed_params self.old self.new (map bare_param params.old) (map bare_param params.new) }
    {
        for _ in 0..self.left() {
            if self.is_end() {
                break;
            }
            let param = self.unnamed_param();
            self.push_param(params, param);
        }
    }

    /// Reads what comes after `(param`, and appends the parameters. They are one parameter with an
    /// id or a name annotation, as in `(param $x i32)`, or any number without, as in
    /// `(param i32 i64)`. If `are_named` is false, no parameter has an id or a name annotation.
    fn params(
        &mut self,
        params: &mut Seq<(Option<Id<'a>>, Option<NameAnnotation<'a>>, ValType<'a>)>,
        are_named: bool,
    )
        ensures { ReadsOnto (params_of are_named) self.old self.new (map bare_param params.old) (map bare_param params.new) }
    {
        if !are_named {
            self.unnamed_params(params);
            return;
        }
        let (id, name) = (self.id(), self.name());
        if id.is_some() || name.is_some() {
            let ty = self.value_type();
            self.push_param(params, (id, name, ty));
            return;
        }
        self.unnamed_params(params);
    }

    /// Reads `(param ..)`, and appends its parameters.
    #[tactic(auto, using(crate::proofs::Loops::closes))]
    fn param(
        &mut self,
        params: &mut Seq<(Option<Id<'a>>, Option<NameAnnotation<'a>>, ValType<'a>)>,
        are_named: bool,
    )
        requires { is_form key.Param (left self.old) ≡ true }
        ensures { ReadsOnto (param are_named) self.old self.new (map bare_param params.old) (map bare_param params.new) }
    {
        self.skip();
        self.skip();
        self.params(params, are_named);
        self.close();
    }

    /// Reads forms `(param ..)` as long as one is next, and appends their parameters.
    #[tactic(auto, using(crate::proofs::Steps::one_list, crate::proofs::Loops::list_end, crate::proofs::Loops::list_last, crate::proofs::Loops::none_after))]
    fn all_params(
        &mut self,
        params: &mut Seq<(Option<Id<'a>>, Option<NameAnnotation<'a>>, ValType<'a>)>,
        are_named: bool,
    )
        ensures { ReadsOnto (all_params are_named) self.old self.new (map bare_param params.old) (map bare_param params.new) }
    {
        for _ in 0..self.left() {
            if !self.is_form(Key::Param) {
                break;
            }
            self.param(params, are_named);
        }
    }

    /// Reads `(result ..)`, and appends its types.
    #[tactic(auto, using(crate::proofs::Loops::closes))]
    fn result(&mut self, results: &mut Seq<ValType<'a>>)
        requires { is_form key.Result (left self.old) ≡ true }
        ensures { ReadsOnto a_result self.old self.new (bare_vals results.old) (bare_vals results.new) }
    {
        self.skip();
        self.skip();
        self.values(results);
        self.close();
    }

    /// Reads forms `(result i32 i64)` as long as one is next, and appends their types.
    #[tactic(auto, using(crate::proofs::Steps::one_list, crate::proofs::Loops::list_end, crate::proofs::Loops::list_last, crate::proofs::Loops::none_after))]
    pub(crate) fn all_results(&mut self, results: &mut Seq<ValType<'a>>)
        ensures { ReadsOnto all_results self.old self.new (bare_vals results.old) (bare_vals results.new) }
    {
        for _ in 0..self.left() {
            if !self.is_form(Key::Result) {
                break;
            }
            self.result(results);
        }
    }

    /// Reads the parameters and results of a function (text format: composite types). For example,
    /// `(param i32) (result i32 i64)`. It is an error if `(param` comes after a result.
    #[tactic(auto, using(crate::proofs::Loops::from_nothing))]
    pub(crate) fn function_type(&mut self, are_named: bool) -> FunctionType<'a>
        ensures { Reads (functype are_named) self.old self.new (bare_function_type result) }
    {
        let mut params = Seq::new(self.alloc);
        let mut results = Seq::new(self.alloc);
        self.all_params(&mut params, are_named);
        self.all_results(&mut results);
        if self.is_form(Key::Param) {
            self.skip();
            self.fail(TextFault::ParamBehindResult);
        }
        FunctionType::new(fitted(params), fitted(results))
    }

    /// Reads `(type $t)`, if it is next.
    fn type_index(&mut self) -> Option<Index<'a>>
        ensures { Decides type_index self.old self.new (bare_index_option result) }
    {
        if self.accept_form(Key::Ty) {
            let index = self.index();
            self.close();
            return Some(index);
        }
        None
    }

    /// Reads a type use (text format: type uses): `(type $t)`, or parameters and results, or both,
    /// or nothing. Parameters have ids only if `are_named` is true, which it is not for blocks and
    /// indirect calls.
    pub(crate) fn type_use(&mut self, are_named: bool) -> TypeUse<'a, FunctionType<'a>>
        ensures { Reads (typeuse are_named) self.old self.new (bare_type_use result) }
    {
        let index = self.type_index();
        let is_inline = self.is_form(Key::Param) || self.is_form(Key::Result);
        match (index, is_inline) {
            (None, false) => TypeUse::none(),
            (Some(index), false) => TypeUse::of(index),
            (None, true) => TypeUse::inline(self.function_type(are_named)),
            (Some(index), true) => TypeUse::both(index, self.function_type(are_named)),
        }
    }

    /// Appends a field of a struct to a list.
    fn push_struct_field(&mut self, fields: &mut Seq<StructField<'a>>, field: StructField<'a>)
        ensures { Pushes self.old self.new field.entry fields.old fields.new }
    {
        let pushed = fields.push(field);
        self.took(pushed);
    }

    /// Reads the type of a field without an id.
    fn unnamed_field(&mut self) -> StructField<'a>
        ensures { Decides unnamed_field self.old self.new (bare_struct_field result) }
    {
        let (mutable, ty) = self.field_type();
        StructField::new(None, mutable, ty)
    }

    /// Reads the types of fields without ids, up to the closing `)`, and appends the fields.
    #[tactic(auto, using(crate::proofs::Steps::one_bare, crate::proofs::Loops::part_end, crate::proofs::Loops::part_last, crate::proofs::Loops::none_after))]
    fn unnamed_fields(&mut self, fields: &mut Seq<StructField<'a>>)
        ensures { ReadsOnto unnamed_fields self.old self.new (map bare_struct_field fields.old) (map bare_struct_field fields.new) }
    {
        for _ in 0..self.left() {
            if self.is_end() {
                break;
            }
            let field = self.unnamed_field();
            self.push_struct_field(fields, field);
        }
    }

    /// Reads what comes after `(field`, and appends the fields. They are one field with an id or a
    /// name annotation, as in `(field $x i8)`, or any number without, as in `(field i8 (mut i32))`.
    fn struct_fields(&mut self, fields: &mut Seq<StructField<'a>>)
        ensures { ReadsOnto struct_fields self.old self.new (map bare_struct_field fields.old) (map bare_struct_field fields.new) }
    {
        let (id, name) = (self.id(), self.name());
        if id.is_some() || name.is_some() {
            let (mutable, ty) = self.field_type();
            let field = StructField {
                id,
                name,
                mutable,
                ty,
            };
            self.push_struct_field(fields, field);
            return;
        }
        self.unnamed_fields(fields);
    }

    /// Reads `(field ..)`, and appends its fields.
    #[tactic(auto, using(crate::proofs::Loops::closes))]
    fn struct_field(&mut self, fields: &mut Seq<StructField<'a>>)
        requires { is_form key.Field (left self.old) ≡ true }
        ensures { ReadsOnto struct_field self.old self.new (map bare_struct_field fields.old) (map bare_struct_field fields.new) }
    {
        self.skip();
        self.skip();
        self.struct_fields(fields);
        self.close();
    }

    /// Reads forms `(field ..)` as long as one is next, and appends their fields.
    #[tactic(auto, using(crate::proofs::Steps::one_list, crate::proofs::Loops::list_end, crate::proofs::Loops::list_last, crate::proofs::Loops::none_after))]
    fn all_fields(&mut self, fields: &mut Seq<StructField<'a>>)
        ensures { ReadsOnto all_fields self.old self.new (map bare_struct_field fields.old) (map bare_struct_field fields.new) }
    {
        for _ in 0..self.left() {
            if !self.is_form(Key::Field) {
                break;
            }
            self.struct_field(fields);
        }
    }

    /// Reads the fields of a struct, after `(struct`.
    #[tactic(auto, using(crate::proofs::Loops::from_nothing))]
    fn struct_type(&mut self) -> StructType<'a>
        ensures { Reads structtype self.old self.new (bare_struct_type result) }
    {
        let mut fields = Seq::new(self.alloc);
        self.all_fields(&mut fields);
        StructType { fields }
    }

    /// Reads a composite type from its `(` on, without its `)`.
    fn composite_form(&mut self) -> InnerTypeKind<'a>
        ensures { Reads comptype_form self.old self.new (bare_composite result) }
    {
        if self.accept_form(Key::Func) {
            return InnerTypeKind::Func(self.function_type(true));
        }
        if self.accept_form(Key::Struct) {
            return InnerTypeKind::Struct(self.struct_type());
        }
        if self.accept_form(Key::Array) {
            let (mutable, ty) = self.field_type();
            return InnerTypeKind::Array(ArrayType { mutable, ty });
        }
        if self.accept_form(Key::Cont) {
            return InnerTypeKind::Cont(ContType(self.index()));
        }
        self.expected("`(func`, `(struct`, `(array` or `(cont`");
        InnerTypeKind::Struct(StructType {
            fields: Seq::new(self.alloc),
        })
    }

    /// Reads a composite type: `(func ..)`, `(struct ..)`, `(array ..)` or `(cont $t)` (text
    /// format: composite types; stack switching proposal).
    fn composite(&mut self) -> InnerTypeKind<'a>
        ensures { Reads comptype self.old self.new (bare_composite result) }
    {
        let kind = self.composite_form();
        self.close();
        kind
    }

    /// Reads `(describes $t)` or `(descriptor $t)`, by its keyword, if it is next (custom
    /// descriptors proposal).
    fn related(&mut self, key: Key) -> Option<Index<'a>>
        ensures { Decides (related key) self.old self.new (bare_index_option result) }
    {
        if self.accept_form(key) {
            let index = self.index();
            self.close();
            return Some(index);
        }
        None
    }

    /// Reads a composite type with the forms `(describes $t)` and `(descriptor $t)` before it, if
    /// they are there (custom descriptors proposal).
    fn described(
        &mut self,
        shared: bool,
        final_type: Option<bool>,
        parents: Seq<Index<'a>>,
    ) -> TypeDef<'a>
        ensures { Reads (described shared final_type (bare_indices parents.entry)) self.old self.new (bare_type_def result) }
    {
        let describes = self.related(Key::Describes);
        let descriptor = self.related(Key::Descriptor);
        let kind = self.composite();
        TypeDef {
            kind,
            shared,
            parents,
            descriptor,
            describes,
            final_type,
        }
    }

    /// Reads a type definition without `sub`, which is in `(shared ..)` if it is shared
    /// (shared-everything threads proposal).
    fn plain_def(&mut self, final_type: Option<bool>, parents: Seq<Index<'a>>) -> TypeDef<'a>
        ensures { Reads (maybe_shared final_type (bare_indices parents.entry)) self.old self.new (bare_type_def result) }
    {
        if self.accept_form(Key::Shared) {
            let def = self.described(true, final_type, parents);
            self.close();
            return def;
        }
        self.described(false, final_type, parents)
    }

    /// Reads indices as long as one is next, and appends them.
    #[tactic(auto, using(crate::proofs::Steps::one_bare, crate::proofs::Loops::part_end, crate::proofs::Loops::part_last, crate::proofs::Loops::none_after))]
    fn indices(&mut self, indices: &mut Seq<Index<'a>>)
        ensures { ReadsOnto all_indices self.old self.new (bare_indices indices.old) (bare_indices indices.new) }
    {
        for _ in 0..self.left() {
            if !self.is_index(0) {
                break;
            }
            let index = self.index();
            self.push_index(indices, index);
        }
    }

    /// Reads what a type is defined as: `(sub final $t (func))`, or a composite type alone (text
    /// format: recursive types).
    #[tactic(auto, using(crate::proofs::Loops::from_nothing))]
    fn type_def(&mut self) -> TypeDef<'a>
        ensures { Reads subtype self.old self.new (bare_type_def result) }
    {
        let mut parents = Seq::new(self.alloc);
        if !self.accept_form(Key::Sub) {
            return self.plain_def(None, parents);
        }
        let is_final = self.accept(Key::Final);
        self.indices(&mut parents);
        let def = self.plain_def(Some(is_final), parents);
        self.close();
        def
    }

    /// Reads `type`, or fails.
    fn type_keyword(&mut self)
        ensures { Expects (keyword key.Ty) self.old self.new }
    {
        if !self.accept(Key::Ty) {
            self.expected("`type`");
        }
    }

    /// Reads a type definition such as `type $t (func)`, without its parentheses (text format:
    /// types).
    pub(crate) fn type_field(&mut self) -> Type<'a>
        ensures { Reads typedef self.old self.new (bare_type result) }
    {
        let span = self.place();
        self.type_keyword();
        let (id, name) = (self.id(), self.name());
        let def = self.type_def();
        Type {
            span,
            id,
            name,
            def,
        }
    }

    /// Reads `(type ..)` in a `rec` group.
    fn rec_type(&mut self) -> Type<'a>
        ensures { Reads typedef_form self.old self.new (bare_type result) }
    {
        self.open();
        let ty = self.type_field();
        self.close();
        ty
    }

    /// Appends a type to a `rec` group.
    #[tactic(auto, using(crate::proofs::Makes::none_failed), unfolding(crate::specs::Readers::left))]
    fn push_type(&mut self, types: &mut Seq<Type<'a>>, ty: Type<'a>)
        ensures { Builds self.old self.new ty.entry types.old types.new }
    {
        self.make.push_type(types, ty);
    }

    /// Appends the types of a `rec` group, up to the closing `)`.
    #[tactic(auto, using(crate::proofs::Steps::one_built, crate::proofs::Loops::part_end, crate::proofs::Loops::part_last, crate::proofs::Loops::none_after))]
    fn rec_types(&mut self, types: &mut Seq<Type<'a>>)
        ensures { ReadsOnto typedefs self.old self.new (map bare_type types.old) (map bare_type types.new) }
    {
        for _ in 0..self.left() {
            if self.is_end() {
                break;
            }
            let ty = self.rec_type();
            self.push_type(types, ty);
        }
    }

    /// Reads the field `(rec ..)`, without its parentheses (text format: recursive types).
    #[tactic(auto, using(crate::proofs::Loops::from_nothing))]
    pub(crate) fn rec_field(&mut self) -> Rec<'a>
        requires { is_key key.Rec (key_of (peek 0 (left self.old))) ≡ true }
        ensures { Reads rectype self.old self.new (bare_rec result) }
    {
        let span = self.place();
        self.skip();
        let mut types = Seq::new(self.alloc);
        self.rec_types(&mut types);
        Rec::new(span, types)
    }

    /// Reads an unsigned 64-bit integer.
    #[tactic(auto, using(crate::proofs::Numbers::unsigned_is, crate::proofs::Numbers::unsigned_not))]
    pub(crate) fn number64(&mut self) -> u64
        ensures { Decides u64 self.old self.new result }
    {
        let place = self.place();
        let text = self.number();
        self.value(place, unsigned64(text), 0)
    }

    /// Reads an address type, if one is next, and returns whether it is `i64` (text format: address
    /// types).
    pub(crate) fn is64(&mut self) -> bool
        ensures { Decides addrtype self.old self.new result }
    {
        !self.accept(Key::I32) && self.accept(Key::I64)
    }

    /// Reads limits such as `1 2` (text format: limits). `is64` is whether indices have 64 bits.
    pub(crate) fn limits(&mut self, is64: bool) -> Limits
        ensures { Decides (limits is64) self.old self.new result }
    {
        let min = self.number64();
        let max = match self.is_number(0) {
            true => Some(self.number64()),
            false => None,
        };
        Limits { is64, min, max }
    }

    /// Reads a table type such as `1 2 funcref` (text format: table types).
    pub(crate) fn table_type(&mut self) -> TableType<'a>
        ensures { Decides tabletype self.old self.new (bare_table_type result) }
    {
        let shared = self.accept(Key::Shared);
        let is64 = self.is64();
        let limits = self.limits(is64);
        TableType {
            limits,
            elem: self.ref_type(),
            shared,
        }
    }

    /// Reads `(pagesize 65536)`, if it is next, and returns the exponent of 2, which is 16 here
    /// (custom page sizes proposal). It is an error if the page size is not a power of two.
    pub(crate) fn page_size(&mut self) -> Option<u32>
        ensures { Decides pagesize self.old self.new result }
    {
        if !self.accept_form(Key::Pagesize) {
            return None;
        }
        let place = self.place();
        let size = self.number64();
        self.close();
        if !size.is_power_of_two() {
            self.fail_at(place, TextFault::PageSize);
            return None;
        }
        Some(size.trailing_zeros())
    }

    /// Reads a memory type such as `i64 1 2 shared` (text format: memory types).
    pub(crate) fn memory_type(&mut self) -> MemoryType
        ensures { Decides memtype self.old self.new result }
    {
        let is64 = self.is64();
        let limits = self.limits(is64);
        let shared = self.accept(Key::Shared);
        let page_size_log2 = self.page_size();
        MemoryType {
            limits,
            shared,
            page_size_log2,
        }
    }

    /// Reads a global type such as `i32`, `(mut i32)` or `(shared mut i32)` (text format: global
    /// types).
    pub(crate) fn global_type(&mut self) -> GlobalType<'a>
        ensures { Decides globaltype self.old self.new (bare_global_type result) }
    {
        if self.is_form(Key::Shared) && !self.is_shared_ref() {
            self.skip();
            self.skip();
            let mutable = self.accept(Key::Mut);
            let ty = self.value_type();
            self.close();
            return GlobalType {
                ty,
                mutable,
                shared: true,
            };
        }
        if self.accept_form(Key::Mut) {
            let ty = self.value_type();
            self.close();
            return GlobalType {
                ty,
                mutable: true,
                shared: false,
            };
        }
        GlobalType {
            ty: self.value_type(),
            mutable: false,
            shared: false,
        }
    }

    /// Returns whether the third token abbreviates a reference type. Then `(shared` begins a
    /// reference type, as in `(shared funcref)`, and not a shared global type.
    fn is_shared_ref(&self) -> bool
        ensures { result ≡ is_shared_ref (left self.now) }
    {
        match self.key(2) {
            Some(key) => referred(key).is_some(),
            None => false,
        }
    }
}

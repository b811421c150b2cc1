//! The profile of a field: its kind, its position and the items that it defines.

ghost use Rattle.std.specs.Prelude.{◌≡◌};
ghost use Rattle.wast_tree_nodes.specs.Profiles.{is_imported_func, is_imported_table, is_imported_memory, is_imported_global, is_imported_tag, custom_span, profile, lone, profile_of, items_read, profile_read};

use crate::customs::Custom;
use crate::fields::{FuncKind, GlobalKind, MemoryKind, ModuleField, TableKind, TagKind};
use crate::imports::ImportItems;
use crate::kinds::FieldKind;
use crate::types::Type;
use wast_base::{Id, NameAnnotation, Space, Span};

/// The item of a field that defines exactly one.
#[derive(Clone, Copy)]
pub struct LoneItem<'f, 'a> {
    /// Its index space.
    pub space: Space,
    /// Its id.
    pub id: &'f Option<Id<'a>>,
    /// Its name annotation.
    pub name: &'f Option<NameAnnotation<'a>>,
    /// Whether it has an inline import; `None` for a segment, which cannot be imported.
    pub imported: Option<bool>,
}

/// The items that a field defines.
#[derive(Clone, Copy)]
pub enum FieldItems<'f, 'a> {
    /// No item.
    Nothing,
    /// A type.
    Type(&'f Type<'a>),
    /// The types of a `rec` group.
    Types(&'f [Type<'a>]),
    /// Imported items.
    Imported(&'f ImportItems<'a>),
    /// One item.
    Lone(LoneItem<'f, 'a>),
}

/// The kind, position and items of a field, which many functions read.
///
/// For example, `(func $f (import "a" "b"))` has the kind `Func`, the position of `func`, and one
/// item: a function with the id `$f` that is imported. A new field states its profile once, in
/// [`profile_of`].
#[derive(Clone, Copy)]
pub struct FieldProfile<'f, 'a> {
    /// Its kind.
    pub kind: FieldKind,
    /// Its position; 0 for `@producers` and `@dylink.0`, because the AST has no position of these.
    pub span: Span,
    /// The items that it defines.
    pub items: FieldItems<'f, 'a>,
}

impl<'f, 'a> FieldProfile<'f, 'a> {
    /// Makes a profile of its parts.
    #[inline(always)]
    fn new(kind: FieldKind, span: Span, items: FieldItems<'f, 'a>) -> FieldProfile<'f, 'a>
        ensures { profile_read result ≡ profile kind span (items_read items.entry) }
    {
        FieldProfile { kind, span, items }
    }

    /// Makes the profile of a field that defines one item.
    #[inline(always)]
    fn lone(
        kind: FieldKind,
        span: Span,
        space: Space,
        id: &'f Option<Id<'a>>,
        name: &'f Option<NameAnnotation<'a>>,
        imported: Option<bool>,
    ) -> FieldProfile<'f, 'a>
        ensures { profile_read result ≡ lone kind span space id.now name.now imported }
    {
        let item = LoneItem {
            space,
            id,
            name,
            imported,
        };
        FieldProfile::new(kind, span, FieldItems::Lone(item))
    }
}

impl FuncKind<'_> {
    /// Returns whether the function has an inline import.
    #[inline(always)]
    pub(crate) fn is_imported(&self) -> bool
        ensures { result ≡ is_imported_func self.now }
    {
        matches!(self, FuncKind::Import(..))
    }
}

impl TableKind<'_> {
    /// Returns whether the table has an inline import.
    #[inline(always)]
    fn is_imported(&self) -> bool
        ensures { result ≡ is_imported_table self.now }
    {
        matches!(self, TableKind::Import { .. })
    }
}

impl MemoryKind<'_> {
    /// Returns whether the memory has an inline import.
    #[inline(always)]
    fn is_imported(&self) -> bool
        ensures { result ≡ is_imported_memory self.now }
    {
        matches!(self, MemoryKind::Import { .. })
    }
}

impl GlobalKind<'_> {
    /// Returns whether the global has an inline import.
    #[inline(always)]
    pub(crate) fn is_imported(&self) -> bool
        ensures { result ≡ is_imported_global self.now }
    {
        matches!(self, GlobalKind::Import(_))
    }
}

impl TagKind<'_> {
    /// Returns whether the tag has an inline import.
    #[inline(always)]
    pub(crate) fn is_imported(&self) -> bool
        ensures { result ≡ is_imported_tag self.now }
    {
        matches!(self, TagKind::Import(_))
    }
}

impl Custom<'_> {
    /// Returns the position of the section in the source, or 0 if the AST has none.
    #[inline(always)]
    fn span(&self) -> Span
        ensures { result ≡ custom_span self.now }
    {
        match self {
            Custom::Raw(section) => section.span,
            Custom::Producers(_) | Custom::Dylink0(_) => Span { offset: 0 },
        }
    }
}

/// Returns the kind, position and items of a field (text format: modules).
#[inline(always)]
pub fn profile_of<'f, 'a>(field: &'f ModuleField<'a>) -> FieldProfile<'f, 'a>
    ensures { profile_read result ≡ profile_of field.now }
{
    match field {
        ModuleField::Ty(ty) => FieldProfile::new(FieldKind::Ty, ty.span, FieldItems::Type(ty)),
        ModuleField::Rec(rec) => {
            let types = FieldItems::Types(rec.types.as_slice());
            FieldProfile::new(FieldKind::Rec, rec.span, types)
        }
        ModuleField::Import(import) => {
            let items = FieldItems::Imported(&import.items);
            FieldProfile::new(FieldKind::Import, import.span, items)
        }
        ModuleField::Func(func) => {
            let imported = Some(func.kind.is_imported());
            FieldProfile::lone(
                FieldKind::Func,
                func.span,
                Space::Func,
                &func.id,
                &func.name,
                imported,
            )
        }
        ModuleField::Table(table) => {
            let imported = Some(table.kind.is_imported());
            FieldProfile::lone(
                FieldKind::Table,
                table.span,
                Space::Table,
                &table.id,
                &table.name,
                imported,
            )
        }
        ModuleField::Memory(memory) => {
            let imported = Some(memory.kind.is_imported());
            FieldProfile::lone(
                FieldKind::Memory,
                memory.span,
                Space::Memory,
                &memory.id,
                &memory.name,
                imported,
            )
        }
        ModuleField::Global(global) => {
            let imported = Some(global.kind.is_imported());
            FieldProfile::lone(
                FieldKind::Global,
                global.span,
                Space::Global,
                &global.id,
                &global.name,
                imported,
            )
        }
        ModuleField::Export(export) => {
            FieldProfile::new(FieldKind::Export, export.span, FieldItems::Nothing)
        }
        ModuleField::Start(func) => {
            FieldProfile::new(FieldKind::Start, func.span(), FieldItems::Nothing)
        }
        ModuleField::Elem(elem) => FieldProfile::lone(
            FieldKind::Elem,
            elem.span,
            Space::Elem,
            &elem.id,
            &elem.name,
            None,
        ),
        ModuleField::Data(data) => FieldProfile::lone(
            FieldKind::Data,
            data.span,
            Space::Data,
            &data.id,
            &data.name,
            None,
        ),
        ModuleField::Tag(tag) => {
            let imported = Some(tag.kind.is_imported());
            FieldProfile::lone(
                FieldKind::Tag,
                tag.span,
                Space::Tag,
                &tag.id,
                &tag.name,
                imported,
            )
        }
        ModuleField::Custom(custom) => FieldProfile::new(
            FieldKind::Custom(custom.place()),
            custom.span(),
            FieldItems::Nothing,
        ),
    }
}

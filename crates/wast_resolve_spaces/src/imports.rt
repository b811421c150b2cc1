//! The order of imports: each must come before definitions.

ghost use Rattle.std.specs.Prelude.{◌≡◌, None, IfOk, IfErr, OnOk};
ghost use Rattle.wast_base.specs.Faults.{diagnostic_of};
ghost use Rattle.wast_tree_nodes.specs.Imports.{importable_space, defined_space};
ghost use Rattle.wast_tree_nodes.specs.Profiles.{items_read};
ghost use Rattle.wast_base.specs.FirstUnmet.{first_unmet, Answers};
ghost use Rattle.wast_base.specs.Outcomes.{Outcome};
ghost use Rattle.wast_resolve_rules.specs.ImportOrder.{imported_at, import_at, import_place, defines, defined_word, nothing_defined};
ghost use Rattle.wast_resolve_rules.specs.Demands.{order_demands};

use wast_base::{Error, Fault, Seq, Space, Span};
use wast_tree_nodes::{FieldItems, ModuleField, discard_fields, profile_of};

/// Returns the span of a field, if its import is inline.
fn imported_at(span: Span, imported: Option<bool>) -> Option<Span>
    ensures { result ≡ imported_at span imported }
{
    match imported {
        Some(true) => Some(span),
        Some(false) | None => None,
    }
}

/// Returns the span of a field, if it is an import.
fn import_at(span: Span, items: FieldItems<'_, '_>) -> Option<Span>
    ensures { result ≡ import_at span (items_read items.entry) }
{
    match items {
        FieldItems::Nothing | FieldItems::Type(_) | FieldItems::Types(_) => None,
        FieldItems::Imported(_) => Some(span),
        FieldItems::Lone(item) => imported_at(span, item.imported),
    }
}

/// Returns the span of a field, if it is an import or has an inline import.
fn import_place(field: &ModuleField<'_>) -> Option<Span>
    ensures { result ≡ import_place field.now }
{
    let profile = profile_of(field);
    import_at(profile.span, profile.items)
}

/// Returns the index space of the item that a field defines, if such items can be imported.
fn importable_space(items: FieldItems<'_, '_>) -> Option<Space>
    ensures { result ≡ importable_space (items_read items.entry) }
{
    match items {
        FieldItems::Nothing | FieldItems::Type(_) | FieldItems::Types(_) => None,
        FieldItems::Imported(_) => None,
        FieldItems::Lone(item) => item.imported.map(|_| item.space),
    }
}

/// Returns the index space of a field, if it is a function, table, memory, global or tag.
fn defined_space(field: &ModuleField<'_>) -> Option<Space>
    ensures { result ≡ defined_space field.now }
{
    importable_space(profile_of(field).items)
}

/// Does the same, except for a field with an inline import, which defines nothing.
fn defines(field: &ModuleField<'_>) -> Option<Space>
    ensures { result ≡ defines field.now }
{
    match import_place(field) {
        Some(_) => None,
        None => defined_space(field),
    }
}

/// Returns the kind of item in an index space, as a word for the message.
fn defined_word(space: Space) -> &'static str
    ensures { result.now ≡ defined_word space }
{
    match space {
        Space::Func => "function",
        Space::Table => space.word(),
        Space::Memory => space.word(),
        Space::Global => space.word(),
        Space::Tag => space.word(),
        Space::Elem => space.word(),
        Space::Data => space.word(),
        Space::Ty => space.word(),
    }
}

/// Fails with E1 at a field that is an import, if a definition comes before it.
fn check_import<'e>(field: &ModuleField<'_>, last: Option<Space>) -> Result<(), Error<'e>>
    ensures { Outcome ⊥ ⊥ (first_unmet (nothing_defined last (import_place field.now))) result }
{
    match (import_place(field), last) {
        (Some(place), Some(space)) => {
            Err(Error::new(place, Fault::ImportAfter(defined_word(space))))
        }
        (Some(_), None) => Ok(()),
        (None, Some(_)) => Ok(()),
        (None, None) => Ok(()),
    }
}

/// Checks that each import comes before all definitions, or fails with E1 at the first that does
/// not. Does not allocate.
///
/// For example, `(func) (import "" "" (func))` fails at the import.
pub fn check_order<'e>(fields: &[ModuleField<'_>]) -> Result<(), Error<'e>>
    ensures { Outcome ⊥ ⊥ (first_unmet (order_demands fields.now)) result }
{
    let mut last = None;
    for field in fields {
        check_import(field, last)?;
        last = defines(field).or(last);
    }
    Ok(())
}

/// Checks a list, and leaves it unchanged.
///
/// It borrows the list mutably. With a shared borrow the prover would compare the type of the whole
/// tree with itself.
fn check_list<'a, 'e>(fields: &mut Seq<ModuleField<'a>>) -> Result<(), Error<'e>>
    ensures outcome { Outcome ⊥ ⊥ (first_unmet (order_demands fields.old)) result }
    ensures stays { fields.new ≡ fields.old }
{
    check_order(fields.as_slice())
}

/// Returns the fields, if each import comes before all definitions. Otherwise the fields are
/// dropped, and the call fails with E1 at the first import that does not. Does not allocate.
///
/// For example, `(import "" "" (func)) (func)` is returned, and `(func) (import "" "" (func))`
/// fails at the import.
///   is E1.
pub fn in_order<'a>(fields: Seq<ModuleField<'a>>) -> Result<Seq<ModuleField<'a>>, Error<'a>>
    ensures met { OnOk result (first_unmet (order_demands fields.entry) ≡ None) }
    ensures list { IfOk result (λ r. r ≡ fields.entry) }
    ensures refusal { IfErr result (λ e. Answers ⊥ ⊥ (diagnostic_of e) (first_unmet (order_demands fields.entry))) }
{
    let mut fields = fields;
    match check_list(&mut fields) {
        Ok(()) => Ok(fields),
        Err(e) => {
            discard_fields(fields);
            Err(e)
        }
    }
}

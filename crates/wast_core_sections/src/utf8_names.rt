//! Lemmas that the names in fields are UTF-8.

ghost use Rattle.std.specs.Prelude.{All, IsTrue};
ghost use Rattle.std.specs.Str.{is_utf8};
ghost use Rattle.wast_core_sections.specs.Utf8Names.{HasUtf8Items, HasUtf8Names};

use wast_tree_nodes::{ImportItems, ModuleField};

/// States that a text is UTF-8. Does nothing.
fn text_law(text: &str)
    ensures { IsTrue (is_utf8 text.now) }
{}

/// States that the names of an import are UTF-8. Does nothing.
fn import_law(items: &ImportItems)
    ensures { HasUtf8Items items.now }
{
    match items {
        ImportItems::Single { module, name, .. } => {
            text_law(module);
            text_law(name);
        }
        ImportItems::Group1 { .. } | ImportItems::Group2 { .. } => {}
    }
}

/// States that the names of a field are UTF-8. Does nothing.
fn field_law(field: &ModuleField)
    ensures { HasUtf8Names field.now }
{
    match field {
        ModuleField::Import(imports) => import_law(&imports.items),
        ModuleField::Export(export) => text_law(export.name),
        ModuleField::Custom(custom) => text_law(custom.name()),
        _ => {}
    }
}

/// States that the names that fields have in sections are UTF-8. Does nothing.
pub(crate) fn names_law(fields: &[ModuleField])
    ensures { All HasUtf8Names fields.now }
{
    for field in fields {
        field_law(field);
    }
}

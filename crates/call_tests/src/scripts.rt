//! The commands of scripts, with their positions, and their modules.

use std::alloc::Global;
use std::process::Abort;
use wast_script::{CommandKind, ModuleForm, Script, ScriptModule, Value, read_script};
use wast_tree::{HeapType, Index, discard_fields, line_and_column};
use wat_text::{Strings, TextKind, TextModule};

/// Checks the lines and columns of the commands of a script.
fn has_places(rt: &impl Abort, alloc: Global, text: &str, places: &[(usize, usize)]) {
    let strings = Strings::new(alloc);
    match read_script(alloc, text, &strings) {
        Ok(script) => {
            assert!(rt; script.commands.len() == places.len(), "{text}");
            for (command, place) in script.commands.iter().zip(places) {
                let told = line_and_column(script.text, command.span);
                assert!(rt; told == *place, "{text}");
            }
        }
        Err(error) => {
            let (line, column) = line_and_column(text, error.span);
            assert!(rt; false, "{line}:{column}: {error}");
        }
    }
}

#[test]
fn commands_are_at_their_words(rt: HostRuntime) {
    let alloc = rt.alloc();
    has_places(&rt, alloc, "", &[(1, 1)]);
    has_places(&rt, alloc, "(func) (memory 1)", &[(1, 1)]);
    has_places(
        &rt,
        alloc,
        "(register \"m\" $M) (get \"h\")\n(module\n  (func)) (assert_return\n  (invoke \"f\"))",
        &[(1, 2), (1, 20), (2, 2), (3, 12)],
    );
    // The last two are the ends of threads.
    has_places(
        &rt,
        alloc,
        "(thread $T (register \"m\" $M) (thread $U (invoke \"f\"))) (wait $T)",
        &[(1, 2), (1, 13), (1, 31), (1, 42), (1, 53), (1, 54), (1, 57)],
    );
}

/// Drops a module.
fn drop_module(module: TextModule<'_>) {
    let TextModule {
        span: _span,
        id: _id,
        name: _name,
        kind,
    } = module;
    match kind {
        TextKind::Fields(fields) => discard_fields(fields),
        TextKind::Binary(_pieces) => (),
    }
}

/// Returns whether a module of a script has this form and so many bytes in its strings, and its
/// error is at this offset of the script, if it has one.
fn is_read<'a>(
    rt: &impl Abort,
    alloc: Global,
    script: &Script<'a>,
    strings: &'a Strings,
    module: &ScriptModule<'a>,
    wanted: (ModuleForm, usize, Option<usize>),
) -> bool {
    let bytes = script.bytes(alloc, module).expect(rt, "memory").len();
    let fault = match script.read(alloc, module, strings) {
        Ok(read) => {
            drop_module(read);
            None
        }
        Err(error) => Some(error.span.offset),
    };
    module.form == wanted.0 && bytes == wanted.1 && fault == wanted.2
}

#[test]
fn modules_have_forms_and_errors(rt: HostRuntime) {
    let alloc = rt.alloc();
    let strings = Strings::new(alloc);
    let text = r#"(module binary "\00asm" "\01\00\00\00") (module quote "(func" ")")
(module $q quote "(func") (module (func i32.foo))"#;
    let script = read_script(alloc, text, &strings).expect(&rt, "a script");
    let wanted = [
        (ModuleForm::Binary, 8, None),
        (ModuleForm::Quote, 6, None),
        (ModuleForm::Quote, 5, Some(84)),
        (ModuleForm::Fields, 0, Some(107)),
    ];
    for (command, it) in script.commands.iter().zip(&wanted) {
        let is_right = match &command.kind {
            CommandKind::Module(module) => is_read(&rt, alloc, &script, &strings, module, *it),
            _ => false,
        };
        assert!(rt; is_right);
    }
    assert!(rt; script.commands.len() == 4);
}

#[test]
fn references_have_types_and_indices(rt: HostRuntime) {
    let alloc = rt.alloc();
    let strings = Strings::new(alloc);
    let text = r#"(invoke "f" (ref.null $t) (ref.null (shared any)) (ref.host 2))"#;
    let script = read_script(alloc, text, &strings).expect(&rt, "a script");
    let values = script.values.as_slice();
    assert!(rt; values.len() == 3);
    let is_named = match values[0] {
        Value::RefNull(Some(HeapType::Concrete(Index::Id(id)))) => id.name() == "t",
        _ => false,
    };
    let is_shared = match values[1] {
        Value::RefNull(Some(HeapType::Abstract { shared, ty: _ })) => shared,
        _ => false,
    };
    assert!(rt; is_named && is_shared && matches!(values[2], Value::RefHost(2)));
}

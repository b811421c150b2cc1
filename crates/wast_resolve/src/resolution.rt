//! Resolving, and look-ups of ids afterwards.

ghost use Rattle.std.specs.Prelude.{◌≡◌, ◌<◌, ◌≤◌, ◌+◌, [], None, All, IfOk, IfErr, IsTrue, OnOk};
ghost use Rattle.wast_tree_nodes.specs.Items.{items};
ghost use Rattle.wast_tree_nodes.specs.Known.{id_context};
ghost use Rattle.wast_tree_nodes.specs.Generations.{greatest_generation};
ghost use Rattle.wast_expand_keys.specs.Expanded.{expanded_fields, type_id_count, StopsExpanding};
ghost use Rattle.wast_resolve.specs.Tree.space;
ghost use Rattle.wast_resolve_rules.specs.Demands.{first_unmet, demands, IsUnresolved};
ghost use Rattle.wast_resolve_rules.specs.Resolved.{numbered_at};
ghost use Rattle.wast_resolve_rules.specs.Explicit.{explicit_fields, explicit_fields_from, generated_id_count};
ghost use Rattle.wast_resolve_rules.specs.Finished.{resolved_fields_from};
ghost use Rattle.wast_resolve_passes.specs.NumberedBodies.{IsNumberedField};
ghost use Rattle.std.specs.FinMap as finmap;
ghost use Rattle.wast_resolve_namespace.specs.Places.{entries_of};
ghost use Rattle.wast_resolve_names.specs.Resolvers.{no_names, known_to, space_in};
ghost use Rattle.wast_resolve_names.specs.LookUps.{IsSettledFor, IsMetBy, AnswersFor};

use crate::passes::resolve_with;
use crate::stable::has_stable_bodies;
use std::alloc::Global;
use std::marker::Model;
use wast_base::{Error, Gensym, Id, Index, Seq, Space};
use wast_expand_inline::deinline;
use wast_expand_types::expand_with;
use wast_resolve_names::Resolver;
use wast_resolve_spaces::in_order;
use wast_tree_nodes::ModuleField;

/// The ids of a resolved module with their indices, for indices that a caller keeps outside the
/// module (text format: indices).
///
/// A look-up replaces an id by its index, and leaves a number as it is. The new index keeps the
/// position of the id, so that later errors still point into the source. If no item has the id, the
/// look-up fails with E4 at the id, and leaves the index unchanged. No call allocates.
///
/// A generated id must be one that these names know. Numbers and ids from the source always
/// qualify. For an index that was in the module before it was resolved, call
/// [`borne_law`](crate::borne_law) to obtain this.
///
///     let names = module.resolve(alloc, gensym)?;
///     let mut read = Index::Id(Id::new("read", at(244)));
#[derive(Drop)]
pub struct Names<'a> {
    resolver: Resolver<'a>,
}

impl<'a> Model for Names<'a> {
    ghost use Rattle.wast_resolve_names.specs.Resolvers.{KnownNames, coded_names};

    ghost Value = { KnownNames };

    ghost coded = { coded_names };

    ghost view = { λ n. record { spaces = n.resolver.spaces } };
}

impl<'a> Names<'a> {
    /// Returns names without ids. For example, a look-up of `$f` in them fails with E4.
    #[tactic(auto, using(wast_resolve_spaces::proofs::Trying::nothing_known))]
    pub fn empty(alloc: Global) -> Self
        ensures names { known_to result ≡ id_context [] }
        ensures value { result ≡ no_names }
    {
        Names {
            resolver: Resolver::empty(alloc),
        }
    }

    /// Returns the ids of a space with their indices, each once. They are ordered by the bytes of
    /// the names. A source id comes before a generated one with the same name, and generated ids
    /// with the same name are ordered by generation.
    ///
    /// For example, for `(module (func $b) (func $a))` the pairs of `Space::Func` are `$a` with 1
    /// and `$b` with 0.
    pub fn pairs(&self, space: Space) -> &[(Id<'a>, u32)]
        ensures { entries_of result.now ≡ finmap.entries (space_in self.now.spaces space).names }
    {
        self.resolver.pairs(space)
    }

    /// Replaces the id of a function by its index, or fails with E4.
    ///
    ///     names.resolve_func(&mut read)?;
    ///
    /// In `(module (import "host" "ready" (func $ready)) (func $read))`, `$read` is function 1.
    pub fn resolve_func(&self, idx: &mut Index<'a>) -> Result<(), Error<'a>>
        requires { IsSettledFor (known_to self.now) space.Func idx.old }
        ensures met { OnOk result (IsMetBy (known_to self.now) space.Func idx.old) }
        ensures refusal { IfErr result (AnswersFor (known_to self.now) space.Func idx.old) }
        ensures index { idx.new ≡ numbered_at (known_to self.now) space.Func idx.old }
    {
        self.resolver.number(idx, Space::Func)?;
        Ok(())
    }

    /// Replaces the id of a memory by its index, or fails with E4. For example, in
    /// `(module (memory 1) (memory $m 1))`, `$m` becomes 1.
    pub fn resolve_memory(&self, idx: &mut Index<'a>) -> Result<(), Error<'a>>
        requires { IsSettledFor (known_to self.now) space.Memory idx.old }
        ensures met { OnOk result (IsMetBy (known_to self.now) space.Memory idx.old) }
        ensures refusal { IfErr result (AnswersFor (known_to self.now) space.Memory idx.old) }
        ensures index { idx.new ≡ numbered_at (known_to self.now) space.Memory idx.old }
    {
        self.resolver.number(idx, Space::Memory)?;
        Ok(())
    }

    /// Replaces the id of a table by its index, or fails with E4. For example, in
    /// `(module (table $t 1 funcref))` the index `$t` becomes 0.
    pub fn resolve_table(&self, idx: &mut Index<'a>) -> Result<(), Error<'a>>
        requires { IsSettledFor (known_to self.now) space.Table idx.old }
        ensures met { OnOk result (IsMetBy (known_to self.now) space.Table idx.old) }
        ensures refusal { IfErr result (AnswersFor (known_to self.now) space.Table idx.old) }
        ensures index { idx.new ≡ numbered_at (known_to self.now) space.Table idx.old }
    {
        self.resolver.number(idx, Space::Table)?;
        Ok(())
    }

    /// Replaces the id of a global by its index, or fails with E4.
    ///
    ///     names.resolve_global(&mut closed)?;
    pub fn resolve_global(&self, idx: &mut Index<'a>) -> Result<(), Error<'a>>
        requires { IsSettledFor (known_to self.now) space.Global idx.old }
        ensures met { OnOk result (IsMetBy (known_to self.now) space.Global idx.old) }
        ensures refusal { IfErr result (AnswersFor (known_to self.now) space.Global idx.old) }
        ensures index { idx.new ≡ numbered_at (known_to self.now) space.Global idx.old }
    {
        self.resolver.number(idx, Space::Global)?;
        Ok(())
    }

    /// Replaces the id of a tag by its index, or fails with E4.
    ///
    ///     names.resolve_tag(&mut stop)?;
    pub fn resolve_tag(&self, idx: &mut Index<'a>) -> Result<(), Error<'a>>
        requires { IsSettledFor (known_to self.now) space.Tag idx.old }
        ensures met { OnOk result (IsMetBy (known_to self.now) space.Tag idx.old) }
        ensures refusal { IfErr result (AnswersFor (known_to self.now) space.Tag idx.old) }
        ensures index { idx.new ≡ numbered_at (known_to self.now) space.Tag idx.old }
    {
        self.resolver.number(idx, Space::Tag)?;
        Ok(())
    }

    /// Replaces the id of a type by its index, or fails with E4.
    ///
    ///     names.resolve_type(&mut reader)?;
    pub fn resolve_type(&self, idx: &mut Index<'a>) -> Result<(), Error<'a>>
        requires { IsSettledFor (known_to self.now) space.Ty idx.old }
        ensures met { OnOk result (IsMetBy (known_to self.now) space.Ty idx.old) }
        ensures refusal { IfErr result (AnswersFor (known_to self.now) space.Ty idx.old) }
        ensures index { idx.new ≡ numbered_at (known_to self.now) space.Ty idx.old }
    {
        self.resolver.number(idx, Space::Ty)?;
        Ok(())
    }

    /// Replaces the id of an element segment by its index, or fails with E4. For example, in
    /// `(module (elem $e func))` the index `$e` becomes 0.
    pub fn resolve_elem(&self, idx: &mut Index<'a>) -> Result<(), Error<'a>>
        requires { IsSettledFor (known_to self.now) space.Elem idx.old }
        ensures met { OnOk result (IsMetBy (known_to self.now) space.Elem idx.old) }
        ensures refusal { IfErr result (AnswersFor (known_to self.now) space.Elem idx.old) }
        ensures index { idx.new ≡ numbered_at (known_to self.now) space.Elem idx.old }
    {
        self.resolver.number(idx, Space::Elem)?;
        Ok(())
    }

    /// Replaces the id of a data segment by its index, or fails with E4. For example, in
    /// `(module (data $d "a"))` the index `$d` becomes 0.
    pub fn resolve_data(&self, idx: &mut Index<'a>) -> Result<(), Error<'a>>
        requires { IsSettledFor (known_to self.now) space.Data idx.old }
        ensures met { OnOk result (IsMetBy (known_to self.now) space.Data idx.old) }
        ensures refusal { IfErr result (AnswersFor (known_to self.now) space.Data idx.old) }
        ensures index { idx.new ≡ numbered_at (known_to self.now) space.Data idx.old }
    {
        self.resolver.number(idx, Space::Data)?;
        Ok(())
    }
}

/// Resolves the fields of a module: desugars and checks them, and replaces every id by the index
/// that it names (text format: abbreviations, identifiers, indices, type uses).
///
/// For example, `(func $f (export "a"))` becomes
/// `(export "a" (func 0)) (func $f (type 0)) (type [1] (func))`, with the generated id `[1]`.
///
/// # Example
///
///     match resolve(alloc, fields, &mut Gensym::new(1)) {
///         Ok((fields, names)) => {
///             assert!(rt; fields.len() == 3);
///             discard_fields(fields);
///             discard_names(names);
///         }
///         Err(_) => assert!(rt; false),
///     }
///
/// Each field is replaced by its expansion, as [`deinline::run`] describes. After all fields comes
/// a type for each signature that a type use needs and no eligible type has. The returned [`Names`]
/// look up more ids.
///
/// Generated ids are numbered in this order: items that inline parts refer to, types without an id,
/// appended types. The id counter must be past every generated id in the fields: above
/// `gensym_bound` of `wast_tree`.
///
/// # Errors
///
/// The first check that fails, with its position. First:
///
/// - E1: an import comes after the definition of a function, table, memory, global or tag.
///
/// Then, in the order of the items:
///
/// - E2: two items of an index space have the same id. After each struct, E3: two of its fields do.
///
/// Then, field by field:
///
/// - E4: an id is not defined, also one of a label, a local or a struct field.
/// - E9: a field is named of a type that is not a struct with named fields.
/// - E5, E6, E7: an inline type does not match the index beside it.
/// - E2: two parameters or locals of a function have the same id.
/// - E8: the label at an `else` or `end` is not that of its block.
///
/// Two errors have no position:
///
/// - E10: an index space has 2^32 items or more, a struct as many fields, or a memory as many bytes
///   of inline data; or the counter would overflow a `u64`. If no two items have the same id, also:
///   a function has as many parameters and locals, or an expression as many enclosing blocks.
/// - E12: allocation failed.
///
/// After an error the fields are dropped. The counter has its old value, because no id of this call
/// is left.
pub fn resolve<'a>(
    alloc: Global,
    fields: Seq<ModuleField<'a>>,
    gensym: &mut Gensym,
) -> Result<(Seq<ModuleField<'a>>, Names<'a>), Error<'a>>
    requires { greatest_generation fields < gensym.old }
    ensures met { OnOk result (first_unmet (demands (explicit_fields fields.entry)) ≡ None) }
    ensures list { IfOk result (λ r. r.0 ≡ resolved_fields_from gensym.old fields.entry) }
    ensures names { IfOk result (λ r. known_to r.1 ≡ id_context (items (explicit_fields_from gensym.old fields.entry))) }
    ensures refusal { IfErr result (IsUnresolved gensym.old fields.entry) }
    ensures counter { OnOk result (gensym.new ≡ gensym.old + generated_id_count fields.entry) }
    ensures counter_grows { gensym.old ≤ gensym.new }
    ensures stays { IfErr result (λ e. gensym.new ≡ gensym.old) }
{
    let first = gensym.peek();
    match resolve_from(alloc, fields, gensym) {
        Ok(resolved) => Ok(resolved),
        Err(e) => {
            *gensym = Gensym::new(first);
            Err(e)
        }
    }
}

/// Does the same, but does not restore the counter after an error.
fn resolve_from<'a>(
    alloc: Global,
    fields: Seq<ModuleField<'a>>,
    gensym: &mut Gensym,
) -> Result<(Seq<ModuleField<'a>>, Names<'a>), Error<'a>>
    requires { greatest_generation fields < gensym.old }
    ensures met { OnOk result (first_unmet (demands (explicit_fields fields.entry)) ≡ None) }
    ensures list { IfOk result (λ r. r.0 ≡ resolved_fields_from gensym.old fields.entry) }
    ensures names { IfOk result (λ r. known_to r.1 ≡ id_context (items (explicit_fields_from gensym.old fields.entry))) }
    ensures refusal { IfErr result (IsUnresolved gensym.old fields.entry) }
    ensures counter { OnOk result (gensym.new ≡ gensym.old + generated_id_count fields.entry) }
    ensures counter_grows { gensym.old ≤ gensym.new }
{
    let fields = deinline::run(alloc, fields, gensym)?;
    let fields = in_order(fields)?;
    let (fields, is_stable) = expand_types(alloc, fields, gensym)?;
    let (fields, resolver) = resolve_with(alloc, fields, is_stable)?;
    Ok((fields, Names { resolver }))
}

/// Gives an index to each type use that needs one, and appends types. Also returns whether function
/// bodies can be skipped, because nothing is left to resolve in them. This is so for a module that
/// was resolved before, if no `else` or `end` repeats a label.
fn expand_types<'a>(
    alloc: Global,
    fields: Seq<ModuleField<'a>>,
    gensym: &mut Gensym,
) -> Result<(Seq<ModuleField<'a>>, bool), Error<'a>>
    ensures list { IfOk result (λ r. r.0 ≡ expanded_fields gensym.old fields.entry) }
    ensures numbered { IfOk result (λ r. IsTrue r.1 → All IsNumberedField r.0) }
    ensures counted { OnOk result (gensym.new ≡ gensym.old + type_id_count fields.entry) }
    ensures refusal { IfErr result (StopsExpanding gensym.old fields.entry) }
    ensures counter_grows { gensym.old ≤ gensym.new }
{
    let mut fields = fields;
    let is_stable = has_stable_bodies(&mut fields);
    let expanded = expand_with(alloc, fields, gensym, is_stable)?;
    Ok((expanded, is_stable))
}

/// Drops names, and frees their memory.
///
///     discard_names(names);
pub fn discard_names(names: Names<'_>) {
    drop(names);
}

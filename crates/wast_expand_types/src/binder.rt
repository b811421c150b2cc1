//! The state that is passed along while type uses are resolved.

ghost use Rattle.std.specs.Prelude.{◌≡◌, ◌≤◌, ◌+◌, ◌++◌, ◌∷◌, [], Some, IfOk, IfErr, OnOk};
ghost use Rattle.wast_base.specs.Faults.{out_of_memory};
ghost use Rattle.wast_base.specs.Filling.{RunsOut};
ghost use Rattle.wast_base.specs.Ids.{gensym_id};
ghost use Rattle.wast_expand_types.specs.Tree.index;
ghost use Rattle.wast_expand_keys.specs.Numbers.{numbered_signature};
ghost use Rattle.wast_expand_keys.specs.NeedingUses.{inline_signature};
ghost use Rattle.wast_expand_keys.specs.Expanders.{numbers_in, index_of, Extends};
ghost use Rattle.wast_expand_keys.specs.Expanded.{start_of_text, implied_type};
ghost use Rattle.wast_expand_types.specs.Binding.{next_after, AddsTypes};

use std::alloc::Global;
use wast_base::{Error, Gensym, Index, Seq, Span};
use wast_expand_keys::{Expander, FuncKey, TypeKey, key_in, put_key};
use wast_tree_nodes::{FunctionType, ModuleField, Type, push_field};

/// The state of the pass, apart from the tree.
pub(crate) struct Binder<'a> {
    pub(crate) alloc: Global,
    /// The type of each signature.
    pub(crate) cx: Expander<'a>,
    /// The types appended so far.
    pub(crate) implied: Seq<ModuleField<'a>>,
    pub(crate) gensym: Gensym,
}

impl<'a> Binder<'a> {
    /// Returns the index of the first type that matches this inline type. If none does, appends
    /// one.
    pub(crate) fn inline_to_idx(
        &mut self,
        inline: &Option<FunctionType<'a>>,
    ) -> Result<Index<'a>, Error<'a>>
        ensures index { IfOk result (λ i. index_of self.new.cx.bound
            (numbered_signature (numbers_in self.new.cx) (inline_signature inline.now)) ≡ Some i) }
        ensures adds { OnOk result (AddsTypes self.old self.new (inline_signature inline.now ∷ [])) }
        ensures refusal { IfErr result (RunsOut (next_after self.old (inline_signature inline.now ∷ []))) }
        ensures counter_grows { self.old.gensym ≤ self.new.gensym }
    {
        let key = inline_key(self.alloc, inline, &mut self.cx)?;
        match key.lookup(&self.cx) {
            Some(index) => Ok(index),
            None => {
                let index = self.add_type(key)?;
                Ok(index)
            }
        }
    }

    /// Appends a type with the signature of this key, and returns its id.
    fn add_type(&mut self, key: FuncKey<'a>) -> Result<Index<'a>, Error<'a>>
        ensures index { IfOk result (λ i. i ≡ index.Id (gensym_id self.old.gensym start_of_text)) }
        ensures names { self.new.cx.names ≡ self.old.cx.names }
        ensures types { OnOk result (Extends self.old.cx.bound self.new.cx.bound
            ((key.entry, index.Id (gensym_id self.old.gensym start_of_text)) ∷ [])) }
        ensures implied { OnOk result (self.new.implied ≡ self.old.implied ++ implied_type self.old.gensym key.entry ∷ []) }
        ensures counted { OnOk result (self.new.gensym ≡ self.old.gensym + 1) }
        ensures refusal { IfErr result (RunsOut (self.old.gensym + 1)) }
        ensures counter_grows { self.old.gensym ≤ self.new.gensym }
    {
        let span = Span { offset: 0 };
        let id = self.gensym.generate(span)?;
        let def = key.to_def(self.alloc, span, false)?;
        push_field(
            &mut self.implied,
            ModuleField::Ty(Type::new(span, Some(id), def)),
        )?;
        put_key(&mut self.cx, key, Index::Id(id))?;
        Ok(Index::Id(id))
    }
}

/// Returns the key of an inline type. Without one it is the key of `(func)`.
fn inline_key<'a>(
    alloc: Global,
    inline: &Option<FunctionType<'a>>,
    cx: &mut Expander<'a>,
) -> Result<FuncKey<'a>, Error<'a>>
    ensures ok { IfOk result (λ key. key ≡ numbered_signature (numbers_in cx.old) (inline_signature inline.now)) }
    ensures stays { cx.new ≡ cx.old }
    ensures refusal { IfErr result (λ e. e ≡ out_of_memory) }
{
    match inline {
        Some(ty) => key_in(ty, cx),
        None => Ok(FuncKey(Seq::new(alloc), Seq::new(alloc))),
    }
}

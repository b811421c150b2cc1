//! The modules of a script that commands can refer to.

ghost use Rattle.std.specs.Prelude.{◌≡◌, [], ◌∷◌, Some, None, IfOk, OnOk, slice_get, option_and_then, option_copied};
ghost use Rattle.std.specs.BTreeMap.{get};
ghost use Rattle.wast_base.specs.contracts.ids.IdOrd.TheImpl as by_name;
ghost use Rattle.wast_script_json.specs.References.{Numbered, own_name, found, Reach, module_at, instance_at, with_instance, with_module, shared_as, sharing, State, nothing_known, of_instance, of_module, skips, types_in, defined, copied, entered, left, IsKnown, Defines, After};
ghost use Rattle.wast_script_json.specs.Known.{HasNumbers, Lists, Reaches, Knows};

use crate::interfaces::{Interface, interface_of};
use crate::modules::ConvertedModule;
use std::alloc::{AllocError, Global};
use std::collections::BTreeMap;
use std::mem;
use wast_script::CommandKind;
use wast_tree::Id;

/// Numbers of modules: the last of each id, and the last of all.
#[derive(Drop)]
struct Numbers<'a> {
    by_id: BTreeMap<Id<'a>, usize>,
    last: Option<usize>,
}

/// The number of an id.
fn number_of<'a>(by_id: &BTreeMap<Id<'a>, usize>, id: &Id<'a>) -> Option<usize>
    ensures { result ≡ get by_name.ghosts.cmp by_id.now id.now }
{
    by_id.get(id).copied()
}

/// Gives an id a number, if there is one, and returns the number that it had.
fn put<'a>(
    by_id: &mut BTreeMap<Id<'a>, usize>,
    id: Option<Id<'a>>,
    number: usize,
) -> Result<Option<usize>, AllocError>
    ensures { OnOk result ((all : Numbered) → HasNumbers by_id.old all → HasNumbers by_id.new ((own_name id.entry, number) ∷ all)) }
{
    match id {
        Some(id) => Ok(by_id.insert(id, number)?),
        None => Ok(None),
    }
}

impl<'a> Numbers<'a> {
    /// There are none yet.
    #[tactic(auto, using(crate::proofs::References::no_numbers))]
    fn new(alloc: Global) -> Numbers<'a>
        ensures { Lists result [] [] }
    {
        Numbers {
            by_id: BTreeMap::new(alloc),
            last: None,
        }
    }

    /// The number of an id alone, if there are both.
    fn sharing(
        alloc: Global,
        id: Option<Id<'a>>,
        number: Option<usize>,
    ) -> Result<Numbers<'a>, AllocError>
        ensures { IfOk result (λ n. Lists n [] (shared_as id.entry number)) }
    {
        let mut numbers = Numbers::new(alloc);
        match number {
            Some(number) => {
                let _before = put(&mut numbers.by_id, id, number)?;
                Ok(numbers)
            }
            None => Ok(numbers),
        }
    }

    /// Adds one, which is the last then.
    fn add(&mut self, id: Option<Id<'a>>, number: usize) -> Result<(), AllocError>
        ensures { OnOk result ((own all : Numbered) → Lists self.old own all → Lists self.new ((own_name id.entry, number) ∷ own) ((own_name id.entry, number) ∷ all)) }
    {
        let _before = put(&mut self.by_id, id, number)?;
        self.last = Some(number);
        Ok(())
    }

    /// The number of an id, or the last one.
    fn find(&self, id: Option<Id<'a>>) -> Option<usize>
        ensures { (own all : Numbered) → Lists self.now own all → result ≡ found id.entry own all }
    {
        match id {
            Some(id) => number_of(&self.by_id, &id),
            None => self.last,
        }
    }
}

/// What the commands of a thread, or those outside threads, can refer to.
#[derive(Drop)]
struct Scope<'a> {
    /// Modules, which instances can be made of.
    definitions: Numbers<'a>,
    /// Instances, by the numbers of their modules.
    instances: Numbers<'a>,
}

impl<'a> Scope<'a> {
    /// There are no modules yet.
    fn new(alloc: Global) -> Scope<'a>
        ensures { Reaches result (sharing []) }
    {
        Scope {
            definitions: Numbers::new(alloc),
            instances: Numbers::new(alloc),
        }
    }

    /// There is an instance of this id alone, if there is one.
    fn sharing(
        alloc: Global,
        id: Option<Id<'a>>,
        number: Option<usize>,
    ) -> Result<Scope<'a>, AllocError>
        ensures { IfOk result (λ c. Reaches c (sharing (shared_as id.entry number))) }
    {
        let instances = Numbers::sharing(alloc, id, number)?;
        Ok(Scope {
            definitions: Numbers::new(alloc),
            instances,
        })
    }

    /// Adds a module, with an instance if it is not a definition.
    fn add(
        &mut self,
        id: Option<Id<'a>>,
        is_definition: bool,
        number: usize,
    ) -> Result<(), AllocError>
        ensures { OnOk result ((r : Reach) → Reaches self.old r → Reaches self.new (with_module id.entry is_definition number r)) }
    {
        self.definitions.add(id, number)?;
        if is_definition {
            return Ok(());
        }
        self.instances.add(id, number)?;
        Ok(())
    }

    /// Adds an instance of a module, if there is one.
    fn copy(&mut self, id: Option<Id<'a>>, number: Option<usize>) -> Result<(), AllocError>
        ensures { OnOk result ((r : Reach) → Reaches self.old r → Reaches self.new (with_instance id.entry number r)) }
    {
        match number {
            Some(number) => {
                self.instances.add(id, number)?;
                Ok(())
            }
            None => Ok(()),
        }
    }

    /// The number of a module: that of an id, or the last one.
    fn definition(&self, id: Option<Id<'a>>) -> Option<usize>
        ensures { (r : Reach) → Reaches self.now r → result ≡ module_at id.entry r }
    {
        self.definitions.find(id)
    }

    /// The number of the module of an instance: of that of an id, or of the last one.
    fn instance(&self, id: Option<Id<'a>>) -> Option<usize>
        ensures { (r : Reach) → Reaches self.now r → result ≡ instance_at id.entry r }
    {
        self.instances.find(id)
    }
}

/// The modules before a command, by their ids.
///
/// An id names a module and an instance apart: `(module definition $A ..)` does not take the name of an instance `$A`. A thread has
/// modules of its own, and of those outside it has the shared one alone.
#[derive(Drop)]
pub(crate) struct Instances<'a> {
    alloc: Global,
    /// What each module exports; `None` if it is skipped.
    interfaces: Vec<Option<Interface>>,
    /// The scope of the next command.
    scope: Scope<'a>,
    /// The scopes outside it, of which the last is the innermost.
    outer: Vec<Scope<'a>>,
}

/// What is known of the module of a number.
fn interface_at(
    interfaces: &[Option<Interface>],
    number: Option<usize>,
) -> Option<&Option<Interface>>
    ensures { option_copied result ≡ option_and_then (slice_get interfaces.now) number }
{
    match number {
        Some(number) => interfaces.get(number),
        None => None,
    }
}

/// Returns whether it is that the module is skipped.
fn skips(interface: Option<&Option<Interface>>) -> bool
    ensures { result ≡ skips (option_copied interface.entry) }
{
    match interface {
        Some(None) => true,
        Some(Some(_)) | None => false,
    }
}

/// Returns the types of the results of an export, as a list in JSON.
fn types_in<'i>(interface: Option<&'i Option<Interface>>, name: &str) -> &'i str
    ensures { result.now ≡ types_in (option_copied interface.entry) name.now }
{
    match interface {
        Some(Some(interface)) => interface.types_of(name),
        Some(None) | None => "[]",
    }
}

/// Returns what is known of a module that was converted.
fn interface_for(
    alloc: Global,
    converted: &ConvertedModule,
) -> Result<Option<Interface>, AllocError>
    ensures { IfOk result (λ i. IsKnown converted.now i) }
{
    match converted {
        ConvertedModule::File(file) => Ok(Some(interface_of(alloc, file.bytes.as_slice())?)),
        ConvertedModule::Skipped(_, _) => Ok(None),
    }
}

impl<'a> Instances<'a> {
    /// There are no modules yet.
    #[tactic(auto, using(crate::proofs::References::knows_nothing))]
    pub fn new(alloc: Global) -> Instances<'a>
        ensures { Knows result nothing_known }
    {
        Instances {
            alloc,
            interfaces: Vec::new(alloc),
            scope: Scope::new(alloc),
            outer: Vec::new(alloc),
        }
    }

    /// Adds what a module exports, with an instance if it is not a definition.
    fn add(
        &mut self,
        id: Option<Id<'a>>,
        is_definition: bool,
        interface: Option<Interface>,
    ) -> Result<(), AllocError>
        ensures { OnOk result ((s : State) → Knows self.old s → Knows self.new (defined id.entry is_definition interface s)) }
    {
        let number = self.interfaces.len();
        self.interfaces.push(interface)?;
        self.scope.add(id, is_definition, number)?;
        Ok(())
    }

    /// Adds a module, if it was converted.
    fn module(
        &mut self,
        id: Option<Id<'a>>,
        is_definition: bool,
        converted: Option<&ConvertedModule>,
    ) -> Result<(), AllocError>
        ensures { OnOk result ((s : State) → Knows self.old s → ((t : State) × Defines id.entry is_definition (option_copied converted.entry) s t × Knows self.new t)) }
    {
        match converted {
            Some(converted) => {
                let interface = interface_for(self.alloc, converted)?;
                self.add(id, is_definition, interface)?;
                Ok(())
            }
            None => Ok(()),
        }
    }

    /// Adds an instance of a module, of the last one if it has no id.
    fn copy(&mut self, id: Option<Id<'a>>, original: Option<Id<'a>>) -> Result<(), AllocError>
        ensures { OnOk result ((s : State) → Knows self.old s → Knows self.new (copied id.entry original.entry s)) }
    {
        let number = self.scope.definition(original);
        self.scope.copy(id, number)?;
        Ok(())
    }

    /// Begins a thread, which shares the instance of an id.
    fn enter(&mut self, shared: Option<Id<'a>>) -> Result<(), AllocError>
        ensures { OnOk result ((s : State) → Knows self.old s → Knows self.new (entered shared.entry s)) }
    {
        let number = self.scope.instance(shared);
        let scope = Scope::sharing(self.alloc, shared, number)?;
        self.outer.reserve(1)?;
        let outer = mem::replace(&mut self.scope, scope);
        self.outer.push_reserved(outer);
        Ok(())
    }

    /// Ends a thread.
    fn leave(&mut self)
        ensures { (s : State) → Knows self.old s → Knows self.new (left s) }
    {
        match self.outer.pop() {
            Some(outer) => {
                self.scope = outer;
            }
            None => {}
        }
    }

    /// Moves past a command, whose module was converted so.
    pub fn pass(
        &mut self,
        kind: CommandKind<'a>,
        converted: Option<&ConvertedModule>,
    ) -> Result<(), AllocError>
        ensures { OnOk result ((s : State) → Knows self.old s → ((t : State) × After kind.entry (option_copied converted.entry) s t × Knows self.new t)) }
    {
        match kind {
            CommandKind::Module(module) => {
                self.module(module.id, false, converted)?;
                Ok(())
            }
            CommandKind::Definition(module) => {
                self.module(module.id, true, converted)?;
                Ok(())
            }
            CommandKind::Instance(id, original) => {
                self.copy(id, original)?;
                Ok(())
            }
            CommandKind::Thread(_, shared) => {
                self.enter(shared)?;
                Ok(())
            }
            CommandKind::ThreadEnd => {
                self.leave();
                Ok(())
            }
            _ => Ok(()),
        }
    }

    /// Returns whether the module of an instance was skipped.
    pub fn is_skipped(&self, id: Option<Id<'a>>) -> bool
        ensures { (s : State) → Knows self.now s → result ≡ skips (of_instance s id.entry) }
    {
        skips(interface_at(self.interfaces.as_slice(), self.scope.instance(id)))
    }

    /// Returns whether a module was skipped.
    pub fn is_definition_skipped(&self, id: Option<Id<'a>>) -> bool
        ensures { (s : State) → Knows self.now s → result ≡ skips (of_module s id.entry) }
    {
        skips(interface_at(self.interfaces.as_slice(), self.scope.definition(id)))
    }

    /// Returns the types of the results of an export, as a list in JSON; an empty list if there is no such export.
    pub fn types_of(&self, id: Option<Id<'a>>, name: &str) -> &str
        ensures { (s : State) → Knows self.now s → result.now ≡ types_in (of_instance s id.entry) name.now }
    {
        let interface = interface_at(self.interfaces.as_slice(), self.scope.instance(id));
        types_in(interface, name)
    }
}

//! The wrong ids of a module, found in one walk over its tree.
//!
//! Resolving ends at its first error. This walk goes on, so that one run reports each id that is defined twice or not at all. It is for
//! messages alone: whether a text is a module is decided by resolving.
//!
//! For example, `(module (start $f) (func br $l))` has two wrong ids, `$f` and `$l`.

use std::alloc::{AllocError, Global};
use std::str;
use wast_resolve_labels::Labels;
use wast_tree::{
    BlockType, Boxed, Error, Expression, Fault, Form, Func, FuncKind, Handle, Id, Index,
    Instruction, ItemVisitor, Local, ModuleField, ResumeTable, Seq, Space, Span, StructAccess,
    StructField, TryTable, Visitor, visit_fields, visit_items,
};
use wat_messages::{KnownId, NearestId};

/// At most this many wrong ids of each part of the walk are kept.
const MOST: usize = 32;

/// At most this many names are compared with one that is unknown.
const COMPARED: usize = 4096;

/// What is wrong with an id.
#[derive(Clone, Copy)]
enum Wrong {
    /// An item of this kind has it already, at this position.
    Duplicate(&'static str, usize),
    /// A field of the same struct has it already, at this position.
    DuplicateField(usize),
    /// Nothing of this kind has it.
    Unknown(&'static str),
    /// It is not the label of its block.
    Label,
}

/// An id that is wrong.
#[derive(Drop)]
pub(crate) struct WrongId {
    /// What is wrong with it.
    wrong: Wrong,
    /// Its name.
    name: String,
    /// Its position.
    pub start: usize,
    /// The kind and the position of an item of another kind that has the name.
    elsewhere: Option<(&'static str, usize)>,
    /// The name that may be meant.
    near: Option<String>,
}

impl WrongId {
    /// Returns the error that resolving reports for it.
    pub fn error(&self) -> Error<'_> {
        let name = self.name.as_str();
        let fault = match self.wrong {
            Wrong::Duplicate(kind, _) => Fault::Duplicate(kind),
            Wrong::DuplicateField(_) => Fault::DuplicateField("field", name),
            Wrong::Unknown(kind) => Fault::Unknown(kind, name),
            Wrong::Label => Fault::Labels,
        };
        let offset = self.start;
        Error::new(Span { offset }, fault)
    }

    /// Returns what is known of it, unless it is the label of another block.
    pub fn known(&self) -> Option<KnownId<'_>> {
        let first = match self.wrong {
            Wrong::Duplicate(_, first) | Wrong::DuplicateField(first) => Some(first),
            Wrong::Unknown(_) => None,
            Wrong::Label => return None,
        };
        Some(KnownId {
            first,
            elsewhere: self.elsewhere,
            near: self.near.as_ref().map(|near| near.as_str()),
        })
    }
}

/// The wrong ids that were found.
#[derive(Drop)]
pub(crate) struct WrongIds {
    alloc: Global,
    found: Vec<WrongId>,
    /// For each: whether it comes after all duplicates of items, its position and its number.
    order: Vec<(bool, usize, usize)>,
    /// No more are kept.
    most: usize,
    /// Whether an allocation failed.
    is_short: bool,
}

impl WrongIds {
    /// Starts a part of the walk.
    fn begin(&mut self) {
        self.most = self.found.len().saturating_add(MOST);
    }

    /// Returns whether no more are kept of this part.
    fn is_full(&self) -> bool {
        self.found.len() >= self.most
    }

    /// Adds a wrong id.
    fn try_add(
        &mut self,
        is_late: bool,
        wrong: Wrong,
        name: &str,
        start: usize,
        elsewhere: Option<(&'static str, usize)>,
        near: Option<&str>,
    ) -> Result<(), AllocError> {
        let near = match near {
            Some(near) => Some(String::from_str(self.alloc, near)?),
            None => None,
        };
        let name = String::from_str(self.alloc, name)?;
        self.order.push((is_late, start, self.found.len()))?;
        self.found.push(WrongId {
            wrong,
            name,
            start,
            elsewhere,
            near,
        })?;
        Ok(())
    }

    /// Adds an id that is wrong in its place, unless an allocation fails.
    fn add(&mut self, wrong: Wrong, name: &str, start: usize) {
        if !self.is_full() && self.try_add(true, wrong, name, start, None, None).is_err() {
            self.is_short = true;
        }
    }

    /// Returns the name of definitions in this that may be meant by an unknown id; none if no more is added.
    fn near<'a>(&self, among: &[Defined<'a>], owner: usize, id: &Id<'a>) -> Option<&'a str> {
        match self.is_full() {
            true => None,
            false => nearest_in(among, owner, id.name()),
        }
    }

    /// Adds an id that nothing of this kind has. This name may be meant.
    fn add_unknown(
        &mut self,
        names: &Names<'_>,
        kind: &'static str,
        near: Option<&str>,
        id: &Id<'_>,
    ) {
        if self.is_full() {
            return;
        }
        let (name, start) = (id.name(), id.span().offset);
        let elsewhere = names.elsewhere(name);
        if self
            .try_add(true, Wrong::Unknown(kind), name, start, elsewhere, near)
            .is_err()
        {
            self.is_short = true;
        }
    }

    /// Returns those with this many before them: duplicates of items first, then each at its position.
    pub fn get(&self, place: usize) -> Option<&WrongId> {
        let (_, _, number) = *self.order.get(place)?;
        self.found.get(number)
    }

    /// Returns how many there are.
    pub fn len(&self) -> usize {
        self.order.len()
    }
}

/// A definition: the number of what its name is unique in, its name and its position.
type Defined<'a> = (usize, &'a str, usize);

/// Returns the name of definitions in this that is nearest to one that is unknown.
fn nearest_in<'a>(ids: &[Defined<'a>], owner: usize, name: &'a str) -> Option<&'a str> {
    let mut nearest = NearestId::new(name.as_bytes());
    let mut count = 0_usize;
    for id in ids.iter() {
        let (of, other, _) = *id;
        if of == owner && count < COMPARED {
            count = count.saturating_add(1);
            nearest.compare(other.as_bytes());
        }
    }
    str::from_utf8(nearest.found()?).ok()
}

/// Returns the definitions of a sorted list whose name is that of another one before, in the order of the text: the position of each, what
/// its name is unique in with the position of the first one, and the name.
fn repeated<'a>(
    alloc: Global,
    ids: &[Defined<'a>],
) -> Result<Vec<(usize, (usize, usize), &'a str)>, AllocError> {
    let mut found = Vec::new(alloc);
    let mut first: Option<Defined<'a>> = None;
    for id in ids.iter() {
        let (owner, name, start) = *id;
        match first {
            Some((other, same, place)) if other == owner && same == name => {
                found.push((start, (owner, place), name))?;
            }
            _ => first = Some(*id),
        }
    }
    found.sort()?;
    Ok(found)
}

/// Returns the names of a sorted list of definitions, each with the number of what it is unique in.
fn names_of<'a>(alloc: Global, ids: &[Defined<'a>]) -> Result<Vec<(usize, &'a str)>, AllocError> {
    let mut names = Vec::with_capacity(alloc, ids.len())?;
    for id in ids.iter() {
        let (owner, name, _) = *id;
        names.push((owner, name))?;
    }
    Ok(names)
}

/// The definitions of a module, in the order of the text.
#[derive(Drop)]
struct Definitions<'a> {
    /// Those of items, by the rank of their index space.
    items: Vec<Defined<'a>>,
    /// Those of fields of structs, by the number of the type.
    fields: Vec<Defined<'a>>,
    /// The names of types, with their numbers.
    types: Vec<(&'a str, usize)>,
    /// How many types there are.
    count: usize,
    /// Whether an allocation failed.
    is_short: bool,
}

impl<'a> Definitions<'a> {
    /// Adds an item.
    fn try_add(
        &mut self,
        space: Space,
        id: &Option<Id<'a>>,
        fields: &[StructField<'a>],
    ) -> Result<(), AllocError> {
        let is_type = space == Space::Ty;
        if let Some(id) = id {
            self.items
                .push((space.rank(), id.name(), id.span().offset))?;
            if is_type {
                self.types.push((id.name(), self.count))?;
            }
        }
        for field in fields.iter() {
            if let Some(id) = &field.id {
                self.fields.push((self.count, id.name(), id.span().offset))?;
            }
        }
        if is_type {
            self.count = self.count.saturating_add(1);
        }
        Ok(())
    }
}

impl<'a> ItemVisitor<'a> for Definitions<'a> {
    ghost told = { λ old x new. Unit {0} };

    fn item(&mut self, space: Space, id: &Option<Id<'a>>, fields: &[StructField<'a>]) {
        if self.try_add(space, id, fields).is_err() {
            self.is_short = true;
        }
    }
}

/// The names that a module defines.
#[derive(Drop)]
struct Names<'a> {
    /// Those of items, by the rank of their index space; sorted.
    items: Vec<(usize, &'a str)>,
    /// Those of fields of structs, by the number of the type; sorted.
    fields: Vec<(usize, &'a str)>,
    /// Those of types, with their numbers; sorted.
    types: Vec<(&'a str, usize)>,
    /// The definitions of items, in the order of the text.
    item_list: Vec<Defined<'a>>,
    /// Those of fields of all structs, in the order of the text.
    field_list: Vec<Defined<'a>>,
}

impl<'a> Names<'a> {
    /// Returns the number of a type, if its id is known.
    fn number_of(&self, owner: &Index<'a>) -> Option<usize> {
        match owner {
            Index::Num(number, _) => Some(*number as usize),
            Index::Id(id) => {
                let types = self.types.as_slice();
                let place = types.binary_search_by_key(&id.name(), |ty| ty.0).ok()?;
                let (_, number) = *types.get(place)?;
                Some(number)
            }
        }
    }

    /// Returns whether a type has fields with names, but none with this one.
    fn lacks(&self, number: usize, name: &str) -> bool {
        let fields = self.fields.as_slice();
        match fields.binary_search(&(number, name)) {
            Ok(_) => false,
            Err(place) => {
                is_of(fields.get(place.wrapping_sub(1)), number) || is_of(fields.get(place), number)
            }
        }
    }

    /// Returns the first item that has a name: the word of its index space, and its position.
    fn elsewhere(&self, name: &str) -> Option<(&'static str, usize)> {
        for item in self.item_list.iter() {
            let (rank, other, start) = *item;
            if other == name {
                return Space::ALL.get(rank).map(|space| (space.word(), start));
            }
        }
        None
    }
}

/// Returns whether a field is one of the type with this number.
fn is_of(field: Option<&(usize, &str)>, number: usize) -> bool {
    match field {
        Some((owner, _)) => *owner == number,
        None => false,
    }
}

/// A visitor of the indices of items.
#[derive(Drop)]
struct Uses<'a> {
    names: Names<'a>,
    wrong: WrongIds,
}

impl<'a> Visitor for Uses<'a> {
    ghost told = { λ old x new. Unit {0} };

    fn index(&mut self, space: Space, index: &Index<'_>) {
        if let Index::Id(id) = index {
            let rank = space.rank();
            if self
                .names
                .items
                .as_slice()
                .binary_search(&(rank, id.name()))
                .is_err()
            {
                let near = self.wrong.near(self.names.item_list.as_slice(), rank, id);
                self.wrong.add_unknown(&self.names, space.word(), near, id);
            }
        }
    }

    fn within(&mut self, _index: &Index<'_>) {}

    fn id(&mut self, _id: &Id<'_>) {}

    fn clause(&mut self, _number: u8, _holds: bool) {}

    fn covered(&mut self, _form: Form, _holds: bool) {}
}

/// Adds the duplicates of items and of fields of structs. The lists are sorted.
fn add_duplicates<'a>(
    alloc: Global,
    items: &[Defined<'a>],
    fields: &[Defined<'a>],
    wrong: &mut WrongIds,
) -> Result<(), AllocError> {
    wrong.begin();
    let items = repeated(alloc, items)?;
    for item in items.iter() {
        let (start, (rank, first), name) = *item;
        if let Some(space) = Space::ALL.get(rank) {
            if !wrong.is_full() {
                let duplicate = Wrong::Duplicate(space.word(), first);
                wrong.try_add(false, duplicate, name, start, None, None)?;
            }
        }
    }
    wrong.begin();
    let fields = repeated(alloc, fields)?;
    for field in fields.iter() {
        let (start, (_, first), name) = *field;
        if !wrong.is_full() {
            wrong.try_add(false, Wrong::DuplicateField(first), name, start, None, None)?;
        }
    }
    Ok(())
}

/// What is known in a function: the names of the module, those of its parameters and locals, and its instructions.
#[derive(Drop)]
struct Body<'b, 'a> {
    names: &'b Names<'a>,
    /// The names of the parameters and locals; sorted.
    locals: Vec<(usize, &'a str)>,
    /// Their definitions, in the order of the text.
    local_list: Vec<Defined<'a>>,
    /// The instructions.
    expression: &'b Expression<'a>,
}

/// Returns the definitions of the parameters and locals of a function.
fn locals_of<'a>(
    alloc: Global,
    func: &Func<'a>,
    locals: &Seq<Local<'a>>,
) -> Result<Vec<Defined<'a>>, AllocError> {
    let mut ids = Vec::new(alloc);
    if let Some(ty) = &func.ty.inline {
        for param in ty.params.iter() {
            if let Some(id) = &param.0 {
                ids.push((0, id.name(), id.span().offset))?;
            }
        }
    }
    for local in locals.iter() {
        if let Some(id) = &local.id {
            ids.push((0, id.name(), id.span().offset))?;
        }
    }
    Ok(ids)
}

/// Returns the label that an instruction defines.
fn label_of<'a>(instr: &Instruction<'a>) -> Option<Id<'a>> {
    match instr {
        Instruction::block(block)
        | Instruction::loop_(block)
        | Instruction::if_(block)
        | Instruction::try_(block) => block.get().label,
        Instruction::try_table(table) => table.block.get().label,
        _ => None,
    }
}

/// Returns the definitions of the labels of a function.
fn labels_of<'a>(
    alloc: Global,
    expression: &Expression<'a>,
) -> Result<Vec<Defined<'a>>, AllocError> {
    let mut ids = Vec::new(alloc);
    for instr in expression.instrs.iter() {
        if let Some(id) = label_of(instr) {
            ids.push((0, id.name(), id.span().offset))?;
        }
    }
    Ok(ids)
}

/// Checks the index of a local.
fn check_local<'a>(body: &Body<'_, 'a>, index: &Index<'a>, wrong: &mut WrongIds) {
    if let Index::Id(id) = index {
        if body
            .locals
            .as_slice()
            .binary_search(&(0, id.name()))
            .is_err()
        {
            let near = wrong.near(body.local_list.as_slice(), 0, id);
            wrong.add_unknown(body.names, "local", near, id);
        }
    }
}

/// Checks the field of an access to a struct, if its type is known.
fn check_access<'a>(names: &Names<'a>, access: &StructAccess<'a>, wrong: &mut WrongIds) {
    if let Index::Id(id) = &access.field {
        if let Some(number) = names.number_of(&access.owner) {
            if names.lacks(number, id.name()) {
                let near = wrong.near(names.field_list.as_slice(), 0, id);
                wrong.add_unknown(names, "field", near, id);
            }
        }
    }
}

/// Checks a label.
fn check_label<'a>(
    body: &Body<'_, 'a>,
    labels: &mut Labels<'a>,
    index: &Index<'a>,
    wrong: &mut WrongIds,
) -> Result<(), AllocError> {
    labels.reach(index)?;
    if let Index::Id(id) = index {
        if labels.denotes(id).is_none() && !wrong.is_full() {
            let defined = labels_of(wrong.alloc, body.expression)?;
            let near = wrong.near(defined.as_slice(), 0, id);
            wrong.add_unknown(body.names, "label", near, id);
        }
    }
    Ok(())
}

/// Checks the labels of a list.
fn check_labels<'a>(
    body: &Body<'_, 'a>,
    labels: &mut Labels<'a>,
    indices: &Seq<Index<'a>>,
    wrong: &mut WrongIds,
) -> Result<(), AllocError> {
    for index in indices.iter() {
        check_label(body, labels, index, wrong)?;
    }
    Ok(())
}

/// Checks the labels of the handlers of `resume`.
fn check_handlers<'a>(
    body: &Body<'_, 'a>,
    labels: &mut Labels<'a>,
    table: &ResumeTable<'a>,
    wrong: &mut WrongIds,
) -> Result<(), AllocError> {
    for handle in table.handlers.iter() {
        if let Handle::OnLabel { label, .. } = handle {
            check_label(body, labels, label, wrong)?;
        }
    }
    Ok(())
}

/// Opens a block.
fn open_block<'a>(labels: &mut Labels<'a>, block: &Boxed<BlockType<'a>>) -> Result<(), AllocError> {
    if labels.is_full() {
        return Ok(());
    }
    labels.open(block.get().label)
}

/// Checks the labels of the catches of `try_table`, and opens the block.
fn open_try_table<'a>(
    body: &Body<'_, 'a>,
    labels: &mut Labels<'a>,
    table: &TryTable<'a>,
    wrong: &mut WrongIds,
) -> Result<(), AllocError> {
    for catch in table.catches.iter() {
        check_label(body, labels, &catch.label, wrong)?;
    }
    open_block(labels, &table.block)
}

/// Checks the label after `else` or `end`.
fn check_repeated<'a>(labels: &Labels<'a>, label: &Option<Id<'a>>, wrong: &mut WrongIds) {
    if let Some(id) = label {
        if labels.check(*label).is_err() {
            wrong.add(Wrong::Label, id.name(), id.span().offset);
        }
    }
}

/// Checks the locals, labels and fields of an instruction.
fn check_instruction<'a>(
    body: &Body<'_, 'a>,
    labels: &mut Labels<'a>,
    instr: &Instruction<'a>,
    wrong: &mut WrongIds,
) -> Result<(), AllocError> {
    match instr {
        Instruction::local_get(local)
        | Instruction::local_set(local)
        | Instruction::local_tee(local) => check_local(body, local, wrong),
        Instruction::struct_get(access)
        | Instruction::struct_get_s(access)
        | Instruction::struct_get_u(access)
        | Instruction::struct_set(access) => check_access(body.names, access, wrong),
        Instruction::else_(label) => check_repeated(labels, label, wrong),
        Instruction::end_(label) => {
            check_repeated(labels, label, wrong);
            labels.close();
        }
        _ => return check_branch(body, labels, instr, wrong),
    }
    Ok(())
}

/// Checks the labels of an instruction, and opens its block.
fn check_branch<'a>(
    body: &Body<'_, 'a>,
    labels: &mut Labels<'a>,
    instr: &Instruction<'a>,
    wrong: &mut WrongIds,
) -> Result<(), AllocError> {
    match instr {
        Instruction::block(block)
        | Instruction::loop_(block)
        | Instruction::if_(block)
        | Instruction::try_(block) => open_block(labels, block),
        Instruction::try_table(table) => open_try_table(body, labels, table, wrong),
        Instruction::rethrow(label)
        | Instruction::br(label)
        | Instruction::br_if(label)
        | Instruction::br_on_null(label)
        | Instruction::br_on_non_null(label) => check_label(body, labels, label, wrong),
        Instruction::delegate(label) => {
            labels.close();
            check_label(body, labels, label, wrong)
        }
        Instruction::br_table(table) => {
            check_labels(body, labels, &table.labels, wrong)?;
            check_label(body, labels, &table.default, wrong)
        }
        Instruction::br_on_cast(arg) => check_label(body, labels, &arg.get().label, wrong),
        Instruction::br_on_cast_fail(arg) => check_label(body, labels, &arg.get().label, wrong),
        Instruction::br_on_cast_desc_eq(arg) => check_label(body, labels, &arg.get().label, wrong),
        Instruction::br_on_cast_desc_eq_fail(arg) => check_label(
            body,
            labels,
            &arg.get().label,
            wrong,
        ),
        Instruction::resume(arg) => check_handlers(body, labels, &arg.table, wrong),
        Instruction::resume_throw(arg) => check_handlers(body, labels, &arg.get().table, wrong),
        Instruction::resume_throw_ref(arg) => check_handlers(body, labels, &arg.table, wrong),
        _ => Ok(()),
    }
}

/// Adds the wrong ids of locals, labels and fields in a function.
fn check_func<'a>(
    alloc: Global,
    names: &Names<'a>,
    func: &Func<'a>,
    wrong: &mut WrongIds,
) -> Result<(), AllocError> {
    let FuncKind::Inline { locals, expression } = &func.kind else {
        return Ok(());
    };
    let local_list = locals_of(alloc, func, locals)?;
    let mut sorted = Vec::from_slice(alloc, local_list.as_slice())?;
    sorted.sort()?;
    let duplicates = repeated(alloc, sorted.as_slice())?;
    for id in duplicates.iter() {
        let (start, (_, first), name) = *id;
        wrong.add(Wrong::Duplicate("local", first), name, start);
    }
    let body = Body {
        names,
        locals: names_of(alloc, sorted.as_slice())?,
        local_list,
        expression,
    };
    let mut labels = Labels::new(alloc);
    for instr in expression.instrs.iter() {
        check_instruction(&body, &mut labels, instr, wrong)?;
    }
    Ok(())
}

/// Returns the definitions of fields as those of one list.
fn joined<'a>(alloc: Global, fields: &[Defined<'a>]) -> Result<Vec<Defined<'a>>, AllocError> {
    let mut all = Vec::with_capacity(alloc, fields.len())?;
    for field in fields.iter() {
        let (_, name, start) = *field;
        all.push((0, name, start))?;
    }
    Ok(all)
}

/// Returns the names that a module defines, and adds the duplicates.
fn names_in<'a>(
    alloc: Global,
    definitions: Definitions<'a>,
    wrong: &mut WrongIds,
) -> Result<Names<'a>, AllocError> {
    let Definitions {
        items,
        fields,
        types,
        ..
    } = definitions;
    let (item_list, mut types) = (Vec::from_slice(alloc, items.as_slice())?, types);
    let (field_list, mut items, mut fields) = (joined(alloc, fields.as_slice())?, items, fields);
    items.sort()?;
    fields.sort()?;
    types.sort()?;
    add_duplicates(alloc, items.as_slice(), fields.as_slice(), wrong)?;
    Ok(Names {
        items: names_of(alloc, items.as_slice())?,
        fields: names_of(alloc, fields.as_slice())?,
        types,
        item_list,
        field_list,
    })
}

/// Returns the wrong ids of a module.
pub(crate) fn wrong_ids<'a>(
    alloc: Global,
    fields: &[ModuleField<'a>],
) -> Result<WrongIds, AllocError> {
    let mut definitions = Definitions {
        items: Vec::new(alloc),
        fields: Vec::new(alloc),
        types: Vec::new(alloc),
        count: 0,
        is_short: false,
    };
    visit_items(fields, &mut definitions);
    let mut wrong = WrongIds {
        alloc,
        found: Vec::new(alloc),
        order: Vec::new(alloc),
        most: 0,
        is_short: definitions.is_short,
    };
    let names = names_in(alloc, definitions, &mut wrong)?;
    wrong.begin();
    let mut uses = Uses { names, wrong };
    visit_fields(fields, &mut uses);
    let Uses { names, mut wrong } = uses;
    wrong.begin();
    for field in fields.iter() {
        if let ModuleField::Func(func) = field {
            check_func(alloc, &names, func, &mut wrong)?;
        }
    }
    if wrong.is_short {
        return Err(AllocError);
    }
    wrong.order.sort()?;
    Ok(wrong)
}

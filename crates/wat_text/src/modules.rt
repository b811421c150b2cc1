//! Reads a whole module, and its fields one after another (text format: modules).

ghost use Rattle.std.specs.Prelude.{◌≡◌, ◌≢◌, ◌≤◌, None, Some, length, map, is_none, is_some, IsTrue, IfOk, IfErr};
ghost use Rattle.std.specs.Option.{unwrap_or};
ghost use Rattle.wast_base.specs.Ids.{text_start};
ghost use Rattle.wast_tree_nodes.specs.WellFormed.{is_well_formed};
ghost use Rattle.wat_syntax.specs.Modules.{startfield};
ghost use Rattle.wat_syntax.specs.Customs.{strings as strings_rule};
ghost use Rattle.wat_syntax.specs.ModuleFields.{fieldform, open_field, modulefield, modulefields};
ghost use Rattle.wat_text.specs.Readers.{Reads, Decides, Expects, Finds, Refuses, ReadsOnto, Pushes, Builds};
ghost use Rattle.wat_text.specs.Texts.{is_well_formed_text};
ghost use Rattle.wat_text.specs.Denotes.{Denotes, DenotesNothing, IsModule, AreFields, all_bare, bare_opening, bare_quote};
ghost use Rattle.wat_text.specs.Denotes.{opening, all_taken, has_one_start, is_start, where_it_holds};
ghost use Rattle.wat_text.specs.Denotes.{fields_of_module, fields_module, module_as, module_in, Quotes as quotes_kind};
ghost use Rattle.wat_text.specs.Denotes.{module_keyword as keyword_rule, module_end as end_rule, rest_of_fields as fields_rule};
ghost use Rattle.wat_text.specs.Denotes.{quote as quote_rule, quotes as quotes_rule, binary_module as binary_rule};
ghost use Rattle.wat_text.specs.Denotes.{contents_of as contents_rule, module_after as after_rule, module_of_tokens as tokens_rule};
ghost use Rattle.wat_text.specs.Contents.{in_rule};
ghost use Rattle.wat_text.specs.Finishes.{ReadsFieldsToEnd, ReadsModuleToEnd};
ghost use Rattle.wat_tokens.specs.declared.faults.TextFault.TheVariants as fault;
ghost use Rattle.wat_tokens.specs.Groups.{all_in, IsCounted};
ghost use Rattle.wat_syntax.specs.Bare.{bare_text};
ghost use Rattle.wat_syntax.specs.BareFields.{bare_field, bare_fields};

use crate::errors::first_error;
use crate::quotes::{Quote, quoted_tokens};
use crate::reader::{Reader, fitted};
use std::alloc::Global;
use wast_tree::{Id, Index, ModuleField, NameAnnotation, Seq, Span, discard_fields};
use wat_tokens::{
    Annotation, Key, Placed, Strings, TextError, TextFault, Token, TokenGroups, token_groups_of,
};

/// What a module contains (text format: modules).
///
/// # Example
///
///     match kind {
///         TextKind::Fields(fields) => discard_fields(fields),
///         TextKind::Binary(_pieces) => (),
///     }
pub enum TextKind<'a> {
    /// The fields, in the order of the text.
    Fields(Seq<ModuleField<'a>>),
    /// The bytes of a binary module, in pieces, as in `(module binary "\00asm" "\01\00\00\00")`.
    Binary(Seq<&'a [u8]>),
}

/// A module with its position, id and name annotation (text format: modules).
///
/// # Example
///
///     let TextModule {
///         span: _span,
///         id: _id,
///         name: _name,
///         kind,
///     } = module;
pub struct TextModule<'a> {
    /// The position of the keyword `module`, or the start of the text if there is none.
    pub span: Span,
    /// The id.
    pub id: Option<Id<'a>>,
    /// The name annotation.
    pub name: Option<NameAnnotation<'a>>,
    /// The fields, or the bytes of a binary module.
    pub kind: TextKind<'a>,
}

/// The start of a module: the position of its keyword if it is in parentheses, its id and its name
/// annotation.
#[derive(Clone, Copy)]
struct ModuleHead<'a> {
    keyword: Option<Span>,
    id: Option<Id<'a>>,
    name: Option<NameAnnotation<'a>>,
}

impl<'a> Reader<'a> {
    /// Reads a field after its `(`, without its `)` (text format: modules).
    fn form(&mut self) -> ModuleField<'a>
        ensures { Reads fieldform self.old self.new (bare_field result) }
    {
        match self.key(0) {
            Some(Key::Ty) => ModuleField::Ty(self.type_field()),
            Some(Key::Rec) => ModuleField::Rec(self.rec_field()),
            Some(Key::Import) => ModuleField::Import(self.import_field()),
            Some(Key::Func) => ModuleField::Func(self.func_field()),
            Some(Key::Table) => ModuleField::Table(self.table_field()),
            Some(Key::Memory) => ModuleField::Memory(self.memory_field()),
            Some(Key::Global) => ModuleField::Global(self.global_field()),
            Some(Key::Export) => ModuleField::Export(self.export_field()),
            Some(Key::Start) => self.start_field(),
            Some(Key::Elem) => ModuleField::Elem(self.elem_field()),
            Some(Key::Data) => ModuleField::Data(self.data_field()),
            Some(Key::Tag) => ModuleField::Tag(self.tag_field()),
            _ => self.no_field(),
        }
    }

    /// Reads the field `(start $f)`, without its parentheses (text format: start function).
    fn start_field(&mut self) -> ModuleField<'a>
        ensures { Decides startfield self.old self.new (bare_field result) }
    {
        self.skip();
        ModuleField::Start(self.index())
    }

    /// Fails because no field is next. The field that it returns is a dummy.
    fn no_field(&mut self) -> ModuleField<'a>
        ensures { Refuses self.old self.new }
    {
        self.expected("valid module field");
        ModuleField::Start(Index::from(0))
    }

    /// Reads a field from its `(` or its annotation on, without its `)` (text format: modules).
    fn field(&mut self) -> ModuleField<'a>
        ensures { Reads open_field self.old self.new (bare_field result) }
    {
        match self.look(0) {
            Some(Token::Open) => {
                self.skip();
                self.form()
            }
            Some(Token::Annotation(Annotation::Custom)) => ModuleField::Custom(self.custom_field()),
            Some(Token::Annotation(Annotation::Producers)) => {
                ModuleField::Custom(self.producers_field())
            }
            Some(Token::Annotation(Annotation::Dylink0)) => {
                ModuleField::Custom(self.dylink_field())
            }
            _ => self.no_field(),
        }
    }

    /// Reads a field in its parentheses (text format: modules).
    fn module_field(&mut self) -> ModuleField<'a>
        ensures { Reads modulefield self.old self.new (bare_field result) }
    {
        let field = self.field();
        self.close();
        field
    }

    /// Appends a field to a list.
    #[tactic(auto, using(crate::proofs::Makes::none_failed), unfolding(crate::specs::Readers::left))]
    fn push_field(&mut self, fields: &mut Seq<ModuleField<'a>>, field: ModuleField<'a>)
        ensures { Builds self.old self.new field.entry fields.old fields.new }
    {
        self.make.push_field(fields, field);
    }

    /// Reads fields up to the closing `)` or the end of the text, and appends them.
    #[tactic(auto, using(crate::proofs::Steps::one_built, crate::proofs::Loops::part_end, crate::proofs::Loops::part_last, crate::proofs::Loops::none_after))]
    fn all_fields_of(&mut self, fields: &mut Seq<ModuleField<'a>>)
        ensures { ReadsOnto modulefields self.old self.new (map bare_field fields.old) (map bare_field fields.new) }
    {
        for _ in 0..self.left() {
            if self.is_end() {
                break;
            }
            let field = self.module_field();
            self.push_field(fields, field);
        }
    }

    /// Reads fields up to the closing `)` or the end of the text.
    #[tactic(auto, using(crate::proofs::Loops::from_nothing))]
    fn fields(&mut self) -> Seq<ModuleField<'a>>
        ensures { Reads modulefields self.old self.new (map bare_field result) }
    {
        let mut fields = Seq::new(self.alloc);
        self.all_fields_of(&mut fields);
        fitted(fields)
    }

    /// Reads `(module`, if it is next, and returns the position of the keyword.
    fn module_keyword(&mut self) -> Option<Span>
        ensures { Finds keyword_rule self.old self.new result }
    {
        if !self.is_form(Key::Module) {
            return None;
        }
        self.skip();
        let span = self.place();
        self.skip();
        Some(span)
    }

    /// Reads `(module`, an id and a name annotation, if the module is in parentheses. Otherwise
    /// reads nothing, because fields alone have no id.
    fn module_head(&mut self) -> ModuleHead<'a>
        ensures { Decides opening self.old self.new (bare_opening result) }
    {
        let keyword = self.module_keyword();
        let (id, name) = match keyword {
            Some(_) => (self.id(), self.name()),
            None => (None, None),
        };
        ModuleHead { keyword, id, name }
    }

    /// Appends a piece to a list.
    fn push_piece(&mut self, pieces: &mut Seq<&'a [u8]>, piece: &'a [u8])
        ensures { Pushes self.old self.new piece.entry pieces.old pieces.new }
    {
        let pushed = pieces.push(piece);
        self.took(pushed);
    }

    /// Appends the strings up to the closing `)`.
    #[tactic(auto, using(crate::proofs::Steps::one_bare, crate::proofs::Loops::part_end, crate::proofs::Loops::part_last, crate::proofs::Loops::none_after))]
    fn all_pieces(&mut self, pieces: &mut Seq<&'a [u8]>)
        ensures { ReadsOnto strings_rule self.old self.new (map bare_text pieces.old) (map bare_text pieces.new) }
    {
        for _ in 0..self.left() {
            if self.is_end() {
                break;
            }
            let piece = self.bytes();
            self.push_piece(pieces, piece);
        }
    }

    /// Reads strings up to the closing `)`: the pieces of a binary module or of a custom section.
    #[tactic(auto, using(crate::proofs::Loops::from_nothing))]
    pub(crate) fn pieces(&mut self) -> Seq<&'a [u8]>
        ensures { Reads strings_rule self.old self.new (map bare_text result) }
    {
        let mut pieces = Seq::new(self.alloc);
        self.all_pieces(&mut pieces);
        pieces
    }

    /// Reads a string of a text in quotes, with its position.
    fn quote(&mut self) -> Quote<'a>
        ensures { Decides quote_rule self.old self.new (bare_quote result) }
    {
        let span = self.place();
        let bytes = self.bytes();
        Quote { span, bytes }
    }

    /// Appends a string of a text in quotes to a list.
    fn push_quote(&mut self, quotes: &mut Vec<Quote<'a>>, quote: Quote<'a>)
        ensures { Pushes self.old self.new quote.entry quotes.old.items quotes.new.items }
    {
        let pushed = quotes.push(quote).is_ok();
        if !pushed {
            self.fail(TextFault::Memory);
        }
    }

    /// Reads strings up to the closing `)`, and appends each with its position.
    #[tactic(auto, using(crate::proofs::Steps::one_bare, crate::proofs::Loops::part_end, crate::proofs::Loops::part_last, crate::proofs::Loops::none_after))]
    fn all_quotes(&mut self, quotes: &mut Vec<Quote<'a>>)
        ensures { ReadsOnto quotes_rule self.old self.new (map bare_quote quotes.old.items) (map bare_quote quotes.new.items) }
    {
        for _ in 0..self.left() {
            if self.is_end() {
                break;
            }
            let quote = self.quote();
            self.push_quote(quotes, quote);
        }
    }

    /// Reads the strings of `(module quote ..)` up to the closing `)`, each with its position.
    #[tactic(auto, using(crate::proofs::Loops::from_nothing))]
    fn quotes(&mut self) -> Vec<Quote<'a>>
        ensures { Reads quotes_rule self.old self.new (map bare_quote result.items) }
    {
        let mut quotes = Vec::new(self.alloc);
        self.all_quotes(&mut quotes);
        quotes
    }

    /// Checks that all tokens are read, or fails.
    #[tactic(auto, using(crate::proofs::Taken::none_left, crate::proofs::Taken::some_left))]
    fn text_end(&mut self)
        ensures { Expects all_taken self.old self.new }
    {
        if self.left() > 0 {
            self.fail(TextFault::Trailing);
        }
    }

    /// Checks that at most one field is a start function, or fails (text format: modules).
    #[tactic(auto, using(crate::proofs::Starts::one_holds))]
    fn one_start(&mut self, fields: &mut Seq<ModuleField<'a>>)
        ensures checks { Expects (where_it_holds (has_one_start (bare_fields fields.old))) self.old self.new }
        ensures stays { fields.new ≡ fields.old }
    {
        if let Some(span) = second_start_in(fields) {
            self.fail_at(span, TextFault::Starts);
        }
    }

    /// Reads the `)` of a module, if it is in parentheses, and the end of the text.
    fn module_end(&mut self, is_written: bool)
        ensures { Expects (end_rule is_written) self.old self.new }
    {
        if !is_written {
            self.text_end();
            return;
        }
        self.close();
        self.text_end();
    }
}

/// Returns the position of the index of a start function, if the field is one.
fn start_place(field: &ModuleField<'_>) -> Option<Span>
    ensures { is_some result ≡ is_start field.now }
{
    match field {
        ModuleField::Start(index) => Some(index.span()),
        _ => None,
    }
}

/// Returns the position of the second start function, if there are several.
#[tactic(auto, using(crate::proofs::Starts::one_at_end, crate::proofs::Starts::one_found, crate::proofs::Starts::one_passed, crate::proofs::Starts::second_found))]
fn second_start(fields: &[ModuleField<'_>]) -> Option<Span>
    ensures { is_none result ≡ has_one_start fields.now }
{
    let mut found = false;
    for field in fields {
        if let Some(span) = start_place(field) {
            if found {
                return Some(span);
            }
            found = true;
        }
    }
    None
}

/// Returns the position of the second start function in a list. It takes `&mut` and changes
/// nothing, because for a `&` the prover would compare the type of the whole tree with itself.
fn second_start_in<'a>(fields: &mut Seq<ModuleField<'a>>) -> Option<Span>
    ensures one { is_none result ≡ has_one_start fields.old }
    ensures stays { fields.new ≡ fields.old }
{
    second_start(fields.as_slice())
}

/// Returns the fields if there is no error. Otherwise drops them and returns the error.
fn unless<'a>(
    error: Option<TextError>,
    fields: Seq<ModuleField<'a>>,
) -> Result<Seq<ModuleField<'a>>, TextError>
    ensures ok { IfOk result (λ same. (error ≡ None) × (same ≡ fields.entry)) }
    ensures err { IfErr result (λ e. error ≡ Some e) }
{
    match error {
        None => Ok(fields),
        Some(error) => {
            discard_fields(fields);
            Err(error)
        }
    }
}

/// Reads the fields up to the end of the text, and the `)` before it if the module is in
/// parentheses.
fn rest_of_fields<'a>(
    reader: Reader<'a>,
    is_written: bool,
) -> Result<Seq<ModuleField<'a>>, TextError>
    ensures { ReadsFieldsToEnd (fields_rule is_written) reader.entry result }
{
    let mut reader = reader;
    let mut fields = reader.fields();
    reader.module_end(is_written);
    reader.one_start(&mut fields);
    unless(reader.finish(), fields)
}

/// Returns the module at this position whose fields are read up to the end of the text.
fn module_of_fields<'a>(
    reader: Reader<'a>,
    span: Span,
    head: ModuleHead<'a>,
) -> Result<TextModule<'a>, TextError>
    ensures { ReadsModuleToEnd (fields_module span (bare_opening head.entry)) reader.entry result }
{
    match rest_of_fields(reader, head.keyword.is_some()) {
        Ok(fields) => Ok(TextModule {
            span,
            id: head.id,
            name: head.name,
            kind: TextKind::Fields(fields),
        }),
        Err(fault) => Err(fault),
    }
}

/// Returns the position of the keyword of a module, or the start of the text if there is none.
fn module_place(keyword: Option<Span>) -> Span
    ensures { result ≡ unwrap_or keyword text_start }
{
    match keyword {
        Some(span) => span,
        None => Span { offset: 0 },
    }
}

/// Reads a binary module from `binary` on, and returns its pieces.
fn binary_module<'a>(reader: Reader<'a>, head: ModuleHead<'a>) -> Result<TextModule<'a>, TextError>
    ensures { ReadsModuleToEnd (binary_rule (bare_opening head.entry)) reader.entry result }
{
    let mut reader = reader;
    reader.skip();
    let place = module_place(head.keyword);
    let pieces = reader.pieces();
    reader.module_end(true);
    match reader.finish() {
        Some(fault) => Err(fault),
        None => Ok(TextModule {
            span: place,
            id: head.id,
            name: head.name,
            kind: TextKind::Binary(pieces),
        }),
    }
}

/// Reads a module in quotes from `quote` on, and returns the module of the text in quotes. It has
/// the position of the outer module, and its id and name annotation, if there are any.
fn quoted_module<'a>(
    source: &str,
    reader: Reader<'a>,
    head: ModuleHead<'a>,
    strings: &'a Strings,
) -> Result<TextModule<'a>, TextError>
    ensures { ReadsModuleToEnd (module_as source.now quotes_kind (bare_opening head.entry)) reader.entry result }
{
    let alloc = reader.alloc;
    let mut reader = reader;
    reader.skip();
    let (place, quotes) = (reader.place(), reader.quotes());
    reader.module_end(true);
    if let Some(fault) = reader.finish() {
        return Err(fault);
    }
    let tokens = quoted_tokens(alloc, source, quotes.as_slice(), place, strings)?;
    let mut inner = Reader::new(alloc, tokens, place);
    let ModuleHead { keyword, id, name } = inner.module_head();
    let (id, name) = (head.id.or(id), head.name.or(name));
    let span = module_place(head.keyword);
    module_of_fields(inner, span, ModuleHead { keyword, id, name })
}

/// Returns a position, or `end` if it is after that.
fn up_to_end(span: Span, end: Span) -> Span
    ensures { result.offset ≤ end.offset }
{
    Span {
        offset: span.offset.min(end.offset),
    }
}

/// Does what [`read_tokens`] does. The contract does not bound the position of an error.
fn fields_of_tokens<'a>(
    alloc: Global,
    tokens: Vec<Placed<'a>>,
    end: Span,
) -> Result<Seq<ModuleField<'a>>, TextError>
    ensures well_formed { IfOk result (λ fields. IsTrue (is_well_formed fields)) }
    ensures denotes { IfOk result (AreFields (fields_of_module (all_bare tokens.entry.items end))) }
    ensures refuses { IfErr result (λ e. e.fault ≢ fault.Memory → fields_of_module (all_bare tokens.entry.items end) ≡ None) }
{
    let mut reader = Reader::new(alloc, tokens, end);
    let head = reader.module_head();
    rest_of_fields(reader, head.keyword.is_some())
}

/// What a module contains.
#[derive(Clone, Copy)]
enum Contents {
    /// Fields.
    Fields,
    /// The bytes of a binary module.
    Binary,
    /// A text in quotes.
    Quotes,
}

/// Returns what a module contains, by its keyword `module` and the keyword after its opening.
fn contents_by(keyword: Option<Span>, key: Option<Key>) -> Contents
    ensures { contents_rule keyword key ≡ in_rule result }
{
    match keyword {
        Some(_) => match key {
            Some(Key::Binary) => Contents::Binary,
            Some(Key::Quote) => Contents::Quotes,
            _ => Contents::Fields,
        },
        None => Contents::Fields,
    }
}

/// Reads a module after its opening, by the keyword that comes next.
fn module_after<'a>(
    source: &str,
    reader: Reader<'a>,
    head: ModuleHead<'a>,
    strings: &'a Strings,
) -> Result<TextModule<'a>, TextError>
    ensures { ReadsModuleToEnd (after_rule source.now (bare_opening head.entry)) reader.entry result }
{
    match contents_by(head.keyword, reader.key(0)) {
        Contents::Fields => module_of_fields(reader, module_place(head.keyword), head),
        Contents::Binary => binary_module(reader, head),
        Contents::Quotes => quoted_module(source, reader, head, strings),
    }
}

/// Reads a module from the tokens of a text. The contract does not bound the position of an error.
pub(crate) fn module_of_tokens<'a>(
    alloc: Global,
    source: &str,
    tokens: Vec<Placed<'a>>,
    end: Span,
    strings: &'a Strings,
) -> Result<TextModule<'a>, TextError>
    ensures well_formed { IfOk result (λ m. IsTrue (is_well_formed_text m.kind)) }
    ensures denotes { IfOk result (IsModule (module_in source.now (all_bare tokens.entry.items end))) }
    ensures refuses { IfErr result (λ e. e.fault ≢ fault.Memory → module_in source.now (all_bare tokens.entry.items end) ≡ None) }
{
    let mut reader = Reader::new(alloc, tokens, end);
    let head = reader.module_head();
    module_after(source, reader, head, strings)
}

/// Reads a module from the tokens of a text in groups. The contract does not bound the position of
/// an error.
fn module_of_groups<'a>(
    alloc: Global,
    source: &str,
    groups: TokenGroups<'a>,
    end: Span,
    strings: &'a Strings,
) -> Result<TextModule<'a>, TextError>
    requires { IsCounted groups }
    ensures well_formed { IfOk result (λ m. IsTrue (is_well_formed_text m.kind)) }
    ensures denotes { IfOk result (IsModule (module_in source.now (all_bare (all_in groups.entry.groups.items) end))) }
    ensures refuses { IfErr result (λ e. e.fault ≢ fault.Memory → module_in source.now (all_bare (all_in groups.entry.groups.items) end) ≡ None) }
{
    let mut reader = Reader::of_groups(alloc, groups, end);
    let head = reader.module_head();
    module_after(source, reader, head, strings)
}

/// Reads a module from the tokens of a text up to `end`.
fn module_up_to<'a>(
    alloc: Global,
    source: &str,
    tokens: Vec<Placed<'a>>,
    end: Span,
    strings: &'a Strings,
) -> Result<TextModule<'a>, TextError>
    ensures well_formed { IfOk result (λ m. IsTrue (is_well_formed_text m.kind)) }
    ensures denotes { IfOk result (IsModule (module_in source.now (all_bare tokens.entry.items end))) }
    ensures refuses { IfErr result (λ e. e.fault ≢ fault.Memory → module_in source.now (all_bare tokens.entry.items end) ≡ None) }
    ensures place { IfErr result (λ e. e.span.offset ≤ end.offset) }
{
    match module_of_tokens(alloc, source, tokens, end, strings) {
        Ok(module) => Ok(module),
        Err(error) => Err(TextError {
            span: up_to_end(error.span, end),
            ..error
        }),
    }
}

/// Reads a module from the tokens of a text in groups up to `end`.
fn module_of_groups_up_to<'a>(
    alloc: Global,
    source: &str,
    groups: TokenGroups<'a>,
    end: Span,
    strings: &'a Strings,
) -> Result<TextModule<'a>, TextError>
    requires { IsCounted groups }
    ensures well_formed { IfOk result (λ m. IsTrue (is_well_formed_text m.kind)) }
    ensures denotes { IfOk result (IsModule (module_in source.now (all_bare (all_in groups.entry.groups.items) end))) }
    ensures refuses { IfErr result (λ e. e.fault ≢ fault.Memory → module_in source.now (all_bare (all_in groups.entry.groups.items) end) ≡ None) }
    ensures place { IfErr result (λ e. e.span.offset ≤ end.offset) }
{
    match module_of_groups(alloc, source, groups, end, strings) {
        Ok(module) => Ok(module),
        Err(error) => Err(TextError {
            span: up_to_end(error.span, end),
            ..error
        }),
    }
}

/// Reads a module in the text format (text format: modules).
///
///     let module = read(rt.alloc(), text, &strings).expect(&rt, "a module");
///
/// For the text `(module (func) (func $f))` the module has two fields.
///
/// The module is in parentheses, or its fields are alone. The bytes of `(module binary "..")` are
/// not checked. For `(module quote "..")` the strings are joined to one text, and the result is its
/// module.
///
/// A field has the position of its keyword. An id or a number has that of its first character, also
/// in the strings of `(module quote ..)`. If an escape writes the character, it is that of the
/// escape. The tree refers to `strings`, which stores strings with escapes and the text in quotes.
/// However deeply a text is nested, calls do not nest as deeply.
///
/// # Errors
///
/// The first error of the text, with a position in the text or at its end. In the strings of
/// `(module quote ..)` a wrong token comes before an earlier error of another kind. For example, it
/// is the `[` of `(module quote "(fnuc) [")`.
///
/// - [`TextFault::Memory`]: allocation failed.
/// - Each other fault: the text is not a module. It is never [`TextFault::IllFormed`], because the
///   rules read only well-formed fields.
///
/// # Memory
///
/// All tokens are allocated before the tree, and are freed in groups of 512 while it is read.
#[tactic(auto, using(crate::proofs::Opened::text_ok))]
pub fn read<'a>(
    alloc: Global,
    text: &'a str,
    strings: &'a Strings,
) -> Result<TextModule<'a>, TextError>
    ensures well_formed { IfOk result (λ m. IsTrue (is_well_formed_text m.kind)) }
    ensures denotes { IfOk result (Denotes text.now) }
    ensures refuses { IfErr result (λ e. e.fault ≢ fault.Memory → DenotesNothing text.now) }
    ensures place { IfErr result (λ e. e.span.offset ≤ length text.now) }
{
    let end = Span { offset: text.len() };
    match token_groups_of(alloc, text, strings) {
        Ok(groups) => module_of_groups_up_to(alloc, text, groups, end, strings),
        Err(error) => Err(first_error(alloc, text, strings, error)),
    }
}

/// Reads the fields of a module from its tokens, as [`read`] does from a text (text format:
/// modules).
///
/// It is for tokens that the caller has changed, for example their ids or positions.
///
///     let mut tokens = written_tokens_of(alloc, text)?;
///     write_in(&mut tokens, way);
///
/// After this change of the tokens, with the length of the text as `end`:
///
///     read_tokens(alloc, tokens, end)
///
/// `end` is the position after the last token, and no error is after it. The id and the name
/// annotation of the module are not returned. A module `(module binary ..)` or `(module quote ..)`
/// is an error.
pub fn read_tokens<'a>(
    alloc: Global,
    tokens: Vec<Placed<'a>>,
    end: Span,
) -> Result<Seq<ModuleField<'a>>, TextError>
    ensures well_formed { IfOk result (λ fields. IsTrue (is_well_formed fields)) }
    ensures denotes { IfOk result (AreFields (fields_of_module (all_bare tokens.entry.items end))) }
    ensures refuses { IfErr result (λ e. e.fault ≢ fault.Memory → fields_of_module (all_bare tokens.entry.items end) ≡ None) }
    ensures place { IfErr result (λ e. e.span.offset ≤ end.offset) }
{
    match fields_of_tokens(alloc, tokens, end) {
        Ok(fields) => Ok(fields),
        Err(error) => Err(TextError {
            span: up_to_end(error.span, end),
            ..error
        }),
    }
}

/// Reads a module from its tokens, as [`read`] does from a text (text format: modules).
///
/// For example, `wast_script` calls it with the tokens of one module of a script. `end` is the
/// position after the last token, and no error is after it. The text of `(module quote ..)` is
/// stored in `strings`. Each token of that text has the position of the string in which it begins.
pub fn read_module_tokens<'a>(
    alloc: Global,
    tokens: Vec<Placed<'a>>,
    end: Span,
    strings: &'a Strings,
) -> Result<TextModule<'a>, TextError>
    ensures well_formed { IfOk result (λ m. IsTrue (is_well_formed_text m.kind)) }
    ensures denotes { IfOk result (IsModule (tokens_rule (all_bare tokens.entry.items end))) }
    ensures refuses { IfErr result (λ e. e.fault ≢ fault.Memory → tokens_rule (all_bare tokens.entry.items end) ≡ None) }
    ensures place { IfErr result (λ e. e.span.offset ≤ end.offset) }
{
    module_up_to(alloc, "", tokens, end, strings)
}

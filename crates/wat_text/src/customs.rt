//! Reads the custom sections `@custom`, `@producers` and `@dylink.0` (text format: custom
//! annotations; tool conventions).

ghost use Rattle.std.specs.Prelude.{◌≡◌, true, false, None, Some, ◌++◌, map};
ghost use Rattle.wat_syntax.specs.Customs.{section_of, section, place_of, customplace, customfield, known_field, producer_open, producer};
ghost use Rattle.wat_syntax.specs.Customs.{all_producers, named_field, fields_of, producersfield, flag_of, again, exported, imported};
ghost use Rattle.wat_syntax.specs.Customs.{exports_info, imports_info, memory_info, subsection_form, subsections, dylinkfield};
ghost use Rattle.wat_syntax.specs.Customs.{version as version_rule, flag as flag_rule, flags as flags_rule};
ghost use Rattle.wat_syntax.specs.Customs.{names as names_rule, size_and_align as size_rule, subsection as subsection_rule};
ghost use Rattle.wat_text.specs.Readers.{left, Reads, Decides, Accepts, Refuses, ReadsOnto, Pushes, Builds};
ghost use Rattle.wat_text.specs.MadeProducers.{PushesValue, ReadsProducers};
ghost use Rattle.wat_syntax.specs.Tokens.{one};
ghost use Rattle.wat_syntax.specs.Bare.{bare_text};
ghost use Rattle.wat_syntax.specs.BareFields.{bare_custom, bare_exported, bare_imported, bare_producers_field, bare_subsection, bare_version};
ghost use Rattle.wat_text.specs.MadeProducers.{bare_value, tool_field};

use crate::reader::Reader;
use wast_tree::{
    Custom, CustomPlace, CustomPlaceAnchor, Dylink0, Dylink0Subsection, Producers,
    RawCustomSection, Seq, Span,
};
use wat_tokens::{Key, TextFault, Token};

/// Returns the section that a keyword is, before or after which a custom section can be (text
/// format: custom annotations). For example, `code`.
fn anchor(key: Key) -> Option<CustomPlaceAnchor>
    ensures { result ≡ section_of key }
{
    match key {
        Key::Ty => Some(CustomPlaceAnchor::Ty),
        Key::Import => Some(CustomPlaceAnchor::Import),
        Key::Func => Some(CustomPlaceAnchor::Func),
        Key::Table => Some(CustomPlaceAnchor::Table),
        Key::Memory => Some(CustomPlaceAnchor::Memory),
        Key::Tag => Some(CustomPlaceAnchor::Tag),
        Key::Global => Some(CustomPlaceAnchor::Global),
        Key::Export => Some(CustomPlaceAnchor::Export),
        Key::Start => Some(CustomPlaceAnchor::Start),
        Key::Elem => Some(CustomPlaceAnchor::Elem),
        Key::Code => Some(CustomPlaceAnchor::Code),
        Key::Data => Some(CustomPlaceAnchor::Data),
        _ => None,
    }
}

/// Returns the flag that a keyword is (tool conventions: dynamic linking). For example,
/// `binding-weak` is 1.
fn flag(key: Key) -> Option<u32>
    ensures { result ≡ flag_of key }
{
    match key {
        Key::BindingWeak => Some(0x1),
        Key::BindingLocal => Some(0x2),
        Key::VisibilityHidden => Some(0x4),
        Key::Undefined => Some(0x10),
        Key::Exported => Some(0x20),
        Key::ExplicitName => Some(0x40),
        Key::NoStrip => Some(0x80),
        Key::Tls => Some(0x100),
        Key::Absolute => Some(0x200),
        _ => None,
    }
}

/// A field of a `producers` section.
#[derive(Clone, Copy)]
enum Tool {
    /// `language`
    Language,
    /// `sdk`
    Sdk,
    /// `processed-by`
    ProcessedBy,
}

/// The values of each field of a `producers` section.
struct Made<'a> {
    languages: Seq<(&'a str, &'a str)>,
    sdks: Seq<(&'a str, &'a str)>,
    processors: Seq<(&'a str, &'a str)>,
}

impl<'a> Reader<'a> {
    /// Reads the section before or after which a custom section is.
    fn anchor(&mut self) -> CustomPlaceAnchor
        ensures { Decides section self.old self.new result }
    {
        let found = match self.key(0) {
            Some(key) => anchor(key),
            None => None,
        };
        match found {
            Some(anchor) => {
                self.skip();
                anchor
            }
            None => {
                self.expected("a valid section name");
                CustomPlaceAnchor::Data
            }
        }
    }

    /// Reads the position of a custom section in the module, after its `(` (text format: custom
    /// annotations). For example, `before code` or `after last`.
    fn custom_place(&mut self) -> CustomPlace
        ensures { Decides place_of self.old self.new result }
    {
        if self.accept(Key::Before) {
            if self.accept(Key::First) {
                return CustomPlace::BeforeFirst;
            }
            return CustomPlace::Before(self.anchor());
        }
        if !self.accept(Key::After) {
            self.expected("`before` or `after`");
        }
        if self.accept(Key::Last) {
            return CustomPlace::AfterLast;
        }
        CustomPlace::After(self.anchor())
    }

    /// Reads the position of a custom section, if there is one (text format: custom annotations).
    /// Without one, it is after all other sections.
    fn optional_place(&mut self) -> CustomPlace
        ensures { Decides customplace self.old self.new result }
    {
        if !self.is_open(0) {
            return CustomPlace::AfterLast;
        }
        self.skip();
        let place = self.custom_place();
        self.close();
        place
    }

    /// Reads the annotation `(@custom ..)`, without its `)` (text format: custom annotations).
    pub fn custom_field(&mut self) -> Custom<'a>
        ensures { Reads customfield self.old self.new (bare_custom result) }
    {
        let span = self.place();
        self.skip();
        let name = self.text();
        let place = self.optional_place();
        let bytes = self.pieces();
        Custom::Raw(RawCustomSection {
            span,
            place,
            name,
            bytes,
        })
    }

    /// Reads a name and a version, such as `"clang" "19"`.
    fn version(&mut self) -> (&'a str, &'a str)
        ensures { Decides version_rule self.old self.new (bare_version result) }
    {
        (self.text(), self.text())
    }

    /// Appends a value to a field of `producers`.
    fn push_version(&mut self, versions: &mut Seq<(&'a str, &'a str)>, version: (&'a str, &'a str))
        ensures { Pushes self.old self.new version.entry versions.old versions.new }
    {
        let pushed = versions.push(version);
        self.took(pushed);
    }

    /// Fails because the keyword at a position is not a field of `producers`. The result is a
    /// dummy.
    fn no_tool(&mut self, place: Span) -> Tool
        ensures { Refuses self.old self.new }
    {
        let fields = "`language`, `sdk` or `processed-by`";
        self.fail_at(place, TextFault::Expected(fields));
        Tool::Language
    }

    /// Returns the field of `producers` that the keyword at a position is, or fails.
    fn tool(&mut self, key: Option<Key>, place: Span) -> Tool
        ensures { Decides (known_field key) self.old self.new (tool_field result) }
    {
        match key {
            Some(Key::Language) => Tool::Language,
            Some(Key::Sdk) => Tool::Sdk,
            Some(Key::ProcessedBy) => Tool::ProcessedBy,
            _ => self.no_tool(place),
        }
    }

    /// Reads one value of a field of `producers`, without its `)`. For example, `(sdk "a" "1"`.
    fn producer_open(&mut self) -> (Tool, (&'a str, &'a str))
        ensures { Decides producer_open self.old self.new (bare_value result) }
    {
        self.open();
        let (place, key) = (self.place(), self.key(0));
        self.skip();
        let version = self.version();
        (self.tool(key, place), version)
    }

    /// Appends a value to its field of `producers`.
    fn push_tool(&mut self, made: &mut Made<'a>, tool: Tool, version: (&'a str, &'a str))
        ensures { PushesValue self.old self.new (tool, version.entry) made.old made.new }
    {
        match tool {
            Tool::Language => self.push_version(&mut made.languages, version),
            Tool::Sdk => self.push_version(&mut made.sdks, version),
            Tool::ProcessedBy => self.push_version(&mut made.processors, version),
        }
    }

    /// Reads one value of a field of `producers`, such as `(sdk "a" "1")`, and appends it.
    fn producer(&mut self, made: &mut Made<'a>)
        ensures { ReadsProducers (one producer) self.old self.new made.old made.new }
    {
        let (tool, version) = self.producer_open();
        self.push_tool(made, tool, version);
        self.close();
    }

    /// Appends a field of `producers` to the section, if the field has values.
    #[tactic(auto, using(crate::proofs::Makes::none_failed), unfolding(crate::specs::Readers::left))]
    fn put_producers(
        &mut self,
        fields: &mut Seq<(&'a str, Seq<(&'a str, &'a str)>)>,
        name: &'a str,
        values: Seq<(&'a str, &'a str)>,
    )
        ensures made { self.new.make ≡ false → self.old.make ≡ false }
        ensures fault { self.new.fault ≡ self.old.fault }
        ensures left { left self.new ≡ left self.old }
        ensures put { self.new.make ≡ false → map bare_producers_field fields.new ≡ map bare_producers_field fields.old ++ named_field name.now (map bare_version values.entry) }
    {
        if !values.is_empty() {
            self.make.push_producers(fields, name, values);
        }
    }

    /// Reads values of the fields of `producers`, up to the closing `)`, and appends each to its
    /// field.
    #[tactic(auto, using(crate::proofs::Producing::gathers_more, crate::proofs::Producing::gathers_end, crate::proofs::Producing::gathers_last))]
    fn all_producers(&mut self, made: &mut Made<'a>)
        ensures { ReadsProducers all_producers self.old self.new made.old made.new }
    {
        for _ in 0..self.left() {
            if self.is_end() {
                break;
            }
            self.producer(made);
        }
    }

    /// Returns the fields of `producers` that have values: `language`, `sdk` and `processed-by`, in
    /// this order.
    fn made_producers(&mut self, made: Made<'a>) -> Seq<(&'a str, Seq<(&'a str, &'a str)>)>
        ensures made { self.new.make ≡ false → self.old.make ≡ false }
        ensures fault { self.new.fault ≡ self.old.fault }
        ensures left { left self.new ≡ left self.old }
        ensures put { self.new.make ≡ false → map bare_producers_field result ≡ fields_of (map bare_version made.entry.languages) (map bare_version made.entry.sdks) (map bare_version made.entry.processors) }
    {
        let Made {
            languages,
            sdks,
            processors,
        } = made;
        let mut fields = Seq::new(self.alloc);
        self.put_producers(&mut fields, "language", languages);
        self.put_producers(&mut fields, "sdk", sdks);
        self.put_producers(&mut fields, "processed-by", processors);
        fields
    }

    /// Reads the annotation `(@producers ..)`, without its `)` (tool conventions: producers
    /// section).
    pub fn producers_field(&mut self) -> Custom<'a>
        ensures { Reads producersfield self.old self.new (bare_custom result) }
    {
        self.skip();
        let mut made = Made {
            languages: Seq::new(self.alloc),
            sdks: Seq::new(self.alloc),
            processors: Seq::new(self.alloc),
        };
        self.all_producers(&mut made);
        let fields = self.made_producers(made);
        Custom::Producers(Producers { fields })
    }

    /// Reads a flag by its keyword, or a number that has the bits of flags (tool conventions:
    /// dynamic linking).
    fn one_flag(&mut self) -> u32
        ensures { Decides flag_rule self.old self.new result }
    {
        let known = match self.key(0) {
            Some(key) => flag(key),
            None => None,
        };
        match known {
            Some(flag) => {
                self.skip();
                flag
            }
            None => self.number32(),
        }
    }

    /// Reads flags up to the closing `)`, and returns the bits of all of them (tool conventions:
    /// dynamic linking).
    #[tactic(auto, using(crate::proofs::Flags::flag_more, crate::proofs::Flags::flag_end, crate::proofs::Flags::flag_last))]
    fn flags(&mut self) -> u32
        ensures { Reads flags_rule self.old self.new result }
    {
        let mut flags = 0;
        for _ in 0..self.left() {
            if self.is_end() {
                break;
            }
            let flag = self.one_flag();
            flags |= flag;
        }
        flags
    }

    /// Reads a size and an alignment after this keyword, such as `(memory 1 2)`, if they are there.
    /// Otherwise both are 0.
    fn size_and_align(&mut self, key: Key) -> (u32, u32)
        ensures { Decides (size_rule key) self.old self.new result }
    {
        if !self.accept_form(key) {
            return (0, 0);
        }
        let size = self.number32();
        let align = self.number32();
        self.close();
        (size, align)
    }

    /// Appends the names up to the closing `)`.
    #[tactic(auto, using(crate::proofs::Steps::one_bare, crate::proofs::Loops::part_end, crate::proofs::Loops::part_last, crate::proofs::Loops::none_after))]
    fn all_names(&mut self, names: &mut Seq<&'a str>)
        ensures { ReadsOnto names_rule self.old self.new (map bare_text names.old) (map bare_text names.new) }
    {
        for _ in 0..self.left() {
            if self.is_end() {
                break;
            }
            let name = self.text();
            self.push_name(names, name);
        }
    }

    /// Reads names up to the closing `)`.
    #[tactic(auto, using(crate::proofs::Loops::from_nothing))]
    fn names(&mut self) -> Seq<&'a str>
        ensures { Reads names_rule self.old self.new (map bare_text result) }
    {
        let mut names = Seq::new(self.alloc);
        self.all_names(&mut names);
        names
    }

    /// Reads `)`, `(` and this keyword, if they are next. Neighbouring forms are one subsection, so
    /// the next entry follows.
    fn accept_next(&mut self, key: Key) -> bool
        ensures { Accepts (again key) self.old self.new result }
    {
        let is_next = matches!(self.look(0), Some(Token::Close))
            && self.is_open(1)
            && self.is_key(2, key);
        if is_next {
            self.skip();
            self.skip();
            self.skip();
        }
        is_next
    }

    /// Reads the name of an export and its flags (tool conventions: dynamic linking).
    fn exported(&mut self) -> (&'a str, u32)
        ensures { Reads exported self.old self.new (bare_exported result) }
    {
        (self.text(), self.flags())
    }

    /// Reads the module and the name of an import and its flags (tool conventions: dynamic
    /// linking).
    fn imported(&mut self) -> (&'a str, &'a str, u32)
        ensures { Reads imported self.old self.new (bare_imported result) }
    {
        (self.text(), self.text(), self.flags())
    }

    /// Appends an export to a list.
    fn push_exported(&mut self, items: &mut Seq<(&'a str, u32)>, item: (&'a str, u32))
        ensures { Pushes self.old self.new item.entry items.old items.new }
    {
        let pushed = items.push(item);
        self.took(pushed);
    }

    /// Appends an import to a list.
    fn push_imported(
        &mut self,
        items: &mut Seq<(&'a str, &'a str, u32)>,
        item: (&'a str, &'a str, u32),
    )
        ensures { Pushes self.old self.new item.entry items.old items.new }
    {
        let pushed = items.push(item);
        self.took(pushed);
    }

    /// Reads exports from the name of the first on, and appends them. Neighbouring forms
    /// `(export-info ..)` are read as one.
    #[tactic(auto, using(crate::proofs::Entries::entry_last, crate::proofs::Loops::none_after))]
    fn all_exported(&mut self, items: &mut Seq<(&'a str, u32)>)
        ensures { ReadsOnto exports_info self.old self.new (map bare_exported items.old) (map bare_exported items.new) }
    {
        for _ in 0..self.left() {
            let item = self.exported();
            self.push_exported(items, item);
            if !self.accept_next(Key::ExportInfo) {
                return;
            }
        }
    }

    /// Reads imports from the names of the first on, and appends them. Neighbouring forms
    /// `(import-info ..)` are read as one.
    #[tactic(auto, using(crate::proofs::Entries::entry_last, crate::proofs::Loops::none_after))]
    fn all_imported(&mut self, items: &mut Seq<(&'a str, &'a str, u32)>)
        ensures { ReadsOnto imports_info self.old self.new (map bare_imported items.old) (map bare_imported items.new) }
    {
        for _ in 0..self.left() {
            let item = self.imported();
            self.push_imported(items, item);
            if !self.accept_next(Key::ImportInfo) {
                return;
            }
        }
    }

    /// Reads `(export-info "a" 1)` from its name on, and the forms `(export-info ..)` that follow
    /// (tool conventions: dynamic linking).
    #[tactic(auto, using(crate::proofs::Loops::from_nothing))]
    fn export_info(&mut self) -> Seq<(&'a str, u32)>
        ensures { Reads exports_info self.old self.new (map bare_exported result) }
    {
        let mut items = Seq::new(self.alloc);
        self.all_exported(&mut items);
        items
    }

    /// Reads `(import-info "a" "b" 1)` from its names on, and the forms `(import-info ..)` that
    /// follow (tool conventions: dynamic linking).
    #[tactic(auto, using(crate::proofs::Loops::from_nothing))]
    fn import_info(&mut self) -> Seq<(&'a str, &'a str, u32)>
        ensures { Reads imports_info self.old self.new (map bare_imported result) }
    {
        let mut items = Seq::new(self.alloc);
        self.all_imported(&mut items);
        items
    }

    /// Reads the sizes and alignments of `mem-info`, such as `(memory 1 2) (table 3 4)` (tool
    /// conventions: dynamic linking).
    fn memory_info(&mut self) -> Dylink0Subsection<'a>
        ensures { Decides memory_info self.old self.new (bare_subsection result) }
    {
        let (memory_size, memory_align) = self.size_and_align(Key::Memory);
        let (table_size, table_align) = self.size_and_align(Key::Table);
        Dylink0Subsection::MemInfo {
            memory_size,
            memory_align,
            table_size,
            table_align,
        }
    }

    /// Fails because the last token is not a subsection. The result is a dummy.
    fn no_subsection(&mut self) -> Dylink0Subsection<'a>
        ensures { Refuses self.old self.new }
    {
        let name = TextFault::Expected("`dylink.0` subsection name");
        self.fail_at(self.place_before(), name);
        Dylink0Subsection::TargetArch("")
    }

    /// Reads a subsection of `dylink.0` after its `(` (tool conventions: dynamic linking).
    fn subsection(&mut self) -> Dylink0Subsection<'a>
        ensures { Reads subsection_rule self.old self.new (bare_subsection result) }
    {
        let key = self.key(0);
        self.skip();
        match key {
            Some(Key::MemInfo) => self.memory_info(),
            Some(Key::Needed) => Dylink0Subsection::Needed(self.names()),
            Some(Key::ExportInfo) => Dylink0Subsection::ExportInfo(self.export_info()),
            Some(Key::ImportInfo) => Dylink0Subsection::ImportInfo(self.import_info()),
            Some(Key::RuntimePath) => Dylink0Subsection::RuntimePath(self.names()),
            Some(Key::TargetArch) => Dylink0Subsection::TargetArch(self.text()),
            _ => self.no_subsection(),
        }
    }

    /// Reads the annotation `(@dylink.0 ..)`, without its `)` (tool conventions: dynamic linking).
    pub fn dylink_field(&mut self) -> Custom<'a>
        ensures { Reads dylinkfield self.old self.new (bare_custom result) }
    {
        self.skip();
        let subsections = self.subsections();
        Custom::Dylink0(Dylink0 { subsections })
    }

    /// Reads a subsection of `dylink.0`, in its parentheses.
    fn subsection_form(&mut self) -> Dylink0Subsection<'a>
        ensures { Reads subsection_form self.old self.new (bare_subsection result) }
    {
        self.open();
        let subsection = self.subsection();
        self.close();
        subsection
    }

    /// Appends a subsection to a list.
    #[tactic(auto, using(crate::proofs::Makes::none_failed), unfolding(crate::specs::Readers::left))]
    fn push_subsection(
        &mut self,
        subsections: &mut Seq<Dylink0Subsection<'a>>,
        subsection: Dylink0Subsection<'a>,
    )
        ensures { Builds self.old self.new subsection.entry subsections.old subsections.new }
    {
        self.make.push_subsection(subsections, subsection);
    }

    /// Appends the subsections of `dylink.0` up to the closing `)`.
    #[tactic(auto, using(crate::proofs::Steps::one_built, crate::proofs::Loops::part_end, crate::proofs::Loops::part_last, crate::proofs::Loops::none_after))]
    fn all_subsections(&mut self, found: &mut Seq<Dylink0Subsection<'a>>)
        ensures { ReadsOnto subsections self.old self.new (map bare_subsection found.old) (map bare_subsection found.new) }
    {
        for _ in 0..self.left() {
            if self.is_end() {
                break;
            }
            let subsection = self.subsection_form();
            self.push_subsection(found, subsection);
        }
    }

    /// Reads subsections of `dylink.0` up to the closing `)`.
    #[tactic(auto, using(crate::proofs::Loops::from_nothing))]
    fn subsections(&mut self) -> Seq<Dylink0Subsection<'a>>
        ensures { Reads subsections self.old self.new (map bare_subsection result) }
    {
        let mut found = Seq::new(self.alloc);
        self.all_subsections(&mut found);
        found
    }
}

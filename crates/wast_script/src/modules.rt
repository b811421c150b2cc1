//! Finds the tokens of a module, and its form.

ghost use Rattle.std.specs.Prelude.{◌≡◌, ◌<◌, ◌-◌, ◌^◌};
ghost use Rattle.wat_syntax.specs.Tokens.{peek, after};
ghost use Rattle.wast_script.specs.Grammar.{depth_after, is_name_next, after_name, behind_strings, form_rest, strings_to_end};
ghost use Rattle.wast_script.specs.Grammar.{contents, contents_of, module_after, in_parentheses, lone_module};
ghost use Rattle.wast_script.specs.Scripts.{part, contents_in, module_in};
ghost use Rattle.wast_script.specs.Readers.{left, all_bare, Decides, Expects, Moves, Skips};

use crate::commands::{ModuleForm, ScriptModule};
use crate::reader::Reader;
use crate::values::Part;
use wast_base::Span;
use wat_tokens::{Annotation, Token};

impl<'a> Reader<'a> {
    /// Reads the next token, of a form in which so many parentheses are open. Returns how many are open after it.
    fn skip_in(&mut self, depth: u128) -> u128
        requires { depth < 2 ^ 127 }
        ensures moves { Moves after self.old self.new }
        ensures depth { result ≡ depth_after (peek 0 (left self.old)) depth }
    {
        let after = match self.look(0) {
            Some(Token::Open | Token::Annotation(_)) => depth + 1,
            Some(Token::Close) => depth.saturating_sub(1),
            _ => depth,
        };
        self.skip();
        after
    }

    /// Reads tokens up to the end of the form that is open, or to the last one. Returns how many parentheses are open then.
    #[tactic(auto, using(crate::proofs::Loops::skipping_first, crate::proofs::Loops::skipping_more, crate::proofs::Loops::skips_end, crate::proofs::Loops::skips_last))]
    fn skip_tokens(&mut self) -> u128
        ensures { Skips result self.old self.new }
    {
        let mut depth = 1_u128;
        for _ in 0..self.left() {
            if depth == 0 {
                break;
            }
            depth = self.skip_in(depth);
        }
        depth
    }

    /// Reads the tokens up to the end of the form that is open, and its end.
    #[tactic(auto, using(crate::proofs::Loops::form_ends, crate::proofs::Loops::no_form_end))]
    fn skip_form(&mut self)
        ensures { Expects form_rest self.old self.new }
    {
        let depth = self.skip_tokens();
        if depth > 0 {
            self.expected("`)`");
        }
    }

    /// Reads strings as long as one is next.
    #[tactic(auto, using(crate::proofs::Loops::strings_first, crate::proofs::Loops::strings_end, crate::proofs::Loops::strings_last))]
    fn skip_strings(&mut self)
        ensures { Moves behind_strings self.old self.new }
    {
        for _ in 0..self.left() {
            if !self.is_string(0) {
                break;
            }
            self.skip();
        }
    }

    /// Reads strings up to the end of the form, and its end. Returns the part that the strings are.
    fn strings(&mut self) -> Part
        ensures { Decides strings_to_end self.old self.new (part result (all_bare self.new)) }
    {
        let start = self.at();
        self.skip_strings();
        let end = self.at();
        self.close();
        Part { start, end }
    }

    /// Returns whether a name annotation is next.
    fn is_name(&self) -> bool
        ensures { result ≡ is_name_next (left self.now) }
    {
        let is_annotation = matches!(self.look(0), Some(Token::Annotation(Annotation::Name)));
        is_annotation && self.is_string(1) && self.is_close(2)
    }

    /// Reads a name annotation, if there is one.
    fn skip_name(&mut self)
        ensures { Moves after_name self.old self.new }
    {
        if self.is_name() {
            self.skip();
            self.skip();
            self.skip();
        }
    }

    /// Reads the contents of a module, up to its end. Returns its form, and the part that its strings are.
    fn contents_of(&mut self) -> (ModuleForm, Part)
        ensures { Decides contents_of self.old self.new (contents_in result (all_bare self.new)) }
    {
        if self.accept("binary") {
            return (ModuleForm::Binary, self.strings());
        }
        if self.accept("quote") {
            return (ModuleForm::Quote, self.strings());
        }
        self.skip_form();
        (ModuleForm::Fields, Part { start: 0, end: 0 })
    }

    /// Reads a module from its name annotation or its contents on, up to its end.
    fn contents(&mut self) -> (ModuleForm, Part)
        ensures { Decides contents self.old self.new (contents_in result (all_bare self.new)) }
    {
        self.skip_name();
        self.contents_of()
    }

    /// Reads a module after its head, which is a part of the tokens, and its keyword at a position.
    pub(crate) fn module_after(&mut self, span: Span, head: Part) -> ScriptModule<'a>
        ensures { Decides (module_after span (part head (all_bare self.old))) self.old self.new (module_in (all_bare self.new) result) }
    {
        let start = self.at();
        let id = self.id();
        let (form, strings) = self.contents();
        let end = self.at();
        ScriptModule {
            span,
            id,
            form,
            head,
            rest: Part { start, end },
            strings,
        }
    }

    /// Reads a module in its parentheses.
    pub(crate) fn module(&mut self) -> ScriptModule<'a>
        ensures { Decides in_parentheses self.old self.new (module_in (all_bare self.new) result) }
    {
        let start = self.at();
        self.open();
        let span = self.place();
        self.wanted_word("module", "a module");
        let end = self.at();
        self.module_after(span, Part { start, end })
    }

    /// The script as one module without its parentheses.
    #[tactic(auto, using(crate::proofs::Finding::lone_is))]
    pub(crate) fn lone_module(&self) -> ScriptModule<'a>
        requires { (left self.now).left ≡ all_bare self.now }
        ensures { module_in (all_bare self.now) result ≡ lone_module (left self.now) }
    {
        ScriptModule {
            span: self.place(),
            id: None,
            form: ModuleForm::Fields,
            head: Part { start: 0, end: 0 },
            rest: Part {
                start: 0,
                end: self.tokens.len(),
            },
            strings: Part { start: 0, end: 0 },
        }
    }
}

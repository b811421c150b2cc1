//! Reads values: arguments, and what results have to be.

ghost use Rattle.std.specs.Prelude.{◌≡◌, ◌≢◌, ◌≤◌, ◌<◌, ◌++◌, ◌∷◌, ◌^◌, ◌-◌, [], List, IfOk, IfErr, None, Some, suc, ℕ, length, option_map};
ghost use Rattle.std.specs.Float.{binary32, binary64};
ghost use Rattle.wat_syntax.specs.Instructions.{signed_number, times};
ghost use Rattle.wat_syntax.specs.Tokens.{peek, count, keyword_in};
ghost use Rattle.wat_syntax.specs.Values.{number, u32, index};
ghost use Rattle.wat_syntax.specs.Types.{absheaptype, heaptype_form, heaptype};
ghost use Rattle.wat_grammar.specs.Integers.{integer};
ghost use Rattle.wat_syntax.specs.Bare.{bare_heap, bare_index, bare_index_option};
ghost use Rattle.wast_script.specs.Words.{shape_named, constant_named};
ghost use Rattle.wast_script.specs.declared.values.Number.TheVariants as num;
ghost use Rattle.wast_script.specs.declared.words.Constant.TheVariants as constant;
ghost use Rattle.wast_script.specs.declared.words.Use.TheVariants as usage;
ghost use Rattle.wast_script.specs.Constants.{nan_of, float_of, lane_of, lane_count, lanes, vector, word_in, word_that, either_form};
ghost use Rattle.wast_script.specs.Constants.{null_type, host_number, function_index, constant_of, value_word, next_constant, value};
ghost use Rattle.wast_script.specs.Constants.{one_value, all_alternatives, either, argument_or_result, values, Value as ListedValue};
ghost use Rattle.wast_script.specs.Scripts.{part, value_in};
ghost use Rattle.wast_script.specs.Readers.{left, read_values, Accepts, IsRefusal, IsRefused, Refuses, IsFirst, HasLanes, HaveLanes, Decides, Finds, PushesLane};
ghost use Rattle.wast_script.specs.Readers.{PushesValue, SetsEither, TakesAlternative, TakesAlternatives, ReadsLanes, ReadsValue, ReadsOnto, Reads};

use crate::reader::Reader;
use crate::values::{Number, Part, Shape, Value};
use crate::words::{Constant, Use, constant_of, shape_of};
use std::alloc::Global;
use wast_base::Index;
use wast_tree_nodes::{AbstractHeapType, HeapType};
use wat_tokens::{
    Key, TextFault, float32, float64, integer8, integer16, integer32, integer64, unsigned32,
};

/// The NaN that a word names, of a result.
fn nan_of(usage: Use, word: &str) -> Option<Number>
    ensures { result ≡ nan_of usage word.now }
{
    match usage {
        Use::Argument => None,
        Use::Result => match word {
            "nan:canonical" => Some(Number::Canonical),
            "nan:arithmetic" => Some(Number::Arithmetic),
            _ => None,
        },
    }
}

/// The abstract heap type that a keyword is, such as `func` (text format, heap types).
fn abstract_heap(key: Key) -> Option<AbstractHeapType>
    ensures { result ≡ absheaptype key }
{
    match key {
        Key::Func => Some(AbstractHeapType::Func),
        Key::Extern => Some(AbstractHeapType::Extern),
        Key::Exn => Some(AbstractHeapType::Exn),
        Key::Noexn => Some(AbstractHeapType::NoExn),
        Key::Any => Some(AbstractHeapType::Any),
        Key::Eq => Some(AbstractHeapType::Eq),
        Key::Struct => Some(AbstractHeapType::Struct),
        Key::Array => Some(AbstractHeapType::Array),
        Key::Nofunc => Some(AbstractHeapType::NoFunc),
        Key::Noextern => Some(AbstractHeapType::NoExtern),
        Key::None => Some(AbstractHeapType::None),
        Key::I31 => Some(AbstractHeapType::I31),
        Key::Cont => Some(AbstractHeapType::Cont),
        Key::Nocont => Some(AbstractHeapType::NoCont),
        _ => None,
    }
}

/// The bits of a float of 32 bits, or a NaN of a result.
#[tactic(auto, using(wat_text::proofs::Signs::float_is, crate::proofs::Bits::float_not))]
fn float_of32(alloc: Global, usage: Use, text: &str) -> Result<Number, TextFault>
    ensures gives { IfOk result (λ n. float_of binary32 usage text.now ≡ Some n) }
    ensures refuses { IfErr result (λ e. IsRefusal e → float_of binary32 usage text.now ≡ None) }
{
    match nan_of(usage, text) {
        Some(nan) => Ok(nan),
        None => match float32(alloc, text) {
            Ok(bits) => Ok(Number::Bits(bits as u64)),
            Err(fault) => Err(fault),
        },
    }
}

/// The bits of a float of 64 bits, or a NaN of a result.
#[tactic(auto, using(wat_text::proofs::Signs::float_is, crate::proofs::Bits::float_not))]
fn float_of64(alloc: Global, usage: Use, text: &str) -> Result<Number, TextFault>
    ensures gives { IfOk result (λ n. float_of binary64 usage text.now ≡ Some n) }
    ensures refuses { IfErr result (λ e. IsRefusal e → float_of binary64 usage text.now ≡ None) }
{
    match nan_of(usage, text) {
        Some(nan) => Ok(nan),
        None => match float64(alloc, text) {
            Ok(bits) => Ok(Number::Bits(bits)),
            Err(fault) => Err(fault),
        },
    }
}

/// The bits of an integer of 8 bits.
#[tactic(auto, using(crate::proofs::Bits::bits8))]
fn bits_of8(text: &str) -> Result<Number, TextFault>
    ensures gives { IfOk result (λ n. option_map num.Bits (integer 8 text.now) ≡ Some n) }
    ensures refuses { IfErr result (λ e. IsRefusal e → option_map num.Bits (integer 8 text.now) ≡ None) }
{
    match integer8(text) {
        Ok(number) => Ok(Number::Bits(number.cast_unsigned() as u64)),
        Err(fault) => Err(fault),
    }
}

/// The bits of an integer of 16 bits.
#[tactic(auto, using(crate::proofs::Bits::bits16))]
fn bits_of16(text: &str) -> Result<Number, TextFault>
    ensures gives { IfOk result (λ n. option_map num.Bits (integer 16 text.now) ≡ Some n) }
    ensures refuses { IfErr result (λ e. IsRefusal e → option_map num.Bits (integer 16 text.now) ≡ None) }
{
    match integer16(text) {
        Ok(number) => Ok(Number::Bits(number.cast_unsigned() as u64)),
        Err(fault) => Err(fault),
    }
}

/// The bits of an integer of 32 bits.
#[tactic(auto, using(crate::proofs::Bits::bits32))]
fn bits_of32(text: &str) -> Result<Number, TextFault>
    ensures gives { IfOk result (λ n. option_map num.Bits (integer 32 text.now) ≡ Some n) }
    ensures refuses { IfErr result (λ e. IsRefusal e → option_map num.Bits (integer 32 text.now) ≡ None) }
{
    match integer32(text) {
        Ok(number) => Ok(Number::Bits(number.cast_unsigned() as u64)),
        Err(fault) => Err(fault),
    }
}

/// The bits of an integer of 64 bits.
#[tactic(auto, using(crate::proofs::Bits::bits64))]
fn bits_of64(text: &str) -> Result<Number, TextFault>
    ensures gives { IfOk result (λ n. option_map num.Bits (integer 64 text.now) ≡ Some n) }
    ensures refuses { IfErr result (λ e. IsRefusal e → option_map num.Bits (integer 64 text.now) ≡ None) }
{
    match integer64(text) {
        Ok(number) => Ok(Number::Bits(number.cast_unsigned())),
        Err(fault) => Err(fault),
    }
}

/// A lane of a vector, by its text.
fn lane_of(alloc: Global, shape: Shape, usage: Use, text: &str) -> Result<Number, TextFault>
    ensures gives { IfOk result (λ n. lane_of shape usage text.now ≡ Some n) }
    ensures refuses { IfErr result (λ e. IsRefusal e → lane_of shape usage text.now ≡ None) }
{
    match shape {
        Shape::I8x16 => bits_of8(text),
        Shape::I16x8 => bits_of16(text),
        Shape::I32x4 => bits_of32(text),
        Shape::I64x2 => bits_of64(text),
        Shape::F32x4 => float_of32(alloc, usage, text),
        Shape::F64x2 => float_of64(alloc, usage, text),
    }
}

impl<'a> Reader<'a> {
    /// An integer of 32 bits.
    fn integer32(&mut self) -> i32
        ensures { Decides (signed_number 32) self.old self.new result }
    {
        let place = self.place();
        let text = self.number();
        self.value(place, integer32(text), 0)
    }

    /// An integer of 64 bits.
    fn integer64(&mut self) -> i64
        ensures { Decides (signed_number 64) self.old self.new result }
    {
        let place = self.place();
        let text = self.number();
        self.value(place, integer64(text), 0)
    }

    /// A number of 32 bits without a sign.
    fn unsigned32(&mut self) -> u32
        ensures { Decides u32 self.old self.new result }
    {
        let place = self.place();
        let text = self.number();
        self.value(place, unsigned32(text), 0)
    }

    /// A number of a host's reference, which a result may leave out.
    fn host_number(&mut self, usage: Use) -> Option<u32>
        ensures { Decides (host_number usage) self.old self.new result }
    {
        match usage {
            Use::Result => match self.is_number() {
                true => Some(self.unsigned32()),
                false => None,
            },
            Use::Argument => Some(self.unsigned32()),
        }
    }

    /// A float of 32 bits, or a NaN of a result.
    fn float32(&mut self, usage: Use) -> Number
        ensures { Decides (number (float_of binary32 usage)) self.old self.new result }
    {
        let place = self.place();
        let text = self.number();
        let found = float_of32(self.alloc, usage, text);
        self.value(place, found, Number::Bits(0))
    }

    /// A float of 64 bits, or a NaN of a result.
    fn float64(&mut self, usage: Use) -> Number
        ensures { Decides (number (float_of binary64 usage)) self.old self.new result }
    {
        let place = self.place();
        let text = self.number();
        let found = float_of64(self.alloc, usage, text);
        self.value(place, found, Number::Bits(0))
    }

    /// A lane of a vector of this shape.
    fn lane(&mut self, shape: Shape, usage: Use) -> Number
        ensures { Decides (number (lane_of shape usage)) self.old self.new result }
    {
        let place = self.place();
        let text = self.number();
        let found = lane_of(self.alloc, shape, usage, text);
        self.value(place, found, Number::Bits(0))
    }

    /// The shape of a vector.
    fn shape(&mut self) -> Shape
        ensures { Decides (word_that shape_named) self.old self.new result }
    {
        let found = match self.word(0) {
            Some(word) => shape_of(word),
            None => None,
        };
        match found {
            Some(shape) => {
                self.skip();
                shape
            }
            None => {
                self.expected("a vector shape such as `i32x4`");
                Shape::I32x4
            }
        }
    }

    /// Adds a lane.
    #[tactic(auto, unfolding(crate::specs::Readers::left), using(crate::proofs::Pushing::lane_pushed, crate::proofs::Pushing::lane_failed))]
    fn push_lane(&mut self, lane: Number)
        ensures { PushesLane self.old self.new lane }
    {
        match self.lists.lanes.push(lane) {
            Ok(()) => (),
            Err(_) => self.no_memory(),
        }
    }

    /// The lanes of a vector.
    #[tactic(auto, using(crate::proofs::Rows::rows_first, crate::proofs::Rows::rows_last))]
    fn lanes(&mut self, shape: Shape, usage: Use)
        ensures { ReadsLanes (lanes shape usage) self.old self.new }
    {
        for _ in 0..shape.lanes() {
            let lane = self.lane(shape, usage);
            self.push_lane(lane);
        }
    }

    /// A vector from its shape on (text format, vector instructions).
    fn vector(&mut self, usage: Use) -> Value<'a>
        ensures { ReadsValue (vector usage) self.old self.new result }
    {
        let shape = self.shape();
        let start = self.lists.lanes.len();
        self.lanes(shape, usage);
        let end = self.lists.lanes.len();
        Value::V128(shape, Part { start, end })
    }

    /// An index (text format, indices).
    fn index(&mut self) -> Index<'a>
        ensures { Decides index self.old self.new (bare_index result) }
    {
        let place = self.place();
        match self.id() {
            Some(id) => Index::Id(id),
            None => Index::Num(self.unsigned32(), place),
        }
    }

    /// The index of a function, if there is one.
    fn function_index(&mut self) -> Option<Index<'a>>
        ensures { Decides function_index self.old self.new (bare_index_option result) }
    {
        match self.is_close(0) {
            true => None,
            false => Some(self.index()),
        }
    }

    /// An abstract heap type, if it is next.
    fn abstract_heap(&mut self) -> Option<AbstractHeapType>
        ensures { Finds (keyword_in absheaptype) self.old self.new result }
    {
        let ty = abstract_heap(self.key(0)?)?;
        self.skip();
        Some(ty)
    }

    /// Fails because no heap type is next. The type that it returns means nothing.
    fn no_heap_type(&mut self) -> HeapType<'a>
        ensures { Refuses self.old self.new }
    {
        self.expected("a heap type");
        HeapType::of(AbstractHeapType::Any)
    }

    /// A heap type in parentheses: `(shared any)` or `(exact $t)`.
    fn heap_form(&mut self) -> HeapType<'a>
        ensures { Decides heaptype_form self.old self.new (bare_heap result) }
    {
        let heap = if self.accept_key_form(Key::Shared) {
            match self.abstract_heap() {
                Some(ty) => HeapType::Abstract { shared: true, ty },
                None => self.no_heap_type(),
            }
        } else if self.accept_key_form(Key::Exact) {
            HeapType::Exact(self.index())
        } else {
            self.no_heap_type()
        };
        self.close();
        heap
    }

    /// A heap type (text format, heap types).
    #[tactic(auto, using(wat_text::proofs::Numbers::no_index))]
    fn heap_type(&mut self) -> HeapType<'a>
        ensures { Decides heaptype self.old self.new (bare_heap result) }
    {
        if let Some(ty) = self.abstract_heap() {
            return HeapType::of(ty);
        }
        if self.is_open() {
            return self.heap_form();
        }
        if self.is_index() {
            return HeapType::Concrete(self.index());
        }
        self.no_heap_type()
    }

    /// The type of a null reference, which a result may leave out.
    fn null_type(&mut self, usage: Use) -> Option<HeapType<'a>>
        ensures { Decides (null_type usage) self.old self.new (option_map bare_heap result) }
    {
        match usage {
            Use::Result => match self.is_close(0) {
                true => None,
                false => Some(self.heap_type()),
            },
            Use::Argument => Some(self.heap_type()),
        }
    }

    /// A value after its word, if it is no vector.
    fn scalar(&mut self, word: Constant, usage: Use) -> Value<'a>
        requires { word ≢ constant.V128 }
        ensures decides { Decides (constant_of word usage) self.old self.new (value_in [] result) }
        ensures plain { (ls : List Number) → value_in ls result ≡ value_in [] result }
        ensures few { (n : ℕ) → HasLanes n result }
    {
        match word {
            Constant::I32 => Value::I32(self.integer32()),
            Constant::I64 => Value::I64(self.integer64()),
            Constant::F32 => Value::F32(self.float32(usage)),
            Constant::F64 => Value::F64(self.float64(usage)),
            Constant::V128 => Value::I32(0),
            Constant::RefNull => Value::RefNull(self.null_type(usage)),
            Constant::RefExtern => Value::RefExtern(self.host_number(usage)),
            Constant::RefHost => Value::RefHost(self.unsigned32()),
            Constant::RefFunc => Value::RefFunc(self.function_index()),
            Constant::Ref(ty, shared) => Value::Ref(HeapType::Abstract { shared, ty }),
        }
    }

    /// A value after its word.
    fn constant(&mut self, word: Constant, usage: Use) -> Value<'a>
        ensures { ReadsValue (constant_of word usage) self.old self.new result }
    {
        match word {
            Constant::V128 => self.vector(usage),
            _ => self.scalar(word, usage),
        }
    }

    /// The word that begins a value of this use, if it is next.
    fn allowed_word(&self, usage: Use) -> Option<Constant>
        ensures { result ≡ value_word usage (peek 0 (left self.now)) }
    {
        let word = match self.word(0) {
            Some(word) => constant_of(word)?,
            None => return None,
        };
        match (usage, word) {
            (Use::Argument, Constant::RefFunc | Constant::Ref(_, _)) => None,
            _ => Some(word),
        }
    }

    /// Reads the word that begins a value of this use.
    fn constant_word(&mut self, usage: Use) -> Constant
        ensures { Decides (next_constant usage) self.old self.new result }
    {
        match self.allowed_word(usage) {
            Some(word) => {
                self.skip();
                word
            }
            None => {
                self.expected(match usage {
                    Use::Argument => "a value",
                    Use::Result => "a result",
                });
                Constant::I32
            }
        }
    }

    /// A value in its parentheses.
    fn form(&mut self, usage: Use) -> Value<'a>
        ensures { ReadsValue (value usage) self.old self.new result }
    {
        self.open();
        let word = self.constant_word(usage);
        let value = self.constant(word, usage);
        self.close();
        value
    }

    /// Adds a value.
    #[tactic(auto, unfolding(crate::specs::Readers::left), using(crate::proofs::Pushing::value_pushed, crate::proofs::Pushing::value_failed))]
    fn push_value(&mut self, value: Value<'a>)
        ensures { PushesValue self.old self.new value.entry }
    {
        match self.lists.values.push(value) {
            Ok(()) => (),
            Err(_) => self.no_memory(),
        }
    }

    /// Reads a value, and adds it.
    fn one_value(&mut self, usage: Use)
        ensures { ReadsOnto (one_value usage) self.old self.new }
    {
        let value = self.form(usage);
        self.push_value(value);
    }

    /// Reads `(either`, if something is in it, and returns whether it is.
    fn accept_either(&mut self) -> bool
        ensures { Accepts either_form self.old self.new result }
    {
        !self.is_close(2) && self.accept_form("either")
    }

    /// One step in the alternatives of `either`, of which so many are open; how many are then. An `either` in another is
    /// one with it, because both are for a result that is one of their values.
    fn alternative(&mut self, depth: u128) -> u128
        requires { depth < 2 ^ 127 }
        ensures { TakesAlternative depth result self.old self.new }
    {
        if self.is_close(0) {
            self.skip();
            return depth.saturating_sub(1);
        }
        if self.accept_either() {
            return depth + 1;
        }
        self.one_value(Use::Result);
        depth
    }

    /// Steps in the alternatives of `either`, up to its end or to the last token. Returns how many are open then.
    #[tactic(auto, using(crate::proofs::Onto::adds_first, crate::proofs::Onto::takes_end, crate::proofs::Onto::takes_last))]
    fn alternative_steps(&mut self) -> u128
        ensures { TakesAlternatives result self.old self.new }
    {
        let mut depth = 1_u128;
        for _ in 0..self.left() {
            if depth == 0 {
                break;
            }
            depth = self.alternative(depth);
        }
        depth
    }

    /// The alternatives of `either`, which is read.
    #[tactic(auto, using(crate::proofs::Onto::all_taken, crate::proofs::Onto::none_taken))]
    fn alternatives(&mut self)
        ensures { ReadsOnto all_alternatives self.old self.new }
    {
        let depth = self.alternative_steps();
        if depth > 0 {
            self.expected("`)`");
        }
    }

    /// Counts the alternatives of `either` in its value, which has this number among all values.
    #[tactic(auto, unfolding(crate::specs::Readers::left))]
    fn set_either(&mut self, at: usize, count: usize)
        ensures { SetsEither at count self.old self.new }
    {
        if at < self.lists.values.len() {
            self.lists.values[at] = Value::Either(count);
        }
    }

    /// `either`, which is read, and its alternatives.
    fn either(&mut self)
        ensures { ReadsOnto either self.old self.new }
    {
        let at = self.lists.values.len();
        self.push_value(Value::Either(0));
        self.alternatives();
        let count = self.lists.values.len().saturating_sub(at.saturating_add(1));
        self.set_either(at, count);
    }

    /// A result: a value or `either`.
    fn one_result(&mut self)
        ensures { ReadsOnto (argument_or_result usage.Result) self.old self.new }
    {
        match self.accept_either() {
            true => self.either(),
            false => self.one_value(Use::Result),
        }
    }

    /// A value, or for a result `either`.
    fn argument_or_result(&mut self, usage: Use)
        ensures { ReadsOnto (argument_or_result usage) self.old self.new }
    {
        match usage {
            Use::Argument => self.one_value(Use::Argument),
            Use::Result => self.one_result(),
        }
    }

    /// Reads values up to the end of the form, or up to what is no form.
    #[tactic(auto, using(crate::proofs::Onto::adds_first, crate::proofs::Onto::adds_last, wat_text::proofs::Loops::list_end, wat_text::proofs::Loops::list_last))]
    fn all_values(&mut self, usage: Use)
        ensures { ReadsOnto (values usage) self.old self.new }
    {
        for _ in 0..self.left() {
            if !self.is_open() {
                break;
            }
            self.argument_or_result(usage);
        }
    }

    /// Reads values. Returns the part of the values that they are.
    pub(crate) fn values_of(&mut self, usage: Use) -> Part
        ensures { Reads (values usage) self.old self.new (λ vs. part result vs) (λ n. result.end ≤ n) }
    {
        let start = self.lists.values.len();
        self.all_values(usage);
        let end = self.lists.values.len();
        Part { start, end }
    }

    /// Returns the part of the values that no value is.
    #[tactic(auto, using(crate::proofs::Parts::part_empty))]
    pub(crate) fn no_values(&self) -> Part
        ensures none { (vs : List ListedValue) → part result vs ≡ [] }
        ensures end { result.end ≡ 0 }
    {
        Part { start: 0, end: 0 }
    }
}

//! Reads the numbers of instructions and the lanes of vectors (text format: numbers, vector
//! instructions).

ghost use Rattle.std.specs.Prelude.{◌≡◌, IfOk, IfErr, None, Some};
ghost use Rattle.std.specs.Float.{binary32, binary64};
ghost use Rattle.wat_grammar.specs.Floats.{fN};
ghost use Rattle.wat_syntax.specs.Tree.v128;
ghost use Rattle.wat_syntax.specs.Instructions.{u8 as u8_rule, f32 as f32_rule, f64 as f64_rule, signed_number, laneidx, lanes, v128const};
ghost use Rattle.wat_syntax.specs.Instructions.{shuffle as shuffle_rule};
ghost use Rattle.wat_text.specs.Readers.{IsRefusal, Decides};
ghost use Rattle.wat_syntax.specs.BareInstructions.{bare_instr};

use crate::reader::Reader;
use std::alloc::Global;
use wast_tree::{F32, F64, I8x16Shuffle, Instruction, LaneArg, V128Const};
use wat_tokens::{
    Key, TextFault, float32, float64, integer8, integer16, integer32, integer64, unsigned8,
};

/// Returns the bits of a 32-bit floating-point number, by its text.
#[tactic(auto, using(crate::proofs::Signs::float_is, crate::proofs::Signs::float_not))]
pub(crate) fn single(alloc: Global, text: &str) -> Result<F32, TextFault>
    ensures gives { IfOk result (λ x. fN binary32 text.now ≡ Some x.bits) }
    ensures refuses { IfErr result (λ e. IsRefusal e → fN binary32 text.now ≡ None) }
{
    let bits = float32(alloc, text)?;
    Ok(F32 { bits })
}

/// Returns the bits of a 64-bit floating-point number, by its text.
#[tactic(auto, using(crate::proofs::Signs::float_is, crate::proofs::Signs::float_not))]
pub(crate) fn double(alloc: Global, text: &str) -> Result<F64, TextFault>
    ensures gives { IfOk result (λ x. fN binary64 text.now ≡ Some x.bits) }
    ensures refuses { IfErr result (λ e. IsRefusal e → fN binary64 text.now ≡ None) }
{
    let bits = float64(alloc, text)?;
    Ok(F64 { bits })
}

impl<'a> Reader<'a> {
    /// Reads an 8-bit integer, with or without a sign.
    #[tactic(auto, using(crate::proofs::Signs::signed_is, crate::proofs::Signs::signed_not))]
    pub fn integer8(&mut self) -> i8
        ensures { Decides (signed_number 8) self.old self.new result }
    {
        let place = self.place();
        let text = self.number();
        self.value(place, integer8(text), 0)
    }

    /// Reads a 16-bit integer, with or without a sign.
    #[tactic(auto, using(crate::proofs::Signs::signed_is, crate::proofs::Signs::signed_not))]
    pub fn integer16(&mut self) -> i16
        ensures { Decides (signed_number 16) self.old self.new result }
    {
        let place = self.place();
        let text = self.number();
        self.value(place, integer16(text), 0)
    }

    /// Reads a 32-bit integer, with or without a sign.
    #[tactic(auto, using(crate::proofs::Signs::signed_is, crate::proofs::Signs::signed_not))]
    pub fn integer32(&mut self) -> i32
        ensures { Decides (signed_number 32) self.old self.new result }
    {
        let place = self.place();
        let text = self.number();
        self.value(place, integer32(text), 0)
    }

    /// Reads a 64-bit integer, with or without a sign.
    #[tactic(auto, using(crate::proofs::Signs::signed_is, crate::proofs::Signs::signed_not))]
    pub fn integer64(&mut self) -> i64
        ensures { Decides (signed_number 64) self.old self.new result }
    {
        let place = self.place();
        let text = self.number();
        self.value(place, integer64(text), 0)
    }

    /// Reads a 32-bit floating-point number.
    pub fn single(&mut self) -> F32
        ensures { Decides f32_rule self.old self.new result }
    {
        let place = self.place();
        let text = self.number();
        match single(self.alloc, text) {
            Ok(bits) => bits,
            Err(fault) => {
                self.fail_at(place, fault);
                F32 { bits: 0 }
            }
        }
    }

    /// Reads a 64-bit floating-point number.
    pub fn double(&mut self) -> F64
        ensures { Decides f64_rule self.old self.new result }
    {
        let place = self.place();
        let text = self.number();
        match double(self.alloc, text) {
            Ok(bits) => bits,
            Err(fault) => {
                self.fail_at(place, fault);
                F64 { bits: 0 }
            }
        }
    }

    /// Reads a lane index (text format: vector instructions).
    #[tactic(auto, using(crate::proofs::Numbers::unsigned_is, crate::proofs::Numbers::unsigned_not))]
    pub fn lane(&mut self) -> u8
        ensures { Decides u8_rule self.old self.new result }
    {
        let place = self.place();
        let text = self.number();
        self.value(place, unsigned8(text), 0)
    }

    /// Reads a lane index, as an immediate.
    pub fn lane_arg(&mut self) -> LaneArg
        ensures { Decides laneidx self.old self.new result }
    {
        LaneArg { lane: self.lane() }
    }

    /// Reads the 16 lanes of `i8x16.shuffle` (text format: vector instructions).
    #[tactic(auto, using(crate::proofs::Fills::filled_begun, crate::proofs::Fills::filled_more, crate::proofs::Fills::filled_all))]
    pub fn shuffle(&mut self) -> Instruction<'a>
        ensures { Decides shuffle_rule self.old self.new (bare_instr result) }
    {
        let mut lanes = [0; 16];
        for place in 0..16 {
            lanes[place] = self.lane();
        }
        Instruction::i8x16_shuffle(I8x16Shuffle { lanes })
    }

    /// Reads 16 lanes of 8-bit integers.
    #[tactic(auto, using(crate::proofs::Fills::filled_begun, crate::proofs::Fills::filled_more, crate::proofs::Fills::filled_all))]
    fn lanes16(&mut self) -> V128Const
        ensures { Decides (lanes v128.I8x16 16 (signed_number 8)) self.old self.new result }
    {
        let mut lanes = [0; 16];
        for place in 0..16 {
            lanes[place] = self.integer8();
        }
        V128Const::I8x16(lanes)
    }

    /// Reads eight lanes of 16-bit integers.
    #[tactic(auto, using(crate::proofs::Fills::filled_begun, crate::proofs::Fills::filled_more, crate::proofs::Fills::filled_all))]
    fn lanes8(&mut self) -> V128Const
        ensures { Decides (lanes v128.I16x8 8 (signed_number 16)) self.old self.new result }
    {
        let mut lanes = [0; 8];
        for place in 0..8 {
            lanes[place] = self.integer16();
        }
        V128Const::I16x8(lanes)
    }

    /// Reads four lanes of 32-bit integers.
    fn lanes4(&mut self) -> V128Const
        ensures { Decides (lanes v128.I32x4 4 (signed_number 32)) self.old self.new result }
    {
        let (a, b) = (self.integer32(), self.integer32());
        let (c, d) = (self.integer32(), self.integer32());
        V128Const::I32x4([a, b, c, d])
    }

    /// Reads four lanes of 32-bit floating-point numbers.
    fn singles4(&mut self) -> V128Const
        ensures { Decides (lanes v128.F32x4 4 f32_rule) self.old self.new result }
    {
        let (a, b) = (self.single(), self.single());
        let (c, d) = (self.single(), self.single());
        V128Const::F32x4([a, b, c, d])
    }

    /// Reads two lanes of 64-bit integers.
    fn lanes2(&mut self) -> V128Const
        ensures { Decides (lanes v128.I64x2 2 (signed_number 64)) self.old self.new result }
    {
        V128Const::I64x2([self.integer64(), self.integer64()])
    }

    /// Reads two lanes of 64-bit floating-point numbers.
    fn doubles2(&mut self) -> V128Const
        ensures { Decides (lanes v128.F64x2 2 f64_rule) self.old self.new result }
    {
        V128Const::F64x2([self.double(), self.double()])
    }

    /// Reads a shape and the lanes of a vector, such as `i32x4 1 2 3 4` (text format: vector
    /// instructions).
    pub fn vector(&mut self) -> V128Const
        ensures { Decides v128const self.old self.new result }
    {
        if self.accept(Key::I8x16) {
            return self.lanes16();
        }
        if self.accept(Key::I16x8) {
            return self.lanes8();
        }
        if self.accept(Key::I32x4) {
            return self.lanes4();
        }
        if self.accept(Key::I64x2) {
            return self.lanes2();
        }
        if self.accept(Key::F32x4) {
            return self.singles4();
        }
        if !self.accept(Key::F64x2) {
            self.expected("a vector shape such as `i32x4`");
        }
        self.doubles2()
    }
}

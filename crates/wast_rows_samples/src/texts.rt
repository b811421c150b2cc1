//! The example modules that are texts.

ghost use Rattle.std.specs.Prelude.{◌≡◌, is_some};
ghost use Rattle.wast_rows_samples.specs.RowNumbers.{text_rows, is_among};

/// Returns the text of an example module, or `None` if the number is not that of one with a text.
pub(crate) fn text_of_row(n: u32) -> Option<&'static str>
    ensures { is_some result ≡ is_among text_rows n }
{
    let text = match n {
        1 => "(module)",
        2 => "(module (func))",
        3 => "(module (func $f))",
        4 => r#"(module (func (export "a")))"#,
        5 => r#"(module (memory (data "ab")))"#,
        6 => "(module (func $f) (table funcref (elem $f)))",
        7 => "(module (func (result i32 i64) unreachable) (type $t (func (result i32 i64))))",
        8 => "(module (rec (type (func))) (func))",
        9 => "(module (tag $e) (func block $h try_table (catch $e $h) end end))",
        10 => "(module (func try $a try delegate $a end))",
        11 =>
            r#"(module (func (param i32) block local.get 0 (@metadata.code.branch_hint "\01") br_if 0 end))"#,
        12 => r#"(module (func) (import "" "" (func)))"#,
        13 => "(module (start $x) (func $a) (func $a))",
        14 => "(module (type $t (func (param i32))) (func (type $t) (result i32)))",
        15 => "(module (func block $l end $m))",
        16 => "(module (type (struct)) (func struct.get 0 $x))",
        17 => "(module (func (param $a i32) (local $a i32)))",
        18 => r#"(module (func $f) (@custom "name"))"#,
        19 => "(module (func i64.add128))",
        21 => r#"(module (tag) (import "" "" (func)))"#,
        22 => "(module (func (type 5) (param i32)))",
        23 => "(module (type (struct)) (func (type 0) (param i32)))",
        24 => "(module (func (type 5)))",
        26 => "(module (type (struct (field $y i32))) (func struct.get 0 $x))",
        27 => r#"(module (type $t (func)) (func $f (type $t) call $f) (export "a" (func $f)))"#,
        28 => "(module (func block $a block $b br $a br $b end end))",
        29 => r#"(module (@custom "c" (before start) "x"))"#,
        30 => r#"(module (import "m" "f" (func $f (param i32))) (start $f))"#,
        31 => r#"(module (type $t (func)) (export "a" (func $g)) (func $f (type $t)))"#,
        32 => "(module (type $t (func)) (type $t (func)))",
        33 => "(module (func (local i32 i32 i64)))",
        34 => "(module (type $s (struct (field $y (mut i32)))))",
        35 => "(module (type (func (param $p i32))) (func (type 0) (local $l i64)))",
        36 => "(module (type $a (sub (func))) (type (sub final $a (func))))",
        37 => "(module (type (sub (func))) (func))",
        38 =>
            r#"(module (import "e" "t" (table 1 funcref)) (import "e" "m" (memory 1 2)) (import "e" "g" (global i32)))"#,
        39 =>
            r#"(module (memory 1) (global $g (mut i64) (i64.const -1)) (data "x") (data (i32.const 8) "yz"))"#,
        40 => "(module (table 1 funcref) (elem declare func) (elem funcref (ref.null func)))",
        41 => "(module (memory i64 1 2 shared (pagesize 1)))",
        42 => r#"(module (memory (@name "n") (import "a" "b") 1))"#,
        43 => r#"(module (func (@name "n") (import "a" "b")))"#,
        44 => r#"(module (memory (export "a") (export "b") (data)))"#,
        45 => r#"(module (func memory.init 0) (memory 1) (data "x"))"#,
        46 => "(module (func block (result i32 i32) unreachable end drop drop))",
        47 => "(module (func i32.load 1 offset=4 drop))",
        48 => "(module (type $s (struct (field $y i32))) (func ref.null $s struct.get $s $y drop))",
        49 => "(module (func i8x16.relaxed_swizzle))",
        50 => "(module (func block br_on_cast 0 anyref (ref i31) end))",
        51 => r#"(module (@custom "a" (before func) "1") (@custom "b" (after type) "2"))"#,
        52 => r#"(module (@producers (language "R" "1")))"#,
        53 => "(module (@dylink.0 (mem-info (memory 1 0))))",
        54 =>
            r#"(module (import "" "" (func)) (func (local i32) i32.const 0 (@metadata.code.branch_hint "\00") if end))"#,
        55 => "(module (func block $a block $a br $a end br $a end))",
        57 => "(module (global i32 block end i32.const 0))",
        65 => "(module (type $a (func)) (type (func (param (ref $a)))) (func (param (ref 0))))",
        _ => return None,
    };
    Some(text)
}

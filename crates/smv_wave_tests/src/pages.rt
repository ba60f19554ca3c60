//! The dumps and tables that the pages show, beside the reports that they are made from. Written by `tools/pages.py --tests`.

use crate::rows::{Row, all_are_answered};
use std::test::Fail;

const ROWS: &[Row] = &[
    (
        "table",
        "opa//arch: false at 2\n case #0, #0\n time 0: issue = 1, src = #0, dst = #0, reg[#0] = *, opa = *, alu = #0, ex.valid = 0, ex.dst = #0, wb.valid = 0, wb.dst = #0, wb.val = #0, r[#0] = *, operand = *, result = #0, res = #0\n time 1: issue = 0, src = #0, dst = #0, reg[#0] = *, opa = #0, alu = #0, ex.valid = 1, ex.dst = #0, wb.valid = 0, wb.dst = #0, wb.val = #0, r[#0] = #0, operand = #0, result = #0, res = #0\n time 2: issue = 1, src = #0, dst = #0, reg[#0] = *, opa = *, alu = #0, ex.valid = 0, ex.dst = #0, wb.valid = 1, wb.dst = #0, wb.val = #0, r[#0] = #0, operand = #0, result = #0, res = #0\nalu//arch: true\nproved 1 of 2\n",
        0,
        "opa//arch: false at 2\n case #0, #0\n            0   1   2\n issue      1   0   1\n src       #0   .   .\n dst       #0   .   .\n reg[#0]    *   .   .\n opa        *  #0   *\n alu       #0   .   .\n ex.valid   0   1   0\n ex.dst    #0   .   .\n wb.valid   0   .   1\n wb.dst    #0   .   .\n wb.val    #0   .   .\n r[#0]      *  #0   .\n operand    *  #0   .\n result    #0   .   .\n res       #0   .   .\n",
        "",
    ),
    (
        "",
        "opa//arch: false at 0\n time 0: issue = 1, src = *, opa = *, operand = *\nproved 0 of 1\n",
        0,
        "$version smv_wave $end\n$timescale 1 ns $end\n$scope module \\opa//arch $end\n$var wire 1 ! issue $end\n$var string 1 \" src $end\n$var string 1 # opa $end\n$var string 1 $ operand $end\n$upscope $end\n$enddefinitions $end\n#0\n$dumpvars\n1!\ns* \"\ns* #\ns* $\n$end\n#1\n",
        "",
    ),
];

#[test]
fn answers_are_those_of_the_pages(rt: HostRuntime) -> Result<(), Fail> {
    all_are_answered(rt.alloc(), ROWS)
}

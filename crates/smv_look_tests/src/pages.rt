//! What the pages show of `smv_look`, with the texts. Written by `tools/pages.py --tests`.

use crate::rows::{Row, all_are_answered};
use std::test::Fail;

const ROWS_1: &[Row] = &[
    (
        "explain",
        "module main() {\n  x : boolean;\n  next(x) = ~x;\n}\n",
        3,
        "fault 5 at line 3 column 11\n  |   next(x) = ~x;\n  |           ^ after this token no text can go on\n  | here may stand: :=\n",
    ),
    (
        "explain",
        "module main() {\n  x : {idle, busy};\n  y : {busy, done};\n}\n",
        3,
        "fault 8 at line 3 column 8\n  |   y : {busy, done};\n  |        ^ a name is declared twice\n  |   x : {idle, busy};\n  |              ^ declared first here, at line 2 column 14\n",
    ),
    (
        "explain",
        "module Main() { x : boolean; }\n",
        3,
        "fault 9 at line 1 column 1\n  | module Main() { x : boolean; }\n  | ^ there is no module `main`\n  | module Main() { x : boolean; }\n  |        ^ no module has an instance of this one, at line 1 column 8\n",
    ),
    (
        "explain",
        "module stage(a) { input a : boolean; next_stage : stage(a); }\nmodule main() { x : boolean; s : stage(x); }\n",
        3,
        "fault 10 at line 1 column 51\n  | module stage(a) { input a : boolean; next_stage : stage(a); }\n  |                                                   ^ a module contains itself\n  | module stage(a) { input a : boolean; next_stage : stage(a); }\n  |        ^ in which the instance stands, at line 1 column 8\n",
    ),
    (
        "explain",
        "module main() {\n  a, b : boolean;\n  x : 0..2;\n  if (a) next(x) := 1;\n  if (b) next(x) := 2;\n}\n",
        3,
        "fault 15 at line 5 column 10\n  |   if (b) next(x) := 2;\n  |          ^ two assignments of one signal conflict\n  |   if (a) next(x) := 1;\n  |          ^ the other assignment is here, at line 4 column 10\n",
    ),
    (
        "explain",
        "module main() {\n  x : boolean;\n  init(x) := 0;\n  x := ~x;\n}\n",
        3,
        "fault 16 at line 4 column 3\n  |   x := ~x;\n  |   ^ a signal has a value of now and `init` or `next` besides\n  |   init(x) := 0;\n  |   ^ the other assignment is here, at line 3 column 3\n",
    ),
    (
        "explain",
        "module main() {\n  a, b : boolean;\n  a := ~b;\n  b := a;\n}\n",
        3,
        "fault 18 at line 4 column 3\n  |   b := a;\n  |   ^ a signal reads itself without a delay\n  |   b := a;\n  |        ^ which reads this, at line 4 column 8\n  |   a := ~b;\n  |         ^ which reads this, at line 3 column 9\n",
    ),
    (
        "explain",
        "module main() {\n  x : boolean;\n  p : assert G x;\n  q : assert G x;\n  using q prove p;\n  using (q) prove p;\n}\n",
        3,
        "fault 27 at line 6 column 19\n  |   using (q) prove p;\n  |                   ^ something is chosen twice\n  |   using q prove p;\n  |                 ^ chosen first here, at line 5 column 17\n",
    ),
    (
        "list",
        "scalarset WORD undefined;\nscalarset REG undefined;\nmodule main() {\n  issue : boolean;\n  src, dst : REG;\n  reg : array REG of WORD;\n  f : array WORD of WORD;\n  opa, alu : WORD;\n  ex : struct { valid : boolean; dst : REG; val : WORD; };\n\n  forall (w in WORD) next(f[w]) := f[w];\n  opa := reg[src];\n  init(ex.valid) := 0;\n  next(ex.valid) := issue;\n  next(ex.dst) := dst;\n  next(ex.val) := opa;\n  alu := f[ex.val];\n  if (ex.valid) next(reg[ex.dst]) := alu;\n\n  abstract r : array REG of WORD;\n  abstract operand, result : WORD;\n  layer arch : {\n    operand := r[src];\n    result := f[operand];\n    forall (k in REG) init(r[k]) := reg[k];\n    if (issue) next(r[dst]) := result;\n    if (issue) opa := operand;\n  }\n  forall (j in REG) forall (c in WORD)\n    subcase opa1[j][c] of opa//arch for src = j, r[src] = c;\n}\n",
        0,
        "opa//arch: map at line 27 column 16\n leaf opa1\n parameter 1 REG j\n parameter 2 WORD c\n cases 1\n",
    ),
    (
        "list",
        "/* A bus of three devices and an arbiter, each an instance of a module. A device asks, is granted, drives the bus with its\n   word and its target for one step, and gives the bus up. The receiver stores what it sees.\n   Proved: at most one device drives at any time; the inbox of device 2 has the last word that was sent to it, and is filled\n   if and only if one was. That map does not look into the devices that send: it uses that one drives at a time, and\n   leaves free what they drive. Words have any width. */\nscalarset WORD undefined;\nmodule device(me, grant, bus_valid, bus_to, bus_word, ask, drive, to, word) {\n  input me : 0..2;\n  input grant, bus_valid : boolean;\n  input bus_to : 0..2;\n  input bus_word : WORD;\n  output ask, drive : boolean;\n  output to : 0..2;\n  output word : WORD;\n  state : {idle, asking, driving};\n  target, next_target : 0..2;\n  outgoing, next_word, inbox : WORD;\n  filled : boolean;\n\n  ask := state = asking;\n  drive := state = driving;\n  to := target;\n  word := outgoing;\n  init(state) := idle;\n  switch (state) {\n    idle : {\n      next(state) := {idle, asking};\n      next(target) := next_target;\n      next(outgoing) := next_word;\n    }\n    asking : if (grant) next(state) := driving;\n    driving : next(state) := idle;\n  }\n  init(filled) := 0;\n  if (bus_valid & bus_to = me) {\n    next(filled) := 1;\n    next(inbox) := bus_word;\n  }\n}\n\nmodule arbiter(ask_0, ask_1, ask_2, busy, grant_0, grant_1, grant_2) {\n  input ask_0, ask_1, ask_2, busy : boolean;\n  output grant_0, grant_1, grant_2 : boolean;\n  turn : 0..2;\n  free_bus : boolean;\n  init(turn) := 0;\n  if (free_bus) next(turn) := (turn + 1) mod 3;\n  free_bus := ~busy;\n  grant_0 := free_bus & turn = 0 & ask_0;\n  grant_1 := free_bus & turn = 1 & ask_1;\n  grant_2 := free_bus & turn = 2 & ask_2;\n}\n\nmodule main() {\n  d0 : device(0, grant[0], valid, target, carried, ask[0], drive[0], to[0], word[0]);\n  d1 : device(1, grant[1], valid, target, carried, ask[1], drive[1], to[1], word[1]);\n  d2 : device(2, grant[2], valid, target, carried, ask[2], drive[2], to[2], word[2]);\n  a : arbiter(ask[0], ask[1], ask[2], busy, grant[0], grant[1], grant[2]);\n  ask, grant, drive : array 0..2 of boolean;\n  to : array 0..2 of 0..2;\n  word : array 0..2 of WORD;\n  valid, busy : boolean;\n  target : 0..2;\n  carried : WORD;\n  busy := |[ drive[i] : i in 0..2 ];\n  valid := busy;\n  -- The wires: what a device puts there where it drives alone, and anything where two drive or none does.\n  if (drive[0] & ~drive[1] & ~drive[2]) { target := to[0]; carried := word[0]; }\n  else if (drive[1] & ~drive[0] & ~drive[2]) { target := to[1]; carried := word[1]; }\n  else if (drive[2] & ~drive[0] & ~drive[1]) { target := to[2]; carried := word[2]; }\n\n  -- The last word that was meant for device 2.\n  abstract sent : WORD;\n  abstract any_sent : boolean;\n  layer order : {\n    init(any_sent) := 0;\n    if (|[ drive[i] & to[i] = 2 : i in 0..2 ]) next(any_sent) := 1;\n    if (drive[0] & to[0] = 2) next(sent) := word[0];\n    else if (drive[1] & to[1] = 2) next(sent) := word[1];\n    else if (drive[2] & to[2] = 2) next(sent) := word[2];\n    if (any_sent) d2.inbox := sent;\n    d2.filled := any_sent;\n  }\n  one_driver : assert G (~(drive[0] & drive[1]) & ~(drive[0] & drive[2]) & ~(drive[1] & drive[2]));\n  forall (c in WORD) subcase inbox_is[c] of d2.inbox//order for sent = c;\n  using one_driver, drive//free, to//free, word//free prove d2.filled//order, inbox_is;\n}\n",
        0,
        "d2.inbox//order: map at line 81 column 19\n leaf inbox_is\n parameter 1 WORD c\n cases 1\n free drive\n free to\n free word\n assume one_driver now\nd2.filled//order: map at line 82 column 5\n leaf d2.filled//order\n cases 1\n free drive\n free to\n free word\n assume one_driver now\none_driver: claim at line 84 column 3\n leaf one_driver\n cases 1\n",
    ),
    (
        "cone opa//arch",
        "scalarset WORD undefined;\nscalarset REG undefined;\nmodule main() {\n  issue : boolean;\n  src, dst : REG;\n  reg : array REG of WORD;\n  f : array WORD of WORD;\n  opa, alu : WORD;\n  ex : struct { valid : boolean; dst : REG; val : WORD; };\n\n  forall (w in WORD) next(f[w]) := f[w];\n  opa := reg[src];\n  init(ex.valid) := 0;\n  next(ex.valid) := issue;\n  next(ex.dst) := dst;\n  next(ex.val) := opa;\n  alu := f[ex.val];\n  if (ex.valid) next(reg[ex.dst]) := alu;\n\n  abstract r : array REG of WORD;\n  abstract operand, result : WORD;\n  layer arch : {\n    operand := r[src];\n    result := f[operand];\n    forall (k in REG) init(r[k]) := reg[k];\n    if (issue) next(r[dst]) := result;\n    if (issue) opa := operand;\n  }\n  forall (j in REG) forall (c in WORD)\n    subcase opa1[j][c] of opa//arch for src = j, r[src] = c;\n}\n",
        0,
        "opa//arch: case 1 of 1, bits 13\n case #0, #0\n issue: bits 1, free\n src: bits 1, free\n dst: bits 1, free\n reg[#0]: bits 1, base, state\n f[#0]: bits 1, base, state\n opa: bits 1, base, combinational, target\n alu: bits 1, base, combinational\n ex.valid: bits 1, base, state\n ex.dst: bits 1, base, state\n ex.val: bits 1, base, state\n r[#0]: bits 1, layer arch, state\n operand: bits 1, layer arch, combinational\n result: bits 1, layer arch, combinational\n",
    ),
];

#[test]
fn looks_are_those_of_the_pages_1(rt: HostRuntime) -> Result<(), Fail> {
    all_are_answered(rt.alloc(), ROWS_1)
}

const ROWS_2: &[Row] = &[
    (
        "cone opa//arch 2",
        "scalarset WORD undefined;\nscalarset REG undefined;\nmodule main() {\n  issue : boolean;\n  src, dst : REG;\n  reg : array REG of WORD;\n  f : array WORD of WORD;\n  opa, alu : WORD;\n  ex : struct { valid : boolean; dst : REG; val : WORD; };\n\n  forall (w in WORD) next(f[w]) := f[w];\n  opa := reg[src];\n  init(ex.valid) := 0;\n  next(ex.valid) := issue;\n  next(ex.dst) := dst;\n  next(ex.val) := opa;\n  alu := f[ex.val];\n  if (ex.valid) next(reg[ex.dst]) := alu;\n\n  abstract r : array REG of WORD;\n  abstract operand, result : WORD;\n  layer arch : {\n    operand := r[src];\n    result := f[operand];\n    forall (k in REG) init(r[k]) := reg[k];\n    if (issue) next(r[dst]) := result;\n    if (issue) opa := operand;\n  }\n  forall (j in REG) forall (c in WORD)\n    subcase opa1[j][c] of opa//arch for src = j, r[src] = c;\n}\n",
        1,
        "opa//arch: cases 1\n",
    ),
    (
        "cone opa",
        "scalarset WORD undefined;\nscalarset REG undefined;\nmodule main() {\n  issue : boolean;\n  src, dst : REG;\n  reg : array REG of WORD;\n  f : array WORD of WORD;\n  opa, alu : WORD;\n  ex : struct { valid : boolean; dst : REG; val : WORD; };\n\n  forall (w in WORD) next(f[w]) := f[w];\n  opa := reg[src];\n  init(ex.valid) := 0;\n  next(ex.valid) := issue;\n  next(ex.dst) := dst;\n  next(ex.val) := opa;\n  alu := f[ex.val];\n  if (ex.valid) next(reg[ex.dst]) := alu;\n\n  abstract r : array REG of WORD;\n  abstract operand, result : WORD;\n  layer arch : {\n    operand := r[src];\n    result := f[operand];\n    forall (k in REG) init(r[k]) := reg[k];\n    if (issue) next(r[dst]) := result;\n    if (issue) opa := operand;\n  }\n  forall (j in REG) forall (c in WORD)\n    subcase opa1[j][c] of opa//arch for src = j, r[src] = c;\n}\n",
        3,
        "fault 26 at line 1 column 1\n",
    ),
    (
        "lint",
        "module main(car) {\n  input car : boolean;\n  light : {red, green};\n  seconds : 0..60;\n  walks, pressed : boolean;\n  init(light) := red;\n  init(seconds) := 61;\n  if (seconds > 0) next(seconds) := seconds - 1;\n  else switch (light) {\n    red : if (car) { next(light) := green; next(seconds) := {30, 60..90}; }\n    green : { next(light) := red; next(seconds) := 20; }\n  }\n  walks := light = red & pressed;\n  layer spec : { if (~car) next(light) := red; }\n}\n",
        1,
        "walks at line 5 column 3: nothing reads it and no map is about it; declare it as an output if that is meant\npressed at line 5 column 10: nothing outside layers assigns it, so it is free; declare it as an input if that is meant\nseconds at line 7 column 20: 61 is not in 0..60, so nothing is ruled out here\nseconds at line 10 column 66: 60..90 is not within 0..60, so nothing is ruled out here\n",
    ),
    (
        "lint",
        "module main(go, n, sum) {\n  input go : boolean;\n  input n : 0..255;\n  input sum : 0..255;\n  v : array 0..3 of boolean;\n  slot : 0..3;\n  hit, over : boolean;\n  count, wrap, total : 0..7;\n  forall (i in 0..3) next(v[i]) := v[i];\n  slot := n < 4 ? n : 0;\n  hit := n < 4 & v[n] | v[n];\n  over := sum + n + 9 > 300;\n  if (go) next(wrap) := wrap + 1;\n  next(count) := count + 1;\n  if (0) next(total) := 7;\n  else if (go) next(total) := n - 3;\n  small : assert G (slot < 4 & ~hit & ~over & count + wrap + total < 22);\n}\n",
        1,
        "hit at line 11 column 27: by types and conditions this is within 0..255; as an index outside 0..3 it makes what is read Undefined\nover at line 12 column 11: types and conditions do not keep this sum up to 511; above that it is Undefined\ncount at line 14 column 18: by types and conditions this is within 1..8; where it is outside 0..7, nothing is ruled out\ntotal at line 15 column 7: this condition is made of constants alone, so it is the same at each time\ntotal at line 16 column 31: by types and conditions this is within 0..252; where it is outside 0..7, nothing is ruled out\n",
    ),
    (
        "lint",
        "/* A bus arbiter for three clients with fixed priority: client 0 comes before 1, and 1 before 2. Who has the bus keeps it as\n   long as it asks; a bus that is free goes to the first that asks, at once.\n   `held` is the owner of the step before, by one bit for each client. The claims: the grants are disjoint (`alone`), no\n   client is granted that does not ask (`wanted`), the bus is not idle while somebody asks (`busy`), who has it keeps it\n   (`kept`), and it is not taken by a client while a more urgent one waits (`urgent`).\n   Nothing is promised to client 2: `priority_waits` shows how long it waits. */\nmodule main() {\n  asks, grant, held : array 0..2 of boolean;\n  free_bus : boolean;\n\n  free_bus := &[ ~(held[i] & asks[i]) : i in 0..2 ];\n  grant[0] := asks[0] & (held[0] | free_bus);\n  grant[1] := asks[1] & (held[1] | free_bus & ~asks[0]);\n  grant[2] := asks[2] & (held[2] | free_bus & ~asks[0] & ~asks[1]);\n  forall (i in 0..2) {\n    init(held[i]) := 0;\n    next(held[i]) := grant[i];\n  }\n\n  forall (i in 0..2) forall (j in 0..2) {\n    alone[i][j] : assert G (grant[i] & grant[j] -> i = j);\n    urgent[i][j] : assert G (i < j & asks[i] & grant[j] -> held[j]);\n  }\n  forall (i in 0..2) {\n    wanted[i] : assert G (grant[i] -> asks[i]);\n    kept[i] : assert G (held[i] & asks[i] -> grant[i]);\n  }\n  busy : assert G (|[ asks[i] : i in 0..2 ] -> |[ grant[i] : i in 0..2 ]);\n}\n",
        1,
        "asks at line 8 column 3: nothing outside layers assigns it, so it is free; declare it as an input if that is meant\n",
    ),
    (
        "lint",
        "/* A traffic light controller: a road with a lane from the north and one from the south, and a lane from the east that crosses\n   both. Each lane has a sensor and a light, which are a module. The two lanes of the road may be green together; the\n   crossing lane only alone, and behind each green of one road stands a step of red before the other one's. `turn` says\n   which road is next where both wait: not the one that was green last.\n   The environment is a module too: a car stays before a red light, and after at most four steps of green there is a gap.\n   Without it no bound could be promised to anybody: one lane could be green for ever.\n   Proved: lanes that cross are never green together, and no car waits more than twelve steps for its light (with eleven in\n   the place of twelve it is false: the south lane keeps the road green behind the north one, and then the crossing lane goes). */\nmodule lane(car, may_go, green, wants) {\n  input car, may_go : boolean;\n  output green, wants : boolean;\n  init(green) := 0;\n  next(green) := green ? car : car & may_go;\n  wants := car & ~green;\n}\n\n-- What comes along a lane.\nmodule traffic(green, car) {\n  input green : boolean;\n  output car : boolean;\n  passed : 0..3;\n  init(passed) := 0;\n  next(passed) := green & car & passed < 3 ? passed + 1 : 0;\n  next(car) := ~green & car ? 1 : green & passed = 3 ? 0 : {0, 1};\n}\n\nmodule main() {\n  north_car, south_car, east_car, north_green, south_green, east_green, north_wants, south_wants, east_wants : boolean;\n  road_may, east_may : boolean;\n  turn : {road, crossing};\n  north : lane(north_car, road_may, north_green, north_wants);\n  south : lane(south_car, road_may, south_green, south_wants);\n  east : lane(east_car, east_may, east_green, east_wants);\n  north_traffic : traffic(north_green, north_car);\n  south_traffic : traffic(south_green, south_car);\n  east_traffic : traffic(east_green, east_car);\n\n  road_may := ~east_green & (turn = road | ~east_wants);\n  east_may := ~north_green & ~south_green & (turn = crossing | ~north_wants & ~south_wants);\n  init(turn) := road;\n  if (east_green) next(turn) := road;\n  else if (north_green | south_green) next(turn) := crossing;\n\n  -- For how many steps the car before each light has waited.\n  abstract waited : array 0..2 of 0..15;\n  layer watch : {\n    forall (i in 0..2) init(waited[i]) := 0;\n    next(waited[0]) := north_wants ? waited[0] + 1 : 0;\n    next(waited[1]) := south_wants ? waited[1] + 1 : 0;\n    next(waited[2]) := east_wants ? waited[2] + 1 : 0;\n  }\n  no_crash : assert G ~(east_green & (north_green | south_green));\n  forall (i in 0..2) soon[i] : assert G (waited[i] <= 12);\n}\n",
        0,
        "",
    ),
    (
        "explain",
        "module main() {\n  ready : boolean;\n  ready := raedy;\n}\n",
        3,
        "fault 7 at line 3 column 12\n  |   ready := raedy;\n  |            ^ a name or a field is not declared\n",
    ),
    (
        "explain",
        "module main() {\n  x : {idle, busy};\n  y : {busy, done};\n}\n",
        3,
        "fault 8 at line 3 column 8\n  |   y : {busy, done};\n  |        ^ a name is declared twice\n  |   x : {idle, busy};\n  |              ^ declared first here, at line 2 column 14\n",
    ),
    (
        "explain",
        "module main() {\n  a, b, c : boolean;\n  a := b & c;\n  b := c;\n  c := a;\n}\n",
        3,
        "fault 18 at line 5 column 3\n  |   c := a;\n  |   ^ a signal reads itself without a delay\n  |   c := a;\n  |        ^ which reads this, at line 5 column 8\n  |   a := b & c;\n  |            ^ which reads this, at line 3 column 12\n",
    ),
];

#[test]
fn looks_are_those_of_the_pages_2(rt: HostRuntime) -> Result<(), Fail> {
    all_are_answered(rt.alloc(), ROWS_2)
}

const ROWS_3: &[Row] = &[
    (
        "explain",
        "module main() {\n  x : boolean;\n  next(x) = ~x;\n}\n",
        3,
        "fault 5 at line 3 column 11\n  |   next(x) = ~x;\n  |           ^ after this token no text can go on\n  | here may stand: :=\n",
    ),
    (
        "explain",
        "scalarset WORD undefined;\nscalarset REG undefined;\nmodule main() {\n  issue : boolean;\n  src, dst : REG;\n  reg : array REG of WORD;\n  f : array WORD of WORD;\n  opa, alu : WORD;\n  ex : struct { valid : boolean; dst : REG; val : WORD; };\n\n  forall (w in WORD) next(f[w]) := f[w];\n  opa := reg[src];\n  init(ex.valid) := 0;\n  next(ex.valid) := issue;\n  next(ex.dst) := dst;\n  next(ex.val) := opa;\n  alu := f[ex.val];\n  if (ex.valid) next(reg[ex.dst]) := alu;\n\n  abstract r : array REG of WORD;\n  abstract operand, result : WORD;\n  layer arch : {\n    operand := r[src];\n    result := f[operand];\n    forall (k in REG) init(r[k]) := reg[k];\n    if (issue) next(r[dst]) := result;\n    if (issue) opa := operand;\n  }\n  forall (j in REG) forall (c in WORD)\n    subcase opa1[j][c] of opa//arch for src = j, r[src] = c;\n}\n",
        1,
        "opa//arch: false at 1\n case #0, #0\n                    0   1\n issue              1   .\n src                *  #0\n dst               #0   .\n reg[#0]            *   .\n f[#0]             #0   .\n opa target        #0   *\n alu               #0   .\n ex.valid           0   1\n ex.dst            #0   .\n ex.val            #0   .\n r[#0] abstract     *  #0\n operand abstract  #0   .\n result abstract   #0   .\n the map allows #0\nproved 0 of 1\n",
    ),
    (
        "explain",
        "module main() {\n  go, stop, dark, run, lamp : boolean;\n  init(run) := 0;\n  next(run) := go & ~stop;\n  lamp := run & ~dark;\n\n  abstract wanted : boolean;\n  layer spec : {\n    init(wanted) := 0;\n    next(wanted) := go;\n    run := wanted;\n    lamp := wanted;\n  }\n  calm : assert G ~stop;\n  using (calm) prove run//spec;\n  using run//spec, dark//free prove lamp//spec;\n}\n",
        1,
        "run//spec: true\n leans on calm, which is false\nlamp//spec: false at 1\n                  0  1\n go               1  0\n dark             0  1\n run              0  1\n lamp target      0  .\n wanted abstract  0  1\n the map allows 1\n use run//spec now\n free dark\ncalm: false at 0\n       0\n stop  1\nproved 1 of 3\n",
    ),
    (
        "explain",
        "module main() {\n  mode : boolean;\n  low, high : 0..255;\n  init(mode) := 0;\n  next(mode) := mode;\n  init(low) := 0;\n  init(high) := 0;\n  next(low) := (low + 1) mod 256;\n  if (low = 255) next(high) := (high + 1) mod 256;\n  far : assert G ~(mode & low = 255 & high = 255);\n}\n",
        1,
        "far: unknown steps\n bits 17\n low: bits 8, base, state\n high: bits 8, base, state\n mode: bits 1, base, state\nproved 0 of 1\n",
    ),
    (
        "sets p",
        "/* A bit that changes at each step, and a claim that is true of any bit. */\nmodule main() {\n  x : boolean;\n  init(x) := 0;\n  next(x) := ~x;\n  p : assert G (x | ~x);\n}\n",
        0,
        "set p 0 1 0\n",
    ),
    (
        "sets opa//arch 1 --nodes 1",
        "scalarset WORD undefined;\nscalarset REG undefined;\nmodule main() {\n  issue : boolean;\n  src, dst : REG;\n  reg : array REG of WORD;\n  f : array WORD of WORD;\n  opa, alu : WORD;\n  ex : struct { valid : boolean; dst : REG; val : WORD; };\n\n  forall (w in WORD) next(f[w]) := f[w];\n  opa := reg[src];\n  init(ex.valid) := 0;\n  next(ex.valid) := issue;\n  next(ex.dst) := dst;\n  next(ex.val) := opa;\n  alu := f[ex.val];\n  if (ex.valid) next(reg[ex.dst]) := alu;\n\n  abstract r : array REG of WORD;\n  abstract operand, result : WORD;\n  layer arch : {\n    operand := r[src];\n    result := f[operand];\n    forall (k in REG) init(r[k]) := reg[k];\n    if (issue) next(r[dst]) := result;\n    if (issue) opa := operand;\n  }\n  forall (j in REG) forall (c in WORD)\n    subcase opa1[j][c] of opa//arch for src = j, r[src] = c;\n}\n",
        2,
        "opa//arch: unknown nodes 4\n case #0, #0\n",
    ),
    (
        "front",
        "/* A bit that changes at each step, and a claim that is true of any bit. */\nmodule main() {\n  x : boolean;\n  init(x) := 0;\n  next(x) := ~x;\n  p : assert G (x | ~x);\n}\n",
        0,
        "smv proof 1\ndesign 167\n/* A bit that changes at each step, and a claim that is true of any bit. */\nmodule main() {\n  x : boolean;\n  init(x) := 0;\n  next(x) := ~x;\n  p : assert G (x | ~x);\n}\n\n",
    ),
];

#[test]
fn looks_are_those_of_the_pages_3(rt: HostRuntime) -> Result<(), Fail> {
    all_are_answered(rt.alloc(), ROWS_3)
}

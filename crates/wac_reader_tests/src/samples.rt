// Components as today's tools write them, and what is read of them. The large ones have files of their own.
//
// The lines were printed by a decoder in another language. Texts are one string each, which is one value to the prover.

pub mod asynchronous;
pub mod command;
pub mod export_resource;
pub mod export_uses_import;
pub mod import_export_one;
pub mod world_use;

/// A component, and the lines of its parts. Both texts begin with the end of a line.
pub struct Sample {
    /// The bytes in hexadecimal, in lines.
    pub bytes: &'static str,
    /// The lines.
    pub lines: &'static str,
}

pub static EMPTY: Sample = Sample {
    bytes: "
0061736d0d00010001540061736d01000000010c0260047f7f7f7f017f600000030302000105030100010727030c6361
62695f7265616c6c6f6300000b5f696e697469616c697a650001066d656d6f727902000a09020300000b0300000b0204
01000000061d0200020100066d656d6f7279000001000c636162695f7265616c6c6f63002f0970726f64756365727301
0c70726f6365737365642d6279010d7769742d636f6d706f6e656e7407302e3230302e30
",
    lines: r#"
0000000a core module 0: 84 bytes
00000061 core instance 0: instantiate core module 0
00000067 core memory 0: core instance 0 "memory"
00000072 core func 0: core instance 0 "cabi_realloc"
00000085 custom "producers": 37 bytes
"#,
};

pub static FUNC: Sample = Sample {
    bytes: "
0061736d0d00010001640061736d0100000001110360017f017f60047f7f7f7f017f6000000304030001020503010001
072d040372756e00000c636162695f7265616c6c6f6300010b5f696e697469616c697a650002066d656d6f727902000a
0d030300000b0300000b0300000b020401000000061d0200020100066d656d6f7279000001000c636162695f7265616c
6c6f6307050140000100060901000001000372756e080b01000001030300040000000b0901000372756e010000002f09
70726f647563657273010c70726f6365737365642d6279010d7769742d636f6d706f6e656e7407302e3230302e30
",
    lines: r#"
0000000a core module 0: 100 bytes
00000071 core instance 0: instantiate core module 0
00000077 core memory 0: core instance 0 "memory"
00000082 core func 0: core instance 0 "cabi_realloc"
00000096 type 0: func()
0000009d core func 1: core instance 0 "run"
000000a8 func 0: lift core func 1 type 0, memory 0, realloc 0, utf8
000000b5 func 1: export "run" func 0
000000bf custom "producers": 37 bytes
"#,
};

pub static RUN_ONLY: Sample = Sample {
    bytes: "
0061736d0d00010001770061736d0100000001110360017f017f60047f7f7f7f017f6000000304030001020503010001
07400416776173693a636c692f72756e40302e322e302372756e00000c636162695f7265616c6c6f6300010b5f696e69
7469616c697a650002066d656d6f727902000a0d030300000b0300000b0300000b020401000000061d0200020100066d
656d6f7279000001000c636162695f7265616c6c6f630708026a000040000000061c010000010016776173693a636c69
2f72756e40302e322e302372756e080b0100000103030004000001043f0061736d0d0001000708026a0000400000000a
1401000f696d706f72742d66756e632d72756e01010708026a0000400000020b0b01000372756e010001010305160100
00010f696d706f72742d66756e632d72756e01000b18010012776173693a636c692f72756e40302e322e30050000002f
0970726f647563657273010c70726f6365737365642d6279010d7769742d636f6d706f6e656e7407302e3230302e30
",
    lines: r#"
0000000a core module 0: 119 bytes
00000084 core instance 0: instantiate core module 0
0000008a core memory 0: core instance 0 "memory"
00000095 core func 0: core instance 0 "cabi_realloc"
000000a9 type 0: result<_, _>
000000ac type 1: func() -> type 0
000000b3 core func 1: core instance 0 "wasi:cli/run@0.2.0#run"
000000d1 func 0: lift core func 1 type 1, memory 0, realloc 0, utf8
000000dd component 0
000000e8   type 0: result<_, _>
000000eb   type 1: func() -> type 0
000000f2   func 0: import "import-func-run": type 1
00000108   type 2: result<_, _>
0000010b   type 3: func() -> type 2
00000112   func 1: export "run" func 0: type 3
0000011f instance 0: instantiate component 0, "import-func-run" func 0
00000137 instance 1: export "wasi:cli/run@0.2.0" instance 0
00000150 custom "producers": 37 bytes
"#,
};

pub static PADDED: Sample = Sample {
    bytes: "
0061736d0d00010007870081004080000100070501400001000a06010001780101
",
    lines: r#"
0000000d type 0: func()
00000015 type 1: func()
0000001c func 0: import "x": type 1
"#,
};

pub static LABELS: Sample = Sample {
    bytes: "
0061736d0d000100072c014204016d0205646562756704696e666f0400056c6576656c030000014001016c0101000400
036c6f6701020a0c0100077072696d6172790500072c014204016d0205646562756704696e666f0400056c6576656c03
0000014001016c0101000400036c6f6701020a0e0100097365636f6e646172790501017a0061736d0100000001110360
027f7f0060047f7f7f7f017f600000021f02077072696d617279036c6f670000097365636f6e64617279036c6f670000
030302010205030100010727030c636162695f7265616c6c6f6300020b5f696e697469616c697a650003066d656d6f72
7902000a09020300000b0300000b013d0061736d0100000001060160027f7f0003030200000405017001020207140301
300000013100010824696d706f72747301000a09020300000b0300000b01360061736d0100000001060160027f7f0002
1a0300013000000001310000000824696d706f72747301700102020908010041000b0200010204010001000607010000
010001300209010101036c6f6700000607010000010001310222020101036c6f670001000002077072696d6172791201
097365636f6e64617279120206310400020103066d656d6f7279000001030c636162695f7265616c6c6f630001010008
24696d706f727473010000036c6f67080a01010000030300040200060801010001036c6f67080a010100010303000402
00021c0201030824696d706f72747301000130000301310004000201001204002f0970726f647563657273010c70726f
6365737365642d6279010d7769742d636f6d706f6e656e7407302e3230302e30
",
    lines: r#"
0000000b type 0: instance
           type 0: enum { "debug", "info" }
           type 1: export "level" = type 0
           type 2: func("l": type 1)
           func 0: export "log": type 2
00000039 instance 0: import "primary": type 0
00000047 type 1: instance
           type 0: enum { "debug", "info" }
           type 1: export "level" = type 0
           type 2: func("l": type 1)
           func 0: export "log": type 2
00000075 instance 1: import "secondary": type 1
00000084 core module 0: 122 bytes
00000100 core module 1: 61 bytes
0000013f core module 2: 54 bytes
00000178 core instance 0: instantiate core module 1
0000017e core func 0: core instance 0 "0"
00000187 core instance 1: exports, "log" core func 0
00000192 core func 1: core instance 0 "1"
0000019b core instance 2: exports, "log" core func 1
000001a3 core instance 3: instantiate core module 0, "primary" core instance 1, "secondary" core instance 2
000001bf core memory 0: core instance 3 "memory"
000001ca core func 2: core instance 3 "cabi_realloc"
000001db core table 0: core instance 0 "$imports"
000001e8 func 0: instance 0 "log"
000001f2 core func 3: lower func 0, memory 0, realloc 2, utf8
000001fe func 1: instance 1 "log"
00000208 core func 4: lower func 1, memory 0, realloc 2, utf8
00000214 core instance 4: exports, "$imports" core table 0, "0" core func 3, "1" core func 4
00000229 core instance 5: instantiate core module 2, "" core instance 4
00000231 custom "producers": 37 bytes
"#,
};

pub static LABELS_RESOURCES: Sample = Sample {
    bytes: "
0061736d0d00010007090142010400017203010a190200077072696d617279050000097365636f6e646172790500
",
    lines: r#"
0000000b type 0: instance
           type 0: export "r": a resource
00000016 instance 0: import "primary": type 0
00000021 instance 1: import "secondary": type 0
"#,
};

pub static OUTER_DEP: Sample = Sample {
    bytes: "
0061736d0d000100073d03720101617d4204020302010004000174030000014301017801000104000166010241030203
0201010300056e3a702f6105000400056e3a702f6205000a2a02001c756e6c6f636b65642d6465703d3c783a79407b3e
3d312e302e307d3e040200056e3a702f61050104270061736d0d000100060501030201010a07010002696e05000b0d01
00056e3a702f630500010500050c01000001056e3a702f610500060a01050001056e3a702f6205090100010102696e05
02060a01050003056e3a702f630b0b0100056e3a702f63050400
",
    lines: r#"
0000000b type 0: record { "a": u8 }
00000010 type 1: instance
           type 0: outer 1 type 0
           type 1: export "t" = type 0
           type 2: async func("x": type 1) -> type 1
           func 0: export "f": type 2
0000002c type 2: component
           type 0: outer 1 type 1
           instance 0: import "n:p/a": type 0
           instance 1: export "n:p/b": type 0
0000004a component 0: import "unlocked-dep=<x:y@{>=1.0.0}>": type 2
0000006a instance 0: import "n:p/a": type 1
00000075 component 1
00000080   type 0: outer 1 type 1
00000087   instance 0: import "in": type 0
00000090   instance 1: export "n:p/c" instance 0: type 0
0000009f instance 1: instantiate component 0, "n:p/a" instance 0
000000ad instance 2: instance 1 "n:p/b"
000000b9 instance 3: instantiate component 1, "in" instance 2
000000c4 instance 4: instance 3 "n:p/c"
000000d0 instance 5: export "n:p/c" instance 4
"#,
};

pub static REEXPORT: Sample = Sample {
    bytes: "
0061736d0d000100071a01420404000172030101690001400101780101000400016601020a0a0100056e3a702f690500
0b0b0100056e3a702f6905000006060103000001720b0701000172030100
",
    lines: r#"
0000000b type 0: instance
           type 0: export "r": a resource
           type 1: own<type 0>
           type 2: func("x": type 1)
           func 0: export "f": type 2
00000027 instance 0: import "n:p/i": type 0
00000033 instance 1: export "n:p/i" instance 0
00000040 type 1: instance 0 "r"
00000048 type 2: export "r" type 1
"#,
};

pub static HIDDEN_RESOURCE: Sample = Sample {
    bytes: "
0061736d0d0001000704013f7f00012f0061736d0100000001050160017f00030201000503010001070e020178000006
6d656d6f727902000a05010300000b020401000000070301690006070100000100017807080140010178010100080601
00000000020b0701000166010000
",
    lines: r#"
0000000b type 0: resource
00000010 core module 0: 47 bytes
00000042 core instance 0: instantiate core module 0
00000048 type 1: own<type 0>
0000004d core func 0: core instance 0 "x"
00000056 type 2: func("x": type 1)
00000060 func 0: lift core func 0 type 2
00000068 func 1: export "f" func 0
"#,
};

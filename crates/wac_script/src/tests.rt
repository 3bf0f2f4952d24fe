// Scripts, and what comes of them.
use crate::{Picture, Script};
use std::alloc::Global;
use std::io;
use std::process::Abort;
use wac_graph::EncodeOptions;

/// Makes the calls of a script. Returns the first refusal with its line, if there is one.
fn run(alloc: Global, script: &mut Script, text: &str) -> io::Result<Option<String>> {
    let mut number = 0usize;
    for line in text.lines() {
        number = number.saturating_add(1);
        if let Err(refusal) = script.line(number, line, Vec::new(alloc)) {
            return Ok(Some(format!(in alloc; "{number}: {refusal}")?));
        }
    }
    Ok(None)
}

/// Returns the bytes that a script makes in hexadecimal, or why there are none.
fn outcome(alloc: Global, text: &str) -> io::Result<String> {
    let mut script = Script::new(alloc);
    if let Some(refusal) = run(alloc, &mut script, text)? {
        return Ok(refusal);
    }
    match script.encode(EncodeOptions::default()) {
        Ok(bytes) => Ok(hex::encode(alloc, &bytes)?),
        Err(error) => {
            let fault = script.encode_fault(&error)?;
            match fault.line {
                Some(line) => Ok(format!(in alloc; "{line}: {}", fault.text)?),
                None => Ok(format!(in alloc; "{}", fault.text)?),
            }
        }
    }
}

/// Checks what comes of scripts.
fn assert_outcomes<R: Abort + AllocGlobal>(rt: &R, rows: &[(&str, &str)]) {
    for (text, want) in rows {
        match outcome(rt.alloc(), text) {
            Ok(found) => assert!(rt; found.as_str() == *want, "{text}: {found}"),
            Err(_) => assert!(rt; false, "out of memory"),
        }
    }
}

// Compositions, and their bytes.
const COMPOSITIONS: &[(&str, &str)] = &[
    ("# nothing\n\n   \n", "0061736d0d000100"),
    // An import that is exported.
    (
        "f = func\ni = import x f\nexport i y\nname i n",
        "0061736d0d000100070501400001000a060100017801000b070100017901000000160e636f6d706f6e656e742d6e616d650105010100016e",
    ),
    // A package is given a function of another.
    (
        "f = func\nw = world exports a=f\nv = world b=f\np = package my:package1 _ hex:0061736d0d000100 w\nq = package my:package2 _ hex:0061736d0d000100 v\nn = new p\na = alias n a\nm = new q\nset m b a",
        "0061736d0d00010004080061736d0d000100050401000000060601010000016104080061736d0d00010005080100010101620100",
    ),
    // The same by `plug`.
    (
        "f = func\nw = world exports a=f\nv = world a=f exports run=f\np = package my:plug _ hex:0061736d0d000100 w # the plug\nq = package my:socket 1.0.0 hex:0061736d0d000100 v\r\nplug q p",
        "0061736d0d00010004080061736d0d000100050401000000060601010000016104080061736d0d000100050801000101016101000608010100010372756e0b0901000372756e010100",
    ),
    // An interface with a resource.
    (
        "r = resource r\nf = func x=own:r\ni = interface n:p/i r=r f=f\nj = import n:p/i i",
        "0061736d0d000100071a01420404000172030101690001400101780101000400016601020a0a0100056e3a702f690500",
    ),
    // A definition of an interface that uses a type of another.
    (
        "t = enum a\ng = func\nj = interface n:p/j t=t g=g\ni = interface n:p/i use:t=j t=t\nd = define d i",
        "0061736d0d000100073b014105014202016d010161040001740300000300056e3a702f6a05000203000001740142020203020101040001740300000400056e3a702f6905020b0701000164030000",
    ),
    // A definition of another name for a type.
    (
        "t = type bool\nd = define foo t\nexport d bar",
        "0061736d0d0001000702017f0b11020003666f6f0300000003626172030100",
    ),
];

#[test]
fn scripts_make_components(rt: HostRuntime) {
    assert_outcomes(&rt, COMPOSITIONS);
}

// Each shape once: that it is taken.
const SHAPES: &str = "level = enum debug info error
flags = flags a b
entry = record level=level message=string
pair = tuple u8 entry
many = list pair
few = list u8 4
maybe = option many
done = result maybe _
choice = variant none num=u32
again = type choice
s = stream _
g = future u8
r = resource r
q = resource q r
log = func e=entry -> bool
wait = async func r=borrow:r -> own:r
i = interface ns:pkg/log level=type:level log=log r=r
j = interface _ use:level=i use:l=i.level level=level run=log
w = world ns:pkg/log=i exports run=log
v = world id:ns:pkg/w ns:pkg/log=i
o = resource r r i
cf = core func i32 -> i64
ct = core table funcref 1 _ 64
cm = core memory 1 4 shared
cg = core global i32 mut
ce = core tag f32
m = module from env log=cf mem=cm exports run=cf e=ce
";

#[test]
fn each_shape_can_be_said(rt: HostRuntime) {
    let alloc = rt.alloc();
    let mut script = Script::new(alloc);
    match run(alloc, &mut script, SHAPES) {
        Ok(None) => {}
        Ok(Some(refusal)) => assert!(&rt; false, "{refusal}"),
        Err(_) => assert!(&rt; false, "out of memory"),
    }
}

// Words that are refused, each with its line and reason.
const WORDS: &[(&str, &str)] = &[
    ("a = nothing", "1: no call has this name: `nothing`"),
    ("clear", "1: no call has this name: `clear`"),
    ("set = x y", "1: no call has this name: `x`"),
    ("# a comment\nset a", "2: the call takes other words: `set`"),
    ("l = list", "1: the call takes other words: `list`"),
    ("f = func\nl = list f", "2: expected a value type: `f`"),
    ("f = func -> u8 u8", "1: the call takes other words: `->`"),
    (
        "f = func\nw = world exports use:t=f",
        "2: expected an interface: `f`",
    ),
    (
        "i = interface _\nw = world exports use:t=i",
        "2: the call takes other words: `use:`",
    ),
    ("m = module from", "1: the call takes other words: `from`"),
    (
        "c = core global i32 64bit",
        "1: the call takes other words: `64bit`",
    ),
    ("l = list t", "1: nothing has this label: `t`"),
    ("f = func\nf = func", "2: the label is used already: `f`"),
    ("f = func\nh = type own:f", "2: expected a resource: `f`"),
    (
        "f = func\nw = world\np = package a:b _ hex: f",
        "3: expected a world: `f`",
    ),
    (
        "f = func\nm = module a=f",
        "2: expected a core function, table, memory, global or tag: `f`",
    ),
    (
        "c = core func\ni = interface _ a=c",
        "2: expected an item: `c`",
    ),
    ("f = func\nn = new f", "2: expected a package: `f`"),
    ("f = func\nexport f a", "2: expected a node: `f`"),
    ("r = record a", "1: expected NAME=WORD: `a`"),
    ("l = list u8 x", "1: expected a number: `x`"),
    (
        "l = list u8 4294967296",
        "1: expected a number: `4294967296`",
    ),
    ("c = core memory 1 2 page=x", "1: expected a number: `x`"),
    ("c = core global u8", "1: expected a core type: `u8`"),
    (
        "w = world\np = package a:b one hex: w",
        "2: expected a version: `one`",
    ),
    (
        "w = world\np = package a:b 1.0.0 hex:0 w",
        "2: expected hexadecimal digits: `0`",
    ),
    ("e = enum a a", "1: the type cannot be built: NameTwice"),
    (
        "r = resource r\ni = interface _ q=r",
        "2: the type cannot be added: ResourceMisnamed",
    ),
    (
        "i = interface _\nj = interface _ use:t=i",
        "2: the type cannot be added: UsedInterfaceUnnamed",
    ),
];

// Calls that the graph refuses, each with its line and reason.
const CALLS: &[(&str, &str)] = &[
    (
        "t = type u8\nd = define a t\ne = define b t",
        "3: the provided type has already been defined in the graph",
    ),
    (
        "r = resource r\nd = define a r",
        "2: a resource type cannot be defined in the graph",
    ),
    (
        "t = type u8\nu = type u8\nd = define a t\ne = define a u",
        "4: type name `a` conflicts with an existing export of the same name",
    ),
    (
        "t = type u8\nd = define A_b t",
        "2: type name `A_b` is not valid: BadLabel",
    ),
    (
        "f = func\ni = import a f\nj = import a f",
        "3: import name `a` already exists in the graph",
    ),
    (
        "f = func\ni = import A_b f",
        "2: import name `A_b` is not valid: BadLabel",
    ),
    (
        "w = world\np = package a:b _ hex: w\nq = package a:b _ hex: w",
        "3: package `a:b` has already been registered in the graph",
    ),
    (
        "f = func\ni = import a f\nj = alias i b",
        "3: expected source node to be an instance, but the node is a function",
    ),
    (
        "w = world\np = package a:b _ hex: w\nn = new p\na = alias n x",
        "4: instance does not have an export named `x`",
    ),
    (
        "f = func\ni = import a f\nj = import b f\nexport i c\nexport j c",
        "5: an export with the name `c` already exists",
    ),
    (
        "f = func\ni = import a f\nexport i A_b",
        "3: export name `A_b` is not valid: BadLabel",
    ),
    (
        "f = func\ni = import a f\nexport i url=<u>",
        "3: export name `url=<u>` is not valid: NotExportable",
    ),
    (
        "f = func\ni = import a f\nj = import b f\nset i c j",
        "4: the specified node is not an instantiation",
    ),
    (
        "f = func\nw = world a=f\np = package a:b _ hex: w\nn = new p\ni = import c f\nset n x i",
        "6: argument name `x` is not an import of package `a:b`",
    ),
    (
        "f = func\ng = func a=u8\nw = world a=f\np = package a:b _ hex: w\nn = new p\ni = import c g\nset n a i",
        "7: mismatched instantiation argument `a`: Mismatch",
    ),
    (
        "f = func\nw = world a=f\np = package a:b _ hex: w\nn = new p\ni = import c f\nj = import d f\nset n a i\nset n a j",
        "8: argument `a` has already been passed to the instantiation",
    ),
    (
        "w = world\np = package a:b _ hex: w\nq = package c:d _ hex: w\nplug p q",
        "4: the socket component had no matching imports for the plugs that were provided",
    ),
    (
        "f = func\nw = world exports a=f\nv = world a=f exports run=f\np = package a:b _ hex: w\nq = package c:d _ hex: v\ni = import x f\nexport i run\nplug q p",
        "8: an error occurred when building the composition graph: an export with the name `run` already exists",
    ),
];

// Graphs that cannot be encoded, each with the line to blame, if there is one, and the reason.
const GRAPHS: &[(&str, &str)] = &[
    (
        "f = func\nw = world a=f exports b=f\np = package a:b _ hex: w\nn = new p\nb = alias n b\nset n a b",
        "4: the graph contains a cycle and cannot be encoded: node `n`",
    ),
    (
        "f = func\nw = world a=f\np = package a:b 1.0.0 hex: w\nn = new p\ni = import a f",
        "4: an instantiation of package `a:b@1.0.0` implicitly imports an item named `a`, but it conflicts with an explicit import of the same name: node `n` and node `i`",
    ),
    (
        "f = func\ng = func a=u8\nw = world a=f\nv = world a=g\np = package a:b _ hex: w\nq = package c:d _ hex: v\nn = new p\nm = new q",
        "8: failed to merge the type definition for implicit import `a` due to conflicting types: node `m` and node `n`: Disagree",
    ),
    (
        "f = func\ng = func a=u8\ni = interface _ f=f\nj = interface _ f=g\nw = world a:b/c@0.2.0=i\np = package a:b _ hex: w\nn = new p\nm = import a:b/c@0.2.1 j",
        "8: failed to merge the type definition for explicit import `a:b/c@0.2.1` due to conflicting types: node `m` and node `n`",
    ),
    (
        "r = resource r\nq = resource r\nf = func x=own:q\ng = func x=own:r\ni = interface n:p/a r=r f=f\nj = interface n:p/b r=q f=g\nm = import n:p/a i\nn = import n:p/b j",
        "import `n:p/a` rests on itself through other imports",
    ),
    (
        "i = import a value:u8",
        "1: the type of node 0 cannot be written: node `i`: ValueItem",
    ),
    (
        "f = func\ni = import a f\nj = import A f",
        "encoding produced a component that failed validation: names `a` and `A` clash",
    ),
    (
        "t = type u8\nd = define url=<u> t",
        "encoding produced a component that failed validation: `url=<u>` cannot be exported",
    ),
];

#[test]
fn lines_are_refused(rt: HostRuntime) {
    for rows in [WORDS, CALLS, GRAPHS] {
        assert_outcomes(&rt, rows);
    }
}

// Three packages become one component: a program, a logger with a resource and used types, and a clock.
const LOGGING: &str = "level = enum debug info error
entry = record level=level message=string
sink = resource sink
log = func sink=borrow:sink entry=entry
types = interface ns:pkg/types level=type:level entry=type:entry sink=sink
logging = interface ns:pkg/log use:entry=types use:sink=types entry=type:entry sink=sink log=log
now = func -> u64
clock = interface ns:pkg/clock now=now
logger = world ns:pkg/clock=clock exports ns:pkg/types=types ns:pkg/log=logging
clocks = world exports ns:pkg/clock=clock
run = func
program = world ns:pkg/clock=clock ns:pkg/log=logging ns:pkg/types=types exports run=run
c = package ns:clock 1.0.0 hex:0061736d0d000100 clocks
l = package ns:logger 1.0.0 hex:0061736d0d000100 logger
p = package ns:program 1.0.0 hex:0061736d0d000100 program
time = new c
ticks = alias time ns:pkg/clock
log_sink = new l
set log_sink ns:pkg/clock ticks
lines = alias log_sink ns:pkg/log
shapes = alias log_sink ns:pkg/types
main = new p
set main ns:pkg/clock ticks
set main ns:pkg/log lines
set main ns:pkg/types shapes
start = alias main run
export start run
name main main
stop = import stop run
other = new c
spare = alias other ns:pkg/clock
";

// Its bytes: a function import, the three packages with instances of each, and an export.
const LOGGING_BYTES: &str =
    "0061736d0d000100070501400001000a0901000473746f70010004080061736d0d0001000504010000000611010500000c6e733a706b672f636c6f636b04080061736d0d0001000513010001010c6e733a706b672f636c6f636b0501061f020500020a6e733a706b672f6c6f670500020c6e733a706b672f747970657304080061736d0d000100052f010002030c6e733a706b672f636c6f636b05010a6e733a706b672f6c6f6705030c6e733a706b672f747970657305040608010100050372756e0504010000000611010500060c6e733a706b672f636c6f636b0b0901000372756e01010000190e636f6d706f6e656e742d6e616d650108050105046d61696e";

#[test]
fn three_packages_make_a_component(rt: HostRuntime) {
    assert_outcomes(&rt, &[(LOGGING, LOGGING_BYTES)]);
    assert_pictures(&rt, LOGGING, &[(Picture::Mermaid, LOGGING_PICTURE)]);
}

const LOGGING_PICTURE: &str = "flowchart LR
    n0[\"time: ns:clock@1.0.0\"]
    n1[\"ticks (instance)\"]
    n0 -->|\"ns:pkg/clock\"| n1
    n2[\"log_sink: ns:logger@1.0.0\"]
    n1 ==>|\"ns:pkg/clock\"| n2
    n3[\"lines (instance)\"]
    n2 -->|\"ns:pkg/log\"| n3
    n4[\"shapes (instance)\"]
    n2 -->|\"ns:pkg/types\"| n4
    n5[\"main: ns:program@1.0.0\"]
    n1 ==>|\"ns:pkg/clock\"| n5
    n3 ==>|\"ns:pkg/log\"| n5
    n4 ==>|\"ns:pkg/types\"| n5
    n6[\"start (function) as run\"]
    n5 -->|\"run\"| n6
    n7[\"stop: import stop (function)\"]
    n8[\"other: ns:clock@1.0.0\"]
    n9[\"spare (instance)\"]
    n8 -->|\"ns:pkg/clock\"| n9
";

const PICTURES: &[(Picture, &str)] = &[
    (
        Picture::Dot,
        "digraph {\n    rankdir=LR\n    node [shape=box]\n    n0 [label=\"n: a:b\"]\n    n1 [label=\"a (function)\"]\n    n0 -> n1 [label=\"x\"]\n    n2 [label=\"m: c:d\"]\n    n1 -> n2 [label=\"y\", style=bold]\n}\n",
    ),
    (
        Picture::Mermaid,
        "flowchart LR\n    n0[\"n: a:b\"]\n    n1[\"a (function)\"]\n    n0 -->|\"x\"| n1\n    n2[\"m: c:d\"]\n    n1 ==>|\"y\"| n2\n",
    ),
    (Picture::Imports, "z function\n"),
];

// A definition of a type that depends on another, and a label with signs that mean something else in a picture.
const SIGNS: &[(Picture, &str)] = &[
    (
        Picture::Dot,
        "digraph {\n    rankdir=LR\n    node [shape=box]\n    n0 [label=\"d: definition (value type) as a\"]\n    n1 [label=\"e: definition (value type) as b\"]\n    n0 -> n1 [style=dashed]\n    n2 [label=\"\\\"x\\\"#<&`>: import c (function)\"]\n}\n",
    ),
    (
        Picture::Mermaid,
        "flowchart LR\n    n0[\"d: definition (value type) as a\"]\n    n1[\"e: definition (value type) as b\"]\n    n0 -.-> n1\n    n2[\"#quot;x#quot;#35;#lt;#amp;#96;#gt;: import c (function)\"]\n",
    ),
    (Picture::Imports, "c function \"x\"#<&`>\n"),
];

/// Checks the pictures of the graph that a script makes.
fn assert_pictures<R: Abort + AllocGlobal>(rt: &R, text: &str, rows: &[(Picture, &str)]) {
    let alloc = rt.alloc();
    let mut script = Script::new(alloc);
    match run(alloc, &mut script, text) {
        Ok(None) => {}
        Ok(Some(refusal)) => assert!(rt; false, "{refusal}"),
        Err(_) => assert!(rt; false, "out of memory"),
    }
    for (picture, want) in rows {
        match script.picture(*picture) {
            Ok(found) => assert!(rt; found.as_str() == *want, "{found}"),
            Err(_) => assert!(rt; false, "out of memory"),
        }
    }
}

#[test]
fn a_graph_has_pictures(rt: HostRuntime) {
    assert_pictures(
        &rt,
        "f = func\nw = world exports x=f\nv = world y=f z=f\np = package a:b _ hex: w\nq = package c:d _ hex: v\nn = new p\na = alias n x\nm = new q\nset m y a",
        PICTURES,
    );
    assert_pictures(
        &rt,
        "t = enum x\nd = define a t\nr = record x=t\ne = define b r\nf = func\n\"x\"#<&`> = import c f",
        SIGNS,
    );
}

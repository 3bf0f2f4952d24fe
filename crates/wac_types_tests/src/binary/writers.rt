// What is written, as the rows of tables.
use std::alloc::Global;
use std::process::Abort;
use wac_binary::{
    BinaryFault, ComponentBuilder, ComponentType, DefinedType, Description, EntityType, FuncType,
    InstanceType, ModuleType, Sort,
};
use wac_types_collection::CoreType;

// What is asked of a component or of a type in it.
#[derive(Clone, Copy)]
pub enum Call {
    Component(&'static [u8]),
    Instantiate(u32, &'static [(&'static str, Sort, u32)]),
    AliasExport(Sort, u32, &'static str),
    AliasOuter(Sort, u32, u32),
    Defined(DefinedType<'static>),
    Func(FuncType<'static>),
    // The instance type as it stands, one without declarations, and the component types and the core module type as they stand.
    InstanceType,
    EmptyInstanceType,
    InnerType,
    OuterType,
    ModuleType,
    Import(&'static str, Description),
    Export(&'static str, Sort, u32),
    // An export of a type in the component.
    Exports(&'static str, Description),
    Custom(&'static str, &'static [u8]),
    CoreFunc(&'static [CoreType], &'static [CoreType]),
    CoreImport(&'static str, &'static str, EntityType),
    CoreExport(&'static str, EntityType),
    // Another instance type is begun.
    Begin,
}

// What a call is made on: the component, an instance type, either component type or a core module type.
#[derive(Clone, Copy)]
pub enum Writer {
    Root,
    Instance,
    Inner,
    Outer,
    Core,
}

// A call, and the index that it answers; 0 where it answers none.
pub type Row = (Writer, Call, u32);

// What is written so far.
#[derive(Drop)]
struct Writers {
    root: ComponentBuilder,
    instance: InstanceType,
    inner: ComponentType,
    outer: ComponentType,
    core: ModuleType,
}

fn custom(b: &mut ComponentBuilder, name: &str, bytes: &[u8]) -> Result<u32, BinaryFault> {
    b.custom(name, bytes)?;
    Ok(0)
}

impl Writers {
    fn new(alloc: Global) -> Writers {
        Writers {
            root: ComponentBuilder::new(alloc),
            instance: InstanceType::new(alloc),
            inner: ComponentType::new(alloc),
            outer: ComponentType::new(alloc),
            core: ModuleType::new(alloc),
        }
    }

    fn in_root(&mut self, alloc: Global, call: Call) -> Result<u32, BinaryFault> {
        let b = &mut self.root;
        match call {
            Call::Component(bytes) => b.component(bytes),
            Call::Instantiate(component, arguments) => b.instantiate(component, arguments),
            Call::AliasExport(sort, instance, name) => b.alias_export(sort, instance, name),
            Call::AliasOuter(sort, count, index) => b.alias_outer(sort, count, index),
            Call::Defined(ty) => b.defined_type(&ty),
            Call::Func(ty) => b.func_type(&ty),
            Call::InstanceType => b.instance_type(&self.instance),
            Call::EmptyInstanceType => b.instance_type(&InstanceType::new(alloc)),
            Call::InnerType => b.component_type(&self.inner),
            Call::OuterType => b.component_type(&self.outer),
            Call::ModuleType => b.core_module_type(&self.core),
            Call::Import(name, item) => b.import(name, item),
            Call::Export(name, sort, index) => b.export(name, sort, index),
            Call::Custom(name, bytes) => custom(b, name, bytes),
            _ => Err(BinaryFault::TooLarge),
        }
    }

    fn in_instance(&mut self, alloc: Global, call: Call) -> Result<u32, BinaryFault> {
        let t = &mut self.instance;
        match call {
            Call::AliasExport(sort, instance, name) => t.alias_export(sort, instance, name),
            Call::AliasOuter(sort, count, index) => t.alias_outer(sort, count, index),
            Call::Defined(ty) => t.defined_type(&ty),
            Call::Func(ty) => t.func_type(&ty),
            Call::EmptyInstanceType => t.instance_type(&InstanceType::new(alloc)),
            Call::InnerType => t.component_type(&self.inner),
            Call::ModuleType => t.core_module_type(&self.core),
            Call::Exports(name, item) => t.export(name, item),
            Call::Begin => {
                *t = InstanceType::new(alloc);
                Ok(0)
            }
            _ => Err(BinaryFault::TooLarge),
        }
    }

    fn in_inner(&mut self, call: Call) -> Result<u32, BinaryFault> {
        let t = &mut self.inner;
        match call {
            Call::AliasExport(sort, instance, name) => t.alias_export(sort, instance, name),
            Call::AliasOuter(sort, count, index) => t.alias_outer(sort, count, index),
            Call::Defined(ty) => t.defined_type(&ty),
            Call::Func(ty) => t.func_type(&ty),
            Call::InstanceType => t.instance_type(&self.instance),
            Call::ModuleType => t.core_module_type(&self.core),
            Call::Import(name, item) => t.import(name, item),
            Call::Exports(name, item) => t.export(name, item),
            _ => Err(BinaryFault::TooLarge),
        }
    }

    fn in_core(&mut self, call: Call) -> Result<u32, BinaryFault> {
        let m = &mut self.core;
        match call {
            Call::CoreFunc(params, results) => return m.func(params, results),
            Call::CoreImport(source, name, item) => m.import(source, name, item)?,
            Call::CoreExport(name, item) => m.export(name, item)?,
            _ => return Err(BinaryFault::TooLarge),
        }
        Ok(0)
    }

    fn make(&mut self, alloc: Global, writer: Writer, call: Call) -> Result<u32, BinaryFault> {
        match writer {
            Writer::Root => self.in_root(alloc, call),
            Writer::Instance => self.in_instance(alloc, call),
            Writer::Inner => self.in_inner(call),
            Writer::Outer => self.outer.component_type(&self.inner),
            Writer::Core => self.in_core(call),
        }
    }

    // Whether a call answers its index. It is made once more where memory was refused: it had added nothing.
    fn answers(&mut self, alloc: Global, row: Row) -> bool {
        let (writer, call, want) = row;
        let mut answer = self.make(alloc, writer, call);
        if answer == Err(BinaryFault::OutOfMemory) {
            answer = self.make(alloc, writer, call);
        }
        answer == Ok(want)
    }
}

/// These bytes are written, in hexadecimal.
pub fn assert_written(
    rt: &impl Abort,
    alloc: Global,
    bytes: Result<Vec<u8>, BinaryFault>,
    want: &[&str],
    what: &str,
) {
    let written = hex::encode(alloc, bytes.expect(rt, what)).expect(rt, what);
    let want = want.concat(alloc).expect(rt, what);
    assert!(rt; written.as_str() == want.as_str(), "{what}");
}

/// What is written, the calls, and the bytes of the component.
pub type Table = (&'static str, &'static [Row], &'static [&'static str]);

fn assert_table(rt: &(impl Abort + AllocGlobal), table: Table) {
    let (what, rows, want) = table;
    let alloc = rt.alloc();
    let mut writers = Writers::new(alloc);
    for (i, row) in rows.iter().enumerate() {
        assert!(rt; writers.answers(alloc, *row), "row {i}: {what}");
    }
    let mut bytes = writers.root.finish();
    if let Err(BinaryFault::OutOfMemory) = bytes {
        bytes = writers.root.finish();
    }
    assert_written(rt, alloc, bytes, want, what);
    assert_written(rt, alloc, writers.root.into_bytes(), want, what);
}

/// Each of these calls answers so, and these bytes are written, for each of these tables.
pub fn assert_tables(rt: &(impl Abort + AllocGlobal), tables: &[Table]) {
    for table in tables {
        assert_table(rt, *table);
    }
}

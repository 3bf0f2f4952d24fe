//! A graph that is made line by line.
ghost use Rattle.std.specs.Prelude.{◌≡◌, ◌≤◌, ◌^◌, ◌⊎◌, [], length, IsTrue, IsSome, MatchResult, List, None, OnOk, OnErr, IfOk, IfErr, IfSome};
ghost use Rattle.wac_types_shapes.specs.primitives.Name.{find_name};
ghost use Rattle.std.specs.Result.{IsErrAnd};
ghost use Rattle.wac_binary.specs.Bytes.{bytes_of};
ghost use Rattle.wac_binary.specs.Fits.{Fits};
ghost use Rattle.wac_binary.specs.Format.{AreInFormat};
ghost use Rattle.wac_binary.specs.Items.{Item as AnItem};
ghost use Rattle.wac_graph_model.specs.meaning.Means.{Means};
ghost use Rattle.wac_graph_model.specs.causes.Cause.{AnswersFor, Cause, CauseKind, cause_of, Occurs, Stands};
ghost use Rattle.wac_graph_model.specs.causes.OuterNames.{export_names, import_names};
ghost use Rattle.wac_graph_model.specs.declared.causes.errors.EncodeError.TheVariants.{TooLarge};
ghost use Rattle.wac_graph_model.specs.weight.GraphWeight.{bound};
ghost use Rattle.wac_names.specs.validation.Valid.{AreValid};
ghost use Rattle.wac_script.specs.lines.Words.{spelled};
ghost use Rattle.wac_script.specs.labels.Things.{things_of, cores_of, IsWordMemory};
ghost use Rattle.wac_script.specs.declared.lines.calls.Line.TheVariants as said;
ghost use Rattle.wac_script.specs.declared.lines.calls.Change.TheVariants as change;
ghost use Rattle.wac_script.specs.lines.Says.{SaysNoLine};
ghost use Rattle.wac_script.specs.Refusals.{Answers, Changes};
ghost use Rattle.wac_script.specs.Naming.{NamesThing};
ghost use Rattle.wac_script.specs.Runs.{state_of, Runs, RunsLine, RunsWords, RanOut, KeepsLabels, NamesNodes, IsBlank};
ghost use Rattle.wac_script.specs.private.Misread.{IsMisread};

use crate::changes::change;
use crate::labels::{Thing, Things, WordError, WordFault, refused};
use crate::lines::{Call, CoreItem, Line, called, is_call, words_of};
use crate::nodes::{alias, define, import, instantiate};
use crate::packages::{plug_in, register};
use crate::refusal::{LineError, Refusal};
use crate::types::{
    add_alias, add_async_func, add_func, add_interface, add_module, add_owned_alias, add_resource,
    add_shape, add_world,
};
use std::alloc::{AllocError, Global};
use wac_graph::{CompositionGraph, EncodeError, EncodeOptions};

/// A composition graph, with labels for what the lines made.
pub struct Script {
    pub(crate) alloc: Global,
    pub(crate) graph: CompositionGraph,
    pub(crate) labels: Things,
}

// By hand: a derived `Drop` is proved again wherever one goes out of scope (docs/PROOFS.md, 'Drop').
impl Drop for Script {
    fn drop(self) {
        let Script {
            alloc: _,
            graph: _,
            labels: _,
        } = self;
    }
}

impl Script {
    /// Returns an empty graph without labels.
    pub fn new(alloc: Global) -> Script
        ensures { IsBlank (state_of result) }
    {
        Script {
            alloc,
            graph: CompositionGraph::new(alloc),
            labels: Things::new(alloc),
        }
    }

    /// The graph.
    pub fn graph(&self) -> &CompositionGraph
        ensures { result.now ≡ (state_of self.now).graph }
    {
        &self.graph
    }

    /// Makes the call of a line. An empty line and a comment say nothing.
    ///
    /// `number` is that of the line. `bytes` are those of the file that [`package_file`](crate::package_file) names, if
    /// it names one.
    ///
    /// # Errors
    /// - [`UnknownCall`](LineError::UnknownCall) only if no call has the name, which is the word after `LABEL =`, or
    ///   else the first.
    /// - [`OtherWords`](LineError::OtherWords) only if a call has the name, and no call takes the words.
    /// - [`Call`](LineError::Call) if the call is refused, for the reason that its [`Refusal`] gives:
    ///   - [`Words`](Refusal::Words) only if something has the label, or the words stand for nothing that the call
    ///     takes, or a name occurs twice among them.
    ///   - [`OutOfMemory`](Refusal::OutOfMemory) may come at any call.
    ///   - Any other is the error of the call on the graph, for what the words stand for.
    ///
    /// No label is added then, and the graph is unchanged, but for these refusals:
    ///
    /// - [`Register`](Refusal::Register): the instance type of the package's world has been added.
    /// - [`Plug`](Refusal::Plug): what the steps of `plug` before the error added remains.
    /// - [`OutOfMemory`](Refusal::OutOfMemory): what the line makes may have been added, without its label.
    pub fn line(&mut self, number: usize, line: &str, bytes: Vec<u8>) -> Result<(), LineError>
        ensures { RunsLine number line.now bytes.items (state_of self.old) result (state_of self.new) }
    {
        let Ok(words) = words_of(self.alloc, line) else {
            return Err(LineError::Call(Refusal::OutOfMemory));
        };
        self.run_words(number, &words, bytes)
    }

    /// Makes the call of the words of a line.
    fn run_words(&mut self, number: usize, words: &[&str], bytes: Vec<u8>) -> Result<(), LineError>
        ensures { RanOut (state_of self.old) result (state_of self.new) ⊎ RunsWords number (spelled words.now) bytes.items (state_of self.old) result (state_of self.new) }
    {
        let Some(line) = Line::read(words) else {
            return Err(misread(self.alloc, words));
        };
        match self.run(number, line, bytes) {
            Ok(()) => Ok(()),
            Err(refusal) => Err(LineError::Call(refusal)),
        }
    }

    /// Does what a line says.
    fn run(&mut self, number: usize, line: Line<'_, '_>, bytes: Vec<u8>) -> Result<(), Refusal>
        ensures { Runs number line.entry bytes.items (state_of self.old) result (state_of self.new) }
    {
        match line {
            Line::Nothing => Ok(()),
            Line::Make { label, call } => self.make(number, label, call, bytes),
            Line::Core { label, item } => self.keep_core(number, label, item),
            Line::Change(call) => change(self.alloc, &self.labels, &mut self.graph, call),
        }
    }

    /// Fails if something has the label.
    fn check_label(&self, label: &str) -> Result<(), WordError>
        ensures { MatchResult result (λ done. find_name (state_of self.now).labels label.now ≡ None) (λ e. IsWordMemory e ⊎ IsSome (find_name (state_of self.now).labels label.now)) }
    {
        if self.labels.contains(label) {
            return Err(refused(self.alloc, WordFault::LabelTwice, label));
        }
        Ok(())
    }

    /// Makes a call, and gives what it makes a label.
    fn make(
        &mut self,
        number: usize,
        label: &str,
        call: Call<'_, '_>,
        bytes: Vec<u8>,
    ) -> Result<(), Refusal>
        ensures { Runs number (said.Make label.entry call.entry) bytes.items (state_of self.old) result (state_of self.new) }
    {
        self.check_label(label)?;
        let thing = add(self.alloc, &self.labels, &mut self.graph, call, bytes)?;
        if let Err(_) = self.labels.insert(label, thing, number) {
            return Err(Refusal::OutOfMemory);
        }
        Ok(())
    }

    /// Keeps an import or export of core modules, and gives it a label.
    fn keep_core(
        &mut self,
        number: usize,
        label: &str,
        item: CoreItem<'_, '_>,
    ) -> Result<(), Refusal>
        ensures { Runs number (said.Core label.entry item.entry) [] (state_of self.old) result (state_of self.new) }
    {
        self.check_label(label)?;
        let item = self.labels.core_item(item)?;
        self.labels.insert_core(label, item, number)?;
        Ok(())
    }

    /// Plugs packages into a socket, by their labels. The matches that are passed over are dropped.
    ///
    /// # Errors
    /// A [`Refusal`]. What the steps of `plug` before the error added remains.
    pub fn plug(&mut self, socket: &str, plugs: &[&str]) -> Result<(), Refusal>
        ensures plugged { Changes (state_of self.old).labels (state_of self.old).graph (change.Plug socket.entry plugs.entry) result (state_of self.new).graph }
        ensures labels { KeepsLabels (state_of self.old) (state_of self.new) }
    {
        plug_in(self.alloc, &self.labels, &mut self.graph, socket, plugs)
    }

    /// Names each node by its label.
    ///
    /// # Errors
    /// - `AllocError` if out of memory. The nodes of the labels up to one of them then have their names.
    pub fn name_nodes(&mut self) -> Result<(), AllocError>
        ensures { NamesNodes (state_of self.old) result (state_of self.new) }
    {
        for i in 0..self.labels.len() {
            let (label, labelled) = self.labels.entry_at(i);
            name_thing(&mut self.graph, label, labelled.thing)?;
        }
        Ok(())
    }

    /// Returns the bytes of the component, as [`CompositionGraph::encode`] does.
    ///
    /// # Errors
    /// Those of [`CompositionGraph::encode`].
    pub fn encode(&self, options: EncodeOptions<'_>) -> Result<Vec<u8>, EncodeError>
        ensures means { IfOk result (λ bytes. (items : List AnItem) × (bytes.items ≡ bytes_of items) × Fits items × AreInFormat items × Means items (state_of self.now).graph options.entry) }
        ensures cause { IfErr result (λ e. IfSome (cause_of e) (Stands (state_of self.now).graph options.entry)) }
        ensures refused { (cause : Cause) → Stands (state_of self.now).graph options.entry cause → IsErrAnd result (AnswersFor cause) }
        ensures none { OnOk result ((kind : CauseKind) → Occurs (state_of self.now).graph options.entry kind → ⊥) }
        ensures short { IfOk result (λ bytes. length bytes.items ≤ bound (state_of self.now).graph options.entry) }
        ensures too_large { IfErr result (λ e. e ≡ TooLarge → 2 ^ 32 ≤ bound (state_of self.now).graph options.entry) }
        ensures valid { IfOk result (λ bytes. IsTrue options.entry.validate → (items : List AnItem) × (bytes.items ≡ bytes_of items) × AreValid (import_names items) (export_names items)) }
    {
        self.graph.encode(options)
    }
}

/// Returns why no call takes words.
fn misread(alloc: Global, words: &[&str]) -> LineError
    ensures { SaysNoLine (spelled words.now) → IsMisread (spelled words.now) result }
{
    let call = called(words);
    let Ok(name) = String::from_str(alloc, call) else {
        return LineError::Call(Refusal::OutOfMemory);
    };
    if is_call(call) {
        LineError::OtherWords(name)
    } else {
        LineError::UnknownCall(name)
    }
}

/// Names a node by its label. Does nothing if the label is not that of a node.
fn name_thing(graph: &mut CompositionGraph, label: &str, thing: Thing) -> Result<(), AllocError>
    ensures named { OnOk result (NamesThing label.now thing graph.old graph.new) }
    ensures kept { OnErr result (graph.new ≡ graph.old) }
{
    let Thing::Node(id) = thing else {
        return Ok(());
    };
    if !graph.has_node(id) {
        return Ok(());
    }
    graph.set_node_name(id, label)?;
    Ok(())
}

/// Makes a call, and returns what it makes.
fn add(
    alloc: Global,
    labels: &Things,
    graph: &mut CompositionGraph,
    call: Call<'_, '_>,
    bytes: Vec<u8>,
) -> Result<Thing, Refusal>
    ensures { Answers (things_of labels.now) (cores_of labels.now) bytes.items graph.old call.entry result graph.new }
{
    match call {
        Call::Shape(shape) => add_shape(labels, graph, shape),
        Call::Resource(name) => add_resource(labels, graph, name),
        Call::ResourceAlias { name, source } => add_alias(labels, graph, name, source),
        Call::OwnedAlias {
            name,
            source,
            owner,
        } => add_owned_alias(labels, graph, name, source, owner),
        Call::Func { params, results } => add_func(labels, graph, params, results),
        Call::AsyncFunc { params, results } => add_async_func(labels, graph, params, results),
        Call::Interface { id, items } => add_interface(labels, graph, id, items),
        Call::World { imports, exports } => add_world(labels, graph, imports, exports),
        Call::Module { imports, exports } => add_module(labels, graph, imports, exports),
        Call::Package(words) => register(alloc, labels, graph, words, bytes),
        Call::New(label) => instantiate(alloc, labels, graph, label),
        Call::Alias { node, export } => alias(alloc, labels, graph, node, export),
        Call::Import { name, item } => import(alloc, labels, graph, name, item),
        Call::Define { name, item } => define(alloc, labels, graph, name, item),
    }
}

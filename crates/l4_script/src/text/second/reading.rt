//! How far a text with scripts of version 2 has been read.
ghost use Rattle.std.specs.Prelude.{◌≡◌, ◌≢◌, ◌<◌, ◌≤◌, ◌++◌, ◌∷◌, [], length, false, true, Ok};
ghost use Rattle.std.specs.Prelude.{IfErr, IfOk, IfSome, OnOk};
ghost use Rattle.std.specs.Option.{option_copied, option_map};
ghost use Rattle.l4_model.specs.Words.{global_id, is_global};
ghost use Rattle.l4_model.specs.Machine.{most_processors, most_threads};
ghost use Rattle.l4_types.specs.Inner.FormatView.{format_of};
ghost use Rattle.l4_script.specs.declared.text.fault.TextFaultKind.TheVariants.{NoMemory as OutOfMemory};
ghost use Rattle.l4_script.specs.Judged.{Leads};
ghost use Rattle.l4_script.specs.Machines.{is_taken, last_thread, with_last_script, with_thread};
ghost use Rattle.l4_script.specs.Texts.{LeadsOn};
ghost use Rattle.l4_script.specs.Inner.Headings.{heading_of};
ghost use Rattle.l4_script.specs.Inner.Scripts.{instr_of};
ghost use Rattle.l4_script.specs.Inner.Second.{heir_of, place_of, said_of, stage_of};
ghost use Rattle.l4_script.specs.Inner.Second.{begins_as_branch, judged_line};
ghost use Rattle.l4_script.specs.Statements.{end_of};
ghost use Rattle.l4_script.specs.Second.Statements.{goes_to, without_target};
ghost use Rattle.l4_script.specs.Second.Texts.{label_of, found_place, missed_in, first_missed};
ghost use Rattle.l4_script.specs.Second.Texts.{placed, settled, with_script_ended};
ghost use Rattle.l4_script.specs.Second.Texts.{nothing_read, has_thread, has_script, may_name};
ghost use Rattle.l4_script.specs.Second.Texts.{name_line, source_of, script_of, second_declared};
ghost use Rattle.l4_script.specs.Second.Texts.{may_declare, numbers_of, with_threads};
ghost use Rattle.l4_script.specs.Second.Texts.{may_label, labelled, target_at};
ghost use Rattle.l4_script.specs.Second.Texts.{may_be_labelled, with_label, said_line};
ghost use Rattle.l4_script.specs.Second.Texts.{labelled_instruction};
ghost use Rattle.l4_script.specs.Second.Texts.{unlabelled_words, second_thread_line, after_words};
ghost use Rattle.l4_script.specs.Second.Texts.{after_line};
ghost use Rattle.l4_script.specs.Second.Texts.{unless_faulty, ended, judged_at};

use super::super::fault::{TextFault, TextFaultKind};
use super::super::statements::{END, Heading, JUMP, ON_ERROR, is, only, processors_line};
use super::lines::{Said, line_said};
use super::names::{MOST_NAMES, Named, id_named, id_under, is_name, thread_named};
use super::operands::{Place, named_place};
use super::statements::{Heir, declaration, format_line, instruction, plain};
use crate::instructions::Instr;
use crate::machine::{Declaration, MOST_INSTRUCTIONS, MOST_THREADS, Machine};
use l4_types::errors::NoMemory;
use l4_types::formats::Format;
use l4_types::ids::GlobalId;
use l4_words::words::Words;
use std::alloc::Global;
use std::marker::Model;

const THREAD: &[u8] = b"thread";

const NAME: &[u8] = b"name";

/// The name of an instruction of the last script, and its place.
#[derive(Debug, Drop)]
pub struct Label<'a> {
    name: &'a [u8],
    at: usize,
}

impl<'a> Model for Label<'a> {
    ghost use Rattle.l4_script.specs.Second.Texts.{Label as NamedPlace};

    ghost Value = { NamedPlace };

    ghost view = { λ l. record { name = l.name.now; at = l.at } };
}

/// An instruction of the last script that names one: the number of its line, its place, and what it
/// names.
#[derive(Debug, Drop)]
pub struct Target<'a> {
    line: usize,
    at: usize,
    place: Place<'a>,
}

impl<'a> Model for Target<'a> {
    ghost use Rattle.l4_script.specs.Second.Texts.{Target as NamingInstruction};
    ghost use Rattle.l4_script.specs.Inner.Second.{place_of};

    ghost Value = { NamingInstruction };

    ghost view = { λ t. record { line = t.line; at = t.at; place = place_of t.place } };
}

/// The format of the text, the names that it declares, the machine of the lines so far, and of the
/// last script the names of its instructions, and what these name.
#[derive(Debug, Drop)]
pub struct Reading<'a> {
    format: Format,
    names: Vec<Named<'a>>,
    machine: Machine,
    // The place of the thread whose script the last one has, where it has no line of its own.
    heir_of: Option<usize>,
    labels: Vec<Label<'a>>,
    targets: Vec<Target<'a>>,
    // The first fault of the scripts before: an instruction names one that its script does not
    // have.
    missed: Option<TextFault>,
}

impl<'a> Model for Reading<'a> {
    ghost use Rattle.l4_types.specs.Inner.FormatView.{format_of};
    ghost use Rattle.l4_script.specs.Second.Texts.{Reading as ReadSoFar};

    ghost Value = { ReadSoFar };

    ghost view = { λ r. record {
      format = format_of r.format;
      names = r.names.items;
      machine = r.machine;
      heir_of = r.heir_of;
      labels = r.labels.items;
      targets = r.targets.items;
      missed = r.missed;
    } };
}

/// What comes next in a text.
#[derive(Debug, Drop)]
pub enum Stage<'a> {
    /// The `l4` line.
    Start,
    /// The `cpus` line, after such a first line.
    Processors(Heading),
    /// The lines of names and threads, after those that were read.
    Threads(Reading<'a>),
}

fn keep_name<'a>(names: &mut Vec<Named<'a>>, name: Named<'a>) -> Result<(), NoMemory>
    ensures { OnOk result (names.new.items ≡ names.old.items ++ name.entry ∷ []) }
{
    names.push(name)?;
    Ok(())
}

fn keep_label<'a>(labels: &mut Vec<Label<'a>>, label: Label<'a>) -> Result<(), NoMemory>
    ensures { OnOk result (labels.new.items ≡ labels.old.items ++ label.entry ∷ []) }
{
    labels.push(label)?;
    Ok(())
}

#[inline(always)]
fn keep_target<'a>(
    targets: &mut Vec<Target<'a>>,
    line: usize,
    at: usize,
    place: Option<Place<'a>>,
) -> Result<(), NoMemory>
    ensures { OnOk result (targets.new.items ≡
        targets.old.items ++ target_at line at (option_map place_of place.entry)) }
{
    if let Some(place) = place {
        targets.reserve(1)?;
        targets.push_reserved(Target { line, at, place });
    }
    Ok(())
}

// The place of the instruction of this name.
fn label_of(labels: &[Label<'_>], name: &[u8]) -> Option<usize>
    ensures { result ≡ label_of labels.now name.now }
{
    labels
        .iter()
        .find(|label| label.name == name)
        .map(|label| label.at)
}

// The place that an instruction names, if its script has such a name. A number may be too great:
// then it is missed.
fn found_place(labels: &[Label<'_>], place: Place<'_>) -> Option<u64>
    ensures { result ≡ found_place labels.now (place_of place.entry) }
{
    match place {
        Place::Numbered(place) => Some(place),
        Place::Labelled(name) => label_of(labels, name).map(|at| at as u64),
    }
}

// What a script of so many instructions does not have.
fn missed_in(labels: &[Label<'_>], size: usize, place: Place<'_>) -> Option<TextFaultKind>
    ensures { result ≡ missed_in labels.now size (place_of place.entry) }
{
    match place {
        Place::Numbered(place) if (size as u64) < place => Some(TextFaultKind::BadTarget),
        Place::Numbered(_) => None,
        Place::Labelled(name) if label_of(labels, name).is_none() => Some(TextFaultKind::BadName),
        Place::Labelled(_) => None,
    }
}

fn first_missed(labels: &[Label<'_>], size: usize, targets: &[Target<'_>]) -> Option<TextFault>
    ensures { result ≡ first_missed labels.now size targets.now }
{
    for target in targets {
        if let Some(kind) = missed_in(labels, size, target.place) {
            return Some(TextFault {
                line: target.line,
                kind,
            });
        }
    }
    None
}

// Each instruction that names one goes on there.
fn place_all(labels: &[Label<'_>], targets: &[Target<'_>], machine: &mut Machine)
    requires { 0 < length machine.old.threads }
    ensures { machine.new ≡ with_last_script
        (placed labels.now targets.now (last_thread machine.old).script) machine.old }
{
    for target in targets {
        machine.place_last(target.at, found_place(labels, target.place));
    }
}

impl<'a> Reading<'a> {
    /// The state before the first thread, of a machine of `cpus` processors.
    fn new(alloc: Global, heading: Heading, cpus: u8) -> Reading<'a>
        requires some { 1 ≤ cpus }
        requires limit { cpus ≤ most_processors }
        ensures { result ≡ nothing_read (heading_of heading) cpus }
    {
        Reading {
            format: heading.format,
            names: Vec::new(alloc),
            machine: Machine::new(alloc, heading.retargeting, cpus),
            heir_of: None,
            labels: Vec::new(alloc),
            targets: Vec::new(alloc),
            missed: None,
        }
    }

    /// The format of the text's words.
    pub fn format(&self) -> Format
        ensures { format_of result ≡ self.now.format }
    {
        self.format
    }

    /// The names that the text declares so far.
    pub fn names(&self) -> &[Named<'a>]
        ensures { result.now ≡ self.now.names }
    {
        self.names.as_slice()
    }

    /// The machine of the lines so far.
    pub fn machine(&self) -> &Machine
        ensures { result.now ≡ self.now.machine }
    {
        &self.machine
    }

    fn has_thread(&self) -> bool
        ensures { result ≡ has_thread self.now }
    {
        !self.machine.threads().is_empty()
    }

    // Whether the last thread has a script of its own.
    fn has_script(&self) -> bool
        ensures { result ≡ has_script self.now }
    {
        self.has_thread() && self.heir_of.is_none()
    }

    /// The place of the thread whose script the last one has, where it has none of its own.
    pub fn heir_of(&self) -> Option<usize>
        ensures { result ≡ self.now.heir_of }
    {
        self.heir_of
    }

    /// Whether a name may be declared: it is no keyword, and no other id has it.
    #[tactic(auto, using(crate::proofs::Labelling::no_id))]
    pub fn may_name(&self, name: &[u8]) -> bool
        ensures { result ≡ may_name self.now name.now }
    {
        is_name(name) && id_under(self.names.as_slice(), name).is_none()
    }

    // `name NAME ID`, before the first thread.
    fn name_line(&mut self, operands: Words<'a>) -> Result<(), TextFaultKind>
        ensures kept { IfErr result (λ kind. kind ≢ OutOfMemory → self.new ≡ self.old) }
        ensures leads { Leads result self.new (name_line self.old operands.entry) }
    {
        if self.has_thread() {
            return Err(TextFaultKind::BadLine);
        }
        let (name, id) = operands.two().ok_or(TextFaultKind::BadLine)?;
        if !self.may_name(name) || self.names.len() >= MOST_NAMES {
            return Err(TextFaultKind::BadName);
        }
        let format = self.format;
        let id = id_named(format, self.names.as_slice(), id)?;
        keep_name(&mut self.names, Named { name, id })?;
        Ok(())
    }

    // The script of the last thread ends.
    fn settle(&mut self)
        ensures { self.new ≡ settled self.old }
    {
        if self.has_thread() {
            self.end_script();
        }
    }

    fn end_script(&mut self)
        requires { 0 < length self.old.machine.threads }
        ensures { self.new ≡ with_script_ended self.old }
    {
        let size = self.machine.last_script_len();
        let labels = self.labels.as_slice();
        let targets = self.targets.as_slice();
        if self.missed.is_none() {
            self.missed = first_missed(labels, size, targets);
        }
        place_all(labels, targets, &mut self.machine);
        self.labels.clear();
        self.targets.clear();
    }

    // The place of the thread whose script a thread has: it is declared before.
    fn source_of(&self, source: Option<&[u8]>) -> Result<Option<usize>, TextFaultKind>
        ensures value { result ≡ source_of self.now (option_copied source.entry) }
        ensures within { IfOk result
            (λ source. IfSome source (λ place. place < length self.now.machine.threads)) }
    {
        let Some(word) = source else {
            return Ok(None);
        };
        let thread = thread_named(self.format, self.names.as_slice(), word)?;
        let place = self.machine.place_of(thread).ok_or(TextFaultKind::BadId)?;
        Ok(Some(place))
    }

    // Whether there is room for the threads of a line, and none of their numbers is taken.
    fn may_declare(&self, heir: &Heir<'_>) -> Result<(), TextFaultKind>
        requires { heir.now.id.number ≤ heir.now.last }
        ensures { result ≡ may_declare (heir_of heir.now) self.now.machine }
    {
        let mut number = heir.id.number();
        let count = u64::from(heir.last - number) + 1;
        if self.machine.threads().len() as u64 + count > MOST_THREADS as u64 {
            return Err(TextFaultKind::TooManyThreads);
        }
        'numbers: while number < heir.last && !self.machine.has_number(number) {
            number += 1;
        }
        if self.machine.has_number(number) {
            return Err(TextFaultKind::DoubleId);
        }
        Ok(())
    }

    // A thread line. The script before it ends.
    fn thread_line(&mut self, alloc: Global, operands: Words<'a>) -> Result<(), TextFaultKind>
        ensures kept { IfErr result (λ kind. kind ≢ OutOfMemory → self.new ≡ self.old) }
        ensures leads { Leads result self.new (second_declared self.old operands.entry) }
    {
        let (format, cpus) = (self.format, self.machine.cpus());
        let heir = match declaration(format, self.names.as_slice(), cpus, operands) {
            Ok(heir) => heir,
            Err(kind) => return Err(kind),
        };
        let source = self.source_of(heir.source)?;
        self.may_declare(&heir)?;
        self.settle();
        self.declare_all(alloc, &heir, source)?;
        Ok(())
    }

    // Declares all threads of a line, with the script of the thread at a place or none yet.
    fn declare_all(
        &mut self,
        alloc: Global,
        heir: &Heir<'_>,
        source: Option<usize>,
    ) -> Result<(), NoMemory>
        requires rises { heir.now.id.number ≤ heir.now.last }
        requires lawful { is_global (global_id heir.now.last heir.now.id.version) ≡ true }
        requires home { heir.now.cpu < self.old.machine.cpus }
        requires may { may_declare (heir_of heir.now) self.old.machine ≡ Ok tt }
        requires source { IfSome source (λ place. place < length self.old.machine.threads) }
        ensures { OnOk result (self.new ≡ record self.old {
          machine = with_threads (numbers_of (heir_of heir.now))
              (record (heir_of heir.now).declaration {
                script = script_of self.old.machine source;
              }) self.old.machine;
          heir_of = source;
        }) }
    {
        let mut number = heir.id.number();
        'numbers: while number < heir.last {
            self.declare(alloc, number, heir, source)?;
            number += 1;
        }
        self.declare(alloc, number, heir, source)?;
        self.heir_of = source;
        Ok(())
    }

    // Declares the thread of this number.
    fn declare(
        &mut self,
        alloc: Global,
        number: u32,
        heir: &Heir<'_>,
        source: Option<usize>,
    ) -> Result<(), NoMemory>
        requires room { length self.old.machine.threads < most_threads }
        requires home { heir.now.cpu < self.old.machine.cpus }
        requires fresh { is_taken number self.old.machine ≡ false }
        requires lawful { is_global (global_id number heir.now.id.version) ≡ true }
        requires source { IfSome source (λ place. place < length self.old.machine.threads) }
        ensures { OnOk result (self.new ≡ record self.old {
          machine = with_thread (record (heir_of heir.now).declaration {
            id = global_id number heir.now.id.version;
            script = script_of self.old.machine source;
          }) self.old.machine;
        }) }
    {
        let id = GlobalId::new(number, heir.id.version()).unwrap();
        let script = match source {
            Some(place) => self.machine.threads()[place].script(),
            None => &[],
        };
        let thread = Declaration::with_script(alloc, id, heir.cpu, heir.space, script)?;
        self.machine.declare(thread)?;
        Ok(())
    }

    /// Whether a script of its own follows, in which no instruction has this name: else `BadLine` or
    /// `BadName`.
    pub fn may_label(&self, name: &[u8]) -> Result<(), TextFaultKind>
        ensures { result ≡ may_label self.now name.now }
    {
        if !self.has_script() {
            return Err(TextFaultKind::BadLine);
        }
        let is_taken = label_of(self.labels.as_slice(), name).is_some();
        if !self.may_name(name) || is_taken || self.labels.len() >= MOST_NAMES {
            return Err(TextFaultKind::BadName);
        }
        Ok(())
    }

    // The same, where a line names the instruction that follows.
    fn may_be_labelled(&self, label: Option<&[u8]>) -> Result<(), TextFaultKind>
        ensures { result ≡ may_be_labelled self.now (option_copied label.entry) }
    {
        match label {
            Some(name) => self.may_label(name),
            None => Ok(()),
        }
    }

    // Names the instruction that follows, where a line does.
    #[inline(always)]
    fn label(&mut self, label: Option<&'a [u8]>) -> Result<(), NoMemory>
        requires { 0 < length self.old.machine.threads }
        ensures { OnOk result (self.new ≡ with_label (option_copied label.entry) self.old) }
    {
        let at = self.machine.last_script_len();
        match label {
            Some(name) => keep_label(&mut self.labels, Label { name, at }),
            None => Ok(()),
        }
    }

    // A line that has a name alone, or nothing.
    fn label_line(&mut self, label: Option<&'a [u8]>) -> Result<(), TextFaultKind>
        ensures kept { IfErr result (λ kind. kind ≢ OutOfMemory → self.new ≡ self.old) }
        ensures leads { Leads result self.new (labelled (option_copied label.entry) self.old) }
    {
        if let Some(name) = label {
            self.may_label(name)?;
            self.label(label)?;
        }
        Ok(())
    }

    // Adds an instruction to the last thread, with its name.
    #[inline(always)]
    #[tactic(auto, unfolding(crate::specs::Statements::extend))]
    fn add(
        &mut self,
        line: usize,
        label: Option<&'a [u8]>,
        instr: &Instr,
        target: Option<Place<'a>>,
    ) -> Result<(), TextFaultKind>
        requires { 0 < length self.old.machine.threads }
        ensures kept { IfErr result (λ kind. kind ≢ OutOfMemory → self.new ≡ self.old) }
        ensures leads { Leads result self.new
            (said_line line
            (record { instr = instr_of instr.now; target = option_map place_of target.entry })
            (with_label (option_copied label.entry) self.old)) }
    {
        let at = self.machine.last_script_len();
        if at >= MOST_INSTRUCTIONS {
            return Err(TextFaultKind::TooManyInstructions);
        }
        self.label(label)?;
        self.machine.add_instruction(instr)?;
        keep_target(&mut self.targets, line, at, target)?;
        Ok(())
    }

    // An instruction of the last thread, with its name, whatever it is.
    #[inline(never)]
    #[tactic(auto, using(crate::proofs::Labelling::no_instruction, crate::proofs::Labelling::said_so))]
    fn any_instruction_line(
        &mut self,
        line: usize,
        label: Option<&'a [u8]>,
        name: &[u8],
        operands: Words<'a>,
    ) -> Result<(), TextFaultKind>
        requires script { has_script self.old ≡ true }
        requires label { may_be_labelled self.old (option_copied label) ≡ Ok tt }
        ensures kept { IfErr result (λ kind. kind ≢ OutOfMemory → self.new ≡ self.old) }
        ensures leads { Leads result self.new
            (labelled_instruction line (option_copied label.entry) name.now operands.entry self.old) }
    {
        let format = self.format;
        match &instruction(format, self.names.as_slice(), name, operands) {
            Ok(said) => self.add(line, label, &said.instr, said.target),
            Err(kind) => Err(*kind),
        }
    }

    // The instruction `end`, with its name.
    #[inline(always)]
    #[tactic(auto, unfolding(crate::specs::Inner::Second::judged_line))]
    fn end_line(
        &mut self,
        line: usize,
        label: Option<&'a [u8]>,
        mut operands: Words<'a>,
    ) -> Result<(), TextFaultKind>
        requires { 0 < length self.old.machine.threads }
        ensures kept { IfErr result (λ kind. kind ≢ OutOfMemory → self.new ≡ self.old) }
        ensures leads { Leads result self.new
            (judged_line line (option_copied label.entry) (without_target (end_of operands.entry))
            self.old) }
    {
        match operands.next() {
            None => self.add(line, label, &Instr::End, None),
            Some(_) => Err(TextFaultKind::BadLine),
        }
    }

    // A `jump` or `onerr`, with its name.
    #[inline(always)]
    #[tactic(auto, unfolding(crate::specs::Inner::Second::judged_line))]
    fn goes_to_line(
        &mut self,
        line: usize,
        label: Option<&'a [u8]>,
        instr: &Instr,
        operands: Words<'a>,
    ) -> Result<(), TextFaultKind>
        requires { 0 < length self.old.machine.threads }
        ensures kept { IfErr result (λ kind. kind ≢ OutOfMemory → self.new ≡ self.old) }
        ensures leads { Leads result self.new
            (judged_line line (option_copied label.entry)
            (goes_to (instr_of instr.now) operands.entry) self.old) }
    {
        let target = named_place(only(operands)?)?;
        self.add(line, label, instr, Some(target))
    }

    // An instruction that may name another, with its name. One whose words are a place alone is added
    // as it stands.
    #[tactic(auto, using(crate::proofs::Labelling::jump_so, crate::proofs::Labelling::on_error_so))]
    fn branch_line(
        &mut self,
        line: usize,
        label: Option<&'a [u8]>,
        name: &[u8],
        operands: Words<'a>,
    ) -> Result<(), TextFaultKind>
        requires script { has_script self.old ≡ true }
        requires label { may_be_labelled self.old (option_copied label) ≡ Ok tt }
        ensures kept { IfErr result (λ kind. kind ≢ OutOfMemory → self.new ≡ self.old) }
        ensures leads { Leads result self.new
            (labelled_instruction line (option_copied label.entry) name.now operands.entry self.old) }
    {
        if is(name, JUMP) {
            return self.goes_to_line(line, label, &Instr::Jump(0), operands);
        }
        if is(name, ON_ERROR) {
            return self.goes_to_line(line, label, &Instr::OnErr(0), operands);
        }
        self.any_instruction_line(line, label, name, operands)
    }

    // An instruction of the last thread, with its name. One that names no other is added as it
    // stands, since what may name another is large.
    #[tactic(auto, using(crate::proofs::Labelling::no_script, crate::proofs::Labelling::no_label, crate::proofs::Labelling::end_so, crate::proofs::Labelling::no_plain, crate::proofs::Labelling::plain_so))]
    fn instruction_line(
        &mut self,
        line: usize,
        label: Option<&'a [u8]>,
        name: &[u8],
        operands: Words<'a>,
    ) -> Result<(), TextFaultKind>
        ensures kept { IfErr result (λ kind. kind ≢ OutOfMemory → self.new ≡ self.old) }
        ensures leads { Leads result self.new
            (labelled_instruction line (option_copied label.entry) name.now operands.entry self.old) }
    {
        if !self.has_script() {
            return Err(TextFaultKind::BadLine);
        }
        self.may_be_labelled(label)?;
        if is(name, END) {
            return self.end_line(line, label, operands);
        }
        if begins_as_branch(name) {
            return self.branch_line(line, label, name, operands);
        }
        let format = self.format;
        match &plain(format, self.names.as_slice(), name, operands) {
            Ok(instr) => self.add(line, label, instr, None),
            Err(kind) => Err(*kind),
        }
    }

    // What a line says of names and threads. Only instructions have names.
    #[tactic(auto, unfolding(crate::specs::Second::Texts::second_thread_line))]
    fn read_words(
        &mut self,
        line: usize,
        alloc: Global,
        said: Said<'a>,
    ) -> Result<(), TextFaultKind>
        ensures kept { IfErr result (λ kind. kind ≢ OutOfMemory → self.new ≡ self.old) }
        ensures leads { Leads result self.new
            (second_thread_line line self.old (said_of said.entry)) }
    {
        let label = said.label;
        let mut words = said.words;
        let Some(name) = words.next() else {
            return self.label_line(label);
        };
        if is(name, THREAD) || is(name, NAME) {
            if label.is_some() {
                return Err(TextFaultKind::BadLine);
            }
            if is(name, THREAD) {
                return self.thread_line(alloc, words);
            }
            return self.name_line(words);
        }
        self.instruction_line(line, label, name, words)
    }

    // The machine, unless an instruction names one that its script does not have.
    fn ended(mut self) -> Result<Machine, TextFault>
        ensures { result ≡ unless_faulty (settled self.entry).machine (settled self.entry).missed }
    {
        self.settle();
        match self.missed {
            Some(fault) => Err(fault),
            None => Ok(self.machine),
        }
    }
}

// Whether a word begins as the first word of each instruction that names another does.
#[inline(always)]
fn begins_as_branch(word: &[u8]) -> bool
    ensures { result ≡ begins_as_branch word.now }
{
    match word.first() {
        Some(byte) => *byte == b'j' || *byte == b'o',
        None => false,
    }
}

// The words of a line that may name no instruction.
fn unlabelled(said: Said<'_>) -> Result<Words<'_>, TextFaultKind>
    ensures { result ≡ unlabelled_words (said_of said.entry) }
{
    if said.label.is_some() {
        return Err(TextFaultKind::BadLine);
    }
    Ok(said.words)
}

impl<'a> Stage<'a> {
    // Reads what a line says.
    #[tactic(auto, unfolding(crate::specs::Second::Texts::after_words))]
    fn read_said(&mut self, line: usize, alloc: Global, said: Said<'a>) -> Result<(), TextFaultKind>
        ensures kept { IfErr result
            (λ kind. kind ≢ OutOfMemory → stage_of self.new ≡ stage_of self.old) }
        ensures leads { Leads result (stage_of self.new)
            (after_words line (stage_of self.old) (said_of said.entry)) }
    {
        match self {
            Stage::Start => {
                let heading = format_line(unlabelled(said)?)?;
                *self = Stage::Processors(heading);
                Ok(())
            }
            Stage::Processors(heading) => {
                let cpus = processors_line(unlabelled(said)?)?;
                *self = Stage::Threads(Reading::new(alloc, *heading, cpus));
                Ok(())
            }
            Stage::Threads(reading) => reading.read_words(line, alloc, said),
        }
    }

    /// Reads the line of this number, or returns its fault. A faulty line leaves the stage
    /// unchanged; refused memory may not.
    #[tactic(auto, unfolding(crate::specs::Second::Texts::after_line))]
    pub fn read_line(
        &mut self,
        line: usize,
        alloc: Global,
        text: &'a [u8],
    ) -> Result<(), TextFaultKind>
        ensures kept { IfErr result
            (λ kind. kind ≢ OutOfMemory → stage_of self.new ≡ stage_of self.old) }
        ensures leads { Leads result (stage_of self.new)
            (after_line line (stage_of self.old) text.now) }
    {
        match line_said(text)? {
            None => Ok(()),
            Some(said) => self.read_said(line, alloc, said),
        }
    }

    /// Reads the line of this number, or returns its fault.
    pub(super) fn read_line_at(
        &mut self,
        line: usize,
        alloc: Global,
        text: &'a [u8],
    ) -> Result<(), TextFault>
        ensures { LeadsOn result (stage_of self.new)
            (judged_at line (after_line line (stage_of self.old) text.now) (λ stage. Ok stage)) }
    {
        match self.read_line(line, alloc, text) {
            Ok(()) => Ok(()),
            Err(kind) => Err(TextFault::at(line, kind)),
        }
    }

    /// The machine of a text that ends here, before the line of this number.
    pub fn ended(self, line: usize) -> Result<Machine, TextFault>
        ensures { result ≡ ended (stage_of self.entry) line }
    {
        match self {
            Stage::Threads(reading) => reading.ended(),
            Stage::Start | Stage::Processors(_) => {
                Err(TextFault::at(line, TextFaultKind::BadLine))
            }
        }
    }
}

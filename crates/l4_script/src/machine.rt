//! The machine that a text declares: its threads, and their scripts.
ghost use Rattle.std.specs.Prelude.{◌≡◌, ◌<◌, ◌≤◌, ◌+◌, ◌-◌, ◌∷◌, [], ◌++◌, length, map, false};
ghost use Rattle.std.specs.Prelude.{true, OnErr, OnOk, IfOk, IfSome, IsSome, ◌↔◌, slice_set};
ghost use Rattle.l4_model.specs.Machine.{place_of, most_processors, most_threads};
ghost use Rattle.l4_model.specs.Machine.{most_instructions};
ghost use Rattle.l4_core_model.specs.Runs.{IsMachine};
ghost use Rattle.l4_script.specs.Inner.Scripts.{instr_of};
ghost use Rattle.l4_script.specs.Machines.{is_taken, last_thread, machine_with, with_instruction};
ghost use Rattle.l4_script.specs.Machines.{with_last_script, with_thread, extended};
ghost use Rattle.l4_script.specs.Second.Texts.{placed_at};

use crate::instructions::Instr;
use crate::places::Places;
use l4_types::errors::NoMemory;
use l4_types::ids::GlobalId;
use std::alloc::Global;
use std::marker::Model;
use std::slice;

/// How many threads a machine has at most.
pub const MOST_THREADS: usize = 1024;

/// How many instructions a script has at most.
pub const MOST_INSTRUCTIONS: usize = 1024;

/// A declared thread: its id, the numbers of its processor and address space, and its script.
#[derive(Debug, Drop)]
pub struct Declaration {
    id: GlobalId,
    cpu: u8,
    space: u32,
    script: Vec<Instr>,
}

impl Model for Declaration {
    ghost use Rattle.std.specs.Prelude.{◌≤◌, length, map};
    ghost use Rattle.l4_model.specs.Machine.{Declaration as ModelDeclaration};

    ghost Value = { ModelDeclaration };

    ghost use Rattle.l4_script.specs.Inner.Scripts.{instr_of};

    ghost view = { λ d. record {
      id = d.id;
      cpu = d.cpu;
      space = d.space;
      script = map instr_of d.script.items;
    } };

    ghost use Rattle.l4_model.specs.Machine.{most_instructions};

    ghost invariant = { λ d. length d.script.items ≤ most_instructions };
}

impl Declaration {
    /// A thread with an empty script.
    pub(crate) fn new(alloc: Global, id: GlobalId, cpu: u8, space: u32) -> Declaration
        ensures { result ≡ record { id = id; cpu = cpu; space = space; script = [] } }
    {
        Declaration {
            id,
            cpu,
            space,
            script: Vec::new(alloc),
        }
    }

    /// A thread with a script, which is not too long.
    pub(crate) fn with_script(
        alloc: Global,
        id: GlobalId,
        cpu: u8,
        space: u32,
        script: &[Instr],
    ) -> Result<Declaration, NoMemory>
        requires { length script.now ≤ most_instructions }
        ensures { IfOk result (λ thread. thread ≡ record {
          id = id;
          cpu = cpu;
          space = space;
          script = map instr_of script.now;
        }) }
    {
        let mut thread = Declaration::new(alloc, id, cpu, space);
        thread.script = Vec::from_slice(alloc, script)?;
        Ok(thread)
    }

    // Its instruction at one place goes on at another.
    fn place(&mut self, at: usize, place: Option<u64>)
        ensures { self.new ≡ record self.old { script = placed_at at place self.old.script } }
    {
        if let Some(place) = place
            && at < self.script.len()
        {
            self.script[at].set_place(place);
        }
    }

    /// The thread's id.
    pub fn id(&self) -> GlobalId
        ensures { result ≡ self.now.id }
    {
        self.id
    }

    /// The number of the thread's processor, below the machine's number of processors.
    pub fn cpu(&self) -> u8
        ensures { result ≡ self.now.cpu }
    {
        self.cpu
    }

    /// The number of the thread's address space.
    pub fn space(&self) -> u32
        ensures { result ≡ self.now.space }
    {
        self.space
    }

    /// The thread's instructions, at most 1,024.
    pub fn script(&self) -> &[Instr]
        ensures value { map instr_of result.now ≡ self.now.script }
        ensures limit { length result.now ≤ most_instructions }
    {
        self.script.as_slice()
    }

    // Appends an instruction to the script.
    fn push(&mut self, instr: &Instr) -> Result<(), NoMemory>
        requires { length self.old.script < most_instructions }
        ensures ok { OnOk result (self.new ≡ with_instruction (instr_of instr.now) self.old) }
        ensures err { OnErr result (self.new ≡ self.old) }
    {
        self.script.extend_from_slice(slice::from_ref(instr))?;
        Ok(())
    }

    /// A copy.
    pub fn try_clone(&self, alloc: Global) -> Result<Declaration, NoMemory>
        ensures { IfOk result (λ copy. copy ≡ self.now) }
    {
        Ok(Declaration {
            id: self.id,
            cpu: self.cpu,
            space: self.space,
            script: Vec::from_slice(alloc, self.script.as_slice())?,
        })
    }
}

/// A machine of 1 to 16 processors: its profile, their number, and its threads in order of
/// declaration, at most 1,024. No thread number stands twice.
#[derive(Debug, Drop)]
pub struct Machine {
    retargeting: bool,
    cpus: u8,
    threads: Vec<Declaration>,
    // The places of the threads, by their numbers.
    places: Places,
}

impl Model for Machine {
    ghost use Rattle.l4_model.specs.Machine.{Machine as ModelMachine};

    ghost Value = { ModelMachine };

    ghost use Rattle.l4_script.specs.Machines.{AreFound, IsLawful, machine_with};

    ghost view = { λ m. machine_with m.retargeting m.cpus m.threads.items };

    ghost use Rattle.l4_script.specs.Inner.Places.{place_by};

    ghost invariant = { λ m. IsLawful (machine_with m.retargeting m.cpus m.threads.items)
        × AreFound (place_by m.places) (machine_with m.retargeting m.cpus m.threads.items) };
}

impl Machine {
    /// A machine of `cpus` processors, without threads.
    pub(crate) fn new(alloc: Global, retargeting: bool, cpus: u8) -> Machine
        requires some { 1 ≤ cpus }
        requires limit { cpus ≤ most_processors }
        ensures { result ≡ machine_with retargeting cpus [] }
    {
        Machine {
            retargeting,
            cpus,
            threads: Vec::new(alloc),
            places: Places::new(alloc),
        }
    }

    /// Whether its profile is 2, in which originators are retargeted.
    pub fn retargets(&self) -> bool
        ensures { result ≡ self.now.retargeting }
    {
        self.retargeting
    }

    /// Gives the prover what always holds of it; no code.
    #[inline(always)]
    pub fn facts(&self)
        ensures some { 1 ≤ self.now.cpus }
        ensures limit { self.now.cpus ≤ most_processors }
        ensures lawful { IsMachine self.now }
    {
        let _ = self.cpus();
    }

    /// The number of processors, 1 to 16.
    pub fn cpus(&self) -> u8
        ensures value { result ≡ self.now.cpus }
        ensures some { 1 ≤ result }
        ensures limit { result ≤ most_processors }
        ensures lawful { IsMachine self.now }
    {
        self.cpus
    }

    /// The threads in order of declaration, at most 1,024.
    pub fn threads(&self) -> &[Declaration]
        ensures value { result.now ≡ self.now.threads }
        ensures lawful { IsMachine self.now }
        ensures limit { length result.now ≤ most_threads }
    {
        self.threads.as_slice()
    }

    /// The place of a thread in the order of declaration, or None where it is not declared.
    pub fn place_of(&self, id: GlobalId) -> Option<usize>
        ensures { result ≡ place_of self.now id }
    {
        let place = self.places.get(id.number())?;
        if self.threads[place].id.version() == id.version() {
            Some(place)
        } else {
            None
        }
    }

    /// Whether a thread of this number is declared, with any version.
    pub fn has_number(&self, number: u32) -> bool
        ensures { result ≡ is_taken number self.now }
    {
        self.places.get(number).is_some()
    }

    // The length of the script of the thread that was declared last.
    pub(crate) fn last_script_len(&self) -> usize
        requires { 0 < length self.now.threads }
        ensures { result ≡ length (last_thread self.now).script }
    {
        let thread = &self.threads[self.threads.len() - 1];
        thread.script().len()
    }

    // Appends a thread.
    pub(crate) fn declare(&mut self, thread: Declaration) -> Result<(), NoMemory>
        requires room { length self.old.threads < most_threads }
        requires home { thread.cpu < self.old.cpus }
        requires fresh { is_taken thread.id.number self.old ≡ false }
        ensures ok { OnOk result (self.new ≡ with_thread thread self.old) }
        ensures err { OnErr result (self.new ≡ self.old) }
    {
        self.threads.reserve(1)?;
        let place = self.threads.len() as u16;
        self.places.insert(thread.id.number(), place)?;
        self.threads.push_reserved(thread);
        Ok(())
    }

    // Appends an instruction to the script of the thread that was declared last.
    #[inline(always)]
    pub(crate) fn add_instruction(&mut self, instr: &Instr) -> Result<(), NoMemory>
        requires some { 0 < length self.old.threads }
        requires room { length (last_thread self.old).script < most_instructions }
        ensures ok { OnOk result (self.new ≡ extended (instr_of instr.now) self.old) }
        ensures err { OnErr result (self.new ≡ self.old) }
    {
        let last = self.threads.len() - 1;
        let thread = &mut self.threads[last];
        thread.push(instr)
    }

    // The instruction at one place of the script that was declared last goes on at another.
    pub(crate) fn place_last(&mut self, at: usize, place: Option<u64>)
        requires { 0 < length self.old.threads }
        ensures { self.new ≡ with_last_script (placed_at at place (last_thread self.old).script)
            self.old }
    {
        let last = self.threads.len() - 1;
        let thread = &mut self.threads[last];
        thread.place(at, place);
    }

    /// A copy.
    pub fn try_clone(&self, alloc: Global) -> Result<Machine, NoMemory>
        ensures { IfOk result (λ copy. copy ≡ self.now) }
    {
        let mut threads = Vec::with_capacity(alloc, self.threads.len())?;
        for thread in &self.threads {
            threads.push(thread.try_clone(alloc)?)?;
        }
        Ok(Machine {
            retargeting: self.retargeting,
            cpus: self.cpus,
            threads,
            places: self.places.try_clone()?,
        })
    }
}

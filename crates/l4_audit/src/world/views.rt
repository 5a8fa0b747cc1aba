//! What a report says of a world.
ghost use Rattle.std.specs.Prelude.{◌≡◌, ◌++◌, IfOk, OnOk, map, filter_map};
ghost use Rattle.std.specs.Option.{option_to_list};
ghost use Rattle.l4_model.specs.History.{view};
ghost use Rattle.l4_types.specs.ReportView.{report_of_view};
ghost use Rattle.l4_audit.specs.Inner.Auditing.{waiting_send};
ghost use Rattle.l4_model.specs.Conditions.{found_by};
ghost use Rattle.l4_audit.specs.Waits.{is_expected, send_wait, wait_of, waiting_thread, waits_in};

use crate::found::accepts;
use crate::waits::Wait;
use crate::world::World;
use l4_thread::tcb::Tcb;
use l4_types::errors::NoMemory;
use l4_types::ids::{GlobalId, ThreadId};
use l4_types::reports::ThreadView;
use l4_types::step_ref::StepRef;
use l4_types::steps::Name;
use std::alloc::Global;

impl World<'_> {
    /// The report of each thread, in order of declaration.
    pub(crate) fn threads(&self, alloc: Global) -> Result<Vec<ThreadView>, NoMemory>
        ensures { IfOk result (λ views. map report_of_view views.items ≡
            view self.now.machine self.now.world) }
    {
        let mut views = Vec::new(alloc);
        for tcb in &self.threads {
            views.push(tcb.view())?;
        }
        Ok(views)
    }

    /// The sends among these that are undecided here, with their destinations.
    pub(crate) fn waiting(
        &self,
        alloc: Global,
        begun: &[Name],
    ) -> Result<Vec<(Name, ThreadId)>, NoMemory>
        ensures { IfOk result (λ sends. sends.items ≡
            filter_map (waiting_send self.now.machine self.now.world) begun.now) }
    {
        let mut sends = Vec::new(alloc);
        for name in begun {
            self.push_waiting(*name, &mut sends)?;
        }
        Ok(sends)
    }

    // Appends a send with its destination, if it is undecided here.
    fn push_waiting(&self, name: Name, sends: &mut Vec<(Name, ThreadId)>) -> Result<(), NoMemory>
        ensures { OnOk result (sends.new.items ≡ sends.old.items ++
            option_to_list (waiting_send self.now.machine self.now.world name)) }
    {
        if let Some(send) = self.waiting_send(name) {
            sends.push(send)?;
        }
        Ok(())
    }

    // A send with its destination, if it is undecided here.
    fn waiting_send(&self, name: Name) -> Option<(Name, ThreadId)>
        ensures { result ≡ waiting_send self.now.machine self.now.world name }
    {
        let pending = self.undecided(name)?;
        Some((name, pending.send().to()))
    }

    /// Each thread that waits, in order of declaration, with what it waits for.
    pub(crate) fn waits(&self, alloc: Global) -> Result<Vec<(GlobalId, Wait)>, NoMemory>
        ensures { IfOk result (λ waits. waits.items ≡
            waits_in self.now.machine self.now.world) }
    {
        let mut waits = Vec::new(alloc);
        for tcb in &self.threads {
            self.push_wait(tcb, &mut waits)?;
        }
        Ok(waits)
    }

    // Appends a thread, if it waits, with what it waits for.
    fn push_wait(&self, tcb: &Tcb, waits: &mut Vec<(GlobalId, Wait)>) -> Result<(), NoMemory>
        ensures { OnOk result (waits.new.items ≡ waits.old.items ++ option_to_list
            (waiting_thread self.now.machine self.now.world tcb.now.id tcb.now.thread)) }
    {
        if let Some(wait) = self.wait_of(tcb) {
            waits.push((tcb.id(), wait))?;
        }
        Ok(())
    }

    // What a thread waits for.
    fn wait_of(&self, tcb: &Tcb) -> Option<Wait>
        ensures { result ≡ wait_of self.now.machine self.now.world tcb.now.thread }
    {
        if let Some(send) = tcb.send() {
            return Some(self.send_wait(send.to(), send.message().shown()));
        }
        let receive = tcb.receiving().copied()?;
        Some(Wait::Receive(receive.from()))
    }

    // What the sender of a message that shows this sender waits for.
    fn send_wait(&self, to: ThreadId, shown: GlobalId) -> Wait
        ensures { result ≡ send_wait (is_expected self.now.machine shown
            (found_by self.now.machine self.now.world to)) to }
    {
        if self.is_expected(to, shown) {
            Wait::Arrival(to)
        } else {
            Wait::Send(to)
        }
    }

    // Whether a destination is in a receive phase that accepts a message that shows this sender.
    fn is_expected(&self, to: ThreadId, shown: GlobalId) -> bool
        ensures { result ≡ is_expected self.now.machine shown
            (found_by self.now.machine self.now.world to) }
    {
        let Some(receiver) = self.found_by(to) else {
            return false;
        };
        match receiver.receiving() {
            Some(receive) => accepts(self.machine, receive.from(), shown, receiver.id()),
            None => false,
        }
    }
}

//! What a processor does with a letter from another one.
ghost use Rattle.std.specs.Prelude.{◌≡◌, ◌<◌, ◌≤◌, ◌↔◌, ◌⊎◌, IfErr, IfOk, IfSome, IsErrOf};
ghost use Rattle.std.specs.Prelude.{IsSome, None, length};
ghost use Rattle.std.specs.Prelude.{OnErr, false};
ghost use Rattle.l4_model.specs.Effects.{obeyed};
ghost use Rattle.l4_core_model.specs.Local.{comes_to, after_decision};
ghost use Rattle.l4_core_model.specs.Mail.{handle};
ghost use Rattle.l4_core_model.specs.Turns.{can_stamp};
ghost use Rattle.l4_types.specs.Inner.LetterHeads.{letter_with, word_count};
ghost use Rattle.l4_types.specs.Inner.LetterView.{decision_of};
ghost use Rattle.l4_core.specs.Inner.Tasks.{does_asked, does_task, IsArrival, IsCaller};
ghost use Rattle.l4_core.specs.Inner.Tasks.{IsObedience, IsSplit, IsTask};
ghost use Rattle.l4_core.specs.declared.known.tasks.Task.TheVariants.{Arrive, Obey};
ghost use Rattle.l4_core.specs.Processor.{with_local};
ghost use Rattle.l4_core.specs.EventBuffers.{IsOpen};
ghost use Rattle.l4_core.specs.Inner.Turning.{Does, IsEvent};

use crate::event_buffer::EventBuffer;
use crate::known::tasks::Task;
use crate::processor::{Core, Fault};
use l4_history::sink::Sink;
use l4_thread::changes::Change;
use l4_types::ids::GlobalId;
use l4_types::letter_ref::LetterRef;
use l4_types::letters::{Content, Decision, LetterHead};
use l4_types::message_ref::MessageRef;
use l4_types::steps::{Name, OrderKind};

impl Core<'_> {
    /// Handles a letter from another processor. Returns the stamp of the event. Lawful, and without
    /// effect: a `Withdraw` of a send that waits here no more, and an `OrderDone` for a deleted
    /// caller.
    ///
    /// `Mail`: the letter is not lawful here. `Stamp`: else, where the next stamp would reach 2^62.
    /// Nothing is changed then. Condition: `buffer` has begun an event that has no step yet.
    #[inline(always)]
    pub fn handle_into<S: Sink>(
        &mut self,
        letter: &LetterRef<'_>,
        buffer: &mut EventBuffer<S>,
    ) -> Result<u64, Fault>
        requires open { IsOpen buffer.old }
        ensures ok { IfOk result (λ stamp.
            IsEvent
            (handle self.old.machine self.old.cpu self.old.local
            letter.now) self.old self.new buffer.old buffer.new stamp) }
        ensures err { OnErr result ((self.new ≡ self.old) × (buffer.new ≡ buffer.old)) }
        ensures faults { IfErr result (λ fault. (fault ≡ Fault.Mail) ⊎ (fault ≡ Fault.Stamp)) }
        ensures mail { IsErrOf result Fault.Mail ↔
            (handle self.old.machine self.old.cpu self.old.local letter.now ≡ None) }
        ensures stamp { IsErrOf result Fault.Stamp ↔
            (IsSome (handle self.old.machine self.old.cpu self.old.local letter.now) ×
            (can_stamp self.old.local letter.now.stamp ≡ false)) }
    {
        // Most letters are sends and decisions. Of these it is known here which task they are, so
        // none is written to memory to be matched again.
        let (head, words) = letter.parts();
        match &head.content {
            Content::Send {
                name,
                receiver,
                message,
                zero_timeout,
            } => {
                let task = self
                    .known
                    .arrival(name, *receiver, message, words, *zero_timeout);
                self.handle_task(head.stamp, task, buffer)
            }
            Content::Done { name, decision } => {
                let task = self.known.end(name, *decision);
                self.handle_task(head.stamp, task, buffer)
            }
            _ => self.handle_other(head, words, buffer),
        }
    }

    // Handles a letter of this head, whose message has these words.
    #[inline(never)]
    fn handle_other<S: Sink>(
        &mut self,
        head: &LetterHead,
        words: &[u64],
        buffer: &mut EventBuffer<S>,
    ) -> Result<u64, Fault>
        requires open { IsOpen buffer.old }
        requires count { length words.now ≡ word_count head.now.content }
        ensures ok { IfOk result (λ stamp.
            IsEvent
            (handle self.old.machine self.old.cpu self.old.local
            (letter_with words.now head.now)) self.old self.new buffer.old buffer.new stamp) }
        ensures err { OnErr result ((self.new ≡ self.old) × (buffer.new ≡ buffer.old)) }
        ensures faults { IfErr result (λ fault. (fault ≡ Fault.Mail) ⊎ (fault ≡ Fault.Stamp)) }
        ensures mail { IsErrOf result Fault.Mail ↔
            (handle self.old.machine self.old.cpu self.old.local
            (letter_with words.now head.now) ≡ None) }
        ensures stamp { IsErrOf result Fault.Stamp ↔
            (IsSome (handle self.old.machine self.old.cpu self.old.local
            (letter_with words.now head.now)) ×
            (can_stamp self.old.local head.now.stamp ≡ false)) }
    {
        let asked = self.known.task(&head.content, words);
        self.handle_task(head.stamp, asked, buffer)
    }

    // Handles a letter with this stamp that asks for this. None: it is not lawful here.
    #[inline(always)]
    fn handle_task<S: Sink>(
        &mut self,
        letter_stamp: u64,
        task: Option<Task<'_>>,
        buffer: &mut EventBuffer<S>,
    ) -> Result<u64, Fault>
        requires possible { IfSome task (λ task. IsTask task self.old) }
        requires open { IsOpen buffer.old }
        ensures ok { IfOk result (λ stamp.
            IsEvent
            (does_asked self.old.machine self.old.cpu self.old.local letter_stamp task.entry)
            self.old self.new buffer.old buffer.new stamp) }
        ensures err { OnErr result ((self.new ≡ self.old) × (buffer.new ≡ buffer.old)) }
        ensures faults { IfErr result (λ fault. (fault ≡ Fault.Mail) ⊎ (fault ≡ Fault.Stamp)) }
        ensures mail { IsErrOf result Fault.Mail ↔ (task.entry ≡ None) }
        ensures stamp { IsErrOf result Fault.Stamp ↔
            (IsSome task.entry × (can_stamp self.old.local letter_stamp ≡ false)) }
    {
        let Some(task) = task else {
            return Err(Fault::Mail);
        };
        if !self.can_stamp(letter_stamp) {
            return Err(Fault::Stamp);
        }
        let stamp = self.open(letter_stamp);
        self.do_task(task, buffer);
        Ok(stamp)
    }

    // Does what a letter asks for.
    #[inline(always)]
    fn do_task<S: Sink>(&mut self, task: Task<'_>, buffer: &mut EventBuffer<S>)
        requires possible { IsTask task self.old }
        requires room { 3 ≤ buffer.old.room }
        requires slots { 2 ≤ buffer.old.slots }
        ensures { Does
            (does_task self.old.machine self.old.cpu task.entry)
            self.old self.new buffer.old buffer.new }
    {
        match task {
            Task::Arrive {
                receiver,
                sender,
                name,
                to,
                message,
                zero_timeout,
            } => self.take_in(receiver, sender, name, to, message, zero_timeout, buffer),
            Task::End(place, decision) => self.end_split(place, decision),
            Task::Refuse(place, refusal) => self.refuse(place, refusal, buffer),
            Task::Leave => {}
            Task::NoteGone(place) => self.note_gone(place),
            Task::Obey {
                target,
                from,
                caller,
                what,
            } => self.obey_for(target, from, caller, what, buffer),
            Task::FinishOrder(place) => self.finish_order(place),
            Task::Retarget(originator, owed) => self.retarget(originator, &owed, buffer),
        }
    }

    // Takes in a send of a foreign thread, which has arrived for its receiver.
    #[inline(always)]
    fn take_in<S: Sink>(
        &mut self,
        receiver: usize,
        sender: usize,
        name: Name,
        to: GlobalId,
        message: MessageRef<'_>,
        zero_timeout: bool,
        buffer: &mut EventBuffer<S>,
    )
        requires possible { IsArrival self.old receiver sender message }
        requires room { 2 ≤ buffer.old.room }
        requires slots { 2 ≤ buffer.old.slots }
        ensures { Does (does_task self.old.machine self.old.cpu
            (Arrive receiver sender name to message.entry zero_timeout))
            self.old self.new buffer.old buffer.new }
    {
        self.known.facts();
        self.stand_in(sender, name, to, message, zero_timeout);
        self.arrive(receiver, sender, buffer);
    }

    // Ends the send of a thread of this processor, which was decided at its receiver's processor.
    #[inline(always)]
    fn end_split(&mut self, place: usize, decision: Decision)
        requires { IsSplit self.old place }
        ensures { self.new ≡ with_local self.old
            (comes_to place (after_decision
            (decision_of decision) self.old.local.clock) self.old.local) }
    {
        self.known.facts();
        self.apply_change(place, &Change::EndSend(decision));
    }

    // Obeys the order of a foreign thread, and notifies its processor.
    fn obey_for<S: Sink>(
        &mut self,
        target: usize,
        from: usize,
        caller: GlobalId,
        what: OrderKind,
        buffer: &mut EventBuffer<S>,
    )
        requires possible { IsObedience self.old target from }
        requires room { 3 ≤ buffer.old.room }
        requires slots { 2 ≤ buffer.old.slots }
        ensures { Does (does_task self.old.machine self.old.cpu
            (Obey target from caller what)) self.old self.new buffer.old buffer.new }
    {
        self.obey_order(caller, what, target, buffer);
        let letter = self.letter(Content::OrderDone(caller));
        buffer.post(self.known.cpu_of(from), letter);
    }

    // Ends the order of a thread of this processor, which was done.
    fn finish_order(&mut self, place: usize)
        requires { IsCaller self.old place }
        ensures { self.new ≡ with_local self.old (comes_to place obeyed self.old.local) }
    {
        self.known.facts();
        if self.known.is_deleted(place) {
            self.forget_order(place);
        } else {
            self.apply_change(place, &Change::Obey);
        }
    }
}

// A processor by itself, asked by hand: its turns, its clock, and letters as others would post
// them. The questions and its answers stand in rows of text.
//
// A row is a question; the rows after it that begin with a space are its answer. The first row
// makes the processor: `cpu` and its number. The other questions:
//
//     turn              the next turn
//     advance CLOCK     its clock advances
//     letter STAMP ..   a letter comes that was posted with this stamp
//     stands            whether there is something to do, the clock and the least deadline
//     can STAMP         whether it has a stamp for the event of a letter of this one, or 0
//
// Questions that begin with `? ` are alternatives, and end their section. Each is asked of a
// processor of its own, after the questions before them.
//
// An answer is `at` and the stamp of the event, a line for each step of the event, and `to CPU at
// STAMP ..` for each letter that the event posts. Or it says why nothing was done. A letter is
// spelled as in `read_content`. Rows that begin with `#` are remarks.
use l4_core::processor::values::Turn;
use l4_core::processor::{Core, Fault};
use l4_script::machine::Machine;
use l4_trace::lines::write_event;
use l4_trace::reading::read_events;
use l4_types::ids::GlobalId;
use l4_types::letter_ref::LetterRef;
use l4_types::letters::{Cause, Content, Decision, Letter, LetterHead, Refusal};
use l4_types::message_ref::MessageRef;
use l4_types::messages::Message;
use l4_types::owed::Owed;
use l4_types::steps::{Delivery, Event, Name, OrderKind, Step};
use l4_words::spelling::{push_name, push_thread};
use std::alloc::Global;
use std::process::Abort;
use std::str;

// A thread, as `1.1`.
fn id<R: Abort>(rt: &R, word: &str) -> GlobalId {
    l4_words::threads::thread(word.as_bytes()).expect(rt, "a thread")
}

// The name of a send, as `1.1#1`.
fn name<R: Abort>(rt: &R, word: &str) -> Name {
    l4_words::names::name(word.as_bytes()).expect(rt, "a send")
}

fn number<R: Abort>(rt: &R, word: &str) -> u64 {
    word.parse().expect(rt, "a number")
}

// The first word of a line, and the others.
fn split<'a, R: Abort>(rt: &R, words: &'a str) -> (&'a str, &'a str) {
    words.split_once(' ').expect(rt, "another word")
}

fn decision(word: &str) -> Option<Decision> {
    Some(match word {
        "Delivered" => Decision::Delivered,
        "Refused(TimedOut)" => Decision::Refused(Refusal::TimedOut),
        "Refused(Nobody)" => Decision::Refused(Refusal::Nobody),
        "Refused(Cancelled)" => Decision::Refused(Refusal::Cancelled),
        "Refused(Dropped)" => Decision::Refused(Refusal::Dropped),
        _ => return None,
    })
}

fn cause(word: &str) -> Option<Cause> {
    Some(match word {
        "ByTimeout" => Cause::ByTimeout,
        "ByCancel" => Cause::ByCancel,
        "ByDeletion" => Cause::ByDeletion,
        _ => return None,
    })
}

fn what(word: &str) -> Option<OrderKind> {
    Some(match word {
        "CancelSend" => OrderKind::CancelSend,
        "CancelReceive" => OrderKind::CancelReceive,
        "CancelBoth" => OrderKind::CancelBoth,
        "Delete" => OrderKind::Delete,
        _ => return None,
    })
}

// The delivery of a line of a trace.
fn delivery<R: AllocGlobal + Abort>(rt: &R, line: &str) -> Delivery {
    let line = format!(in rt.alloc(); "{line}\n").expect(rt, "memory");
    let mut steps = read_events(rt.alloc(), line.as_bytes()).expect(rt, "a line of a trace");
    match steps.pop() {
        Some(Step::Deliver(delivery)) => delivery,
        _ => panic!(rt; "no delivery: {line}"),
    }
}

fn done<R: Abort>(rt: &R, words: &str) -> Content {
    let (send, how) = split(rt, words);
    Content::Done {
        name: name(rt, send),
        decision: decision(how).expect(rt, "a decision"),
    }
}

fn withdraw<R: Abort>(rt: &R, words: &str) -> Content {
    let (send, words) = split(rt, words);
    let (receiver, why) = split(rt, words);
    Content::Withdraw {
        name: name(rt, send),
        receiver: id(rt, receiver),
        cause: cause(why).expect(rt, "a cause"),
    }
}

fn order<R: Abort>(rt: &R, words: &str) -> Content {
    let (caller, words) = split(rt, words);
    let (target, asked) = split(rt, words);
    Content::Order {
        caller: id(rt, caller),
        target: id(rt, target),
        what: what(asked).expect(rt, "an order"),
    }
}

fn retarget<R: Abort>(rt: &R, words: &str) -> Content {
    let (send, words) = split(rt, words);
    let (originator, words) = split(rt, words);
    let (old_partner, new_partner) = split(rt, words);
    Content::Retarget(Owed {
        send: name(rt, send),
        originator: id(rt, originator),
        old_partner: id(rt, old_partner),
        new_partner: id(rt, new_partner),
    })
}

// The content of a letter with this first word and these other words, but for that of a send that
// has begun.
fn told<R: Abort>(rt: &R, first: &str, words: &str) -> Content {
    match first {
        "done" => done(rt, words),
        "withdraw" => withdraw(rt, words),
        "gone" => Content::Gone(id(rt, words)),
        "order" => order(rt, words),
        "obeyed" => Content::OrderDone(id(rt, words)),
        "retarget" => retarget(rt, words),
        _ => panic!(rt; "no letter: {first}"),
    }
}

// The letter of a send that has begun.
fn read_send<R: AllocGlobal + Abort>(rt: &R, stamp: u64, line: &str, zero_timeout: bool) -> Letter {
    let delivery = delivery(rt, line);
    let content = Content::Send {
        name: delivery.name,
        receiver: delivery.receiver,
        message: MessageRef::from(&delivery.message).head(),
        zero_timeout,
    };
    let head = LetterHead { stamp, content };
    Letter::new(head, delivery.message.words()).expect(rt, "a letter with its message")
}

// A letter with this stamp:
//
//     waits LINE, now LINE    a send has begun, for ever or without time; the line is the one
//                             that a trace has where it is delivered
//     done SEND HOW
//     withdraw SEND RECEIVER WHY
//     gone THREAD
//     order CALLER TARGET WHAT
//     obeyed CALLER
//     retarget SEND ORIGINATOR OLD NEW
fn read_letter<R: AllocGlobal + Abort>(rt: &R, stamp: u64, text: &str) -> Letter {
    let (first, words) = split(rt, text);
    match first {
        "waits" => read_send(rt, stamp, words, false),
        "now" => read_send(rt, stamp, words, true),
        _ => {
            let content = told(rt, first, words);
            let head = LetterHead { stamp, content };
            Letter::new(head, &[]).expect(rt, "a letter without a message")
        }
    }
}

fn push_word<R: Abort>(rt: &R, out: &mut String, word: &str) {
    out.push_str(word).expect(rt, "memory");
}

// Appends the line of a step.
fn push_step<R: AllocGlobal + Abort>(rt: &R, out: &mut String, step: &Step) {
    let mut line = Vec::new(rt.alloc());
    write_event(step, &mut line).expect(rt, "memory");
    push_word(rt, out, str::from_utf8(line.as_slice()).expect(rt, "text"));
}

// Appends the delivery that a letter of a send leads to.
fn push_send<R: AllocGlobal + Abort>(
    rt: &R,
    out: &mut String,
    name: Name,
    receiver: GlobalId,
    message: Message,
) {
    let delivery = Delivery {
        name,
        receiver,
        message,
        cross: false,
    };
    push_step(rt, out, &Step::Deliver(delivery));
}

fn push_id<R: Abort>(rt: &R, out: &mut String, thread: GlobalId) {
    push_thread(out, thread).expect(rt, "memory");
}

// Appends a word and threads.
fn push_of_threads<R: Abort>(rt: &R, out: &mut String, word: &str, threads: &[GlobalId]) {
    push_word(rt, out, word);
    for thread in threads {
        push_id(rt, out, *thread);
    }
}

// Appends a word, the name of a send and threads.
fn push_of_send<R: Abort>(rt: &R, out: &mut String, word: &str, send: Name, threads: &[GlobalId]) {
    push_word(rt, out, word);
    push_name(out, send).expect(rt, "memory");
    push_of_threads(rt, out, "", threads);
}

// Appends the content of a letter, but for its last word and the end of the line.
fn push_subject<R: Abort>(rt: &R, out: &mut String, content: &Content) {
    match content {
        Content::Send { zero_timeout, .. } => {
            push_word(rt, out, if *zero_timeout { "now " } else { "waits " })
        }
        Content::Done { name, .. } => push_of_send(rt, out, "done", *name, &[]),
        Content::Withdraw { name, receiver, .. } => {
            push_of_send(rt, out, "withdraw", *name, &[*receiver])
        }
        Content::Gone(thread) => push_of_threads(rt, out, "gone", &[*thread]),
        Content::Order { caller, target, .. } => {
            push_of_threads(rt, out, "order", &[*caller, *target])
        }
        Content::OrderDone(caller) => push_of_threads(rt, out, "obeyed", &[*caller]),
        Content::Retarget(owed) => {
            let threads = [owed.originator, owed.old_partner, owed.new_partner];
            push_of_send(rt, out, "retarget", owed.send, &threads)
        }
    }
}

// How a send is decided, spelled as it is read.
fn decision_word(decision: Decision) -> &'static str {
    match decision {
        Decision::Delivered => " Delivered",
        Decision::Refused(Refusal::TimedOut) => " Refused(TimedOut)",
        Decision::Refused(Refusal::Nobody) => " Refused(Nobody)",
        Decision::Refused(Refusal::Cancelled) => " Refused(Cancelled)",
        Decision::Refused(Refusal::Dropped) => " Refused(Dropped)",
    }
}

fn cause_word(cause: Cause) -> &'static str {
    match cause {
        Cause::ByTimeout => " ByTimeout",
        Cause::ByCancel => " ByCancel",
        Cause::ByDeletion => " ByDeletion",
    }
}

fn order_kind_word(what: OrderKind) -> &'static str {
    match what {
        OrderKind::CancelSend => " CancelSend",
        OrderKind::CancelReceive => " CancelReceive",
        OrderKind::CancelBoth => " CancelBoth",
        OrderKind::Delete => " Delete",
    }
}

// The last word of a letter's content, if it is no name and no thread, with the space before it.
fn last_word(content: &Content) -> &'static str {
    match content {
        Content::Done { decision, .. } => decision_word(*decision),
        Content::Withdraw { cause, .. } => cause_word(*cause),
        Content::Order { what, .. } => order_kind_word(*what),
        _ => "",
    }
}

// Appends the line of a letter's content, spelled as it is read.
fn push_content<R: AllocGlobal + Abort>(rt: &R, out: &mut String, letter: &LetterRef<'_>) {
    let (head, words) = letter.parts();
    push_subject(rt, out, &head.content);
    if let Content::Send {
        name,
        receiver,
        message,
        ..
    } = &head.content
    {
        let message = message.with(words).to_message();
        return push_send(rt, out, *name, *receiver, message);
    }
    push_word(rt, out, last_word(&head.content));
    push_word(rt, out, "\n");
}

// Appends the letters that an event posts.
fn push_letters<R: AllocGlobal + Abort>(rt: &R, out: &mut String, letters: &[(u8, Letter)]) {
    for (cpu, letter) in letters {
        write!(out, "  to {cpu} at {} ", letter.stamp()).expect(rt, "memory");
        push_content(rt, out, &letter.borrowed());
    }
}

// Appends the steps of an event.
fn push_steps<R: AllocGlobal + Abort>(rt: &R, out: &mut String, steps: &[Step]) {
    for step in steps {
        push_word(rt, out, "  ");
        push_step(rt, out, step);
    }
}

// Appends the steps and letters of an event.
fn push_event<R: AllocGlobal + Abort>(
    rt: &R,
    out: &mut String,
    event: &Event,
    letters: &[(u8, Letter)],
) {
    writeln!(out, "  at {}", event.stamp).expect(rt, "memory");
    push_steps(rt, out, event.steps.as_slice());
    push_letters(rt, out, letters);
}

// Appends why nothing was done.
fn push_fault<R: Abort>(rt: &R, out: &mut String, fault: Fault) {
    writeln!(out, "  {fault:?}").expect(rt, "memory");
}

// Appends what a processor does with a letter.
fn push_handled<R: AllocGlobal + Abort>(
    rt: &R,
    out: &mut String,
    core: &mut Core<'_>,
    letter: &str,
) {
    let (stamp, text) = split(rt, letter);
    match core.handle(&read_letter(rt, number(rt, stamp), text)) {
        Ok((event, letters)) => push_event(rt, out, &event, letters.as_slice()),
        Err(fault) => push_fault(rt, out, fault),
    }
}

// Takes the next turn, if a stamp is left for it.
fn next_turn(core: &mut Core<'_>) -> Option<Turn> {
    if !core.can_stamp(0) {
        return None;
    }
    Some(core.turn())
}

// Appends what the next turn does.
fn push_turn<R: AllocGlobal + Abort>(rt: &R, out: &mut String, core: &mut Core<'_>) {
    match next_turn(core) {
        Some(Turn::Did { event, letters }) => push_event(rt, out, &event, letters.as_slice()),
        Some(Turn::Idle) => push_word(rt, out, "  idle\n"),
        None => push_fault(rt, out, Fault::Stamp),
    }
}

// Appends what a processor does when its clock advances.
fn push_advanced<R: AllocGlobal + Abort>(
    rt: &R,
    out: &mut String,
    core: &mut Core<'_>,
    clock: u64,
) {
    match core.advance(clock) {
        Ok(event) => push_event(rt, out, &event, &[]),
        Err(fault) => push_fault(rt, out, fault),
    }
}

// Appends how a processor stands.
fn push_standing<R: Abort>(rt: &R, out: &mut String, core: &Core<'_>) {
    let busy = if core.busy() { "busy" } else { "done" };
    let deadline = core.least_deadline();
    writeln!(out, "  {busy} {} {deadline:?}", core.clock()).expect(rt, "memory");
}

/// Appends the answer to a question.
pub(crate) fn push_answer<R: AllocGlobal + Abort>(
    rt: &R,
    out: &mut String,
    core: &mut Core<'_>,
    question: &str,
) {
    let (word, rest) = question.split_once(' ').unwrap_or((question, ""));
    match word {
        "turn" => push_turn(rt, out, core),
        "letter" => push_handled(rt, out, core, rest),
        "advance" => push_advanced(rt, out, core, number(rt, rest)),
        "stands" => push_standing(rt, out, core),
        "#" => {}
        "can" => {
            let can = core.can_stamp(number(rt, rest));
            writeln!(out, "  {can}").expect(rt, "memory");
        }
        _ => panic!(rt; "no question: {question}"),
    }
}

// Appends the questions of these rows, each with the answer that it gets.
fn push_answers<R: AllocGlobal + Abort>(rt: &R, out: &mut String, core: &mut Core<'_>, rows: &str) {
    for row in rows.lines() {
        if !row.is_empty() && !row.starts_with(' ') {
            writeln!(out, "{row}").expect(rt, "memory");
            push_answer(rt, out, core, row);
        }
    }
}

/// The processor of this number. None if the machine has none, or memory is refused.
pub(crate) fn processor_of<'m>(alloc: Global, machine: &'m Machine, cpu: u8) -> Option<Core<'m>> {
    if cpu >= machine.cpus() {
        return None;
    }
    Core::new(alloc, machine, cpu).ok()
}

// The processor that a first row names.
fn named<'m, R: AllocGlobal + Abort>(rt: &R, machine: &'m Machine, row: &str) -> Core<'m> {
    let cpu = row.strip_prefix("cpu ").expect(rt, "a first row");
    let cpu = cpu.parse().expect(rt, "a number");
    processor_of(rt.alloc(), machine, cpu).expect(rt, "a processor")
}

// The questions of these rows, each with the answer that it gets.
fn answered<R: AllocGlobal + Abort>(rt: &R, machine: &Machine, rows: &str) -> String {
    let (first, rows) = rows.split_once('\n').expect(rt, "a first row");
    let mut core = named(rt, machine, first);
    let mut out = format!(in rt.alloc(); "{first}\n").expect(rt, "memory");
    push_answers(rt, &mut out, &mut core, rows);
    out
}

// The machine answers the questions of these rows as the rows say.
fn ask_rows<R: AllocGlobal + Abort>(rt: &R, machine: &Machine, wanted: &str) {
    let said = answered(rt, machine, wanted);
    let is_wanted = said.as_str().trim_end() == wanted.trim_end();
    assert!(rt; is_wanted, "wanted:\n{wanted}\nanswered:\n{said}");
}

// The machine answers the questions of a section as it says, with each of its alternatives.
fn ask_section<R: AllocGlobal + Abort>(rt: &R, machine: &Machine, section: &str) {
    let (before, alternatives) = section.split_once("\n? ").unwrap_or((section, ""));
    for alternative in alternatives.split("\n? ") {
        let wanted = format!(in rt.alloc(); "{before}\n{alternative}").expect(rt, "memory");
        ask_rows(rt, machine, wanted.as_str());
    }
}

/// The machine of a text answers the questions of these rows as the rows say. An empty row ends a
/// section; each section is asked by itself.
pub(crate) fn ask<R: AllocGlobal + Abort>(rt: &R, text: &str, rows: &str) {
    let machine = Machine::parse(rt.alloc(), text.as_bytes()).expect(rt, "a machine");
    for section in rows.split("\n\n") {
        ask_section(rt, &machine, section);
    }
}

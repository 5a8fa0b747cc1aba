//! The threads that a list names.
ghost use Rattle.std.specs.Prelude.{◌≡◌, ◌⊎◌, ◌∷◌, [], ◌++◌, IfOk, IfErr, OnOk, Ok, Err};
ghost use Rattle.std.specs.Option.{option_copied};
ghost use Rattle.l4_chart.specs.Threads.{items_left, named_thread, threads_of};
ghost use Rattle.l4_chart.specs.declared.threads.ThreadsFault.TheVariants.{NoMemory as OutOfMemory};
ghost use Rattle.l4_chart.specs.declared.threads.ThreadsFault.TheVariants.{Item as FaultyItem};
ghost use Rattle.l4_chart.specs.Inner.ThreadFaults.{IsThreadsFault};

use l4_script::machine::Machine;
use l4_types::errors::NoMemory;
use l4_types::ids::GlobalId;
use l4_words::lines::split_once;
use l4_words::threads::thread;
use std::alloc::Global;

/// Why a list names no threads.
#[derive(Clone, Copy, Debug, PartialEq, Eq)]
pub enum ThreadsFault {
    /// Memory was refused.
    NoMemory,
    /// This item, counted from 1, is the first that is the id of no thread of the machine.
    Item(usize),
}

impl From<NoMemory> for ThreadsFault {
    ghost from_gives = { λ _ fault. fault ≡ OutOfMemory };

    fn from(_error: NoMemory) -> ThreadsFault {
        ThreadsFault::NoMemory
    }
}

// The first item of a list, and what is left behind the comma that follows it.
fn first_item(list: &[u8]) -> (&[u8], Option<&[u8]>)
    ensures { items_left (Some list.now) ≡ result.0.now ∷ items_left (option_copied result.1) }
{
    match split_once(b',', list) {
        Some((item, rest)) => (item, Some(rest)),
        None => (list, None),
    }
}

// The thread of an item, if it is declared.
fn named_thread(machine: &Machine, item: &[u8]) -> Option<GlobalId>
    ensures { result ≡ named_thread machine.now item.now }
{
    let id = thread(item)?;
    let is_declared = machine.place_of(id).is_some();
    is_declared.then_some(id)
}

fn push(threads: &mut Vec<GlobalId>, id: GlobalId) -> Result<(), NoMemory>
    ensures { OnOk result (threads.new.items ≡ threads.old.items ++ id ∷ []) }
{
    threads.push(id)?;
    Ok(())
}

/// The threads of a list, `N.V` with commas between them, in its order. Each has to be declared.
///
/// `NoMemory`: memory was refused, whatever the list says.
pub fn threads_of(
    alloc: Global,
    machine: &Machine,
    list: &str,
) -> Result<Vec<GlobalId>, ThreadsFault>
    ensures ok { IfOk result (λ threads. threads_of machine.now list.now ≡ Ok threads.items) }
    ensures err { IfErr result (IsThreadsFault (threads_of machine.now list.now)) }
{
    let mut threads = Vec::new(alloc);
    let mut rest = Some(list.as_bytes());
    'items: while let Some(items) = rest {
        let (item, others) = first_item(items);
        match named_thread(machine, item) {
            Some(id) => push(&mut threads, id)?,
            None => return Err(ThreadsFault::Item(threads.len() + 1)),
        }
        rest = others;
    }
    Ok(threads)
}

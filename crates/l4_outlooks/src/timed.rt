//! What is known of the times of every machine.
ghost use Rattle.std.specs.Prelude.{map};
ghost use Rattle.std.specs.List.{AllByRecursion};
ghost use Rattle.l4_script.specs.Inner.Scripts.{instr_of};
ghost use Rattle.l4_worlds.specs.Histories.{IsShortIn, IsTimed};

use l4_script::instructions::Instr;
use l4_script::machine::Machine;

/// Tells the prover that each thread has a processor of the machine, and each period of a script is
/// one that a time has.
pub fn know_times(machine: &Machine)
    ensures { IsTimed machine.now }
{
    let threads = machine.threads();
    for declared in threads {
        know_script(declared.script());
    }
}

fn know_script(script: &[Instr])
    ensures { AllByRecursion IsShortIn (map instr_of script.now) }
{
    for instr in script {
        know_instruction(instr);
    }
}

fn know_instruction(instr: &Instr)
    ensures { IsShortIn (instr_of instr.now) }
{
    if let Instr::Ipc(ipc) = *instr {
        let _send = ipc.send_period();
        let _receive = ipc.receive_period();
    }
}

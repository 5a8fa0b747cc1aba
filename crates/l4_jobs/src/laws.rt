//! Laws of what is printed: of records, of traces, and of faults.
ghost use Rattle.std.specs.Prelude.{◌≡◌, ℕ, List, Some, Option};
ghost use Rattle.l4_commands.specs.Files.{list_name};
ghost use Rattle.l4_commands.specs.declared.job.Job.{Job as AJob};
ghost use Rattle.l4_commands.specs.declared.job.Printed.{Printed};
ghost use Rattle.l4_commands.specs.declared.job.TheConstants.{TRACE_ALONE};
ghost use Rattle.l4_expect.specs.Expected.{Expected};
ghost use Rattle.l4_json.specs.Lines.{lines_told};
ghost use Rattle.l4_machine.specs.Outcomes.{Findings, IsTrueOf};
ghost use Rattle.l4_model.specs.Machine.{Machine as ModelMachine};
ghost use Rattle.l4_script.specs.Versions.{machine_of_text};
ghost use Rattle.l4_jobs.specs.Inputs.{gives_one};
ghost use Rattle.l4_jobs.specs.Jobs.{IsDoneFor, IsFaultFor};
ghost use Rattle.l4_jobs.specs.Outputs.{Output};
ghost use Rattle.l4_jobs.specs.Records.{IsRepeatedBy};
ghost use Rattle.l4_jobs.specs.Runs.{IsRunDone, IsWritten};
ghost use Rattle.l4_jobs.specs.Schedules.{IsReplayAsked, IsRunAsked};
ghost use Rattle.l4_jobs.specs.Traces.{IsTraceThatPasses, objects_alone};
ghost use Rattle.l4_jobs.specs.declared.fault.Fault.{Fault as AFault};

/// On the machine of a recorded run or replay, a replay of its record prints exactly what that
/// printed, and ends with its status.
pub fn law_recorded()
    ensures run { (printed : Printed) (text : List ℕ) (m : ModelMachine) (turns : ℕ)
        (name : List ℕ) (expected : Option (List Expected)) (o : Output) →
        IsRunDone printed text m (IsRunAsked m turns) (Some name) expected o →
        (items : List ℕ) × (o.list ≡ Some (name, items)) ×
        ((list other : List ℕ) → list_name list ≡ Some other →
        IsRepeatedBy printed text m list items expected o) }
    ensures replay { (printed : Printed) (text : List ℕ) (m : ModelMachine) (rest : Option ℕ)
        (asked read : List ℕ) (name : List ℕ) (expected : Option (List Expected)) (o : Output) →
        IsRunDone printed text m (IsReplayAsked m rest asked read) (Some name) expected o →
        (items : List ℕ) × (o.list ≡ Some (name, items)) ×
        ((list other : List ℕ) → list_name list ≡ Some other →
        IsRepeatedBy printed text m list items expected o) }
{}

/// A trace that is printed of outcomes which are true of a machine is read back as a history of the
/// machine, and passes its audit.
pub fn law_trace_passes()
    ensures { (text : List ℕ) (m : ModelMachine) (o : Findings) (lines : List ℕ) → IsTrueOf m o →
        IsWritten TRACE_ALONE text m o lines → IsTraceThatPasses m o lines }
{}

/// The objects of such a trace tell the very lines of a trace that does so, whatever else they tell.
pub fn law_objects_pass()
    ensures { (text : List ℕ) (m : ModelMachine) (o : Findings) (lines : List ℕ) → IsTrueOf m o →
        IsWritten objects_alone text m o lines → IsTraceThatPasses m o (lines_told lines) }
{}

/// A job that has a fault for a text, a trace or a list, and expectations comes to nothing for
/// them.
pub fn law_faulty()
    ensures { (job : AJob) (text read asked : List ℕ) (o : Output) (fault : AFault) →
        IsDoneFor job text (machine_of_text text) (gives_one read) (gives_one asked) o →
        IsFaultFor job (machine_of_text text) (gives_one read) (gives_one asked) fault → ⊥ }
{}

//! What is written is read back, and the first fault that is listed is the one that is returned.
ghost use Rattle.std.specs.Prelude.{◌≡◌, ◌≤◌, ℕ, List, Ok, None};
ghost use Rattle.l4_model.specs.Machine.{Machine, most_processors};
ghost use Rattle.l4_core_model.specs.Schedules.{Entry};
ghost use Rattle.l4_replay.specs.Entries.{entries_fault, fault_of, most_entries};
ghost use Rattle.l4_schedules.specs.Faulty.{fault_in, file_faults, first_in, list_faults};
ghost use Rattle.l4_schedules.specs.InFiles.{schedule_in_file};
ghost use Rattle.l4_schedules.specs.Items.{schedule_of};
ghost use Rattle.l4_schedules.specs.Written.{recorded_text, schedule_text};

/// Entries of a machine that are written are read back as the same entries. These are at most
/// 1,000,000 in a list, and at most 1,000,015 in a file.
pub fn law_read_back()
    ensures list { (m : Machine) (entries : List Entry) → m.cpus ≤ most_processors →
        fault_of most_entries m entries ≡ None →
        schedule_of m (schedule_text entries) ≡ Ok entries }
    ensures file { (m : Machine) (entries : List Entry) → m.cpus ≤ most_processors →
        entries_fault m entries ≡ None →
        schedule_in_file m (recorded_text entries) ≡ Ok entries }
{}

/// The first fault that is listed for a list is the one for which its replay is refused. A list
/// that spells a schedule has no fault.
pub fn law_first_fault()
    ensures list { (m : Machine) (list : List ℕ) →
        first_in (list_faults m list) ≡ fault_in (schedule_of m list) }
    ensures file { (m : Machine) (text : List ℕ) →
        first_in (file_faults m text) ≡ fault_in (schedule_in_file m text) }
{}

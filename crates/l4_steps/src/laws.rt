//! What holds of every session, and what its list is good for.
ghost use Rattle.std.specs.Prelude.{◌≡◌, ◌≤◌, ◌++◌, ◌∷◌, [], Ok, List, is_some, length, true, ℕ};
ghost use Rattle.l4_model.specs.Machine.{Machine, most_processors};
ghost use Rattle.l4_core_model.specs.Schedules.{Entry, replay_entries};
ghost use Rattle.l4_chart.specs.Listings.{Listing};
ghost use Rattle.l4_chart.specs.declared.whole.TextForm.{TextForm};
ghost use Rattle.l4_machine.specs.Outcomes.{Findings, IsOutcomeOf};
ghost use Rattle.l4_reports.specs.ReportLines.{report_text};
ghost use Rattle.l4_schedules.specs.Items.{schedule_of};
ghost use Rattle.l4_schedules.specs.Written.{schedule_text};
ghost use Rattle.l4_steps.specs.Possible.{next_behind};
ghost use Rattle.l4_steps.specs.Replies.{goes_back, reply_to, report_of};
ghost use Rattle.l4_steps.specs.Sessions.{IsSession};

/// The entries of a session are a session at the opening, and behind every line. Each of them was
/// possible where it stands. So many entries back stands the session that was there.
pub fn law_session()
    ensures opening { (m : Machine) → IsSession m [] }
    ensures kept { (m : Machine) (listing : Listing) (form : TextForm) (es : List Entry)
        (line : List ℕ) → IsSession m es → IsSession m (reply_to m listing form es line).entries }
    ensures possible { (m : Machine) (before : List Entry) (e : Entry) (after : List Entry) →
        IsSession m (before ++ e ∷ after) → is_some (next_behind m before e) ≡ true }
    ensures back { (m : Machine) (es more : List Entry) →
        (goes_back m (es ++ more) (length more)).entries ≡ es }
{}

/// The list that a session tells is read back as its entries, so that a replay of it has the history
/// of the session. The report that it tells is that of each outcome of this replay.
pub fn law_replay()
    ensures list { (m : Machine) (es : List Entry) → m.cpus ≤ most_processors → IsSession m es →
        schedule_of m (schedule_text es) ≡ Ok es }
    ensures report { (m : Machine) (es : List Entry) (o : Findings) →
        IsOutcomeOf m (replay_entries m es) o →
        report_of m (replay_entries m es) ≡ report_text o.threads o.waiting o.ending }
{}

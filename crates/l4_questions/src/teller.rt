//! Who is told the endings of an answer while they are searched for.
ghost use Rattle.std.specs.Prelude.{◌≡◌, ◌++◌, [], ℕ, Bool, List, MatchResult, true, false};
ghost use Rattle.l4_questions.specs.Told.{MayAppend};
ghost use Rattle.l4_questions.specs.declared.question.QuestionFault.TheVariants.{NoMemory as OutOfMemory};
ghost use Rattle.l4_questions.specs.declared.teller.TellFault.TheVariants.{NoAnswer as NoAnswerFor};

use crate::question::QuestionFault;
use l4_types::errors::NoMemory;

/// Not all of what it was told was taken.
#[derive(Clone, Copy, Debug, PartialEq, Eq)]
pub struct NotTold;

/// Why an answer was not told to its end.
#[derive(Clone, Copy, Debug, PartialEq, Eq)]
pub enum TellFault {
    /// The question has no answer, or memory was refused.
    NoAnswer(QuestionFault),
    /// Whoever is told took not all.
    NotTold,
}

impl From<QuestionFault> for TellFault {
    ghost from_gives = { λ fault told. told ≡ NoAnswerFor fault };

    fn from(fault: QuestionFault) -> TellFault {
        TellFault::NoAnswer(fault)
    }
}

impl From<NoMemory> for TellFault {
    ghost from_gives = { λ _ told. told ≡ NoAnswerFor OutOfMemory };

    fn from(_: NoMemory) -> TellFault {
        TellFault::NoAnswer(QuestionFault::NoMemory)
    }
}

/// Who is told the endings of an answer, of each as soon as it is found.
pub trait Teller {
    /// What telling these bytes may do to it. `all` says whether all of them were taken.
    ghost takes: { (old new : Self) → (bytes : List ℕ) → (all : Bool) → Type 0 };

    /// Tells the lines of one ending.
    ///
    /// `NotTold`: not all of them were taken. Nothing is told after that.
    fn tell(&mut self, lines: &[u8]) -> Result<(), NotTold>
        ensures { MatchResult result (λ _. takes self.old self.new lines.now true)
            (λ _. takes self.old self.new lines.now false) };

    /// To be told nothing changes nothing.
    ghost nothing: { (x : Self) → takes x x [] true };

    /// Who is told bytes and then others is told all of them.
    ghost joined: { (a b c : Self) (front back : List ℕ) (all : Bool) →
        takes a b front true → takes b c back all → takes a c (front ++ back) all };
}

// It keeps the lines.
impl Teller for Vec<u8> {
    ghost use Rattle.std.proofs.Common.{sym, append-nil};
    ghost use Rattle.l4_questions.specs.Told.{MayAppend};
    ghost use Rattle.l4_questions.specs.Inner.ToldLaws.{appended_both};

    ghost takes = { λ old new bytes all. MayAppend old.items new.items bytes all };

    fn tell(&mut self, lines: &[u8]) -> Result<(), NotTold> {
        match self.extend_from_slice(lines) {
            Ok(()) => Ok(()),
            Err(_) => Err(NotTold),
        }
    }

    ghost nothing = { λ x. sym (append-nil x.items) };

    ghost joined = { λ a b c front back all one two.
        appended_both a.items b.items c.items front back all one two };
}

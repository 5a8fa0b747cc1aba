//! Which threads may rest where they would be stuck.
ghost use Rattle.std.specs.Prelude.{◌≡◌};
ghost use Rattle.std.specs.Option.{option_copied};
ghost use Rattle.l4_questions.specs.Resting.{counts, may_rest, names};

use crate::question::Question;
use l4_types::ids::GlobalId;
use l4_words::threads::thread;

fn names(id: GlobalId, item: &[u8]) -> bool
    ensures { result ≡ names id item.now }
{
    match thread(item) {
        Some(named) => named == id,
        None => false,
    }
}

fn may_rest(rests: Option<&str>, id: GlobalId) -> bool
    ensures { result ≡ may_rest (option_copied rests.entry) id }
{
    match rests {
        Some(list) => list
            .as_bytes()
            .split(|byte| *byte == b',')
            .any(|item| names(id, item)),
        None => false,
    }
}

/// Whether a question counts this thread where it is stuck.
pub(crate) fn counts(question: &Question<'_>, id: GlobalId) -> bool
    ensures { result ≡ counts question.now id }
{
    !may_rest(question.rests, id)
}

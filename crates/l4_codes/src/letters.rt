//! Letters.
ghost use Rattle.std.specs.Prelude.{◌≡◌, OnOk, length};
ghost use Rattle.l4_states.specs.Inner.Codes.{cause_code, content_code, owed_code, refusal_code};
ghost use Rattle.l4_states.specs.Inner.Codes.{result_code};
ghost use Rattle.l4_types.specs.Inner.LetterHeads.{content_with, word_count};
ghost use Rattle.l4_types.specs.Inner.LetterView.{cause_of_withdrawal, decision_of};
ghost use Rattle.l4_types.specs.Inner.LetterView.{refusal_of_send};
ghost use Rattle.l4_types.specs.Inner.OwedView.{owed_of};
ghost use Rattle.l4_codes.specs.Inner.Written.{Writes};

use crate::code::Code;
use crate::ids::{put_global, put_name};
use crate::messages::put_message;
use crate::threads::put_order_kind;
use l4_types::letter_ref::LetterRef;
use l4_types::letters::{Cause, Content, Decision, Refusal};
use l4_types::owed::Owed;
use std::alloc::AllocError;

/// Appends an owed retarget.
///
/// `AllocError`: memory was refused.
pub fn put_owed(code: &mut Code, owed: &Owed) -> Result<(), AllocError>
    ensures { OnOk result (Writes (owed_code (owed_of owed.now)) code.old code.new) }
{
    put_name(code, owed.send)?;
    put_global(code, owed.originator)?;
    put_global(code, owed.old_partner)?;
    put_global(code, owed.new_partner)
}

// Appends how a send is refused.
fn put_refusal(code: &mut Code, refusal: Refusal) -> Result<(), AllocError>
    ensures { OnOk result (Writes (refusal_code (refusal_of_send refusal)) code.old code.new) }
{
    match refusal {
        Refusal::TimedOut => code.put(0),
        Refusal::Nobody => code.put(1),
        Refusal::Cancelled => code.put(2),
        Refusal::Dropped => code.put(3),
    }
}

// Appends how a send is decided.
fn put_decision(code: &mut Code, decision: Decision) -> Result<(), AllocError>
    ensures { OnOk result (Writes (result_code (decision_of decision)) code.old code.new) }
{
    match decision {
        Decision::Delivered => code.put(0),
        Decision::Refused(refusal) => {
            code.put(1)?;
            put_refusal(code, refusal)
        }
    }
}

// Appends why a send is withdrawn.
fn put_cause(code: &mut Code, cause: Cause) -> Result<(), AllocError>
    ensures { OnOk result (Writes (cause_code (cause_of_withdrawal cause)) code.old code.new) }
{
    match cause {
        Cause::ByTimeout => code.put(0),
        Cause::ByCancel => code.put(1),
        Cause::ByDeletion => code.put(2),
    }
}

/// Appends the content of a letter.
///
/// `AllocError`: memory was refused.
pub fn put_letter(code: &mut Code, letter: &LetterRef<'_>) -> Result<(), AllocError>
    ensures { OnOk result (Writes (content_code letter.now.content) code.old code.new) }
{
    let (head, words) = letter.parts();
    put_content(code, &head.content, words)
}

// Appends the content of a letter whose message has these words.
fn put_content(code: &mut Code, content: &Content, words: &[u64]) -> Result<(), AllocError>
    requires { length words.now ≡ word_count content.now }
    ensures { OnOk result (Writes (content_code (content_with words.now content.now))
        code.old code.new) }
{
    match content {
        Content::Send {
            name,
            receiver,
            message,
            zero_timeout,
        } => {
            code.put(0)?;
            put_name(code, *name)?;
            put_global(code, *receiver)?;
            put_message(code, &message.with(words))?;
            code.put_flag(*zero_timeout)
        }
        Content::Done { name, decision } => {
            code.put(1)?;
            put_name(code, *name)?;
            put_decision(code, *decision)
        }
        Content::Withdraw {
            name,
            receiver,
            cause,
        } => {
            code.put(2)?;
            put_name(code, *name)?;
            put_global(code, *receiver)?;
            put_cause(code, *cause)
        }
        Content::Gone(id) => {
            code.put(3)?;
            put_global(code, *id)
        }
        Content::Order {
            caller,
            target,
            what,
        } => {
            code.put(4)?;
            put_global(code, *caller)?;
            put_global(code, *target)?;
            put_order_kind(code, *what)
        }
        Content::OrderDone(caller) => {
            code.put(5)?;
            put_global(code, *caller)
        }
        Content::Retarget(owed) => {
            code.put(6)?;
            put_owed(code, owed)
        }
    }
}

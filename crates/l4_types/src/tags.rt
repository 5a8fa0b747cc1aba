//! Message tags (manual: Messages and Message Registers, MsgTag).
ghost use Rattle.std.specs.Prelude.{◌≡◌, ◌/◌, ◌%◌, ◌<◌, ◌==◌, ◌↔◌, false, IsSome, IfSome, IsOk};
ghost use Rattle.std.specs.Prelude.{IfOk, IfErr};
ghost use Rattle.l4_model.specs.Words.{tag_of_word, word_of_tag, has_typed_words, label_limit};
ghost use Rattle.l4_model.specs.Words.{label_limit_in, register_count};
ghost use Rattle.l4_types.specs.Inner.Flags.{flags_of};
ghost use Rattle.l4_types.specs.Inner.FormatView.{format_of};
ghost use Rattle.l4_types.specs.Inner.TagView.{tag_in};
ghost use Rattle.l4_types.specs.declared.tags.TagFault.TheVariants.{TypedItems as HasTypedItems};

use crate::formats::Format;
use crate::messages::MOST_WORDS;
use std::marker::Model;

/// Labels are below this.
pub const LABELS: u64 = 1 << 48;

// The number of labels in 32 bits.
const SHORT_LABELS: u64 = 1 << 16;

/// The content of message register 0: a label of 48 bits, four flags, and the number of untyped
/// words, at most 63. There are no typed words.
///
/// Of the flags, bit 12 of the word is `p`: propagation is asked for or, in a received tag, took
/// place. In a received tag bit 14, `X`, says that the message comes from another processor, and
/// bits 13 and 15 are clear.
#[derive(Clone, Copy, PartialEq, Eq, Debug)]
pub struct MsgTag {
    raw: u64,
}

impl Model for MsgTag {
    ghost use Rattle.std.specs.Prelude.{◌≡◌, ◌/◌, ◌%◌, ◌^◌};
    ghost use Rattle.l4_model.specs.Words.{MessageTag, tag_of_word, word_of_tag};
    ghost use Rattle.std.proofs.Common.{ap};
    ghost use Rattle.l4_types.specs.Inner.TagLemmas.{word_of_tag_of};

    ghost Value = { MessageTag };

    ghost view = { λ t. tag_of_word t.raw };

    ghost invariant = { λ t. (t.raw / 2 ^ 6) % 64 ≡ 0 };

    ghost inverse = { λ tag. record { raw = word_of_tag tag } };

    ghost inverse_ok = { λ t h. ap (λ raw. record { raw = raw }) (word_of_tag_of t.raw h) };
}

/// Why a word is no message tag.
#[derive(Clone, Copy, PartialEq, Eq, Debug)]
pub enum TagFault {
    /// The number of typed words is not 0.
    TypedItems,
    /// It is no word of the format.
    Wide,
}

impl MsgTag {
    /// The tag of an Ipc that failed: of its flags `E` alone, bit 15, is set.
    pub const FAILED: MsgTag = MsgTag { raw: 0x8000 };

    /// The tag of a label, a number of untyped words and a wish to propagate (bit 12). None where
    /// the label is 2^48 or above, or there are more than 63 words.
    pub fn new(label: u64, untyped: u8, propagate: bool) -> Option<MsgTag>
        ensures some { IfSome result (λ tag. tag ≡ record {
          label = label;
          flags = flags_of false propagate;
          untyped = untyped;
        }) }
        ensures when { IsSome result ↔ ((label < label_limit) × (untyped < register_count)) }
    {
        if label >= LABELS || usize::from(untyped) > MOST_WORDS {
            return None;
        }
        Some(MsgTag::of(label, false, propagate, untyped))
    }

    /// The tag of these parts in a format. None where the format has no such label (for 32 bits,
    /// from 2^16 on), or there are more than 63 words.
    pub fn new_in(format: Format, label: u64, untyped: u8, propagate: bool) -> Option<MsgTag>
        ensures some { IfSome result (λ tag. tag ≡ record {
          label = label;
          flags = flags_of false propagate;
          untyped = untyped;
        }) }
        ensures when { IsSome result ↔
            ((label < label_limit_in (format_of format)) × (untyped < register_count)) }
    {
        match format {
            Format::W32 if label >= SHORT_LABELS => None,
            _ => MsgTag::new(label, untyped, propagate),
        }
    }

    /// The tag that a word is. `TypedItems` where bits 6 to 11 are not all zero.
    pub fn from_raw(raw: u64) -> Result<MsgTag, TagFault>
        ensures ok { IfOk result (λ tag. tag ≡ tag_of_word raw) }
        ensures when { IsOk result ↔ (has_typed_words raw ≡ false) }
        ensures fault { IfErr result (λ fault. fault ≡ HasTypedItems) }
    {
        if (raw >> 6) & 0x3f != 0 {
            return Err(TagFault::TypedItems);
        }
        Ok(MsgTag { raw })
    }

    /// The tag that a word of a format is. `Wide` where the format has no such word: for 32 bits,
    /// from 2^32 on. Else `TypedItems` where bits 6 to 11 are not all zero.
    pub fn from_raw_in(format: Format, raw: u64) -> Result<MsgTag, TagFault>
        ensures { result ≡ tag_in (format_of format) raw }
    {
        if !format.has(raw) {
            return Err(TagFault::Wide);
        }
        MsgTag::from_raw(raw)
    }

    /// The word of this tag.
    pub fn raw(&self) -> u64
        ensures value { result ≡ word_of_tag self.now }
        ensures back { tag_of_word result ≡ self.now }
        ensures no_typed_words { has_typed_words result ≡ false }
    {
        self.raw
    }

    /// The label, below 2^48.
    pub fn label(&self) -> u64
        ensures value { result ≡ self.now.label }
        ensures fits { result < label_limit }
    {
        MsgTag::label_in(self.raw)
    }

    /// The number of untyped words, at most 63.
    pub fn untyped(&self) -> u8
        ensures value { result ≡ self.now.untyped }
        ensures fits { result < register_count }
    {
        MsgTag::untyped_in(self.raw)
    }

    /// Whether propagation is asked for or, in a received tag, took place (bit 12).
    pub fn propagate(&self) -> bool
        ensures { result ≡ (self.now.flags % 2 == 1) }
    {
        MsgTag::propagates_in(self.raw)
    }

    /// The label in a word of message register 0, below 2^48, even if the word counts typed items.
    pub fn label_in(word: u64) -> u64
        ensures value { result ≡ (tag_of_word word).label }
        ensures fits { result < label_limit }
    {
        word >> 16
    }

    /// The number of untyped words in a word of message register 0, at most 63, even if the word
    /// counts typed items.
    pub fn untyped_in(word: u64) -> u8
        ensures value { result ≡ (tag_of_word word).untyped }
        ensures fits { result < register_count }
    {
        (word & 0x3f) as u8
    }

    /// Whether a word of message register 0 asks for propagation (bit 12), even if the word counts
    /// typed items.
    pub fn propagates_in(word: u64) -> bool
        ensures { result ≡ ((tag_of_word word).flags % 2 == 1) }
    {
        (word >> 12) & 1 == 1
    }

    /// The tag that a receiver gets: label and number of words stay. `X` says that the message
    /// comes from another processor, `p` that it was propagated; `r` and `E` are clear.
    pub fn received(&self, cross: bool, propagated: bool) -> MsgTag
        ensures { result ≡ record self.now { flags = flags_of cross propagated } }
    {
        MsgTag::of(self.label(), cross, propagated, self.untyped())
    }

    // The tag of these parts, with all other flags clear.
    pub(crate) fn of(label: u64, cross: bool, propagated: bool, untyped: u8) -> MsgTag
        requires label { label < label_limit }
        requires untyped { untyped < register_count }
        ensures { result ≡ record {
          label = label;
          flags = flags_of cross propagated;
          untyped = untyped;
        } }
    {
        let flags = u64::from(cross) * 4 + u64::from(propagated);
        MsgTag {
            raw: (label << 16) + (flags << 12) + u64::from(untyped),
        }
    }
}

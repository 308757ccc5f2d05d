//! Laws of what a filter writes, holds back and refuses, each the contract of a function without a body.
ghost use Rattle.nf_filter.specs.Laws.{SettledOnlyGrows, LittleIsHeldBack, RunsStayShort};
ghost use Rattle.nf_filter.specs.Laws.Assigned.{FeedingFindsAllAssigned, FinishingFindsAllAssigned, DrivingFindsAllAssigned};
ghost use Rattle.nf_filter.specs.Laws.Soundness.{FeedingRefusesNone, DrivingRefusesNone, CheckingRefusesNone, MeasuringRefusesNone};
ghost use Rattle.nf_filter.specs.Again.{FinishedStays};

use nf_utf8::laws::{longest_text, read_back, replacing};

/// Nothing that was written is taken back: whatever follows a text, what is settled of it stays.
pub fn settled_only_grows()
    ensures { SettledOnlyGrows }
{}

/// At most 31 code points of the form lie beyond what is settled, where the text can be used.
pub fn little_is_held_back()
    ensures { LittleIsHeldBack }
{}

/// The run that a text ends in is no longer in any form than in NFKD, in which it is counted, and that has at most 30
/// non-starters: so there is always room for the next.
pub fn runs_stay_short()
    ensures { RunsStayShort }
{}

/// Where each character of the data is sound, none is refused: `Row` is never answered.
pub fn no_sound_character_is_refused()
    ensures feeding { FeedingRefusesNone }
    ensures driving { DrivingRefusesNone }
    ensures checking { CheckingRefusesNone }
    ensures measuring { MeasuringRefusesNone }
{}

/// Where the policy does not ask for assigned characters, `Unassigned` is never answered.
pub fn unassigned_is_told_where_asked()
    ensures feeding { FeedingFindsAllAssigned }
    ensures finishing { FinishingFindsAllAssigned }
    ensures driving { DrivingFindsAllAssigned }
{}

/// What a filter wrote to an end without a fault is the UTF-8 of a text in the Stream-Safe Text Format, and a second filter
/// of that form, fed it, writes just these bytes and puts nothing: over data of which the form changes a text once, as
/// `nf_facts` shows it of Unicode's.
#[inline]
pub fn what_was_finished_stays()
    ensures { FinishedStays }
{
    longest_text();
    read_back();
    replacing();
}

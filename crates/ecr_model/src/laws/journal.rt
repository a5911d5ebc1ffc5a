// The laws of journals. The functions do nothing: their contracts are the laws.
ghost use Rattle.ecr_model.specs.examples.JournalExample.{ARepositoryComesAndGoes, LinesStandBetween, NamesAreInOrder};
ghost use Rattle.ecr_model.specs.laws.JournalLaws.{ARefusalChangesNothing, BetweenOfDirectories, BetweenOfRepositories, FirstPartsOfDirectories, FirstPartsOfRepositories, GrowthOfDirectories, GrowthOfRepositories, NowOfDirectories, NowOfRepositories, PastOfDirectories, PastOfRepositories, ReplayOfDirectories, ReplayOfRepositories};

/// A call on a repository that is refused changes nothing.
pub fn a_refusal_changes_nothing()
    ensures unchanged { ARefusalChangesNothing }
{}

/// A journal and one line more lead to what the line makes of the state to which the journal leads.
pub fn a_replay_goes_on()
    ensures repositories { ReplayOfRepositories }
    ensures directories { ReplayOfDirectories }
{}

/// The first lines of a sound journal are a sound journal.
pub fn a_first_part_is_sound()
    ensures repositories { FirstPartsOfRepositories }
    ensures directories { FirstPartsOfDirectories }
{}

/// A sound journal stays sound with one line more, whose ticket is above all others and which changes the state.
pub fn a_sound_journal_grows()
    ensures repositories { GrowthOfRepositories }
    ensures directories { GrowthOfDirectories }
{}

/// What stood at a ticket stays, whatever is entered at that ticket or later.
pub fn what_was_stays()
    ensures repositories { PastOfRepositories }
    ensures directories { PastOfDirectories }
{}

/// Past the last ticket of a sound journal stands what the whole journal leads to.
pub fn the_last_is_now()
    ensures repositories { NowOfRepositories }
    ensures directories { NowOfDirectories }
{}

/// The lines of a sound journal from an earlier ticket on and below a later one lead from the state as at the earlier
/// one to the state as at the later one.
pub fn the_lines_between_lead_on()
    ensures repositories { BetweenOfRepositories }
    ensures directories { BetweenOfDirectories }
{}

/// The definitions, at one repository that is created, set, deleted and created again, come to the replies that are
/// written out in `specs/examples/JournalExample.antt`.
pub fn a_repository_comes_and_goes()
    ensures states { ARepositoryComesAndGoes }
{}

/// The lines of that repository between two tickets are those that are written out there, and lead on as it says.
pub fn lines_stand_between()
    ensures between { LinesStandBetween }
{}

/// The definitions, at a directory with a limit of two names, come to what is written out there too.
pub fn names_are_in_order()
    ensures in_order { NamesAreInOrder }
{}

//! Laws of journals. Each is the contract of a function that does nothing.

ghost use Rattle.dali_journal.specs.Law.{SentencesAreGroups, KeptIsInTheGroups, NoSpellingBeginsAnother};
ghost use Rattle.dali_journal.specs.Law.{BytesBeginWithOnePiece, MomentsAreKept};
ghost use Rattle.dali_journal.specs.Behind.{OwnRecordsStandAlone, OlderOrdersAreKept};
ghost use Rattle.dali_journal.specs.Loading.{TornHasNoFault, BytesHaveOneFault, JournalsLoadAgain};

/// The records that the table of standings allows, record by record, are a list of groups, one for each order.
pub fn sentences_are_groups()
    ensures { SentencesAreGroups }
{}

/// A journal has kept of a number what its groups say of it, and nothing exactly when no order was begun under it: so a
/// new order may be appended if and only if nothing is kept of its number.
pub fn kept_is_in_the_groups()
    ensures { KeptIsInTheGroups }
{}

/// There is a moment exactly when something is kept of a number, and it is that of the one `Began` of the number.
pub fn moments_are_kept()
    ensures { MomentsAreKept }
{}

/// No record's bytes are a prefix of another's, in each version.
pub fn no_record_begins_another()
    ensures { NoSpellingBeginsAnother }
{}

/// Bytes begin with one piece: what is read of them is the one answer that is right.
pub fn bytes_begin_with_one_piece()
    ensures { BytesBeginWithOnePiece }
{}

/// Bytes that a journal is loaded from have no fault, and are the journal of no other records and in no other version.
pub fn torn_journals_have_no_fault()
    ensures { TornHasNoFault }
{}

/// The bytes of a journal in version 2, whole or followed by a cut record, are a torn journal of its records.
pub fn journals_load_again()
    ensures { JournalsLoadAgain }
{}

/// Bytes have one fault at most, at one place.
pub fn bytes_have_one_fault()
    ensures { BytesHaveOneFault }
{}

/// A journal after older ones that are at rest is a journal by itself.
pub fn own_records_stand_alone()
    ensures { OwnRecordsStandAlone }
{}

/// Behind older journals that are at rest no number is used again, and what they have kept of theirs is kept.
pub fn older_orders_are_kept()
    ensures { OlderOrdersAreKept }
{}

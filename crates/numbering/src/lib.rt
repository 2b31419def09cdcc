// Answers as the numbers of documents 01 and 02: "0 is success", and else the refusal's.
#![tactic(auto)]

ghost use Rattle.std.specs.Prelude.{◌≡◌};
ghost use Rattle.rules.specs.Answers.{number_of, name_of, change_means, conversion_means, query_means, verdict_means};
ghost use Rattle.rules.specs.Histories.{reported as reported_of};
ghost use Rattle.numbering.specs.Told.{told, words_mean, conversion_words_mean};

use rules::{Change, Conversion, Query, Refusal, Side, Unconverted, Verdict};

// "no. | given when | by"
pub fn number(refusal: Refusal) -> u64
    ensures { result ≡ number_of refusal }
{
    match refusal {
        Refusal::BadHeader => 1,
        Refusal::ShortList => 2,
        Refusal::FlagSet => 3,
        Refusal::KeyPresent => 4,
        Refusal::KeyAbsent => 5,
        Refusal::NoPlace => 6,
        Refusal::AlreadyResizing => 7,
        Refusal::NotResizing => 8,
        Refusal::AtCapacity => 9,
        Refusal::InterimTaken => 10,
        Refusal::InterimEmpty => 11,
        Refusal::NoKind => 12,
        Refusal::BadCreation => 13,
        Refusal::BadMaking => 14,
        Refusal::ShortRecords => 15,
        Refusal::BadPosition => 16,
        Refusal::TooSmall => 17,
    }
}

pub fn verdict_number(verdict: Verdict) -> u64
    ensures { told result ≡ verdict_means verdict }
{
    match verdict {
        Ok(()) => 0,
        Err(denial) => number(denial),
    }
}

pub fn change_number(change: Change) -> u64
    ensures { result ≡ (change_means change).number }
{
    match change {
        Ok(_) => 0,
        Err(refusal) => number(refusal),
    }
}

// The value that goes with it: "A refusal .. reports 0 stores."
pub fn reported(change: Change) -> u64
    ensures { result ≡ reported_of change }
{
    match change {
        Ok(stores) => stores,
        Err(_) => 0,
    }
}

// "the table's name (0 newer, 1 older)"
pub fn side_number(side: Side) -> u64
    ensures { result ≡ name_of side }
{
    match side {
        Side::Newer => 0,
        Side::Older => 1,
    }
}

// A query's answer as a number and words.
#[derive(Clone, Copy)]
pub struct QueryWords {
    pub number: u64,
    pub function: u64,
    pub place: u64,
    pub buckets: u64,
    pub word: u64,
    pub level: u64,
}

// The one place where a query's answer is taken apart: "with any refusal, index 0 and top".
pub fn query_words(answer: Query) -> QueryWords
    ensures { words_mean result ≡ query_means answer }
{
    match answer {
        Ok(known) => QueryWords {
            number: 0,
            function: known.what.function,
            place: known.what.place,
            buckets: known.looked,
            word: known.spot.word,
            level: known.spot.level,
        },
        Err(missed) => QueryWords {
            number: number(missed.refusal),
            function: 0,
            place: 0,
            buckets: missed.looked,
            word: 0,
            level: 0,
        },
    }
}

// A conversion's answer as a number and the key that goes with it.
#[derive(Clone, Copy)]
pub struct ConversionWords {
    pub number: u64,
    pub key: u64,
}

// "answer 6 with its key"; with every other answer the key is 0.
pub fn conversion_words(answer: Conversion) -> ConversionWords
    ensures { conversion_words_mean result ≡ conversion_means answer }
{
    match answer {
        Ok(()) => ConversionWords { number: 0, key: 0 },
        Err(Unconverted::Stuck(key)) => ConversionWords {
            number: number(Refusal::NoPlace),
            key,
        },
        Err(Unconverted::Rejected(refusal)) => ConversionWords {
            number: number(refusal),
            key: 0,
        },
    }
}

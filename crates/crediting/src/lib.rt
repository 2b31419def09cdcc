// The sample ledger, line by line: a table script, and then samples, each credited to the function that the table has for its key.
#![tactic(auto)]

ghost use Rattle.std.specs.Prelude.{◌≡◌, ℕ, List};
ghost use Rattle.replaying.specs.Replays.{finish_of};
ghost use Rattle.crediting.specs.Ledgers.{Figures, line_behind, event_due};
ghost use Rattle.crediting.specs.Books.{missed_one, figures_with, figures_in, book_of, spoilt, sampled, recovered_book, stage_recovered};
ghost use Rattle.crediting.specs.Books.{first_sampled, stage_after, script_line, sample_where, script_read, sample_read, with_line, script_end, at_end};
ghost use Rattle.crediting.specs.Books.{known_at, CountsAre, LedgerIs, Turned, Leads, no_figures, empty_book};
ghost use Rattle.crediting.specs.declared.Stage.TheVariants.{Bad as bad_stage};

use following::{Due, Script};
use lines::{Sample, parse, parse_sample};
use numbering::query_words;
use querying::query;
use replaying::{Answer, Replay, begun, evented, finish as script_end, take_line as replay_line};
use rules::{Query, Refusal, ScriptCall};
use tallying::Tally;

// What a ledger has come to: the script is read, or the samples; or its report is known: no table was made, or it was not recovered,
// or a line was bad.
#[derive(Clone, Copy)]
pub enum Stage {
    Script,
    Samples,
    Unmade(Refusal),
    Unrecovered(Refusal),
    Bad(u64),
}

impl Stage {
    // Whether the report is known, whatever comes: where no table was made, or it was not recovered, and behind a bad line.
    pub fn is_known(self) -> bool
        ensures { result ≡ known_at self }
    {
        matches!(
            self,
            Stage::Unmade(_) | Stage::Unrecovered(_) | Stage::Bad(_)
        )
    }

    // What the end of the input makes of it, where a line is torn, that is, where no newline ends it, or not. Of all that is counted it asks only how many
    // samples there were, so it is promised whatever else is counted.
    #[tactic(auto, unfolding(crate::specs::Books::at_end))]
    pub fn ended(self, replay: &mut Replay, samples: u64, room: &mut [u64], torn: bool) -> Stage
        ensures { (x : Figures) → x.samples ≡ samples → Leads (at_end torn) replay.old room.old self x replay.new room.new result }
    {
        match self {
            Stage::Script => end_script(replay, room, torn),
            Stage::Samples if torn => bad_line(replay.script.lines, samples),
            _ => self,
        }
    }
}

// Samples in all, those with no record, those of each function and of others, and the buckets looked at.
#[derive(Clone, Copy)]
pub struct Counts {
    pub samples: u64,
    pub missing: u64,
    pub buckets: u64,
    pub tally: Tally,
}

#[derive(Clone, Copy)]
pub struct Ledger {
    pub replay: Replay,
    pub stage: Stage,
    pub counts: Counts,
}

impl Counts {
    // Before any sample.
    fn new() -> Counts
        ensures { CountsAre no_figures result }
    {
        Counts {
            samples: 0,
            missing: 0,
            buckets: 0,
            tally: Tally::new(),
        }
    }

    // One sample more that has no record: the buckets that its query looked at count all the same.
    fn miss(&mut self, searched: u64)
        ensures { self.new ≡ missed_one self.old searched }
    {
        self.samples = self.samples.wrapping_add(1);
        self.missing = self.missing.wrapping_add(1);
        self.buckets = self.buckets.wrapping_add(searched);
    }

    // One sample more, by what a query of its key answers: it is credited to the function of its record, or to nobody.
    fn count(&mut self, answer: Query)
        ensures { CountsAre (figures_with (figures_in self.old) answer) self.new }
    {
        let told = query_words(answer);
        if told.number == 0 {
            self.samples = self.samples.wrapping_add(1);
            self.buckets = self.buckets.wrapping_add(told.buckets);
            self.tally.credit(told.function);
        } else {
            self.miss(told.buckets);
        }
    }
}

impl Ledger {
    // Before the first line.
    pub fn new() -> Ledger
        ensures { (room : List ℕ) → LedgerIs (empty_book room) result room }
    {
        Ledger {
            replay: begun(),
            stage: Stage::Script,
            counts: Counts::new(),
        }
    }

    // A sample of a key, by the table as it stands.
    #[tactic(auto, unfolding(crate::specs::Books::sampled))]
    fn sample(&mut self, room: &[u64], key: u64)
        ensures { LedgerIs (sampled key (book_of self.old room.now)) self.new room.now }
    {
        let lent = self.replay.words.min(room.len());
        self.stage = Stage::Samples;
        self.counts.count(query(&room[..lent], key));
    }

    #[tactic(auto, unfolding(crate::specs::Books::first_sampled))]
    fn first_sample(&mut self, room: &mut [u64], key: u64)
        ensures { LedgerIs (first_sampled key (book_of self.old room.old)) self.new room.new }
    {
        self.stage = recover(&mut self.replay, room);
        if let Stage::Samples = self.stage {
            self.sample(room, key);
        }
    }

    #[tactic(auto, unfolding(crate::specs::Books::script_line))]
    fn script_line(&mut self, room: &mut [u64], line: &[u8])
        ensures { Turned (script_line line.now) self.old room.old self.new room.new }
    {
        let turn = replay_line(self.replay, room, parse(line));
        self.replay = turn.replay;
        self.stage = stage_after(turn.answer);
    }

    // A bad line ends it.
    fn spoil(&mut self)
        ensures { (room : List ℕ) → Turned spoilt self.old room self.new room }
    {
        self.stage = bad_line(self.replay.script.lines, self.counts.samples);
    }

    // A line of the script, or the first sample line.
    #[tactic(auto, unfolding(crate::specs::Books::script_read))]
    fn read_script(&mut self, room: &mut [u64], line: &[u8])
        ensures { LedgerIs (script_read line.now (book_of self.old room.old)) self.new room.new }
    {
        let due = event_due(self.replay.script);
        match sample_where(due, line) {
            Sample::Key(key) => self.first_sample(room, key),
            Sample::Bad => self.spoil(),
            Sample::Other => self.script_line(room, line),
        }
    }

    // "from there on every line is a sample line, and any other is bad"
    #[tactic(auto, unfolding(crate::specs::Books::sample_read))]
    fn read_sample(&mut self, room: &[u64], line: &[u8])
        ensures { LedgerIs (sample_read line.now (book_of self.old room.now)) self.new room.now }
    {
        match parse_sample(line) {
            Sample::Key(key) => self.sample(room, key),
            _ => self.spoil(),
        }
    }

    // What a line makes of a ledger. Any bytes may be handed in.
    #[tactic(auto, unfolding(crate::specs::Books::with_line))]
    pub fn take_line(&mut self, room: &mut [u64], line: &[u8])
        ensures { LedgerIs (with_line line.now (book_of self.old room.old)) self.new room.new }
    {
        match self.stage {
            Stage::Script => self.read_script(room, line),
            Stage::Samples => self.read_sample(room, line),
            Stage::Unmade(_) | Stage::Unrecovered(_) | Stage::Bad(_) => {}
        }
    }

    // What the end of the input makes of a ledger, where a line is torn, that is, where no newline ends it, or not.
    pub fn finish(&mut self, room: &mut [u64], torn: bool)
        ensures { Turned (at_end torn) self.old room.old self.new room.new }
    {
        let samples = self.counts.samples;
        self.stage = self.stage.ended(&mut self.replay, samples, room, torn);
    }

    // Whether the report is known, whatever comes.
    pub fn is_known(&self) -> bool
        ensures { result ≡ known_at self.now.stage }
    {
        self.stage.is_known()
    }
}

// "The table is recovered before the first sample": as an event of the script would do it.
#[tactic(auto, unfolding(crate::specs::Books::recovered_book))]
fn recover(replay: &mut Replay, room: &mut [u64]) -> Stage
    ensures { (s : Stage) (x : Figures) → Leads recovered_book replay.old room.old s x replay.new room.new result }
{
    let turn = evented(*replay, replay.script, room, ScriptCall::Recover, None);
    *replay = turn.replay;
    stage_recovered(turn.answer)
}

// "A bad line anywhere ends it with `bad=` and its number": the line behind those of the script and the samples.
fn bad_line(lines: u64, samples: u64) -> Stage
    ensures { result ≡ bad_stage (line_behind lines samples) }
{
    let read = lines.wrapping_add(samples);
    Stage::Bad(read.wrapping_add(1))
}

// The end of the script, where no sample has come: "or the input has ended".
fn end_script(replay: &mut Replay, room: &mut [u64], torn: bool) -> Stage
    ensures { (s : Stage) (x : Figures) → Leads (script_end (finish_of replay.old torn)) replay.old room.old s x replay.new room.new result }
{
    match script_end(*replay, torn) {
        Answer::Bad(last) => Stage::Bad(last),
        _ => recover(replay, room),
    }
}

// "if that is refused, `answer=12` is the whole report"
fn stage_recovered(answer: Answer) -> Stage
    ensures { result ≡ stage_recovered answer }
{
    match answer {
        Answer::Changed(Err(refusal)) => Stage::Unrecovered(refusal),
        _ => Stage::Samples,
    }
}

// "Script answers are not printed; `bad=` or `made=13` end it."
fn stage_after(answer: Answer) -> Stage
    ensures { result ≡ stage_after answer }
{
    match answer {
        Answer::Created(Err(refusal)) => Stage::Unmade(refusal),
        Answer::Bad(line) => Stage::Bad(line),
        _ => Stage::Script,
    }
}

// Whether an event line could stand here: "Behind a cut line it may not stand".
fn event_due(script: Script) -> bool
    ensures { result ≡ event_due script }
{
    matches!(script.due, Due::Event) && script.cut.is_none()
}

// What a line says where a sample may stand, and where not.
fn sample_where(may: bool, line: &[u8]) -> Sample
    ensures { result ≡ sample_where may line.now }
{
    if may {
        parse_sample(line)
    } else {
        Sample::Other
    }
}

// A state, handed on by value: what it is, and the states that growing and shrinking make of it before they are stored.
ghost use Rattle.std.specs.Prelude.{◌≡◌, ◌≤◌};
ghost use Rattle.rules.specs.Words.{state_of, at_rest, shrinking, state_good, GoodState, state_word};
ghost use Rattle.rules.specs.Stores.{begun_of, shrunk_of, turned_of, ended_of};

use crate::State;

impl State {
    // "state: k + 256·phase", read from its word
    pub fn of_word(word: u64) -> State
        ensures { result ≡ state_of word }
    {
        State {
            k: word % 256,
            phase: word / 256,
        }
    }

    // "phase 0 at rest"
    pub fn at_rest(self) -> bool
        ensures { result ≡ at_rest self }
    {
        self.phase == 0
    }

    // request f): "Phase 2"
    pub fn shrinking(self) -> bool
        ensures { result ≡ shrinking self }
    {
        self.phase == 2
    }

    // "At rest 1 ≤ k ≤ c, while growing 2 ≤ k ≤ c. Other states are bad." Request f): "States with phase 2 need 1 ≤ k < c."
    pub fn good(self, c: u64) -> bool
        ensures { result ≡ state_good c self }
    {
        if c < self.k {
            return false;
        }
        if self.phase == 0 {
            return 1 <= self.k;
        }
        if self.phase == 1 {
            return 2 <= self.k;
        }
        if self.phase == 2 {
            return 1 <= self.k && self.k < c;
        }
        false
    }

    // "state: k + 1, phase 1"
    pub fn begun(self) -> State
        requires { self.k ≤ 20 }
        ensures { result ≡ begun_of self }
    {
        State {
            k: self.k + 1,
            phase: 1,
        }
    }

    // request f): "phase 2 with k − 1"
    pub fn shrunk(self) -> State
        requires { 1 ≤ self.k }
        ensures { result ≡ shrunk_of self }
    {
        State {
            k: self.k - 1,
            phase: 2,
        }
    }

    // request f), turned back: "A shrinking table becomes a growing one with k + 1, and a growing one a shrinking one with k − 1"
    pub fn turned(self) -> State
        requires { GoodState 20 self }
        ensures { result ≡ turned_of self }
    {
        if self.shrinking() {
            return self.begun();
        }
        self.shrunk()
    }

    // "state: phase 0"
    pub fn ended(self) -> State
        ensures { result ≡ ended_of self }
    {
        State {
            k: self.k,
            phase: 0,
        }
    }

    // "k + 256·phase"
    pub fn word(self) -> u64
        requires { (self.k ≤ 21) × (self.phase ≤ 2) }
        ensures { result ≡ state_word self }
    {
        self.k + 256 * self.phase
    }
}

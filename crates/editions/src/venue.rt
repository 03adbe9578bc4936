// A venue: settings and tables.

ghost use Rattle.std.specs.Prelude.{◌≡◌, IfOk};
ghost use Rattle.editions.specs.Answers.{IsRulesAnswer};
ghost use Rattle.venue_rules.specs.Venues.{empty_venue};

use crate::fault::EditFault;
use bid_import::Settings;
use match_rules::Rules;
use roster::{Papers, Reviewers};
use score_spec::{PairTable, Scores, TableValue, Value};
use std::alloc::{AllocError, Global};
use std::marker::Model;
use venue_rules::{Tables, VenueFault, rules_of};

/// All that was handed in: settings, papers, reviewers, values and bids, marks and caps.
#[derive(Drop)]
pub struct Venue {
    pub(crate) settings: Settings,
    pub(crate) papers: Papers,
    pub(crate) reviewers: Reviewers,
    pub(crate) scores: Scores,
    pub(crate) marks: PairTable<i32>,
    pub(crate) caps: PairTable<Value>,
}

impl Model for Venue {
    ghost use Rattle.venue_rules.specs.Venues.{VenueValue, KeepsLimits};

    ghost Value = { VenueValue };

    ghost view = { λ v. record { settings = v.settings; papers = v.papers; reviewers = v.reviewers; scores = v.scores; marks = v.marks; caps = v.caps } };

    ghost invariant = { λ v. KeepsLimits (record { settings = v.settings; papers = v.papers; reviewers = v.reviewers; scores = v.scores; marks = v.marks; caps = v.caps }) };
}

impl Venue {
    /// A venue into which nothing was handed: the standard settings and empty tables.
    pub fn empty(alloc: Global) -> Result<Self, AllocError>
        ensures { IfOk result (λ venue. venue ≡ empty_venue) }
    {
        let settings = Settings::standard(alloc)?;
        Ok(Venue {
            settings,
            papers: Papers::new(alloc),
            reviewers: Reviewers::new(alloc),
            scores: Scores::new(alloc),
            marks: PairTable::new(alloc),
            caps: PairTable::new(alloc),
        })
    }

    /// An equal venue.
    pub fn copy(&self, alloc: Global) -> Result<Self, AllocError>
        ensures { IfOk result (λ copy. copy ≡ self.now) }
    {
        let settings = self.settings.copy(alloc)?;
        let papers = self.papers.copy(alloc)?;
        let reviewers = self.reviewers.copy(alloc)?;
        let scores = self.scores.copy(alloc)?;
        let marks = self.marks.copy(alloc)?;
        let caps = self.caps.copy(alloc)?;
        Ok(Venue {
            settings,
            papers,
            reviewers,
            scores,
            marks,
            caps,
        })
    }

    /// The settings.
    pub fn settings(&self) -> &Settings
        ensures { result.now ≡ self.now.settings }
    {
        &self.settings
    }

    /// The table of papers.
    pub fn papers(&self) -> &Papers
        ensures { result.now ≡ self.now.papers }
    {
        &self.papers
    }

    /// The table of reviewers.
    pub fn reviewers(&self) -> &Reviewers
        ensures { result.now ≡ self.now.reviewers }
    {
        &self.reviewers
    }

    /// The tables of values, by their sources, and of bids.
    pub fn scores(&self) -> &Scores
        ensures { result.now ≡ self.now.scores }
    {
        &self.scores
    }

    /// The table of marks: -1 forbids a pair, 1 locks it.
    pub fn marks(&self) -> &PairTable<i32>
        ensures { result.now ≡ self.now.marks }
    {
        &self.marks
    }

    /// The table of caps, from 0 to 1.
    pub fn caps(&self) -> &PairTable<Value>
        ensures { result.now ≡ self.now.caps }
    {
        &self.caps
    }

    /// The rules of the venue, or the limit that they pass.
    pub fn rules(&self, alloc: Global) -> Result<Rules, EditFault>
        ensures { IsRulesAnswer result self.now }
    {
        let tables = Tables {
            settings: &self.settings,
            papers: &self.papers,
            reviewers: &self.reviewers,
            scores: &self.scores,
            marks: &self.marks,
            caps: &self.caps,
        };
        match rules_of(alloc, &tables) {
            Ok(rules) => Ok(rules),
            Err(VenueFault::Memory) => Err(EditFault::Memory),
            Err(VenueFault::Limit(fault)) => Err(EditFault::Limit(fault)),
        }
    }
}

/// A venue and its rules.
#[derive(Drop)]
pub struct Edited {
    /// The venue after an edit.
    pub venue: Venue,
    /// Its rules.
    pub rules: Rules,
}

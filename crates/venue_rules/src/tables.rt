// What the rules of a venue are made from: its settings and tables.

use bid_import::Settings;
use roster::{Papers, Reviewers};
use score_spec::{PairTable, Scores, Value};
use std::marker::Model;

/// The settings and tables of a venue.
#[derive(Drop)]
pub struct Tables<'a> {
    /// The settings.
    pub settings: &'a Settings,
    /// The papers.
    pub papers: &'a Papers,
    /// The reviewers.
    pub reviewers: &'a Reviewers,
    /// The values, by their sources, and the bids.
    pub scores: &'a Scores,
    /// The marks: -1 forbids a pair, 1 locks it.
    pub marks: &'a PairTable<i32>,
    /// The caps, from 0 to 1.
    pub caps: &'a PairTable<Value>,
}

impl<'a> Model for Tables<'a> {
    ghost use Rattle.venue_rules.specs.Venues.{VenueValue};

    ghost Value = { VenueValue };

    ghost view = { λ t. record { settings = t.settings.now; papers = t.papers.now; reviewers = t.reviewers.now; scores = t.scores.now; marks = t.marks.now; caps = t.caps.now } };
}

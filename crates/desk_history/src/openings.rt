// The tables of an empty history, and room in tables.

ghost use Rattle.std.specs.Prelude.{◌≡◌, ◌<◌, [], IfOk, Ok, OnOk, vec_capacity, vec_len};
ghost use Rattle.venue_rules.specs.VenueRules.{rules_of};
ghost use Rattle.venue_rules.specs.Venues.{empty_venue};
ghost use Rattle.desk_history.specs.Histories.{History};
ghost use Rattle.desk_history.specs.Tables.{AreTables};

use crate::tables::Tables;
use editions::Venue;
use match_rules::Rules;
use std::alloc::{AllocError, Global};

impl Tables {
    // The tables of a history without entries, whose venue is empty and has these rules.
    fn of_empty(alloc: Global, venue: Venue, rules: Rules) -> Tables
        requires venue { venue ≡ empty_venue }
        requires rules { rules_of venue ≡ Ok rules }
        ensures { AreTables [] result }
    {
        Tables {
            venue,
            rules,
            edits: 0,
            commands: 0,
            bytes: 0,
            jobs: Vec::new(alloc),
            publications: Vec::new(alloc),
            benches: [None; 16],
        }
    }

    /// The tables of a history without entries: its venue is empty, and has rules, so that memory alone may be wanting.
    pub fn empty(alloc: Global) -> Result<Tables, AllocError>
        ensures { IfOk result (AreTables []) }
    {
        let venue = Venue::empty(alloc)?;
        match venue.rules(alloc) {
            Ok(rules) => Ok(Tables::of_empty(alloc, venue, rules)),
            Err(_) => Err(AllocError),
        }
    }

    /// Room for a job more.
    pub fn reserve_job(&mut self) -> Result<(), AllocError>
        ensures tables { (H : History) → AreTables H self.old → AreTables H self.new }
        ensures benches { self.new.benches ≡ self.old.benches }
        ensures commands { self.new.commands ≡ self.old.commands }
        ensures bytes { self.new.bytes ≡ self.old.bytes }
        ensures room { OnOk result (vec_len self.new.jobs < vec_capacity self.new.jobs) }
    {
        self.jobs.reserve(1)
    }

    /// Room for a publication more.
    pub fn reserve_publication(&mut self) -> Result<(), AllocError>
        ensures tables { (H : History) → AreTables H self.old → AreTables H self.new }
        ensures benches { self.new.benches ≡ self.old.benches }
        ensures commands { self.new.commands ≡ self.old.commands }
        ensures bytes { self.new.bytes ≡ self.old.bytes }
        ensures room { OnOk result (vec_len self.new.publications < vec_capacity self.new.publications) }
    {
        self.publications.reserve(1)
    }
}

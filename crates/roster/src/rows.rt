ghost use Rattle.std.specs.Prelude.{◌≡◌, IfOk, IfSome, IsSome, ◌↔◌};

use crate::load::Load;
use crate::table::Row;
use match_rules::{Institution, PaperId, ReviewerId};
use std::alloc::{AllocError, Global};
use std::marker::Model;

/// A list of institutions. Contracts see the list of their names.
#[derive(Drop)]
pub struct Institutions {
    items: Vec<Institution>,
}

impl Model for Institutions {
    ghost use Rattle.std.specs.Prelude.{List, ℕ};

    ghost Value = { List (List ℕ) };

    ghost view = { λ i. i.items.items };
}

impl Institutions {
    /// The institutions of a vector, without taking memory.
    pub fn from_vec(items: Vec<Institution>) -> Self
        ensures { result ≡ items.items }
    {
        Institutions { items }
    }

    /// The vector of these institutions, without taking memory.
    pub fn into_vec(self) -> Vec<Institution>
        ensures { result.items ≡ self }
    {
        self.items
    }

    /// The institutions as a slice.
    pub fn as_slice(&self) -> &[Institution]
        ensures { result.now ≡ self.now }
    {
        self.items.as_slice()
    }

    /// An equal list.
    pub fn copy(&self, alloc: Global) -> Result<Self, AllocError>
        ensures { IfOk result (λ copy. copy ≡ self.now) }
    {
        let mut items = Vec::new(alloc);
        for institution in self.items.iter() {
            items.push(institution.copy(alloc)?)?;
        }
        Ok(Institutions { items })
    }
}

/// A paper: how many reviewers it is to get, where that is said, and where its authors are.
#[derive(Drop)]
pub struct PaperRow {
    pub id: PaperId,
    pub demand: Option<u32>,
    pub authors: Institutions,
}

impl Row for PaperRow {
    ghost key = { λ row. row.id };

    fn key(&self) -> &str {
        self.id.text()
    }

    fn copy(&self, alloc: Global) -> Result<Self, AllocError> {
        let id = self.id.copy(alloc)?;
        let authors = self.authors.copy(alloc)?;
        Ok(PaperRow {
            id,
            demand: self.demand,
            authors,
        })
    }
}

/// A reviewer: an institution, where there is one, and a load, where one is said.
#[derive(Drop)]
pub struct ReviewerRow {
    pub id: ReviewerId,
    pub institution: Option<Institution>,
    pub load: Option<Load>,
}

impl ReviewerRow {
    ghost use Rattle.std.specs.Prelude.{◌≡◌, true, IfOk, IfSome, OnOk};
    ghost use Rattle.match_rules.specs.Id.{is_institution};

    /// An equal institution, where the reviewer has one.
    pub fn copy_institution(&self, alloc: Global) -> Result<Option<Institution>, AllocError>
        ensures same { IfOk result (λ copy. copy ≡ self.now.institution) }
        ensures good { OnOk result (IfSome self.now.institution (λ name. is_institution name ≡ true)) }
    {
        match &self.institution {
            Some(institution) => Ok(Some(institution.copy(alloc)?)),
            None => Ok(None),
        }
    }
}

impl Row for ReviewerRow {
    ghost key = { λ row. row.id };

    fn key(&self) -> &str {
        self.id.text()
    }

    fn copy(&self, alloc: Global) -> Result<Self, AllocError> {
        let id = self.id.copy(alloc)?;
        let institution = self.copy_institution(alloc)?;
        Ok(ReviewerRow {
            id,
            institution,
            load: self.load,
        })
    }
}

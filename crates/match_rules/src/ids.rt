// The ids of papers, reviewers and institutions.

ghost use Rattle.std.specs.Prelude.{◌≡◌, ◌↔◌, true, false, IfOk, OnOk, Err};
ghost use Rattle.std.specs.Cmp.Lexicographic.{slice_cmp};
ghost use Rattle.std.specs.List.{list_all};
ghost use Rattle.std.specs.Ordering.{nat_cmp};
ghost use Rattle.std.specs.Str.{chars};
ghost use Rattle.std.specs.String.{string_bytes};
ghost use Rattle.match_rules.specs.Id.{is_id, is_institution, is_id_char, is_institution_char, has_id_length};

use std::alloc::{AllocError, Global};
use std::cmp::Ordering;
use std::marker::Model;

/// The greatest number of bytes of an id.
pub const MOST_ID_BYTES: usize = 128;

/// Why a text was not taken as an id.
#[derive(Clone, Copy)]
pub enum IdFault {
    /// The text isn't an id.
    BadId,
    /// Memory was wanting.
    Memory,
}

// The text of an id of any kind. Each kind below is one that passed the kind's test.
#[derive(Drop)]
struct Name {
    text: String,
}

impl Model for Name {
    ghost use Rattle.std.specs.Prelude.{List, ℕ};
    ghost use Rattle.std.specs.String.{string_bytes};

    ghost Value = { List ℕ };

    ghost view = { λ name. string_bytes name.text };
}

impl Name {
    // The text, where it passed its test.
    fn tested(alloc: Global, text: &str, passed: bool) -> Result<Self, IdFault>
        ensures same { IfOk result (λ name. name ≡ text.now) }
        ensures good { OnOk result (passed ≡ true) }
        ensures bad { (result ≡ Err IdFault.BadId) ↔ (passed ≡ false) }
    {
        if !passed {
            return Err(IdFault::BadId);
        }
        match String::from_str(alloc, text) {
            Ok(text) => Ok(Name { text }),
            Err(_) => Err(IdFault::Memory),
        }
    }

    fn as_str(&self) -> &str
        ensures { result.now ≡ self.now }
    {
        self.text.as_str()
    }

    fn copy(&self, alloc: Global) -> Result<Self, AllocError>
        ensures { IfOk result (λ name. name ≡ self.now) }
    {
        let text = String::from_str(alloc, self.text.as_str())?;
        Ok(Name { text })
    }

    // The order of the bytes.
    fn cmp(&self, other: &Name) -> Ordering
        ensures { result ≡ slice_cmp nat_cmp self.now other.now }
    {
        self.text.as_bytes().cmp(other.text.as_bytes())
    }
}

/// The id of a paper: 1 to 128 bytes of UTF-8 without white space, control characters, commas and quotation marks. Ids
/// are ordered by their bytes.
#[derive(Drop)]
pub struct PaperId {
    name: Name,
}

impl Model for PaperId {
    ghost use Rattle.std.specs.Prelude.{◌≡◌, true, List, ℕ};
    ghost use Rattle.match_rules.specs.Id.{is_id};

    ghost Value = { List ℕ };

    ghost view = { λ id. id.name };

    ghost invariant = { λ id. is_id id.name ≡ true };
}

impl PaperId {
    /// The id that a text spells.
    pub fn read(alloc: Global, text: &str) -> Result<Self, IdFault>
        ensures same { IfOk result (λ id. id ≡ text.now) }
        ensures good { OnOk result (is_id text.now ≡ true) }
        ensures bad { (result ≡ Err IdFault.BadId) ↔ (is_id text.now ≡ false) }
    {
        let name = Name::tested(alloc, text, is_id_text(text))?;
        Ok(PaperId { name })
    }

    /// The text of the id.
    pub fn text(&self) -> &str
        ensures same { result.now ≡ self.now }
        ensures kept { is_id self.now ≡ true }
    {
        self.name.as_str()
    }

    /// The text of the id, without taking memory.
    pub fn into_string(self) -> String
        ensures { string_bytes result ≡ self }
    {
        self.name.text
    }

    /// An equal id.
    pub fn copy(&self, alloc: Global) -> Result<Self, AllocError>
        ensures same { IfOk result (λ id. id ≡ self.now) }
    {
        let name = self.name.copy(alloc)?;
        Ok(PaperId { name })
    }

    /// The order of the ids' bytes.
    pub fn cmp(&self, other: &PaperId) -> Ordering
        ensures { result ≡ slice_cmp nat_cmp self.now other.now }
    {
        self.name.cmp(&other.name)
    }
}

/// The id of a reviewer, by the rules of a paper's id.
#[derive(Drop)]
pub struct ReviewerId {
    name: Name,
}

impl Model for ReviewerId {
    ghost use Rattle.std.specs.Prelude.{◌≡◌, true, List, ℕ};
    ghost use Rattle.match_rules.specs.Id.{is_id};

    ghost Value = { List ℕ };

    ghost view = { λ id. id.name };

    ghost invariant = { λ id. is_id id.name ≡ true };
}

impl ReviewerId {
    /// The id that a text spells.
    pub fn read(alloc: Global, text: &str) -> Result<Self, IdFault>
        ensures same { IfOk result (λ id. id ≡ text.now) }
        ensures good { OnOk result (is_id text.now ≡ true) }
        ensures bad { (result ≡ Err IdFault.BadId) ↔ (is_id text.now ≡ false) }
    {
        let name = Name::tested(alloc, text, is_id_text(text))?;
        Ok(ReviewerId { name })
    }

    /// The text of the id.
    pub fn text(&self) -> &str
        ensures same { result.now ≡ self.now }
        ensures kept { is_id self.now ≡ true }
    {
        self.name.as_str()
    }

    /// The text of the id, without taking memory.
    pub fn into_string(self) -> String
        ensures { string_bytes result ≡ self }
    {
        self.name.text
    }

    /// An equal id.
    pub fn copy(&self, alloc: Global) -> Result<Self, AllocError>
        ensures same { IfOk result (λ id. id ≡ self.now) }
    {
        let name = self.name.copy(alloc)?;
        Ok(ReviewerId { name })
    }

    /// The order of the ids' bytes.
    pub fn cmp(&self, other: &ReviewerId) -> Ordering
        ensures { result ≡ slice_cmp nat_cmp self.now other.now }
    {
        self.name.cmp(&other.name)
    }
}

/// The name of an institution, by the rules of an id, and without semicolons.
#[derive(Drop)]
pub struct Institution {
    name: Name,
}

impl Model for Institution {
    ghost use Rattle.std.specs.Prelude.{◌≡◌, true, List, ℕ};
    ghost use Rattle.match_rules.specs.Id.{is_institution};

    ghost Value = { List ℕ };

    ghost view = { λ id. id.name };

    ghost invariant = { λ id. is_institution id.name ≡ true };
}

impl Institution {
    /// The institution that a text names.
    pub fn read(alloc: Global, text: &str) -> Result<Self, IdFault>
        ensures same { IfOk result (λ id. id ≡ text.now) }
        ensures good { OnOk result (is_institution text.now ≡ true) }
        ensures bad { (result ≡ Err IdFault.BadId) ↔ (is_institution text.now ≡ false) }
    {
        let name = Name::tested(alloc, text, is_institution_text(text))?;
        Ok(Institution { name })
    }

    /// The text of the name.
    pub fn text(&self) -> &str
        ensures same { result.now ≡ self.now }
        ensures kept { is_institution self.now ≡ true }
    {
        self.name.as_str()
    }

    /// An equal name.
    pub fn copy(&self, alloc: Global) -> Result<Self, AllocError>
        ensures same { IfOk result (λ id. id ≡ self.now) }
    {
        let name = self.name.copy(alloc)?;
        Ok(Institution { name })
    }

    /// The order of the names' bytes.
    pub fn cmp(&self, other: &Institution) -> Ordering
        ensures { result ≡ slice_cmp nat_cmp self.now other.now }
    {
        self.name.cmp(&other.name)
    }
}

fn is_id_char(c: char) -> bool
    ensures { result ≡ is_id_char c }
{
    !(c.is_whitespace() || c.is_control() || c == ',' || c == '"')
}

fn is_institution_char(c: char) -> bool
    ensures { result ≡ is_institution_char c }
{
    is_id_char(c) && c != ';'
}

fn has_id_chars(text: &str) -> bool
    ensures { result ≡ list_all is_id_char (chars text.now) }
{
    text.chars().all(|c| is_id_char(c))
}

fn has_institution_chars(text: &str) -> bool
    ensures { result ≡ list_all is_institution_char (chars text.now) }
{
    text.chars().all(|c| is_institution_char(c))
}

fn has_id_length(text: &str) -> bool
    ensures { result ≡ has_id_length text.now }
{
    let bytes = text.len();
    1 <= bytes && bytes <= MOST_ID_BYTES
}

fn is_id_text(text: &str) -> bool
    ensures { result ≡ is_id text.now }
{
    if !has_id_length(text) {
        return false;
    }
    has_id_chars(text)
}

fn is_institution_text(text: &str) -> bool
    ensures { result ≡ is_institution text.now }
{
    if !has_id_length(text) {
        return false;
    }
    has_institution_chars(text)
}

use std::alloc::{AllocError, AllocFailed};

/// The first key of the settings that is at fault.
#[derive(Clone, Copy, Debug)]
pub enum Key {
    Unknown,
    Limit,
    Cap,
    Pairs,
    Demand,
    Least,
    Greatest,
    Source,
    Bids,
}

/// What is wrong with a record or a file.
#[derive(Clone, Copy, Debug)]
pub enum Code {
    /// The file has more records than its limit, or a field more than 64 institutions.
    TooMany,
    /// A field isn't UTF-8.
    NotUtf8,
    /// The number of fields isn't that of the columns.
    WrongWidth,
    /// An id or an institution isn't one.
    BadId,
    /// A demand isn't a number of 1 to 9 digits that is at most 100.
    BadDemand,
    /// Least and greatest load aren't both empty, nor two numbers of 1 to 9 digits that make a load.
    BadLoad,
    /// A value, mark or cap isn't a value text.
    BadNumber,
    /// A value, mark or cap is above 10 or below -10.
    OutOfRange,
    /// A bid isn't one of the words of the settings.
    UnknownWord,
    /// The rounded mark isn't -1, 0 or 1.
    BadMark,
    /// The rounded cap isn't from 0 to 1.
    BadCap,
    /// The settings aren't a TOML document in UTF-8.
    NotToml,
    /// The settings have this key at fault first.
    BadSetting { key: Key },
    /// The settings have no source of values of that name.
    UnknownSource,
    /// The file isn't there.
    Missing,
    /// The file has more than 33,554,432 bytes.
    TooLong,
}

/// Why a file wasn't read.
#[derive(Clone, Copy)]
pub enum ImportFault {
    /// Memory was wanting.
    Memory,
    /// The record of this number, counted from 1 with the skipped one, is the first at fault; or 0 for the
    /// whole file.
    Bad { row: u64, code: Code },
}

// Why a record gave no row.
#[derive(Clone, Copy)]
pub(crate) enum RowFault {
    Memory,
    Wrong(Code),
}

impl From<Code> for RowFault {
    ghost use Rattle.std.specs.Prelude.{◌≡◌};
    ghost use Rattle.bid_import.specs.declared.fault.RowFault.TheVariants.{Wrong};

    ghost from_gives = { λ code fault. fault ≡ Wrong code };

    fn from(code: Code) -> RowFault {
        RowFault::Wrong(code)
    }
}

impl From<AllocError> for RowFault {
    ghost use Rattle.std.specs.Prelude.{◌≡◌};
    ghost use Rattle.bid_import.specs.declared.fault.RowFault.TheVariants.{Memory};

    ghost from_gives = { λ _ fault. fault ≡ Memory };

    fn from(_error: AllocError) -> RowFault {
        RowFault::Memory
    }
}

impl<T: Drop> From<AllocFailed<T>> for RowFault {
    ghost use Rattle.std.specs.Prelude.{◌≡◌};
    ghost use Rattle.bid_import.specs.declared.fault.RowFault.TheVariants.{Memory};

    ghost from_gives = { λ _ fault. fault ≡ Memory };

    fn from(_error: AllocFailed<T>) -> RowFault {
        RowFault::Memory
    }
}

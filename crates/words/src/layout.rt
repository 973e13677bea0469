// Where the fields of each kind of word stand.
use crate::field::Field;

pub(crate) const KIND: Field = Field { low: 28, width: 4 };

// of a period
pub(crate) const YEAR: Field = Field { low: 16, width: 12 };

pub(crate) const MONTH: Field = Field { low: 12, width: 4 };

pub(crate) const PERIOD_SPARE: Field = Field { low: 10, width: 2 };

pub(crate) const HOURS: Field = Field { low: 0, width: 10 };

// of a segment, a factor, a meter and a select
pub(crate) const SEGMENT_NUMBER: Field = Field { low: 26, width: 2 };

// of a segment
pub(crate) const SERVICE: Field = Field { low: 24, width: 2 };

pub(crate) const SEGMENT_SPARE: Field = Field { low: 14, width: 10 };

pub(crate) const TARIFF: Field = Field { low: 0, width: 14 };

// of a factor
pub(crate) const FACTOR_SPARE: Field = Field { low: 11, width: 15 };

pub(crate) const PER_MILLE: Field = Field { low: 0, width: 11 };

// of a meter
pub(crate) const USER: Field = Field { low: 22, width: 4 };

pub(crate) const STATION: Field = Field { low: 18, width: 4 };

pub(crate) const METER_SPARE: Field = Field { low: 6, width: 12 };

pub(crate) const METER_NUMBER: Field = Field { low: 0, width: 6 };

// of a select and a carried peak
pub(crate) const METER_NAMED: Field = Field { low: 20, width: 6 };

// of a select
pub(crate) const SELECT_SPARE: Field = Field { low: 10, width: 10 };

pub(crate) const HOUR: Field = Field { low: 0, width: 10 };

// of an amount
pub(crate) const AMOUNT_SPARE: Field = Field { low: 15, width: 13 };

// of a carried peak
pub(crate) const CARRIED_HIGH: Field = Field { low: 26, width: 2 };

pub(crate) const CARRIED_LOW: Field = Field { low: 15, width: 5 };

// of an amount and a carried peak
pub(crate) const KWH: Field = Field { low: 0, width: 15 };
